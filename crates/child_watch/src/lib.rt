//! Ends of processes: a process's own end, and the collecting of zombies. No call takes memory.
#![tactic(auto)]

mod children;
mod collect;
mod ending;
mod exiting;

pub use children::listed_child;
pub use collect::Gather;
pub use ending::Ending;
pub use exiting::{ExitStep, Exiting};
