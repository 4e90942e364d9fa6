//! kill: signals that a program sends. No call takes memory.
#![tactic(auto)]

mod one;
mod start;

pub use one::{KillOne, KillStep};
pub use start::{KillStart, begin};
