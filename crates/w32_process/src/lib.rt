//! The processes: which of them live in which slots, how often their threads are suspended, and with which codes the
//! others ended.
#![tactic(auto)]

mod kept;
mod processes;
mod seat;

pub use processes::{MOST_KEPT, NoSlot, Processes};
