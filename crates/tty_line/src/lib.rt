//! The terminal's line discipline (POSIX.1-2017, XBD 11): keys are taken into lines, and lines are read. No call takes
//! memory.
#![tactic(auto)]

mod line;
mod tty;

pub use tty::{KeyDone, Tty, TtyState};

#[cfg(test)]
mod tests;
