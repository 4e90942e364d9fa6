//! Sets of signals (POSIX.1-2017, XSH 2.4), and what becomes of a signal: which pending ones its generation takes
//! away, which one is delivered next, and what it does by default. No call takes memory.
#![tactic(auto)]

mod set;
mod signals;
#[cfg(test)]
mod tests;

pub use set::SigSet;
pub use signals::{ByDefault, clean_mask, default_of, deliverable, generate};
