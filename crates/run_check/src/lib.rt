//! Whether a list of events is a run of the POSIX machine, and what a text of a script and a log is.
#![tactic(auto)]

pub mod judging;
mod parts;
pub mod verdict;

pub use judging::{Judged, judge};
pub use verdict::{MOST_EVENTS, Verdict, check};
