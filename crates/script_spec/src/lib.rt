//! The script that everybody speaks of: its value, and as definitions that contracts cite the grammar of its text, the
//! first fault of a text that is no script, and the one canonical print of a script.
#![tactic(auto)]

pub mod fault;
pub mod script;

pub use fault::{DirectiveWord, FirstWord, InstrWord, Kind, Sort};
pub use script::{Lines, Occupied, OccupiedPage, ScheduleLine, Script};

/// How many bytes a script's text has at the most.
pub const MOST_BYTES: usize = 1_048_576;

/// How many bytes a line has at the most, without its end.
pub const MOST_LINE: usize = 200;

/// How many pages of new processes a script may occupy.
pub const MOST_OCCUPIED: usize = 64;

/// How many lines a schedule may have.
pub const MOST_LINES: usize = 10_000;
