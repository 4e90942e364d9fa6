//! The texts of a log, as definitions that contracts cite: what each call, reply, directive, outcome and event is
//! written as, the log of a journal in its three views, and the texts that the reader of view `events` takes.
#![tactic(auto)]

/// How many bytes an event's line shows at the most.
pub const MOST_SHOWN: usize = 64;

/// The greatest number of a process.
pub const MOST_NUMBER: u16 = 4001;
