//! The POSIX machine: which events are steps in a state, and the state after them.
//!
//! `State` opens by a script and takes any event. `Machine` has its parts, and there is a function for each event.
#![tactic(auto)]

pub mod asked;
pub mod change;
pub mod changed;
pub mod checks;
pub mod console;
pub mod deaths;
pub mod delivers;
pub mod execs;
pub mod finds;
pub mod forks;
pub mod groups;
pub mod groups_seen;
pub mod handlers;
pub mod images;
pub mod kills;
pub mod lines;
pub mod machine;
pub mod marks;
pub mod numbers;
pub mod opening;
pub mod operands;
pub mod own;
pub mod process;
pub mod results;
pub mod returns;
pub mod rule;
pub mod runs;
pub mod scans;
pub mod sending;
pub mod signal_acts;
pub mod signal_calls;
pub mod state;
pub mod step;
pub mod table;
pub mod terminal;
pub mod waits;
