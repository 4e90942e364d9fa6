//! What the parts of the layer share that carry out a program's calls: turns that change own bytes, the result of a
//! call, the words of a row, the calls by fixed handles, and parts of `roster` inside a bigger part. No call takes
//! memory.
#![tactic(auto)]

mod calls;
mod inner;
mod results;
#[cfg(test)]
mod tests;
mod words;

pub use calls::{exchange, load, rest};
pub use inner::{hold_call, hold_turn, let_call, let_turn, post_turn};
pub use results::{answer, result_of};
pub use words::{changed, exit_place, group_place, is_live, is_process, main_place};
