//! The words of a row: their fields as types that keep their ranges, and how the main word may change. No call takes
//! memory.
#![tactic(auto)]

mod changes;
mod codec;
#[cfg(test)]
mod tests;
mod words;

pub use changes::{Op, trans};
pub use words::{Exit, Group, Main, RowKind};
