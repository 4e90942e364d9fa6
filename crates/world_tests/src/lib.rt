//! Worlds of threads that rest, by their calls: how a world is used, and that what it asks of parts can be given.
#![tactic(auto)]

mod rests;
#[cfg(test)]
mod tests;

pub use rests::Rests;
