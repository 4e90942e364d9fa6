//! The host's threads, and the terminal's process groups. No call takes memory.
#![tactic(auto)]

mod starter;
#[cfg(test)]
mod tests;

pub use starter::Starter;
