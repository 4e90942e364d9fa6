//! The memory of a process: its five regions, and where modules are placed in it.
#![tactic(auto)]

mod pages;
mod regions;

pub use pages::{PAGES, place};
pub use regions::{BadRange, open_own, read_own, write_own};
