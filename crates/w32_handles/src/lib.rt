//! The handles of a process, and the table of the objects that handles name.
#![tactic(auto)]

pub mod handles;
pub mod objects;

pub use handles::{BadHandle, Handles, TableFull};
pub use objects::Objects;
pub use w32_base::Memory;
