//! The modelled Win32: its processes with their handles, memory and posted calls, the objects that they share, and what
//! each call of a thread does to them.
#![tactic(auto)]

mod caller;
mod machine;

pub use caller::Caller;
pub use machine::{Machine, Turned};
pub use w32_section::BadIndex;
