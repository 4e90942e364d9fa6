//! What a machine of the modelled Win32 keeps as a run of a script begins.
#![tactic(auto)]

mod copying;
mod cygheap;
mod numbers;
mod objects;
mod parts;
mod processes;

pub use copying::script_of;
pub use numbers::Numbers;
pub use objects::first_objects;
pub use parts::{first_calls, first_modules, first_placements};
pub use processes::first_processes;
