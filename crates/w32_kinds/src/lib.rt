//! The kinds of objects that handles name, and the modules that are placed in a process, as a machine of the modelled
//! Win32 keeps them.
#![tactic(auto)]

mod kind;
mod placements;

pub use kind::terminals::{is_behind, stops_writers};
pub use kind::{Kind, WORDS, end_of};
pub use placements::{Placement, Placements};
