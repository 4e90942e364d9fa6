//! A machine of the modelled Win32 on which any thread may post any call at any time.
#![tactic(auto)]

mod stage;
mod steps;

pub use stage::{Stage, TWO_SLOTS, handle, handles};
pub use steps::Step;
