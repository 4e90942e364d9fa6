//! A machine of the modelled Win32 whose threads are driven by parts.
#![tactic(auto)]

mod driven;

pub use driven::{Driven, DrivenTurn};
