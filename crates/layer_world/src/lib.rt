//! The world: the Win32 machine that is driven by the layer's parts, and the journal of what was carried out. Each
//! directive leads from a history of both machines to one that is one step longer.
#![tactic(auto)]

mod carry;
mod recorder;
mod run;
mod world;

pub use world::World;
