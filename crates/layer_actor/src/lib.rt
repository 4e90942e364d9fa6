//! The parts of the layer's threads: each thread has one for its whole life, which is the sum of what it may do. No
//! call takes memory.
#![tactic(auto)]

mod actor;
mod built_words;
mod doing;
mod gets;
mod guarantee;
mod identity;
mod idle;
mod local;
mod look;
mod start;

pub use actor::{Actor, MainThread, Serves};
pub use built_words::built;
pub use doing::Doing;
pub use gets::{Asked, GetStep, Gets};
pub use identity::Identity;
pub use idle::Idle;
pub use local::Local;
pub use look::Look;
pub use start::{Start, StartStep};
