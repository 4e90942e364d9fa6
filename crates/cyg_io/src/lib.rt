//! The traits of the outside, what meets them in memory and over std, and the reading and writing of a
//! whole text.
#![tactic(auto)]

pub mod clean;
pub mod gate;
pub mod in_memory;
pub mod over_std;
pub mod sink;
pub mod source;
mod supply;

pub use clean::{CleanSink, CleanSource};
pub use gate::{Gate, OpenGate, Place};
pub use in_memory::{MemSink, MemSource};
pub use over_std::{StdSink, StdSource};
pub use sink::{Sink, WriteFailed, write_all};
pub use source::{ReadAllFault, ReadFailed, Source, read_all};
pub use w32_base::Memory;
