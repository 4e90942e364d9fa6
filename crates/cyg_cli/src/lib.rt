//! The top call of the program: from the words and the bytes of a script to the bytes of its log.
#![tactic(auto)]

mod checking;
mod commands;
mod top;

pub use cyg_io::{
    CleanSink, CleanSource, MemSink, MemSource, ReadFailed, Sink, Source, StdSink, StdSource,
    WriteFailed,
};
pub use cyg_runs::{RunAnswer as TopAnswer, Status};
pub use top::run_top;
