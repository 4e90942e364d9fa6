//! What every crate of the project speaks of: numbers, Win32 calls and replies, POSIX events, process
//! programs, the journal, and the interface that each part of the layer meets.
#![tactic(auto)]

pub mod call;
pub mod entry;
pub mod event;
pub mod instr;
pub mod lists;
pub mod names;
pub mod numbers;
pub mod own;
pub mod part;
pub mod setup;

pub use call::{Call, Region, Reply, TtyOp};
pub use entry::{Directive, End, Entry, Journal, Outcome, View};
pub use event::{Answer, Death, Delivery, Errno, Event, ExecCause, Field, ForkCause, NewAction};
pub use instr::{Action, Instr, MaskChange, Operand, Register};
pub use lists::{Bytes64, HandleList, ShortBytes};
pub use names::Name;
pub use numbers::{Acting, HandleNo, Number, ObjectNo, Pid, RowNo, Slot, ThreadNo, WinNo};
pub use own::{Bytes, Memory, Own};
pub use part::{After, Part, Whole};
pub use setup::{Code, Limits, Module, Modules, Program, Programs, Setup};

#[cfg(test)]
mod tests;
