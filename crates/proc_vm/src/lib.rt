//! Process instructions: what is next in a program, blocks of local instructions on the process's memory, the result
//! of a call, and the frames of signal handlers. The memory is changed in place; no call takes memory.
#![tactic(auto)]

mod block;
mod frames;
mod kept;
mod next;
mod readers;
mod step;
#[cfg(test)]
mod tests;
mod words;
mod writers;

pub use block::run_block;
pub use frames::{NoFrame, NoRoom, pop_frame, push_frame};
pub use kept::{Change, Undo, run_block_kept, undo_block};
pub use next::{CallInstr, Next, next_instr};
pub use readers::{next_place, operand_value, program_number, register, stack_in_use};
pub use writers::set_result;
