//! Reads the text of a script, and prints a script.
#![tactic(auto)]

mod error;
mod field;
mod first_word;
mod heading;
mod instr_print;
mod instruction;
mod least;
mod line;
mod line_print;
mod number;
mod piece;
mod place;
mod print;
mod reader;
mod script;
mod word_print;
mod words;

pub use error::ScriptError;
pub use print::print_script;
pub use script::read_script;
pub use script_spec::{Kind, Lines, Occupied, OccupiedPage, ScheduleLine, Script};
pub use w32_base::Memory;
