//! The text of a journal's log in three views, written to a sink line by line without memory, and the reader of view
//! `events`.
#![tactic(auto)]

mod call;
mod caller;
mod calls;
mod entry;
mod error;
mod event;
mod first_word;
mod line;
mod output;
mod read;
mod read_event;
mod read_words;
mod reply;
mod terminal;
mod within;
mod words;
mod write;

pub use error::LogError;
pub use read::read_events;
pub use write::write_log;
