//! The objects of the modelled Win32 that threads wait for: events, mutexes and pipes. None of them takes
//! memory, and each call that refuses leaves its object as it was.
#![tactic(auto)]

mod event;
mod mutex;
mod pipe;

pub use event::WinEvent;
pub use mutex::{NotOwner, Took, WinMutex};
pub use pipe::{GetFault, MOST_PIPE_HANDLES, Pipe, PipeEnd, PutFault};
