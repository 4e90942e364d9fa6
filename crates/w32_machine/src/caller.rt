//! The thread that makes a call.

ghost use Rattle.std.specs.Prelude.{◌≡◌};

use w32_base::{Slot, ThreadNo, WinNo};

/// The thread that makes a call, with its process.
#[derive(Clone, Copy, Debug)]
pub struct Caller {
    /// The slot of its process.
    pub slot: Slot,
    /// The number of its process.
    pub process: WinNo,
    /// Its own number.
    pub thread: ThreadNo,
}

impl Caller {
    /// The thread as the owner of a mutex.
    pub fn owner(&self) -> (WinNo, ThreadNo)
        ensures process { result.0 ≡ self.now.process }
        ensures thread { result.1 ≡ self.now.thread }
    {
        (self.process, self.thread)
    }
}
