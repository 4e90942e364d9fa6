//! How a process ends, and what it leaves.

ghost use Rattle.std.specs.Prelude.{◌≡◌, ◌<◌, ◌≤◌, ◌+◌};
ghost use Rattle.child_watch.specs.Ending.{status_of, is_fault, death_of, word_of};

use roster::Signal;
use w32_base::{Death, WinNo};

/// How a process ends.
#[derive(Clone, Copy, Debug, PartialEq, Eq)]
pub enum Ending {
    /// It exits with a code.
    Exit(u8),
    /// A signal ends it.
    Signal(Signal),
    /// An image fault ends it, as SEGV does, whatever its action for SEGV is.
    Fault,
}

impl Ending {
    /// The status that it leaves: the code, or 256 and the signal.
    pub fn status(&self) -> u16
        ensures value { result ≡ status_of self.now }
        ensures range { result < 512 }
    {
        match *self {
            Ending::Exit(code) => u16::from(code),
            Ending::Signal(signal) => 256 + u16::from(signal.get()),
            Ending::Fault => 267,
        }
    }

    /// What its death is called.
    pub fn death(&self) -> Death
        ensures { result ≡ death_of self.now }
    {
        match *self {
            Ending::Exit(_) => Death::Exit,
            Ending::Signal(_) => Death::Signal,
            Ending::Fault => Death::Fault,
        }
    }

    // Whether it is an image fault.
    fn is_fault(&self) -> bool
        ensures { result ≡ is_fault self.now }
    {
        matches!(*self, Ending::Fault)
    }

    /// The exit word that an image leaves.
    pub fn word(&self, image: WinNo) -> u64
        ensures { result ≡ word_of image self.now }
    {
        let fault = if self.is_fault() { 1 << 28 } else { 0 };
        u64::from(self.status()) + u64::from(image.get()) * 512 + fault
    }
}
