//! Pipes.

ghost use Rattle.std.specs.Prelude.{◌≡◌, ◌+◌, ◌-◌, ◌<◌, ◌≤◌, ◌↔◌, [], ◌∷◌, ◌++◌, length, IfOk, OnErr};
ghost use Rattle.win32_spec.specs.Objects.{PipeState, pipe_is_signalled, put_reply, put_after, get_reply, get_after};
ghost use Rattle.w32_sync.specs.Ends.{IsInBounds, handles_on, with_handles, reply_of_put, reply_of_get};

use std::marker::Model;
use win32_spec::PIPE_ROOM;

/// How many handles there may be on an end of a pipe: each of 65 processes has at most 64.
pub const MOST_PIPE_HANDLES: u16 = 4160;

/// An end of a pipe.
#[derive(Clone, Copy, Debug, PartialEq, Eq)]
pub enum PipeEnd {
    /// The end from which bytes are taken.
    Read,
    /// The end into which bytes are put.
    Write,
}

/// Why a byte couldn't be put into a pipe.
#[derive(Clone, Copy, Debug, PartialEq, Eq)]
pub enum PutFault {
    /// No handle on the read end is left.
    NoReader,
    /// The pipe holds 64 bytes.
    Full,
}

/// Why no byte could be taken out of a pipe.
#[derive(Clone, Copy, Debug, PartialEq, Eq)]
pub enum GetFault {
    /// It has no byte, and no handle on the write end is left, so none can come.
    Broken,
    /// It has no byte, and a handle on the write end is left.
    Empty,
}

/// A pipe: up to 64 bytes, of which the oldest comes out first, and the numbers of its read and write handles.
///
/// The bytes stand in a ring, from place `oldest` on and round the end.
#[derive(Debug, Drop)]
pub struct Pipe {
    ring: [u8; PIPE_ROOM],
    oldest: usize,
    len: usize,
    readers: u16,
    writers: u16,
}

impl Model for Pipe {
    ghost use Rattle.win32_spec.specs.Objects.{PipeState};

    ghost Value = { PipeState };

    ghost use Rattle.w32_sync.specs.Ring.{pipe_shown, IsPipe};

    ghost view = { pipe_shown };

    ghost invariant = { IsPipe };
}

impl Pipe {
    /// A pipe without bytes and without handles.
    pub fn new() -> Pipe
        ensures { result ≡ record { bytes = []; readers = 0; writers = 0 } }
    {
        Pipe {
            ring: [0; PIPE_ROOM],
            oldest: 0,
            len: 0,
            readers: 0,
            writers: 0,
        }
    }

    /// Adds a handle on this end.
    pub fn hold(&mut self, end: PipeEnd)
        requires { handles_on self.old end < MOST_PIPE_HANDLES }
        ensures value { self.new ≡ with_handles self.old end (handles_on self.old end + 1) }
        ensures bounds { IsInBounds self.new }
    {
        match end {
            PipeEnd::Read => self.readers += 1,
            PipeEnd::Write => self.writers += 1,
        }
    }

    /// Takes a handle on this end away.
    pub fn leave(&mut self, end: PipeEnd)
        requires { 0 < handles_on self.old end }
        ensures value { self.new ≡ with_handles self.old end (handles_on self.old end - 1) }
        ensures bounds { IsInBounds self.new }
    {
        match end {
            PipeEnd::Read => self.readers -= 1,
            PipeEnd::Write => self.writers -= 1,
        }
    }

    /// Whether a wait for its read end ends: it has a byte, or none can come.
    pub fn signalled(&self) -> bool
        ensures value { result ≡ pipe_is_signalled self.now }
        ensures bounds { IsInBounds self.now }
    {
        self.len > 0 || self.writers == 0
    }

    /// Puts a byte behind the others.
    ///
    /// # Errors
    ///
    /// No reader is left, or else the pipe is full; it stays as it was.
    pub fn put(&mut self, b: u8) -> Result<(), PutFault>
        ensures no_reader { (result ≡ Err PutFault.NoReader) ↔ (self.old.readers ≡ 0) }
        ensures full { (result ≡ Err PutFault.Full) ↔ ((0 < self.old.readers) × (length self.old.bytes ≡ 64)) }
        ensures after { self.new ≡ put_after self.old b }
        ensures unchanged { OnErr result (self.new ≡ self.old) }
        ensures bounds { IsInBounds self.new }
        ensures reply { reply_of_put result ≡ put_reply self.old }
    {
        if self.readers == 0 {
            return Err(PutFault::NoReader);
        }
        if self.len == PIPE_ROOM {
            return Err(PutFault::Full);
        }
        self.push(b);
        Ok(())
    }

    /// Takes the oldest byte out.
    ///
    /// # Errors
    ///
    /// It has no byte; it stays as it was.
    pub fn get(&mut self) -> Result<u8, GetFault>
        ensures broken { (result ≡ Err GetFault.Broken) ↔ ((self.old.bytes ≡ []) × (self.old.writers ≡ 0)) }
        ensures empty { (result ≡ Err GetFault.Empty) ↔ ((self.old.bytes ≡ []) × (0 < self.old.writers)) }
        ensures oldest { IfOk result (λ b. self.old.bytes ≡ b ∷ self.new.bytes) }
        ensures after { self.new ≡ get_after self.old }
        ensures unchanged { OnErr result (self.new ≡ self.old) }
        ensures bounds { IsInBounds self.new }
        ensures reply { reply_of_get result ≡ get_reply self.old.bytes self.old.writers }
    {
        if self.len > 0 {
            return Ok(self.pop());
        }
        if self.writers == 0 {
            Err(GetFault::Broken)
        } else {
            Err(GetFault::Empty)
        }
    }

    /// Puts a byte behind the others, where there is room.
    fn push(&mut self, b: u8)
        requires { length self.old.bytes < 64 }
        ensures { self.new ≡ record self.old { bytes = self.old.bytes ++ b ∷ [] } }
    {
        self.ring[(self.oldest + self.len) % PIPE_ROOM] = b;
        self.len += 1;
    }

    /// Takes the oldest byte out, where there is one.
    fn pop(&mut self) -> u8
        requires { 0 < length self.old.bytes }
        ensures { self.old ≡ record self.new { bytes = result ∷ self.new.bytes } }
    {
        let byte = self.ring[self.oldest];
        self.oldest = (self.oldest + 1) % PIPE_ROOM;
        self.len -= 1;
        byte
    }
}

#[cfg(test)]
mod tests {
    use super::*;

    #[test]
    fn holds_64_bytes_and_gives_the_oldest_first(rt: HostRuntime) {
        let mut pipe = Pipe::new();
        pipe.hold(PipeEnd::Write);
        pipe.hold(PipeEnd::Read);
        assert_eq!(rt; pipe.get(), Err(GetFault::Empty));
        let mut last = Ok(());
        for byte in 1..=65 {
            assert_eq!(rt; last, Ok(()));
            last = pipe.put(byte);
        }
        assert_eq!(rt; last, Err(PutFault::Full));
        assert!(rt; pipe.signalled());
        assert_eq!(rt; pipe.get(), Ok(1));
        assert_eq!(rt; pipe.put(66), Ok(()));
        assert_eq!(rt; pipe.get(), Ok(2));
    }

    #[test]
    fn breaks_once_no_writer_is_left(rt: HostRuntime) {
        let mut pipe = Pipe::new();
        assert_eq!(rt; pipe.put(1), Err(PutFault::NoReader));
        pipe.hold(PipeEnd::Write);
        assert!(rt; !pipe.signalled());
        pipe.leave(PipeEnd::Write);
        assert!(rt; pipe.signalled());
        assert_eq!(rt; pipe.get(), Err(GetFault::Broken));
    }
}
