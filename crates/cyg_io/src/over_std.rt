//! A reader and a writer of std as a source and a sink. They tell of their bytes what std's reader and writer tell.

ghost use Rattle.std.specs.Prelude.{◌≡◌, None};

use crate::sink::{Sink, WriteFailed};
use crate::source::{ReadFailed, Source};
use std::io::{Read, Write};
use std::marker::Model;

/// A reader as a source. Each error of the reader counts as a fault, also an interruption. A contract sees the reader,
/// and the counts of faults, of bytes given and of ends. The bytes left are those that the reader tells.
#[derive(Debug, Drop)]
pub struct StdSource<R> {
    reader: R,
    faults: u64,
    given: u64,
    ends: u64,
}

impl<R> Model for StdSource<R> {
    ghost use Rattle.std.specs.Prelude.{◌<◌, ◌^◌};
    ghost use Rattle.cyg_io.specs.States.{CountingReader};

    ghost Value = { CountingReader R };

    ghost view = { λ s. record { reader = s.reader; faults = s.faults; given = s.given; ends = s.ends } };

    ghost invariant = { λ s. (s.faults < 2 ^ 64) × (s.given < 2 ^ 64) × (s.ends < 2 ^ 64) };
}

impl<R: Read> StdSource<R> {
    /// Gives what the reader reads.
    pub fn new(reader: R) -> StdSource<R>
        ensures reader { result.reader ≡ reader }
        ensures faults { result.faults ≡ 0 }
        ensures given { result.given ≡ 0 }
        ensures ends { result.ends ≡ 0 }
    {
        StdSource {
            reader,
            faults: 0,
            given: 0,
            ends: 0,
        }
    }
}

impl<R: Read> Source for StdSource<R> {
    ghost remaining = { λ s. R.remaining s.reader };

    ghost faults = { λ s. s.faults };

    ghost given = { λ s. s.given };

    ghost ends = { λ s. s.ends };

    fn read(&mut self, buf: &mut [u8]) -> Result<usize, ReadFailed> {
        match self.reader.read(buf) {
            Ok(count) => {
                self.given = self.given.saturating_add(count as u64);
                if count == 0 {
                    self.ends = self.ends.saturating_add(1);
                }
                Ok(count)
            }
            Err(_) => {
                self.faults = self.faults.saturating_add(1);
                Err(ReadFailed)
            }
        }
    }
}

/// A writer as a sink. Each error of the writer counts as a fault, and so does a write that takes no byte
/// of a piece that is not empty. A contract sees the writer and the count of faults. The bytes held are those that the
/// writer tells.
#[derive(Debug, Drop)]
pub struct StdSink<W> {
    writer: W,
    faults: u64,
}

impl<W> Model for StdSink<W> {
    ghost use Rattle.std.specs.Prelude.{◌<◌, ◌^◌};
    ghost use Rattle.cyg_io.specs.States.{CountingWriter};

    ghost Value = { CountingWriter W };

    ghost view = { λ s. record { writer = s.writer; faults = s.faults } };

    ghost invariant = { λ s. s.faults < 2 ^ 64 };
}

impl<W: Write> StdSink<W> {
    /// Writes to the writer.
    pub fn new(writer: W) -> StdSink<W>
        ensures writer { result.writer ≡ writer }
        ensures faults { result.faults ≡ 0 }
    {
        StdSink { writer, faults: 0 }
    }
}

impl<W: Write> Sink for StdSink<W> {
    ghost held = { λ s. W.contents s.writer };

    ghost pieces = { λ _. None };

    ghost faults = { λ s. s.faults };

    fn write(&mut self, piece: &[u8]) -> Result<usize, WriteFailed> {
        match self.writer.write(piece) {
            Ok(count) if count > 0 || piece.is_empty() => Ok(count),
            _ => {
                self.faults = self.faults.saturating_add(1);
                Err(WriteFailed)
            }
        }
    }
}
