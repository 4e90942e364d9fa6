//! A line of a log, which is built in place.

ghost use Rattle.std.specs.Prelude.{◌≡◌, ◌+◌, ◌≤◌, [], ◌++◌, length, IsTrue, OnOk, OnErr};
ghost use Rattle.std.specs.Fmt.{decimal, signed_decimal};
ghost use Rattle.cyg_io.specs.Sink.{EndsOneLine, IsRestOf};
ghost use Rattle.log_spec.specs.EventsText.{is_one_line};
ghost use Rattle.log_spec.specs.Texts.{line};
ghost use Rattle.log_text.specs.Writes.{told, WritesAll, WritesPart};

use arrayvec::ArrayVec;
use cyg_io::{Sink, WriteFailed, write_all};
use itoa::Buffer;
use std::marker::Model;
use w32_base::numbers::Number;

/// How many bytes a line has at the most, with its end.
const ROOM: usize = 640;

/// The bytes of a line without its end, at most 639. A contract sees them as a list.
#[derive(Debug, Drop)]
pub struct Line {
    bytes: ArrayVec<u8, ROOM>,
}

impl Model for Line {
    ghost use Rattle.std.specs.Prelude.{List, ℕ, length, ◌≤◌, IsTrue};
    ghost use Rattle.log_spec.specs.EventsText.{is_one_line};

    ghost Value = { List ℕ };

    ghost view = { λ l. l.bytes.items };

    ghost invariant = { λ l. (length l.bytes.items ≤ 639) × IsTrue (is_one_line l.bytes.items) };
}

impl Line {
    /// No bytes.
    pub fn new() -> Line
        ensures { result ≡ [] }
    {
        Line {
            bytes: ArrayVec::new(),
        }
    }

    /// Adds a text at the end.
    pub fn push_text(&mut self, text: &[u8])
        requires room { length self.old + length text.now ≤ 639 }
        requires one_line { IsTrue (is_one_line text.now) }
        ensures text { self.new ≡ self.old ++ text.now }
        ensures size { length self.new ≡ length self.old + length text.now }
    {
        if self.bytes.try_extend_from_slice(text).is_err() {
            unreachable!()
        }
    }

    /// Adds the digits of a number at the end.
    pub fn push_natural(&mut self, number: u64)
        requires { length self.old + 20 ≤ 639 }
        ensures text { self.new ≡ self.old ++ decimal number }
        ensures size { length self.new ≤ length self.old + 20 }
    {
        self.push_text(Buffer::new().format(number).as_bytes());
    }

    /// Adds the digits of a small number at the end.
    pub fn push_small(&mut self, number: u8)
        requires { length self.old + 3 ≤ 639 }
        ensures text { self.new ≡ self.old ++ decimal number }
        ensures size { length self.new ≤ length self.old + 3 }
    {
        self.push_text(Buffer::new().format(number).as_bytes());
    }

    /// Adds a number of an event at the end.
    pub fn push_number(&mut self, number: Number)
        requires { length self.old + 20 ≤ 639 }
        ensures text { self.new ≡ self.old ++ signed_decimal number }
        ensures size { length self.new ≤ length self.old + 20 }
    {
        self.push_text(Buffer::new().format(number.get()).as_bytes());
    }

    /// The bytes.
    pub fn as_slice(&self) -> &[u8]
        ensures { result.now ≡ self.now }
    {
        self.bytes.as_slice()
    }

    /// Writes the line with its end, and takes all bytes away.
    pub fn write_to<K: Sink>(&mut self, sink: &mut K) -> Result<(), WriteFailed>
        ensures cleared { self.new ≡ [] }
        ensures whole { OnOk result (WritesAll EndsOneLine (line self.old)
            (told (K.held sink.old) (K.pieces sink.old) (K.faults sink.old))
            (told (K.held sink.new) (K.pieces sink.new) (K.faults sink.new))) }
        ensures part { OnErr result (WritesPart EndsOneLine (line self.old)
            (told (K.held sink.old) (K.pieces sink.old) (K.faults sink.old))
            (told (K.held sink.new) (K.pieces sink.new) (K.faults sink.new))) }
    {
        self.bytes.push(b'\n');
        let result = write_all(sink, self.bytes.as_slice());
        self.bytes.clear();
        result
    }

    /// Writes the bytes without an end, and takes them away.
    pub fn write_part<K: Sink>(&mut self, sink: &mut K) -> Result<(), WriteFailed>
        ensures cleared { self.new ≡ [] }
        ensures whole { OnOk result (WritesAll (IsRestOf self.old) self.old
            (told (K.held sink.old) (K.pieces sink.old) (K.faults sink.old))
            (told (K.held sink.new) (K.pieces sink.new) (K.faults sink.new))) }
        ensures part { OnErr result (WritesPart (IsRestOf self.old) self.old
            (told (K.held sink.old) (K.pieces sink.old) (K.faults sink.old))
            (told (K.held sink.new) (K.pieces sink.new) (K.faults sink.new))) }
    {
        let result = write_all(sink, self.bytes.as_slice());
        self.bytes.clear();
        result
    }
}
