//! A line of the terminal.

ghost use Rattle.std.specs.Prelude.{◌≡◌, ◌+◌, ◌-◌, ◌<◌, ◌≤◌, [], ◌∷◌, ◌++◌, length, take, drop};

use arrayvec::ArrayVec;
use std::marker::Model;

/// How many bytes a line has at the most, with the one that ended it.
const ROOM: usize = 255;

/// The bytes of a line, at most 255. A contract sees them as a list.
#[derive(Debug, Drop)]
pub struct Line {
    bytes: ArrayVec<u8, ROOM>,
}

impl Model for Line {
    ghost use Rattle.std.specs.Prelude.{List, ℕ, length, ◌≤◌};

    ghost Value = { List ℕ };

    ghost view = { λ l. l.bytes.items };

    ghost invariant = { λ l. length l.bytes.items ≤ 255 };
}

impl Default for Line {
    ghost is_default = { λ l. l ≡ [] };

    fn default() -> Line {
        Line {
            bytes: ArrayVec::new(),
        }
    }
}

impl Line {
    /// No bytes.
    pub fn new() -> Line
        ensures { result ≡ [] }
    {
        Line {
            bytes: ArrayVec::new(),
        }
    }

    /// How many bytes it has.
    pub fn len(&self) -> usize
        ensures value { result ≡ length self.now }
        ensures range { result ≤ 255 }
    {
        self.bytes.len()
    }

    /// The bytes.
    pub fn as_slice(&self) -> &[u8]
        ensures value { result.now ≡ self.now }
        ensures range { length self.now ≤ 255 }
    {
        self.bytes.as_slice()
    }

    /// Adds a byte at the end.
    pub fn push(&mut self, byte: u8)
        requires { length self.old < 255 }
        ensures { self.new ≡ self.old ++ byte ∷ [] }
    {
        self.bytes.push(byte);
    }

    /// Adds bytes at the end.
    pub fn extend(&mut self, bytes: &[u8])
        requires { length self.old + length bytes.now ≤ 255 }
        ensures { self.new ≡ self.old ++ bytes.now }
    {
        if self.bytes.try_extend_from_slice(bytes).is_err() {
            unreachable!()
        }
    }

    /// Takes the last byte away, where there is one.
    pub fn drop_last(&mut self)
        ensures { self.new ≡ take (length self.old - 1) self.old }
    {
        self.bytes.pop();
    }

    /// Takes all bytes away.
    pub fn clear(&mut self)
        ensures { self.new ≡ [] }
    {
        self.bytes.clear();
    }

    /// Takes the first bytes away.
    pub fn drop_front(&mut self, count: usize)
        requires { count ≤ length self.old }
        ensures { self.new ≡ drop count self.old }
    {
        let mut rest = Line::new();
        rest.extend(&self.bytes.as_slice()[count..]);
        *self = rest;
    }
}
