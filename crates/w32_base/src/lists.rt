//! Short lists of a fixed room, which take no memory. A contract sees each of them as a list.

ghost use Rattle.std.specs.Prelude.{◌≡◌, ◌+◌, ◌<◌, ◌≤◌, ◌↔◌, [], ◌∷◌, ◌++◌, length, IsTrue, IsSome, IfSome, slice_get};
ghost use Rattle.std.specs.Prelude.{slice_index, All};

use crate::numbers::HandleNo;
use std::marker::Model;

/// Up to N bytes. The bytes past the length are 0.
#[derive(Clone, Copy, Debug, PartialEq, Eq)]
pub struct ShortBytes<const N: usize> {
    bytes: [u8; N],
    len: u8,
}

impl<const N: usize> Model for ShortBytes<N> {
    ghost use Rattle.std.specs.Prelude.{List, ℕ, length};
    ghost use Rattle.w32_base.specs.Short.{shown, IsShort, filled};

    ghost Value = { List ℕ };

    ghost view = { λ s. shown s.len s.bytes };

    ghost invariant = { λ s. IsShort N s.len s.bytes };

    ghost inverse = { λ xs. record { bytes = filled N xs; len = length xs } };

    ghost use Rattle.w32_base.specs.ShortLaws.{inverse_is};

    ghost inverse_ok = { λ a h. inverse_is N a h };
}

impl<const N: usize> ShortBytes<N> {
    /// No bytes.
    pub fn new() -> ShortBytes<N>
        ensures { result ≡ [] }
    {
        ShortBytes {
            bytes: [0; N],
            len: 0,
        }
    }

    /// These bytes.
    pub fn from_slice(bytes: &[u8]) -> ShortBytes<N>
        requires small { N < 256 }
        requires room { length bytes.now ≤ N }
        ensures { result ≡ bytes.now }
    {
        let mut short = ShortBytes::new();
        for byte in bytes {
            short.push(*byte);
        }
        short
    }

    /// How many bytes it has.
    pub fn len(&self) -> usize
        ensures value { result ≡ length self.now }
        ensures range { result ≤ N }
    {
        usize::from(self.len)
    }

    /// Whether it has no bytes.
    pub fn is_empty(&self) -> bool
        ensures { IsTrue result ↔ (self.now ≡ []) }
    {
        self.len == 0
    }

    /// The bytes.
    pub fn as_slice(&self) -> &[u8]
        ensures { result.now ≡ self.now }
    {
        &self.bytes[..usize::from(self.len)]
    }

    /// The byte at a place, or none past the end.
    pub fn get(&self, index: usize) -> Option<u8>
        ensures { result ≡ slice_get self.now index }
    {
        self.as_slice().get(index).copied()
    }

    /// Adds a byte at the end.
    pub fn push(&mut self, byte: u8)
        requires small { N < 256 }
        requires room { length self.old < N }
        ensures { self.new ≡ self.old ++ byte ∷ [] }
    {
        self.bytes[usize::from(self.len)] = byte;
        self.len += 1;
    }
}

/// Up to 64 bytes.
pub type Bytes64 = ShortBytes<64>;

/// Up to 40 handles of a process.
#[derive(Clone, Copy, Debug, PartialEq, Eq)]
pub struct HandleList {
    numbers: ShortBytes<40>,
}

impl Model for HandleList {
    ghost use Rattle.std.specs.Prelude.{List, ℕ, length, ◌≤◌};
    ghost use Rattle.w32_base.specs.Short.{AreHandles};

    ghost Value = { List ℕ };

    ghost view = { λ l. l.numbers };

    ghost invariant = { λ l. (length l.numbers ≤ 40) × AreHandles l.numbers };

    ghost inverse = { λ xs. record { numbers = xs } };
}

impl HandleList {
    /// No handles.
    pub fn new() -> HandleList
        ensures { result ≡ [] }
    {
        HandleList {
            numbers: ShortBytes::new(),
        }
    }

    /// How many handles it has.
    pub fn len(&self) -> usize
        ensures value { result ≡ length self.now }
        ensures range { result ≤ 40 }
    {
        self.numbers.len()
    }

    /// Whether it has no handles.
    pub fn is_empty(&self) -> bool
        ensures { IsTrue result ↔ (self.now ≡ []) }
    {
        self.numbers.is_empty()
    }

    /// The numbers of the handles.
    pub fn numbers(&self) -> &[u8]
        ensures value { result.now ≡ self.now }
        ensures range { length self.now ≤ 40 }
    {
        self.numbers.as_slice()
    }

    /// The handle at a place, or none past the end.
    pub fn get(&self, index: usize) -> Option<HandleNo>
        ensures { result ≡ slice_get self.now index }
    {
        match self.numbers.get(index) {
            Some(number) => Some(HandleNo::new(number)),
            None => None,
        }
    }

    /// Adds a handle at the end.
    pub fn push(&mut self, handle: HandleNo)
        requires { length self.old < 40 }
        ensures { self.new ≡ self.old ++ handle ∷ [] }
    {
        self.numbers.push(handle.get());
    }
}
