//! The memory of a process.

ghost use Rattle.std.specs.Prelude.{◌≡◌, ◌<◌, ◌≤◌, length, IfOk, slice_get, slice_index, slice_set, replicate, IsTrue};
ghost use Rattle.std.specs.Prelude.{◌↔◌, [], ◌+◌, ◌++◌, take, drop, vec_capacity};
ghost use Rattle.std.specs.Int.{w32, from_le_bytes, to_le_bytes};
ghost use Rattle.w32_base.specs.Part.{no_bytes};

use std::alloc::{AllocError, Global};
use std::marker::Model;

/// Want of memory.
pub type Memory = AllocError;

/// Bytes on the heap, with room for `ROOM` of them, which is taken at once. A contract sees them as a list.
#[derive(Debug, Drop)]
pub struct Bytes<const ROOM: usize> {
    bytes: Vec<u8>,
}

impl<const ROOM: usize> Model for Bytes<ROOM> {
    ghost use Rattle.std.specs.Prelude.{List, ℕ, ◌≤◌, vec_capacity};

    ghost Value = { List ℕ };

    ghost view = { λ b. b.bytes.items };

    ghost invariant = { λ b. ROOM ≤ vec_capacity b.bytes };
}

impl<const ROOM: usize> Bytes<ROOM> {
    /// No bytes, with the room for them. It fails only for want of memory.
    pub fn new(alloc: Global) -> Result<Bytes<ROOM>, Memory>
        ensures { IfOk result (λ b. b ≡ []) }
    {
        Ok(Bytes {
            bytes: Vec::with_capacity(alloc, ROOM)?,
        })
    }

    /// So many zeros, for which there is room. It fails only for want of memory.
    pub fn zeros(alloc: Global, count: usize) -> Result<Bytes<ROOM>, Memory>
        requires { count ≤ ROOM }
        ensures { IfOk result (λ b. b ≡ replicate count 0) }
    {
        let mut bytes = Bytes::new(alloc)?;
        bytes.reset(count);
        Ok(bytes)
    }

    /// So many zeros in place of the bytes, without taking memory.
    pub fn reset(&mut self, count: usize)
        requires { count ≤ ROOM }
        ensures { self.new ≡ replicate count 0 }
    {
        self.bytes.clear();
        let Ok(()) = self.bytes.resize(count, 0) else {
            unreachable!()
        };
    }

    /// No bytes any more. The room stays.
    pub fn clear(&mut self)
        ensures { self.new ≡ [] }
    {
        self.bytes.clear();
    }

    /// How many bytes there are.
    pub fn len(&self) -> usize
        ensures { result ≡ length self.now }
    {
        self.bytes.len()
    }

    /// Whether there are none.
    pub fn is_empty(&self) -> bool
        ensures { IsTrue result ↔ (self.now ≡ []) }
    {
        self.bytes.is_empty()
    }

    /// The bytes, to read.
    pub fn as_slice(&self) -> &[u8]
        ensures { result.now ≡ self.now }
    {
        self.bytes.as_slice()
    }

    /// The byte at a place, or none past the end.
    pub fn get(&self, index: usize) -> Option<u8>
        ensures { result ≡ slice_get self.now index }
    {
        self.bytes.as_slice().get(index).copied()
    }

    /// Sets the byte at a place.
    pub fn set(&mut self, index: usize, byte: u8)
        requires { index < length self.old }
        ensures { self.new ≡ slice_set self.old index byte }
    {
        self.bytes[index] = byte;
    }

    /// The number in four bytes from a place on, the lowest byte first.
    pub fn word(&self, index: usize) -> u32
        requires { index + 4 ≤ length self.now }
        ensures { result ≡ from_le_bytes w32 (take 4 (drop index self.now)) }
    {
        let bytes = self.bytes.as_slice();
        u32::from_le_bytes([
            bytes[index],
            bytes[index + 1],
            bytes[index + 2],
            bytes[index + 3],
        ])
    }

    /// Writes a number into four bytes from a place on, the lowest byte first.
    pub fn set_word(&mut self, index: usize, word: u32)
        requires { index + 4 ≤ length self.old }
        ensures { self.new ≡ take index self.old ++ to_le_bytes w32 word ++ drop (index + 4) self.old }
    {
        let place = &mut self.bytes.as_mut_slice()[index..index + 4];
        place.copy_from_slice(&word.to_le_bytes());
    }

    /// Copies bytes in from a place on. The others stay.
    pub fn copy_in(&mut self, place: usize, from: &[u8])
        requires { place + length from.now ≤ length self.old }
        ensures { self.new ≡ take place self.old ++ from.now ++ drop (place + length from.now) self.old }
    {
        self.bytes[place..place + from.len()].copy_from_slice(from);
    }
}

/// The five regions of a process's memory, each with room for the most bytes that it may have.
#[derive(Debug, Drop)]
pub struct Own {
    /// The data region: registers, the place of the next instruction, the bytes of stack in use, the program.
    pub dat: Bytes<64>,
    /// The heap.
    pub heap: Bytes<32768>,
    /// The stack, which grows upwards from 0.
    pub stack: Bytes<32768>,
    /// The cygheap.
    pub cyg: Bytes<288>,
    /// The scratch region.
    pub scratch: Bytes<512>,
}

impl Own {
    /// Regions without bytes, with their room. It fails only for want of memory.
    pub fn new(alloc: Global) -> Result<Own, Memory>
        ensures { IfOk result (λ own. own ≡ no_bytes) }
    {
        Ok(Own {
            dat: Bytes::new(alloc)?,
            heap: Bytes::new(alloc)?,
            stack: Bytes::new(alloc)?,
            cyg: Bytes::new(alloc)?,
            scratch: Bytes::new(alloc)?,
        })
    }

    /// Regions without bytes again. The room stays.
    pub fn clear(&mut self)
        ensures { self.new ≡ no_bytes }
    {
        self.dat.clear();
        self.heap.clear();
        self.stack.clear();
        self.cyg.clear();
        self.scratch.clear();
    }
}
