//! A source and a sink in memory, with calls that are to fail.

ghost use Rattle.std.specs.Prelude.{◌≡◌, ◌+◌, ◌-◌, ◌^◌, ◌<◌, ◌≤◌, ◌↔◌, ◌++◌, [], length, take, min};
ghost use Rattle.std.specs.Prelude.{IsTrue, IsErr, IfOk, OnOk, OnErr, Contains, None, Some};
ghost use Rattle.cyg_io.specs.Counts.{NeverFalls, RoseBy};
ghost use Rattle.cyg_io.specs.States.{next_call, IsRefused};

use crate::sink::{Sink, WriteFailed};
use crate::source::{ReadFailed, Source};
use crate::supply::Supply;
use std::alloc::Global;
use std::marker::Model;
use w32_base::Memory;

// Whether the call of this number is to fail.
fn is_to_fail(fails: &[u32], number: u64) -> bool
    ensures { IsTrue result ↔ Contains fails.now number }
{
    fails.iter().any(|call| u64::from(*call) == number)
}

/// Bytes to read, and the numbers of the calls of `read` that are to fail, from 1. A contract sees the bytes
/// left, these numbers, and the counts of calls, faults, bytes given and ends.
#[derive(Debug, Drop)]
pub struct MemSource {
    supply: Supply,
    fails: Vec<u32>,
    calls: u64,
    faults: u64,
}

impl Model for MemSource {
    ghost use Rattle.std.specs.Prelude.{◌<◌, ◌^◌};
    ghost use Rattle.cyg_io.specs.States.{MemorySource};

    ghost Value = { MemorySource };

    ghost view = { λ s. record {
      left = s.supply.left;
      fails = s.fails.items;
      calls = s.calls;
      faults = s.faults;
      given = s.supply.given;
      ends = s.supply.ends;
    } };

    ghost invariant = { λ s. (s.faults < 2 ^ 64) × (s.supply.given < 2 ^ 64) × (s.supply.ends < 2 ^ 64) };
}

impl MemSource {
    /// Gives these bytes, and fails at the calls of these numbers, from 1.
    pub fn new(bytes: Vec<u8>, fails: Vec<u32>) -> MemSource
        ensures left { result.left ≡ bytes.items }
        ensures fails { result.fails ≡ fails.items }
        ensures calls { result.calls ≡ 0 }
        ensures faults { result.faults ≡ 0 }
        ensures given { result.given ≡ 0 }
        ensures ends { result.ends ≡ 0 }
    {
        MemSource {
            supply: Supply::new(bytes),
            fails,
            calls: 0,
            faults: 0,
        }
    }

    /// How many faults it had.
    pub fn faults(&self) -> u64
        ensures { result ≡ self.now.faults }
    {
        self.faults
    }
}

impl Source for MemSource {
    ghost remaining = { λ s. Some s.left };

    ghost faults = { λ s. s.faults };

    ghost given = { λ s. s.given };

    ghost ends = { λ s. s.ends };

    fn read(&mut self, buf: &mut [u8]) -> Result<usize, ReadFailed>
        requires { 0 < length buf.old }

        // The calls that are to fail have a fault, and no others.
        ensures fails { IsErr result ↔ Contains self.old.fails (next_call self.old.calls) }
        ensures calls { self.new.calls ≡ next_call self.old.calls }
        ensures same_fails { self.new.fails ≡ self.old.fails }

        // It gives as much as it can.
        ensures count { IfOk result (λ n. n ≡ min (length self.old.left) (length buf.old)) }
        ensures within { IfOk result (λ n. n ≤ length buf.new) }
        ensures bytes { IfOk result (λ n. self.old.left ≡ take n buf.new ++ self.new.left) }
        ensures end { IfOk result (λ n. n ≡ 0 ↔ self.old.left ≡ []) }

        ensures gave { IfOk result (λ n. RoseBy n self.old.given self.new.given) }
        ensures ended { IfOk result (λ n. n ≡ 0 → RoseBy 1 self.old.ends self.new.ends) }
        ensures goes_on { IfOk result (λ n. 0 < n → self.new.ends ≡ self.old.ends) }
        ensures no_fault { OnOk result (self.new.faults ≡ self.old.faults) }

        ensures failed { OnErr result (RoseBy 1 self.old.faults self.new.faults) }
        ensures same_bytes { OnErr result (self.new.left ≡ self.old.left) }
        ensures same_given { OnErr result (self.new.given ≡ self.old.given) }
        ensures same_ends { OnErr result (self.new.ends ≡ self.old.ends) }

        ensures faults_stay { NeverFalls self.old.faults self.new.faults }
        ensures given_stay { NeverFalls self.old.given self.new.given }
        ensures ends_stay { NeverFalls self.old.ends self.new.ends }
    {
        self.calls = self.calls.saturating_add(1);
        if is_to_fail(&self.fails, self.calls) {
            self.faults = self.faults.saturating_add(1);
            return Err(ReadFailed);
        }
        Ok(self.supply.give(buf))
    }
}

/// Bytes written, with room for so many, and the numbers of the calls of `write` that are to fail, from 1. A
/// contract sees the bytes, the room, these numbers, and the counts of calls and faults.
#[derive(Debug, Drop)]
pub struct MemSink {
    bytes: Vec<u8>,
    room: usize,
    fails: Vec<u32>,
    calls: u64,
    faults: u64,
}

impl Model for MemSink {
    ghost use Rattle.std.specs.Prelude.{length, vec_capacity, ◌≤◌};
    ghost use Rattle.cyg_io.specs.States.{MemorySink};

    ghost Value = { MemorySink };

    ghost view = { λ s. record {
      held = s.bytes.items;
      room = s.room;
      fails = s.fails.items;
      calls = s.calls;
      faults = s.faults;
    } };

    ghost invariant = { λ s. (length s.bytes.items ≤ s.room) × (s.room ≤ vec_capacity s.bytes) };
}

impl MemSink {
    /// Takes up to `room` bytes, for which it takes the memory now, and fails at the calls of these numbers,
    /// from 1.
    pub fn new(alloc: Global, room: usize, fails: Vec<u32>) -> Result<MemSink, Memory>
        ensures held { IfOk result (λ s. s.held ≡ []) }
        ensures room { IfOk result (λ s. s.room ≡ room) }
        ensures fails { IfOk result (λ s. s.fails ≡ fails.items) }
        ensures calls { IfOk result (λ s. s.calls ≡ 0) }
        ensures faults { IfOk result (λ s. s.faults ≡ 0) }
    {
        Ok(MemSink {
            bytes: Vec::with_capacity(alloc, room)?,
            room,
            fails,
            calls: 0,
            faults: 0,
        })
    }

    /// The bytes written.
    pub fn contents(&self) -> &[u8]
        ensures { result.now ≡ self.now.held }
    {
        self.bytes.as_slice()
    }

    /// How many faults it had.
    pub fn faults(&self) -> u64
        ensures { result ≡ self.now.faults }
    {
        self.faults
    }
}

impl Sink for MemSink {
    ghost held = { λ s. Some s.held };

    ghost pieces = { λ _. None };

    ghost faults = { λ s. s.faults };

    fn write(&mut self, piece: &[u8]) -> Result<usize, WriteFailed>
        // The calls that are to fail have a fault, those that find no room for a byte, and no others.
        ensures fails { IsErr result ↔ IsRefused self.old (length piece.now) }
        ensures calls { self.new.calls ≡ next_call self.old.calls }
        ensures same_fails { self.new.fails ≡ self.old.fails }
        ensures same_room { self.new.room ≡ self.old.room }
        ensures in_room { length self.new.held ≤ self.new.room }

        // It takes as much as it has room for.
        ensures count { IfOk result (λ n. n ≡ min (length piece.now) (self.old.room - length self.old.held)) }
        ensures within { IfOk result (λ n. n ≤ length piece.now) }
        ensures some { IfOk result (λ n. 0 < length piece.now → 0 < n) }
        ensures bytes { IfOk result (λ n. self.new.held ≡ self.old.held ++ take n piece.now) }
        ensures no_fault { OnOk result (self.new.faults ≡ self.old.faults) }

        ensures failed { OnErr result (RoseBy 1 self.old.faults self.new.faults) }
        ensures same_bytes { OnErr result (self.new.held ≡ self.old.held) }

        ensures faults_stay { NeverFalls self.old.faults self.new.faults }
    {
        self.calls = self.calls.saturating_add(1);
        let count = piece.len().min(self.room - self.bytes.len());
        if is_to_fail(&self.fails, self.calls) || (count == 0 && !piece.is_empty()) {
            self.faults = self.faults.saturating_add(1);
            return Err(WriteFailed);
        }
        match self.bytes.extend_from_slice(&piece[..count]) {
            Ok(()) => Ok(count),
            Err(_) => unreachable!(),
        }
    }
}
