//! A source and a sink that never have a fault.

ghost use Rattle.std.specs.Prelude.{◌≡◌, ◌<◌, ◌≤◌, ◌↔◌, ◌++◌, [], length, take, min, None, Some, Ok, IfOk, IsOk};
ghost use Rattle.cyg_io.specs.Counts.{NeverFalls, RoseBy};

use crate::sink::{Sink, WriteFailed};
use crate::source::{ReadFailed, Source};
use crate::supply::Supply;
use std::marker::Model;

/// Bytes to read, without a fault. A contract sees the bytes left, and the counts of bytes given and of
/// ends.
#[derive(Debug, Drop)]
pub struct CleanSource {
    supply: Supply,
}

impl Model for CleanSource {
    ghost use Rattle.cyg_io.specs.States.{FaultlessSource};

    ghost Value = { FaultlessSource };

    ghost view = { λ s. s.supply };
}

impl CleanSource {
    /// Gives these bytes.
    pub fn new(bytes: Vec<u8>) -> CleanSource
        ensures left { result.left ≡ bytes.items }
        ensures given { result.given ≡ 0 }
        ensures ends { result.ends ≡ 0 }
    {
        CleanSource {
            supply: Supply::new(bytes),
        }
    }
}

impl Source for CleanSource {
    ghost remaining = { λ s. Some s.left };

    ghost faults = { λ _. 0 };

    ghost given = { λ s. s.given };

    ghost ends = { λ s. s.ends };

    fn read(&mut self, buf: &mut [u8]) -> Result<usize, ReadFailed>
        requires { 0 < length buf.old }

        // It never fails, and gives as much as it can.
        ensures no_error { IsOk result }
        ensures count { IfOk result (λ n. n ≡ min (length self.old.left) (length buf.old)) }
        ensures within { IfOk result (λ n. n ≤ length buf.new) }
        ensures bytes { IfOk result (λ n. self.old.left ≡ take n buf.new ++ self.new.left) }
        ensures end { IfOk result (λ n. n ≡ 0 ↔ self.old.left ≡ []) }

        ensures gave { IfOk result (λ n. RoseBy n self.old.given self.new.given) }
        ensures ended { IfOk result (λ n. n ≡ 0 → RoseBy 1 self.old.ends self.new.ends) }
        ensures goes_on { IfOk result (λ n. 0 < n → self.new.ends ≡ self.old.ends) }
        ensures given_stay { NeverFalls self.old.given self.new.given }
        ensures ends_stay { NeverFalls self.old.ends self.new.ends }
    {
        Ok(self.supply.give(buf))
    }
}

/// Takes every piece whole and keeps nothing. It tells nothing of content.
#[derive(Clone, Copy, Debug)]
pub struct CleanSink;

impl CleanSink {
    /// A sink that takes every piece.
    pub fn new() -> CleanSink {
        CleanSink
    }
}

impl Sink for CleanSink {
    ghost held = { λ _. None };

    ghost pieces = { λ _. None };

    ghost faults = { λ _. 0 };

    fn write(&mut self, piece: &[u8]) -> Result<usize, WriteFailed>
        ensures { result ≡ Ok (length piece.now) }
    {
        Ok(piece.len())
    }
}
