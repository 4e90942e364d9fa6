// Bytes that are given out in order, with the counts of what was given.

ghost use Rattle.std.specs.Prelude.{◌≡◌, ◌+◌, ◌<◌, ◌≤◌, ◌++◌, length, take, drop, min};
ghost use Rattle.cyg_io.specs.Counts.{NeverFalls, RoseBy};

use std::marker::Model;

/// Bytes to give. A contract sees the bytes left, and the counts of bytes given and of ends.
#[derive(Debug, Drop)]
pub(crate) struct Supply {
    bytes: Vec<u8>,
    place: usize,
    given: u64,
    ends: u64,
}

impl Model for Supply {
    ghost use Rattle.std.specs.Prelude.{length, drop, ◌≤◌};
    ghost use Rattle.cyg_io.specs.States.{FaultlessSource};

    ghost Value = { FaultlessSource };

    ghost view = { λ s. record { left = drop s.place s.bytes.items; given = s.given; ends = s.ends } };

    ghost invariant = { λ s. s.place ≤ length s.bytes.items };
}

impl Supply {
    /// These bytes, of which none was given.
    pub(crate) fn new(bytes: Vec<u8>) -> Supply
        ensures left { result.left ≡ bytes.items }
        ensures given { result.given ≡ 0 }
        ensures ends { result.ends ≡ 0 }
    {
        Supply {
            bytes,
            place: 0,
            given: 0,
            ends: 0,
        }
    }

    /// Puts the next bytes at the start of `buf`, as many as fit or are left.
    pub(crate) fn give(&mut self, buf: &mut [u8]) -> usize
        ensures count { result ≡ min (length self.old.left) (length buf.old) }
        ensures bytes { self.old.left ≡ take result buf.new ++ self.new.left }
        ensures gave { RoseBy result self.old.given self.new.given }
        ensures ended { result ≡ 0 → RoseBy 1 self.old.ends self.new.ends }
        ensures goes_on { 0 < result → self.new.ends ≡ self.old.ends }
        ensures given_stay { NeverFalls self.old.given self.new.given }
        ensures ends_stay { NeverFalls self.old.ends self.new.ends }
    {
        let count = copy_first(&self.bytes[self.place..], buf);
        self.place += count;
        self.given = self.given.saturating_add(count as u64);
        if count == 0 {
            self.ends = self.ends.saturating_add(1);
        }
        count
    }
}

// Copies the first bytes, as many as both have, and answers how many.
fn copy_first(from: &[u8], to: &mut [u8]) -> usize
    ensures count { result ≡ min (length from.now) (length to.old) }
    ensures copied { from.now ≡ take result to.new ++ drop result from.now }
{
    let count = from.len().min(to.len());
    to[..count].copy_from_slice(&from[..count]);
    count
}
