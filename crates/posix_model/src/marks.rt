//! Sets of process numbers.

ghost use Rattle.std.specs.Prelude.{◌≡◌, ◌<◌, IfOk, length};
ghost use Rattle.std.specs.FinSet as set;

use std::alloc::Global;
use w32_base::{Bytes, Memory, Pid};

/// How many places a set has: the numbers below it may be in the set.
pub const PLACES: usize = 4002;

/// A set of process numbers, which has a place for each of them. A place has 1 where its number is in the set, and
/// else 0.
#[derive(Debug, Drop)]
pub struct Marks {
    places: Bytes<4002>,
    ghost room: { length places ≡ 4002 },
}

impl Marks {
    ghost use Rattle.posix_model.specs.MarkedNumbers.{numbers_of};

    /// The empty set. It fails only for want of memory.
    pub fn new(alloc: Global) -> Result<Marks, Memory>
        ensures { IfOk result (λ m. numbers_of m ≡ set.empty) }
    {
        Ok(Marks {
            places: Bytes::zeros(alloc, PLACES)?,
        })
    }

    /// Takes all numbers out.
    pub fn clear(&mut self)
        ensures { numbers_of self.new ≡ set.empty }
    {
        self.places.reset(PLACES);
    }

    /// Whether the number is in the set.
    pub fn has(&self, number: u32) -> bool
        ensures { result ≡ set.contains (numbers_of self.now) number }
    {
        match self.places.get(number as usize) {
            Some(mark) => mark != 0,
            None => false,
        }
    }

    /// Adds a number.
    pub fn insert(&mut self, number: Pid)
        ensures { numbers_of self.new ≡ set.insert (numbers_of self.old) number }
    {
        self.places.set(usize::from(number.get()), 1);
    }
}
