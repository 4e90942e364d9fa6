//! A place where a test may hold a worker.

use std::marker::Sync;
use w32_base::Slot;

/// Where a worker stands when it calls its gate.
#[derive(Clone, Copy, Debug, PartialEq, Eq)]
pub enum Place {
    /// Before it looks for a thread that is ready.
    BeforeTurn,
    /// A block of instructions has begun outside the lock.
    RunBegan,
    /// That block has ended.
    RunEnded,
}

/// What a worker calls outside the lock at the places of `Place`. A gate may wait there.
pub trait Gate: Sync {
    /// The worker of this slot stands at this place.
    fn at(&self, slot: Slot, place: Place);
}

/// The real gate. It does nothing.
#[derive(Clone, Copy, Debug)]
pub struct OpenGate;

impl Gate for OpenGate {
    fn at(&self, _slot: Slot, _place: Place) {}
}
