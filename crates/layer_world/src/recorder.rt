//! The entries of a run while it goes on, with the room that was taken for them.

ghost use Rattle.std.specs.Prelude.{◌≡◌, ◌≤◌, ◌<◌, [], ◌∷◌, ◌++◌, length, IfOk};

use std::alloc::Global;
use std::marker::Model;
use std::slice;
use w32_base::{Entry, Journal, Memory};

/// Entries, and how many there is room for. A contract sees both.
#[derive(Drop)]
pub(crate) struct Recorder {
    entries: Vec<Entry>,
}

impl Model for Recorder {
    ghost use Rattle.std.specs.Prelude.{vec_capacity};
    ghost use Rattle.layer_world.specs.Recorded.{Recorded};

    ghost Value = { Recorded };

    ghost view = { λ r. record { entries = r.entries.items; room = vec_capacity r.entries } };
}

impl Recorder {
    // No entries, with room for so many. It fails only for want of memory.
    pub(crate) fn with_room(alloc: Global, room: usize) -> Result<Recorder, Memory>
        ensures { IfOk result (λ r. r ≡ record { entries = []; room = room }) }
    {
        Ok(Recorder {
            entries: Vec::with_capacity(alloc, room)?,
        })
    }

    // Adds an entry at the end, without taking memory.
    pub(crate) fn push(&mut self, entry: &Entry)
        requires { length self.old.entries < self.old.room }
        ensures entries { self.new.entries ≡ self.old.entries ++ entry.now ∷ [] }
        ensures room { self.old.room ≤ self.new.room }
    {
        match self.entries.extend_from_slice(slice::from_ref(entry)) {
            Ok(()) => {}
            Err(_) => unreachable!(),
        }
    }

    // The entries.
    pub(crate) fn as_slice(&self) -> &[Entry]
        ensures { result.now ≡ self.now.entries }
    {
        self.entries.as_slice()
    }

    // The journal with these entries.
    pub(crate) fn finish(self) -> Journal
        ensures { result ≡ self.entries }
    {
        Journal::from_vec(self.entries)
    }
}
