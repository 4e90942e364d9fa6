//! The journal of a run: one entry a directive.

ghost use Rattle.std.specs.Prelude.{◌≡◌, ◌<◌, ◌≤◌, ◌↔◌, ◌++◌, [], ◌∷◌, length, IsTrue, slice_get};

use crate::call::{Call, Reply};
use crate::event::Event;
use crate::numbers::{Slot, ThreadNo, WinNo};
use std::marker::Model;

/// What is asked of the world.
#[derive(Clone, Copy, Debug, PartialEq, Eq)]
pub enum Directive {
    /// `turn S T`: one turn of a thread.
    Turn(Slot, ThreadNo),
    /// `end S`: the process in the slot ends.
    End(Slot),
    /// `key B`: a key for the console.
    Key(u8),
}

/// What came of a directive.
#[derive(Clone, Copy, Debug, PartialEq, Eq)]
pub enum Outcome {
    /// `idle`: nothing.
    Idle,
    /// The reply of the call that was carried out.
    Step(Reply),
    /// `ended W`: process W was ended.
    Ended(WinNo),
    /// `keyed`: the key is in the console's queue.
    Keyed,
}

/// One entry of the journal.
#[derive(Clone, Copy, Debug, PartialEq, Eq)]
pub struct Entry {
    /// The directive.
    pub directive: Directive,
    /// The Win32 call that was carried out, at a turn that isn't idle.
    pub call: Option<Call>,
    /// What came of it.
    pub outcome: Outcome,
    /// The event that stands in the turn, if any.
    pub event: Option<Event>,
}

const _: () = prove!(size_of::<Entry>() <= 256);

/// The entries of a run, in order; they count from 1. A contract sees them as a list.
#[derive(Debug, Drop)]
pub struct Journal {
    entries: Vec<Entry>,
}

impl Model for Journal {
    ghost use Rattle.std.specs.Prelude.{List};
    ghost use Rattle.w32_base.specs.declared.entry.Entry.{Entry};

    ghost Value = { List Entry };

    ghost view = { λ j. j.entries.items };
}

impl Journal {
    /// These entries, without taking memory.
    pub fn from_vec(entries: Vec<Entry>) -> Journal
        ensures { result ≡ entries.items }
    {
        Journal { entries }
    }

    /// The entries again, without taking memory.
    pub fn into_vec(self) -> Vec<Entry>
        ensures { result.items ≡ self }
    {
        self.entries
    }

    /// How many entries there are.
    pub fn len(&self) -> usize
        ensures { result ≡ length self.now }
    {
        self.entries.len()
    }

    /// Whether there are none.
    pub fn is_empty(&self) -> bool
        ensures { IsTrue result ↔ (self.now ≡ []) }
    {
        self.entries.is_empty()
    }

    /// The entries.
    pub fn as_slice(&self) -> &[Entry]
        ensures { result.now ≡ self.now }
    {
        self.entries.as_slice()
    }
}

/// How a run ended.
#[derive(Clone, Copy, Debug, PartialEq, Eq)]
pub enum End {
    /// No thread is ready.
    Quiet,
    /// The directives that were given are carried out.
    Given,
    /// The journal has as many entries as the script's budget, and work remains.
    Budget,
}

/// Which part of a journal a log shows.
#[derive(Clone, Copy, Debug, PartialEq, Eq)]
pub enum View {
    /// `all`: each entry.
    All,
    /// `events`: each event.
    Events,
    /// `calls`: the calls and deaths, by process, and the terminal's output.
    Calls,
}
