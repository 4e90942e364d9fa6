//! What handles name: looking it up.

ghost use Rattle.std.specs.Prelude.{◌≡◌, ◌≤◌, ◌↔◌, Some, None, IsTrue, IfSome, MatchOption};
ghost use Rattle.win32_spec.specs.Lookup.{number_in};
ghost use Rattle.win32_spec.specs.Named.{named_by, object_by, process_named, handles_by, is_full};
ghost use Rattle.w32_machine.specs.Contract.{IsCaller, LivesOnlyIn};

use crate::caller::Caller;
use crate::machine::Machine;
use w32_base::{HandleNo, ObjectNo, Slot, WinNo};
use win32_spec::MOST_HANDLES;

impl Machine {
    // What a handle of the caller names.
    pub(super) fn named(&self, by: &Caller, h: HandleNo) -> Option<ObjectNo>
        requires { IsCaller self.now.win32 by.now }
        ensures { result ≡ named_by self.now.win32 by.now.process h }
    {
        self.processes.handles(by.slot).get(h)
    }

    /// The process that a handle of the caller names, with the slot that it lives or lived in.
    pub fn named_process(&self, by: &Caller, h: HandleNo) -> Option<(WinNo, Slot)>
        requires { IsCaller self.now.win32 by.now }
        ensures named { MatchOption result (process_named (object_by self.now.win32 by.now.process h) ≡ None)
            (λ p. process_named (object_by self.now.win32 by.now.process h) ≡ Some p.0) }
        ensures slot { IfSome result (λ p. LivesOnlyIn self.now.win32 p.0 p.1) }
    {
        match self.named(by, h) {
            Some(o) => self.objects.get(o).process(),
            None => None,
        }
    }

    // Whether this process lives in this slot.
    pub(super) fn lives(&self, w: WinNo, slot: Slot) -> bool
        ensures { IsTrue result ↔ (number_in self.now.win32 slot ≡ Some w) }
    {
        self.in_slot(slot) == Some(w)
    }

    // Whether so many handles more don't fit.
    pub(super) fn is_full(&self, by: &Caller, more: usize) -> bool
        requires few { more ≤ 64 }
        requires caller { IsCaller self.now.win32 by.now }
        ensures { result ≡ is_full (handles_by self.now.win32 by.now.process) more }
    {
        self.processes.handles(by.slot).len() + more > MOST_HANDLES
    }
}
