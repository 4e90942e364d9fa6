//! Which threads are ready.

ghost use Rattle.std.specs.Prelude.{◌≡◌, ◌≤◌, Some, MatchOption};
ghost use Rattle.win32_spec.specs.Lookup.{number_in};
ghost use Rattle.win32_spec.specs.Named.{handles_by, named_by};
ghost use Rattle.win32_spec.specs.Ready.{is_ready, is_handle_signalled, is_some_signalled, may_go};
ghost use Rattle.win32_spec.specs.Ready.{is_first_end};
ghost use Rattle.w32_machine.specs.Contract.{IsCaller, OnlyFew};
ghost use Rattle.w32_machine.specs.Looking.{IsNoneFrom, IsFirstFrom, IsNoneAmong, IsFirstAmong};

use crate::caller::Caller;
use crate::machine::Machine;
use w32_base::{Call, HandleList, HandleNo, ObjectNo, Slot, ThreadNo};
use w32_kinds::Kind;

/// How many threads a process has at the most.
const THREADS: u8 = 3;

impl Machine {
    // The first ready thread in the slots from one place up to another, by slot and then thread. No slot past the last
    // one is looked at.
    pub(super) fn first_among(&self, from: usize, to: usize) -> Option<(Slot, ThreadNo)>
        requires { to ≤ 65 }
        ensures { MatchOption result (IsNoneAmong self.now.win32 from to)
            (λ next. IsFirstAmong self.now.win32 from to next.0 next.1) }
    {
        for place in from..to.min(self.placed.len()) {
            let slot = Slot::new(place as u8);
            if let Some(thread) = self.first_from(slot, 0) {
                return Some((slot, thread));
            }
        }
        None
    }

    // The first ready thread in a slot, from this number on.
    pub(super) fn first_from(&self, slot: Slot, from: u8) -> Option<ThreadNo>
        ensures first { MatchOption result (IsNoneFrom self.now.win32 slot from)
            (λ thread. IsFirstFrom self.now.win32 slot from thread) }
        ensures few { OnlyFew self.now.win32 }
    {
        let Some(process) = self.processes.in_slot(slot) else {
            return None;
        };
        for number in from..THREADS {
            let thread = ThreadNo::new(number);
            let by = Caller {
                slot,
                process,
                thread,
            };
            if self.is_ready(&by) {
                return Some(thread);
            }
        }
        None
    }

    // Whether a thread of the process that stands in its slot is ready.
    pub(super) fn is_ready(&self, by: &Caller) -> bool
        requires { number_in self.now.win32 by.now.slot ≡ Some by.now.process }
        ensures { result ≡ is_ready self.now.win32 by.now.slot by.now.thread }
    {
        if self.processes.count(by.slot, by.thread) != Some(0) {
            return false;
        }
        self.may_go(by, self.posted(by.slot, by.thread))
    }

    // Whether a call may be carried out: each but a wait may.
    fn may_go(&self, by: &Caller, call: &Call) -> bool
        requires { IsCaller self.now.win32 by.now }
        ensures { result ≡ may_go self.now.win32 by.now.process by.now.thread (handles_by self.now.win32
            by.now.process) call.now }
    {
        match call {
            Call::WaitAny(list) => self.is_some_signalled(by, list),
            _ => true,
        }
    }

    // Whether one of the handles of a wait is signalled.
    fn is_some_signalled(&self, by: &Caller, list: &HandleList) -> bool
        requires { IsCaller self.now.win32 by.now }
        ensures { result ≡ is_some_signalled self.now.win32 by.now.process by.now.thread (handles_by self.now.win32
            by.now.process)
            list.now }
    {
        for place in 0..list.len() {
            if let Some(h) = list.get(place) {
                if self.is_signalled(by, h) {
                    return true;
                }
            }
        }
        false
    }

    // Whether what a handle of the caller names is signalled for it.
    pub(super) fn is_signalled(&self, by: &Caller, h: HandleNo) -> bool
        requires { IsCaller self.now.win32 by.now }
        ensures { result ≡ is_handle_signalled self.now.win32 by.now.process by.now.thread
            (named_by self.now.win32 by.now.process h) }
    {
        let owner = by.owner();
        let Some(names) = self.named(by, h) else {
            return false;
        };
        match self.objects.get(names) {
            Kind::Section(_) => false,
            Kind::Event(event) => event.signalled(),
            Kind::Mutex(mutex) => mutex.signalled(owner),
            Kind::Pipe(pipe) => is_first(names) && pipe.signalled(),
            Kind::Process(w, slot) => !self.lives(*w, *slot),
            Kind::Terminal(terminal) => {
                if is_first(names) {
                    !self.keys.is_empty()
                } else {
                    terminal.has_line()
                }
            }
        }
    }
}

// Whether the number names the read end of a pipe, or the terminal's `keys` face.
fn is_first(names: ObjectNo) -> bool
    ensures { result ≡ is_first_end names }
{
    names.get() % 2 == 0
}
