//! What a machine that is driven by parts asks of the machine.

ghost use Rattle.std.specs.Prelude.{◌≡◌, ◌≢◌, ℕ, ◌↔◌, Some, IsTrue, IsSome, MatchOption};
ghost use Rattle.win32_spec.specs.Driven.{PartGoes};
ghost use Rattle.win32_spec.specs.Lookup.{thread_at, number_in};
ghost use Rattle.win32_spec.specs.WellFormed.{IsWellFormed};
ghost use Rattle.w32_machine.specs.Contract.{IsCaller};
ghost use Rattle.w32_machine.specs.Lent.{IsAnswer, HasFewThreads, ToldOf, ToldOfNone};

use crate::caller::Caller;
use crate::machine::Machine;
use crate::machine::finding::slot_of;
use script_spec::Script;
use w32_base::{After, Event, Reply, Setup, Slot, ThreadNo, Whole, WinNo};

impl Machine {
    /// The number of the process in a slot, or none where it is empty. The state is well formed.
    pub fn stands_in(&self, slot: Slot) -> Option<WinNo>
        ensures value { result ≡ number_in self.now.win32 slot }
        ensures formed { IsWellFormed self.now.script self.now.win32 }
    {
        self.processes.in_slot(slot)
    }

    /// Whether a thread exists. Only few may: those from 0 to 2 in slots from 0 to 64.
    pub fn has_thread(&self, slot: Slot, thread: ThreadNo) -> bool
        ensures value { IsTrue result ↔ IsSome (thread_at self.now.win32 slot thread) }
        ensures few { HasFewThreads self.now.win32 }
    {
        match self.processes.count(slot, thread) {
            Some(_) => true,
            None => false,
        }
    }

    // The slot of a process, or none where it doesn't live.
    pub(crate) fn slot_of(&self, w: WinNo) -> Option<Slot>
        ensures { MatchOption result ((k : ℕ) → number_in self.now.win32 k ≢ Some w)
            (λ slot. number_in self.now.win32 slot ≡ Some w) }
    {
        slot_of(&self.processes, w)
    }

    /// The slot of the process that a reply tells of as made, or none where it tells of none.
    pub fn made_in(&self, reply: &Reply) -> Option<Slot>
        ensures { MatchOption result (ToldOfNone self.now.win32 reply.now)
            (λ slot. ToldOf self.now.win32 reply.now slot) }
    {
        match *reply {
            Reply::Made(_, w) => self.slot_of(w),
            _ => None,
        }
    }

    /// The part of a thread goes on with a reply, over the bytes of its process, and its next call is posted. Answers
    /// the event of the turn, if any.
    pub fn go_on<P: Whole>(&mut self, by: &Caller, part: &mut P, reply: &Reply) -> Option<Event>
        requires caller { IsCaller self.old.win32 by.now }
        requires thread { IsSome (thread_at self.old.win32 by.now.slot by.now.thread) }
        ensures went { PartGoes P.posted_of P.goes P.opening P.slot_of P.thread_of self.old.script self.old.win32
            by.now.process by.now.thread part.old reply.now result part.new self.new.win32 }
        ensures script { self.new.script ≡ self.old.script }
    {
        let answer = self.answer(by, part, reply);
        self.post(by.slot, by.thread, part.posted());
        answer.event
    }

    // The part of a thread goes on over the bytes of its process.
    fn answer<P: Whole>(&mut self, by: &Caller, part: &mut P, reply: &Reply) -> After
        requires { IsCaller self.old.win32 by.now }
        ensures { IsAnswer P.goes self.old by.now.process part.old reply.now part.new result self.new }
    {
        part.after(
            self.processes.own_mut(by.slot),
            setup_of(&self.script),
            reply,
        )
    }
}

// The setup of a script.
fn setup_of(script: &Script) -> &Setup
    ensures { result.now ≡ script.now.setup }
{
    &script.setup
}
