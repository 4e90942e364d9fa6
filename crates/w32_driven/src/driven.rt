//! A machine whose threads are driven by parts.

ghost use Rattle.std.specs.Prelude.{◌≡◌, ◌<◌, ◌≤◌, None, length, IsSome, IfOk, true};
ghost use Rattle.script_spec.specs.Validity.{IsValid};
ghost use Rattle.w32_base.specs.declared.entry.Directive.TheVariants as directive;
ghost use Rattle.w32_base.specs.declared.entry.Outcome.TheVariants as outcome;
ghost use Rattle.win32_spec.specs.Call.{CallStep};
ghost use Rattle.win32_spec.specs.Driven.{part_at, DrivenBy, AllFollow, IsDrivenOpening};
ghost use Rattle.win32_spec.specs.Lookup.{thread_at};
ghost use Rattle.win32_spec.specs.Named.{handles_by};
ghost use Rattle.win32_spec.specs.Ready.{may_go};
ghost use Rattle.win32_spec.specs.Run.{StepBy};
ghost use Rattle.win32_spec.specs.WellFormed.{IsWellFormed};
ghost use Rattle.w32_machine.specs.Contract.{IsCaller, key_lines};
ghost use Rattle.w32_driven.specs.DrivenTurns.{called_by, came_by, event_by, DoneBy};
ghost use Rattle.w32_driven.specs.Driving.{IsServing, GoesOn, IsCreate, EndsOnlyIn};
ghost use Rattle.w32_machine.specs.Ending.{outcome_of_end};
ghost use Rattle.w32_machine.specs.Turning.{IsNextCall};

use crate::driven::parts::{first_parts, follow, place};
use script_spec::Script;
use std::alloc::Global;
use std::marker::Model;
use w32_base::{Call, Event, Memory, Reply, Slot, ThreadNo, Whole, WinNo};
use w32_machine::{Caller, Machine};

mod parts;

/// What a turn of a thread came to.
#[derive(Clone, Copy, Debug, PartialEq, Eq)]
pub enum DrivenTurn {
    /// The thread wasn't ready, and nothing changed.
    Idle,
    /// The thread's posted call was carried out. Where its process lives on, its part went on.
    Done {
        /// The call.
        call: Call,
        /// Its reply.
        reply: Reply,
        /// The part's event, if any.
        event: Option<Event>,
    },
}

impl DrivenTurn {
    /// The event that stands in it, if any.
    pub fn event(&self) -> Option<Event>
        ensures { result ≡ event_by self.now }
    {
        match *self {
            DrivenTurn::Idle => None,
            DrivenTurn::Done { event, .. } => event,
        }
    }
}

/// A machine with a part for each thread. A part gets nothing but the bytes of its own process, the setup, and the
/// replies to its calls. A contract sees the script, the machine's state, the parts and the event of the last turn.
#[derive(Drop)]
pub struct Driven<P: Whole + Drop> {
    machine: Machine,
    // three a slot
    parts: Vec<Option<P>>,
    last: Option<Event>,
}

impl<P: Whole + Drop> Model for Driven<P> {
    ghost use Rattle.w32_driven.specs.Driving.{Driving, IsServing};

    ghost Value = { Driving P };

    ghost view = { λ d. record {
      script = d.machine.script;
      state = record { win32 = d.machine.win32; parts = d.parts.items; last = d.last };
    } };

    ghost invariant = { λ d. IsServing P.posted_of P.goes P.opening P.slot_of P.thread_of d.machine d.parts.items };
}

impl<P: Whole + Drop> Driven<P> {
    /// The machine in the state in which a run of the script begins, with a part for each thread that was just opened.
    /// All memory is taken here. It fails only for want of it.
    pub fn open(alloc: Global, script: &Script) -> Result<Driven<P>, Memory>
        requires { IsValid script.now }
        ensures opening { IfOk result (λ driven. IsDrivenOpening P.posted_of P.goes P.opening P.slot_of P.thread_of
            script.now driven.state) }
        ensures script { IfOk result (λ driven. driven.script ≡ script.now) }
    {
        let machine = Machine::open(alloc, script)?;
        let parts = first_parts(alloc, &machine)?;
        Ok(Driven {
            machine,
            parts,
            last: None,
        })
    }

    /// One turn of a thread: where it is ready, its posted call is carried out. Where its process lives on then, its
    /// part goes on with the reply, and posts the next call. A process that was made gets its parts, and those of one
    /// that ended go.
    pub fn turn(&mut self, slot: Slot, thread: ThreadNo) -> DrivenTurn
        requires { self.old.state.win32.next < 4294967295 }
        ensures driven { DrivenBy P.posted_of P.goes P.opening P.slot_of P.thread_of self.old.script self.old.state
            (directive.Turn slot thread) (called_by result) (came_by result) self.new.state }
        ensures step { StepBy self.old.script self.old.state.win32 (directive.Turn slot thread) (called_by result)
            (came_by result) self.new.state.win32 }
        ensures event { event_by result ≡ self.new.state.last }
        ensures script { self.new.script ≡ self.old.script }
    {
        let Some(next) = self.machine.next_call(slot, thread) else {
            self.last = None;
            return DrivenTurn::Idle;
        };
        let turned = act(&mut self.machine, &mut self.parts, next.0, next.1);
        self.last = turned.event();
        turned
    }

    /// Ends the process in a slot from outside, and answers its number, or none where the slot is empty. Its parts go.
    pub fn end(&mut self, slot: Slot) -> Option<WinNo>
        requires { 1 ≤ slot }
        ensures driven { DrivenBy P.posted_of P.goes P.opening P.slot_of P.thread_of self.old.script self.old.state
            (directive.End slot) None (outcome_of_end result) self.new.state }
        ensures step { StepBy self.old.script self.old.state.win32 (directive.End slot) None (outcome_of_end result)
            self.new.state.win32 }
        ensures script { self.new.script ≡ self.old.script }
    {
        self.last = None;
        let before = self.machine.stands_in(slot);
        let ended = self.machine.end(slot);
        follow(&self.machine, &mut self.parts, slot, before);
        ended
    }

    /// Puts a key behind the others in the console's queue.
    pub fn key(&mut self, b: u8)
        requires { length self.old.state.win32.keys < key_lines self.old.script.directives }
        ensures driven { DrivenBy P.posted_of P.goes P.opening P.slot_of P.thread_of self.old.script self.old.state
            (directive.Key b) None outcome.Keyed self.new.state }
        ensures step { StepBy self.old.script self.old.state.win32 (directive.Key b) None outcome.Keyed
            self.new.state.win32 }
        ensures script { self.new.script ≡ self.old.script }
    {
        self.last = None;
        self.machine.key(b);
    }

    /// The machine.
    pub fn machine(&self) -> &Machine
        ensures script { result.now.script ≡ self.now.script }
        ensures state { result.now.win32 ≡ self.now.state.win32 }
    {
        &self.machine
    }
}

// A turn of a thread that is ready: its call is carried out, and where its process lives on then, its part goes on.
fn act<P: Whole + Drop>(
    machine: &mut Machine,
    parts: &mut Vec<Option<P>>,
    by: Caller,
    call: Call,
) -> DrivenTurn
    requires call { IsNextCall machine.old by.slot by.thread by call }
    requires next { machine.old.win32.next < 4294967295 }
    requires serving { IsServing P.posted_of P.goes P.opening P.slot_of P.thread_of machine.old parts.old.items }
    ensures turned { DoneBy P.posted_of P.goes P.opening P.slot_of P.thread_of machine.old.script machine.old.win32
        parts.old.items by.slot by.thread result machine.new.win32 parts.new.items }
    ensures script { machine.new.script ≡ machine.old.script }
    ensures places { length parts.new.items ≡ 195 }
{
    let reply = carry_out(machine, parts, &by, &call);
    if machine.in_slot(by.slot) != Some(by.process) {
        return DrivenTurn::Done {
            call,
            reply,
            event: None,
        };
    }
    let event = go_on(machine, parts, &by, &reply);
    DrivenTurn::Done { call, reply, event }
}

// Carries out a call of a thread. A process that was made gets its parts, and those of one that ended go.
fn carry_out<P: Whole + Drop>(
    machine: &mut Machine,
    parts: &mut Vec<Option<P>>,
    by: &Caller,
    call: &Call,
) -> Reply
    requires caller { IsCaller machine.old.win32 by.now }
    requires goes { may_go machine.old.win32 by.now.process by.now.thread
        (handles_by machine.old.win32 by.now.process) call.now ≡ true }
    requires next { machine.old.win32.next < 4294967295 }
    requires formed { IsWellFormed machine.old.script machine.old.win32 }
    requires places { length parts.old.items ≡ 195 }
    ensures step { CallStep machine.old.script machine.old.win32 by.now.process by.now.thread call.now result
        machine.new.win32 }
    ensures script { machine.new.script ≡ machine.old.script }
    ensures follow { AllFollow P.posted_of P.goes P.opening P.slot_of P.thread_of machine.old.win32 machine.new.win32
        parts.old.items parts.new.items }
    ensures places { length parts.new.items ≡ 195 }
{
    match *call {
        Call::Create(_, _) => make(machine, parts, by, call),
        Call::Terminate(h, _) => match machine.named_process(by, h) {
            Some((_, slot)) => end_in(machine, parts, by, call, slot),
            None => machine.carry_out(by, call),
        },
        Call::ExitSelf(_) => end_in(machine, parts, by, call, by.slot),
        _ => machine.carry_out(by, call),
    }
}

// Carries out a `create`. The process that it made, if any, gets its parts.
fn make<P: Whole + Drop>(
    machine: &mut Machine,
    parts: &mut Vec<Option<P>>,
    by: &Caller,
    call: &Call,
) -> Reply
    requires caller { IsCaller machine.old.win32 by.now }
    requires goes { may_go machine.old.win32 by.now.process by.now.thread
        (handles_by machine.old.win32 by.now.process) call.now ≡ true }
    requires next { machine.old.win32.next < 4294967295 }
    requires formed { IsWellFormed machine.old.script machine.old.win32 }
    requires makes { IsCreate call.now }
    requires places { length parts.old.items ≡ 195 }
    ensures step { CallStep machine.old.script machine.old.win32 by.now.process by.now.thread call.now result
        machine.new.win32 }
    ensures script { machine.new.script ≡ machine.old.script }
    ensures follow { AllFollow P.posted_of P.goes P.opening P.slot_of P.thread_of machine.old.win32 machine.new.win32
        parts.old.items parts.new.items }
    ensures places { length parts.new.items ≡ 195 }
{
    let reply = machine.carry_out(by, call);
    let Some(slot) = machine.made_in(&reply) else {
        return reply;
    };
    follow(machine, parts, slot, None);
    reply
}

// Carries out a call that may end the process in a slot, and no other. If it ended, its parts go.
fn end_in<P: Whole + Drop>(
    machine: &mut Machine,
    parts: &mut Vec<Option<P>>,
    by: &Caller,
    call: &Call,
    slot: Slot,
) -> Reply
    requires caller { IsCaller machine.old.win32 by.now }
    requires goes { may_go machine.old.win32 by.now.process by.now.thread
        (handles_by machine.old.win32 by.now.process) call.now ≡ true }
    requires next { machine.old.win32.next < 4294967295 }
    requires formed { IsWellFormed machine.old.script machine.old.win32 }
    requires ends { EndsOnlyIn machine.old.script machine.old.win32 by.now call.now slot }
    requires places { length parts.old.items ≡ 195 }
    ensures step { CallStep machine.old.script machine.old.win32 by.now.process by.now.thread call.now result
        machine.new.win32 }
    ensures script { machine.new.script ≡ machine.old.script }
    ensures follow { AllFollow P.posted_of P.goes P.opening P.slot_of P.thread_of machine.old.win32 machine.new.win32
        parts.old.items parts.new.items }
    ensures places { length parts.new.items ≡ 195 }
{
    let before = machine.in_slot(slot);
    let reply = machine.carry_out(by, call);
    follow(machine, parts, slot, before);
    reply
}

// The part of a thread goes on with a reply.
fn go_on<P: Whole + Drop>(
    machine: &mut Machine,
    parts: &mut Vec<Option<P>>,
    by: &Caller,
    reply: &Reply,
) -> Option<Event>
    requires caller { IsCaller machine.old.win32 by.now }
    requires thread { IsSome (thread_at machine.old.win32 by.now.slot by.now.thread) }
    requires part { IsSome (part_at parts.old.items by.now.slot by.now.thread) }
    requires places { length parts.old.items ≡ 195 }
    ensures went { GoesOn P.posted_of P.goes P.opening P.slot_of P.thread_of machine.old.script machine.old.win32
        parts.old.items by.now.slot by.now.thread by.now.process reply.now result machine.new.win32 parts.new.items }
    ensures script { machine.new.script ≡ machine.old.script }
    ensures places { length parts.new.items ≡ 195 }
{
    match &mut parts[place(by.slot, by.thread)] {
        Some(part) => machine.go_on(by, part, reply),
        None => None,
    }
}
