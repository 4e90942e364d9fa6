//! A machine on which calls are tried: each thread may post any call at any time, and takes a turn at once.

ghost use Rattle.std.specs.Prelude.{◌≡◌, ◌+◌, ◌<◌, ◌≤◌, false, length, [], take, IsTrue, IfSome, slice_get};
ghost use Rattle.script_spec.specs.FirstFault.{fault_of};
ghost use Rattle.win32_spec.specs.Lookup.{thread_at};
ghost use Rattle.cyg_script.specs.Judged.{Tells};
ghost use Rattle.machine_stage.specs.Trials.{IsStageOf, PostsBy, TakesTurn, Calls, Ends, heap_byte_of};
ghost use Rattle.machine_stage.specs.Trials.{handle_of, handles_of};
ghost use Rattle.machine_stage.specs.Typing.{IsTypedTo, key_given};

use cyg_script::{ScriptError, read_script};
use script_spec::{Lines, ScheduleLine};
use std::alloc::Global;
use std::marker::Model;
use w32_base::{Call, Directive, HandleList, HandleNo, Reply, Slot, ThreadNo, WinNo};
use w32_machine::{Machine, Turned};

/// How many turns may be taken at most.
const MOST_TURNS: u32 = 1_000_000;

/// The machine. A contract sees it as a `Trial`: the machine, and how many turns were taken on it.
#[derive(Drop)]
pub struct Stage {
    machine: Machine,
    // how many turns were taken
    turns: u32,
}

impl Model for Stage {
    ghost use Rattle.machine_stage.specs.Staged.{IsStaged};
    ghost use Rattle.machine_stage.specs.Trials.{Trial};

    ghost Value = { Trial };

    ghost view = { λ s. record { machine = s.machine; turns = s.turns } };

    ghost invariant = { λ s. IsStaged s.turns s.machine };
}

impl Stage {
    /// The machine at the beginning of a run of the script of a text, with all keys of its schedule typed.
    ///
    /// It fails with the first fault of a text that is no script, and for want of memory.
    pub fn open(alloc: Global, text: &[u8]) -> Result<Stage, ScriptError>
        ensures { Tells result (fault_of text.now) (λ stage. IsStageOf text.now stage) }
    {
        let script = read_script(alloc, text)?;
        let mut opened = Stage {
            machine: Machine::open(alloc, &script)?,
            turns: 0,
        };
        opened.type_keys(&script.directives);
        Ok(opened)
    }

    // Each key of the schedule goes to the console's queue.
    fn type_keys(&mut self, lines: &Lines)
        requires script { lines.now ≡ self.old.machine.script.directives }
        requires none { self.old.machine.win32.keys ≡ [] }
        ensures script { self.new.machine.script ≡ self.old.machine.script }
        ensures rest { (record (self.new.machine.win32) { keys = [] }) ≡
            (record (self.old.machine.win32) { keys = [] }) }
        ensures typed { IsTypedTo lines.now (length lines.now) self.new.machine.win32.keys }
        ensures turns { self.new.turns ≡ self.old.turns }
    {
        for place in 0..lines.len() {
            self.type_line(lines, place);
        }
    }

    // The key of a line goes to the console's queue, after those of the lines before it.
    fn type_line(&mut self, lines: &Lines, place: usize)
        requires script { lines.now ≡ self.old.machine.script.directives }
        requires typed { IsTypedTo lines.now place self.old.machine.win32.keys }
        requires within { place < length lines.now }
        ensures script { self.new.machine.script ≡ self.old.machine.script }
        ensures rest { (record (self.new.machine.win32) { keys = [] }) ≡
            (record (self.old.machine.win32) { keys = [] }) }
        ensures typed { IsTypedTo lines.now (place + 1) self.new.machine.win32.keys }
        ensures turns { self.new.turns ≡ self.old.turns }
    {
        let Some(b) = key_at(lines, place) else {
            return;
        };
        self.machine.key(b);
    }

    /// A thread posts a call and takes a turn: the reply, or none where there is no such thread or it isn't ready, and
    /// after 1,000,000 turns.
    pub fn call(&mut self, slot: u8, thread: u8, call: Call) -> Option<Reply>
        ensures { Calls self.old slot thread call result self.new }
    {
        let (slot, thread) = (Slot::try_new(slot)?, ThreadNo::try_new(thread)?);
        self.post(slot, thread, call);
        self.turn(slot, thread)
    }

    // A thread posts a call, where there is such a thread.
    fn post(&mut self, slot: Slot, thread: ThreadNo, call: Call)
        ensures { PostsBy (thread_at self.old.machine.win32 slot thread) self.old slot thread call self.new }
    {
        let Some(_) = self.machine.in_slot(slot) else {
            return;
        };
        if is_thread(slot, thread) {
            self.machine.post(slot, thread, call);
        }
    }

    // A thread takes a turn.
    fn turn(&mut self, slot: Slot, thread: ThreadNo) -> Option<Reply>
        ensures { TakesTurn self.old slot thread result self.new }
    {
        if self.turns >= MOST_TURNS {
            return None;
        }
        let turned = self.machine.turn(slot, thread);
        self.turns += 1;
        match turned {
            Turned::Idle => None,
            Turned::Done(reply) => Some(reply),
        }
    }

    /// The byte of the heap of the process in a slot.
    pub fn heap_byte(&self, slot: u8, place: usize) -> Option<u8>
        ensures { result ≡ heap_byte_of self.now.machine.win32 slot place }
    {
        self.machine.own(Slot::try_new(slot)?)?.heap.get(place)
    }

    /// The process in a slot ends from outside: its number, or none where there is none, and for slot 0.
    pub fn end(&mut self, slot: u8) -> Option<WinNo>
        ensures { Ends self.old slot result self.new }
    {
        if slot == 0 {
            return None;
        }
        self.machine.end(Slot::try_new(slot)?)
    }
}

/// A script of two slots, whose program has 64 bytes of heap.
pub const TWO_SLOTS: &[u8] =
    b"cygscript 1\nslots 2\nrows 4\nbudget 1\nprogram main heap 64 stack 64\ngetpid\nschedule\nsettle\n";

// The key that a line of a schedule gives, if any.
fn key_at(lines: &Lines, place: usize) -> Option<u8>
    requires { place < length lines.now }
    ensures { IfSome (slice_get lines.now place) (λ line. result ≡ key_given line) }
{
    match lines.get(place) {
        Some(ScheduleLine::Given(Directive::Key(b))) => Some(b),
        _ => None,
    }
}

// Whether a process in the slot has such a thread.
fn is_thread(slot: Slot, thread: ThreadNo) -> bool
    ensures yes { IsTrue result → slot ≡ 0 → thread ≤ 1 }
    ensures no { result ≡ false → (slot ≡ 0) × (2 ≤ thread) }
{
    slot.get() > 0 || thread.get() < 2
}

/// The handle of a number from 1 to 64, and else the last one.
pub fn handle(number: u8) -> HandleNo
    ensures { result ≡ handle_of number }
{
    match HandleNo::try_new(number) {
        Some(handle) => handle,
        None => HandleNo::new(64),
    }
}

/// The handles of numbers, of the first 40 of them.
pub fn handles(numbers: &[u8]) -> HandleList
    ensures { result ≡ handles_of numbers.now }
{
    let few = first_numbers(numbers);
    let mut list = HandleList::new();
    for number in few {
        list.push(handle(*number));
    }
    list
}

// The first 40 numbers.
fn first_numbers(numbers: &[u8]) -> &[u8]
    ensures value { result.now ≡ take 40 numbers.now }
    ensures few { length result.now ≤ 40 }
{
    if numbers.len() > 40 {
        &numbers[..40]
    } else {
        numbers
    }
}
