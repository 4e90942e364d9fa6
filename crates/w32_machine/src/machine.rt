//! The machine: its processes, its objects, the posted calls, the placed modules and the console's keys.

ghost use Rattle.std.specs.Prelude.{◌≡◌, ◌+◌, ◌*◌, ◌<◌, ◌≤◌, ◌↔◌, length, true, false, IsTrue, IfOk, IfSome, IsSome};
ghost use Rattle.std.specs.Prelude.{MatchOption, MatchResult, option_copied};
ghost use Rattle.script_spec.specs.Validity.{IsValid};
ghost use Rattle.w32_base.specs.declared.call.Reply.TheVariants as reply;
ghost use Rattle.win32_spec.specs.Objects.{load_reply};
ghost use Rattle.win32_spec.specs.Lookup.{process_in, thread_at, number_in, section_words};
ghost use Rattle.win32_spec.specs.Opening.{IsOpening};
ghost use Rattle.win32_spec.specs.Ready.{IsQuiet, IsNextReady};
ghost use Rattle.win32_spec.specs.Run.{Posts, with_key};
ghost use Rattle.w32_machine.specs.Contract.{own_in};

use script_spec::Script;
use std::alloc::Global;
use std::collections::VecDeque;
use std::marker::Model;
use w32_base::{Call, Memory, ObjectNo, Own, Slot, ThreadNo, WinNo};
use w32_handles::Objects;
use w32_kinds::{Kind, Placements};
use w32_opening::{
    first_calls, first_modules, first_objects, first_placements, first_processes, script_of,
};
use w32_process::Processes;
use w32_section::BadIndex;

mod creating;
mod ending;
mod finding;
mod lent;
mod local;
mod making;
mod memory;
mod naming;
mod objects;
mod processes;
mod ready;
mod terminal;
mod turn;
mod waiting;
mod words;

pub use turn::Turned;

/// How many slots there are at the most, with the host's.
const SLOTS: usize = 65;

/// The modelled Win32. A contract sees the script that it runs, and its state.
#[derive(Drop)]
pub struct Machine {
    script: Script,
    processes: Processes,
    objects: Objects<Kind>,
    section: ObjectNo,
    // three a slot
    posted: Vec<Call>,
    placed: Vec<Placements>,
    keys: VecDeque<u8>,
}

impl Model for Machine {
    ghost use Rattle.w32_machine.specs.Running.{Running};

    ghost Value = { Running };

    ghost use Rattle.w32_machine.specs.View.{view_of};
    ghost use Rattle.w32_machine.specs.Sound.{IsSound};

    ghost view = { view_of };

    ghost invariant = { IsSound };
}

impl Machine {
    /// The machine in the state in which a run of the script begins. All memory is taken here. It fails only for want
    /// of it.
    pub fn open(alloc: Global, script: &Script) -> Result<Machine, Memory>
        requires { IsValid script.now }
        ensures opening { IfOk result (λ machine. IsOpening script.now machine.win32) }
        ensures script { IfOk result (λ machine. machine.script ≡ script.now) }
    {
        let slots = usize::from(script.setup.limits.slots) + 1;
        let (objects, numbers) = first_objects(alloc)?;
        let placed = first_placements(script);
        let processes = first_processes(alloc, script, &numbers, &placed)?;
        Ok(Machine {
            script: script_of(alloc, script)?,
            processes,
            objects,
            section: numbers.section,
            posted: first_calls(alloc, 3 * slots)?,
            placed: first_modules(alloc, slots, placed)?,
            keys: VecDeque::with_capacity(alloc, script.directives.len())?,
        })
    }

    /// Sets the next call of a thread.
    pub fn post(&mut self, slot: Slot, thread: ThreadNo, call: Call)
        requires { IsSome (thread_at self.old.win32 slot thread) }
        ensures posted { Posts self.old.win32 slot thread call self.new.win32 }
        ensures script { self.new.script ≡ self.old.script }
    {
        self.posted[place(slot, thread)] = call;
    }

    /// Puts a key behind the others in the console's queue.
    pub fn key(&mut self, b: u8)
        requires { length self.old.win32.keys < Rattle.w32_machine.specs.Contract.key_lines self.old.script.directives }
        ensures queued { self.new.win32 ≡ with_key self.old.win32 b }
        ensures script { self.new.script ≡ self.old.script }
    {
        if self.keys.push_back(b).is_err() {
            unreachable!()
        }
    }

    /// Whether no thread is ready.
    pub fn quiet(&self) -> bool
        ensures { IsTrue result ↔ IsQuiet self.now.win32 }
    {
        self.next_ready((Slot::new(64), ThreadNo::new(2))).is_none()
    }

    /// The next ready thread after the last one, by slot and then thread, going round.
    pub fn next_ready(&self, last: (Slot, ThreadNo)) -> Option<(Slot, ThreadNo)>
        ensures { MatchOption result (IsQuiet self.now.win32)
            (λ next. IsNextReady self.now.win32 last.0 last.1 next.0 next.1) }
    {
        let (slot, thread) = last;
        let after = usize::from(slot.get()) + 1;
        if let Some(next) = self.first_from(slot, thread.get() + 1) {
            return Some((slot, next));
        }
        if let Some(next) = self.first_among(after, SLOTS) {
            return Some(next);
        }
        self.first_among(0, after)
    }

    /// The memory of the process in a slot, or none where the slot is empty.
    pub fn own(&self, slot: Slot) -> Option<&Own>
        ensures { option_copied result ≡ own_in (process_in self.now.win32.processes slot) }
    {
        match self.processes.in_slot(slot) {
            Some(_) => Some(self.processes.own(slot)),
            None => None,
        }
    }

    /// Word `index` of the section, which some handle names.
    pub fn word(&self, index: u32) -> Result<u64, BadIndex>
        requires { IsSome (section_words self.now.win32.objects) }
        ensures { IfSome (section_words self.now.win32.objects) (λ words.
            MatchResult result (λ x. load_reply words index ≡ reply.Word x)
            (λ _. load_reply words index ≡ reply.BadIndex)) }
    {
        self.objects.get(self.section).word(index)
    }

    /// The number of the process in a slot, or none where the slot is empty.
    pub fn in_slot(&self, slot: Slot) -> Option<WinNo>
        ensures { result ≡ number_in self.now.win32 slot }
    {
        self.processes.in_slot(slot)
    }

    /// The posted call of a thread.
    pub(crate) fn posted(&self, slot: Slot, thread: ThreadNo) -> &Call
        requires { IsSome (thread_at self.now.win32 slot thread) }
        ensures { IfSome (thread_at self.now.win32 slot thread) (λ x. result.now ≡ x.posted) }
    {
        &self.posted[place(slot, thread)]
    }
}

// The place of a thread's posted call.
fn place(slot: Slot, thread: ThreadNo) -> usize
    ensures { result ≡ 3 * slot + thread }
{
    3 * usize::from(slot.get()) + usize::from(thread.get())
}
