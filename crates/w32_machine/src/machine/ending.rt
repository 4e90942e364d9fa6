//! Closing handles, and the ends of processes.

ghost use Rattle.std.specs.Prelude.{◌≡◌, ◌≤◌, ℕ, ◌+◌, ◌*◌, [], Some, None};
ghost use Rattle.w32_base.specs.declared.entry.Directive.TheVariants as directive;
ghost use Rattle.win32_spec.specs.Lookup.{number_in, with_handles};
ghost use Rattle.win32_spec.specs.Named.{handles_by};
ghost use Rattle.win32_spec.specs.Ends.{swept, with_end, is_object_of, is_process_held};
ghost use Rattle.win32_spec.specs.HandleCalls.{CloseStep};
ghost use Rattle.win32_spec.specs.ProcessCalls.{TerminateStep, ExitSelfStep};
ghost use Rattle.win32_spec.specs.Run.{StepBy};
ghost use Rattle.w32_handles.specs.Table.{object_at, freed};
ghost use Rattle.w32_handles.specs.Shown.{objects_of};
ghost use Rattle.w32_machine.specs.Contract.{IsCaller};
ghost use Rattle.w32_kinds.specs.Shown.{shown};
ghost use Rattle.w32_machine.specs.Ending.{HasHolder, LeavesOne, WentWith, left_kept, MayForget, Forgets};
ghost use Rattle.w32_machine.specs.Ending.{outcome_of_end};

use crate::caller::Caller;
use crate::machine::Machine;
use w32_base::{HandleNo, ObjectNo, Reply, Slot, ThreadNo, WinNo};
use w32_handles::Objects;
use w32_kinds::{Kind, end_of};
use w32_process::Processes;

/// The code of a process that is ended from outside.
const ENDED_FROM_OUTSIDE: u32 = 65_536;

/// The highest number that a handle may have.
const LAST_HANDLE: u8 = 64;

impl Machine {
    /// Ends the process in a slot from outside, and answers its number, or none where the slot is empty.
    pub fn end(&mut self, slot: Slot) -> Option<WinNo>
        requires { 1 ≤ slot }
        ensures step { StepBy self.old.script self.old.win32 (directive.End slot) None (outcome_of_end result)
            self.new.win32 }
        ensures script { self.new.script ≡ self.old.script }
    {
        match self.in_slot(slot) {
            Some(w) => {
                self.end_process(slot, w, ENDED_FROM_OUTSIDE);
                Some(w)
            }
            None => None,
        }
    }

    // `close`
    pub(super) fn close(&mut self, by: &Caller, h: HandleNo) -> Reply
        requires { IsCaller self.old.win32 by.now }
        ensures step { CloseStep self.old.win32 by.now.process h result self.new.win32 }
        ensures script { self.new.script ≡ self.old.script }
    {
        match self.named(by, h) {
            Some(o) => {
                let _ = self.processes.handles_mut(by.slot).close(h);
                let went = let_go(&mut self.objects, o);
                forget(&mut self.processes, went);
                Reply::Done
            }
            None => Reply::BadHandle,
        }
    }

    // `terminate`
    pub(super) fn terminate(&mut self, by: &Caller, h: HandleNo, code: u32) -> Reply
        requires { IsCaller self.old.win32 by.now }
        ensures step { TerminateStep self.old.win32 by.now.process h code result self.new.win32 }
        ensures script { self.new.script ≡ self.old.script }
    {
        let _ = &self.processes;
        match self.named_process(by, h) {
            Some((w, slot)) => {
                if self.lives(w, slot) {
                    self.end_process(slot, w, code);
                    Reply::Done
                } else {
                    Reply::Gone
                }
            }
            None => Reply::BadHandle,
        }
    }

    // `exitself`
    pub(super) fn exit_self(&mut self, by: &Caller, code: u32) -> Reply
        requires { IsCaller self.old.win32 by.now }
        ensures step { ExitSelfStep self.old.win32 by.now.process code result self.new.win32 }
        ensures script { self.new.script ≡ self.old.script }
    {
        self.end_process(by.slot, by.process, code);
        Reply::Done
    }

    // Ends the process w in a slot with a code.
    fn end_process(&mut self, slot: Slot, w: WinNo, code: u32)
        requires { number_in self.old.win32 slot ≡ Some w }
        ensures ended { self.new.win32 ≡ with_end self.old.win32 w code }
        ensures script { self.new.script ≡ self.old.script }
    {
        let by = Caller {
            slot,
            process: w,
            thread: ThreadNo::new(0),
        };
        self.close_all(&by);
        self.leave(slot, w, code);
    }

    // Closes all handles of a process.
    fn close_all(&mut self, by: &Caller)
        requires { IsCaller self.old.win32 by.now }
        ensures closed { self.new.win32 ≡ swept (with_handles self.old.win32 by.now.process []) }
        ensures ends { (code : ℕ) → with_end self.new.win32 by.now.process code ≡
            with_end self.old.win32 by.now.process code }
        ensures none { handles_by self.new.win32 by.now.process ≡ [] }
        ensures stays { number_in self.new.win32 by.now.slot ≡ Some by.now.process }
        ensures script { self.new.script ≡ self.old.script }
    {
        let _ = &self.processes;
        for number in 1..LAST_HANDLE + 1 {
            let _ = self.close(by, HandleNo::new(number));
        }
    }

    // Ends the process w in a slot with a code, once its handles are closed.
    fn leave(&mut self, slot: Slot, w: WinNo, code: u32)
        requires stands { number_in self.old.win32 slot ≡ Some w }
        requires closed { handles_by self.old.win32 w ≡ [] }
        ensures ended { self.new.win32 ≡ with_end self.old.win32 w code }
        ensures script { self.new.script ≡ self.old.script }
    {
        abandon(&mut self.objects, w);
        self.processes.end(slot, code);
        if !has_object_of(&self.objects, w) {
            self.processes.forget(w);
        }
    }
}

// A handle less names an object, by the end that the number tells. With the last one it goes: then the answer is the
// process that it was of, where it was of one, with the slot that this lives or lived in.
fn let_go(objects: &mut Objects<Kind>, o: ObjectNo) -> Option<(WinNo, Slot)>
    requires { HasHolder objects.old o }
    ensures left { LeavesOne objects.old objects.new o }
    ensures spare { objects.new.spare ≡ objects.old.spare + freed (object_at objects.old o) }
    ensures went { WentWith (object_at objects.old o) result }
{
    let process = objects.get(o).process();
    objects.get_mut(o).leave(end_of(o));
    objects.release(o);
    if objects.contains(o) { None } else { process }
}

// Where the process whose object went doesn't live, it is kept no more.
fn forget(processes: &mut Processes, went: Option<(WinNo, Slot)>)
    requires { MayForget processes.old went }
    ensures { Forgets processes.old went processes.new }
{
    if let Some((w, slot)) = went {
        if processes.in_slot(slot) != Some(w) {
            processes.forget(w);
        }
    }
}

// A process has ended, which abandons the mutexes that its threads own.
fn abandon(objects: &mut Objects<Kind>, w: WinNo)
    ensures left { (k : ℕ) → object_at objects.new (2 * k) ≡ left_kept w (object_at objects.old (2 * k)) }
    ensures spare { objects.new.spare ≡ objects.old.spare }
{
    for place in 0..objects.places() {
        let o = ObjectNo::new(2 * place as u32);
        if objects.contains(o) {
            objects.get_mut(o).left_by(w);
        }
    }
}

// Whether one of the objects is of this process.
fn has_object_of(objects: &Objects<Kind>, w: WinNo) -> bool
    ensures { result ≡ is_process_held (objects_of shown objects.now.places) w }
{
    for place in 0..objects.places() {
        let o = ObjectNo::new(2 * place as u32);
        if objects.contains(o) && is_of(objects.get(o), w) {
            return true;
        }
    }
    false
}

// Whether an object is of this process.
fn is_of(kind: &Kind, w: WinNo) -> bool
    ensures { result ≡ is_object_of (shown kind.now) w }
{
    match kind {
        Kind::Process(v, _) => *v == w,
        _ => false,
    }
}
