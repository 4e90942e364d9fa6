//! The calls that give the caller a new handle.

ghost use Rattle.std.specs.Prelude.{◌≡◌, ◌<◌, [], length, false, IsSome};
ghost use Rattle.win32_spec.specs.Handles.{with_handle, IsLowestFree};
ghost use Rattle.win32_spec.specs.HandleCalls.{DupStep};
ghost use Rattle.win32_spec.specs.Lookup.{IsFresh, with_new_object};
ghost use Rattle.win32_spec.specs.Lookup.{with_handles as with_state_handles};
ghost use Rattle.win32_spec.specs.Named.{handles_by, is_full, GetsHandle, MakesObject};
ghost use Rattle.win32_spec.specs.ObjectCalls.{EventStep, MutexStep, PipeStep};
ghost use Rattle.win32_spec.specs.ProcessCalls.{OpenStep};
ghost use Rattle.win32_spec.specs.WellFormed.{IsListed};
ghost use Rattle.w32_handles.specs.Table.{object_at, Changes};
ghost use Rattle.w32_process.specs.Table.{number_at, place_at, with_handles};
ghost use Rattle.w32_machine.specs.Contract.{IsCaller};
ghost use Rattle.w32_machine.specs.Handing.{held_by, MayBeHeld, IsNewKind};
ghost use Rattle.w32_kinds.specs.Shown.{shown};

use crate::caller::Caller;
use crate::machine::Machine;
use crate::machine::finding::{object_of, slot_of};
use w32_base::{HandleNo, ObjectNo, Reply, Slot, WinNo};
use w32_handles::Objects;
use w32_kinds::{Kind, end_of};
use w32_process::Processes;
use w32_sync::{Pipe, PipeEnd, WinEvent, WinMutex};

impl Machine {
    // `event`
    pub(super) fn event(&mut self, by: &Caller, manual: bool, signalled: bool) -> Reply
        requires { IsCaller self.old.win32 by.now }
        ensures step { EventStep self.old.win32 by.now.process manual signalled result self.new.win32 }
        ensures script { self.new.script ≡ self.old.script }
    {
        self.make(by, Kind::Event(WinEvent::new(manual, signalled)))
    }

    // `mutex`
    pub(super) fn mutex(&mut self, by: &Caller, owned: bool) -> Reply
        requires { IsCaller self.old.win32 by.now }
        ensures step { MutexStep self.old.win32 by.now.process by.now.thread owned result self.new.win32 }
        ensures script { self.new.script ≡ self.old.script }
    {
        let owner = if owned { Some(by.owner()) } else { None };
        self.make(by, Kind::Mutex(WinMutex::new(owner)))
    }

    // `pipe`
    pub(super) fn pipe(&mut self, by: &Caller) -> Reply
        requires { IsCaller self.old.win32 by.now }
        ensures step { PipeStep self.old.win32 by.now.process result self.new.win32 }
        ensures script { self.new.script ≡ self.old.script }
    {
        if self.is_full(by, 2) {
            return Reply::TableFull;
        }
        let (o, read_end) = self.add(by, Kind::Pipe(new_pipe()));
        let write_end = self.hand(by, ObjectNo::new(o.get() + 1));
        Reply::Two(read_end, write_end)
    }

    // `open`
    pub(super) fn open_process(&mut self, by: &Caller, w: WinNo) -> Reply
        requires { IsCaller self.old.win32 by.now }
        ensures step { OpenStep self.old.win32 by.now.process w result self.new.win32 }
        ensures script { self.new.script ≡ self.old.script }
    {
        match object_of(&self.objects, w) {
            Some(o) => self.give(by, o),
            None => match slot_of(&self.processes, w) {
                Some(slot) => self.make(by, Kind::Process(w, slot)),
                None => Reply::Unknown,
            },
        }
    }

    // `dup`
    pub(super) fn dup(&mut self, by: &Caller, h: HandleNo, n: HandleNo) -> Reply
        requires { IsCaller self.old.win32 by.now }
        ensures step { DupStep self.old.win32 by.now.process h n result self.new.win32 }
        ensures script { self.new.script ≡ self.old.script }
    {
        let Some(process) = self.named_process(by, h) else {
            return Reply::BadHandle;
        };
        let (w, slot) = process;
        if !self.lives(w, slot) {
            return Reply::Gone;
        }
        match self.processes.handles(slot).get(n) {
            Some(o) => self.give(by, o),
            None => Reply::BadHandle,
        }
    }

    // A new object with a handle of the caller, which becomes its one holder.
    fn make(&mut self, by: &Caller, k: Kind) -> Reply
        requires caller { IsCaller self.old.win32 by.now }
        requires kind { IsNewKind self.old.win32 by.now k }
        ensures step { MakesObject self.old.win32 by.now.process (shown k) result self.new.win32 }
        ensures script { self.new.script ≡ self.old.script }
    {
        if self.is_full(by, 1) {
            return Reply::TableFull;
        }
        let (_, handle) = self.add(by, k);
        Reply::Handle(handle)
    }

    // A handle of the caller on what a number names.
    fn give(&mut self, by: &Caller, o: ObjectNo) -> Reply
        requires caller { IsCaller self.old.win32 by.now }
        requires listed { IsListed self.old.win32.objects o }
        ensures step { GetsHandle self.old.win32 by.now.process o result self.new.win32 }
        ensures script { self.new.script ≡ self.old.script }
    {
        if self.is_full(by, 1) {
            return Reply::TableFull;
        }
        Reply::Handle(self.hand(by, o))
    }

    // The same where the handle fits: the object's number, and the handle's.
    fn add(&mut self, by: &Caller, k: Kind) -> (ObjectNo, HandleNo)
        requires caller { IsCaller self.old.win32 by.now }
        requires room { is_full (handles_by self.old.win32 by.now.process) 1 ≡ false }
        requires kind { IsNewKind self.old.win32 by.now k }
        ensures fresh { IsFresh self.old.win32 result.0 }
        ensures lowest { IsLowestFree (handles_by self.old.win32 by.now.process) result.1 }
        ensures after { self.new.win32 ≡
            with_state_handles (with_new_object self.old.win32 result.0 (shown k)) by.now.process
            (with_handle (handles_by self.old.win32 by.now.process) result.1 result.0) }
        ensures handles { handles_by self.new.win32 by.now.process ≡
            with_handle (handles_by self.old.win32 by.now.process) result.1 result.0 }
        ensures script { self.new.script ≡ self.old.script }
    {
        let o = self.objects.add(k);
        let handle = open_handle(&mut self.processes, by.slot, o);
        (o, handle)
    }

    // The same of what a number names, where the handle fits.
    fn hand(&mut self, by: &Caller, o: ObjectNo) -> HandleNo
        requires caller { IsCaller self.old.win32 by.now }
        requires room { is_full (handles_by self.old.win32 by.now.process) 1 ≡ false }
        requires listed { IsListed self.old.win32.objects o }
        ensures lowest { IsLowestFree (handles_by self.old.win32 by.now.process) result }
        ensures after { self.new.win32 ≡
            with_state_handles self.old.win32 by.now.process
            (with_handle (handles_by self.old.win32 by.now.process) result o) }
        ensures script { self.new.script ≡ self.old.script }
    {
        hold_object(&mut self.objects, o);
        open_handle(&mut self.processes, by.slot, o)
    }
}

// A pipe with a handle on its read end.
fn new_pipe() -> Pipe
    ensures { result ≡ record { bytes = []; readers = 1; writers = 0 } }
{
    let mut pipe = Pipe::new();
    pipe.hold(PipeEnd::Read);
    pipe
}

// A holder more of an object, by the end that the number names.
pub(super) fn hold_object(objects: &mut Objects<Kind>, o: ObjectNo)
    requires { MayBeHeld o (object_at objects.old o) }
    ensures held { Changes objects.old objects.new o (held_by o (object_at objects.old o)) }
    ensures spare { objects.new.spare ≡ objects.old.spare }
{
    objects.hold(o);
    objects.get_mut(o).hold(end_of(o));
}

// A handle more of the process in a slot.
fn open_handle(processes: &mut Processes, slot: Slot, o: ObjectNo) -> HandleNo
    requires stands { IsSome (number_at processes.old.slots slot) }
    requires room { length (place_at processes.old.slots slot).handles < 64 }
    ensures lowest { IsLowestFree (place_at processes.old.slots slot).handles result }
    ensures opened { processes.new ≡
        with_handles processes.old slot (with_handle (place_at processes.old.slots slot).handles result o) }
{
    match processes.handles_mut(slot).open(o) {
        Ok(handle) => handle,
        Err(_) => unreachable!(),
    }
}
