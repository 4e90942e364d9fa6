//! The call that makes a process.

ghost use Rattle.std.specs.Prelude.{◌≡◌, ◌+◌, ◌*◌, ◌<◌, length, MatchOption};
ghost use Rattle.win32_spec.specs.Lookup.{IsLowestFreeSlot, AreAllOccupied};
ghost use Rattle.win32_spec.specs.ProcessCalls.{CreateStep};
ghost use Rattle.win32_spec.specs.Making.{opening_call};
ghost use Rattle.w32_machine.specs.Contract.{IsCaller};
ghost use Rattle.w32_machine.specs.Creating.{HoldsEach, HaveRoom, opened};

use crate::caller::Caller;
use crate::machine::making::hold_object;
use crate::machine::{Machine, place};
use w32_base::{Call, HandleList, HandleNo, Reply, Slot, ThreadNo};
use w32_handles::{Handles, Objects};
use w32_kinds::{Kind, Placements};

/// The highest number that a handle may have.
const LAST_HANDLE: u8 = 64;

impl Machine {
    // `create`
    pub(super) fn create(&mut self, by: &Caller, program: u32, list: &HandleList) -> Reply
        requires caller { IsCaller self.old.win32 by.now }
        requires next { self.old.win32.next < 4294967295 }
        ensures step { CreateStep self.old.script self.old.win32 by.now.process program list.now result
            self.new.win32 }
        ensures script { self.new.script ≡ self.old.script }
    {
        let Ok(handles) = self.processes.handles(by.slot).inherit(list) else {
            return Reply::BadHandle;
        };
        if program as usize >= self.script.setup.programs.len() {
            return Reply::BadIndex;
        }
        if self.free_slot().is_none() {
            return Reply::NoSlot;
        }
        if self.is_full(by, 1) {
            return Reply::TableFull;
        }
        hold_all(&mut self.objects, &handles);
        let script = &self.script;
        let wanted = &script.setup.programs.as_slice()[program as usize];
        let Ok((slot, w)) = self.processes.create(program as u8, wanted, handles) else {
            unreachable!()
        };
        let o = self.objects.add(Kind::Process(w, slot));
        let Ok(h) = self.processes.handles_mut(by.slot).open(o) else {
            unreachable!()
        };
        open_threads(&mut self.posted, slot);
        self.placed[usize::from(slot.get())] = Placements::new();
        Reply::Made(h, w)
    }

    // The lowest slot from 1 up that is free.
    fn free_slot(&self) -> Option<Slot>
        ensures { MatchOption result
            (AreAllOccupied self.now.script.setup.limits.slots self.now.win32.processes)
            (λ slot. IsLowestFreeSlot self.now.script.setup.limits.slots self.now.win32.processes slot) }
    {
        for number in 1..self.script.setup.limits.slots + 1 {
            let slot = Slot::new(number);
            if self.in_slot(slot).is_none() {
                return Some(slot);
            }
        }
        None
    }
}

// Each of the handles more names its object.
fn hold_all(objects: &mut Objects<Kind>, handles: &Handles)
    requires { HaveRoom handles.now objects.old }
    ensures held { HoldsEach handles.now objects.old objects.new }
    ensures spare { objects.new.spare ≡ objects.old.spare }
{
    for number in 1..LAST_HANDLE + 1 {
        if let Some(o) = handles.get(HandleNo::new(number)) {
            hold_object(objects, o);
        }
    }
}

// The threads of a slot post their first call.
fn open_threads(posted: &mut Vec<Call>, slot: Slot)
    requires { 3 * slot + 2 < length posted.old.items }
    ensures { posted.new.items ≡ opened slot posted.old.items }
{
    let first = place(slot, ThreadNo::new(0));
    posted[first] = opening_call();
    posted[first + 1] = opening_call();
    posted[first + 2] = opening_call();
}

// The first call of each thread.
fn opening_call() -> Call
    ensures { result ≡ opening_call }
{
    Call::Load(HandleNo::new(1), 0)
}
