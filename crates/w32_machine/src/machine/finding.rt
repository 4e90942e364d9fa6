//! Finding the object and the slot of a process.

ghost use Rattle.std.specs.Prelude.{◌≡◌, ◌↔◌, Some, IsTrue, MatchOption};
ghost use Rattle.win32_spec.specs.ProcessCalls.{process_object};
ghost use Rattle.w32_handles.specs.Shown.{object_shown, objects_of};
ghost use Rattle.w32_handles.specs.Table.{object_at};
ghost use Rattle.w32_process.specs.Sound.{IsSound};
ghost use Rattle.w32_process.specs.Table.{number_at};
ghost use Rattle.w32_process.specs.TableLaws.{IsInNone};
ghost use Rattle.w32_machine.specs.Handing.{is_its_object};
ghost use Rattle.w32_kinds.specs.Shown.{shown};

use w32_base::{ObjectNo, Slot, WinNo};
use w32_handles::Objects;
use w32_kinds::Kind;
use w32_process::Processes;

/// How many slots there are at the most, with the host's.
const SLOTS: u8 = 65;

// The slot of a process that lives, or none.
pub(super) fn slot_of(processes: &Processes, w: WinNo) -> Option<Slot>
    ensures { MatchOption result (IsInNone processes.now.slots w)
        (λ slot. number_at processes.now.slots slot ≡ Some w) }
{
    for place in 0..SLOTS {
        let slot = Slot::new(place);
        if is_in(processes, slot, w) {
            return Some(slot);
        }
    }
    None
}

// Whether this process stands in this slot.
fn is_in(processes: &Processes, slot: Slot, w: WinNo) -> bool
    ensures value { IsTrue result ↔ (number_at processes.now.slots slot ≡ Some w) }
    ensures sound { IsSound processes.now }
{
    processes.in_slot(slot) == Some(w)
}

// The object of a process, or none.
pub(super) fn object_of(objects: &Objects<Kind>, w: WinNo) -> Option<ObjectNo>
    ensures { result ≡ process_object (objects_of shown objects.now.places) w }
{
    for place in 0..objects.places() {
        let o = ObjectNo::new(2 * (place as u32));
        if is_object_of(objects, o, w) {
            return Some(o);
        }
    }
    None
}

// Whether an object is that of a process.
fn is_object_of(objects: &Objects<Kind>, o: ObjectNo, w: WinNo) -> bool
    ensures { result ≡ is_its_object (object_shown shown (object_at objects.now o)) w }
{
    if !objects.contains(o) {
        return false;
    }
    match objects.get(o).process() {
        Some((v, _)) => v == w,
        None => false,
    }
}
