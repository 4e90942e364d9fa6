//! The parts of the threads of a slot.

ghost use Rattle.std.specs.Prelude.{◌≡◌, ◌+◌, ◌*◌, ◌<◌, ℕ, length, IfOk};
ghost use Rattle.win32_spec.specs.Driven.{OpensPart};
ghost use Rattle.win32_spec.specs.Lookup.{thread_at};
ghost use Rattle.w32_machine.specs.Lent.{HasFewThreads};
ghost use Rattle.w32_driven.specs.Driving.{SlotFollows, OpensSlot, OpensAll, OtherSlotsStay};

use std::alloc::Global;
use w32_base::{Memory, Slot, ThreadNo, Whole, WinNo};
use w32_machine::Machine;

/// How many places for parts there are: three in each of 65 slots.
const PLACES: usize = 195;

// The parts of a machine, each as it is opened. It fails only for want of memory.
pub(super) fn first_parts<P: Whole + Drop>(
    alloc: Global,
    machine: &Machine,
) -> Result<Vec<Option<P>>, Memory>
    ensures opened { IfOk result (λ parts. OpensAll P.posted_of P.goes P.opening P.slot_of P.thread_of
        machine.now.win32 parts.items) }
    ensures places { IfOk result (λ parts. length parts.items ≡ 195) }
{
    let mut parts = Vec::with_capacity(alloc, PLACES)?;
    for place in 0..PLACES {
        let (slot, thread) = (
            Slot::new((place / 3) as u8),
            ThreadNo::new((place % 3) as u8),
        );
        parts.push(part_of(machine, slot, thread))?;
    }
    Ok(parts)
}

// Where a slot has another process than before, or none any more, its parts are opened, or go.
pub(super) fn follow<P: Whole + Drop>(
    machine: &Machine,
    parts: &mut Vec<Option<P>>,
    slot: Slot,
    before: Option<WinNo>,
)
    requires { length parts.old.items ≡ 195 }
    ensures here { SlotFollows P.posted_of P.goes P.opening P.slot_of P.thread_of before machine.now.win32
        parts.old.items parts.new.items slot }
    ensures others { OtherSlotsStay parts.old.items parts.new.items slot }
    ensures places { length parts.new.items ≡ 195 }
{
    if before != machine.in_slot(slot) {
        open_slot(machine, parts, slot);
    }
}

// Opens a part for each thread of a slot.
fn open_slot<P: Whole + Drop>(machine: &Machine, parts: &mut Vec<Option<P>>, slot: Slot)
    requires { length parts.old.items ≡ 195 }
    ensures here { OpensSlot P.posted_of P.goes P.opening P.slot_of P.thread_of machine.now.win32 parts.new.items slot }
    ensures others { OtherSlotsStay parts.old.items parts.new.items slot }
    ensures places { length parts.new.items ≡ 195 }
{
    parts[place(slot, ThreadNo::new(0))] = part_of(machine, slot, ThreadNo::new(0));
    parts[place(slot, ThreadNo::new(1))] = part_of(machine, slot, ThreadNo::new(1));
    parts[place(slot, ThreadNo::new(2))] = part_of(machine, slot, ThreadNo::new(2));
}

// The part of a thread that was just made, or none where there is no thread.
fn part_of<P: Whole + Drop>(machine: &Machine, slot: Slot, thread: ThreadNo) -> Option<P>
    ensures opened { OpensPart P.posted_of P.goes P.opening P.slot_of P.thread_of
        (thread_at machine.now.win32 slot thread) slot thread result }
    ensures few { HasFewThreads machine.now.win32 }
{
    if machine.has_thread(slot, thread) {
        Some(P::open(slot, thread))
    } else {
        None
    }
}

// The place of a thread's part.
pub(super) fn place(slot: Slot, thread: ThreadNo) -> usize
    ensures value { result ≡ 3 * slot + thread }
    ensures within { result < 195 }
{
    3 * usize::from(slot.get()) + usize::from(thread.get())
}
