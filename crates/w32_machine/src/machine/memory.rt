//! The calls on the memory of processes.

ghost use Rattle.std.specs.Prelude.{◌≡◌, ◌≤◌, length, IsSome};
ghost use Rattle.win32_spec.specs.Lookup.{number_in};
ghost use Rattle.win32_spec.specs.MemoryCalls.{ReadMemoryStep, WriteMemoryStep};
ghost use Rattle.win32_spec.specs.Regions.{is_inside};
ghost use Rattle.w32_machine.specs.Contract.{IsCaller};
ghost use Rattle.w32_machine.specs.Copies.{ReadsAt, WritesAt, CopiesAt};

use crate::caller::Caller;
use crate::machine::Machine;
use w32_base::{HandleNo, Region, Reply, Slot};
use w32_memory::{read_own, write_own};

/// How many bytes a call may copy.
const MOST_COPIED: usize = 512;

/// Where a range begins: a place of a region of the process in a slot.
#[derive(Clone, Copy, Debug)]
pub(super) struct Start {
    pub slot: Slot,
    pub region: Region,
    pub place: u32,
}

impl Machine {
    // `readmem`
    pub(super) fn read_memory(
        &mut self,
        by: &Caller,
        h: HandleNo,
        region: Region,
        place: u32,
        own_region: Region,
        own_place: u32,
        count: u32,
    ) -> Reply
        requires { IsCaller self.old.win32 by.now }
        ensures step { ReadMemoryStep self.old.win32 by.now.process h region place own_region own_place count result
            self.new.win32 }
        ensures script { self.new.script ≡ self.old.script }
    {
        match self.named_live(by, h) {
            Ok(slot) => {
                let from = Start {
                    slot,
                    region,
                    place,
                };
                let into = Start {
                    slot: by.slot,
                    region: own_region,
                    place: own_place,
                };
                self.copy(&from, &into, count)
            }
            Err(refusal) => refusal,
        }
    }

    // `writemem`
    pub(super) fn write_memory(
        &mut self,
        by: &Caller,
        h: HandleNo,
        region: Region,
        place: u32,
        own_region: Region,
        own_place: u32,
        count: u32,
    ) -> Reply
        requires { IsCaller self.old.win32 by.now }
        ensures step { WriteMemoryStep self.old.win32 by.now.process h region place own_region own_place count result
            self.new.win32 }
        ensures script { self.new.script ≡ self.old.script }
    {
        match self.named_live(by, h) {
            Ok(slot) => {
                let from = Start {
                    slot: by.slot,
                    region: own_region,
                    place: own_place,
                };
                let into = Start {
                    slot,
                    region,
                    place,
                };
                self.copy(&from, &into, count)
            }
            Err(refusal) => refusal,
        }
    }

    // Copies bytes from one range to another.
    fn copy(&mut self, from: &Start, into: &Start, count: u32) -> Reply
        requires from { IsSome (number_in self.old.win32 from.now.slot) }
        requires into { IsSome (number_in self.old.win32 into.now.slot) }
        ensures copied { CopiesAt self.old.win32 from.now.slot from.now.region from.now.place into.now.slot
            into.now.region into.now.place count result self.new.win32 }
        ensures script { self.new.script ≡ self.old.script }
    {
        if count as usize > MOST_COPIED {
            return Reply::BadRange;
        }
        let mut buffer = [0; MOST_COPIED];
        self.copy_through(from, into, count, &mut buffer[..count as usize])
    }

    // The same, by way of a buffer of so many bytes.
    fn copy_through(&mut self, from: &Start, into: &Start, count: u32, buffer: &mut [u8]) -> Reply
        requires few { count ≤ 512 }
        requires size { length buffer.old ≡ count }
        requires from { IsSome (number_in self.old.win32 from.now.slot) }
        requires into { IsSome (number_in self.old.win32 into.now.slot) }
        ensures copied { CopiesAt self.old.win32 from.now.slot from.now.region from.now.place into.now.slot
            into.now.region into.now.place count result self.new.win32 }
        ensures script { self.new.script ≡ self.old.script }
    {
        if !self.read(from, buffer) {
            return Reply::BadRange;
        }
        if self.write(into, buffer) {
            Reply::Done
        } else {
            Reply::BadRange
        }
    }

    // Reads as many bytes as `bytes` has, and answers whether they lie in the region.
    fn read(&self, from: &Start, bytes: &mut [u8]) -> bool
        requires { IsSome (number_in self.now.win32 from.now.slot) }
        ensures { ReadsAt self.now.win32 from.now.slot from.now.region from.now.place bytes.old result bytes.new }
    {
        read_own(
            self.processes.own(from.slot),
            from.region,
            from.place,
            bytes,
        )
        .is_ok()
    }

    // Writes bytes, and answers whether they lie in the region.
    pub(super) fn write(&mut self, into: &Start, bytes: &[u8]) -> bool
        requires { IsSome (number_in self.old.win32 into.now.slot) }
        ensures written { WritesAt self.old.win32 into.now.slot into.now.region into.now.place bytes.now result
            self.new.win32 }
        ensures script { self.new.script ≡ self.old.script }
    {
        write_own(
            self.processes.own_mut(into.slot),
            into.region,
            into.place,
            bytes,
        )
        .is_ok()
    }
}

// Whether so many bytes from a place on lie in a region of this many bytes.
pub(super) fn lies_inside(size: usize, place: u32, count: u32) -> bool
    ensures { result ≡ is_inside size place count }
{
    count == 0 || place as usize + count as usize <= size
}
