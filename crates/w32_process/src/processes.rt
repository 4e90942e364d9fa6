//! The processes in their slots, and those that have ended.

ghost use Rattle.std.specs.Prelude.{◌≡◌, ◌≢◌, ℕ, ◌+◌, ◌-◌, ◌<◌, ◌≤◌, ◌↔◌, ◌⊎◌, Some, None, length, IsSome, IsErr};
ghost use Rattle.std.specs.Prelude.{IfSome, IfOk, OnErr, MatchOption};
ghost use Rattle.std.specs.Borrow.{sem};
ghost use Rattle.win32_spec.specs.ProcessCalls.{resumed, suspended_more};
ghost use Rattle.w32_process.specs.Table.{place_at, number_at, count_at, code_of, without_kept, opening_table};
ghost use Rattle.w32_process.specs.Table.{with_count, with_made, with_end, IsLive, IsLowestEmpty, AreAllOccupied};
ghost use Rattle.w32_process.specs.Sound.{IsSound};

use crate::kept::{Kept, code, place_of};
use crate::seat::Seat;
use std::alloc::Global;
use std::marker::Model;
use w32_base::{Memory, Own, Program, Slot, ThreadNo, WinNo};
use w32_handles::Handles;

/// How many ended processes there may be that somebody names: each of them by a handle of a live process, of which
/// there are at most 64 in each of 65 slots, and one that is to be forgotten.
pub const MOST_KEPT: usize = 4161;

/// How often a thread may be suspended.
const MOST_SUSPENDED: u32 = 100;

/// Each slot for a layer process has one.
#[derive(Clone, Copy, Debug, PartialEq, Eq)]
pub struct NoSlot;

/// The processes. A contract sees the next Win32 number, the slots, and the ended processes that are kept.
#[derive(Debug, Drop)]
pub struct Processes {
    next: u32,
    seats: Vec<Seat>,
    kept: Vec<Kept>,
}

impl Model for Processes {
    ghost use Rattle.std.specs.Prelude.{vec_capacity, ◌≤◌};
    ghost use Rattle.w32_process.specs.Table.{Table};
    ghost use Rattle.w32_process.specs.Sound.{IsSound};

    ghost Value = { Table };

    ghost view = { λ p. record { next = p.next; slots = p.seats.items; kept = p.kept.items } };

    ghost invariant = { λ p. (4161 ≤ vec_capacity p.kept)
        × IsSound (record { next = p.next; slots = p.seats.items; kept = p.kept.items }) };
}

impl Processes {
    ghost use Rattle.w32_process.specs.Lends.{lends_handles_at, lends_own_at};

    /// The host alone, in slot 0 and with the Win32 number 1, and so many slots for layer processes. All memory is
    /// taken here. It fails only for want of it.
    pub fn open(alloc: Global, slots: u8) -> Result<Processes, Memory>
        requires { (1 ≤ slots) × (slots ≤ 64) }
        ensures { IfOk result (λ processes. processes ≡ opening_table slots) }
    {
        let mut seats = Vec::new(alloc);
        seats.push(Seat::host(alloc)?)?;
        for _slot in 0..slots {
            seats.push(Seat::empty(alloc)?)?;
        }
        Ok(Processes {
            next: 2,
            seats,
            kept: Vec::with_capacity(alloc, MOST_KEPT)?,
        })
    }

    /// Makes a process of a program, which has the place `number` in the script, with these handles, in the lowest slot
    /// from 1 up that is empty. Its three threads are suspended once. It fails, and changes nothing, exactly where no
    /// such slot is empty.
    pub fn create(
        &mut self,
        number: u8,
        program: &Program,
        handles: Handles,
    ) -> Result<(Slot, WinNo), NoSlot>
        requires { self.old.next < 4294967295 }
        ensures full { IsErr result ↔ AreAllOccupied self.old.slots }
        ensures unchanged { OnErr result (self.new ≡ self.old) }
        ensures lowest { IfOk result (λ made. IsLowestEmpty self.old.slots made.0) }
        ensures number { IfOk result (λ made. made.1 ≡ self.old.next) }
        ensures made { IfOk result (λ made. self.new ≡ with_made self.old made.0 number program.now handles) }
    {
        match lowest_empty(&self.seats) {
            Some(place) => {
                let w = WinNo::new(self.next);
                self.seats[place].make(w, number, program, handles);
                self.next += 1;
                Ok((Slot::new(place as u8), w))
            }
            None => Err(NoSlot),
        }
    }

    /// Takes one from the suspend count of a thread that isn't 0 yet, and answers the old count.
    pub fn resume(&mut self, slot: Slot, thread: ThreadNo) -> u32
        requires { IsSome (count_at self.old.slots slot thread) }
        ensures old { count_at self.old.slots slot thread ≡ Some result }
        ensures resumed { self.new ≡ with_count self.old slot thread (resumed result) }
    {
        let seat = &mut self.seats[place(slot)];
        let Some(count) = seat.count(thread) else {
            unreachable!()
        };
        seat.set_count(thread, count.saturating_sub(1));
        count
    }

    /// Adds one to the suspend count of a thread that isn't 100 yet, and answers the old count.
    pub fn suspend(&mut self, slot: Slot, thread: ThreadNo) -> u32
        requires { IsSome (count_at self.old.slots slot thread) }
        ensures old { count_at self.old.slots slot thread ≡ Some result }
        ensures suspended { self.new ≡ with_count self.old slot thread (suspended_more result) }
    {
        let seat = &mut self.seats[place(slot)];
        let Some(count) = seat.count(thread) else {
            unreachable!()
        };
        seat.set_count(thread, one_more(count));
        count
    }

    /// How often a thread is suspended, or none exactly where the slot is empty or its process has no such thread.
    pub fn count(&self, slot: Slot, thread: ThreadNo) -> Option<u32>
        ensures { result ≡ count_at self.now.slots slot thread }
    {
        match self.seats.get(place(slot)) {
            Some(seat) => seat.count(thread),
            None => None,
        }
    }

    /// The Win32 number of the live process in a slot, or none exactly where the slot is empty.
    pub fn in_slot(&self, slot: Slot) -> Option<WinNo>
        ensures value { result ≡ number_at self.now.slots slot }
        ensures sound { IsSound self.now }
    {
        match self.seats.get(place(slot)) {
            Some(seat) => seat.number(),
            None => None,
        }
    }

    /// The place in the script of the program of the process in a slot, or none for the host.
    pub fn program(&self, slot: Slot) -> Option<u8>
        requires { IsSome (number_at self.now.slots slot) }
        ensures { result ≡ (place_at self.now.slots slot).program }
    {
        self.seats[place(slot)].program()
    }

    /// The handles of the process in a slot.
    pub fn handles(&self, slot: Slot) -> &Handles
        requires { IsSome (number_at self.now.slots slot) }
        ensures { result.now ≡ (place_at self.now.slots slot).handles }
    {
        self.seats[place(slot)].handles()
    }

    /// The handles of the process in a slot, to change them.
    pub fn handles_mut(&mut self, slot: Slot) -> &mut Handles
        requires { IsSome (number_at self.old.slots slot) }
        ensures* lends { sem 𝓛 (lends_handles_at self.entry slot result) }
        ensures value { result.now ≡ (place_at self.old.slots slot).handles }
    {
        self.seats[place(slot)].handles_mut()
    }

    /// The memory of the process in a slot.
    pub fn own(&self, slot: Slot) -> &Own
        requires { IsSome (number_at self.now.slots slot) }
        ensures { result.now ≡ (place_at self.now.slots slot).own }
    {
        self.seats[place(slot)].own()
    }

    /// The memory of the process in a slot, to change it.
    pub fn own_mut(&mut self, slot: Slot) -> &mut Own
        requires { IsSome (number_at self.old.slots slot) }
        ensures* lends { sem 𝓛 (lends_own_at self.entry slot result) }
        ensures value { result.now ≡ (place_at self.old.slots slot).own }
    {
        self.seats[place(slot)].own_mut()
    }

    /// Ends the process in a slot with a code: its handles are closed, the slot is empty, and the ended process is
    /// kept.
    pub fn end(&mut self, slot: Slot, code: u32)
        requires occupied { IsSome (number_at self.old.slots slot) }
        requires room { length self.old.kept ≤ 4160 }
        ensures { IfSome (number_at self.old.slots slot) (λ w. self.new ≡ with_end self.old slot w code) }
    {
        let seat = &mut self.seats[place(slot)];
        let Some(number) = seat.number() else {
            unreachable!()
        };
        let ended = Kept {
            number,
            slot,
            program: seat.program(),
            code,
        };
        seat.leave();
        self.kept.push_reserved(ended);
    }

    /// Keeps an ended process no more.
    pub fn forget(&mut self, w: WinNo)
        requires { IsSome (code_of self.old.kept w) }
        ensures next { self.new.next ≡ self.old.next }
        ensures slots { self.new.slots ≡ self.old.slots }
        ensures kept { self.new.kept ≡ without_kept self.old.kept w }
        ensures gone { code_of self.new.kept w ≡ None }
    {
        let Some(place) = place_of(&self.kept, w) else {
            unreachable!()
        };
        let _ = self.kept.remove(place);
    }

    /// The code of a process that is kept after its end, or none exactly while it is alive.
    pub fn exit_code(&self, w: WinNo) -> Option<u32>
        requires { IsLive self.now w ⊎ IsSome (code_of self.now.kept w) }
        ensures code { result ≡ code_of self.now.kept w }
        ensures alive { (result ≡ None) ↔ IsLive self.now w }
    {
        code(&self.kept, w)
    }
}

// The place of a slot.
fn place(slot: Slot) -> usize
    ensures { result ≡ slot }
{
    usize::from(slot.get())
}

// The suspend count after one more suspension.
fn one_more(count: u32) -> u32
    ensures { result ≡ suspended_more count }
{
    if count < MOST_SUSPENDED {
        count + 1
    } else {
        count
    }
}

// The lowest slot from 1 up that is empty.
fn lowest_empty(seats: &[Seat]) -> Option<usize>
    ensures { MatchOption result (AreAllOccupied seats.now) (λ slot. IsLowestEmpty seats.now slot) }
{
    for slot in 1..seats.len() {
        if seats[slot].number().is_none() {
            return Some(slot);
        }
    }
    None
}

#[cfg(test)]
mod tests;
