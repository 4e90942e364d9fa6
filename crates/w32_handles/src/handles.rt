//! The handles of a process. A process has up to 64 of them, under numbers from 1 to 64.

ghost use Rattle.std.specs.Prelude.{◌≡◌, ℕ, ◌+◌, ◌<◌, ◌↔◌, [], length, All, IsTrue, IsErr, IsOk, IsSome, IfOk, OnErr};
ghost use Rattle.std.specs.Prelude.{OnOk, MatchOption, Some, None, slice_index_or};
ghost use Rattle.win32_spec.specs.Handles.{handle_of, with_handle, without_handle, listed_handles, holders_of};
ghost use Rattle.win32_spec.specs.Handles.{IsLowestFree, AreRisingFrom};

use std::marker::Model;
use w32_base::{HandleList, HandleNo, ObjectNo};

/// How many handles a process may have.
const PLACES: usize = 64;

/// Each of the 64 numbers is in use.
#[derive(Clone, Copy, Debug, PartialEq, Eq)]
pub struct TableFull;

/// No handle has this number.
#[derive(Clone, Copy, Debug, PartialEq, Eq)]
pub struct BadHandle;

/// The handles of a process: a map from numbers from 1 to 64 to the objects that they name. It takes no memory.
/// A contract sees it as the list of its handles, by rising number.
#[derive(Debug, Drop)]
pub struct Handles {
    // what each number names, from 1 up
    places: [Option<ObjectNo>; PLACES],
}

impl Model for Handles {
    ghost use Rattle.std.specs.Prelude.{◌≡◌, List, length};
    ghost use Rattle.win32_spec.specs.Handles.{Handle};
    ghost use Rattle.w32_handles.specs.Places.{handles_from};

    ghost Value = { List Handle };

    ghost view = { λ h. handles_from 1 h.places };

    ghost invariant = { λ h. length h.places ≡ 64 };
}

impl Handles {
    /// No handles.
    pub fn new() -> Handles
        ensures { result ≡ [] }
    {
        Handles {
            places: [None; PLACES],
        }
    }

    /// A further handle that names the object `o`, under the lowest number that is free. It fails, and changes nothing,
    /// exactly where all 64 are in use.
    pub fn open(&mut self, o: ObjectNo) -> Result<HandleNo, TableFull>
        ensures full { IsErr result ↔ (length self.old ≡ 64) }
        ensures unchanged { OnErr result (self.new ≡ self.old) }
        ensures lowest { IfOk result (λ number. IsLowestFree self.old number) }
        ensures opened { IfOk result (λ number. self.new ≡ with_handle self.old number o) }
        ensures rising { AreRisingFrom 1 self.new }
    {
        match lowest_free(&self.places) {
            Some(place) => {
                self.places[place] = Some(o);
                Ok(HandleNo::new(place as u8 + 1))
            }
            None => Err(TableFull),
        }
    }

    /// Closes a handle, and answers what it named. It fails, and changes nothing, exactly where no handle has this
    /// number.
    pub fn close(&mut self, h: HandleNo) -> Result<ObjectNo, BadHandle>
        ensures absent { IsErr result ↔ (handle_of self.old h ≡ None) }
        ensures unchanged { OnErr result (self.new ≡ self.old) }
        ensures named { IfOk result (λ object. handle_of self.old h ≡ Some object) }
        ensures closed { self.new ≡ without_handle self.old h }
        ensures rising { AreRisingFrom 1 self.new }
    {
        let place = place_of(h);
        match self.places[place] {
            Some(object) => {
                self.places[place] = None;
                Ok(object)
            }
            None => Err(BadHandle),
        }
    }

    /// The handles of a new process that is handed these ones: the listed numbers, each with what it names here. It
    /// fails exactly where a listed number is none of a handle.
    pub fn inherit(&self, list: &HandleList) -> Result<Handles, BadHandle>
        ensures all { IsOk result ↔ All (λ number. IsSome (handle_of self.now number)) list.now }
        ensures kept { IfOk result (λ handles. handles ≡ listed_handles self.now list.now) }
        ensures rising { IfOk result (λ handles. AreRisingFrom 1 handles) }
    {
        let mut kept = [None; PLACES];
        for next in 0..list.len() {
            let Some(handle) = list.get(next) else {
                unreachable!()
            };
            let place = place_of(handle);
            let object = self.places[place];
            if object.is_none() {
                return Err(BadHandle);
            }
            kept[place] = object;
        }
        Ok(Handles { places: kept })
    }

    /// How many handles name the object `o`, by the same end of a pipe or face of the terminal.
    pub fn count_of(&self, o: ObjectNo) -> u8
        ensures { result ≡ holders_of self.now o }
    {
        let mut count = 0;
        for place in &self.places {
            if *place == Some(o) {
                count += 1;
            }
        }
        count
    }

    /// How many handles there are.
    pub fn len(&self) -> usize
        ensures { result ≡ length self.now }
    {
        let mut count = 0;
        for place in &self.places {
            if place.is_some() {
                count += 1;
            }
        }
        count
    }

    /// Whether there are none.
    pub fn is_empty(&self) -> bool
        ensures { IsTrue result ↔ (self.now ≡ []) }
    {
        self.len() == 0
    }

    /// What a handle names, or none exactly where no handle has this number.
    pub fn get(&self, h: HandleNo) -> Option<ObjectNo>
        ensures named { result ≡ handle_of self.now h }
        ensures rising { AreRisingFrom 1 self.now }
    {
        self.places[place_of(h)]
    }
}

// The place of a number.
fn place_of(handle: HandleNo) -> usize
    ensures place { result + 1 ≡ handle }
    ensures range { result < 64 }
{
    usize::from(handle.get()) - 1
}

// The lowest place with nothing in it.
fn lowest_free(places: &[Option<ObjectNo>]) -> Option<usize>
    ensures { MatchOption result (All (λ place. IsSome place) places.now) (λ free. (free < length places.now)
        × (slice_index_or places.now free None ≡ None)
        × ((k : ℕ) → k < free → IsSome (slice_index_or places.now k None))) }
{
    for (number, place) in places.iter().enumerate() {
        if place.is_none() {
            return Some(number);
        }
    }
    None
}

#[cfg(test)]
mod tests;
