//! The modules that are placed in a process.

ghost use Rattle.std.specs.Prelude.{◌≡◌, ◌+◌, ◌<◌, ◌≤◌, ◌&&◌, nat_le, nat_lt, length, [], slice_get};
ghost use Rattle.win32_spec.specs.Opening.{base_bytes};
ghost use Rattle.win32_spec.specs.Placing.{base_in, and_placed, is_occupied, is_in_module, pages_of};
ghost use Rattle.win32_spec.specs.Placing.{is_taken, taken_pages};
ghost use Rattle.win32_spec.specs.Regions.{IsPlaceFor};

use arrayvec::ArrayVec;
use script_spec::{OccupiedPage, Script};
use std::marker::Model;
use w32_base::Module;
use w32_memory::{PAGES, place};

/// How many modules a script has at the most.
const MOST_MODULES: usize = 8;

/// How many occupied pages a script has at the most.
const MOST_OCCUPIED: usize = 64;

/// A module that is placed: its place in the script, and its first page.
#[derive(Clone, Copy, Debug, Default)]
pub struct Placement {
    pub number: u8,
    pub base: u16,
}

/// The modules that are placed in a process, in the order of their placing. A contract sees them as a list.
#[derive(Debug, Drop)]
pub struct Placements {
    modules: ArrayVec<Placement, MOST_MODULES>,
}

impl Model for Placements {
    ghost use Rattle.std.specs.Prelude.{List, length, ◌≤◌};
    ghost use Rattle.win32_spec.specs.State.{PlacedModule};
    ghost use Rattle.w32_kinds.specs.Placed.{placed_of};

    ghost Value = { List PlacedModule };

    ghost view = { λ p. placed_of p.modules.items };

    ghost invariant = { λ p. length p.modules.items ≤ 8 };
}

impl Placements {
    /// No modules.
    pub fn new() -> Placements
        ensures { result ≡ [] }
    {
        Placements {
            modules: ArrayVec::new(),
        }
    }

    /// The first page of a module that is placed.
    pub fn base(&self, number: u8) -> Option<u16>
        ensures { result ≡ base_in self.now number }
    {
        let modules = self.modules.as_slice();
        for m in modules {
            if m.number == number {
                return Some(m.base);
            }
        }
        None
    }

    /// Places one more module, behind the others.
    pub fn push(&mut self, number: u8, base: u16)
        requires { length self.old < 8 }
        ensures { self.new ≡ and_placed self.old number base }
    {
        self.modules.push(Placement { number, base });
    }

    /// The first pages of the modules, each in two bytes, the low one first.
    pub fn base_bytes(&self) -> ArrayVec<u8, 16>
        ensures value { result.items ≡ base_bytes self.now }
        ensures few { length result.items ≤ 16 }
    {
        let mut bytes = ArrayVec::new();
        let modules = self.modules.as_slice();
        for m in modules {
            bytes.push((m.base % 256) as u8);
            bytes.push((m.base / 256) as u8);
        }
        bytes
    }

    /// Where a module goes in the layer process that is made as the `creation`-th one: to the wanted page, or to the
    /// lowest free range.
    pub fn place_for(&self, script: &Script, creation: u32, wanted: &Module) -> u16
        ensures { IsPlaceFor (taken_pages script.now creation self.now) wanted.now.base wanted.now.size result }
    {
        // so few that a range is free
        let few = script.occupied.len() <= MOST_OCCUPIED && self.modules.len() <= MOST_MODULES;
        prove!(few);
        let taken = self.taken_pages(script, creation);
        place(wanted.base, u16::from(wanted.size), &taken)
    }

    // Which pages are taken.
    fn taken_pages(&self, script: &Script, creation: u32) -> [bool; PAGES]
        ensures { result ≡ taken_pages script.now creation self.now }
    {
        let mut taken = [false; PAGES];
        for page in 0..PAGES {
            taken[page] = self.is_taken(script, creation, page as u16);
        }
        taken
    }

    // Whether a page is taken.
    fn is_taken(&self, script: &Script, creation: u32, page: u16) -> bool
        ensures { result ≡ is_taken script.now creation self.now page }
    {
        is_page_occupied(script.occupied.as_slice(), creation, page)
            || self.has(script.setup.modules.as_slice(), page)
    }

    // Whether one of the placed modules has the page.
    fn has(&self, listed: &[Module], page: u16) -> bool
        ensures { result ≡ is_in_module listed.now self.now page }
    {
        let modules = self.modules.as_slice();
        for m in modules {
            if has_page(m, listed, page) {
                return true;
            }
        }
        false
    }
}

// Whether the script occupies a page in the layer process that is made as the `creation`-th one.
fn is_page_occupied(occupied: &[OccupiedPage], creation: u32, page: u16) -> bool
    ensures { result ≡ is_occupied occupied.now creation page }
{
    for o in occupied {
        if o.creation == creation && o.page == page {
            return true;
        }
    }
    false
}

// Whether a placed module has a page.
fn has_page(m: &Placement, listed: &[Module], page: u16) -> bool
    ensures { result ≡ (nat_le m.now.base page
        && nat_lt page (m.now.base + pages_of (slice_get listed.now m.now.number))) }
{
    let past = u32::from(m.base) + u32::from(pages(listed, m.number));
    m.base <= page && u32::from(page) < past
}

// How many pages a module of the script has.
fn pages(listed: &[Module], number: u8) -> u16
    ensures value { result ≡ pages_of (slice_get listed.now number) }
    ensures few { result ≤ 8 }
{
    match listed.get(usize::from(number)) {
        Some(wanted) => u16::from(wanted.size),
        None => 0,
    }
}
