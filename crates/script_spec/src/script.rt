//! The value of a script: its setup, the pages that are occupied in new processes, and the lines of its schedule.

ghost use Rattle.std.specs.Prelude.{◌≡◌, ◌≤◌, ◌<◌, ◌↔◌, [], length, IsTrue, slice_get};
ghost use Rattle.std.specs.List.{list_all};
ghost use Rattle.script_spec.specs.Ranges.{is_line_within};

use std::marker::Model;
use w32_base::{Directive, Setup};

/// A page that is taken in a layer process from its making on.
#[derive(Clone, Copy, Debug, PartialEq, Eq)]
pub struct OccupiedPage {
    /// Which layer process it is: the first one that is made is 1. From 1 to 500,000.
    pub creation: u32,
    /// The page, below 1024.
    pub page: u16,
    pub ghost creation_in_range: { (1 ≤ creation) × (creation ≤ 500000) },
    pub ghost page_in_range: { page < 1024 },
}

/// The occupied pages of a script, at most 64, in the script's order. A contract sees them as a list.
#[derive(Debug, Drop)]
pub struct Occupied {
    pages: Vec<OccupiedPage>,
}

impl Model for Occupied {
    ghost use Rattle.std.specs.Prelude.{List, length, ◌≤◌};
    ghost use Rattle.script_spec.specs.declared.script.OccupiedPage.{OccupiedPage};

    ghost Value = { List OccupiedPage };

    ghost view = { λ o. o.pages.items };

    ghost invariant = { λ o. length o.pages.items ≤ 64 };
}

impl Occupied {
    /// These pages, without taking memory.
    pub fn from_vec(pages: Vec<OccupiedPage>) -> Occupied
        requires { length pages.items ≤ 64 }
        ensures { result ≡ pages.items }
    {
        Occupied { pages }
    }

    /// The pages again, without taking memory.
    pub fn into_vec(self) -> Vec<OccupiedPage>
        ensures value { result.items ≡ self }
        ensures range { length self ≤ 64 }
    {
        self.pages
    }

    /// How many there are.
    pub fn len(&self) -> usize
        ensures value { result ≡ length self.now }
        ensures range { result ≤ 64 }
    {
        self.pages.len()
    }

    /// Whether there are none.
    pub fn is_empty(&self) -> bool
        ensures { IsTrue result ↔ (self.now ≡ []) }
    {
        self.pages.is_empty()
    }

    /// The pages.
    pub fn as_slice(&self) -> &[OccupiedPage]
        ensures { result.now ≡ self.now }
    {
        self.pages.as_slice()
    }
}

/// A line of a script's schedule.
#[derive(Clone, Copy, Debug, PartialEq, Eq)]
pub enum ScheduleLine {
    /// `turn S T`, `end S` or `key BB`: this directive.
    Given(Directive),
    /// `steps N`: N turns by the round rule, fewer where the state becomes quiet.
    Steps(u32),
    /// `settle`: turns by the round rule until the state is quiet.
    Settle,
}

/// The lines of a script's schedule, 1 to 10,000. A contract sees them as a list.
#[derive(Debug, Drop)]
pub struct Lines {
    lines: Vec<ScheduleLine>,
}

impl Model for Lines {
    ghost use Rattle.std.specs.Prelude.{List, length, ◌≤◌};
    ghost use Rattle.script_spec.specs.declared.script.ScheduleLine.{ScheduleLine};

    ghost Value = { List ScheduleLine };

    ghost view = { λ l. l.lines.items };

    ghost invariant = { λ l. (1 ≤ length l.lines.items) × (length l.lines.items ≤ 10000) };
}

impl Lines {
    /// These lines, without taking memory.
    pub fn from_vec(lines: Vec<ScheduleLine>) -> Lines
        requires some { 1 ≤ length lines.items }
        requires few { length lines.items ≤ 10000 }
        ensures { result ≡ lines.items }
    {
        Lines { lines }
    }

    /// The lines again, without taking memory.
    pub fn into_vec(self) -> Vec<ScheduleLine>
        ensures value { result.items ≡ self }
        ensures range { (1 ≤ length self) × (length self ≤ 10000) }
    {
        self.lines
    }

    /// How many there are.
    pub fn len(&self) -> usize
        ensures value { result ≡ length self.now }
        ensures range { (1 ≤ result) × (result ≤ 10000) }
    {
        self.lines.len()
    }

    /// The lines.
    pub fn as_slice(&self) -> &[ScheduleLine]
        ensures value { result.now ≡ self.now }
        ensures range { (1 ≤ length self.now) × (length self.now ≤ 10000) }
    {
        self.lines.as_slice()
    }

    /// The line at a place, or none past the end.
    pub fn get(&self, place: usize) -> Option<ScheduleLine>
        ensures { result ≡ slice_get self.now place }
    {
        self.lines.as_slice().get(place).copied()
    }
}

/// A script: what all processes know of it, the pages that are occupied in new processes, and its schedule.
#[derive(Debug, Drop)]
pub struct Script {
    /// Its limits, modules and programs.
    pub setup: Setup,
    /// The pages that are taken in the layer processes that are made.
    pub occupied: Occupied,
    /// Its schedule. The slots that it names are among the script's.
    pub directives: Lines,
    pub ghost lines_in_range: { IsTrue (list_all (is_line_within setup.limits.slots) directives) },
}
