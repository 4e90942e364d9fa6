//! A world.

ghost use Rattle.std.specs.Prelude.{◌≡◌, ◌+◌, ◌<◌, ◌≤◌, ◌↔◌, [], length, IsTrue, IsSome, IfOk, MatchOption};
ghost use Rattle.script_spec.specs.Validity.{IsValid};
ghost use Rattle.win32_spec.specs.Lookup.{number_in};
ghost use Rattle.win32_spec.specs.Ready.{IsQuiet, IsNextReady};
ghost use Rattle.layer_spec.specs.Words.{main_at};
ghost use Rattle.w32_machine.specs.Contract.{keys_of, keys_of_line, key_lines};
ghost use Rattle.layer_world.specs.Scheduled.{IsAt};
ghost use Rattle.layer_world.specs.World.{keys_entered, IsOpeningWorld, Directed, IsAllowed};

use crate::carry::carry_out;
use crate::recorder::Recorder;
use script_spec::{ScheduleLine, Script};
use std::alloc::Global;
use std::marker::Model;
use w32_base::{Directive, Entry, Journal, Memory, Outcome, RowNo, Slot, ThreadNo};
use w32_driven::Driven;
use world_spec::RelyGuarantee;

/// A machine that is driven by parts, with the journal of the directives that were carried out. A contract sees the
/// script, the machine's state with the parts, and the entries.
#[derive(Drop)]
pub struct World<P: RelyGuarantee + Drop> {
    driven: Driven<P>,
    recorder: Recorder,
    // how many entries there may still be, and how many keys
    spare: u32,
    key_places: u32,
}

impl<P: RelyGuarantee + Drop> Model for World<P> {
    ghost use Rattle.layer_world.specs.World.{WorldValue};
    ghost use Rattle.layer_world.specs.Kept.{IsKept};

    ghost Value = { WorldValue P };

    ghost view = { λ w. record {
      script = w.driven.script;
      state = w.driven.state;
      entries = w.recorder.entries;
    } };

    ghost invariant = { λ w. IsKept P.posted_of P.goes P.opening P.slot_of P.thread_of P.clause P.serves
        (record { script = w.driven.script; state = w.driven.state; entries = w.recorder.entries })
        w.recorder.room w.spare w.key_places };
}

// How many keys a directive is: one, or none.
fn keys_by(d: &Directive) -> u32
    ensures value { result ≡ keys_of d.now }
    ensures few { result ≤ 1 }
{
    match *d {
        Directive::Key(_) => 1,
        Directive::Turn(_, _) | Directive::End(_) => 0,
    }
}

// How many keys a line of a schedule gives.
fn keys_given(line: ScheduleLine) -> u32
    ensures value { result ≡ keys_of_line line }
    ensures few { result ≤ 1 }
{
    match line {
        ScheduleLine::Given(d) => keys_by(&d),
        ScheduleLine::Steps(_) | ScheduleLine::Settle => 0,
    }
}

// How many keys the lines of a schedule give.
fn keys_in(lines: &[ScheduleLine]) -> u32
    requires { length lines.now ≤ 10000 }
    ensures { result ≡ key_lines lines.now }
{
    let mut keys = 0;
    for line in lines {
        keys += keys_given(*line);
    }
    keys
}

impl<P: RelyGuarantee + Drop> World<P> {
    /// The world in which a run of the script begins, without an entry. All memory is taken here. It fails only for
    /// want of it.
    pub fn open(alloc: Global, script: &Script) -> Result<World<P>, Memory>
        requires valid { IsValid script.now }
        requires serves { P.serves script.now }
        ensures { IfOk result (λ world. IsOpeningWorld P.posted_of P.goes P.opening P.slot_of P.thread_of P.clause
            script.now world) }
    {
        let budget = script.setup.limits.budget;
        Ok(World {
            driven: Driven::open(alloc, script)?,
            recorder: Recorder::with_room(alloc, budget as usize)?,
            spare: budget,
            key_places: keys_in(script.directives.as_slice()),
        })
    }

    /// Carries out a directive, and answers what came of it. Its entry is the journal's last. It takes no memory.
    pub fn direct(&mut self, d: Directive) -> Outcome
        requires { IsAllowed self.old d }
        ensures { Directed P.posted_of P.goes P.opening P.slot_of P.thread_of P.clause self.old d result self.new }
    {
        let keys = keys_by(&d);
        let entry = carry_out(&mut self.driven, d);
        self.spare -= 1;
        self.key_places -= keys;
        self.recorder.push(&entry);
        entry.outcome
    }

    /// How many entries there may still be within the script's budget.
    pub fn spare(&self) -> u32
        ensures { result + length self.now.entries ≡ self.now.script.setup.limits.budget }
    {
        self.spare
    }

    /// How many keys there may still be: as many as the script's lines give, less those that were entered.
    pub fn key_places(&self) -> u32
        ensures { result + keys_entered self.now.entries ≡ key_lines self.now.script.directives }
    {
        self.key_places
    }

    /// The entries, in order.
    pub fn entries(&self) -> &[Entry]
        ensures { result.now ≡ self.now.entries }
    {
        self.recorder.as_slice()
    }

    /// The journal, without taking memory.
    pub fn into_journal(self) -> Journal
        ensures { result ≡ self.entries }
    {
        self.recorder.finish()
    }

    /// The machine with its parts.
    pub fn machine(&self) -> &Driven<P>
        ensures script { result.now.script ≡ self.now.script }
        ensures state { result.now.state ≡ self.now.state }
    {
        &self.driven
    }

    /// Whether no thread is ready.
    pub fn quiet(&self) -> bool
        ensures { IsTrue result ↔ IsQuiet self.now.state.win32 }
    {
        self.driven.machine().quiet()
    }

    /// The next ready thread after the last one, by slot and then thread, going round.
    pub fn next_ready(&self, after: (Slot, ThreadNo)) -> Option<(Slot, ThreadNo)>
        ensures { MatchOption result (IsQuiet self.now.state.win32)
            (λ next. IsNextReady self.now.state.win32 after.0 after.1 next.0 next.1) }
    {
        self.driven.machine().next_ready(after)
    }

    /// The main word of a row.
    pub fn row_word(&self, row: RowNo) -> u64
        ensures { result ≡ main_at self.now.state.win32 row }
    {
        match self.driven.machine().word(3 * u32::from(row.get()) - 2) {
            Ok(word) => word,
            Err(_) => unreachable!(),
        }
    }

    // The thread after which the round rule begins, where no entry was made yet.
    pub(crate) fn before_the_first(&self) -> (Slot, ThreadNo)
        requires { self.now.entries ≡ [] }
        ensures { IsAt P.posted_of P.goes P.opening P.slot_of P.thread_of P.clause self.now self.now.script.directives
            result.0 result.1 }
    {
        let _spare = self.spare;
        (Slot::new(64), ThreadNo::new(2))
    }

    /// Whether a live process stands in a slot.
    pub fn occupied(&self, slot: Slot) -> bool
        ensures { IsTrue result ↔ IsSome (number_in self.now.state.win32 slot) }
    {
        self.driven.machine().in_slot(slot).is_some()
    }
}
