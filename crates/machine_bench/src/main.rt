//! Takes turns of a machine whose one busy thread loads a word and sets a result, in turn, by the rule by which a run
//! settles. The arguments are how many slots the machine has, and how many turns to take; without them 1 and 8.
#![tactic(auto)]

ghost use Rattle.std.specs.Prelude.{◌+◌, ◌≤◌, ◌<◌, IfOk};
ghost use Rattle.script_spec.specs.Validity.{IsValid};
ghost use Rattle.machine_bench.specs.Counted.{IsCounted};

mod worker;

use anyhow::Result;
use cyg_script::{Script, read_script};
use std::alloc::Global;
use std::env;
use w32_base::{Slot, ThreadNo};
use w32_driven::Driven;
use worker::Worker;

/// How many slots there are where no argument says it.
const SLOTS: u32 = 1;

/// How many turns to take where no argument says it.
const TURNS: u32 = 8;

/// How many turns are taken at most.
const MOST_TURNS: u32 = 4_000_000_000;

/// A script of one program, for so many slots.
fn script(alloc: Global, slots: u32) -> Result<Script>
    ensures { IfOk result IsValid }
{
    let text = format!(in alloc;
        "cygscript 1\nslots {slots}\nrows 1\nbudget 1\nprogram main heap 0 stack 64\ngetpid\nschedule\nsettle\n"
    )?;
    Ok(read_script(alloc, text.as_bytes())?)
}

/// The machine that runs such a script, at its opening.
fn open(alloc: Global, slots: u32) -> Result<Driven<Worker>>
    ensures { IfOk result (λ driven. IsCounted 0 driven) }
{
    let script = script(alloc, slots)?;
    match Driven::open(alloc, &script) {
        Ok(driven) => Ok(driven),
        Err(fault) => Err(fault.into()),
    }
}

/// Takes a turn after so many others, and answers whether a result was set.
fn take_turn(driven: &mut Driven<Worker>, slot: Slot, thread: ThreadNo, taken: u32) -> bool
    requires counted { IsCounted taken driven.old }
    requires few { taken < 4000000000 }
    ensures { IsCounted (taken + 1) driven.new }
{
    driven.turn(slot, thread).event().is_some()
}

/// Takes so many turns, or fewer where no thread is ready any more, and answers in how many of them a result was set.
fn take_turns(driven: &mut Driven<Worker>, turns: u32) -> u32
    requires counted { IsCounted 0 driven.old }
    requires few { turns ≤ 4000000000 }
{
    let mut last = (Slot::new(64), ThreadNo::new(2));
    let mut results: u32 = 0;
    for taken in 0..turns {
        let Some((slot, thread)) = driven.machine().next_ready(last) else {
            return results;
        };
        if take_turn(driven, slot, thread, taken) {
            results = results.saturating_add(1);
        }
        last = (slot, thread);
    }
    results
}

fn main(rt: HostRuntime) -> Result<()> {
    let mut words = env::args(&rt)?;
    let slots = match words.nth(1) {
        Some(word) => word.as_str().parse::<u32>()?,
        None => SLOTS,
    };
    let turns = match words.next() {
        Some(word) => word.as_str().parse::<u32>()?,
        None => TURNS,
    };
    let mut driven = open(rt.alloc(), slots)?;
    let results = take_turns(&mut driven, turns.min(MOST_TURNS));
    println!(rt; "slots {slots}")?;
    println!(rt; "results {results}")?;
    Ok(())
}
