//! One directive of a machine that is driven by parts, and its entry.

ghost use Rattle.std.specs.Prelude.{◌≡◌, ◌+◌, ◌<◌, ◌≤◌, None, length};
ghost use Rattle.win32_spec.specs.Driven.{DrivenBy};
ghost use Rattle.win32_spec.specs.Run.{StepBy};
ghost use Rattle.w32_machine.specs.Contract.{keys_of, key_lines};
ghost use Rattle.w32_driven.specs.DrivenTurns.{called_by, came_by, event_by};
ghost use Rattle.w32_machine.specs.Ending.{outcome_of_end};
ghost use Rattle.world_spec.specs.SeenStep.{IsTaken};
ghost use Rattle.layer_world.specs.World.{entry_to};

use w32_base::{Directive, Entry, Outcome, Whole, WinNo};
use w32_driven::{Driven, DrivenTurn};

// The entry of a turn.
fn entry_of_turn(d: Directive, turned: DrivenTurn) -> Entry
    ensures { result
        ≡ record { directive = d; call = called_by turned; outcome = came_by turned; event = event_by turned } }
{
    match turned {
        DrivenTurn::Idle => Entry {
            directive: d,
            call: None,
            outcome: Outcome::Idle,
            event: None,
        },
        DrivenTurn::Done { call, reply, event } => Entry {
            directive: d,
            call: Some(call),
            outcome: Outcome::Step(reply),
            event,
        },
    }
}

// The entry of an end, or of a key.
fn entry_without_call(d: Directive, outcome: Outcome) -> Entry
    ensures { result ≡ record { directive = d; call = None; outcome = outcome; event = None } }
{
    Entry {
        directive: d,
        call: None,
        outcome,
        event: None,
    }
}

// What came of an end.
fn came_of_end(ended: Option<WinNo>) -> Outcome
    ensures { result ≡ outcome_of_end ended }
{
    match ended {
        Some(w) => Outcome::Ended(w),
        None => Outcome::Idle,
    }
}

// Carries out a directive, and answers its entry.
pub(crate) fn carry_out<P: Whole + Drop>(driven: &mut Driven<P>, d: Directive) -> Entry
    requires next { driven.old.state.win32.next < 4294967295 }
    requires taken { IsTaken d }
    requires keys { length driven.old.state.win32.keys + keys_of d ≤ key_lines driven.old.script.directives }
    ensures driven { DrivenBy P.posted_of P.goes P.opening P.slot_of P.thread_of driven.old.script driven.old.state d
        result.call result.outcome driven.new.state }
    ensures step { StepBy driven.old.script driven.old.state.win32 d result.call result.outcome
        driven.new.state.win32 }
    ensures entry { result ≡ entry_to d result.call result.outcome driven.new.state }
    ensures script { driven.new.script ≡ driven.old.script }
{
    match d {
        Directive::Turn(slot, thread) => entry_of_turn(d, driven.turn(slot, thread)),
        Directive::End(slot) => entry_without_call(d, came_of_end(driven.end(slot))),
        Directive::Key(b) => {
            driven.key(b);
            entry_without_call(d, Outcome::Keyed)
        }
    }
}
