//! The state of the POSIX machine as a whole.

ghost use Rattle.std.specs.Prelude.{◌≡◌, IfOk, MatchResult};

use crate::machine::Machine;
use crate::opening::opened;
use crate::rule::Rule;
use crate::step::step;
use script_spec::Script;
use std::alloc::{AllocError, Global};
use w32_base::{Event, Memory};

/// Why an event wasn't applied. The state is unchanged then.
#[derive(Clone, Copy, Debug, PartialEq, Eq)]
pub enum ApplyError {
    /// The event isn't a step of the machine in its state.
    NotAllowed {
        /// The kind of the event.
        rule: Rule,
    },
    /// Memory is wanting.
    Memory,
}

/// The state of the POSIX machine, with the limits and the programs of its script: `posix_machine` is these three.
#[derive(Debug, Drop)]
pub struct State {
    alloc: Global,
    machine: Machine,
}

impl State {
    ghost use Rattle.posix_model.specs.Opened.{posix_machine, opened_by};
    ghost use Rattle.posix_model.specs.Applied.{IsApplied, IsRefused};

    /// The state in which a run of the script begins. It fails only for want of memory.
    pub fn open(alloc: Global, script: &Script) -> Result<State, Memory>
        ensures { IfOk result (λ state. posix_machine state ≡ opened_by script.now) }
    {
        Ok(State {
            alloc,
            machine: opened(alloc, script)?,
        })
    }

    /// Applies an event, which is to be a step of the machine in its state.
    pub fn apply(&mut self, event: &Event) -> Result<(), ApplyError>
        ensures { MatchResult result
            (λ _. IsApplied (posix_machine self.old) event.now (posix_machine self.new))
            (λ error. IsRefused (posix_machine self.old) event.now (posix_machine self.new) error) }
    {
        match step(self.alloc, &mut self.machine, event) {
            Ok(true) => Ok(()),
            Ok(false) => Err(ApplyError::NotAllowed {
                rule: Rule::of(event),
            }),
            Err(AllocError) => Err(ApplyError::Memory),
        }
    }
}
