//! The verdict on a list of events.

ghost use Rattle.std.specs.Prelude.{◌≤◌, IfOk, length};

use posix_model::rule::Rule;
use posix_model::state::{ApplyError, State};
use script_spec::Script;
use std::alloc::{AllocError, Global};
use w32_base::{Event, Memory};

/// How many events a list has at the most.
pub const MOST_EVENTS: usize = 67_108_864;

/// The line of the first event. The line above it says that the log is one of events.
const FIRST_LINE: u32 = 2;

/// Whether events are a run of the POSIX machine.
#[derive(Clone, Copy, Debug, PartialEq, Eq)]
pub enum Verdict {
    /// Each is a step.
    Yes,
    /// The first that isn't a step stands on this line.
    No {
        /// The line.
        line: u32,
        /// The kind of the event.
        rule: Rule,
    },
}

ghost use Rattle.run_check.specs.Judged.{IsVerdict};

/// Whether the events are a run of the POSIX machine from where the script begins, and else which is the first that
/// isn't a step. It fails only for want of memory.
pub fn check(alloc: Global, script: &Script, events: &Vec<Event>) -> Result<Verdict, Memory>
    requires { length events.now.items ≤ MOST_EVENTS }
    ensures { IfOk result (λ verdict. IsVerdict script.now events.now.items verdict) }
{
    let mut state = State::open(alloc, script)?;
    for (place, event) in events.iter().enumerate() {
        match state.apply(event) {
            Ok(()) => {}
            Err(ApplyError::NotAllowed { rule }) => {
                return Ok(Verdict::No {
                    line: place as u32 + FIRST_LINE,
                    rule,
                });
            }
            Err(ApplyError::Memory) => return Err(AllocError),
        }
    }
    Ok(Verdict::Yes)
}
