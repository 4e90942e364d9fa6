//! Why the text of a run is refused, and the line that says so.

ghost use Rattle.std.specs.Prelude.{◌≡◌, IfOk};
ghost use Rattle.std.specs.String.{string_bytes};
ghost use Rattle.cyg_runs.specs.Refusals.{refusal_line as line_of_refusal};

use crate::lines::{kind_name, numbered};
use script_spec::Kind;
use std::alloc::{AllocError, Global};

/// Why the text of a run is refused.
#[derive(Clone, Copy, Debug, PartialEq, Eq)]
pub enum Refusal {
    /// It is no script: its first fault.
    Fault {
        /// The line, from 1; 0 for a text that is too long.
        line: u32,
        /// What is wrong with it.
        kind: Kind,
    },
    /// It is a script, of which a word isn't built.
    Unbuilt,
}

/// The line that says why a text is refused. It fails only for want of memory.
pub fn refusal_line(alloc: Global, refusal: &Refusal) -> Result<String, AllocError>
    ensures { IfOk result (λ line. string_bytes line ≡ line_of_refusal refusal.now) }
{
    match refusal {
        Refusal::Fault { line, kind } => numbered(alloc, "fault", *line, kind_name(*kind)),
        Refusal::Unbuilt => String::from_str(alloc, "fault 0 Unbuilt\n"),
    }
}
