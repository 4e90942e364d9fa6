//! A thread whose part isn't built.

ghost use Rattle.std.specs.Prelude.{◌≡◌};
ghost use Rattle.layer_actor.specs.Idle.{idle_posted};

use layer_turns::{load, rest};
use w32_base::Call;

/// What a thread does whose part isn't built.
#[derive(Clone, Copy, Debug, PartialEq, Eq)]
pub enum Idle {
    /// At the start: looks at the number of claimed rows.
    Opening,
    /// Waits for ever.
    Resting,
}

impl Idle {
    /// The call that it posts next.
    pub fn call(self) -> Call
        ensures { result ≡ idle_posted self }
    {
        match self {
            Idle::Opening => load(0),
            Idle::Resting => rest(),
        }
    }
}
