//! How a run ended, with its journal.

ghost use Rattle.std.specs.Prelude.{◌≡◌, ◌≤◌, []};

use std::alloc::Global;
use std::marker::Model;
use w32_base::Journal;

/// How a program ends that runs a script, or makes one, or judges a log of one.
///
/// 0: the whole log was written, or the script that was made, or `yes`. 1: a log has an event that is no step. 2: the
/// words aren't accepted. 3: the text isn't a script, or one of which a word isn't built, or no log of one. 4: the
/// source had a fault. 5: the sink had a fault. 6: the journal has as many entries as the script's budget, and work
/// remains. 7: memory ran out.
#[derive(Clone, Copy, Debug, PartialEq, Eq)]
pub struct Status(u8);

impl Model for Status {
    ghost use Rattle.std.specs.Prelude.{ℕ, ◌≤◌};

    ghost Value = { ℕ };

    ghost view = { λ s. s.0 };

    ghost invariant = { λ s. s.0 ≤ 7 };

    ghost inverse = { λ n. record { 0 = n } };
}

impl Status {
    /// The status of a number from 0 to 7.
    pub fn new(number: u8) -> Status
        requires { number ≤ 7 }
        ensures { result ≡ number }
    {
        Status(number)
    }

    /// The number, from 0 to 7.
    pub fn get(self) -> u8
        ensures value { result ≡ self }
        ensures range { self ≤ 7 }
    {
        self.0
    }
}

/// The status, and the journal of the world that was run; it is empty where none was run.
#[derive(Drop)]
pub struct RunAnswer {
    /// How the run ended.
    pub status: Status,
    /// The journal.
    pub journal: Journal,
}

/// The answer where no world was run.
pub fn without_journal(alloc: Global, status: Status) -> RunAnswer
    ensures { result ≡ record { status = status; journal = [] } }
{
    RunAnswer {
        status,
        journal: Journal::from_vec(Vec::new(alloc)),
    }
}
