//! Claiming a row for a child.

ghost use Rattle.std.specs.Prelude.{◌≡◌, ◌<◌, ◌≤◌, ◌↔◌, IsTrue, true};

use crate::{calls, words};
use pinfo_word::Op;
use w32_base::{After, Call, Own, Part, Reply, RowNo, Setup};

/// Claims a row: it counts one more claimed row, and holds the next row after those that were claimed before. Where
/// there is no such row, the count stands, and no row is held.
#[derive(Clone, Copy, Debug, PartialEq, Eq)]
pub enum Claim {
    /// Counts one more claimed row.
    Adding,
    /// Looks at the main word of the claimed row.
    Looking(RowNo),
    /// Holds the row, by another word in the place of the one that was found.
    Holding(RowNo, u64, u64),
    /// Is done: the row is held.
    Claimed(RowNo),
    /// Is done: each row was claimed before.
    NoRow,
    /// Has nothing to do any more.
    Rest,
}

impl Claim {
    ghost use Rattle.roster.specs.Claim.{claim_counted, claim_looked, claim_tried, claim_after, claim_answer};
    ghost use Rattle.roster.specs.Claim.{claim_rank};

    /// At its start.
    pub fn new() -> Claim
        ensures { result ≡ Claim.Adding }
    {
        Claim::Adding
    }

    /// The row that it has claimed and that is held; none also before it is done.
    pub fn answer(self) -> Option<RowNo>
        ensures { result ≡ claim_answer self }
    {
        match self {
            Claim::Claimed(row) => Some(row),
            _ => None,
        }
    }

    /// Whether it is done.
    pub fn is_finished(self) -> bool
        ensures { IsTrue result ↔ (claim_rank self ≡ 0) }
    {
        matches!(self, Claim::Claimed(_) | Claim::NoRow)
    }

    // With the number of rows that were claimed before.
    fn counted(setup: &Setup, before: u64) -> Claim
        ensures { result ≡ claim_counted setup.now.limits.rows before }
    {
        if before < u64::from(setup.limits.rows) {
            Claim::Looking(RowNo::new(before as u16 + 1))
        } else {
            Claim::NoRow
        }
    }

    // With the main word of the claimed row.
    fn looked(row: RowNo, word: u64) -> Claim
        ensures { result ≡ claim_looked row word }
    {
        match words::changed(Op::Hold, word) {
            Some(new) => Claim::Holding(row, word, new),
            None => Claim::Rest,
        }
    }

    // With the word that its compare-exchange found.
    fn tried(row: RowNo, old: u64, word: u64) -> Claim
        ensures { result ≡ claim_tried row old word }
    {
        if word == old {
            Claim::Claimed(row)
        } else {
            Claim::looked(row, word)
        }
    }

    // Where it goes with a word that was found.
    fn next(self, setup: &Setup, reply: &Reply) -> Claim
        ensures { result ≡ claim_after setup.now self reply.now }
    {
        match self {
            Claim::Adding => match reply {
                Reply::Word(before) => Claim::counted(setup, *before),
                _ => Claim::Rest,
            },
            Claim::Looking(row) => match reply {
                Reply::Word(word) => Claim::looked(row, *word),
                _ => Claim::Rest,
            },
            Claim::Holding(row, old, _) => match reply {
                Reply::Word(word) => Claim::tried(row, old, *word),
                _ => Claim::Rest,
            },
            Claim::Claimed(_) | Claim::NoRow | Claim::Rest => self,
        }
    }
}

impl Part for Claim {
    ghost use Rattle.roster.specs.Claim.{claim_posted, claim_after, claim_rank};
    ghost use Rattle.roster.specs.ClaimLaws.{claim_lowers};
    ghost use Rattle.roster.specs.Turns.{Went, quietly, went_lowers, went_keeps};

    ghost rank = { claim_rank };

    ghost posted_of = { claim_posted };

    ghost goes = { λ p o s r q n a. Went (quietly (claim_after s p r)) o q n a };

    ghost lowers_rank = { λ p q o n s r a _ g keeps.
        went_lowers claim_rank claim_posted p q o n r a (quietly (claim_after s p r)) (claim_lowers s p r) g keeps };

    ghost keeps_lengths = { λ p q o n s r a _ g. went_keeps (quietly (claim_after s p r)) o q n a g };

    fn posted(&self) -> Call {
        match *self {
            Claim::Adding => calls::count(),
            Claim::Looking(row) => calls::load(words::main_place(row)),
            Claim::Holding(row, old, new) => calls::exchange(words::main_place(row), old, new),
            Claim::Claimed(_) | Claim::NoRow | Claim::Rest => calls::rest(),
        }
    }

    fn after(&mut self, _own: &mut Own, setup: &Setup, reply: &Reply) -> After {
        *self = self.next(setup, reply);
        After {
            event: None,
            finished: self.is_finished(),
        }
    }
}
