//! Collecting a zombie.

ghost use Rattle.std.specs.Prelude.{◌≡◌, ◌<◌, ◌+◌, ◌↔◌, IsTrue};

use layer_turns::{changed, exchange, load, main_place, rest};
use pinfo_word::Op;
use w32_base::{Acting, After, Call, Event, Own, Part, Reply, RowNo, Setup};

/// Collects the process of a row where it is a zombie, with the event `collect` in the turn in which its row goes. The
/// thread holds the roster mutex meanwhile.
#[derive(Clone, Copy, Debug, PartialEq, Eq)]
pub enum Gather {
    /// Looks at the row's main word.
    Looking(RowNo),
    /// Collects the process, by another word in the place of the one that was found.
    Trying(RowNo, u64, u64),
    /// Is done: the row is no zombie, or not any more.
    Done,
    /// Has nothing to do any more.
    Rest,
}

impl Gather {
    ghost use Rattle.roster.specs.Turns.{Turn};
    ghost use Rattle.child_watch.specs.Collect.{gather_posted, gather_looked, gather_tried, gather_after, gather_rank};

    /// At its start, for a row.
    pub fn new(row: RowNo) -> Gather
        ensures { result ≡ Gather.Looking row }
    {
        Gather::Looking(row)
    }

    /// Whether it is done.
    pub fn is_finished(self) -> bool
        ensures { IsTrue result ↔ (gather_rank self ≡ 0) }
    {
        matches!(self, Gather::Done)
    }

    // With the row's main word.
    fn looked(row: RowNo, word: u64) -> Gather
        ensures { result ≡ gather_looked row word }
    {
        match changed(Op::Collect, word) {
            Some(new) => Gather::Trying(row, word, new),
            None => Gather::Done,
        }
    }

    // With the word that its compare-exchange found.
    fn tried(row: RowNo, old: u64, word: u64) -> (Gather, Option<Event>)
        ensures { (record { part = result.0; event = result.1 }) ≡ gather_tried row old word }
    {
        if word == old {
            (
                Gather::Done,
                Some(Event::Collect(Acting::process(row.pid()))),
            )
        } else {
            (Gather::looked(row, word), None)
        }
    }

    /// The call that it posts next.
    pub fn call(self) -> Call
        ensures { result ≡ gather_posted self }
    {
        match self {
            Gather::Looking(row) => load(main_place(row)),
            Gather::Trying(row, old, new) => exchange(main_place(row), old, new),
            Gather::Done | Gather::Rest => rest(),
        }
    }

    /// Where it goes with a reply, and the event that stands in the turn.
    pub fn turn(self, reply: &Reply) -> (Gather, Option<Event>)
        ensures { (record { part = result.0; event = result.1 }) ≡ gather_after self reply.now }
    {
        match self {
            Gather::Looking(row) => match reply {
                Reply::Word(word) => (Gather::looked(row, *word), None),
                _ => (Gather::Rest, None),
            },
            Gather::Trying(row, old, _) => match reply {
                Reply::Word(word) => Gather::tried(row, old, *word),
                _ => (Gather::Rest, None),
            },
            Gather::Done | Gather::Rest => (self, None),
        }
    }
}

impl Part for Gather {
    ghost use Rattle.child_watch.specs.Collect.{gather_posted, gather_after, gather_rank};
    ghost use Rattle.child_watch.specs.CollectLaws.{gather_lowers};
    ghost use Rattle.roster.specs.Turns.{Went, went_lowers, went_keeps};

    ghost rank = { gather_rank };

    ghost posted_of = { gather_posted };

    ghost goes = { λ p o s r q n a. Went (gather_after p r) o q n a };

    ghost lowers_rank = { λ p q o n s r a _ g keeps.
        went_lowers gather_rank gather_posted p q o n r a (gather_after p r) (gather_lowers p r) g keeps };

    ghost keeps_lengths = { λ p q o n s r a _ g. went_keeps (gather_after p r) o q n a g };

    fn posted(&self) -> Call {
        self.call()
    }

    fn after(&mut self, _own: &mut Own, _setup: &Setup, reply: &Reply) -> After {
        let (next, event) = self.turn(reply);
        *self = next;
        After {
            event,
            finished: self.is_finished(),
        }
    }
}
