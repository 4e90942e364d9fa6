//! Blocks of local instructions.

ghost use Rattle.std.specs.Prelude.{◌≡◌, ◌<◌, ◌+◌, ◌↔◌, IsTrue};

use layer_turns::rest;
use w32_base::{Acting, After, Call, Event, Number, Own, Part, Reply, RowNo, Setup};

/// Carries out a block of local instructions of the process with a row, with the event `run`.
#[derive(Clone, Copy, Debug, PartialEq, Eq)]
pub enum Local {
    /// Carries it out.
    Running(RowNo),
    /// Is done.
    Done,
    /// Has nothing to do any more.
    Rest,
}

impl Local {
    ghost use Rattle.roster.specs.Turns.{Turn};
    ghost use Rattle.layer_actor.specs.Local.{local_posted, local_after, local_rank};

    /// Whether it is done.
    pub fn is_finished(self) -> bool
        ensures { IsTrue result ↔ (local_rank self ≡ 0) }
    {
        matches!(self, Local::Done)
    }

    /// The call that it posts next.
    pub fn call(self) -> Call
        ensures { result ≡ local_posted self }
    {
        match self {
            Local::Running(_) => Call::Run,
            Local::Done | Local::Rest => rest(),
        }
    }

    /// Where it goes with a reply, and the event that stands in the turn.
    pub fn turn(self, reply: &Reply) -> (Local, Option<Event>)
        ensures { (record { part = result.0; event = result.1 }) ≡ local_after self reply.now }
    {
        match self {
            Local::Running(row) => match reply {
                Reply::Ran(count) => {
                    let by = Acting::process(row.pid());
                    let event = Event::Run(by, Number::unsigned(u32::from(*count)));
                    (Local::Done, Some(event))
                }
                _ => (Local::Rest, None),
            },
            Local::Done | Local::Rest => (self, None),
        }
    }
}

impl Part for Local {
    ghost use Rattle.layer_actor.specs.Local.{local_posted, local_after, local_rank, local_lowers};
    ghost use Rattle.roster.specs.Turns.{Went, went_lowers, went_keeps};

    ghost rank = { local_rank };

    ghost posted_of = { local_posted };

    ghost goes = { λ p o s r q n a. Went (local_after p r) o q n a };

    ghost lowers_rank = { λ p q o n s r a _ g keeps.
        went_lowers local_rank local_posted p q o n r a (local_after p r) (local_lowers 0 p r) g keeps };

    ghost keeps_lengths = { λ p q o n s r a _ g. went_keeps (local_after p r) o q n a g };

    fn posted(&self) -> Call {
        self.call()
    }

    fn after(&mut self, _own: &mut Own, _setup: &Setup, reply: &Reply) -> After {
        let (next, event) = self.turn(reply);
        *self = next;
        After {
            event,
            finished: self.is_finished(),
        }
    }
}
