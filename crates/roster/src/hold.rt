//! Taking the roster mutex.

ghost use Rattle.std.specs.Prelude.{◌≡◌, ◌<◌, ◌↔◌, IsTrue};

use crate::calls;
use w32_base::{After, Call, Own, Part, Reply, Setup};

/// Takes the roster mutex. From its end on the thread holds it, until it lets it go.
#[derive(Clone, Copy, Debug, PartialEq, Eq)]
pub enum Hold {
    /// Waits for the mutex.
    Waiting,
    /// Is done: the thread holds it.
    Held,
    /// Has nothing to do any more.
    Rest,
}

impl Hold {
    ghost use Rattle.roster.specs.Mutex.{hold_after, hold_rank};

    /// At its start.
    pub fn new() -> Hold
        ensures { result ≡ Hold.Waiting }
    {
        Hold::Waiting
    }

    /// Whether it is done.
    pub fn is_finished(self) -> bool
        ensures { IsTrue result ↔ (hold_rank self ≡ 0) }
    {
        self == Hold::Held
    }

    // Where it goes with a reply.
    fn next(self, reply: &Reply) -> Hold
        ensures { result ≡ hold_after self reply.now }
    {
        match (self, reply) {
            (Hold::Waiting, Reply::Woke(_) | Reply::Abandoned(_)) | (Hold::Held, _) => Hold::Held,
            _ => Hold::Rest,
        }
    }
}

impl Part for Hold {
    ghost use Rattle.roster.specs.Mutex.{hold_posted, hold_after, hold_rank};
    ghost use Rattle.roster.specs.MutexLaws.{hold_lowers};
    ghost use Rattle.roster.specs.Turns.{Went, quietly, went_lowers, went_keeps};

    ghost rank = { hold_rank };

    ghost posted_of = { hold_posted };

    ghost goes = { λ p o s r q n a. Went (quietly (hold_after p r)) o q n a };

    ghost lowers_rank = { λ p q o n s r a _ g keeps.
        went_lowers hold_rank hold_posted p q o n r a (quietly (hold_after p r)) (hold_lowers p r) g keeps };

    ghost keeps_lengths = { λ p q o n s r a _ g. went_keeps (quietly (hold_after p r)) o q n a g };

    fn posted(&self) -> Call {
        match *self {
            Hold::Waiting => calls::hold(),
            Hold::Held | Hold::Rest => calls::rest(),
        }
    }

    fn after(&mut self, _own: &mut Own, _setup: &Setup, reply: &Reply) -> After {
        *self = self.next(reply);
        After {
            event: None,
            finished: self.is_finished(),
        }
    }
}
