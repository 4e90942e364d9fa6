//! Letting the roster mutex go.

ghost use Rattle.std.specs.Prelude.{◌≡◌, ◌<◌, ◌↔◌, IsTrue};

use crate::calls;
use w32_base::{After, Call, Own, Part, Reply, Setup};

/// Lets the roster mutex go, which the thread holds.
#[derive(Clone, Copy, Debug, PartialEq, Eq)]
pub enum Let {
    /// Lets it go.
    Releasing,
    /// Is done.
    Released,
    /// Has nothing to do any more.
    Rest,
}

impl Let {
    ghost use Rattle.roster.specs.Mutex.{let_after, let_rank};

    /// At its start.
    pub fn new() -> Let
        ensures { result ≡ Let.Releasing }
    {
        Let::Releasing
    }

    /// Whether it is done.
    pub fn is_finished(self) -> bool
        ensures { IsTrue result ↔ (let_rank self ≡ 0) }
    {
        self == Let::Released
    }

    // Where it goes with a reply.
    fn next(self, reply: &Reply) -> Let
        ensures { result ≡ let_after self reply.now }
    {
        match (self, reply) {
            (Let::Releasing, Reply::Done) | (Let::Released, _) => Let::Released,
            _ => Let::Rest,
        }
    }
}

impl Part for Let {
    ghost use Rattle.roster.specs.Mutex.{let_posted, let_after, let_rank};
    ghost use Rattle.roster.specs.MutexLaws.{let_lowers};
    ghost use Rattle.roster.specs.Turns.{Went, quietly, went_lowers, went_keeps};

    ghost rank = { let_rank };

    ghost posted_of = { let_posted };

    ghost goes = { λ p o s r q n a. Went (quietly (let_after p r)) o q n a };

    ghost lowers_rank = { λ p q o n s r a _ g keeps.
        went_lowers let_rank let_posted p q o n r a (quietly (let_after p r)) (let_lowers p r) g keeps };

    ghost keeps_lengths = { λ p q o n s r a _ g. went_keeps (quietly (let_after p r)) o q n a g };

    fn posted(&self) -> Call {
        match *self {
            Let::Releasing => calls::release(),
            Let::Released | Let::Rest => calls::rest(),
        }
    }

    fn after(&mut self, _own: &mut Own, _setup: &Setup, reply: &Reply) -> After {
        *self = self.next(reply);
        After {
            event: None,
            finished: self.is_finished(),
        }
    }
}
