//! The part of a thread for its whole life.

ghost use Rattle.std.specs.Prelude.{◌≡◌, ◌<◌, ◌≤◌};
ghost use Rattle.layer_turns.specs.OwnTurns.{OwnTurn};
ghost use Rattle.layer_actor.specs.Actor.{main_opened, serves_opened, serves_posted, serves_after};

use crate::doing::Doing;
use crate::identity::Identity;
use crate::idle::Idle;
use crate::start::Start;
use job_control::Starter;
use w32_base::{After, Call, Event, Own, Part, Reply, Setup, Slot, ThreadNo, Whole};

/// The main thread of a layer process.
#[derive(Clone, Copy, Debug, PartialEq, Eq)]
pub struct MainThread {
    /// Who it is.
    pub who: Identity,
    /// What it does.
    pub doing: Doing,
}

/// What serves a thread.
#[derive(Clone, Copy, Debug, PartialEq, Eq)]
pub enum Serves {
    /// The main thread of a layer process.
    Main(MainThread),
    /// The host's starter.
    Starter(Starter),
    /// Another thread, whose part isn't built yet.
    Other(ThreadNo, Idle),
}

/// The part of a thread for its whole life.
#[derive(Clone, Copy, Debug, PartialEq, Eq)]
pub struct Actor {
    /// The slot whose thread it serves.
    pub slot: Slot,
    /// What serves the thread.
    pub serves: Serves,
}

impl MainThread {
    /// The main thread of an image that was just made.
    pub fn new() -> MainThread
        ensures { result ≡ main_opened }
    {
        let who = Identity::first();
        let start = Start::new(who.image);
        MainThread {
            who,
            doing: Doing::Start(start),
        }
    }
}

impl Serves {
    /// What serves a thread that was just made.
    pub fn new(slot: Slot, thread: ThreadNo) -> Serves
        ensures { result ≡ serves_opened slot thread }
    {
        if slot.get() == 0 {
            if thread.get() == 1 {
                Serves::Starter(Starter::new())
            } else {
                Serves::Other(thread, Idle::Opening)
            }
        } else if thread.get() == 0 {
            Serves::Main(MainThread::new())
        } else {
            Serves::Other(thread, Idle::Opening)
        }
    }

    /// The call that it posts next.
    pub fn call(&self) -> Call
        ensures { result ≡ serves_posted self.now }
    {
        match self {
            Serves::Main(main) => main.doing.call(),
            Serves::Starter(starter) => starter.call(),
            Serves::Other(_, idle) => idle.call(),
        }
    }

    /// Where it goes with a reply over the own bytes, and the event that stands in the turn.
    pub fn turn(self, own: &mut Own, setup: &Setup, reply: &Reply) -> (Serves, Option<Event>)
        ensures { (record { part = result.0; own = own.new; event = result.1 })
            ≡ serves_after setup.now self own.old reply.now }
    {
        match self {
            Serves::Main(main) => {
                let who = main.who;
                let (doing, event) = main.doing.turn(&who, own, setup, reply);
                (Serves::Main(MainThread { who, doing }), event)
            }
            Serves::Starter(starter) => {
                let (starter, event) = starter.turn(reply);
                (Serves::Starter(starter), event)
            }
            Serves::Other(thread, _) => (Serves::Other(thread, Idle::Resting), None),
        }
    }
}

impl Part for Actor {
    ghost use Rattle.layer_turns.specs.OwnTurns.{WentOn};
    ghost use Rattle.layer_turns.specs.OwnTurnsLaws.{fair_lowers, fair_keeps};
    ghost use Rattle.layer_actor.specs.Actor.{actor_posted, actor_after, actor_rank};
    ghost use Rattle.layer_actor.specs.ActorLaws.{actor_fair};

    ghost rank = { actor_rank };

    ghost posted_of = { actor_posted };

    ghost goes = { λ p o s r q n a. WentOn (actor_after s p o r) q n a };

    ghost lowers_rank = { λ p q o n s r a _ g keeps.
        fair_lowers actor_rank (actor_posted p) (actor_rank p) q o n r a (actor_after s p o r) (actor_fair s p r o) g
        keeps };

    ghost keeps_lengths = { λ p q o n s r a _ g.
        fair_keeps actor_rank (actor_posted p) (actor_rank p) q o n r a (actor_after s p o r) (actor_fair s p r o) g };

    fn posted(&self) -> Call {
        self.serves.call()
    }

    fn after(&mut self, own: &mut Own, setup: &Setup, reply: &Reply) -> After {
        let (serves, event) = self.serves.turn(own, setup, reply);
        self.serves = serves;
        After {
            event,
            finished: false,
        }
    }
}

impl Whole for Actor {
    ghost use Rattle.layer_actor.specs.Actor.{thread_of};
    ghost use Rattle.layer_actor.specs.ActorLaws.{IsOpened, actor_goes_on, one_opened, first_call, slot_stays};
    ghost use Rattle.layer_actor.specs.ActorLaws.{thread_stays, image_stays, image_is_ignored};

    ghost slot_of = { λ p. p.slot };

    ghost thread_of = { λ p. thread_of p.serves };

    ghost opening = { IsOpened };

    ghost is_never_done = { actor_goes_on };

    ghost is_one = { one_opened };

    ghost begins = { first_call };

    ghost keeps_slot = { slot_stays };

    ghost keeps_thread = { thread_stays };

    ghost keeps_image = { image_stays };

    ghost ignores_image = { image_is_ignored };

    fn open(slot: Slot, thread: ThreadNo) -> Actor {
        let serves = Serves::new(slot, thread);
        Actor { slot, serves }
    }
}
