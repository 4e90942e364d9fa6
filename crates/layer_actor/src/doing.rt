//! What the main thread of a layer process does, as the sum of its parts.

ghost use Rattle.std.specs.Prelude.{◌≡◌};
ghost use Rattle.layer_turns.specs.OwnTurns.{OwnTurn};
ghost use Rattle.layer_actor.specs.Doing.{rests, looks, gets as begun_gets, exits, doing_posted, doing_after};
ghost use Rattle.layer_actor.specs.declared.local.Local.TheVariants.{Running};

use crate::gets::{Asked, GetStep, Gets};
use crate::identity::Identity;
use crate::idle::Idle;
use crate::local::Local;
use crate::look::{Gone, Look};
use crate::start::{Start, StartStep};
use child_watch::{Ending, Exiting};
use kill_calls::{KillOne, KillStep};
use w32_base::{Call, Own, Reply, Setup};

/// What the main thread of a layer process does.
#[derive(Clone, Copy, Debug, PartialEq, Eq)]
pub enum Doing {
    /// Starts its image.
    Start(Start),
    /// Looks at its own main word, and goes on with what is next in its program.
    Look(Look),
    /// Carries out a block of local instructions.
    Local(Local),
    /// Answers `getppid`, `getpgid` or `getsid`.
    Gets(Gets),
    /// Sends a signal to one process.
    Kill(KillOne),
    /// Ends its process.
    Exit(Exiting),
    /// Has nothing to do any more.
    Idle(Idle),
}

/// The same of each part.
macro_rules! of_each {
    ($doing:expr, $part:ident => $body:expr) => {
        match $doing {
            Doing::Start($part) => $body,
            Doing::Look($part) => $body,
            Doing::Local($part) => $body,
            Doing::Gets($part) => $body,
            Doing::Kill($part) => $body,
            Doing::Exit($part) => $body,
            Doing::Idle($part) => $body,
        }
    };
}

/// A part of a main thread: it goes on, or is done, and the next look comes.
trait Inner {
    fn goes_on(self, who: &Identity, own: &mut Own, setup: &Setup, reply: &Reply) -> Gone;
}

impl Inner for Start {
    fn goes_on(self, who: &Identity, own: &mut Own, setup: &Setup, reply: &Reply) -> Gone
        ensures { (record { part = result.0; own = own.new; event = result.1 })
            ≡ doing_after setup.now who.now (Doing.Start self) own.old reply.now }
    {
        let mut part = self;
        part.turn(own, reply);
        match part.step {
            StartStep::Done => (Doing::look(who), None),
            _ => (Doing::Start(part), None),
        }
    }
}

impl Inner for Look {
    fn goes_on(self, who: &Identity, own: &mut Own, setup: &Setup, reply: &Reply) -> Gone
        ensures { (record { part = result.0; own = own.new; event = result.1 })
            ≡ doing_after setup.now who.now (Doing.Look self) own.old reply.now }
    {
        self.turn(who, own, setup, reply)
    }
}

impl Inner for Local {
    fn goes_on(self, who: &Identity, own: &mut Own, setup: &Setup, reply: &Reply) -> Gone
        ensures { (record { part = result.0; own = own.new; event = result.1 })
            ≡ doing_after setup.now who.now (Doing.Local self) own.old reply.now }
    {
        let (next, event) = self.turn(reply);
        match next {
            Local::Done => (Doing::look(who), event),
            other => (Doing::Local(other), event),
        }
    }
}

impl Inner for Gets {
    fn goes_on(self, who: &Identity, own: &mut Own, setup: &Setup, reply: &Reply) -> Gone
        ensures { (record { part = result.0; own = own.new; event = result.1 })
            ≡ doing_after setup.now who.now (Doing.Gets self) own.old reply.now }
    {
        let mut part = self;
        let event = part.turn(own, reply);
        match part.step {
            GetStep::Done => (Doing::look(who), event),
            _ => (Doing::Gets(part), event),
        }
    }
}

impl Inner for KillOne {
    fn goes_on(self, who: &Identity, own: &mut Own, setup: &Setup, reply: &Reply) -> Gone
        ensures { (record { part = result.0; own = own.new; event = result.1 })
            ≡ doing_after setup.now who.now (Doing.Kill self) own.old reply.now }
    {
        let mut part = self;
        let event = part.turn(own, setup, reply);
        match part.step {
            KillStep::Done => (Doing::look(who), event),
            _ => (Doing::Kill(part), event),
        }
    }
}

impl Inner for Exiting {
    fn goes_on(self, who: &Identity, own: &mut Own, setup: &Setup, reply: &Reply) -> Gone
        ensures { (record { part = result.0; own = own.new; event = result.1 })
            ≡ doing_after setup.now who.now (Doing.Exit self) own.old reply.now }
    {
        let mut part = self;
        let event = part.turn(own, setup, reply);
        (Doing::Exit(part), event)
    }
}

impl Inner for Idle {
    fn goes_on(self, who: &Identity, own: &mut Own, setup: &Setup, reply: &Reply) -> Gone
        ensures { (record { part = result.0; own = own.new; event = result.1 })
            ≡ doing_after setup.now who.now (Doing.Idle self) own.old reply.now }
    {
        (Doing::rest(), None)
    }
}

impl Doing {
    /// Has nothing to do any more.
    pub fn rest() -> Doing
        ensures { result ≡ rests }
    {
        Doing::Idle(Idle::Resting)
    }

    /// The look at the own main word.
    pub fn look(who: &Identity) -> Doing
        ensures { result ≡ looks who.now }
    {
        Doing::Look(Look { row: who.row })
    }

    /// A block of local instructions.
    pub fn run(who: &Identity) -> Doing
        ensures { result ≡ Doing.Local (Running who.now.row) }
    {
        Doing::Local(Local::Running(who.row))
    }

    /// A call that the own row answers.
    pub fn gets(who: &Identity, asked: Asked) -> Doing
        ensures { result ≡ begun_gets who.now asked }
    {
        Doing::Gets(Gets::new(who.row, asked))
    }

    /// The process ends.
    pub fn exit(who: &Identity, ending: Ending) -> Doing
        ensures { result ≡ exits who.now ending }
    {
        Doing::Exit(Exiting::new(who.row, who.image, ending))
    }

    /// The call that it posts next.
    pub fn call(&self) -> Call
        ensures { result ≡ doing_posted self.now }
    {
        of_each!(self, part => part.call())
    }

    /// Where it goes with a reply over the own bytes, and the event that stands in the turn.
    pub fn turn(self, who: &Identity, own: &mut Own, setup: &Setup, reply: &Reply) -> Gone
        ensures { (record { part = result.0; own = own.new; event = result.1 })
            ≡ doing_after setup.now who.now self own.old reply.now }
    {
        of_each!(self, part => part.goes_on(who, own, setup, reply))
    }
}
