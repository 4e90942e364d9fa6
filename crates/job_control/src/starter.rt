//! The host's starter.

ghost use Rattle.std.specs.Prelude.{◌≡◌, ◌<◌, ◌≤◌, ◌∷◌, []};

use layer_turns::{load, rest};
use w32_base::{Acting, After, Call, Event, HandleList, HandleNo, Number, Own, Part, Reply, Setup};

/// The host's handle of the first process.
const FIRST: u8 = 4;

const SECTION: u8 = 1;

/// The host's starter: it waits for the end of the first process and reads its code, with the event `host`. Then it
/// waits for ever. It is never done.
#[derive(Clone, Copy, Debug, PartialEq, Eq)]
pub enum Starter {
    /// At the start: looks at the number of claimed rows.
    Opening,
    /// Waits for the end of the first process.
    Waiting,
    /// Asks for its code.
    Asking,
    /// Waits for ever.
    Over,
    /// Has nothing to do any more.
    Rest,
}

// Waits for one object.
fn wait(handle: u8) -> Call
    requires { (1 ≤ handle) × (handle ≤ 64) }
    ensures { result ≡ Call.WaitAny (handle ∷ []) }
{
    let mut list = HandleList::new();
    list.push(HandleNo::new(handle));
    Call::WaitAny(list)
}

impl Starter {
    ghost use Rattle.roster.specs.Turns.{Turn};
    ghost use Rattle.job_control.specs.Starter.{starter_posted, starter_after};

    /// At its start.
    pub fn new() -> Starter
        ensures { result ≡ Starter.Opening }
    {
        Starter::Opening
    }

    /// The call that it posts next.
    pub fn call(self) -> Call
        ensures { result ≡ starter_posted self }
    {
        match self {
            Starter::Opening => load(0),
            Starter::Waiting => wait(FIRST),
            Starter::Asking => Call::ExitCode(HandleNo::new(FIRST)),
            Starter::Over => wait(SECTION),
            Starter::Rest => rest(),
        }
    }

    /// Where it goes with a reply, and the event that stands in the turn.
    pub fn turn(self, reply: &Reply) -> (Starter, Option<Event>)
        ensures { (record { part = result.0; event = result.1 }) ≡ starter_after self reply.now }
    {
        match (self, reply) {
            (Starter::Opening, Reply::Word(_)) => (Starter::Waiting, None),
            (Starter::Waiting, Reply::Woke(_)) => (Starter::Asking, None),
            (Starter::Asking, Reply::Code(code)) => {
                let event = Event::Host(Acting::host(), Number::unsigned(*code));
                (Starter::Over, Some(event))
            }
            (Starter::Over, _) => (Starter::Over, None),
            _ => (Starter::Rest, None),
        }
    }
}

impl Part for Starter {
    ghost use Rattle.job_control.specs.Starter.{starter_posted, starter_after, starter_rank};
    ghost use Rattle.job_control.specs.StarterLaws.{starter_lowers};
    ghost use Rattle.roster.specs.Turns.{Went, went_lowers, went_keeps};

    ghost rank = { starter_rank };

    ghost posted_of = { starter_posted };

    ghost goes = { λ p o s r q n a. Went (starter_after p r) o q n a };

    ghost lowers_rank = { λ p q o n s r a _ g keeps.
        went_lowers starter_rank starter_posted p q o n r a (starter_after p r) (starter_lowers p r) g keeps };

    ghost keeps_lengths = { λ p q o n s r a _ g. went_keeps (starter_after p r) o q n a g };

    fn posted(&self) -> Call {
        self.call()
    }

    fn after(&mut self, _own: &mut Own, _setup: &Setup, reply: &Reply) -> After {
        let (next, event) = self.turn(reply);
        *self = next;
        After {
            event,
            finished: false,
        }
    }
}
