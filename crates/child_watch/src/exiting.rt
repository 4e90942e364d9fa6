//! The end of a process.

ghost use Rattle.std.specs.Prelude.{◌≡◌, ◌<◌, ◌≤◌, ◌+◌, ◌↔◌, IsTrue};

use crate::children::listed_child;
use crate::collect::Gather;
use crate::ending::Ending;
use layer_turns::{
    changed, exchange, exit_place, group_place, hold_call, hold_turn, is_live, let_call, let_turn,
    load, main_place, rest,
};
use pinfo_word::{Group, Op};
use roster::{Hold, Let};
use w32_base::{Acting, After, Call, Event, Number, Own, Part, Pid, Reply, RowNo, Setup, WinNo};

/// Where the end of a process is.
#[derive(Clone, Copy, Debug, PartialEq, Eq)]
pub enum ExitStep {
    /// Puts its exit word in the place of the one that was found.
    Marking(u64),
    /// Looks at its main word.
    Looking,
    /// Dies, by another word in the place of the one that was found.
    Sealing(u64, u64),
    /// Takes the roster mutex.
    Holding(Hold),
    /// Collects the child at this place of its list, where it is a zombie.
    Child(u8, Gather),
    /// Looks at its group word.
    Grouping,
    /// Looks at its parent's main word.
    Parent(RowNo),
    /// Collects itself.
    Itself(Gather),
    /// Lets the roster mutex go.
    Letting(Let),
    /// Ends its Win32 process.
    Leaving,
    /// Has nothing to do any more.
    Rest,
}

/// The end of a process (POSIX.1-2017, XSH _Exit): its exit word says how, and its main word becomes a zombie's, with
/// the event `die`. Then it collects its children that are zombies, and itself where it has no live parent, and ends
/// its Win32 process with the status as the code. It is never done.
#[derive(Clone, Copy, Debug, PartialEq, Eq)]
pub struct Exiting {
    /// The row of the process.
    pub row: RowNo,
    /// Its image.
    pub image: WinNo,
    /// How it ends.
    pub ending: Ending,
    /// Where it is.
    pub step: ExitStep,
}

impl ExitStep {
    ghost use Rattle.layer_spec.specs.Decoding.{group_of};
    ghost use Rattle.child_watch.specs.Exiting.{exit_marked, exit_looked, exit_children, exit_holds, exit_gathers};
    ghost use Rattle.child_watch.specs.Exiting.{exit_grouped, exit_parent, exit_itself, exit_lets};

    // With the exit word that was found.
    fn marked(old: u64, word: u64) -> ExitStep
        ensures { result ≡ exit_marked old word }
    {
        if word == old {
            ExitStep::Looking
        } else {
            ExitStep::Marking(word)
        }
    }

    // With its main word.
    fn looked(ending: Ending, word: u64) -> ExitStep
        ensures { result ≡ exit_looked ending word }
    {
        match changed(Op::Seal(ending.status()), word) {
            Some(new) => ExitStep::Sealing(word, new),
            None => ExitStep::Rest,
        }
    }

    // From a child on.
    fn children(own: &Own, place: u8) -> ExitStep
        ensures { result ≡ exit_children own.now place }
    {
        match listed_child(own, place) {
            Some(row) => ExitStep::Child(place, Gather::new(row)),
            None => ExitStep::Grouping,
        }
    }

    // The mutex is held, or is waited for.
    fn holds(own: &Own, hold: Hold) -> ExitStep
        ensures { result ≡ exit_holds own.now hold }
    {
        match hold {
            Hold::Held => ExitStep::children(own, 0),
            other => ExitStep::Holding(other),
        }
    }

    // The collecting of a child goes on, or is over.
    fn gathers(own: &Own, place: u8, gather: Gather) -> ExitStep
        ensures { result ≡ exit_gathers own.now place gather }
    {
        match gather {
            Gather::Done => {
                if place == u8::MAX {
                    ExitStep::Grouping
                } else {
                    ExitStep::children(own, place + 1)
                }
            }
            other => ExitStep::Child(place, other),
        }
    }

    // With its group word.
    fn grouped(row: RowNo, word: u64) -> ExitStep
        ensures { result ≡ exit_grouped row (group_of word) }
    {
        let Some(group) = Group::decode(word) else {
            return ExitStep::Rest;
        };
        match Pid::try_new(group.ppid) {
            Some(parent) => ExitStep::Parent(parent.row()),
            None => ExitStep::Itself(Gather::new(row)),
        }
    }

    // With its parent's main word.
    fn parent(row: RowNo, word: u64) -> ExitStep
        ensures { result ≡ exit_parent row word }
    {
        if is_live(word) {
            ExitStep::Letting(Let::new())
        } else {
            ExitStep::Itself(Gather::new(row))
        }
    }

    // Its own collecting goes on, or is over.
    fn itself(gather: Gather) -> ExitStep
        ensures { result ≡ exit_itself gather }
    {
        match gather {
            Gather::Done => ExitStep::Letting(Let::new()),
            other => ExitStep::Itself(other),
        }
    }

    // The mutex is let go, or is being let go.
    fn lets(release: Let) -> ExitStep
        ensures { result ≡ exit_lets release }
    {
        match release {
            Let::Released => ExitStep::Leaving,
            other => ExitStep::Letting(other),
        }
    }
}

impl Exiting {
    ghost use Rattle.roster.specs.Turns.{Turn};
    ghost use Rattle.child_watch.specs.Exiting.{exit_begun, exit_posted, exit_sealed, exit_step_after, exit_after};
    ghost use Rattle.child_watch.specs.Exiting.{exit_rank};

    /// At its start, for an image of the process with a row.
    pub fn new(row: RowNo, image: WinNo, ending: Ending) -> Exiting
        ensures { result ≡ exit_begun row image ending }
    {
        Exiting {
            row,
            image,
            ending,
            step: ExitStep::Marking(0),
        }
    }

    // With the main word that its compare-exchange found.
    fn sealed(&self, old: u64, word: u64) -> (ExitStep, Option<Event>)
        ensures { (record { part = result.0; event = result.1 }) ≡ exit_sealed self.now.row self.now.ending old word }
    {
        if word == old {
            let status = Number::unsigned(u32::from(self.ending.status()));
            let event = Event::Die(Acting::process(self.row.pid()), status, self.ending.death());
            (ExitStep::Holding(Hold::new()), Some(event))
        } else {
            (ExitStep::looked(self.ending, word), None)
        }
    }

    // Where it goes with a reply over the own bytes, and the event that stands in the turn.
    fn step_after(&self, own: &mut Own, setup: &Setup, reply: &Reply) -> (ExitStep, Option<Event>)
        ensures turn { (record { part = result.0; event = result.1 })
            ≡ exit_step_after self.now.row self.now.ending self.now.step own.old reply.now }
        ensures own { own.new ≡ own.old }
    {
        match self.step {
            ExitStep::Holding(hold) => {
                let hold = hold_turn(hold, own, setup, reply);
                (ExitStep::holds(own, hold), None)
            }
            ExitStep::Child(place, gather) => {
                let (gather, event) = gather.turn(reply);
                (ExitStep::gathers(own, place, gather), event)
            }
            ExitStep::Itself(gather) => {
                let (gather, event) = gather.turn(reply);
                (ExitStep::itself(gather), event)
            }
            ExitStep::Letting(release) => {
                let release = let_turn(release, own, setup, reply);
                (ExitStep::lets(release), None)
            }
            ExitStep::Leaving | ExitStep::Rest => (ExitStep::Rest, None),
            ExitStep::Marking(old) => match reply {
                Reply::Word(word) => (ExitStep::marked(old, *word), None),
                _ => (ExitStep::Rest, None),
            },
            ExitStep::Looking => match reply {
                Reply::Word(word) => (ExitStep::looked(self.ending, *word), None),
                _ => (ExitStep::Rest, None),
            },
            ExitStep::Sealing(old, _) => match reply {
                Reply::Word(word) => self.sealed(old, *word),
                _ => (ExitStep::Rest, None),
            },
            ExitStep::Grouping => match reply {
                Reply::Word(word) => (ExitStep::grouped(self.row, *word), None),
                _ => (ExitStep::Rest, None),
            },
            ExitStep::Parent(_) => match reply {
                Reply::Word(word) => (ExitStep::parent(self.row, *word), None),
                _ => (ExitStep::Rest, None),
            },
        }
    }

    /// The call that it posts next.
    pub fn call(&self) -> Call
        ensures { result ≡ exit_posted self.now }
    {
        match self.step {
            ExitStep::Marking(old) => {
                exchange(exit_place(self.row), old, self.ending.word(self.image))
            }
            ExitStep::Looking => load(main_place(self.row)),
            ExitStep::Sealing(old, new) => exchange(main_place(self.row), old, new),
            ExitStep::Holding(hold) => hold_call(hold),
            ExitStep::Child(_, gather) | ExitStep::Itself(gather) => gather.call(),
            ExitStep::Grouping => load(group_place(self.row)),
            ExitStep::Parent(parent) => load(main_place(parent)),
            ExitStep::Letting(release) => let_call(release),
            ExitStep::Leaving => Call::ExitSelf(u32::from(self.ending.status())),
            ExitStep::Rest => rest(),
        }
    }

    /// Goes on with a reply over the own bytes, which stay, with the event that stands in the turn.
    pub fn turn(&mut self, own: &mut Own, setup: &Setup, reply: &Reply) -> Option<Event>
        ensures turn { (record { part = self.new; event = result }) ≡ exit_after self.old own.old reply.now }
        ensures own { own.new ≡ own.old }
    {
        let (step, event) = self.step_after(own, setup, reply);
        self.step = step;
        event
    }
}

impl Part for Exiting {
    ghost use Rattle.child_watch.specs.Exiting.{exit_posted, exit_after, exit_rank};
    ghost use Rattle.child_watch.specs.ExitingLaws.{exit_lowers};
    ghost use Rattle.roster.specs.Turns.{Went, went_lowers, went_keeps};

    ghost rank = { exit_rank };

    ghost posted_of = { exit_posted };

    ghost goes = { λ p o s r q n a. Went (exit_after p o r) o q n a };

    ghost lowers_rank = { λ p q o n s r a _ g keeps.
        went_lowers exit_rank exit_posted p q o n r a (exit_after p o r) (exit_lowers p o r) g keeps };

    ghost keeps_lengths = { λ p q o n s r a _ g. went_keeps (exit_after p o r) o q n a g };

    fn posted(&self) -> Call {
        self.call()
    }

    fn after(&mut self, own: &mut Own, setup: &Setup, reply: &Reply) -> After {
        let event = self.turn(own, setup, reply);
        After {
            event,
            finished: false,
        }
    }
}
