//! The calls that tell a process's parent, group and session.

ghost use Rattle.std.specs.Prelude.{◌≡◌, ◌<◌, ◌+◌, ◌↔◌, IsTrue, ◌≤◌};
ghost use Rattle.layer_actor.specs.Gets.{field_of, get_event};

use layer_turns::{answer, group_place, is_live, load, main_place, rest};
use pinfo_word::Group;
use w32_base::{Acting, After, Call, Event, Field, Number, Own, Part, Pid, Reply, RowNo, Setup};

/// What is asked for.
#[derive(Clone, Copy, Debug, PartialEq, Eq)]
pub enum Asked {
    /// `getppid`: the parent's number, or 1 where the raw parent is a zombie or has no record.
    Parent,
    /// `getpgid`: the process group.
    Group,
    /// `getsid`: the session.
    Session,
}

/// Where a get is.
#[derive(Clone, Copy, Debug, PartialEq, Eq)]
pub enum GetStep {
    /// Looks at the own group word.
    Grouping,
    /// Looks at the parent's main word.
    Parent(RowNo),
    /// Is done.
    Done,
    /// Has nothing to do any more.
    Rest,
}

/// `getppid`, `getpgid` or `getsid` of a program (POSIX.1-2017, XSH). It is answered at the look that shows the value,
/// with the event `get`.
#[derive(Clone, Copy, Debug, PartialEq, Eq)]
pub struct Gets {
    /// The row of the process.
    pub row: RowNo,
    /// What it asks for.
    pub asked: Asked,
    /// Where it is.
    pub step: GetStep,
}

// The event of a get with its value.
fn get_event(row: RowNo, asked: Asked, value: u16) -> Event
    ensures { result ≡ get_event row asked value }
{
    let field = match asked {
        Asked::Parent => Field::Ppid,
        Asked::Group => Field::Pgid,
        Asked::Session => Field::Sid,
    };
    let value = Number::unsigned(u32::from(value));
    Event::Get(Acting::process(row.pid()), field, value)
}

impl Gets {
    ghost use Rattle.layer_spec.specs.Decoding.{group_of};
    ghost use Rattle.layer_turns.specs.OwnTurns.{OwnTurn};
    ghost use Rattle.layer_actor.specs.declared.gets.GetStep.TheVariants.{Grouping};
    ghost use Rattle.layer_actor.specs.Gets.{get_answers, get_parent, get_grouped, get_looked, get_step_after};
    ghost use Rattle.layer_actor.specs.Gets.{get_after};
    ghost use Rattle.layer_actor.specs.Gets.{get_posted, get_rank};

    /// At its start, of the process with a row.
    pub fn new(row: RowNo, asked: Asked) -> Gets
        ensures { result ≡ (record { row = row; asked = asked; step = Grouping }) }
    {
        Gets {
            row,
            asked,
            step: GetStep::Grouping,
        }
    }

    /// Whether it is done.
    pub fn is_finished(&self) -> bool
        ensures { IsTrue result ↔ (get_rank self.now ≡ 0) }
    {
        matches!(self.step, GetStep::Done)
    }

    // The call has its value.
    fn answers(row: RowNo, asked: Asked, own: &mut Own, value: u16) -> (GetStep, Option<Event>)
        ensures { (record { part = result.0; own = own.new; event = result.1 }) ≡ get_answers row asked own.old value }
    {
        if answer(own, i32::from(value)) {
            (GetStep::Done, Some(get_event(row, asked, value)))
        } else {
            (GetStep::Rest, None)
        }
    }

    // With the raw parent.
    fn parent(row: RowNo, own: &mut Own, parent: u16) -> (GetStep, Option<Event>)
        ensures { (record { part = result.0; own = own.new; event = result.1 }) ≡ get_parent row own.old parent }
    {
        match Pid::try_new(parent) {
            Some(pid) => (GetStep::Parent(pid.row()), None),
            None => Gets::answers(row, Asked::Parent, own, 1),
        }
    }

    // With the own group word.
    fn grouped(row: RowNo, asked: Asked, own: &mut Own, word: u64) -> (GetStep, Option<Event>)
        ensures { (record { part = result.0; own = own.new; event = result.1 })
            ≡ get_grouped row asked own.old (group_of word) }
    {
        let Some(group) = Group::decode(word) else {
            return (GetStep::Rest, None);
        };
        match asked {
            Asked::Parent => Gets::parent(row, own, group.ppid),
            Asked::Group => Gets::answers(row, Asked::Group, own, group.pgid),
            Asked::Session => Gets::answers(row, Asked::Session, own, group.sid),
        }
    }

    // With the parent's main word.
    fn looked(
        row: RowNo,
        parent: RowNo,
        asked: Asked,
        own: &mut Own,
        word: u64,
    ) -> (GetStep, Option<Event>)
        ensures { (record { part = result.0; own = own.new; event = result.1 })
            ≡ get_looked row parent asked own.old word }
    {
        let value = if is_live(word) { parent.pid().get() } else { 1 };
        Gets::answers(row, asked, own, value)
    }

    // Where it goes with a reply over the own bytes, and the event that stands in the turn.
    fn step_after(&self, own: &mut Own, reply: &Reply) -> (GetStep, Option<Event>)
        ensures { (record { part = result.0; own = own.new; event = result.1 })
            ≡ get_step_after self.now.row self.now.asked self.now.step own.old reply.now }
    {
        match self.step {
            GetStep::Grouping => match reply {
                Reply::Word(word) => Gets::grouped(self.row, self.asked, own, *word),
                _ => (GetStep::Rest, None),
            },
            GetStep::Parent(parent) => match reply {
                Reply::Word(word) => Gets::looked(self.row, parent, self.asked, own, *word),
                _ => (GetStep::Rest, None),
            },
            GetStep::Done | GetStep::Rest => (self.step, None),
        }
    }

    /// The call that it posts next.
    pub fn call(&self) -> Call
        ensures { result ≡ get_posted self.now }
    {
        match self.step {
            GetStep::Grouping => load(group_place(self.row)),
            GetStep::Parent(parent) => load(main_place(parent)),
            GetStep::Done | GetStep::Rest => rest(),
        }
    }

    /// Goes on with a reply over the own bytes, with the event that stands in the turn.
    pub fn turn(&mut self, own: &mut Own, reply: &Reply) -> Option<Event>
        ensures { (record { part = self.new; own = own.new; event = result }) ≡ get_after self.old own.old reply.now }
    {
        let (step, event) = self.step_after(own, reply);
        self.step = step;
        event
    }
}

impl Part for Gets {
    ghost use Rattle.layer_actor.specs.Gets.{get_posted, get_after, get_rank};
    ghost use Rattle.layer_actor.specs.GetsLaws.{get_fair};
    ghost use Rattle.layer_turns.specs.OwnTurns.{WentOn};
    ghost use Rattle.layer_turns.specs.OwnTurnsLaws.{fair_lowers, fair_keeps};

    ghost rank = { get_rank };

    ghost posted_of = { get_posted };

    ghost goes = { λ p o s r q n a. WentOn (get_after p o r) q n a };

    ghost lowers_rank = { λ p q o n s r a _ g keeps.
        fair_lowers get_rank (get_posted p) (get_rank p) q o n r a (get_after p o r) (get_fair p r o) g keeps };

    ghost keeps_lengths = { λ p q o n s r a _ g.
        fair_keeps get_rank (get_posted p) (get_rank p) q o n r a (get_after p o r) (get_fair p r o) g };

    fn posted(&self) -> Call {
        self.call()
    }

    fn after(&mut self, own: &mut Own, _setup: &Setup, reply: &Reply) -> After {
        let event = self.turn(own, reply);
        After {
            event,
            finished: self.is_finished(),
        }
    }
}
