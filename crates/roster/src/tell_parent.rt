//! Posting CHLD to the parent of a process that was stopped or continued.

ghost use Rattle.std.specs.Prelude.{◌≡◌, ◌<◌, ◌≤◌, ◌↔◌, IsTrue};

use crate::post_one::PostOne;
use crate::signal::Signal;
use crate::wake::Poster;
use crate::{calls, words};
use pinfo_word::Group;
use w32_base::{Acting, After, Call, Event, Own, Part, Pid, Reply, RowNo, Setup};

/// The signal that tells a parent.
const CHLD: u8 = 17;

/// Posts CHLD to the parent of a row's process, which the poster has stopped or continued, and wakes it. The event is
/// `notify`. Nobody is told where there is no parent or it has died.
#[derive(Clone, Copy, Debug, PartialEq, Eq)]
pub enum TellParent {
    /// Looks at the row's group word.
    Looking(RowNo, Poster),
    /// Posts CHLD.
    Posting(PostOne),
    /// Is done.
    Done,
    /// Has nothing to do any more.
    Rest,
}

impl TellParent {
    ghost use Rattle.layer_spec.specs.Decoding.{group_of};
    ghost use Rattle.roster.specs.TellParent.{tell_posted, tell_looked, tell_posts, tell_after, tell_rank};

    /// At its start, for the process of a row.
    pub fn new(row: RowNo, by: Poster) -> TellParent
        ensures { result ≡ TellParent.Looking row by }
    {
        TellParent::Looking(row, by)
    }

    /// Whether it is done.
    pub fn is_finished(self) -> bool
        ensures { IsTrue result ↔ (tell_rank self ≡ 0) }
    {
        matches!(self, TellParent::Done)
    }

    // With the row's group word.
    fn looked(by: Poster, word: u64) -> TellParent
        ensures { result ≡ tell_looked by (group_of word) }
    {
        let Some(group) = Group::decode(word) else {
            return TellParent::Rest;
        };
        match Pid::try_new(group.ppid) {
            Some(parent) => {
                let event = Event::Notify(Acting::process(parent));
                TellParent::Posting(PostOne::new(parent.row(), Signal::new(CHLD), event, by))
            }
            None => TellParent::Done,
        }
    }

    // The posting goes on, or is over.
    fn posting(posting: PostOne) -> TellParent
        ensures { result ≡ tell_posts posting }
    {
        if posting.step.is_final() {
            TellParent::Done
        } else {
            TellParent::Posting(posting)
        }
    }

    /// The call that it posts next.
    pub fn call(&self) -> Call
        ensures { result ≡ tell_posted self.now }
    {
        match self {
            TellParent::Looking(row, _) => calls::load(words::group_place(*row)),
            TellParent::Posting(posting) => posting.call(),
            TellParent::Done | TellParent::Rest => calls::rest(),
        }
    }

    // Where it goes with a reply, and the event that stands in the turn.
    fn turn(self, reply: &Reply) -> (TellParent, Option<Event>)
        ensures { (record { part = result.0; event = result.1 }) ≡ tell_after self reply.now }
    {
        match self {
            TellParent::Looking(_, by) => match reply {
                Reply::Word(word) => (TellParent::looked(by, *word), None),
                _ => (TellParent::Rest, None),
            },
            TellParent::Posting(mut posting) => {
                let event = posting.after_reply(reply);
                (TellParent::posting(posting), event)
            }
            TellParent::Done | TellParent::Rest => (self, None),
        }
    }

    /// Goes on with a reply, with the event that stands in the turn.
    pub fn after_reply(&mut self, reply: &Reply) -> Option<Event>
        ensures { (record { part = self.new; event = result }) ≡ tell_after self.old reply.now }
    {
        let (next, event) = self.turn(reply);
        *self = next;
        event
    }
}

impl Part for TellParent {
    ghost use Rattle.roster.specs.TellParent.{tell_posted, tell_after, tell_rank};
    ghost use Rattle.roster.specs.TellParentLaws.{tell_lowers};
    ghost use Rattle.roster.specs.Turns.{Went, went_lowers, went_keeps};

    ghost rank = { tell_rank };

    ghost posted_of = { tell_posted };

    ghost goes = { λ p o s r q n a. Went (tell_after p r) o q n a };

    ghost lowers_rank = { λ p q o n s r a _ g keeps.
        went_lowers tell_rank tell_posted p q o n r a (tell_after p r) (tell_lowers p r) g keeps };

    ghost keeps_lengths = { λ p q o n s r a _ g. went_keeps (tell_after p r) o q n a g };

    fn posted(&self) -> Call {
        self.call()
    }

    fn after(&mut self, _own: &mut Own, _setup: &Setup, reply: &Reply) -> After {
        let event = self.after_reply(reply);
        After {
            event,
            finished: self.is_finished(),
        }
    }
}
