//! Posting a signal to a row, with what follows from it.

ghost use Rattle.std.specs.Prelude.{◌≡◌, ◌<◌, ◌↔◌, IsTrue};

use crate::calls;
use crate::post_one::{PostOne, PostStep};
use crate::signal::Signal;
use crate::tell_parent::TellParent;
use crate::wake::Poster;
use w32_base::{After, Call, Event, Own, Part, Reply, RowNo, Setup};

/// What came of a post.
#[derive(Clone, Copy, Debug, PartialEq, Eq)]
pub enum Posted {
    /// The row is no process. No event stood.
    Absent,
    /// The process is a zombie, which gets nothing. No event stood.
    Died,
    /// The signal is posted, and the event stood.
    Done,
}

/// Posts a signal to the process of a row, with an event in the turn in which it is posted, and wakes it. Where that
/// continues a stopped process, it posts CHLD to that one's parent.
#[derive(Clone, Copy, Debug, PartialEq, Eq)]
pub enum Post {
    /// Posts the signal and wakes the process.
    Posting(PostOne),
    /// Posts CHLD to its parent.
    Telling(TellParent),
    /// Is done.
    Finished(Posted),
}

impl Post {
    ghost use Rattle.roster.specs.declared.post_one.PostStep.TheVariants.{Looking};
    ghost use Rattle.roster.specs.Post.{post_posted, post_posts, post_tells, post_after, post_rank, post_answer};

    /// At its start.
    pub fn new(row: RowNo, signal: Signal, event: Event, by: Poster) -> Post
        ensures { result ≡ Post.Posting (record
            { row = row; signal = signal; event = event; by = by; step = Looking }) }
    {
        Post::Posting(PostOne::new(row, signal, event, by))
    }

    /// What came of it; none before it is done.
    pub fn answer(self) -> Option<Posted>
        ensures { result ≡ post_answer self }
    {
        match self {
            Post::Finished(answer) => Some(answer),
            _ => None,
        }
    }

    /// Whether it is done.
    pub fn is_finished(self) -> bool
        ensures { IsTrue result ↔ (post_rank self ≡ 0) }
    {
        matches!(self, Post::Finished(_))
    }

    // The posting goes on, or is over.
    fn posting(posting: PostOne) -> Post
        ensures { result ≡ post_posts posting }
    {
        match posting.step {
            PostStep::Absent => Post::Finished(Posted::Absent),
            PostStep::Died => Post::Finished(Posted::Died),
            PostStep::Posted(false) => Post::Finished(Posted::Done),
            PostStep::Posted(true) => Post::Telling(TellParent::new(posting.row, posting.by)),
            _ => Post::Posting(posting),
        }
    }

    // The telling goes on, or is over.
    fn telling(telling: TellParent) -> Post
        ensures { result ≡ post_tells telling }
    {
        match telling {
            TellParent::Done => Post::Finished(Posted::Done),
            other => Post::Telling(other),
        }
    }

    // Where it goes with a reply, and the event that stands in the turn.
    fn turn(self, reply: &Reply) -> (Post, Option<Event>)
        ensures { (record { part = result.0; event = result.1 }) ≡ post_after self reply.now }
    {
        match self {
            Post::Posting(mut posting) => {
                let event = posting.after_reply(reply);
                (Post::posting(posting), event)
            }
            Post::Telling(mut telling) => {
                let event = telling.after_reply(reply);
                (Post::telling(telling), event)
            }
            Post::Finished(answer) => (Post::Finished(answer), None),
        }
    }

    /// The call that it posts next.
    pub fn call(&self) -> Call
        ensures { result ≡ post_posted self.now }
    {
        match self {
            Post::Posting(posting) => posting.call(),
            Post::Telling(telling) => telling.call(),
            Post::Finished(_) => calls::rest(),
        }
    }
}

impl Part for Post {
    ghost use Rattle.roster.specs.Post.{post_posted, post_after, post_rank};
    ghost use Rattle.roster.specs.PostLaws.{post_lowers};
    ghost use Rattle.roster.specs.Turns.{Went, went_lowers, went_keeps};

    ghost rank = { post_rank };

    ghost posted_of = { post_posted };

    ghost goes = { λ p o s r q n a. Went (post_after p r) o q n a };

    ghost lowers_rank = { λ p q o n s r a _ g keeps.
        went_lowers post_rank post_posted p q o n r a (post_after p r) (post_lowers p r) g keeps };

    ghost keeps_lengths = { λ p q o n s r a _ g. went_keeps (post_after p r) o q n a g };

    fn posted(&self) -> Call {
        self.call()
    }

    fn after(&mut self, _own: &mut Own, _setup: &Setup, reply: &Reply) -> After {
        let (next, event) = self.turn(reply);
        *self = next;
        After {
            event,
            finished: self.is_finished(),
        }
    }
}
