//! Posting a signal to one row.

ghost use Rattle.std.specs.Prelude.{◌≡◌, ◌<◌, ◌≤◌, ◌↔◌, IsTrue};

use crate::signal::Signal;
use crate::wake::{Poster, Wake};
use crate::{calls, words};
use pinfo_word::{Main, Op, RowKind, trans};
use w32_base::{After, Call, Event, Own, Part, Reply, RowNo, Setup};

/// Where the posting of a signal to one row is.
#[derive(Clone, Copy, Debug, PartialEq, Eq)]
pub enum PostStep {
    /// Looks at the row's main word.
    Looking,
    /// Posts the signal, by another word in the place of the one that was found, and whether that continues a stopped
    /// process.
    Trying(u64, u64, bool),
    /// Wakes the process. The signal is posted, and whether that continued a stopped process.
    Waking(Wake, bool),
    /// Is done: the row is no process.
    Absent,
    /// Is done: the process is a zombie, and gets nothing.
    Died,
    /// Is done: the signal is posted and the process woken, and whether that continued a stopped process.
    Posted(bool),
    /// Has nothing to do any more.
    Rest,
}

/// Posts a signal to the process of a row, with an event in the turn in which it is posted, and then wakes it.
#[derive(Clone, Copy, Debug, PartialEq, Eq)]
pub struct PostOne {
    /// The row.
    pub row: RowNo,
    /// The signal.
    pub signal: Signal,
    /// The event.
    pub event: Event,
    /// Who posts it.
    pub by: Poster,
    /// Where it is.
    pub step: PostStep,
}

impl PostStep {
    ghost use Rattle.roster.specs.PostOne.{post_step_rank, post_wakes};

    /// Whether the posting is done.
    pub fn is_final(self) -> bool
        ensures { IsTrue result ↔ (post_step_rank self ≡ 0) }
    {
        matches!(
            self,
            PostStep::Absent | PostStep::Died | PostStep::Posted(_)
        )
    }

    // The waking goes on, or is over.
    fn waking(waking: Wake, continued: bool) -> PostStep
        ensures { result ≡ post_wakes waking continued }
    {
        match waking {
            Wake::Done => PostStep::Posted(continued),
            other => PostStep::Waking(other, continued),
        }
    }
}

impl PostOne {
    ghost use Rattle.layer_spec.specs.Transitions.{Post, trans};
    ghost use Rattle.pinfo_word.specs.Shown.{shown_main};
    ghost use Rattle.roster.specs.Turns.{Turn};
    ghost use Rattle.roster.specs.PostOne.{post_one_posted, post_tries, post_looked, post_tried, post_step_after};
    ghost use Rattle.roster.specs.PostOne.{post_one_after, post_one_rank};

    /// At its start.
    pub fn new(row: RowNo, signal: Signal, event: Event, by: Poster) -> PostOne
        ensures { result ≡ (record { row = row; signal = signal; event = event; by = by; step = PostStep.Looking }) }
    {
        PostOne {
            row,
            signal,
            event,
            by,
            step: PostStep::Looking,
        }
    }

    /// Whether it is done.
    pub fn is_finished(self) -> bool
        ensures { IsTrue result ↔ (post_one_rank self ≡ 0) }
    {
        self.step.is_final()
    }

    // With the main word by which it changes.
    fn tries(&self, old: u64, main: &Main, continued: bool) -> PostStep
        ensures { result ≡ post_tries old continued (trans (shown_main main.now) (Post self.now.signal)) }
    {
        match trans(main, &Op::Post(self.signal.get())) {
            Some(new) => PostStep::Trying(old, new.encode(), continued),
            None => PostStep::Absent,
        }
    }

    // With the row's main word.
    fn looked(&self, word: u64) -> PostStep
        ensures { result ≡ post_looked self.now.signal word }
    {
        let Some(main) = Main::decode(word) else {
            return PostStep::Absent;
        };
        match main.kind {
            RowKind::Running => self.tries(word, &main, false),
            RowKind::Stopped => self.tries(word, &main, self.signal.get() == 18),
            RowKind::Zombie => PostStep::Died,
            RowKind::Free | RowKind::Held | RowKind::Gone => PostStep::Absent,
        }
    }

    // With the word that its compare-exchange found.
    fn tried(&self, old: u64, continued: bool, word: u64) -> (PostStep, Option<Event>)
        ensures { (record { part = result.0; event = result.1 }) ≡ post_tried self.now old continued word }
    {
        if word == old {
            let waking = Wake::new(self.by, self.row);
            (PostStep::waking(waking, continued), Some(self.event))
        } else {
            (self.looked(word), None)
        }
    }

    // Where it goes with a reply, and the event that stands in the turn.
    fn step_after(&self, reply: &Reply) -> (PostStep, Option<Event>)
        ensures { (record { part = result.0; event = result.1 }) ≡ post_step_after self.now self.now.step reply.now }
    {
        match self.step {
            PostStep::Looking => match reply {
                Reply::Word(word) => (self.looked(*word), None),
                _ => (PostStep::Rest, None),
            },
            PostStep::Trying(old, _, continued) => match reply {
                Reply::Word(word) => self.tried(old, continued, *word),
                _ => (PostStep::Rest, None),
            },
            PostStep::Waking(waking, continued) => {
                let step = PostStep::waking(waking.after_reply(reply), continued);
                (step, None)
            }
            PostStep::Absent | PostStep::Died | PostStep::Posted(_) | PostStep::Rest => {
                (self.step, None)
            }
        }
    }

    /// The call that it posts next.
    pub fn call(&self) -> Call
        ensures { result ≡ post_one_posted self.now }
    {
        match self.step {
            PostStep::Looking => calls::load(words::main_place(self.row)),
            PostStep::Trying(old, new, _) => calls::exchange(words::main_place(self.row), old, new),
            PostStep::Waking(waking, _) => waking.call(),
            PostStep::Absent | PostStep::Died | PostStep::Posted(_) | PostStep::Rest => {
                calls::rest()
            }
        }
    }

    /// Goes on with a reply, with the event that stands in the turn.
    pub fn after_reply(&mut self, reply: &Reply) -> Option<Event>
        ensures { (record { part = self.new; event = result }) ≡ post_one_after self.old reply.now }
    {
        let (step, event) = self.step_after(reply);
        self.step = step;
        event
    }
}

impl Part for PostOne {
    ghost use Rattle.roster.specs.PostOne.{post_one_posted, post_one_after, post_one_rank};
    ghost use Rattle.roster.specs.PostOneLaws.{post_one_lowers};
    ghost use Rattle.roster.specs.Turns.{Went, went_lowers, went_keeps};

    ghost rank = { post_one_rank };

    ghost posted_of = { post_one_posted };

    ghost goes = { λ p o s r q n a. Went (post_one_after p r) o q n a };

    ghost lowers_rank = { λ p q o n s r a _ g keeps.
        went_lowers post_one_rank post_one_posted p q o n r a (post_one_after p r) (post_one_lowers p r) g keeps };

    ghost keeps_lengths = { λ p q o n s r a _ g. went_keeps (post_one_after p r) o q n a g };

    fn posted(&self) -> Call {
        self.call()
    }

    fn after(&mut self, _own: &mut Own, _setup: &Setup, reply: &Reply) -> After {
        let event = self.after_reply(reply);
        After {
            event,
            finished: self.is_finished(),
        }
    }
}
