//! kill with one process as its target.

ghost use Rattle.std.specs.Prelude.{◌≡◌, ◌<◌, ◌+◌, ◌↔◌, IsTrue};
ghost use Rattle.kill_calls.specs.Kill.{kill_event};

use layer_turns::{answer, is_process, load, main_place, post_turn, rest, result_of};
use roster::{Post, Posted, Poster, Signal};
use w32_base::{
    Acting, After, Answer, Call, Errno, Event, Number, Own, Part, Pid, Reply, RowNo, Setup,
};

/// Where a kill of one process is.
#[derive(Clone, Copy, Debug, PartialEq, Eq)]
pub enum KillStep {
    /// Looks at the target's main word, which answers: the call is a check only.
    Checking,
    /// Posts the signal. The call isn't answered yet.
    Posting(Post),
    /// The call is answered: wakes the target, and does what follows from the post.
    Ending(Post),
    /// Is done.
    Done,
    /// Has nothing to do any more.
    Rest,
}

/// A program's kill of one process (POSIX.1-2017, XSH kill). It is answered in the turn in which the signal is posted,
/// or in which the target's main word shows a zombie, which gets nothing, or no process. For a check only, the
/// target's main word alone is looked at.
#[derive(Clone, Copy, Debug, PartialEq, Eq)]
pub struct KillOne {
    /// The process that calls.
    pub by: Pid,
    /// The row of the target.
    pub target: RowNo,
    /// The signal; none for a check only.
    pub signal: Option<Signal>,
    /// Where it is.
    pub step: KillStep,
}

// The event of a kill with its answer.
fn kill_event(by: Pid, target: RowNo, signal: &Option<Signal>, answer: Answer) -> Event
    ensures { result ≡ kill_event by target signal.now answer }
{
    let number = match signal {
        Some(signal) => signal.get(),
        None => 0,
    };
    Event::Kill(
        Acting::process(by),
        Number::unsigned(u32::from(target.pid().get())),
        Number::unsigned(u32::from(number)),
        answer,
    )
}

impl KillStep {
    ghost use Rattle.kill_calls.specs.Kill.{kill_first, kill_ends};

    // The first step.
    fn first(by: Pid, target: RowNo, signal: &Option<Signal>) -> KillStep
        ensures { result ≡ kill_first by target signal.now }
    {
        match signal {
            None => KillStep::Checking,
            Some(number) => {
                let event = kill_event(by, target, signal, Answer::Zero);
                KillStep::Posting(Post::new(target, *number, event, Poster::Main(by.row())))
            }
        }
    }

    // After the answer the post goes on, or is over.
    fn ending(post: Post) -> KillStep
        ensures { result ≡ kill_ends post }
    {
        match post {
            Post::Finished(_) => KillStep::Done,
            other => KillStep::Ending(other),
        }
    }
}

impl KillOne {
    ghost use Rattle.layer_turns.specs.OwnTurns.{OwnTurn};
    ghost use Rattle.kill_calls.specs.Kill.{kill_begun, kill_answered, kill_checked, kill_waits, kill_by_post};
    ghost use Rattle.kill_calls.specs.Kill.{kill_step_after, kill_after, kill_posted, kill_rank};

    /// At its start: a process's kill of the process with a row, with a signal, or with none for a check only.
    pub fn new(by: Pid, target: RowNo, signal: Option<Signal>) -> KillOne
        ensures { result ≡ kill_begun by target signal }
    {
        let step = KillStep::first(by, target, &signal);
        KillOne {
            by,
            target,
            signal,
            step,
        }
    }

    /// Whether it is done.
    pub fn is_finished(&self) -> bool
        ensures { IsTrue result ↔ (kill_rank self.now ≡ 0) }
    {
        matches!(self.step, KillStep::Done)
    }

    // The call has an answer.
    fn answered(&self, next: KillStep, own: &mut Own, answered: Answer) -> (KillStep, Option<Event>)
        ensures { (record { part = result.0; own = own.new; event = result.1 })
            ≡ kill_answered self.now next own.old answered }
    {
        if answer(own, result_of(answered)) {
            let event = kill_event(self.by, self.target, &self.signal, answered);
            (next, Some(event))
        } else {
            (KillStep::Rest, None)
        }
    }

    // With the target's main word, where the call is a check only.
    fn checked(&self, own: &mut Own, word: u64) -> (KillStep, Option<Event>)
        ensures { (record { part = result.0; own = own.new; event = result.1 }) ≡ kill_checked self.now own.old word }
    {
        let answer = if is_process(word) {
            Answer::Zero
        } else {
            Answer::Error(Errno::ESRCH)
        };
        self.answered(KillStep::Done, own, answer)
    }

    // The post goes on without its event.
    fn waits(&self, own: &mut Own, post: Post) -> (KillStep, Option<Event>)
        ensures { (record { part = result.0; own = own.new; event = result.1 }) ≡ kill_waits self.now own.old post }
    {
        match post {
            Post::Finished(Posted::Absent) => {
                self.answered(KillStep::Done, own, Answer::Error(Errno::ESRCH))
            }
            Post::Finished(Posted::Died) => self.answered(KillStep::Done, own, Answer::Zero),
            other => (KillStep::Posting(other), None),
        }
    }

    // With a turn of the post before the answer.
    fn posted(&self, own: &mut Own, turn: (Post, Option<Event>)) -> (KillStep, Option<Event>)
        ensures { (record { part = result.0; own = own.new; event = result.1 })
            ≡ kill_by_post self.now own.old (record { part = turn.0; event = turn.1 }) }
    {
        match turn.1 {
            None => self.waits(own, turn.0),
            Some(_) => self.answered(KillStep::ending(turn.0), own, Answer::Zero),
        }
    }

    // Where it goes with a reply over the own bytes, and the event that stands in the turn.
    fn step_after(&self, own: &mut Own, setup: &Setup, reply: &Reply) -> (KillStep, Option<Event>)
        ensures { (record { part = result.0; own = own.new; event = result.1 })
            ≡ kill_step_after self.now self.now.step own.old reply.now }
    {
        match self.step {
            KillStep::Checking => match reply {
                Reply::Word(word) => self.checked(own, *word),
                _ => (KillStep::Rest, None),
            },
            KillStep::Posting(post) => {
                let turn = post_turn(post, own, setup, reply);
                self.posted(own, turn)
            }
            KillStep::Ending(post) => {
                let (next, event) = post_turn(post, own, setup, reply);
                (KillStep::ending(next), event)
            }
            KillStep::Done | KillStep::Rest => (self.step, None),
        }
    }

    /// The call that it posts next.
    pub fn call(&self) -> Call
        ensures { result ≡ kill_posted self.now }
    {
        match self.step {
            KillStep::Checking => load(main_place(self.target)),
            KillStep::Posting(post) | KillStep::Ending(post) => post.call(),
            KillStep::Done | KillStep::Rest => rest(),
        }
    }

    /// Goes on with a reply over the own bytes, with the event that stands in the turn.
    pub fn turn(&mut self, own: &mut Own, setup: &Setup, reply: &Reply) -> Option<Event>
        ensures { (record { part = self.new; own = own.new; event = result }) ≡ kill_after self.old own.old reply.now }
    {
        let (step, event) = self.step_after(own, setup, reply);
        self.step = step;
        event
    }
}

impl Part for KillOne {
    ghost use Rattle.kill_calls.specs.Kill.{kill_posted, kill_after, kill_rank};
    ghost use Rattle.kill_calls.specs.KillLaws.{kill_fair};
    ghost use Rattle.layer_turns.specs.OwnTurns.{WentOn};
    ghost use Rattle.layer_turns.specs.OwnTurnsLaws.{fair_lowers, fair_keeps};

    ghost rank = { kill_rank };

    ghost posted_of = { kill_posted };

    ghost goes = { λ p o s r q n a. WentOn (kill_after p o r) q n a };

    ghost lowers_rank = { λ p q o n s r a _ g keeps.
        fair_lowers kill_rank (kill_posted p) (kill_rank p) q o n r a (kill_after p o r) (kill_fair p r o) g keeps };

    ghost keeps_lengths = { λ p q o n s r a _ g.
        fair_keeps kill_rank (kill_posted p) (kill_rank p) q o n r a (kill_after p o r) (kill_fair p r o) g };

    fn posted(&self) -> Call {
        self.call()
    }

    fn after(&mut self, own: &mut Own, setup: &Setup, reply: &Reply) -> After {
        let event = self.turn(own, setup, reply);
        After {
            event,
            finished: self.is_finished(),
        }
    }
}
