//! The start of an image.

ghost use Rattle.std.specs.Prelude.{◌≡◌, ◌<◌, ◌≤◌, ◌+◌, ◌↔◌, IsTrue, length};
ghost use Rattle.vm_spec.specs.Image.{word_at};
ghost use Rattle.layer_actor.specs.Start.{is_first, by_handle};

use layer_turns::{load, rest};
use w32_base::{After, Call, HandleNo, Own, Part, Reply, Setup, WinNo};

/// Where the start of an image is.
#[derive(Clone, Copy, Debug, PartialEq, Eq)]
pub enum StartStep {
    /// Looks at the number of claimed rows.
    Opening,
    /// Makes the event that wakes the main thread.
    MakingWake,
    /// Makes the mutex over mask, actions and discards.
    MakingMutex,
    /// Makes the wake pipe.
    MakingPipe,
    /// Makes the event that tells the watcher of a change.
    MakingChange,
    /// Opens its own Win32 process.
    OpeningItself,
    /// Lets the signal thread go. The handle is the own process's.
    ResumingSignals(HandleNo),
    /// Lets the watcher go.
    ResumingWatcher(HandleNo),
    /// Closes the handle.
    Closing(HandleNo),
    /// Is done.
    Done,
    /// Has nothing to do any more.
    Rest,
}

/// The start of an image: it makes the objects that every layer process has, and lets its other threads go. Built for
/// the first process, whose start record is all zeros.
#[derive(Clone, Copy, Debug, PartialEq, Eq)]
pub struct Start {
    /// The image.
    pub image: WinNo,
    /// Where it is.
    pub step: StartStep,
}

// The number in four bytes of the scratch region from a place on.
#[tactic(auto, unfolding(vm_spec::specs::Image::word_at))]
fn scratch_word(own: &Own, place: usize) -> u32
    requires { place + 4 ≤ length own.now.scratch }
    ensures { result ≡ word_at own.now.scratch place }
{
    own.scratch.word(place)
}

// Whether the start record is the first process's.
fn is_first(own: &Own) -> bool
    ensures { result ≡ is_first own.now }
{
    own.scratch.len() == 512
        && scratch_word(own, 352) == 0
        && scratch_word(own, 356) == 0
        && scratch_word(own, 360) == 0
}

// With a new object.
fn by_handle(next: StartStep, reply: &Reply) -> StartStep
    ensures { result ≡ by_handle StartStep.Rest (λ h. next) reply.now }
{
    match reply {
        Reply::Handle(_) => next,
        _ => StartStep::Rest,
    }
}

impl Start {
    ghost use Rattle.layer_actor.specs.declared.start.StartStep.TheVariants.{Opening};
    ghost use Rattle.layer_actor.specs.Start.{start_posted, start_opened, start_step_after, start_after, start_rank};

    /// At its start, of an image.
    pub fn new(image: WinNo) -> Start
        ensures { result ≡ (record { image = image; step = Opening }) }
    {
        Start {
            image,
            step: StartStep::Opening,
        }
    }

    /// Whether it is done.
    pub fn is_finished(&self) -> bool
        ensures { IsTrue result ↔ (start_rank self.now ≡ 0) }
    {
        matches!(self.step, StartStep::Done)
    }

    // With its start record.
    fn opened(own: &Own) -> StartStep
        ensures { result ≡ start_opened own.now }
    {
        if is_first(own) {
            StartStep::MakingWake
        } else {
            StartStep::Rest
        }
    }

    // Where it goes with a reply over the own bytes.
    fn next(&self, own: &Own, reply: &Reply) -> StartStep
        ensures { result ≡ start_step_after self.now.step own.now reply.now }
    {
        match self.step {
            StartStep::Opening => match reply {
                Reply::Word(_) => Start::opened(own),
                _ => StartStep::Rest,
            },
            StartStep::MakingWake => by_handle(StartStep::MakingMutex, reply),
            StartStep::MakingMutex => by_handle(StartStep::MakingPipe, reply),
            StartStep::MakingPipe => match reply {
                Reply::Two(_, _) => StartStep::MakingChange,
                _ => StartStep::Rest,
            },
            StartStep::MakingChange => by_handle(StartStep::OpeningItself, reply),
            StartStep::OpeningItself => match reply {
                Reply::Handle(process) => StartStep::ResumingSignals(*process),
                _ => StartStep::Rest,
            },
            StartStep::ResumingSignals(process) => match reply {
                Reply::Count(_) => StartStep::ResumingWatcher(process),
                _ => StartStep::Rest,
            },
            StartStep::ResumingWatcher(process) => match reply {
                Reply::Count(_) => StartStep::Closing(process),
                _ => StartStep::Rest,
            },
            StartStep::Closing(_) => match reply {
                Reply::Done => StartStep::Done,
                _ => StartStep::Rest,
            },
            StartStep::Done | StartStep::Rest => self.step,
        }
    }

    /// The call that it posts next.
    pub fn call(&self) -> Call
        ensures { result ≡ start_posted self.now }
    {
        match self.step {
            StartStep::Opening => load(0),
            StartStep::MakingWake | StartStep::MakingChange => Call::Event(false, false),
            StartStep::MakingMutex => Call::Mutex(false),
            StartStep::MakingPipe => Call::Pipe,
            StartStep::OpeningItself => Call::Open(self.image),
            StartStep::ResumingSignals(process) => Call::Resume(process, 1),
            StartStep::ResumingWatcher(process) => Call::Resume(process, 2),
            StartStep::Closing(process) => Call::Close(process),
            StartStep::Done | StartStep::Rest => rest(),
        }
    }

    /// Where it goes with a reply over the own bytes, which stay.
    pub fn turn(&mut self, own: &Own, reply: &Reply)
        ensures { self.new ≡ start_after self.old own.now reply.now }
    {
        self.step = self.next(own, reply);
    }
}

impl Part for Start {
    ghost use Rattle.layer_actor.specs.Start.{start_posted, start_after, start_rank};
    ghost use Rattle.layer_actor.specs.StartLaws.{start_lowers};
    ghost use Rattle.roster.specs.Turns.{Went, quietly, went_lowers, went_keeps};

    ghost rank = { start_rank };

    ghost posted_of = { start_posted };

    ghost goes = { λ p o s r q n a. Went (quietly (start_after p o r)) o q n a };

    ghost lowers_rank = { λ p q o n s r a _ g keeps.
        went_lowers start_rank start_posted p q o n r a (quietly (start_after p o r)) (start_lowers p o r) g keeps };

    ghost keeps_lengths = { λ p q o n s r a _ g. went_keeps (quietly (start_after p o r)) o q n a g };

    fn posted(&self) -> Call {
        self.call()
    }

    fn after(&mut self, own: &mut Own, _setup: &Setup, reply: &Reply) -> After {
        self.turn(own, reply);
        After {
            event: None,
            finished: self.is_finished(),
        }
    }
}
