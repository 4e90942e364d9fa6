//! Waking the process of a row.

ghost use Rattle.std.specs.Prelude.{◌≡◌, ◌<◌, ◌≤◌, ◌^◌, ◌↔◌, IsTrue};

use crate::{calls, words};
use pinfo_word::Main;
use w32_base::{After, Call, HandleNo, Own, Part, Reply, RowNo, Setup, WinNo};

/// Who posts and wakes.
#[derive(Clone, Copy, Debug, PartialEq, Eq)]
pub enum Poster {
    /// The main thread of the process with this row.
    Main(RowNo),
    /// The child watcher of the process with this row.
    Watcher(RowNo),
    /// The console.
    Console,
}

/// Puts a byte into the wake pipe of a row's process. There is nobody to wake where the row is no live process, where
/// its image has ended or hasn't made its pipe yet, and where it is the poster's own main thread. A full pipe is no
/// fault.
#[derive(Clone, Copy, Debug, PartialEq, Eq)]
pub enum Wake {
    /// Sets the event of the own main thread.
    Setting,
    /// Looks at the row's main word.
    Looking(RowNo),
    /// Opens the image.
    Opening(WinNo),
    /// Makes a handle on its wake pipe. The first handle is the image's.
    Copying(HandleNo),
    /// Puts a byte into the pipe, which the second handle names.
    Putting(HandleNo, HandleNo),
    /// Closes the pipe's handle.
    ClosingPipe(HandleNo, HandleNo),
    /// Closes the image's handle.
    Closing(HandleNo),
    /// Is done.
    Done,
    /// Has nothing to do any more.
    Rest,
}

impl Wake {
    ghost use Rattle.roster.specs.Wake.{wake_begun, wake_posted, wake_looked, wake_opened, wake_copied, wake_put};
    ghost use Rattle.roster.specs.Wake.{wake_after, wake_rank};
    ghost use Rattle.layer_spec.specs.Decoding.{main_of};

    /// Where the waking of a row begins.
    pub fn new(by: Poster, row: RowNo) -> Wake
        ensures { result ≡ wake_begun by row }
    {
        match by {
            Poster::Main(own) => {
                if row.get() == own.get() {
                    Wake::Done
                } else {
                    Wake::Looking(row)
                }
            }
            Poster::Watcher(own) => {
                if row.get() == own.get() {
                    Wake::Setting
                } else {
                    Wake::Looking(row)
                }
            }
            Poster::Console => Wake::Looking(row),
        }
    }

    /// Whether it is done.
    pub fn is_finished(self) -> bool
        ensures { IsTrue result ↔ (wake_rank self ≡ 0) }
    {
        self == Wake::Done
    }

    // With the row's main word.
    fn looked(word: u64) -> Wake
        ensures { result ≡ wake_looked (main_of word) }
    {
        match Main::decode(word) {
            Some(main) if words::is_live_kind(main.kind) => Wake::Opening(WinNo::new(main.image)),
            _ => Wake::Done,
        }
    }

    // With the handle of the image.
    fn opened(reply: &Reply) -> Wake
        ensures { result ≡ wake_opened reply.now }
    {
        match reply {
            Reply::Handle(process) => Wake::Copying(*process),
            Reply::Unknown => Wake::Done,
            _ => Wake::Rest,
        }
    }

    // With the handle on its wake pipe.
    fn copied(process: HandleNo, reply: &Reply) -> Wake
        ensures { result ≡ wake_copied process reply.now }
    {
        match reply {
            Reply::Handle(pipe) => Wake::Putting(process, *pipe),
            Reply::Gone | Reply::BadHandle => Wake::Closing(process),
            _ => Wake::Rest,
        }
    }

    /// The call that it posts next.
    pub fn call(self) -> Call
        ensures { result ≡ wake_posted self }
    {
        match self {
            Wake::Setting => calls::set(),
            Wake::Looking(row) => calls::load(words::main_place(row)),
            Wake::Opening(image) => Call::Open(image),
            Wake::Copying(process) => Call::Dup(process, HandleNo::new(calls::PIPE)),
            Wake::Putting(_, pipe) => Call::Put(pipe, 0),
            Wake::ClosingPipe(_, pipe) => Call::Close(pipe),
            Wake::Closing(process) => Call::Close(process),
            Wake::Done | Wake::Rest => calls::rest(),
        }
    }

    /// Where it goes with a reply.
    pub fn after_reply(self, reply: &Reply) -> Wake
        ensures { result ≡ wake_after self reply.now }
    {
        match self {
            Wake::Setting | Wake::Closing(_) => match reply {
                Reply::Done => Wake::Done,
                _ => Wake::Rest,
            },
            Wake::Looking(_) => match reply {
                Reply::Word(word) => Wake::looked(*word),
                _ => Wake::Rest,
            },
            Wake::Opening(_) => Wake::opened(reply),
            Wake::Copying(process) => Wake::copied(process, reply),
            Wake::Putting(process, pipe) => match reply {
                Reply::Done | Reply::Full | Reply::NoReader => Wake::ClosingPipe(process, pipe),
                _ => Wake::Rest,
            },
            Wake::ClosingPipe(process, _) => match reply {
                Reply::Done => Wake::Closing(process),
                _ => Wake::Rest,
            },
            Wake::Done | Wake::Rest => self,
        }
    }
}

impl Part for Wake {
    ghost use Rattle.roster.specs.Wake.{wake_posted, wake_after, wake_rank};
    ghost use Rattle.roster.specs.WakeLaws.{wake_lowers};
    ghost use Rattle.roster.specs.Turns.{Went, quietly, went_lowers, went_keeps};

    ghost rank = { wake_rank };

    ghost posted_of = { wake_posted };

    ghost goes = { λ p o s r q n a. Went (quietly (wake_after p r)) o q n a };

    ghost lowers_rank = { λ p q o n s r a _ g keeps.
        went_lowers wake_rank wake_posted p q o n r a (quietly (wake_after p r)) (wake_lowers p r) g keeps };

    ghost keeps_lengths = { λ p q o n s r a _ g. went_keeps (quietly (wake_after p r)) o q n a g };

    fn posted(&self) -> Call {
        self.call()
    }

    fn after(&mut self, _own: &mut Own, _setup: &Setup, reply: &Reply) -> After {
        *self = self.after_reply(reply);
        After {
            event: None,
            finished: self.is_finished(),
        }
    }
}
