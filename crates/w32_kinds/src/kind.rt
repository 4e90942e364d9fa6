//! The objects that handles name, as the machine keeps them.

ghost use Rattle.std.specs.Prelude.{◌≡◌, ◌+◌, ◌-◌, ◌<◌, if◌then◌else◌};
ghost use Rattle.win32_spec.specs.Ready.{is_first_end};
ghost use Rattle.w32_sync.specs.Ends.{reply_of_put, reply_of_get};
ghost use Rattle.w32_kinds.specs.Kinds.{reply_of_word};

use tty_line::Tty;
use w32_base::{ObjectNo, Reply, Slot, ThreadNo, WinNo};
use w32_section::{BadIndex, Section};
use w32_sync::{GetFault, Pipe, PipeEnd, PutFault, Took, WinEvent, WinMutex};

pub mod terminals;

/// How many words the shared section has.
pub const WORDS: usize = 12_001;

/// An object.
#[derive(Drop)]
pub enum Kind {
    /// The shared section.
    Section(Section<WORDS>),
    /// An event.
    Event(WinEvent),
    /// A mutex.
    Mutex(WinMutex),
    /// A pipe.
    Pipe(Pipe),
    /// The process with this number, which lives or lived in this slot.
    Process(WinNo, Slot),
    /// The terminal.
    Terminal(Box<Tty>),
}

impl Kind {
    ghost use Rattle.w32_kinds.specs.Kinds.{Loads, Exchanges, Increases, Sets, Resets, Releases, Puts, Gets};
    ghost use Rattle.w32_kinds.specs.Kinds.{MayBeTaken};
    ghost use Rattle.w32_kinds.specs.Kinds.{Takes, IsWord, IsProcess, ends_on, with_ends, kind_left_by};

    /// Reads a word of a section.
    pub fn load(&self, i: u32) -> Reply
        ensures { Loads i self.now result }
    {
        match self {
            Kind::Section(section) => word_reply(section.load(i)),
            _ => Reply::BadHandle,
        }
    }

    /// The word at an index of a section.
    pub fn word(&self, i: u32) -> Result<u64, BadIndex>
        ensures { IsWord i self.now result }
    {
        match self {
            Kind::Section(section) => section.load(i),
            _ => Err(BadIndex),
        }
    }

    /// The process that it is of, with the slot that this lives or lived in.
    pub fn process(&self) -> Option<(WinNo, Slot)>
        ensures { IsProcess self.now result }
    {
        match self {
            Kind::Process(w, slot) => Some((*w, *slot)),
            _ => None,
        }
    }

    /// Stores `new` in a word of a section where it is `old`.
    pub fn compare_exchange(&mut self, i: u32, old: u64, new: u64) -> Reply
        ensures { Exchanges i old new self.old result self.new }
    {
        match self {
            Kind::Section(section) => word_reply(section.cas(i, old, new)),
            _ => Reply::BadHandle,
        }
    }

    /// Adds `n` to a word of a section.
    pub fn fetch_add(&mut self, i: u32, n: u64) -> Reply
        ensures { Increases i n self.old result self.new }
    {
        match self {
            Kind::Section(section) => word_reply(section.add(i, n)),
            _ => Reply::BadHandle,
        }
    }

    /// Sets an event.
    pub fn set(&mut self) -> Reply
        ensures { Sets self.old result self.new }
    {
        match self {
            Kind::Event(event) => {
                event.set();
                Reply::Done
            }
            _ => Reply::BadHandle,
        }
    }

    /// Resets an event.
    pub fn reset(&mut self) -> Reply
        ensures { Resets self.old result self.new }
    {
        match self {
            Kind::Event(event) => {
                event.reset();
                Reply::Done
            }
            _ => Reply::BadHandle,
        }
    }

    /// Frees a mutex that the caller owns.
    pub fn release(&mut self, process: WinNo, thread: ThreadNo) -> Reply
        ensures { Releases process thread self.old result self.new }
    {
        match self {
            Kind::Mutex(mutex) => match mutex.release((process, thread)) {
                Ok(()) => Reply::Done,
                Err(_) => Reply::NotOwner,
            },
            _ => Reply::BadHandle,
        }
    }

    /// Puts a byte into a pipe, by the end that a handle names.
    pub fn put(&mut self, end: PipeEnd, b: u8) -> Reply
        ensures { Puts end b self.old result self.new }
    {
        match self {
            Kind::Pipe(pipe) => match end {
                PipeEnd::Write => put_reply(pipe.put(b)),
                PipeEnd::Read => Reply::BadHandle,
            },
            _ => Reply::BadHandle,
        }
    }

    /// Takes the oldest byte out of a pipe, by the end that a handle names.
    pub fn get(&mut self, end: PipeEnd) -> Reply
        ensures { Gets end self.old result self.new }
    {
        match self {
            Kind::Pipe(pipe) => match end {
                PipeEnd::Read => get_reply(pipe.get()),
                PipeEnd::Write => Reply::BadHandle,
            },
            _ => Reply::BadHandle,
        }
    }

    /// A handle more names it, by this end.
    pub fn hold(&mut self, end: PipeEnd)
        requires { ends_on self.old end < 4160 }
        ensures { self.new ≡ with_ends self.old end (ends_on self.old end + 1) }
    {
        if let Kind::Pipe(pipe) = self {
            pipe.hold(end);
        }
    }

    /// A handle less names it, by this end.
    pub fn leave(&mut self, end: PipeEnd)
        requires { 0 < ends_on self.old end }
        ensures { self.new ≡ with_ends self.old end (ends_on self.old end - 1) }
    {
        if let Kind::Pipe(pipe) = self {
            pipe.leave(end);
        }
    }

    /// A process has ended, which abandons a mutex that one of its threads owns.
    pub fn left_by(&mut self, w: WinNo)
        ensures { self.new ≡ kind_left_by w self.old }
    {
        if let Kind::Mutex(mutex) = self {
            mutex.ended(w);
        }
    }

    /// Ends a wait of the caller for it, which stands at this place of the list.
    pub fn take(&mut self, process: WinNo, thread: ThreadNo, place: u8) -> Reply
        requires { MayBeTaken process thread self.old }
        ensures { Takes process thread place self.old result self.new }
    {
        match self {
            Kind::Event(event) => {
                event.take();
                Reply::Woke(place)
            }
            Kind::Mutex(mutex) => match mutex.take((process, thread)) {
                Took::Owned => Reply::Woke(place),
                Took::Abandoned => Reply::Abandoned(place),
            },
            _ => Reply::Woke(place),
        }
    }
}

/// The end that the number in a handle names: that of a pipe, and for the terminal's `keys` face as for a read end.
pub fn end_of(o: ObjectNo) -> PipeEnd
    ensures { result ≡ (if is_first_end o then PipeEnd.Read else PipeEnd.Write) }
{
    if o.get() % 2 == 0 {
        PipeEnd::Read
    } else {
        PipeEnd::Write
    }
}

// The reply to a call that puts a byte into a pipe.
fn put_reply(put: Result<(), PutFault>) -> Reply
    ensures { result ≡ reply_of_put put }
{
    match put {
        Ok(()) => Reply::Done,
        Err(PutFault::NoReader) => Reply::NoReader,
        Err(PutFault::Full) => Reply::Full,
    }
}

// The reply to a call that takes a byte out of a pipe.
fn get_reply(got: Result<u8, GetFault>) -> Reply
    ensures { result ≡ reply_of_get got }
{
    match got {
        Ok(b) => Reply::Byte(b),
        Err(GetFault::Broken) => Reply::Broken,
        Err(GetFault::Empty) => Reply::Empty,
    }
}

// The reply to a call on a word.
fn word_reply(found: Result<u64, BadIndex>) -> Reply
    ensures { result ≡ reply_of_word found }
{
    match found {
        Ok(word) => Reply::Word(word),
        Err(_) => Reply::BadIndex,
    }
}
