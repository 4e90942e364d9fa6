//! A slot, with the process in it.

ghost use Rattle.std.specs.Prelude.{◌≡◌, ◌<◌, ◌↔◌, Some, None, length, slice_set, IsTrue, IfOk};
ghost use Rattle.win32_spec.specs.Making.{new_memory};
ghost use Rattle.std.specs.Borrow.{sem};
ghost use Rattle.w32_process.specs.Places.{empty_place, host_place, made_place, count_of};

use arrayvec::ArrayVec;
use std::alloc::Global;
use std::marker::Model;
use w32_base::{Memory, Own, Program, ThreadNo, WinNo};
use w32_handles::Handles;

/// How many threads a layer process has.
const THREADS: usize = 3;

/// How often each thread of a new process is suspended.
const AT_FIRST: u32 = 1;

/// How many bytes the data region has.
const DATA_BYTES: usize = 64;

/// How many bytes the cygheap has.
const CYGHEAP_BYTES: usize = 288;

/// How many bytes the scratch region has.
const SCRATCH_BYTES: usize = 512;

/// Where the program's number stands in the data region.
const PROGRAM_AT: usize = 40;

/// A slot. Without a process it has no handles and no bytes, and keeps the room for them.
#[derive(Debug, Drop)]
pub struct Seat {
    number: Option<WinNo>,
    program: Option<u8>,
    suspended: ArrayVec<u32, THREADS>,
    handles: Handles,
    own: Own,
}

impl Model for Seat {
    ghost use Rattle.w32_process.specs.Places.{Place};

    ghost Value = { Place };

    ghost view = { λ s. record {
      number = s.number;
      program = s.program;
      suspended = s.suspended.items;
      handles = s.handles;
      own = s.own;
    } };
}

impl Seat {
    ghost use Rattle.w32_process.specs.Lends.{lends_handles, lends_own};

    /// An empty slot. It fails only for want of memory.
    pub fn empty(alloc: Global) -> Result<Seat, Memory>
        ensures { IfOk result (λ seat. seat ≡ empty_place) }
    {
        Ok(Seat {
            number: None,
            program: None,
            suspended: ArrayVec::new(),
            handles: Handles::new(),
            own: Own::new(alloc)?,
        })
    }

    /// The slot of the host. It fails only for want of memory.
    pub fn host(alloc: Global) -> Result<Seat, Memory>
        ensures { IfOk result (λ seat. seat ≡ host_place) }
    {
        let mut suspended = ArrayVec::new();
        suspended.push(0);
        suspended.push(0);
        Ok(Seat {
            number: Some(WinNo::new(1)),
            program: None,
            suspended,
            handles: Handles::new(),
            own: Own::new(alloc)?,
        })
    }

    /// The Win32 number of the process, or none where the slot is empty.
    pub fn number(&self) -> Option<WinNo>
        ensures { result ≡ self.now.number }
    {
        self.number
    }

    /// The place of its program in the script.
    pub fn program(&self) -> Option<u8>
        ensures { result ≡ self.now.program }
    {
        self.program
    }

    /// How often a thread is suspended.
    pub fn count(&self, thread: ThreadNo) -> Option<u32>
        ensures { result ≡ count_of self.now thread }
    {
        match self.number {
            Some(_) => self.suspended.get(usize::from(thread.get())).copied(),
            None => None,
        }
    }

    /// Sets how often a thread is suspended.
    pub fn set_count(&mut self, thread: ThreadNo, count: u32)
        requires { thread < length self.old.suspended }
        ensures { self.new ≡ record self.old { suspended = slice_set self.old.suspended thread count } }
    {
        self.suspended[usize::from(thread.get())] = count;
    }

    /// The handles of the process.
    pub fn handles(&self) -> &Handles
        ensures { result.now ≡ self.now.handles }
    {
        &self.handles
    }

    /// The handles of the process, to change them.
    pub fn handles_mut(&mut self) -> &mut Handles
        ensures* lends { sem 𝓛 (lends_handles self.entry result) }
        ensures value { result.now ≡ self.old.handles }
    {
        &mut self.handles
    }

    /// The memory of the process.
    pub fn own(&self) -> &Own
        ensures { result.now ≡ self.now.own }
    {
        &self.own
    }

    /// The memory of the process, to change it.
    pub fn own_mut(&mut self) -> &mut Own
        ensures* lends { sem 𝓛 (lends_own self.entry result) }
        ensures value { result.now ≡ self.old.own }
    {
        &mut self.own
    }

    /// Makes a process of this program, which has this place in the script.
    pub fn make(&mut self, w: WinNo, number: u8, program: &Program, handles: Handles)
        ensures { self.new ≡ made_place w number program.now handles }
    {
        self.number = Some(w);
        self.program = Some(number);
        self.suspended.clear();
        self.suspended.push(AT_FIRST);
        self.suspended.push(AT_FIRST);
        self.suspended.push(AT_FIRST);
        self.handles = handles;
        renew(&mut self.own, number, program);
    }

    /// Takes the process out of the slot.
    pub fn leave(&mut self)
        ensures { self.new ≡ empty_place }
    {
        self.number = None;
        self.program = None;
        self.suspended.clear();
        self.handles = Handles::new();
        self.own.clear();
    }
}

/// The memory of a new process of this program, which has this place in the script. It takes no memory.
fn renew(own: &mut Own, number: u8, program: &Program)
    ensures { own.new ≡ new_memory number program.now }
{
    own.dat.reset(DATA_BYTES);
    own.dat.set_word(PROGRAM_AT, u32::from(number));
    own.heap.reset(usize::from(program.heap));
    own.stack.reset(usize::from(program.stack));
    own.cyg.reset(CYGHEAP_BYTES);
    own.scratch.reset(SCRATCH_BYTES);
}
