//! Win32 calls, as a thread posts them, and their replies.

use crate::lists::HandleList;
use crate::numbers::{HandleNo, Pid, WinNo};

/// A region of a process's memory.
#[derive(Clone, Copy, Debug, PartialEq, Eq)]
pub enum Region {
    /// The data region, whose text is `data`.
    Dat,
    /// The heap.
    Heap,
    /// The stack.
    Stack,
    /// The cygheap, whose text is `cyg`.
    Cyg,
    /// The scratch region.
    Scratch,
}

/// What a `tty` call asks of the terminal. G is the caller's process group, N a number of bytes, PLACE a place
/// of the caller's heap, and FORCE says that the background rule doesn't hold the call up.
#[derive(Clone, Copy, Debug, PartialEq, Eq)]
pub enum TtyOp {
    /// `key`: takes the next key of the console's queue.
    Key,
    /// `take G N PLACE`: takes up to N bytes of the first done line into the heap.
    Take(Pid, u32, u32),
    /// `put G N PLACE FORCE`: writes N bytes of the heap.
    Put(Pid, u32, u32, bool),
    /// `setfg G NEW FORCE`: sets the foreground group.
    SetForeground(Pid, Pid, bool),
    /// `flags G N FORCE`: sets the flags.
    Flags(Pid, u8, bool),
    /// `state`: tells the foreground group, the session and the flags.
    State,
}

/// A Win32 call. Each case has the values of its text, in that order.
#[derive(Clone, Copy, Debug, PartialEq, Eq)]
pub enum Call {
    /// `run`: carries out a block of local instructions.
    Run,
    /// `load H I`: reads word I of a section.
    Load(HandleNo, u32),
    /// `cas H I OLD NEW`: stores NEW in word I where it is OLD.
    CompareExchange(HandleNo, u32, u64, u64),
    /// `add H I N`: adds N to word I, which wraps.
    FetchAdd(HandleNo, u32, u64),
    /// `create P LIST`: makes a process of the script's program P, with these handles.
    Create(u32, HandleList),
    /// `resume H T`: lowers the suspend count of thread T of a process.
    Resume(HandleNo, u32),
    /// `suspend H T`: raises the suspend count of thread T of a process.
    Suspend(HandleNo, u32),
    /// `open W`: makes a handle on process W.
    Open(WinNo),
    /// `exitcode H`: asks for the code of a process.
    ExitCode(HandleNo),
    /// `terminate H N`: ends a process with code N.
    Terminate(HandleNo, u32),
    /// `exitself N`: ends the caller's process with code N.
    ExitSelf(u32),
    /// `readmem H REGION PLACE OWN OWNPLACE LEN`: copies bytes of another process's region to an own one.
    ReadMemory(HandleNo, Region, u32, Region, u32, u32),
    /// `writemem H REGION PLACE OWN OWNPLACE LEN`: copies own bytes to a region of another process.
    WriteMemory(HandleNo, Region, u32, Region, u32, u32),
    /// `module M`: places the script's module M in the caller's process.
    Module(u32),
    /// `event MANUAL SET`: makes an event.
    Event(bool, bool),
    /// `set H`: sets an event.
    Set(HandleNo),
    /// `reset H`: resets an event.
    Reset(HandleNo),
    /// `mutex OWNED`: makes a mutex, owned by the caller or free.
    Mutex(bool),
    /// `release H`: frees a mutex that the caller owns.
    Release(HandleNo),
    /// `pipe`: makes a pipe.
    Pipe,
    /// `put H B`: puts a byte into a pipe.
    Put(HandleNo, u8),
    /// `get H`: takes the oldest byte out of a pipe.
    Get(HandleNo),
    /// `dup H N`: makes a handle on what handle N of process H names.
    Dup(HandleNo, HandleNo),
    /// `close H`: closes a handle.
    Close(HandleNo),
    /// `wait LIST`: waits until one of the objects is signalled.
    WaitAny(HandleList),
    /// `tty H OP`: asks something of the terminal.
    Tty(HandleNo, TtyOp),
}

/// What a Win32 call answers. Each case has the values of its text, in that order.
#[derive(Clone, Copy, Debug, PartialEq, Eq)]
pub enum Reply {
    /// `ran N`: N local instructions were carried out.
    Ran(u16),
    /// `word X`: the word that was found.
    Word(u64),
    /// `badindex`: there is no such word, program, module or thread.
    BadIndex,
    /// `made H W`: process W was made.
    Made(HandleNo, WinNo),
    /// `noslot`: each slot for layer processes is occupied.
    NoSlot,
    /// `tablefull`: the new handles don't fit.
    TableFull,
    /// `count N`: the suspend count before the call.
    Count(u32),
    /// `gone`: the process has ended.
    Gone,
    /// `handle H`: the new handle.
    Handle(HandleNo),
    /// `unknown`: no live process has the number, nor one that somebody holds.
    Unknown,
    /// `code N`: the process has ended with this code.
    Code(u32),
    /// `active`: the process is alive.
    Active,
    /// `done`.
    Done,
    /// `badrange`: a byte lies outside the region, or there are too many.
    BadRange,
    /// `base N`: the first page of the module.
    Base(u16),
    /// `notowner`: another owns the mutex, or none.
    NotOwner,
    /// `two H H`: the read end and the write end.
    Two(HandleNo, HandleNo),
    /// `noreader`: no read handle is left.
    NoReader,
    /// `full`: the pipe holds 64 bytes.
    Full,
    /// `byte B`: the oldest byte.
    Byte(u8),
    /// `broken`: the pipe is empty and no write handle is left.
    Broken,
    /// `empty`: the pipe is empty.
    Empty,
    /// `badhandle`: the handle is absent or of another kind of object.
    BadHandle,
    /// `woke I`: the object at place I of the list was signalled, and is taken.
    Woke(u8),
    /// `abandoned I`: the same, of a mutex whose owner had ended.
    Abandoned(u8),
    /// `key B S G`: key B was taken; signal S (0 for none) is for the foreground group G.
    Key(u8, u8, Pid),
    /// `nokey`: no key waits.
    NoKey,
    /// `background`: the caller's group isn't the foreground group.
    Background,
    /// `noline`: no line is done.
    NoLine,
    /// `line N`: N bytes were taken.
    Line(u8),
    /// `put N`: N bytes were written.
    Written(u8),
    /// `state FG SID FLAGS`: the terminal's foreground group, session and flags.
    State(Pid, Pid, u8),
}
