//! The events of the POSIX machine: the calls, replies, signal actions and reapings of a run.

use crate::lists::Bytes64;
use crate::names::Name;
use crate::numbers::{Acting, Number};

/// An error of POSIX.1-2017 (XSH 2.3), by its name there.
#[derive(Clone, Copy, Debug, PartialEq, Eq)]
pub enum Errno {
    /// 1: the operation isn't permitted.
    EPERM,
    /// 2: there is no such program.
    ENOENT,
    /// 3: there is no such process or group.
    ESRCH,
    /// 4: a signal interrupted the call.
    EINTR,
    /// 5: a call of an orphaned background group.
    EIO,
    /// 10: there is no such child.
    ECHILD,
    /// 11: a resource is wanting for now.
    EAGAIN,
    /// 13: the child has executed an exec.
    EACCES,
    /// 22: an argument isn't valid.
    EINVAL,
    /// 25: the caller has no controlling terminal.
    ENOTTY,
}

/// How a call ended whose event says it: 0 or an error.
#[derive(Clone, Copy, Debug, PartialEq, Eq)]
pub enum Answer {
    /// 0.
    Zero,
    /// The call was refused.
    Error(Errno),
}

/// What a `get` call asks for.
#[derive(Clone, Copy, Debug, PartialEq, Eq)]
pub enum Field {
    /// `pid`: the process number.
    Pid,
    /// `ppid`: the parent's number.
    Ppid,
    /// `pgid`: the process group.
    Pgid,
    /// `sid`: the session.
    Sid,
    /// `fg`: the terminal's foreground group.
    Foreground,
}

/// Why a fork answered EAGAIN.
#[derive(Clone, Copy, Debug, PartialEq, Eq)]
pub enum ForkCause {
    /// `children`: the caller has 32 children.
    Children,
    /// `rows`: each row was claimed before.
    Rows,
    /// `slot`: each slot is occupied.
    Slot,
    /// `placed M FOUND WANTED`: module M was placed elsewhere in the child.
    Placed(Name, Number, Number),
    /// `ended W`: the child's Win32 process W was ended from outside.
    Ended(Number),
}

/// Why an exec failed.
#[derive(Clone, Copy, Debug, PartialEq, Eq)]
pub enum ExecCause {
    /// `noent`: no program has the name.
    NoEntry,
    /// `slot`: each slot is occupied.
    Slot,
    /// `ended W`: the new image's Win32 process W was ended from outside.
    Ended(Number),
}

/// How a handler is begun.
#[derive(Clone, Copy, Debug, PartialEq, Eq)]
pub enum Delivery {
    /// `plain`: no call was blocked, or it begins again.
    Plain,
    /// `eintr`: the blocked call answers EINTR.
    Interrupting,
}

/// What ended a process.
#[derive(Clone, Copy, Debug, PartialEq, Eq)]
pub enum Death {
    /// `exit`: it exited.
    Exit,
    /// `signal`: a signal ended it.
    Signal,
    /// `fault`: an image fault ended it.
    Fault,
    /// `world N`: entry N of the journal ended its Win32 process from outside.
    World(Number),
}

/// The action that an `action` call set.
#[derive(Clone, Copy, Debug, PartialEq, Eq)]
pub enum NewAction {
    /// `default`.
    Default,
    /// `ignore`.
    Ignore,
    /// `handler N`, and whether `restart` follows.
    Handler(Number, bool),
}

/// A step of the POSIX machine. Each case has the values of its text, in that order; the first is the process
/// that acts.
#[derive(Clone, Copy, Debug, PartialEq, Eq)]
pub enum Event {
    /// `run P N`: a block of N local instructions.
    Run(Acting, Number),
    /// `get P pid V`, or another field in place of `pid`: the value now.
    Get(Acting, Field, Number),
    /// `fork P C`: C is P's new child.
    Fork(Acting, Number),
    /// `forkfail P CAUSE`: fork answered EAGAIN.
    ForkFail(Acting, ForkCause),
    /// `exec P NAME`: P runs the program.
    Exec(Acting, Name),
    /// `execfail P CAUSE`: exec failed.
    ExecFail(Acting, ExecCause),
    /// `kill P Q S REPLY`: signal S for process Q, or what no target takes.
    Kill(Acting, Number, Number, Answer),
    /// `member P Q S`: S is generated for member Q in a group call.
    Member(Acting, Number, Number),
    /// `groupdone P G S REPLY`: each member of G now has had its step.
    GroupDone(Acting, Number, Number, Answer),
    /// `look P C`: child C matches and has nothing to report now.
    Look(Acting, Number),
    /// `block P`: P's call finds nothing and waits.
    Block(Acting),
    /// `nothing P`: with NOHANG, no child has anything to report.
    Nothing(Acting),
    /// `reap P C V`: zombie child C goes, with status V.
    Reap(Acting, Number, Number),
    /// `report P C V`: child C was stopped or continued.
    Report(Acting, Number, Number),
    /// `nochild P`: no child matches.
    NoChild(Acting),
    /// `refuse P ERROR`: a refusal that has no event of its own.
    Refuse(Acting, Errno),
    /// `mask P M`: the new mask.
    Mask(Acting, Number),
    /// `action P S ACTION`: the new action of S.
    SetAction(Acting, Number, NewAction),
    /// `suspend P M`: the mask is M and P waits.
    Suspend(Acting, Number),
    /// `return P`: the frame is popped.
    Return(Acting),
    /// `deliver P S plain` or `eintr`: a handler begins.
    Deliver(Acting, Number, Delivery),
    /// `discard P S`: S is ignored.
    Discard(Acting, Number),
    /// `stop P S`: S stops P.
    Stop(Acting, Number),
    /// `die P V exit`, `signal`, `fault` or `world N`: P becomes a zombie with status V.
    Die(Acting, Number, Death),
    /// `notify P`: CHLD is generated for P, which is owed one.
    Notify(Acting),
    /// `collect P`: zombie P without a live raw parent goes.
    Collect(Acting),
    /// `setpgid P Q G`: process Q is in group G.
    SetPgid(Acting, Number, Number),
    /// `setsid P`: P leads a new session.
    SetSid(Acting),
    /// `tcset P G`: G is the foreground group.
    TcSet(Acting, Number),
    /// `flags P N`: the terminal's flags.
    Flags(Acting, Number),
    /// `background P S`: the background rule sends S to P's group.
    Background(Acting, Number),
    /// `bgdone P`: each member now has had its step.
    BackgroundDone(Acting),
    /// `line P N BYTES`: N bytes were read.
    Line(Acting, Number, Bytes64),
    /// `write P N BYTES`: N bytes were written.
    Write(Acting, Number, Bytes64),
    /// `key 0 B`: the console took key B.
    Key(Acting, u8),
    /// `host 0 N`: the starter read code N.
    Host(Acting, Number),
}
