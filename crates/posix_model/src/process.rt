//! A process: what the machine keeps of it.

ghost use Rattle.std.specs.Prelude.{◌≡◌, ◌≤◌, length, IfSome};

use crate::marks::Marks;
use crate::results::finish;
use bitflags::Flags;
use sig_sets::{SigSet, deliverable};
use w32_base::{Action, Own, Pid};

/// How many signals have an action.
pub const SIGNALS: usize = 31;

/// Whether a process runs, was stopped by a signal, or is a zombie with a status.
#[derive(Clone, Copy, Debug, PartialEq, Eq)]
pub enum Life {
    /// It runs.
    Running,
    /// This signal stopped it.
    Stopped(u8),
    /// It has ended with this status.
    Zombie(u16),
}

/// What a process was not told of its child.
#[derive(Clone, Copy, Debug, PartialEq, Eq)]
pub enum Untold {
    /// Nothing.
    Nothing,
    /// That it was stopped.
    Stop,
    /// That it was continued.
    Continue,
}

/// A call for a group that has begun, without the members that have had their step.
#[derive(Clone, Copy, Debug, PartialEq, Eq)]
pub struct GroupCall {
    /// The group, which for a `kill` may be no process's number.
    pub group: u32,
    /// The signal.
    pub signal: u8,
}

/// The call in progress.
#[derive(Clone, Copy, Debug, PartialEq, Eq)]
pub enum Progress {
    /// None.
    Nothing,
    /// A wait that has looked at the process's marks.
    Wait,
    /// A call for a group, whose members in the process's marks have had their step.
    Group(GroupCall),
}

/// A process.
#[derive(Debug, Drop)]
pub struct Process {
    /// The parent's number, 1 for the first process.
    pub parent: u16,
    /// The process group.
    pub group: Pid,
    /// The session.
    pub session: Pid,
    /// Whether it has the terminal.
    pub terminal: bool,
    /// Whether it has executed an `exec`.
    pub execd: bool,
    /// Its life.
    pub life: Life,
    /// What its parent was not told.
    pub untold: Untold,
    /// The pending signals.
    pub pending: SigSet,
    /// The signal mask.
    pub mask: SigSet,
    /// The mask from before, in a `suspend`.
    pub saved: Option<SigSet>,
    /// The actions of signals 1 to 31.
    pub actions: [Action; 31],
    /// Its memory, of which the cygheap and the scratch region have no bytes.
    pub own: Own,
    /// The call in progress.
    pub progress: Progress,
    /// The numbers that the call in progress has gone through.
    pub marks: Marks,
    /// Whether the call waits.
    pub blocked: bool,
    /// Whether signals go first.
    pub due: bool,
    /// The signals that generation took away since the last event of its own.
    pub lost: SigSet,
    /// How many CHLD are owed to it.
    pub owed: u64,
    ghost data: { length own.dat ≡ 64 },
    ghost heap: { length own.heap ≤ 32768 },
    ghost stack: { length own.stack ≤ 32768 },
}

impl Process {
    ghost use Rattle.std.specs.Prelude.{◌<◌, pos, option_map};
    ghost use Rattle.vm_spec.specs.Image.{image_of, place_of};
    ghost use Rattle.sig_sets.specs.Shown.{bits_of};
    ghost use Rattle.posix_spec.specs.Pending as spec;
    ghost use Rattle.posix_spec.specs.Conditions.{may_go_on, with_results};
    ghost use Rattle.posix_spec.specs.Records.{settled};
    ghost use Rattle.posix_model.specs.Shown.{record_of};

    /// Whether it runs, and no signal goes first.
    pub fn may_go_on(&self) -> bool
        ensures { result ≡ may_go_on (record_of self.now) }
    {
        matches!(self.life, Life::Running) && !self.due
    }

    /// Whether it runs or is stopped.
    pub fn is_live(&self) -> bool
        ensures { result ≡ spec.is_live (record_of self.now).life }
    {
        !matches!(self.life, Life::Zombie(_))
    }

    /// The signals that may act: the pending ones outside the mask, in a stopped process KILL alone.
    pub fn open_signals(&self) -> SigSet
        ensures value { bits_of result ≡ spec.open_signals (record_of self.now) }
        ensures within { bits_of result < 2147483648 }
    {
        match self.life {
            Life::Running => self.pending.outside(self.mask),
            Life::Stopped(_) => self.pending.intersection(SigSet::KILL),
            Life::Zombie(_) => SigSet::empty(),
        }
    }

    /// The signal that acts next.
    pub fn deliverable(&self) -> Option<u8>
        ensures value { result ≡ spec.deliverable (record_of self.now) }
        ensures range { IfSome result (λ s. (1 ≤ s) × (s ≤ 31)) }
    {
        deliverable(self.open_signals(), SigSet::empty())
    }

    /// Whether a signal may act.
    pub fn has_deliverable(&self) -> bool
        ensures { result ≡ spec.has_deliverable (record_of self.now) }
    {
        self.deliverable().is_some()
    }

    /// Clears `due` where no signal may act.
    pub fn settle(&mut self)
        ensures { record_of self.new ≡ settled (record_of self.old) }
    {
        self.due = self.due && self.has_deliverable();
    }

    /// Ends its call with r0, and with r1 where it is given.
    pub fn answer(&mut self, r0: u32, r1: Option<u32>)
        ensures { record_of self.new ≡ with_results (pos r0) (option_map pos r1) (record_of self.old) }
    {
        finish(&mut self.own, r0, r1);
        self.progress = Progress::Nothing;
        self.blocked = false;
        self.lost = SigSet::empty();
        self.due = self.has_deliverable();
    }
}
