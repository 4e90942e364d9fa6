//! Changes of a process that are always possible.

ghost use Rattle.std.specs.Prelude.{◌≤◌};

use crate::process::GroupCall;
use sig_sets::SigSet;
use w32_base::{Action, Pid};

/// A signal, from 1 to 31.
#[derive(Clone, Copy, Debug)]
pub struct Signal {
    /// Its number.
    pub number: u8,
    ghost range: { (1 ≤ number) × (number ≤ 31) },
}

/// A change of a process that is always possible.
#[derive(Clone, Copy, Debug)]
pub enum Change {
    /// The wait has looked at this child.
    Look(Pid),
    /// The call waits.
    Block,
    /// Its parent was told of its stop or continue.
    Report,
    /// It is in this group.
    Join(Pid),
    /// It leads a session and a group of this number, without a terminal.
    LeadSession(Pid),
    /// A call for a group begins.
    Begin(GroupCall),
    /// The member of this number has its step in the call for a group, which is this one where none is in progress.
    Member(GroupCall, Pid),
    /// Its call for a group ends, and the call that it was held up in begins anew.
    BeginAnew,
    /// The signal of this number is generated for it; 0 is none.
    Generate(u8),
    /// It has this mask.
    SetMask(SigSet),
    /// The signal has this action.
    SetAction(Signal, Action),
    /// It waits with this mask until a handler begins.
    Suspend(SigSet),
    /// The signal isn't pending any more.
    Discard(Signal),
    /// The signal stops it.
    Stop(Signal),
    /// CHLD is generated for it, which was owed to it.
    Notify,
    /// It has died with this status.
    Die(u16),
}
