//! The end of processes, and what is left of them.

ghost use Rattle.std.specs.Prelude.{◌≡◌, MatchOption, true, false};
ghost use Rattle.posix_spec.specs.Conditions.{for_process};
ghost use Rattle.posix_spec.specs.DeathSteps as spec;
ghost use Rattle.posix_spec.specs.SignalActs.{is_this};
ghost use Rattle.proc_vm.specs.Shown.{shown};
ghost use Rattle.posix_model.specs.Gives.{Gives, GivesOrFails};
ghost use Rattle.posix_model.specs.Machine.{script_of, state_of};
ghost use Rattle.posix_model.specs.Shown.{record_of};
ghost use Rattle.posix_model.specs.Left.{is_left};

use crate::change::{Change, Signal};
use crate::machine::Machine;
use crate::process::{Life, Process};
use proc_vm::{CallInstr, Next, operand_value};
use std::alloc::AllocError;
use w32_base::{Acting, Death, Memory};

/// The status of an end by SEGV, which is that of an image fault.
const FAULT_STATUS: u32 = 267;

/// The status of an end by KILL, which is that of an end from outside.
const OUTSIDE_STATUS: u32 = 265;

/// `die P V CAUSE`. It fails only where P's parent is owed as many CHLD as can be counted.
pub fn die(m: &mut Machine, p: Acting, v: u32, cause: Death) -> Result<bool, Memory>
    ensures { GivesOrFails (for_process (state_of m.old) p
        (spec.die_step (script_of m.old) (state_of m.old) p cause v)) result m.old m.new }
{
    let Some(process) = m.process(p) else {
        return Ok(false);
    };
    let parent = u32::from(process.parent);
    let Some(status) = status_of_death(m, process, v, cause) else {
        return Ok(false);
    };
    if !m.may_owe(parent) {
        return Err(AllocError);
    }
    m.change_own(p, Change::Die(status));
    m.note_status(p, status);
    m.owe_more(parent);
    Ok(true)
}

/// The status, where the process may die with it of this cause.
fn status_of_death(m: &Machine, process: &Process, v: u32, cause: Death) -> Option<u16>
    ensures { MatchOption result (spec.may_die (script_of m.now) (record_of process.now) v cause ≡ false) (λ status.
        (spec.may_die (script_of m.now) (record_of process.now) v cause ≡ true) × (status ≡ v)) }
{
    if may_die(m, process, v, cause) {
        Some(v as u16)
    } else {
        None
    }
}

/// Whether the process may die with this status of this cause.
fn may_die(m: &Machine, process: &Process, v: u32, cause: Death) -> bool
    ensures { result ≡ spec.may_die (script_of m.now) (record_of process.now) v cause }
{
    match cause {
        Death::Exit => process.may_go_on() && is_this(v, exit_status(m.next(process), process)),
        Death::Signal => is_signal_death(process, v),
        Death::Fault => v == FAULT_STATUS && has_faulted(m, process),
        Death::World(_) => v == OUTSIDE_STATUS && process.is_live(),
    }
}

/// Whether there is a number, which is this one.
fn is_this(v: u32, number: Option<u32>) -> bool
    ensures { result ≡ is_this v number }
{
    match number {
        Some(n) => v == n,
        None => false,
    }
}

/// The status of an exit, where the next instruction is one.
fn exit_status(next: Next, process: &Process) -> Option<u32>
    ensures { result ≡ spec.exit_status (shown next) (record_of process.now).image }
{
    match next {
        Next::Call(CallInstr::Exit(v)) => {
            Some(operand_value(&process.own, v).cast_unsigned() % 256)
        }
        _ => None,
    }
}

/// Whether this is the status of an end by a signal that may act, and ends the process by default.
fn is_signal_death(process: &Process, v: u32) -> bool
    ensures { result ≡ spec.is_signal_death (record_of process.now) v }
{
    if v < 257 || v > 287 {
        return false;
    }
    let number = (v - 256) as u8;
    process.open_signals().has(number) && process.ends(Signal { number })
}

/// Whether the next instruction is an image fault and no signal goes first, or a handler has no room for its frame.
fn has_faulted(m: &Machine, process: &Process) -> bool
    ensures { result ≡ spec.has_faulted (script_of m.now) (record_of process.now) }
{
    matches!(process.life, Life::Running)
        && (!process.due && matches!(m.next(process), Next::Fault)
            || !process.has_frame_room() && process.awaits_handler())
}

impl Machine {
    /// Keeps the status of a death, where it is process 2's.
    fn note_status(&mut self, p: Acting, status: u16)
        ensures state { state_of self.new ≡ spec.with_status p status (state_of self.old) }
        ensures script { script_of self.new ≡ script_of self.old }
    {
        if p.get() == 2 {
            self.first_status = Some(status);
        }
    }
}

/// `collect P`.
pub fn collect(m: &mut Machine, p: Acting) -> bool
    ensures { Gives (for_process (state_of m.old) p (spec.collect_step (state_of m.old) p)) result m.old m.new }
{
    match m.process(p) {
        Some(process) if is_left(m, process) => {
            m.remove(u32::from(p.get()));
            true
        }
        _ => false,
    }
}

/// Whether a process is a zombie whose parent isn't live.
fn is_left(m: &Machine, process: &Process) -> bool
    ensures { result ≡ is_left (state_of m.now) (record_of process.now) }
{
    matches!(process.life, Life::Zombie(_)) && !m.is_live_at(u32::from(process.parent))
}
