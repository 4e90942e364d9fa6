//! Signals that a process sends.

ghost use Rattle.std.specs.Prelude.{◌≡◌, OnOk, OnErr};
ghost use Rattle.posix_spec.specs.Conditions.{for_call, for_group_step};
ghost use Rattle.posix_spec.specs.GroupCalls as calls;
ghost use Rattle.posix_spec.specs.KillSteps as spec;
ghost use Rattle.posix_spec.specs.Numbers as numbers;
ghost use Rattle.proc_vm.specs.Shown.{instr_of};
ghost use Rattle.posix_model.specs.Gives.{Gives, GivesOrFails};
ghost use Rattle.posix_model.specs.Machine.{script_of, state_of};
ghost use Rattle.posix_model.specs.Shown.{record_of};
ghost use Rattle.posix_model.specs.Targets.{target_shown, is_this_kill, begun_call};
ghost use Rattle.posix_model.specs.Underways.{underway_shown};

use crate::change::Change;
use crate::groups_seen::Underway;
use crate::machine::Machine;
use crate::numbers::is_same;
use crate::process::{GroupCall, Process, Progress};
use proc_vm::{CallInstr, operand_value};
use w32_base::{Acting, Answer, Errno, Memory, Number, Operand};

/// Whether the target of a kill is one process, a group, or refused.
#[derive(Clone, Copy, Debug)]
pub enum Target {
    /// The process of this number.
    One(u32),
    /// A group.
    Group,
    /// None.
    Invalid,
}

/// `kill P Q S REPLY`.
pub fn kill(
    m: &mut Machine,
    p: Acting,
    q: Number,
    signal: Number,
    answer: Answer,
) -> Result<bool, Memory>
    ensures { GivesOrFails (for_call (script_of m.old) (state_of m.old) p
        (spec.kill_step (state_of m.old) p q signal answer)) result m.old m.new }
{
    let Some((process, call)) = m.own_call(p) else {
        return Ok(false);
    };
    if !is_this_kill(process, call, q, signal) {
        return Ok(false);
    }
    let target = target_of(q);
    let sent = killing_signal(signal);
    if !is_answer(kill_answer(m, sent, target), answer) {
        return Ok(false);
    }
    carry_out(m, sent, target)?;
    m.conclude(p, answer);
    Ok(true)
}

/// Whether the call is a kill of this target with this signal.
fn is_this_kill(process: &Process, call: CallInstr, q: Number, signal: Number) -> bool
    ensures { result ≡ is_this_kill (record_of process.now) (instr_of call) q signal }
{
    match call {
        CallInstr::Kill(target, sent) => {
            is_same(q, operand_value(&process.own, target))
                && is_same(signal, operand_value(&process.own, sent))
        }
        _ => false,
    }
}

/// What the target of a kill is.
fn target_of(q: Number) -> Target
    ensures { target_shown result ≡ spec.target_of q }
{
    let number = q.get();
    if number > 0 {
        Target::One(number as u32)
    } else if number == -1 {
        Target::Invalid
    } else {
        Target::Group
    }
}

/// The signal that a kill sends, or 0 for none.
fn killing_signal(signal: Number) -> Option<u8>
    ensures { result ≡ calls.killing_signal signal }
{
    let number = signal.get();
    if number >= 0 && number <= 31 {
        Some(number as u8)
    } else {
        None
    }
}

/// What a kill answers, where it has an event of its own.
fn kill_answer(m: &Machine, signal: Option<u8>, target: Target) -> Option<Answer>
    ensures { result ≡ spec.kill_answer (state_of m.now) signal (target_shown target) }
{
    match (signal, target) {
        (None, _) | (Some(_), Target::Invalid) => Some(Answer::Error(Errno::EINVAL)),
        (Some(_), Target::Group) => None,
        (Some(_), Target::One(q)) => {
            if m.table.get(q).is_some() {
                Some(Answer::Zero)
            } else {
                Some(Answer::Error(Errno::ESRCH))
            }
        }
    }
}

/// Whether there is an answer, which is this one.
fn is_answer(wanted: Option<Answer>, answer: Answer) -> bool
    ensures { result ≡ spec.is_answer wanted answer }
{
    match wanted {
        Some(a) => is_same_answer(a, answer),
        None => false,
    }
}

/// Whether two answers are the same.
pub fn is_same_answer(a: Answer, b: Answer) -> bool
    ensures { result ≡ numbers.is_same_answer a b }
{
    a == b
}

/// Sends the signal of a kill, where its target is one process.
fn carry_out(m: &mut Machine, signal: Option<u8>, target: Target) -> Result<(), Memory>
    ensures sent { OnOk result (state_of m.new ≡ spec.killed (state_of m.old) signal (target_shown target)) }
    ensures script { OnOk result (script_of m.new ≡ script_of m.old) }
    ensures unchanged { OnErr result (m.new ≡ m.old) }
{
    match (signal, target) {
        (Some(signal), Target::One(q)) => m.send(q, signal),
        _ => Ok(()),
    }
}

/// `member P Q S`.
pub fn member(m: &mut Machine, p: Acting, q: u32, signal: u32) -> Result<bool, Memory>
    ensures { GivesOrFails (for_group_step (script_of m.old) (state_of m.old) p
        (spec.member_step (state_of m.old) p q signal)) result m.old m.new }
{
    let Some((process, call)) = m.group_call(p) else {
        return Ok(false);
    };
    let Some(underway) = member_call(process, call) else {
        return Ok(false);
    };
    let begins = underway.call;
    let Some(number) = m.next_member(underway, q, signal) else {
        return Ok(false);
    };
    m.send(q, begins.signal)?;
    m.change_own(p, Change::Member(begins, number));
    Ok(true)
}

/// `groupdone P G S REPLY`.
pub fn group_done(m: &mut Machine, p: Acting, g: u32, signal: u32, answer: Answer) -> bool
    ensures { Gives (for_group_step (script_of m.old) (state_of m.old) p
        (spec.group_done_step (state_of m.old) p g signal answer)) result m.old m.new }
{
    let Some((process, call)) = m.group_call(p) else {
        return false;
    };
    let Some(underway) = kill_call(process, call) else {
        return false;
    };
    if !m.ends_with(underway, g, signal, answer) {
        return false;
    }
    m.conclude(p, answer);
    true
}

/// The call for a group that a member's step belongs to.
fn member_call(process: &Process, call: CallInstr) -> Option<Underway<'_>>
    ensures { underway_shown result ≡ calls.member_call (record_of process.now) (instr_of call) }
{
    match call {
        CallInstr::Kill(..) => kill_call(process, call),
        _ => background_call(process, call),
    }
}

/// The call for a group that is in progress.
pub fn in_progress(process: &Process) -> Option<Underway<'_>>
    ensures { underway_shown result ≡ calls.in_progress (record_of process.now).call }
{
    match process.progress {
        Progress::Group(call) => Some(Underway {
            call,
            marks: Some(&process.marks),
        }),
        _ => None,
    }
}

/// The call for a group that the rule for the background began.
pub fn background_call(process: &Process, call: CallInstr) -> Option<Underway<'_>>
    ensures { underway_shown result ≡ calls.background_call (record_of process.now) (instr_of call) }
{
    match call {
        CallInstr::TcSet(_) | CallInstr::TtyFlags(_) | CallInstr::Read(..) | CallInstr::Write(..) =>
            { in_progress(process) }
        _ => None,
    }
}

/// The call for a group that a kill carries out.
fn kill_call(process: &Process, call: CallInstr) -> Option<Underway<'_>>
    ensures { underway_shown result ≡ calls.kill_call (record_of process.now) (instr_of call) }
{
    let CallInstr::Kill(target, signal) = call else {
        return None;
    };
    match process.progress {
        Progress::Group(call) => Some(Underway {
            call,
            marks: Some(&process.marks),
        }),
        _ => begun_call(process, target, signal),
    }
}

/// The call for a group that a kill begins.
fn begun_call(process: &Process, target: Operand, signal: Operand) -> Option<Underway<'_>>
    ensures { underway_shown result ≡ begun_call (record_of process.now) target signal }
{
    let group = target_group(process, operand_value(&process.own, target))?;
    let number = operand_value(&process.own, signal);
    if number < 0 || number > 31 {
        return None;
    }
    Some(Underway {
        call: GroupCall {
            group,
            signal: number as u8,
        },
        marks: None,
    })
}

/// The group that a kill's target names.
fn target_group(process: &Process, target: i32) -> Option<u32>
    ensures { result ≡ calls.target_group (record_of process.now).group target }
{
    if target == 0 {
        Some(u32::from(process.group.get()))
    } else if target < -1 {
        Some(target.unsigned_abs())
    } else {
        None
    }
}
