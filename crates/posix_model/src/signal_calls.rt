//! The calls on a process's mask and actions.

ghost use Rattle.std.specs.Prelude.{◌≡◌, ◌≤◌, nat_eq, option_map};
ghost use Rattle.posix_spec.specs.Conditions.{for_call};
ghost use Rattle.posix_spec.specs.SignalCalls as spec;
ghost use Rattle.proc_vm.specs.Shown.{instr_of};
ghost use Rattle.sig_sets.specs.Shown.{bits_of};
ghost use Rattle.posix_model.specs.Gives.{Gives};
ghost use Rattle.posix_model.specs.Machine.{script_of, state_of};
ghost use Rattle.posix_model.specs.Shown.{record_of};
ghost use Rattle.posix_model.specs.SignalAsked.{mask_asked, action_asked, suspend_asked};

use crate::change::{Change, Signal};
use crate::machine::Machine;
use crate::numbers::is_number;
use crate::process::Process;
use bitflags::Flags;
use proc_vm::{CallInstr, operand_value};
use sig_sets::{SigSet, clean_mask};
use w32_base::{Acting, Action, MaskChange, NewAction};

/// `mask P M`.
pub fn mask(m: &mut Machine, p: Acting, new: u32) -> bool
    ensures { Gives (for_call (script_of m.old) (state_of m.old) p (spec.mask_step (state_of m.old) p new)) result
        m.old m.new }
{
    let Some((process, call)) = m.own_call(p) else {
        return false;
    };
    let old = word(process.mask);
    let Some(mask) = mask_asked(process, call) else {
        return false;
    };
    if !is_word(mask, new) {
        return false;
    }
    m.change_own(p, Change::SetMask(mask));
    m.answer_word(p, old);
    true
}

/// The bits of a set.
pub fn word(set: SigSet) -> u32
    ensures { result ≡ bits_of set }
{
    set.bits()
}

/// Whether these are the bits of a set.
fn is_word(set: SigSet, bits: u32) -> bool
    ensures { result ≡ nat_eq bits (bits_of set) }
{
    set.bits() == bits
}

/// The mask that a `mask` asks for.
fn mask_asked(process: &Process, call: CallInstr) -> Option<SigSet>
    ensures { option_map bits_of result ≡ mask_asked (record_of process.now) (instr_of call) }
{
    match call {
        CallInstr::Mask(how, v) => {
            Some(mask_after(
                how,
                process.mask,
                named_mask(operand_value(&process.own, v)),
            ))
        }
        _ => None,
    }
}

/// The signals that a value names.
fn named_mask(v: i32) -> SigSet
    ensures { bits_of result ≡ spec.named_mask v }
{
    clean_mask(v.cast_unsigned())
}

fn mask_after(how: MaskChange, old: SigSet, named: SigSet) -> SigSet
    ensures { bits_of result ≡ spec.mask_after how (bits_of old) (bits_of named) }
{
    match how {
        MaskChange::Block => old.union(named),
        MaskChange::Unblock => old.outside(named),
        MaskChange::Set => named,
    }
}

/// `action P S ACTION`.
pub fn action(m: &mut Machine, p: Acting, signal: u32, new: NewAction) -> bool
    ensures { Gives (for_call (script_of m.old) (state_of m.old) p (spec.action_step (state_of m.old) p new signal))
        result m.old m.new }
{
    let Some((process, call)) = m.own_call(p) else {
        return false;
    };
    let Some((signal, action)) = action_asked(process, call, signal, new) else {
        return false;
    };
    m.change_own(p, Change::SetAction(signal, action));
    m.answer_with(p, 0);
    true
}

/// The signal and the action that an `action` sets, where they are these and the call isn't refused.
fn action_asked(
    process: &Process,
    call: CallInstr,
    signal: u32,
    new: NewAction,
) -> Option<(Signal, Action)>
    ensures { option_map (λ a. (a.0.number, a.1)) result ≡ action_asked (record_of process.now) (instr_of call)
        signal new }
{
    let CallInstr::Action(v, action) = call else {
        return None;
    };
    let value = operand_value(&process.own, v);
    if value < 1 || value > 31 || value as u32 != signal {
        return None;
    }
    if !is_new_action(new, action) || !is_settable(value as u8, action) {
        return None;
    }
    Some((
        Signal {
            number: value as u8,
        },
        action,
    ))
}

/// Whether the event's action is the instruction's.
fn is_new_action(new: NewAction, action: Action) -> bool
    ensures { result ≡ spec.is_new_action new action }
{
    match action {
        Action::Default => matches!(new, NewAction::Default),
        Action::Ignore => matches!(new, NewAction::Ignore),
        Action::Handler(target, restart) => match new {
            NewAction::Handler(n, b) => is_number(n, u32::from(target)) && b == restart,
            _ => false,
        },
    }
}

/// Whether the signal may have the action.
fn is_settable(signal: u8, action: Action) -> bool
    requires low { 1 ≤ signal }
    requires high { signal ≤ 31 }
    ensures { result ≡ spec.is_settable signal action }
{
    match action {
        Action::Default => true,
        _ => signal != 9 && signal != 19,
    }
}

/// `suspend P M`.
pub fn suspend(m: &mut Machine, p: Acting, new: u32) -> bool
    ensures { Gives (for_call (script_of m.old) (state_of m.old) p (spec.suspend_step (state_of m.old) p new)) result
        m.old m.new }
{
    let Some((process, call)) = m.own_call(p) else {
        return false;
    };
    let Some(mask) = suspend_asked(process, call) else {
        return false;
    };
    if !is_word(mask, new) {
        return false;
    }
    m.change_own(p, Change::Suspend(mask));
    true
}

/// The mask that a `suspend` asks for.
fn suspend_asked(process: &Process, call: CallInstr) -> Option<SigSet>
    ensures { option_map bits_of result ≡ suspend_asked (record_of process.now) (instr_of call) }
{
    match call {
        CallInstr::Suspend(v) => Some(named_mask(operand_value(&process.own, v))),
        _ => None,
    }
}
