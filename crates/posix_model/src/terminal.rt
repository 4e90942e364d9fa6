//! A process at its terminal, and the refusals that have no event of their own.

ghost use Rattle.std.specs.Prelude.{◌≡◌, ◌≤◌, ◌&&◌, not, nat_eq, true, false, MatchOption, Some, None, pos};
ghost use Rattle.w32_base.specs.Names.{is_same};
ghost use Rattle.vm_spec.specs.Step.{address_of};
ghost use Rattle.tty_spec.specs.Discipline.{has_line};
ghost use Rattle.posix_spec.specs.Conditions.{for_call, for_group_step};
ghost use Rattle.posix_spec.specs.Checks.{is_refused_with, is_background, count_of};
ghost use Rattle.posix_spec.specs.GroupCalls.{begun, background_call, is_terminal_change};
ghost use Rattle.posix_spec.specs.KillSteps.{in_call_for};
ghost use Rattle.posix_spec.specs.Records.{change_record};
ghost use Rattle.posix_spec.specs.Refusals as refusals;
ghost use Rattle.posix_spec.specs.Refusals.{refuse_step};
ghost use Rattle.posix_spec.specs.TerminalSteps as spec;
ghost use Rattle.proc_vm.specs.Shown.{instr_of};
ghost use Rattle.posix_model.specs.Machine.{script_of, state_of};
ghost use Rattle.posix_model.specs.Shown.{record_of};
ghost use Rattle.posix_model.specs.Terminals.{sets_flags, sets_foreground, writes, completes};
ghost use Rattle.posix_model.specs.Gives.{Gives, GivesOrFails};

use crate::change::Change;
use crate::checks::check_of;
use crate::groups_seen::Underway;
use crate::machine::Machine;
use crate::numbers::{is_number, natural};
use crate::operands::natural_within;
use crate::process::{GroupCall, Process, Progress};
use proc_vm::CallInstr;
use w32_base::{Acting, Bytes64, Errno, Memory, Number};

/// `refuse P ERROR`.
pub fn refuse(m: &mut Machine, p: Acting, e: Errno) -> bool
    ensures { Gives (for_call (script_of m.old) (state_of m.old) p (refuse_step (state_of m.old) p e)) result m.old
        m.new }
{
    let Some((process, call)) = m.own_call(p) else {
        return false;
    };
    if !is_refused(m, p, process, call, e) {
        return false;
    }
    m.fail(p, e);
    true
}

/// Whether the call's check fails with this error.
fn is_refused(m: &Machine, p: Acting, process: &Process, call: CallInstr, e: Errno) -> bool
    ensures { result ≡ is_refused_with (refusals.check_of (state_of m.now) p (record_of process.now) (instr_of call))
        e }
{
    check_of(m, p, process, call).is_refused_with(e)
}

/// `flags P N`.
pub fn flags(m: &mut Machine, p: Acting, n: u32) -> bool
    ensures { Gives (for_call (script_of m.old) (state_of m.old) p (spec.flags_step (state_of m.old) p n)) result
        m.old m.new }
{
    let Some((process, call)) = m.own_call(p) else {
        return false;
    };
    let Some(flags) = flags_to_set(m, process, call, n) else {
        return false;
    };
    m.tty.set_flags(flags);
    m.answer_with(p, 0);
    true
}

/// The flags, where the call sets these and may.
fn flags_to_set(m: &Machine, process: &Process, call: CallInstr, number: u32) -> Option<u8>
    ensures { MatchOption result (sets_flags (state_of m.now) number (record_of process.now) (instr_of call) ≡ false)
        (λ flags.
        (sets_flags (state_of m.now) number (record_of process.now) (instr_of call) ≡ true) × (flags ≡ number)) }
{
    let CallInstr::TtyFlags(v) = call else {
        return None;
    };
    let value = process.value(v);
    let flags = natural_within(15, value)?;
    if is_number(value, number) && m.flags_check(process, value).is_allowed() {
        Some(flags as u8)
    } else {
        None
    }
}

/// `tcset P G`.
pub fn tcset(m: &mut Machine, p: Acting, g: u32) -> bool
    ensures { Gives (for_call (script_of m.old) (state_of m.old) p (spec.tcset_step (state_of m.old) p g)) result
        m.old m.new }
{
    let Some((process, call)) = m.own_call(p) else {
        return false;
    };
    if !sets_foreground(m, process, call, g) {
        return false;
    }
    let Some(group) = m.group_in(g, process.session) else {
        return false;
    };
    m.tty.set_fg(group);
    m.answer_with(p, 0);
    true
}

/// Whether the call sets this foreground group, and may.
fn sets_foreground(m: &Machine, process: &Process, call: CallInstr, g: u32) -> bool
    ensures { result ≡ sets_foreground (state_of m.now) g (record_of process.now) (instr_of call) }
{
    let CallInstr::TcSet(v) = call else {
        return false;
    };
    let value = process.value(v);
    is_number(value, g) && m.foreground_check(process, value).is_allowed()
}

/// `background P S`.
pub fn background(m: &mut Machine, p: Acting, signal: u32) -> bool
    ensures { Gives (for_call (script_of m.old) (state_of m.old) p (spec.background_step (state_of m.old) p signal))
        result m.old m.new }
{
    let Some((process, call)) = m.own_call(p) else {
        return false;
    };
    let Some(begun) = first_sent(m, p, process, call, signal) else {
        return false;
    };
    m.change_own(p, Change::Begin(begun));
    true
}

/// The call for the process's group, which first sends this signal, that the rule for the background begins.
fn first_sent(
    m: &Machine,
    p: Acting,
    process: &Process,
    call: CallInstr,
    signal: u32,
) -> Option<GroupCall>
    ensures { MatchOption result
        (spec.background_step (state_of m.now) p signal (record_of process.now) (instr_of call) ≡ None)
        (λ call_begun. spec.background_step (state_of m.now) p signal (record_of process.now) (instr_of call)
        ≡ Some (change_record (state_of m.now) p (in_call_for (begun call_begun.group call_begun.signal)))) }
{
    match check_of(m, p, process, call).sent_first() {
        Some(first) if signal == u32::from(first) => Some(GroupCall {
            group: u32::from(process.group.get()),
            signal: first,
        }),
        _ => None,
    }
}

/// `bgdone P`.
pub fn background_done(m: &mut Machine, p: Acting) -> bool
    ensures { Gives (for_group_step (script_of m.old) (state_of m.old) p (spec.background_done_step (state_of m.old)
        p)) result m.old m.new }
{
    let Some((process, call)) = m.group_call(p) else {
        return false;
    };
    if !has_completed(m, process, call) {
        return false;
    }
    m.change_own(p, Change::BeginAnew);
    true
}

/// Whether each member now has had its step in the call that the rule for the background began.
fn has_completed(m: &Machine, process: &Process, call: CallInstr) -> bool
    ensures { result ≡ completes (state_of m.now) (background_call (record_of process.now) (instr_of call)) }
{
    if !is_terminal_change(call) {
        return false;
    }
    match process.progress {
        Progress::Group(begun) => m.is_complete(Underway {
            call: begun,
            marks: Some(&process.marks),
        }),
        _ => false,
    }
}

/// Whether the call is one that a process in the background may be held up in.
fn is_terminal_change(call: CallInstr) -> bool
    ensures { result ≡ is_terminal_change (instr_of call) }
{
    matches!(
        call,
        CallInstr::TcSet(_) | CallInstr::TtyFlags(_) | CallInstr::Read(..) | CallInstr::Write(..)
    )
}

/// `write P N BYTES`. It fails only for want of memory.
pub fn write(m: &mut Machine, p: Acting, n: Number, bytes: Bytes64) -> Result<bool, Memory>
    ensures { GivesOrFails (for_call (script_of m.old) (state_of m.old) p (spec.write_step (state_of m.old) p n
        bytes)) result m.old m.new }
{
    let Some((process, call)) = m.own_call(p) else {
        return Ok(false);
    };
    let Some(count) = written(m, process, call, n, bytes.as_slice()) else {
        return Ok(false);
    };
    m.output.extend_from_slice(bytes.as_slice())?;
    m.answer_with(p, u16::from(count));
    Ok(true)
}

/// How many bytes the call writes, where it writes these and may.
fn written(m: &Machine, process: &Process, call: CallInstr, n: Number, bytes: &[u8]) -> Option<u8>
    ensures { MatchOption result (writes (state_of m.now) n bytes.now (record_of process.now) (instr_of call) ≡
        false) (λ count.
        (writes (state_of m.now) n bytes.now (record_of process.now) (instr_of call) ≡ true) × (n ≡ pos count)) }
{
    let CallInstr::Write(address, count) = call else {
        return None;
    };
    let count = process.value(count);
    if m.write_check(process).is_allowed()
        && is_written(process, process.value(address), count, n, bytes)
    {
        Some(count_of(count))
    } else {
        None
    }
}

/// Whether these are the bytes of the heap that a write puts out.
fn is_written(process: &Process, address: Number, count: Number, n: Number, bytes: &[u8]) -> bool
    ensures { result ≡ spec.is_written (record_of process.now).image address count n bytes.now }
{
    let count = count_of(count);
    let heap = process.own.heap.as_slice();
    is_number(n, u32::from(count)) && is_same(bytes, bytes_at(heap, address_of(address), count))
}

/// Whether bytes are the same.
pub fn is_same(bytes: &[u8], other: &[u8]) -> bool
    ensures { result ≡ is_same bytes.now other.now }
{
    bytes == other
}

/// The bytes from a place on, at most so many.
fn bytes_at(bytes: &[u8], place: u32, count: u8) -> &[u8]
    ensures { result.now ≡ spec.bytes_at bytes.now place count }
{
    let rest = &bytes[(place as usize).min(bytes.len())..];
    &rest[..usize::from(count).min(rest.len())]
}

/// An address as a place.
pub fn address_of(address: Number) -> u32
    ensures { result ≡ address_of address }
{
    natural(address).unwrap_or(0)
}

/// How many bytes a call of this count moves.
pub fn count_of(count: Number) -> u8
    ensures value { result ≡ count_of count }
    ensures range { result ≤ 64 }
{
    match natural(count) {
        Some(n) => n.min(64) as u8,
        None => 0,
    }
}

impl Machine {
    /// Whether a read of this count would take bytes, in the foreground, and no line is done.
    pub fn can_block_in_read(&self, process: &Process, count: Number) -> bool
        ensures { result ≡ ((record_of process.now).terminal && (not (is_background (state_of self.now) (record_of
            process.now))
            && (not (nat_eq (count_of count) 0) && not (has_line self.now.tty)))) }
    {
        process.terminal
            && !self.is_background(process)
            && count_of(count) != 0
            && !self.tty.has_line()
    }
}
