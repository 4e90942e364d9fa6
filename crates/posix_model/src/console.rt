//! The console, which takes keys and sends their signals, and the host, which reads how the first process ended.

ghost use Rattle.std.specs.Prelude.{◌≡◌, true, false, MatchOption};
ghost use Rattle.posix_spec.specs.ConsoleSteps.{key_step, console_done_step, console_member_step};
ghost use Rattle.posix_spec.specs.GroupCalls.{ends_with, is_next_member};
ghost use Rattle.posix_spec.specs.DeathSteps.{is_host_code, host_step};
ghost use Rattle.posix_model.specs.Machine.{script_of, state_of};
ghost use Rattle.posix_model.specs.MarkedNumbers.{numbers_of};
ghost use Rattle.posix_model.specs.Shown.{group_call_of};
ghost use Rattle.posix_model.specs.Gives.{Gives, GivesOrFails};

use crate::groups_seen::Underway;
use crate::machine::Machine;
use crate::numbers::is_number;
use crate::operands::is_optional_number;
use crate::process::GroupCall;
use w32_base::{Acting, Answer, Memory, Number, Pid};

/// What the host reads of a first process that was ended from outside.
const ENDED_FROM_OUTSIDE: u32 = 65536;

/// `key 0 B`. It fails only for want of memory.
pub fn key(m: &mut Machine, p: Acting, b: u8) -> Result<bool, Memory>
    ensures { GivesOrFails (key_step (state_of m.old) p b) result m.old m.new }
{
    if p.get() != 0 || m.console.is_some() {
        return Ok(false);
    }
    m.output.reserve(64)?;
    let foreground = m.tty.state().fg;
    let done = m.tty.key(b);
    let Ok(()) = m.output.extend_from_slice(done.echo.as_slice()) else {
        unreachable!()
    };
    m.console_marks.clear();
    m.console = match done.signal {
        Some(signal) => Some(GroupCall {
            group: u32::from(foreground.get()),
            signal,
        }),
        None => None,
    };
    Ok(true)
}

/// `host 0 N`.
pub fn host(m: &mut Machine, p: Acting, n: Number) -> bool
    ensures { Gives (host_step (state_of m.old) p n) result m.old m.new }
{
    if p.get() != 0 || m.host_came || !is_host_code(m.first_status, n) {
        return false;
    }
    m.host_came = true;
    true
}

fn is_host_code(status: Option<u16>, n: Number) -> bool
    ensures { result ≡ is_host_code status n }
{
    is_optional_number(n, status) || is_number(n, ENDED_FROM_OUTSIDE)
}

/// `groupdone 0 G S REPLY`.
pub fn group_done(m: &mut Machine, g: u32, signal: u32, answer: Answer) -> bool
    ensures { Gives (console_done_step (state_of m.old) g signal answer) result m.old m.new }
{
    let Some(call) = m.console else {
        return false;
    };
    if !ends(m, call, g, signal, answer) {
        return false;
    }
    m.console = None;
    true
}

/// Whether the console's call ends with this group, signal and answer.
fn ends(m: &Machine, call: GroupCall, g: u32, signal: u32, answer: Answer) -> bool
    ensures { result ≡ ends_with (state_of m.now) (group_call_of call (numbers_of m.now.console_marks)) g signal
        answer }
{
    let underway = Underway {
        call,
        marks: Some(&m.console_marks),
    };
    m.ends_with(underway, g, signal, answer)
}

/// `member 0 Q S`. It fails, and changes nothing, only where more CHLD are owed than can be counted.
pub fn member(m: &mut Machine, q: u32, signal: u32) -> Result<bool, Memory>
    ensures { GivesOrFails (console_member_step (state_of m.old) q signal) result m.old m.new }
{
    let Some(call) = m.console else {
        return Ok(false);
    };
    let Some(member) = next_member(m, call, q, signal) else {
        return Ok(false);
    };
    m.send(q, call.signal)?;
    m.console_marks.insert(member);
    Ok(true)
}

/// The number of a member now that has had no step yet in the console's call, where the signal is the call's.
fn next_member(m: &Machine, call: GroupCall, q: u32, signal: u32) -> Option<Pid>
    ensures { MatchOption result
        (is_next_member (state_of m.now) (group_call_of call (numbers_of m.now.console_marks)) q signal ≡ false)
        (λ member. (is_next_member (state_of m.now) (group_call_of call (numbers_of m.now.console_marks)) q signal ≡
        true)
        × (member ≡ q) × (signal ≡ call.signal)) }
{
    let underway = Underway {
        call,
        marks: Some(&m.console_marks),
    };
    if signal != u32::from(call.signal) {
        return None;
    }
    m.next_member(underway, q, signal)
}
