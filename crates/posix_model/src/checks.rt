//! The checks of a call before its event.

ghost use Rattle.std.specs.Prelude.{◌≡◌, ◌<◌, ◌≤◌, IsTrue, IfSome};
ghost use Rattle.posix_spec.specs.Checks as spec;
ghost use Rattle.posix_spec.specs.GroupSteps as groups;
ghost use Rattle.posix_spec.specs.Numbers as numbers;
ghost use Rattle.posix_spec.specs.Refusals as refusals;
ghost use Rattle.posix_spec.specs.SignalCalls as signals;
ghost use Rattle.posix_spec.specs.Signals.{is_signal, is_never_masked};
ghost use Rattle.posix_spec.specs.State.{record_of as record_at};
ghost use Rattle.proc_vm.specs.Shown.{instr_of};
ghost use Rattle.posix_model.specs.Checked.{shown};
ghost use Rattle.posix_model.specs.Machine.{state_of};
ghost use Rattle.posix_model.specs.Shown.{record_of};

use crate::machine::Machine;
use crate::numbers::natural;
use crate::operands::natural_within;
use crate::process::Process;
use proc_vm::CallInstr;
use w32_base::{Acting, Action, Errno, Number};

/// The flag under which a background group may not write.
const TOSTOP: u8 = 8;

/// TTIN.
const TERMINAL_INPUT: u8 = 21;

/// TTOU.
const TERMINAL_OUTPUT: u8 = 22;

/// A call may go on, or is refused, or, of a process in the background, first sends a signal to its group.
#[derive(Clone, Copy, Debug)]
pub enum Check {
    /// It may go on.
    Allowed,
    /// It is refused with this error.
    Refused(Errno),
    /// It first sends this signal.
    SendsFirst(u8),
}

impl Check {
    /// Refused where the test fails.
    pub fn that(passed: bool, e: Errno) -> Check
        ensures { shown result ≡ spec.check_that passed e }
    {
        if passed {
            Check::Allowed
        } else {
            Check::Refused(e)
        }
    }

    /// Whether it may go on.
    pub fn is_allowed(self) -> bool
        ensures { result ≡ spec.is_allowed (shown self) }
    {
        matches!(self, Check::Allowed)
    }

    /// Whether it is refused with this error.
    pub fn is_refused_with(self, e: Errno) -> bool
        ensures { result ≡ spec.is_refused_with (shown self) e }
    {
        match self {
            Check::Refused(error) => error_number(error) == error_number(e),
            _ => false,
        }
    }

    /// The signal that it first sends.
    pub fn sent_first(self) -> Option<u8>
        ensures { result ≡ spec.sent_first (shown self) }
    {
        match self {
            Check::SendsFirst(signal) => Some(signal),
            _ => None,
        }
    }
}

/// The number of an error.
fn error_number(e: Errno) -> u8
    ensures { result ≡ numbers.error_number e }
{
    match e {
        Errno::EPERM => 1,
        Errno::ENOENT => 2,
        Errno::ESRCH => 3,
        Errno::EINTR => 4,
        Errno::EIO => 5,
        Errno::ECHILD => 10,
        Errno::EAGAIN => 11,
        Errno::EACCES => 13,
        Errno::EINVAL => 22,
        Errno::ENOTTY => 25,
    }
}

impl Process {
    ghost use Rattle.posix_spec.specs.Pending.{action_of};

    /// The action of a signal.
    pub fn action(&self, signal: u8) -> Action
        requires { IsTrue (is_signal signal) }
        ensures { result ≡ action_of (record_of self.now) signal }
    {
        self.actions[usize::from(signal) - 1]
    }

    /// Whether the signal is blocked or ignored.
    fn is_blocked_or_ignored(&self, signal: u8) -> bool
        requires { IsTrue (is_signal signal) }
        ensures { result ≡ spec.is_blocked_or_ignored (record_of self.now) signal }
    {
        self.mask.has(signal) || matches!(self.action(signal), Action::Ignore)
    }

    /// Refused without a terminal.
    fn terminal_check(&self) -> Check
        ensures { shown result ≡ spec.terminal_check (record_of self.now) }
    {
        Check::that(self.terminal, Errno::ENOTTY)
    }
}

impl Machine {
    /// Whether the process's group isn't in the foreground.
    pub fn is_background(&self, process: &Process) -> bool
        ensures { result ≡ spec.is_background (state_of self.now) (record_of process.now) }
    {
        process.group != self.tty.state().fg
    }

    fn background_rule(&self, process: &Process, signal: u8, kept: Check) -> Check
        requires { IsTrue (is_signal signal) }
        ensures { shown result ≡ spec.background_rule (state_of self.now) (record_of process.now) signal (shown kept) }
    {
        if !self.is_background(process) {
            Check::Allowed
        } else if process.is_blocked_or_ignored(signal) {
            kept
        } else if self.is_orphaned(u32::from(process.group.get())) {
            Check::Refused(Errno::EIO)
        } else {
            Check::SendsFirst(signal)
        }
    }

    /// The check of a read.
    pub fn read_check(&self, process: &Process) -> Check
        ensures { shown result ≡ spec.read_check (state_of self.now) (record_of process.now) }
    {
        match process.terminal_check() {
            Check::Allowed => {
                self.background_rule(process, TERMINAL_INPUT, Check::Refused(Errno::EIO))
            }
            refused => refused,
        }
    }

    fn change_rule(&self, process: &Process) -> Check
        ensures { shown result ≡ spec.change_rule (state_of self.now) (record_of process.now) }
    {
        self.background_rule(process, TERMINAL_OUTPUT, Check::Allowed)
    }

    /// The check of a write.
    pub fn write_check(&self, process: &Process) -> Check
        ensures { shown result ≡ spec.write_check (state_of self.now) (record_of process.now) }
    {
        match process.terminal_check() {
            Check::Allowed if self.tty.state().flags & TOSTOP != 0 => self.change_rule(process),
            check => check,
        }
    }

    /// The check of a change of the terminal's flags.
    pub fn flags_check(&self, process: &Process, value: Number) -> Check
        ensures { shown result ≡ spec.flags_check (state_of self.now) (record_of process.now) value }
    {
        match process.terminal_check() {
            Check::Allowed => match natural_within(15, value) {
                Some(_) => self.change_rule(process),
                None => Check::Refused(Errno::EINVAL),
            },
            refused => refused,
        }
    }

    /// The check of a change of the foreground group.
    pub fn foreground_check(&self, process: &Process, value: Number) -> Check
        ensures { shown result ≡ spec.foreground_check (state_of self.now) (record_of process.now) value }
    {
        match process.terminal_check() {
            Check::Allowed => self.foreground_rule(process, natural(value)),
            refused => refused,
        }
    }

    fn foreground_rule(&self, process: &Process, group: Option<u32>) -> Check
        ensures { shown result ≡ spec.foreground_rule (state_of self.now) (record_of process.now) group }
    {
        let Some(g) = group else {
            return Check::Refused(Errno::EINVAL);
        };
        match self.change_rule(process) {
            Check::Allowed => Check::that(self.has_member_in(g, process.session), Errno::EPERM),
            held => held,
        }
    }
}

/// The check of an action.
fn action_check(value: Number, action: Action) -> Check
    ensures { shown result ≡ signals.action_check value action }
{
    match natural_within(31, value) {
        Some(signal) => Check::that(is_settable(signal, action), Errno::EINVAL),
        None => Check::Refused(Errno::EINVAL),
    }
}

/// Whether a signal may have this action: KILL and STOP keep their default.
fn is_settable(signal: u32, action: Action) -> bool
    ensures { result ≡ signals.is_settable signal action }
{
    let is_signal = signal >= 1 && signal <= 31;
    match action {
        Action::Default => is_signal,
        _ => is_signal && !(signal == 9 || signal == 19),
    }
}

/// The check of a call. fork, exec and kill have events for their refusals, and so has a wait without a child; the
/// other calls have no refusals.
pub fn check_of(m: &Machine, p: Acting, process: &Process, call: CallInstr) -> Check
    ensures { shown result ≡ refusals.check_of (state_of m.now) p (record_of process.now) (instr_of call) }
{
    match call {
        CallInstr::Wait(_, flags) => Check::that(
            natural_within(7, process.value(flags)).is_some(),
            Errno::EINVAL,
        ),
        CallInstr::Action(v, action) => action_check(process.value(v), action),
        CallInstr::SetPgid(q, g) => m.setpgid_check(p, process, process.value(q), process.value(g)),
        CallInstr::SetSid => m.setsid_check(p),
        CallInstr::TcSet(v) => m.foreground_check(process, process.value(v)),
        CallInstr::TcGet => process.terminal_check(),
        CallInstr::TtyFlags(v) => m.flags_check(process, process.value(v)),
        CallInstr::Read(..) => m.read_check(process),
        CallInstr::Write(..) => m.write_check(process),
        _ => Check::Allowed,
    }
}
