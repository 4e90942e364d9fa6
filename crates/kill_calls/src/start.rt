//! What a kill comes to where it is next in a program.

ghost use Rattle.std.specs.Prelude.{◌≡◌, ◌<◌, ◌≤◌, Some};
ghost use Rattle.posix_spec.specs.GroupCalls.{killing_signal};
ghost use Rattle.kill_calls.specs.KillStart.{kill_starts, as_signal, kill_by_target, has_row};
ghost use Rattle.posix_spec.specs.KillSteps.{One, target_of};

use crate::one::KillOne;
use roster::Signal;
use w32_base::{Errno, Pid, Setup};

/// What a kill comes to where it is next in a program.
#[derive(Clone, Copy, Debug, PartialEq, Eq)]
pub enum KillStart {
    /// It is refused at once: EINVAL where the signal isn't 0 to 31 or the target is -1, ESRCH where no row has the
    /// target's number.
    Refused(Errno),
    /// One process is its target.
    One(KillOne),
    /// A group is its target.
    Group,
}

// The signal that is posted: none for a check only.
fn as_signal(number: u8) -> Option<Signal>
    requires { number ≤ 31 }
    ensures { result ≡ as_signal number }
{
    if number == 0 {
        None
    } else {
        Some(Signal::new(number))
    }
}

// The signal's number, from 0 to 31.
fn killing_signal(signal: i32) -> Option<u8>
    ensures { result ≡ killing_signal signal }
{
    if 0 <= signal && signal <= 31 {
        Some(signal as u8)
    } else {
        None
    }
}

// One process is the target of a kill with this signal, which has its row or none.
fn of_one(setup: &Setup, by: Pid, target: u32, signal: u8) -> KillStart
    requires { signal ≤ 31 }
    ensures { result ≡ kill_by_target setup.now.limits.rows by (Some signal) (One target) }
{
    if target < 2 || target > u32::from(setup.limits.rows) + 1 {
        return KillStart::Refused(Errno::ESRCH);
    }
    let row = Pid::new(target as u16).row();
    KillStart::One(KillOne::new(by, row, as_signal(signal)))
}

/// What a process's kill comes to, by the values of its target and its signal.
pub fn begin(setup: &Setup, by: Pid, target: i32, signal: i32) -> KillStart
    ensures { result ≡ kill_starts setup.now.limits.rows by target signal }
{
    match killing_signal(signal) {
        None => KillStart::Refused(Errno::EINVAL),
        Some(number) => {
            if target == -1 {
                KillStart::Refused(Errno::EINVAL)
            } else if target <= 0 {
                KillStart::Group
            } else {
                of_one(setup, by, target as u32, number)
            }
        }
    }
}
