//! The result of a call.

ghost use Rattle.std.specs.Prelude.{◌≡◌, ◌≤◌, ◌<◌};
ghost use Rattle.posix_spec.specs.Numbers.{answer_result};
ghost use Rattle.layer_turns.specs.OwnTurns.{can_take, with_answer};

use proc_vm::{next_place, set_result};
use w32_base::{Answer, Errno, Own};

/// Gives a call its result, in r0, and moves to the following instruction; whether the image can take it. Where it
/// can't, nothing changes.
pub fn answer(own: &mut Own, r0: i32) -> bool
    ensures taken { result ≡ can_take own.old }
    ensures value { own.new ≡ with_answer own.old r0 }
{
    if own.dat.len() == 64 && next_place(own) < u32::MAX {
        set_result(own, r0, None);
        true
    } else {
        false
    }
}

/// The result of a call with this answer: 0, or minus the error's number.
pub fn result_of(answer: Answer) -> i32
    ensures { result ≡ answer_result answer }
{
    match answer {
        Answer::Zero => 0,
        Answer::Error(errno) => match errno {
            Errno::EPERM => -1,
            Errno::ENOENT => -2,
            Errno::ESRCH => -3,
            Errno::EINTR => -4,
            Errno::EIO => -5,
            Errno::ECHILD => -10,
            Errno::EAGAIN => -11,
            Errno::EACCES => -13,
            Errno::EINVAL => -22,
            Errno::ENOTTY => -25,
        },
    }
}
