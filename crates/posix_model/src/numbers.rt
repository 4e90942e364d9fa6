//! The numbers of events.

ghost use Rattle.std.specs.Prelude.{◌≡◌};
ghost use Rattle.std.specs.Int.{w32, cast_unsigned};
ghost use Rattle.posix_spec.specs.Numbers as spec;

use w32_base::{Errno, Number};

/// Whether the number is this natural number.
pub fn is_number(v: Number, n: u32) -> bool
    ensures { result ≡ spec.is_number v n }
{
    v.get() == i64::from(n)
}

/// The number, where it is natural.
pub fn natural(v: Number) -> Option<u32>
    ensures { result ≡ spec.natural_of v }
{
    if v.get() < 0 {
        None
    } else {
        Some(v.get() as u32)
    }
}

/// Whether two numbers are the same.
pub fn is_same(v: Number, n: i32) -> bool
    ensures { result ≡ spec.is_same_number v n }
{
    v.get() == i64::from(n)
}

/// The 32 bits of the result of a call that fails: minus the error's number.
pub fn error_word(e: Errno) -> u32
    ensures { result ≡ cast_unsigned w32 (spec.error_result e) }
{
    match e {
        Errno::EPERM => 4_294_967_295,
        Errno::ENOENT => 4_294_967_294,
        Errno::ESRCH => 4_294_967_293,
        Errno::EINTR => 4_294_967_292,
        Errno::EIO => 4_294_967_291,
        Errno::ECHILD => 4_294_967_286,
        Errno::EAGAIN => 4_294_967_285,
        Errno::EACCES => 4_294_967_283,
        Errno::EINVAL => 4_294_967_274,
        Errno::ENOTTY => 4_294_967_271,
    }
}
