//! What the data region of a process holds.

ghost use Rattle.std.specs.Prelude.{◌≡◌, length};
ghost use Rattle.vm_spec.specs.Image.{image_of, register_of, value_of, place_of, in_use, program_of};

use crate::words::word;
use vm_spec::{IN_USE_AT, PLACE_AT, PROGRAM_AT};
use w32_base::{Operand, Own, Register};

/// What a register holds.
pub fn register(own: &Own, r: Register) -> i32
    requires { length own.now.dat ≡ 64 }
    ensures { result ≡ register_of (image_of own.now) r }
{
    word(&own.dat, 4 * r.get() as usize).cast_signed()
}

/// The value of an operand: what the register holds, or the number itself.
pub fn operand_value(own: &Own, v: Operand) -> i32
    requires { length own.now.dat ≡ 64 }
    ensures { result ≡ value_of (image_of own.now) v }
{
    match v {
        Operand::Register(r) => register(own, r),
        Operand::Number(number) => number,
    }
}

/// The place of the next instruction.
pub fn next_place(own: &Own) -> u32
    requires { length own.now.dat ≡ 64 }
    ensures { result ≡ place_of (image_of own.now) }
{
    word(&own.dat, PLACE_AT)
}

/// How many bytes of stack are in use.
pub fn stack_in_use(own: &Own) -> u32
    requires { length own.now.dat ≡ 64 }
    ensures { result ≡ in_use (image_of own.now) }
{
    word(&own.dat, IN_USE_AT)
}

/// The program's number.
pub fn program_number(own: &Own) -> u32
    requires { length own.now.dat ≡ 64 }
    ensures { result ≡ program_of (image_of own.now) }
{
    word(&own.dat, PROGRAM_AT)
}
