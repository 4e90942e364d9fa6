//! The values of operands, and numbers within bounds.

ghost use Rattle.std.specs.Prelude.{◌≡◌};
ghost use Rattle.posix_spec.specs.Numbers as spec;

use crate::numbers::{is_number, natural};
use crate::process::Process;
use proc_vm::operand_value;
use w32_base::{Number, Operand};

impl Process {
    ghost use Rattle.vm_spec.specs.Image.{value_of};
    ghost use Rattle.posix_model.specs.Shown.{record_of};

    /// The value of an operand.
    pub fn value(&self, v: Operand) -> Number
        ensures { result ≡ value_of (record_of self.now).image v }
    {
        Number::signed(operand_value(&self.own, v))
    }
}

/// The number, where it is natural and no more than a bound.
pub fn natural_within(most: u32, v: Number) -> Option<u32>
    ensures { result ≡ spec.natural_within most v }
{
    match natural(v) {
        Some(n) if n <= most => Some(n),
        _ => None,
    }
}

/// Whether the number is this natural number, where there is one.
pub fn is_optional_number(v: Number, n: Option<u16>) -> bool
    ensures { result ≡ spec.is_optional_number v n }
{
    match n {
        Some(n) => is_number(v, u32::from(n)),
        None => false,
    }
}
