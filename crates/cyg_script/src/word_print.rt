//! Prints words.

ghost use Rattle.std.specs.Prelude.{◌≡◌, ◌<◌, ◌++◌, OnOk};
ghost use Rattle.std.specs.Fmt.{decimal, signed_decimal};
ghost use Rattle.script_spec.specs.InstrText.{register_text, operand_text};
ghost use Rattle.script_spec.specs.Print.{key_text, hexadecimal_digit};

use std::alloc::Global;
use w32_base::{Memory, Operand, Register};

/// A number without a sign.
pub fn number(alloc: Global, out: &mut Vec<u8>, n: u64) -> Result<(), Memory>
    ensures { OnOk result (out.new.items ≡ out.old.items ++ decimal n) }
{
    let text = format!(in alloc; "{n}")?;
    out.extend_from_slice(text.as_bytes())?;
    Ok(())
}

/// A number that may have a sign.
fn signed(alloc: Global, out: &mut Vec<u8>, n: i32) -> Result<(), Memory>
    ensures { OnOk result (out.new.items ≡ out.old.items ++ signed_decimal n) }
{
    let text = format!(in alloc; "{n}")?;
    out.extend_from_slice(text.as_bytes())?;
    Ok(())
}

/// A register.
pub fn register(out: &mut Vec<u8>, r: Register) -> Result<(), Memory>
    ensures { OnOk result (out.new.items ≡ out.old.items ++ register_text r) }
{
    out.push(b'r')?;
    out.push(b'0' + r.get())?;
    Ok(())
}

/// A register or a number.
pub fn operand(alloc: Global, out: &mut Vec<u8>, v: Operand) -> Result<(), Memory>
    ensures { OnOk result (out.new.items ≡ out.old.items ++ operand_text v) }
{
    match v {
        Operand::Register(r) => {
            register(out, r)?;
        }
        Operand::Number(n) => {
            signed(alloc, out, n)?;
        }
    }
    Ok(())
}

/// A hexadecimal digit in lower case.
fn hexadecimal(digit: u8) -> u8
    requires { digit < 16 }
    ensures { result ≡ hexadecimal_digit digit }
{
    if digit < 10 { b'0' + digit } else { 87 + digit }
}

/// A byte as two of them.
pub fn key_byte(out: &mut Vec<u8>, byte: u8) -> Result<(), Memory>
    ensures { OnOk result (out.new.items ≡ out.old.items ++ key_text byte) }
{
    out.push(hexadecimal(byte / 16))?;
    out.push(hexadecimal(byte % 16))?;
    Ok(())
}
