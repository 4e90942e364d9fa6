//! What a word of a line must be.

ghost use Rattle.std.specs.Prelude.{◌≡◌, true, IfOk, IsSome, IfSome, IsTrue, ◌↔◌, ◌<◌, nat_lt};
ghost use Rattle.std.specs.Fmt.{decimal};
ghost use Rattle.w32_base.specs.Name.{is_name};
ghost use Rattle.w32_base.specs.Names.{is_same};
ghost use Rattle.script_spec.specs.Fields.{field_fault, RegisterWord, ValueWord, PlaceWord, NameWord, KeyWord};
ghost use Rattle.script_spec.specs.InstrText.{register_text, operand_text};
ghost use Rattle.script_spec.specs.Numbers.{value_of, is_hexadecimal};
ghost use Rattle.script_spec.specs.Print.{key_text, hexadecimal_digit};
ghost use Rattle.script_spec.specs.Validity.{is_valid_operand};
ghost use Rattle.cyg_script.specs.Instructions.{clamped};
ghost use Rattle.cyg_script.specs.Results.{fault_in};

use crate::number::{is_empty, number, signed};
use script_spec::Kind;
use w32_base::{Name, Operand, Register};

/// Whether two texts are the same.
pub fn is_same(text: &[u8], word: &[u8]) -> bool
    ensures { result ≡ is_same text.now word.now }
{
    text == word
}

/// A register.
pub fn register(word: &[u8]) -> Result<Register, Kind>
    ensures fault { fault_in result ≡ field_fault RegisterWord word.now }
    ensures valid { IfOk result (λ r. nat_lt r 8 ≡ true) }
    ensures text { IfOk result (λ r. word.now ≡ register_text r) }
{
    match word {
        [b'r', digit @ b'0'..=b'7'] => Ok(Register::new(*digit - b'0')),
        _ => Err(Kind::Words),
    }
}

/// A register or a number.
pub fn operand(word: &[u8]) -> Result<Operand, Kind>
    ensures fault { fault_in result ≡ field_fault ValueWord word.now }
    ensures valid { IfOk result (λ v. is_valid_operand v ≡ true) }
    ensures text { IfOk result (λ v. word.now ≡ operand_text v) }
{
    match word {
        [b'r', ..] => match register(word) {
            Ok(r) => Ok(Operand::Register(r)),
            Err(kind) => Err(kind),
        },
        _ => match signed(word) {
            Ok(n) => Ok(Operand::Number(n)),
            Err(kind) => Err(kind),
        },
    }
}

/// The place of an instruction. One past 65,535 is past each program's end, and answered as 65,535.
pub fn place(word: &[u8]) -> Result<u16, Kind>
    ensures fault { fault_in result ≡ field_fault PlaceWord word.now }
    ensures value { IfOk result (λ p. p ≡ clamped (value_of word.now)) }
    ensures text { IfOk result (λ p. p < 65535 → word.now ≡ decimal p) }
{
    match number(word, 0, u64::MAX) {
        Ok(n) if n < 65535 => Ok(n as u16),
        Ok(_) => Ok(65535),
        Err(kind) => Err(kind),
    }
}

/// A name.
pub fn name(word: &[u8]) -> Result<Name, Kind>
    ensures fault { fault_in result ≡ field_fault NameWord word.now }
    ensures valid { IfOk result (λ n. is_name n ≡ true) }
    ensures text { IfOk result (λ n. word.now ≡ n) }
{
    if is_empty(word) {
        return Err(Kind::Words);
    }
    match Name::try_new(word) {
        Some(name) => Ok(name),
        None => Err(Kind::BadName),
    }
}

/// The value of a hexadecimal digit in lower case.
fn hexadecimal(digit: u8) -> Option<u8>
    ensures digit { IsSome result ↔ IsTrue (is_hexadecimal digit) }
    ensures value { IfSome result (λ d. (d < 16) × (digit ≡ hexadecimal_digit d)) }
{
    match digit {
        b'0'..=b'9' => Some(digit - b'0'),
        b'a'..=b'f' => Some(digit - b'a' + 10),
        _ => None,
    }
}

/// A byte as two hexadecimal digits.
pub fn key_byte(word: &[u8]) -> Result<u8, Kind>
    ensures fault { fault_in result ≡ field_fault KeyWord word.now }
    ensures text { IfOk result (λ b. word.now ≡ key_text b) }
{
    match word {
        [high, low] => match (hexadecimal(*high), hexadecimal(*low)) {
            (Some(high), Some(low)) => Ok(high * 16 + low),
            _ => Err(Kind::Words),
        },
        _ => Err(Kind::Words),
    }
}
