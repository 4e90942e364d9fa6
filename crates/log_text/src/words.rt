//! The words of a line.

ghost use Rattle.std.specs.Prelude.{◌≡◌, ◌+◌, ◌≤◌, ◌<◌, ◌∷◌, ◌++◌, ◌*◌, [], length, flat_map, IsTrue, false};
ghost use Rattle.std.specs.Fmt.{decimal, signed_decimal, digit_glyph};
ghost use Rattle.log_spec.specs.EventsText.{is_one_line};
ghost use Rattle.log_spec.specs.Texts.{byte_text, bytes_text, list_text, flag_text};

use crate::line::Line;
use w32_base::lists::{Bytes64, HandleList};
use w32_base::names::Name;
use w32_base::numbers::{Acting, Number};

/// Adds a space and a word.
pub fn add_word(line: &mut Line, word: &[u8])
    requires room { length line.old + length word.now + 1 ≤ 639 }
    requires one_line { IsTrue (is_one_line word.now) }
    ensures text { line.new ≡ line.old ++ 32 ∷ word.now }
    ensures size { length line.new ≡ length line.old + length word.now + 1 }
{
    line.push_text(b" ");
    line.push_text(word);
}

/// Adds a space and a number.
pub fn add_natural(line: &mut Line, number: u64)
    requires { length line.old + 21 ≤ 639 }
    ensures text { line.new ≡ line.old ++ 32 ∷ decimal number }
    ensures size { length line.new ≤ length line.old + 21 }
{
    line.push_text(b" ");
    line.push_natural(number);
}

/// Adds a space and a number of an event.
pub fn add_number(line: &mut Line, number: Number)
    requires { length line.old + 21 ≤ 639 }
    ensures text { line.new ≡ line.old ++ 32 ∷ signed_decimal number }
    ensures size { length line.new ≤ length line.old + 21 }
{
    line.push_text(b" ");
    line.push_number(number);
}

/// Adds a space and the process that acts.
pub fn add_actor(line: &mut Line, actor: Acting)
    requires { length line.old + 21 ≤ 639 }
    ensures text { line.new ≡ line.old ++ 32 ∷ decimal actor }
    ensures size { length line.new ≤ length line.old + 21 }
{
    add_natural(line, u64::from(actor.get()));
}

/// Adds a space and a truth value.
pub fn add_flag(line: &mut Line, flag: bool)
    requires { length line.old + 2 ≤ 639 }
    ensures text { line.new ≡ line.old ++ 32 ∷ flag_text flag }
    ensures size { length line.new ≡ length line.old + 2 }
{
    if flag {
        line.push_text(b" 1");
    } else {
        line.push_text(b" 0");
    }
}

/// Adds a space and a name.
pub fn add_name(line: &mut Line, name: &Name)
    requires { length line.old + 17 ≤ 639 }
    ensures text { line.new ≡ line.old ++ 32 ∷ name.now }
    ensures size { length line.new ≤ length line.old + 17 }
{
    add_word(line, name.as_slice());
}

// Adds a comma and a number.
fn push_next(line: &mut Line, number: u8)
    requires { length line.old + 4 ≤ 639 }
    ensures text { line.new ≡ line.old ++ 44 ∷ decimal number }
    ensures size { length line.new ≤ length line.old + 4 }
{
    line.push_text(b",");
    line.push_small(number);
}

// Adds the numbers, each behind a comma.
fn push_rest(line: &mut Line, numbers: &[u8])
    requires { length line.old + 4 * length numbers.now ≤ 639 }
    ensures text { line.new ≡ line.old ++ flat_map (λ n. 44 ∷ decimal n) numbers.now }
    ensures size { length line.new ≤ length line.old + 4 * length numbers.now }
{
    for number in numbers {
        push_next(line, *number);
    }
}

/// Adds a space and the numbers of a list of handles.
pub fn add_list(line: &mut Line, handles: &HandleList)
    requires { length line.old + 161 ≤ 639 }
    ensures text { line.new ≡ line.old ++ 32 ∷ list_text handles.now }
    ensures size { length line.new ≤ length line.old + 161 }
{
    match handles.numbers() {
        [] => line.push_text(b" -"),
        [first, rest @ ..] => {
            line.push_text(b" ");
            line.push_small(*first);
            push_rest(line, rest);
        }
    }
}

// A hexadecimal digit in lower case.
fn glyph(digit: u8) -> u8
    requires { digit < 16 }
    ensures value { result ≡ digit_glyph false digit }
    ensures range { 48 ≤ result }
{
    if digit < 10 { b'0' + digit } else { 87 + digit }
}

/// Adds a byte as two hexadecimal digits.
pub fn push_byte(line: &mut Line, byte: u8)
    requires { length line.old + 2 ≤ 639 }
    ensures text { line.new ≡ line.old ++ byte_text byte }
    ensures size { length line.new ≡ length line.old + 2 }
{
    line.push_text(&[glyph(byte / 16), glyph(byte % 16)]);
}

/// Adds bytes as pairs of hexadecimal digits.
pub fn push_bytes(line: &mut Line, bytes: &[u8])
    requires { length line.old + 2 * length bytes.now ≤ 639 }
    ensures text { line.new ≡ line.old ++ flat_map byte_text bytes.now }
    ensures size { length line.new ≡ length line.old + 2 * length bytes.now }
{
    for byte in bytes {
        push_byte(line, *byte);
    }
}

/// Adds a space and bytes.
pub fn add_bytes(line: &mut Line, bytes: &Bytes64)
    requires { length line.old + 129 ≤ 639 }
    ensures text { line.new ≡ line.old ++ 32 ∷ bytes_text bytes.now }
    ensures size { length line.new ≤ length line.old + 129 }
{
    if bytes.len() > 0 {
        line.push_text(b" ");
        push_bytes(line, bytes.as_slice());
    } else {
        line.push_text(b" -");
    }
}
