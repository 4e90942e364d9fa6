//! The values that the words of an event's line say.

ghost use Rattle.std.specs.Prelude.{◌≡◌, ◌<◌, ◌↔◌, ℤ, true, Some, IfSome, IsTrue};
ghost use Rattle.std.specs.Fmt.{signed_decimal};
ghost use Rattle.w32_base.specs.Names.{is_same};
ghost use Rattle.log_spec.specs.Words.{is_numeral};
ghost use Rattle.log_text.specs.ReadWords.{actor_of, numeral_in, name_in, errno_of, answer_of, field_of, delivery_of};
ghost use Rattle.log_text.specs.ReadWords.{hexadecimal_in, pair_in, key_in, pairs_in, shown_in};

use itoa::Buffer;
use std::str;
use w32_base::event::{Answer, Delivery, Errno, Field};
use w32_base::lists::Bytes64;
use w32_base::names::Name;
use w32_base::numbers::{Acting, Number};

/// Whether two texts are the same.
pub fn is_same(text: &[u8], word: &[u8]) -> bool
    ensures { result ≡ is_same text.now word.now }
{
    text == word
}

// The number that a text writes, where it is a number's canonical form; another text may write one too.
fn parsed(word: &[u8]) -> Option<i64>
    ensures { (z : ℤ) → is_numeral z ≡ true → word.now ≡ signed_decimal z → result ≡ Some z }
{
    match str::from_utf8(word) {
        Ok(text) => match text.parse::<i64>() {
            Ok(number) => Some(number),
            Err(_) => None,
        },
        Err(_) => None,
    }
}

// Whether the word is what the number is written as.
fn is_written(word: &[u8], number: Number) -> bool
    ensures text { IsTrue result ↔ (word.now ≡ signed_decimal number) }
    ensures range { is_numeral number ≡ true }
{
    word == Buffer::new().format(number.get()).as_bytes()
}

/// A number of an event, where the word is its canonical form.
pub fn number(word: &[u8]) -> Option<Number>
    ensures { result ≡ numeral_in word.now }
{
    let value = parsed(word)?;
    let number = Number::try_new(value)?;
    if is_written(word, number) {
        Some(number)
    } else {
        None
    }
}

// A process that acts, where the number is one's.
fn acting(number: Number) -> Option<Acting>
    ensures { result ≡ actor_of (Some number) }
{
    let value = number.get();
    if 0 <= value && value <= 4001 {
        Acting::try_new(value as u16)
    } else {
        None
    }
}

/// The process that acts, where the word is the canonical form of its number.
pub fn actor(word: &[u8]) -> Option<Acting>
    ensures { result ≡ actor_of (numeral_in word.now) }
{
    acting(number(word)?)
}

/// A name.
pub fn name(word: &[u8]) -> Option<Name>
    ensures { result ≡ name_in word.now }
{
    Name::try_new(word)
}

/// The name of an error.
pub fn errno(word: &[u8]) -> Option<Errno>
    ensures { result ≡ errno_of word.now }
{
    match word {
        b"EPERM" => Some(Errno::EPERM),
        b"ENOENT" => Some(Errno::ENOENT),
        b"ESRCH" => Some(Errno::ESRCH),
        b"EINTR" => Some(Errno::EINTR),
        b"EIO" => Some(Errno::EIO),
        b"ECHILD" => Some(Errno::ECHILD),
        b"EAGAIN" => Some(Errno::EAGAIN),
        b"EACCES" => Some(Errno::EACCES),
        b"EINVAL" => Some(Errno::EINVAL),
        b"ENOTTY" => Some(Errno::ENOTTY),
        _ => None,
    }
}

/// `0` or the name of an error.
pub fn answer(word: &[u8]) -> Option<Answer>
    ensures { result ≡ answer_of word.now }
{
    match word {
        b"0" => Some(Answer::Zero),
        _ => Some(Answer::Error(errno(word)?)),
    }
}

/// What a `get` call asks for.
pub fn field(word: &[u8]) -> Option<Field>
    ensures { result ≡ field_of word.now }
{
    match word {
        b"pid" => Some(Field::Pid),
        b"ppid" => Some(Field::Ppid),
        b"pgid" => Some(Field::Pgid),
        b"sid" => Some(Field::Sid),
        b"fg" => Some(Field::Foreground),
        _ => None,
    }
}

/// How a handler is begun.
pub fn delivery(word: &[u8]) -> Option<Delivery>
    ensures { result ≡ delivery_of word.now }
{
    match word {
        b"plain" => Some(Delivery::Plain),
        b"eintr" => Some(Delivery::Interrupting),
        _ => None,
    }
}

// The value of a hexadecimal digit in lower case.
fn hexadecimal(digit: u8) -> Option<u8>
    ensures value { result ≡ hexadecimal_in digit }
    ensures range { IfSome result (λ d. d < 16) }
{
    match digit {
        b'0'..=b'9' => Some(digit - b'0'),
        b'a'..=b'f' => Some(digit - b'a' + 10),
        _ => None,
    }
}

// A byte as two hexadecimal digits.
#[tactic(auto, unfolding(crate::specs::ReadWords::pair_in))]
fn pair(high: u8, low: u8) -> Option<u8>
    ensures { result ≡ pair_in high low }
{
    let high = hexadecimal(high)?;
    let low = hexadecimal(low)?;
    Some(high * 16 + low)
}

/// A byte as two hexadecimal digits, and nothing more.
pub fn key(word: &[u8]) -> Option<u8>
    ensures { result ≡ key_in word.now }
{
    match word {
        [high, low] => pair(*high, *low),
        _ => None,
    }
}

// The bytes so far, and those that pairs of digits add to them.
fn pairs(done: &Bytes64, word: &[u8]) -> Option<Bytes64>
    ensures { result ≡ pairs_in done.now word.now }
{
    match word {
        [] => Some(*done),
        [high, low, rest @ ..] => {
            let byte = pair(*high, *low)?;
            if done.len() >= 64 {
                return None;
            }
            let mut more = *done;
            more.push(byte);
            pairs(&more, rest)
        }
        _ => None,
    }
}

/// Up to 64 bytes as pairs of hexadecimal digits, or `-` for none.
#[tactic(auto, unfolding(crate::specs::ReadWords::shown_in))]
pub fn shown(word: &[u8]) -> Option<Bytes64>
    ensures { result ≡ shown_in word.now }
{
    match word {
        b"-" => Some(Bytes64::new()),
        _ => pairs(&Bytes64::new(), word),
    }
}
