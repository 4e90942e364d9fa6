//! Prints lines, each of words that are parted by a space and ended by LF.

ghost use Rattle.std.specs.Prelude.{◌≡◌, ◌++◌, ◌∷◌, [], OnOk, codes};
ghost use Rattle.std.specs.Fmt.{decimal};
ghost use Rattle.script_spec.specs.InstrText.{register_text, operand_text};
ghost use Rattle.script_spec.specs.Print.{key_text, line_text};

use crate::word_print::{key_byte, number, operand, register};
use std::alloc::Global;
use w32_base::{Memory, Operand, Register};

/// A line of one word.
pub fn alone(out: &mut Vec<u8>, word: &[u8]) -> Result<(), Memory>
    ensures { OnOk result (out.new.items ≡ out.old.items ++ line_text (word.now ∷ [])) }
{
    out.extend_from_slice(word)?;
    out.push(b'\n')?;
    Ok(())
}

/// A line of two words.
pub fn two_words(out: &mut Vec<u8>, word: &[u8], other: &[u8]) -> Result<(), Memory>
    ensures { OnOk result (out.new.items ≡ out.old.items ++ line_text (word.now ∷ other.now ∷ [])) }
{
    out.extend_from_slice(word)?;
    out.push(b' ')?;
    alone(out, other)
}

/// A number, and the end of the line.
fn last_number(alloc: Global, out: &mut Vec<u8>, n: u64) -> Result<(), Memory>
    ensures { OnOk result (out.new.items ≡ out.old.items ++ line_text (decimal n ∷ [])) }
{
    number(alloc, out, n)?;
    out.push(b'\n')?;
    Ok(())
}

/// A word and a number.
pub fn with_number(alloc: Global, out: &mut Vec<u8>, word: &[u8], n: u64) -> Result<(), Memory>
    ensures { OnOk result (out.new.items ≡ out.old.items ++ line_text (word.now ∷ decimal n ∷ [])) }
{
    out.extend_from_slice(word)?;
    out.push(b' ')?;
    last_number(alloc, out, n)
}

/// A word and two numbers.
pub fn with_numbers(
    alloc: Global,
    out: &mut Vec<u8>,
    word: &[u8],
    m: u64,
    n: u64,
) -> Result<(), Memory>
    ensures { OnOk result (out.new.items ≡ out.old.items ++ line_text (word.now ∷ decimal m ∷ decimal n ∷ [])) }
{
    out.extend_from_slice(word)?;
    out.push(b' ')?;
    number(alloc, out, m)?;
    out.push(b' ')?;
    last_number(alloc, out, n)
}

/// A word, a name and two numbers.
pub fn with_name(
    alloc: Global,
    out: &mut Vec<u8>,
    word: &[u8],
    name: &[u8],
    m: u64,
    n: u64,
) -> Result<(), Memory>
    ensures { OnOk result (out.new.items ≡ out.old.items ++ line_text
        (word.now ∷ name.now ∷ decimal m ∷ decimal n ∷ [])) }
{
    out.extend_from_slice(word)?;
    out.push(b' ')?;
    with_numbers(alloc, out, name, m, n)
}

/// A program's own line.
pub fn with_sizes(
    alloc: Global,
    out: &mut Vec<u8>,
    name: &[u8],
    heap: u64,
    stack: u64,
) -> Result<(), Memory>
    ensures { OnOk result (out.new.items ≡ out.old.items ++ line_text (codes "program" ∷ name.now ∷ codes "heap"
        ∷ decimal heap ∷ codes "stack" ∷ decimal stack ∷ [])) }
{
    out.extend_from_slice(b"program ")?;
    out.extend_from_slice(name)?;
    out.extend_from_slice(b" heap ")?;
    number(alloc, out, heap)?;
    out.extend_from_slice(b" stack ")?;
    last_number(alloc, out, stack)
}

/// `key` and a byte.
pub fn with_key(out: &mut Vec<u8>, byte: u8) -> Result<(), Memory>
    ensures { OnOk result (out.new.items ≡ out.old.items ++ line_text (codes "key" ∷ key_text byte ∷ [])) }
{
    out.extend_from_slice(b"key ")?;
    key_byte(out, byte)?;
    out.push(b'\n')?;
    Ok(())
}

/// An operand, and the end of the line.
fn last_operand(alloc: Global, out: &mut Vec<u8>, v: Operand) -> Result<(), Memory>
    ensures { OnOk result (out.new.items ≡ out.old.items ++ line_text (operand_text v ∷ [])) }
{
    operand(alloc, out, v)?;
    out.push(b'\n')?;
    Ok(())
}

/// A word and an operand.
pub fn with_operand(alloc: Global, out: &mut Vec<u8>, word: &[u8], v: Operand) -> Result<(), Memory>
    ensures { OnOk result (out.new.items ≡ out.old.items ++ line_text (word.now ∷ operand_text v ∷ [])) }
{
    out.extend_from_slice(word)?;
    out.push(b' ')?;
    last_operand(alloc, out, v)
}

/// A word and two operands.
pub fn with_operands(
    alloc: Global,
    out: &mut Vec<u8>,
    word: &[u8],
    u: Operand,
    v: Operand,
) -> Result<(), Memory>
    ensures { OnOk result (out.new.items ≡ out.old.items ++ line_text
        (word.now ∷ operand_text u ∷ operand_text v ∷ [])) }
{
    out.extend_from_slice(word)?;
    out.push(b' ')?;
    operand(alloc, out, u)?;
    out.push(b' ')?;
    last_operand(alloc, out, v)
}

/// A word and a register.
pub fn with_register(out: &mut Vec<u8>, word: &[u8], r: Register) -> Result<(), Memory>
    ensures { OnOk result (out.new.items ≡ out.old.items ++ line_text (word.now ∷ register_text r ∷ [])) }
{
    out.extend_from_slice(word)?;
    out.push(b' ')?;
    register(out, r)?;
    out.push(b'\n')?;
    Ok(())
}

/// A word, a register and an operand.
pub fn with_register_operand(
    alloc: Global,
    out: &mut Vec<u8>,
    word: &[u8],
    r: Register,
    v: Operand,
) -> Result<(), Memory>
    ensures { OnOk result (out.new.items ≡ out.old.items ++ line_text
        (word.now ∷ register_text r ∷ operand_text v ∷ [])) }
{
    out.extend_from_slice(word)?;
    out.push(b' ')?;
    register(out, r)?;
    out.push(b' ')?;
    last_operand(alloc, out, v)
}

/// A word, an operand and a place.
pub fn with_operand_place(
    alloc: Global,
    out: &mut Vec<u8>,
    word: &[u8],
    v: Operand,
    n: u16,
) -> Result<(), Memory>
    ensures { OnOk result (out.new.items ≡ out.old.items ++ line_text (word.now ∷ operand_text v ∷ decimal n ∷ [])) }
{
    out.extend_from_slice(word)?;
    out.push(b' ')?;
    operand(alloc, out, v)?;
    out.push(b' ')?;
    last_number(alloc, out, u64::from(n))
}

/// A word, an operand and another word.
pub fn with_operand_word(
    alloc: Global,
    out: &mut Vec<u8>,
    word: &[u8],
    v: Operand,
    other: &[u8],
) -> Result<(), Memory>
    ensures { OnOk result (out.new.items ≡ out.old.items ++ line_text (word.now ∷ operand_text v ∷ other.now ∷ [])) }
{
    out.extend_from_slice(word)?;
    out.push(b' ')?;
    operand(alloc, out, v)?;
    out.push(b' ')?;
    alone(out, other)
}

/// Two words and an operand.
pub fn with_word_operand(
    alloc: Global,
    out: &mut Vec<u8>,
    word: &[u8],
    other: &[u8],
    v: Operand,
) -> Result<(), Memory>
    ensures { OnOk result (out.new.items ≡ out.old.items ++ line_text (word.now ∷ other.now ∷ operand_text v ∷ [])) }
{
    out.extend_from_slice(word)?;
    out.push(b' ')?;
    with_operand(alloc, out, other, v)
}

/// `action V handler N`.
pub fn with_handler(alloc: Global, out: &mut Vec<u8>, v: Operand, n: u16) -> Result<(), Memory>
    ensures { OnOk result (out.new.items ≡ out.old.items
        ++ line_text (codes "action" ∷ operand_text v ∷ codes "handler" ∷ decimal n ∷ [])) }
{
    out.extend_from_slice(b"action ")?;
    operand(alloc, out, v)?;
    out.push(b' ')?;
    with_number(alloc, out, b"handler", u64::from(n))
}

/// `action V handler N restart`.
pub fn with_restart(alloc: Global, out: &mut Vec<u8>, v: Operand, n: u16) -> Result<(), Memory>
    ensures { OnOk result (out.new.items ≡ out.old.items
        ++ line_text (codes "action" ∷ operand_text v ∷ codes "handler" ∷ decimal n ∷ codes "restart" ∷ [])) }
{
    out.extend_from_slice(b"action ")?;
    operand(alloc, out, v)?;
    out.extend_from_slice(b" handler ")?;
    number(alloc, out, u64::from(n))?;
    out.extend_from_slice(b" restart\n")?;
    Ok(())
}
