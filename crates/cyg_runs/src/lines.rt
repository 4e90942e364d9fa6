//! The parts of the line of a refusal.

ghost use Rattle.std.specs.Prelude.{◌≡◌, IfOk};
ghost use Rattle.std.specs.String.{string_bytes};
ghost use Rattle.cyg_runs.specs.Refusals.{kind_word, numbered_line};

use itoa::Buffer;
use script_spec::Kind;
use std::alloc::{AllocError, Global};

/// A line of a word, a number and a word. It fails only for want of memory.
pub fn numbered(alloc: Global, first: &str, number: u32, last: &str) -> Result<String, AllocError>
    ensures { IfOk result (λ line. string_bytes line ≡ numbered_line first.now number last.now) }
{
    let mut line = String::from_str(alloc, first)?;
    line.push_str(" ")?;
    line.push_str(Buffer::new().format(number))?;
    line.push_str(" ")?;
    line.push_str(last)?;
    line.push_str("\n")?;
    Ok(line)
}

/// The name of a kind of fault.
pub fn kind_name(kind: Kind) -> &'static str
    ensures { result.now ≡ kind_word kind }
{
    match kind {
        Kind::Large => "Large",
        Kind::NoHeader => "NoHeader",
        Kind::Unfinished => "Unfinished",
        Kind::NotAscii => "NotAscii",
        Kind::TooLong => "TooLong",
        Kind::Missing => "Missing",
        Kind::Unknown => "Unknown",
        Kind::Words => "Words",
        Kind::BadNumber => "BadNumber",
        Kind::Range => "Range",
        Kind::BadName => "BadName",
        Kind::Twice => "Twice",
        Kind::TooMany => "TooMany",
        Kind::Target => "Target",
    }
}
