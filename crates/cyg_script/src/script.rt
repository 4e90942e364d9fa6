//! Reads the text of a script.

ghost use Rattle.std.specs.Prelude.{◌≡◌, ◌<◌, ◌∷◌, length};
ghost use Rattle.script_spec.specs.FirstFault.{fault_of};
ghost use Rattle.script_spec.specs.Grammar.{IsScript};
ghost use Rattle.script_spec.specs.Lines.{lines_of};
ghost use Rattle.cyg_script.specs.Judged.{Tells};

use crate::error::ScriptError;
use crate::piece::cut;
use crate::reader::Reader;
use script_spec::{Kind, MOST_BYTES, Script};
use std::alloc::Global;

/// The first line of a text that isn't empty: its bytes, whether LF ends it, and the text after it.
#[tactic(auto, using(crate::proofs::TextLines::cut_lines))]
fn first_line(text: &[u8]) -> (&[u8], bool, &[u8])
    requires { 0 < length text.now }
    ensures lines { lines_of text.now ≡ record { bytes = result.0.now; is_ended = result.1 } ∷ lines_of result.2.now }
    ensures shorter { length result.2.now < length text.now }
{
    match cut(text, b'\n') {
        (line, Some(rest)) => (line, true, rest),
        (line, None) => (line, false, &[]),
    }
}

/// Reads the text of a script: the script, or the first fault of the text.
pub fn read_script(alloc: Global, bytes: &[u8]) -> Result<Script, ScriptError>
    ensures { Tells result (fault_of bytes.now) (λ script. IsScript bytes.now script) }
{
    if bytes.len() > MOST_BYTES {
        return Err(ScriptError::Fault {
            line: 0,
            kind: Kind::Large,
        });
    }
    let mut reader = Reader::new(alloc);
    let mut rest = bytes;
    let mut line: u32 = 1;
    while !rest.is_empty() {
        let (bytes, is_ended, after) = first_line(rest);
        reader.line(alloc, line, bytes, is_ended)?;
        rest = after;
        line += 1;
    }
    reader.finish(line)
}
