//! The line of view `calls` with what the terminal showed.

ghost use Rattle.std.specs.Prelude.{◌≡◌, ◌<◌, [], length, flat_map, IfOk, OnOk, OnErr, IsTrue, ◌↔◌};
ghost use Rattle.log_spec.specs.CallsViewLaws.{StandsIn};
ghost use Rattle.log_spec.specs.Texts.{byte_text};
ghost use Rattle.log_spec.specs.Output.{output_from};
ghost use Rattle.tty_spec.specs.Terminal.{opening_terminal};
ghost use Rattle.w32_base.specs.declared.entry.View.TheVariants as view;
ghost use Rattle.log_text.specs.Writes.{told, WritesAll, WritesPart};
ghost use Rattle.log_text.specs.Pieces.{IsPiece, terminal_line};

use crate::line::Line;
use crate::terminal::after_entry;
use crate::words::push_bytes;
use cyg_io::{Sink, WriteFailed};
use tty_line::Tty;
use w32_base::entry::Entry;

// Writes what the entries show, in hexadecimal digits, and answers whether that is something.
fn write_shown<K: Sink>(
    line: &mut Line,
    entries: &[Entry],
    sink: &mut K,
) -> Result<bool, WriteFailed>
    requires { line.old ≡ [] }
    ensures cleared { line.new ≡ [] }
    ensures some { IfOk result (λ some. IsTrue some ↔ (0 < length (output_from opening_terminal entries.now))) }
    ensures whole { OnOk result (WritesAll (StandsIn (flat_map byte_text (output_from opening_terminal entries.now)))
        (flat_map byte_text (output_from opening_terminal entries.now))
        (told (K.held sink.old) (K.pieces sink.old) (K.faults sink.old))
        (told (K.held sink.new) (K.pieces sink.new) (K.faults sink.new))) }
    ensures part { OnErr result (WritesPart (StandsIn (flat_map byte_text (output_from opening_terminal entries.now)))
        (flat_map byte_text (output_from opening_terminal entries.now))
        (told (K.held sink.old) (K.pieces sink.old) (K.faults sink.old))
        (told (K.held sink.new) (K.pieces sink.new) (K.faults sink.new))) }
{
    let mut tty = Tty::new();
    let mut some = false;
    for entry in entries {
        let shown = after_entry(&mut tty, entry);
        some = some || !shown.is_empty();
        push_bytes(line, shown.as_slice());
        line.write_part(sink)?;
    }
    Ok(some)
}

/// Writes the line.
pub fn write_output<K: Sink>(
    line: &mut Line,
    entries: &[Entry],
    sink: &mut K,
) -> Result<(), WriteFailed>
    requires { line.old ≡ [] }
    ensures cleared { line.new ≡ [] }
    ensures whole { OnOk result (WritesAll (IsPiece view.Calls entries.now) (terminal_line entries.now)
        (told (K.held sink.old) (K.pieces sink.old) (K.faults sink.old))
        (told (K.held sink.new) (K.pieces sink.new) (K.faults sink.new))) }
    ensures part { OnErr result (WritesPart (IsPiece view.Calls entries.now) (terminal_line entries.now)
        (told (K.held sink.old) (K.pieces sink.old) (K.faults sink.old))
        (told (K.held sink.new) (K.pieces sink.new) (K.faults sink.new))) }
{
    line.push_text(b"tty ");
    line.write_part(sink)?;
    let some = write_shown(line, entries, sink)?;
    if !some {
        line.push_text(b"-");
    }
    line.write_to(sink)
}
