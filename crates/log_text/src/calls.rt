//! View `calls`: the lines of each process, and what the terminal showed.

ghost use Rattle.std.specs.Prelude.{◌≡◌, [], OnErr, OnOk};
ghost use Rattle.cyg_io.specs.Sink.{EndsOneLine};
ghost use Rattle.log_text.specs.Callers.{line_by, lines_by, groups_below};
ghost use Rattle.log_text.specs.Writes.{told, WritesAll, WritesPart};
ghost use Rattle.log_text.specs.Pieces.{IsPiece, lines_of};
ghost use Rattle.w32_base.specs.declared.entry.View.TheVariants as view;

use crate::caller::{NUMBERS, caller_of, next_number};
use crate::event::push_event;
use crate::line::Line;
use crate::output::write_output;
use cyg_io::{Sink, WriteFailed};
use w32_base::entry::Entry;

// Writes the line that an entry gives a process, if any.
fn write_entry<K: Sink>(
    line: &mut Line,
    entry: &Entry,
    number: u16,
    sink: &mut K,
) -> Result<(), WriteFailed>
    requires { line.old ≡ [] }
    ensures cleared { line.new ≡ [] }
    ensures whole { OnOk result (WritesAll EndsOneLine (line_by number entry.now.event)
        (told (K.held sink.old) (K.pieces sink.old) (K.faults sink.old))
        (told (K.held sink.new) (K.pieces sink.new) (K.faults sink.new))) }
    ensures part { OnErr result (WritesPart EndsOneLine (line_by number entry.now.event)
        (told (K.held sink.old) (K.pieces sink.old) (K.faults sink.old))
        (told (K.held sink.new) (K.pieces sink.new) (K.faults sink.new))) }
{
    match &entry.event {
        Some(event) if caller_of(&entry.event) == Some(number) => {
            push_event(line, event);
            line.write_to(sink)
        }
        _ => Ok(()),
    }
}

// Writes the lines of a process, in the journal's order.
fn write_lines_of<K: Sink>(
    line: &mut Line,
    entries: &[Entry],
    number: u16,
    sink: &mut K,
) -> Result<(), WriteFailed>
    requires { line.old ≡ [] }
    ensures cleared { line.new ≡ [] }
    ensures whole { OnOk result (WritesAll EndsOneLine (lines_by number entries.now)
        (told (K.held sink.old) (K.pieces sink.old) (K.faults sink.old))
        (told (K.held sink.new) (K.pieces sink.new) (K.faults sink.new))) }
    ensures part { OnErr result (WritesPart EndsOneLine (lines_by number entries.now)
        (told (K.held sink.old) (K.pieces sink.old) (K.faults sink.old))
        (told (K.held sink.new) (K.pieces sink.new) (K.faults sink.new))) }
{
    for entry in entries {
        write_entry(line, entry, number, sink)?;
    }
    Ok(())
}

// Writes the lines of each process, in rising order of their numbers.
fn write_groups<K: Sink>(
    line: &mut Line,
    entries: &[Entry],
    sink: &mut K,
) -> Result<(), WriteFailed>
    requires { line.old ≡ [] }
    ensures cleared { line.new ≡ [] }
    ensures whole { OnOk result (WritesAll EndsOneLine (groups_below 4002 entries.now)
        (told (K.held sink.old) (K.pieces sink.old) (K.faults sink.old))
        (told (K.held sink.new) (K.pieces sink.new) (K.faults sink.new))) }
    ensures part { OnErr result (WritesPart EndsOneLine (groups_below 4002 entries.now)
        (told (K.held sink.old) (K.pieces sink.old) (K.faults sink.old))
        (told (K.held sink.new) (K.pieces sink.new) (K.faults sink.new))) }
{
    let mut number = next_number(entries, 0);
    while number < NUMBERS {
        write_lines_of(line, entries, number, sink)?;
        number = next_number(entries, number + 1);
    }
    Ok(())
}

/// Writes the lines of each process, and then what the terminal showed. It goes over the entries twice for each process
/// that has a line, and twice more.
pub fn write_calls<K: Sink>(
    line: &mut Line,
    entries: &[Entry],
    sink: &mut K,
) -> Result<(), WriteFailed>
    requires { line.old ≡ [] }
    ensures cleared { line.new ≡ [] }
    ensures whole { OnOk result (WritesAll (IsPiece view.Calls entries.now) (lines_of view.Calls entries.now)
        (told (K.held sink.old) (K.pieces sink.old) (K.faults sink.old))
        (told (K.held sink.new) (K.pieces sink.new) (K.faults sink.new))) }
    ensures part { OnErr result (WritesPart (IsPiece view.Calls entries.now) (lines_of view.Calls entries.now)
        (told (K.held sink.old) (K.pieces sink.old) (K.faults sink.old))
        (told (K.held sink.new) (K.pieces sink.new) (K.faults sink.new))) }
{
    write_groups(line, entries, sink)?;
    write_output(line, entries, sink)
}
