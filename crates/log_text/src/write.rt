//! The log of a journal, written to a sink.

ghost use Rattle.std.specs.Prelude.{◌≡◌, ◌≤◌, [], length, OnOk, OnErr, IsTrue};
ghost use Rattle.std.specs.Io.KnownBytes.{Appends};
ghost use Rattle.cyg_io.specs.Counts.{RoseBy};
ghost use Rattle.cyg_io.specs.Sink.{AppendsPart, TakesOnly, EndsOneLine};
ghost use Rattle.log_spec.specs.EventsText.{is_one_line};
ghost use Rattle.log_spec.specs.Views.{view_text, end_text, events_of, event_lines, entry_lines, log_text};
ghost use Rattle.log_text.specs.Writes.{told, WritesAll, WritesPart};
ghost use Rattle.log_text.specs.Pieces.{IsPiece, IsWithinLine, lines_of, event_line};

use crate::calls::write_calls;
use crate::entry::push_entry;
use crate::event::push_event;
use crate::line::Line;
use cyg_io::{Sink, WriteFailed};
use script_spec::Script;
use w32_base::entry::{End, Entry, View};
use w32_base::event::Event;

// The first line of a log, without its end.
fn view_line(view: View) -> &'static [u8]
    ensures text { result.now ≡ view_text view }
    ensures size { length result.now ≤ 20 }
    ensures one_line { IsTrue (is_one_line result.now) }
{
    match view {
        View::All => b"log all",
        View::Events => b"log events",
        View::Calls => b"log calls",
    }
}

// The last line of a log, without its end.
fn end_line(end: End) -> &'static [u8]
    ensures text { result.now ≡ end_text end }
    ensures size { length result.now ≤ 20 }
    ensures one_line { IsTrue (is_one_line result.now) }
{
    match end {
        End::Quiet => b"done quiet",
        End::Given => b"done given",
        End::Budget => b"done budget",
    }
}

// Writes a line of each entry.
fn write_entries<K: Sink>(
    line: &mut Line,
    entries: &[Entry],
    sink: &mut K,
) -> Result<(), WriteFailed>
    requires { line.old ≡ [] }
    ensures cleared { line.new ≡ [] }
    ensures whole { OnOk result (WritesAll EndsOneLine (entry_lines 1 entries.now)
        (told (K.held sink.old) (K.pieces sink.old) (K.faults sink.old))
        (told (K.held sink.new) (K.pieces sink.new) (K.faults sink.new))) }
    ensures part { OnErr result (WritesPart EndsOneLine (entry_lines 1 entries.now)
        (told (K.held sink.old) (K.pieces sink.old) (K.faults sink.old))
        (told (K.held sink.new) (K.pieces sink.new) (K.faults sink.new))) }
{
    for (index, entry) in entries.iter().enumerate() {
        push_entry(line, index as u64 + 1, entry);
        line.write_to(sink)?;
    }
    Ok(())
}

// Writes the line of an event, where there is one.
fn write_event<K: Sink>(
    line: &mut Line,
    event: &Option<Event>,
    sink: &mut K,
) -> Result<(), WriteFailed>
    requires { line.old ≡ [] }
    ensures cleared { line.new ≡ [] }
    ensures whole { OnOk result (WritesAll EndsOneLine (event_line event.now)
        (told (K.held sink.old) (K.pieces sink.old) (K.faults sink.old))
        (told (K.held sink.new) (K.pieces sink.new) (K.faults sink.new))) }
    ensures part { OnErr result (WritesPart EndsOneLine (event_line event.now)
        (told (K.held sink.old) (K.pieces sink.old) (K.faults sink.old))
        (told (K.held sink.new) (K.pieces sink.new) (K.faults sink.new))) }
{
    match event {
        Some(event) => {
            push_event(line, event);
            line.write_to(sink)
        }
        None => Ok(()),
    }
}

// Writes a line of each event.
fn write_events<K: Sink>(
    line: &mut Line,
    entries: &[Entry],
    sink: &mut K,
) -> Result<(), WriteFailed>
    requires { line.old ≡ [] }
    ensures cleared { line.new ≡ [] }
    ensures whole { OnOk result (WritesAll EndsOneLine (event_lines (events_of entries.now))
        (told (K.held sink.old) (K.pieces sink.old) (K.faults sink.old))
        (told (K.held sink.new) (K.pieces sink.new) (K.faults sink.new))) }
    ensures part { OnErr result (WritesPart EndsOneLine (event_lines (events_of entries.now))
        (told (K.held sink.old) (K.pieces sink.old) (K.faults sink.old))
        (told (K.held sink.new) (K.pieces sink.new) (K.faults sink.new))) }
{
    for entry in entries {
        write_event(line, &entry.event, sink)?;
    }
    Ok(())
}

// Writes the lines of a view between the first line and the last.
fn write_lines<K: Sink>(
    line: &mut Line,
    entries: &[Entry],
    view: View,
    sink: &mut K,
) -> Result<(), WriteFailed>
    requires { line.old ≡ [] }
    ensures cleared { line.new ≡ [] }
    ensures whole { OnOk result (WritesAll (IsPiece view entries.now) (lines_of view entries.now)
        (told (K.held sink.old) (K.pieces sink.old) (K.faults sink.old))
        (told (K.held sink.new) (K.pieces sink.new) (K.faults sink.new))) }
    ensures part { OnErr result (WritesPart (IsPiece view entries.now) (lines_of view entries.now)
        (told (K.held sink.old) (K.pieces sink.old) (K.faults sink.old))
        (told (K.held sink.new) (K.pieces sink.new) (K.faults sink.new))) }
{
    match view {
        View::All => write_entries(line, entries, sink),
        View::Events => write_events(line, entries, sink),
        View::Calls => write_calls(line, entries, sink),
    }
}

/// Writes the log of a journal in a view, without taking memory. A piece that it hands to the sink is a line, or the
/// rest of one; the line of what the terminal showed goes out in parts.
///
/// Where it fails, the sink had one fault, and some first bytes of the log went out. It takes entries with whatever
/// events; the script, which the journal is one of, isn't looked at.
pub fn write_log<K: Sink>(
    _script: &Script,
    entries: &[Entry],
    end: End,
    view: View,
    sink: &mut K,
) -> Result<(), WriteFailed>
    ensures whole { OnOk result (Appends (K.held sink.old) (K.held sink.new) (log_text view entries.now end)) }
    ensures no_fault { OnOk result (K.faults sink.new ≡ K.faults sink.old) }
    ensures failed { OnErr result (RoseBy 1 (K.faults sink.old) (K.faults sink.new)) }
    ensures part { OnErr result (AppendsPart (K.held sink.old) (K.held sink.new) (log_text view entries.now end)) }
    ensures pieces { TakesOnly (IsPiece view entries.now) (K.pieces sink.old) (K.pieces sink.new) }
    ensures within { TakesOnly IsWithinLine (K.pieces sink.old) (K.pieces sink.new) }
{
    let mut line = Line::new();
    line.push_text(view_line(view));
    line.write_to(sink)?;
    write_lines(&mut line, entries, view, sink)?;
    line.push_text(end_line(end));
    line.write_to(sink)
}
