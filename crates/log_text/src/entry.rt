//! The texts of entries.

ghost use Rattle.std.specs.Prelude.{◌≡◌, ◌+◌, ◌≤◌, [], ◌++◌, length};
ghost use Rattle.log_spec.specs.Views.{call_or_dash, event_or_dash, entry_text};

use crate::call::push_call;
use crate::event::push_event;
use crate::line::Line;
use crate::reply::{push_directive, push_outcome};
use w32_base::call::Call;
use w32_base::entry::Entry;
use w32_base::event::Event;

// Adds the text of a call, or `-` where there is none.
fn push_call_or_dash(line: &mut Line, call: &Option<Call>)
    requires { length line.old ≤ 400 }
    ensures text { line.new ≡ line.old ++ call_or_dash call.now }
    ensures size { length line.new ≤ length line.old + 200 }
{
    match call {
        Some(call) => push_call(line, call),
        None => line.push_text(b"-"),
    }
}

// Adds the text of an event, or `-` where there is none.
fn push_event_or_dash(line: &mut Line, event: &Option<Event>)
    requires { length line.old ≤ 400 }
    ensures text { line.new ≡ line.old ++ event_or_dash event.now }
    ensures size { length line.new ≤ length line.old + 200 }
{
    match event {
        Some(event) => push_event(line, event),
        None => line.push_text(b"-"),
    }
}

/// Adds the text of an entry with its number to an empty line.
pub fn push_entry(line: &mut Line, number: u64, entry: &Entry)
    requires { line.old ≡ [] }
    ensures { line.new ≡ entry_text number entry.now }
{
    line.push_natural(number);
    line.push_text(b" ");
    push_directive(line, entry.directive);
    line.push_text(b" | ");
    push_call_or_dash(line, &entry.call);
    line.push_text(b" | ");
    push_outcome(line, &entry.outcome);
    line.push_text(b" | ");
    push_event_or_dash(line, &entry.event);
}
