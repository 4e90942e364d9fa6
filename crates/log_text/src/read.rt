//! The events of a log in view `events`.

ghost use Rattle.std.specs.Prelude.{◌≡◌, ◌≤◌, ◌↔◌, ◌++◌, ◌∷◌, [], ℕ, suc, true, nat_eq, position, length, codes};
ghost use Rattle.std.specs.Prelude.{IfOk, IfErr, IsTrue, MatchOption};
ghost use Rattle.script_spec.specs.declared.script.Script.{Script};
ghost use Rattle.w32_base.specs.declared.event.Event.{Event};
ghost use Rattle.log_spec.specs.Texts.{line};
ghost use Rattle.log_spec.specs.Events.{event_text, is_event_within};
ghost use Rattle.log_spec.specs.EventsRead.{word_at, words_in};
ghost use Rattle.log_spec.specs.EventsText.{IsEventsText, IsLogFault, is_one_line};
ghost use Rattle.log_text.specs.ReadEvents.{event_of_words};
ghost use Rattle.log_text.specs.ReadLogs.{IsFault, is_end, most_log_bytes};

use crate::error::LogError;
use crate::event::push_event;
use crate::line::Line;
use crate::read_event::event_of;
use crate::read_words::is_same;
use crate::within::is_within;
use script_spec::Script;
use std::alloc::Global;
use w32_base::event::Event;

// The place of the first separator.
fn first_at(bytes: &[u8], separator: u8) -> Option<usize>
    ensures { result ≡ position (λ b. nat_eq b separator) bytes.now }
{
    bytes.iter().position(|b| *b == separator)
}

// The word before the first space, and what stands behind that space; both are empty where nothing is there.
fn next_word(words: &[u8]) -> (&[u8], &[u8])
    ensures first { word_at (words_in words.now) 0 ≡ result.0.now }
    ensures rest { (k : ℕ) → word_at (words_in words.now) (suc k) ≡ word_at (words_in result.1.now) k }
{
    match first_at(words, b' ') {
        Some(at) => (&words[..at], &words[at + 1..]),
        None => (words, &[]),
    }
}

// The event that the words of a line say.
#[tactic(auto, unfolding(crate::specs::ReadEvents::event_of_words))]
fn event_of_line(words: &[u8]) -> Option<Event>
    ensures { result ≡ event_of_words (words_in words.now) }
{
    let (word, rest) = next_word(words);
    let (process, rest) = next_word(rest);
    let (a, rest) = next_word(rest);
    let (b, rest) = next_word(rest);
    let (c, rest) = next_word(rest);
    let (d, _) = next_word(rest);
    event_of(word, process, a, b, c, d)
}

// Whether the line is the text of the event.
fn is_text(text: &[u8], event: &Event) -> bool
    ensures { IsTrue result ↔ (text.now ≡ event_text event.now) }
{
    let mut line = Line::new();
    push_event(&mut line, event);
    text == line.as_slice()
}

// Whether all that the event names is in its range, and the line is its text.
fn is_line_of(script: &Script, text: &[u8], event: &Event) -> bool
    ensures { IsTrue result ↔ ((is_event_within script.now event.now ≡ true) × (text.now ≡ event_text event.now)) }
{
    is_within(script, event) && is_text(text, event)
}

// The event whose text the line is.
fn read_event(script: &Script, text: &[u8]) -> Option<Event>
    ensures { MatchOption result
        ((e : Event) → is_event_within script.now e ≡ true → text.now ≡ event_text e → ⊥)
        (λ e. (is_event_within script.now e ≡ true) × (text.now ≡ event_text e)) }
{
    match event_of_line(text) {
        Some(event) => {
            if is_line_of(script, text, &event) {
                Some(event)
            } else {
                None
            }
        }
        None => None,
    }
}

// Whether the line is the last one of a log.
fn is_end(text: &[u8]) -> bool
    ensures { result ≡ is_end text.now }
{
    is_same(b"done quiet", text) || is_same(b"done given", text) || is_same(b"done budget", text)
}

// The bytes before the first line's end, and those behind it, or none where there is no end.
fn next_line(bytes: &[u8]) -> Option<(&[u8], &[u8])>
    ensures { MatchOption result (is_one_line bytes.now ≡ true)
        (λ r. (bytes.now ≡ line r.0.now ++ r.1.now) × (is_one_line r.0.now ≡ true)) }
{
    match first_at(bytes, b'\n') {
        Some(at) => Some((&bytes[..at], &bytes[at + 1..])),
        None => None,
    }
}

// What stands behind the first line of a log in view `events`.
fn behind_first(bytes: &[u8]) -> Option<&[u8]>
    ensures { MatchOption result ((script : Script) → IsLogFault script bytes.now 1)
        (λ rest. bytes.now ≡ line (codes "log events") ++ rest.now) }
{
    match next_line(bytes) {
        Some((first, rest)) => {
            if is_same(b"log events", first) {
                Some(rest)
            } else {
                None
            }
        }
        None => None,
    }
}

// Adds an event.
fn add(events: &mut Vec<Event>, event: Event) -> Result<(), LogError>
    ensures added { IfOk result (λ _. events.new.items ≡ events.old.items ++ event ∷ []) }
    ensures memory { IfErr result (λ error. error ≡ LogError.Memory) }
{
    events.extend_from_slice(&[event])?;
    Ok(())
}

/// Reads a log in view `events` of a run of the script: its events, or its first line that doesn't belong there.
pub fn read_events(alloc: Global, script: &Script, bytes: &[u8]) -> Result<Vec<Event>, LogError>
    requires { length bytes.now ≤ most_log_bytes }
    ensures events { IfOk result (λ events. IsEventsText script.now bytes.now events.items) }
    ensures fault { IfErr result (λ error. IsFault script.now bytes.now error) }
{
    let Some(mut rest) = behind_first(bytes) else {
        return Err(LogError::Fault { line: 1 });
    };
    let mut events = Vec::new(alloc);
    let mut line: u32 = 2;
    while let Some((text, after)) = next_line(rest) {
        if is_end(text) {
            if after.is_empty() {
                return Ok(events);
            }
            return Err(LogError::Fault { line: line + 1 });
        }
        let Some(event) = read_event(script, text) else {
            return Err(LogError::Fault { line });
        };
        add(&mut events, event)?;
        rest = after;
        line += 1;
    }
    Err(LogError::Fault { line })
}
