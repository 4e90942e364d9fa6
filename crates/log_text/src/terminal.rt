//! What the terminal shows in a run.

ghost use Rattle.std.specs.Prelude.{◌≡◌};
ghost use Rattle.log_spec.specs.Output.{terminal_after, echo_of, shown_by};

use tty_line::Tty;
use w32_base::Bytes64;
use w32_base::call::{Call, Reply, TtyOp};
use w32_base::entry::{Entry, Outcome};
use w32_base::event::Event;

// Takes a reply `line` to a call: the first bytes of a line are gone, where the call was a `take`.
fn after_line(tty: &mut Tty, call: &Option<Call>, taken: u8)
    ensures { tty.new ≡ terminal_after tty.old call.now (Outcome.Step (Reply.Line taken)) }
{
    match call {
        Some(Call::Tty(_, TtyOp::Take(_, n, _))) => {
            if *n <= 64 {
                tty.take_line(*n as u8);
            }
        }
        _ => {}
    }
}

// Takes a reply `done` to a call: the flags are new, where the call set them.
fn after_done(tty: &mut Tty, call: &Option<Call>)
    ensures { tty.new ≡ terminal_after tty.old call.now (Outcome.Step Reply.Done) }
{
    match call {
        Some(Call::Tty(_, TtyOp::Flags(_, n, _))) => tty.set_flags(*n),
        _ => {}
    }
}

// Takes the outcome of a call, and answers the echo of the key that it names.
fn after_outcome(tty: &mut Tty, call: &Option<Call>, outcome: &Outcome) -> Bytes64
    ensures echo { result ≡ echo_of tty.old outcome.now }
    ensures terminal { tty.new ≡ terminal_after tty.old call.now outcome.now }
{
    match outcome {
        Outcome::Step(Reply::Key(byte, ..)) => return tty.key(*byte).echo,
        Outcome::Step(Reply::Line(taken)) => after_line(tty, call, *taken),
        Outcome::Step(Reply::Done) => after_done(tty, call),
        _ => {}
    }
    Bytes64::new()
}

/// Takes an entry, and answers what it shows.
pub fn after_entry(tty: &mut Tty, entry: &Entry) -> Bytes64
    ensures shown { result ≡ shown_by tty.old entry.now.outcome entry.now.event }
    ensures terminal { tty.new ≡ terminal_after tty.old entry.now.call entry.now.outcome }
{
    let echo = after_outcome(tty, &entry.call, &entry.outcome);
    match &entry.event {
        Some(Event::Key(..)) => echo,
        Some(Event::Write(_, _, bytes)) => *bytes,
        _ => Bytes64::new(),
    }
}
