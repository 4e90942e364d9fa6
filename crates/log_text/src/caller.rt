//! The processes that have lines in view `calls`, and the lines that an entry gives them.

ghost use Rattle.std.specs.Prelude.{◌≡◌, ◌≤◌, IfSome};
ghost use Rattle.log_text.specs.Callers.{caller, IsNext};

use w32_base::entry::Entry;
use w32_base::event::Event;

/// The numbers of processes are below this.
pub const NUMBERS: u16 = 4002;

/// The process that acts in an event that has a line in view `calls`, or none where there is no such event.
pub fn caller_of(event: &Option<Event>) -> Option<u16>
    ensures value { result ≡ caller event.now }
    ensures range { IfSome result (λ p. p ≤ 4001) }
{
    match event {
        Some(
            Event::Get(p, ..)
            | Event::Fork(p, _)
            | Event::ForkFail(p, _)
            | Event::Exec(p, _)
            | Event::ExecFail(p, _)
            | Event::Kill(p, ..)
            | Event::GroupDone(p, ..)
            | Event::Nothing(p)
            | Event::Reap(p, ..)
            | Event::Report(p, ..)
            | Event::NoChild(p)
            | Event::Refuse(p, _)
            | Event::Mask(p, _)
            | Event::SetAction(p, ..)
            | Event::Suspend(p, _)
            | Event::Return(p)
            | Event::Deliver(p, ..)
            | Event::Stop(p, _)
            | Event::Die(p, ..)
            | Event::SetPgid(p, ..)
            | Event::SetSid(p)
            | Event::TcSet(p, _)
            | Event::Flags(p, _)
            | Event::Line(p, ..)
            | Event::Write(p, ..)
            | Event::Key(p, _)
            | Event::Host(p, _),
        ) => Some(p.get()),
        _ => None,
    }
}

/// The least process from `least` up that has a line in view `calls`, or 4002 where none has.
pub fn next_number(entries: &[Entry], least: u16) -> u16
    requires { least ≤ 4002 }
    ensures { IsNext least result entries.now }
{
    let mut next = NUMBERS;
    for entry in entries {
        if let Some(number) = caller_of(&entry.event) {
            if least <= number && number < next {
                next = number;
            }
        }
    }
    next
}
