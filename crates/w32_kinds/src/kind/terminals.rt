//! What the calls on the terminal do to an object.

ghost use Rattle.std.specs.Prelude.{◌≡◌, ◌≤◌, is_some, option_copied};
ghost use Rattle.tty_spec.specs.Discipline.{has_flag, tostop_flag};
ghost use Rattle.win32_spec.specs.TerminalCalls.{is_background};

use crate::kind::Kind;
use tty_line::Tty;
use w32_base::{Bytes64, Pid, Reply};

/// The flag under which a background group may not write.
const TOSTOP: u8 = 8;

impl Kind {
    ghost use Rattle.w32_kinds.specs.Terminals.{terminal_of, Presses, ChangesBy, Tells, TakesLine};

    /// The terminal that it is.
    pub fn terminal(&self) -> Option<&Tty>
        ensures { option_copied result ≡ terminal_of self.now }
    {
        match self {
            Kind::Terminal(terminal) => Some(&**terminal),
            _ => None,
        }
    }

    /// Whether it is the terminal.
    pub fn is_terminal(&self) -> bool
        ensures { result ≡ is_some (terminal_of self.now) }
    {
        matches!(self, Kind::Terminal(_))
    }

    /// Takes a key.
    pub fn press(&mut self, b: u8) -> Reply
        ensures { Presses b self.old result self.new }
    {
        match self {
            Kind::Terminal(terminal) => {
                let group = terminal.state().fg;
                let done = terminal.key(b);
                Reply::Key(b, done.signal.unwrap_or(0), group)
            }
            _ => Reply::BadHandle,
        }
    }

    /// Takes at most `count` bytes of the first done line, for a group in the foreground.
    pub fn take_line(&mut self, group: Pid, count: u8) -> Result<Bytes64, Reply>
        requires { count ≤ 64 }
        ensures { TakesLine group count self.old result self.new }
    {
        match self {
            Kind::Terminal(terminal) => {
                if is_behind(terminal, group) {
                    return Err(Reply::Background);
                }
                match terminal.take_line(count) {
                    Some(bytes) => Ok(bytes),
                    None => Err(Reply::NoLine),
                }
            }
            _ => Err(Reply::BadHandle),
        }
    }

    /// Sets the foreground group.
    pub fn set_foreground(&mut self, group: Pid, next: Pid, force: bool) -> Reply
        ensures { ChangesBy group force (λ t. record t { foreground = next }) self.old result self.new }
    {
        match self {
            Kind::Terminal(terminal) => {
                if is_behind(terminal, group) && !force {
                    return Reply::Background;
                }
                terminal.set_fg(next);
                Reply::Done
            }
            _ => Reply::BadHandle,
        }
    }

    /// Sets the flags.
    pub fn set_flags(&mut self, group: Pid, flags: u8, force: bool) -> Reply
        ensures { ChangesBy group force (λ t. record t { flags = flags }) self.old result self.new }
    {
        match self {
            Kind::Terminal(terminal) => {
                if is_behind(terminal, group) && !force {
                    return Reply::Background;
                }
                terminal.set_flags(flags);
                Reply::Done
            }
            _ => Reply::BadHandle,
        }
    }

    /// What the terminal tells of itself.
    pub fn terminal_state(&self) -> Reply
        ensures { Tells self.now result }
    {
        match self {
            Kind::Terminal(terminal) => {
                let state = terminal.state();
                Reply::State(state.fg, state.sid, state.flags)
            }
            _ => Reply::BadHandle,
        }
    }
}

/// Whether a group isn't in the foreground.
pub fn is_behind(terminal: &Tty, group: Pid) -> bool
    ensures { result ≡ is_background terminal.now group }
{
    group != terminal.state().fg
}

/// Whether a background group may not write.
pub fn stops_writers(terminal: &Tty) -> bool
    ensures { result ≡ has_flag terminal.now tostop_flag }
{
    terminal.state().flags & TOSTOP != 0
}
