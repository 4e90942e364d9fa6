//! The terminal.

ghost use Rattle.std.specs.Prelude.{◌≡◌, ℕ, ◌≤◌, ◌<◌, [], ◌∷◌, ◌++◌, length, Option, Some, None, MatchOption};
ghost use Rattle.tty_spec.specs.Terminal.{Terminal, terminal_session, opening_terminal};
ghost use Rattle.tty_spec.specs.Discipline.{after_key, after_take, has_flag, has_line, signal_of_key, signalling};
ghost use Rattle.tty_spec.specs.Discipline.{erasing, killing, ending, adding, editing};
ghost use Rattle.tty_line.specs.Key.{IsKeyDone};
ghost use Rattle.tty_line.specs.Peek.{bytes_taken};

use crate::line::Line;
use arrayvec::ArrayVec;
use std::marker::Model;
use std::mem;
use tty_spec::{EOF, ERASE, INTR, KILL, MOST_LINE, MOST_LINES, NL, QUIT, SUSP};
use w32_base::{Bytes64, Pid};

/// The flag of signal keys.
const ISIG: u8 = 1;

/// The flag of echoes.
const ECHO: u8 = 2;

/// The flag under which a signal key drops no lines.
const NOFLSH: u8 = 4;

/// What a key did.
#[derive(Clone, Copy, Debug, PartialEq, Eq)]
pub struct KeyDone {
    /// The bytes that are echoed.
    pub echo: Bytes64,
    /// The signal for the foreground group, if any.
    pub signal: Option<u8>,
}

/// What the terminal tells of itself.
#[derive(Clone, Copy, Debug, PartialEq, Eq)]
pub struct TtyState {
    /// The foreground group.
    pub fg: Pid,
    /// The session that has the terminal.
    pub sid: Pid,
    /// The flags: 1 ISIG, 2 ECHO, 4 NOFLSH, 8 TOSTOP.
    pub flags: u8,
}

/// The terminal: its foreground group, its flags, the current line and the done lines.
#[derive(Debug, Drop)]
pub struct Tty {
    fg: Pid,
    flags: u8,
    line: Line,
    // the oldest first
    done: ArrayVec<Line, MOST_LINES>,
}

impl Model for Tty {
    ghost use Rattle.std.specs.Prelude.{length, ◌≤◌};
    ghost use Rattle.tty_spec.specs.Terminal.{Terminal};

    ghost Value = { Terminal };

    ghost view = { λ t. record { foreground = t.fg; flags = t.flags; line = t.line; done_lines = t.done.items } };

    ghost invariant = { λ t. (length t.line ≤ 254) × (length t.done.items ≤ 16) };
}

impl Tty {
    /// The terminal in which a run begins.
    pub fn new() -> Tty
        ensures { result ≡ opening_terminal }
    {
        Tty {
            fg: Pid::new(2),
            flags: ISIG | ECHO,
            line: Line::new(),
            done: ArrayVec::new(),
        }
    }

    /// Takes a key.
    pub fn key(&mut self, b: u8) -> KeyDone
        ensures { IsKeyDone (after_key self.old b) self.new result }
    {
        if self.has(ISIG) {
            if let Some(signal) = signal_of(b) {
                return self.give(signal);
            }
        }
        match b {
            ERASE => self.erase(),
            KILL => self.kill(),
            EOF => self.end(b""),
            NL => self.end(b"\n"),
            _ => self.add(b),
        }
    }

    /// Takes at most `n` bytes of the first done line, or answers none exactly where no line is done. What is left of
    /// it stays the first line.
    pub fn take_line(&mut self, n: u8) -> Option<Bytes64>
        requires { n ≤ 64 }
        ensures { MatchOption result ((after_take self.old n ≡ None) × (self.new ≡ self.old))
            (λ bytes. after_take self.old n ≡ Some (record { terminal = self.new; bytes = bytes })) }
    {
        let Some(first) = self.done.get_mut(0) else {
            return None;
        };
        let count = usize::from(n).min(first.len());
        let bytes = Bytes64::from_slice(&first.as_slice()[..count]);
        if count < first.len() {
            first.drop_front(count);
        } else {
            self.done.remove(0);
        }
        Some(bytes)
    }

    /// The bytes that `take_line` would take, or none exactly where no line is done.
    pub fn peek_line(&self, n: u8) -> Option<Bytes64>
        requires { n ≤ 64 }
        ensures { result ≡ bytes_taken (after_take self.now n) }
    {
        let first = self.done.as_slice().first()?;
        let count = first.len().min(usize::from(n));
        Some(Bytes64::from_slice(&first.as_slice()[..count]))
    }

    /// Sets the foreground group.
    pub fn set_fg(&mut self, g: Pid)
        ensures { self.new ≡ record self.old { foreground = g } }
    {
        self.fg = g;
    }

    /// Sets the flags.
    pub fn set_flags(&mut self, f: u8)
        ensures { self.new ≡ record self.old { flags = f } }
    {
        self.flags = f;
    }

    /// What the terminal tells of itself.
    pub fn state(&self) -> TtyState
        ensures { result ≡ record { fg = self.now.foreground; sid = terminal_session; flags = self.now.flags } }
    {
        TtyState {
            fg: self.fg,
            sid: Pid::new(2),
            flags: self.flags,
        }
    }

    /// Whether a line is done.
    pub fn has_line(&self) -> bool
        ensures { result ≡ has_line self.now }
    {
        !self.done.is_empty()
    }

    // Whether a flag is set.
    fn has(&self, flag: u8) -> bool
        ensures { result ≡ has_flag self.now flag }
    {
        self.flags & flag != 0
    }

    // What a key did that gives no signal, with this echo where ECHO is set.
    fn echoed(&self, bytes: &[u8]) -> KeyDone
        requires { length bytes.now ≤ 64 }
        ensures echo { result.echo ≡ Rattle.tty_spec.specs.Discipline.echoed self.now bytes.now }
        ensures signal { result.signal ≡ None }
    {
        let echo = if self.has(ECHO) {
            Bytes64::from_slice(bytes)
        } else {
            Bytes64::new()
        };
        KeyDone { echo, signal: None }
    }

    // Gives a signal.
    fn give(&mut self, signal: u8) -> KeyDone
        ensures { IsKeyDone (signalling self.old signal) self.new result }
    {
        if !self.has(NOFLSH) {
            self.line.clear();
            self.done.clear();
        }
        KeyDone {
            echo: Bytes64::new(),
            signal: Some(signal),
        }
    }

    // ERASE.
    fn erase(&mut self) -> KeyDone
        ensures { IsKeyDone (erasing self.old self.old.line) self.new result }
    {
        if self.line.len() == 0 {
            return self.echoed(b"");
        }
        self.line.drop_last();
        self.echoed(b"\x08 \x08")
    }

    // KILL.
    fn kill(&mut self) -> KeyDone
        ensures { IsKeyDone (killing self.old) self.new result }
    {
        self.line.clear();
        self.echoed(b"\n")
    }

    // EOF, which has no byte of its own, and NL, which has one.
    fn end(&mut self, own: &[u8]) -> KeyDone
        requires { length own.now ≤ 1 }
        ensures { IsKeyDone (ending self.old own.now) self.new result }
    {
        if self.done.is_full() {
            return self.echoed(b"");
        }
        let mut line = mem::take(&mut self.line);
        line.extend(own);
        self.done.push(line);
        self.echoed(own)
    }

    // Another byte.
    fn add(&mut self, byte: u8) -> KeyDone
        ensures { IsKeyDone (adding self.old byte) self.new result }
    {
        if self.line.len() == MOST_LINE {
            return self.echoed(b"");
        }
        self.line.push(byte);
        self.echoed(&[byte])
    }
}

// The signal that a key gives where ISIG is set.
fn signal_of(byte: u8) -> Option<u8>
    ensures { result ≡ signal_of_key byte }
{
    match byte {
        INTR => Some(2),
        QUIT => Some(3),
        SUSP => Some(20),
        _ => None,
    }
}
