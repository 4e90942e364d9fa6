//! The terminal: keys that the console takes, lines that a process takes.

use machine_stage::Step::{Holds, Says, Types, Waits};
use machine_stage::{Stage, Step, handle, handles};
use std::alloc::Global;
use std::test::Fail;
use w32_base::{Call, Pid, Reply, TtyOp};

/// ISIG and ECHO, and with NOFLSH.
const NO_FLUSH: u8 = 7;

const INTR: u8 = 3;

const EOF: u8 = 4;

const NEW_LINE: u8 = 10;

const KILL: u8 = 21;

const SUSPEND: u8 = 26;

const QUIT: u8 = 28;

const ERASE: u8 = 127;

const HEAD: &[u8] =
    b"cygscript 1\nslots 1\nrows 1\nbudget 1\nprogram main heap 64 stack 64\ngetpid\nschedule\n";

const DIGITS: [u8; 16] = *b"0123456789abcdef";

/// The machine with these keys in the console's queue.
fn open_typed(alloc: Global, keys: &[u8]) -> Result<Box<Stage>, Fail> {
    let mut text = Vec::new(alloc);
    text.extend_from_slice(HEAD)?;
    for key in keys {
        text.extend_from_slice(b"key ")?;
        text.push(DIGITS[usize::from(*key / 16)])?;
        text.push(DIGITS[usize::from(*key % 16)])?;
        text.push(b'\n')?;
    }
    text.extend_from_slice(b"settle\n")?;
    Ok(Box::new(alloc, Stage::open(alloc, text.as_slice())?)?)
}

/// The console takes a key that is for a signal to the foreground group.
fn signals(key: u8, signal: u8) -> Step {
    Says(0, terminal(TtyOp::Key), Reply::Key(key, signal, group()))
}

/// Process 2 takes at most so many bytes of the first done line, and gets this many.
fn takes(most: u32, got: u8) -> Step {
    Says(1, terminal(TtyOp::Take(group(), most, 0)), Reply::Line(got))
}

/// No line is done.
fn has_no_line() -> Step {
    Says(1, terminal(TtyOp::Take(group(), 64, 0)), Reply::NoLine)
}

/// No line is done, and a wait for one isn't ready.
fn waits_for_a_line() -> Step {
    Waits(1, Call::WaitAny(handles(&[3])))
}

/// A call on the terminal.
fn terminal(op: TtyOp) -> Call {
    Call::Tty(handle(3), op)
}

/// The foreground group at the opening.
fn group() -> Pid {
    Pid::new(2)
}

#[test]
fn a_line_is_taken_in_parts(rt: HostRuntime) -> Result<(), Fail> {
    let mut m = open_typed(rt.alloc(), b"abc\nd\n")?;
    let steps = [
        Types(3),
        has_no_line(),
        waits_for_a_line(),
        Types(3),
        takes(2, 2),
        Holds(1, 1, b'b'),
        takes(64, 2),
        Holds(1, 0, b'c'),
        takes(64, 2),
        has_no_line(),
        waits_for_a_line(),
    ];
    assert_eq!(rt; m.try_steps(&steps), None);
    Ok(())
}

#[test]
fn a_key_waits_for_the_console(rt: HostRuntime) -> Result<(), Fail> {
    let mut m = open_typed(rt.alloc(), b"a")?;
    let steps = [
        Says(0, Call::WaitAny(handles(&[3])), Reply::Woke(0)),
        Says(0, terminal(TtyOp::Key), Reply::Key(b'a', 0, group())),
        Says(0, terminal(TtyOp::Key), Reply::NoKey),
        Waits(0, Call::WaitAny(handles(&[3]))),
        Says(0, Call::Tty(handle(2), TtyOp::Key), Reply::BadHandle),
    ];
    assert_eq!(rt; m.try_steps(&steps), None);
    Ok(())
}

#[test]
fn sixteen_lines_are_done_at_most(rt: HostRuntime) -> Result<(), Fail> {
    let mut m = open_typed(rt.alloc(), &[NEW_LINE; 18])?;
    assert!(rt; m.goes(&Types(18)));
    for _ in 0..16 {
        assert!(rt; m.goes(&takes(64, 1)));
    }
    let steps = [has_no_line(), waits_for_a_line()];
    assert_eq!(rt; m.try_steps(&steps), None);
    Ok(())
}

#[test]
fn with_sixteen_lines_an_end_is_dropped(rt: HostRuntime) -> Result<(), Fail> {
    let mut m = open_typed(rt.alloc(), b"\n\n\n\n\n\n\n\n\n\n\n\n\n\n\n\na\x04\nb\n")?;
    let steps = [
        // the line of `a` goes on when there is room again
        Types(19),
        takes(64, 1),
        Types(2),
    ];
    assert_eq!(rt; m.try_steps(&steps), None);
    for _ in 0..15 {
        assert!(rt; m.goes(&takes(64, 1)));
    }
    let steps = [
        takes(64, 3),
        Holds(1, 1, b'b'),
        has_no_line(),
        waits_for_a_line(),
    ];
    assert_eq!(rt; m.try_steps(&steps), None);
    Ok(())
}

#[test]
fn a_line_has_254_bytes_before_its_end(rt: HostRuntime) -> Result<(), Fail> {
    let mut keys = [b'a'; 258];
    keys[254] = b'b';
    keys[257] = NEW_LINE;
    let mut m = open_typed(rt.alloc(), &keys)?;
    assert!(rt; m.goes(&Types(258)));
    for _ in 0..3 {
        assert!(rt; m.goes(&takes(64, 64)));
    }
    let steps = [
        takes(64, 63),
        Holds(1, 61, b'a'),
        Holds(1, 62, NEW_LINE),
        has_no_line(),
        waits_for_a_line(),
    ];
    assert_eq!(rt; m.try_steps(&steps), None);
    Ok(())
}

#[test]
fn erase_and_kill_leave_an_empty_line_alone(rt: HostRuntime) -> Result<(), Fail> {
    let mut m = open_typed(
        rt.alloc(),
        &[
            KILL, ERASE, b'a', b'b', ERASE, b'\n', b'c', KILL, b'd', b'\n',
        ],
    )?;
    let steps = [
        Types(10),
        takes(64, 2),
        Holds(1, 0, b'a'),
        takes(64, 2),
        Holds(1, 0, b'd'),
        has_no_line(),
        waits_for_a_line(),
    ];
    assert_eq!(rt; m.try_steps(&steps), None);
    Ok(())
}

#[test]
fn an_end_of_file_ends_a_line_without_a_byte(rt: HostRuntime) -> Result<(), Fail> {
    let mut m = open_typed(rt.alloc(), &[EOF, b'a', EOF])?;
    let steps = [
        Types(3),
        takes(64, 0),
        takes(64, 1),
        has_no_line(),
        waits_for_a_line(),
    ];
    assert_eq!(rt; m.try_steps(&steps), None);
    Ok(())
}

#[test]
fn a_signal_drops_all_lines(rt: HostRuntime) -> Result<(), Fail> {
    let mut m = open_typed(
        rt.alloc(),
        &[b'a', b'\n', b'b', INTR, b'c', b'\n', QUIT, SUSPEND],
    )?;
    let steps = [
        Types(3),
        signals(INTR, 2),
        has_no_line(),
        waits_for_a_line(),
        Types(2),
        takes(1, 1),
        Holds(1, 0, b'c'),
        signals(QUIT, 3),
        signals(SUSPEND, 20),
        has_no_line(),
        waits_for_a_line(),
    ];
    assert_eq!(rt; m.try_steps(&steps), None);
    Ok(())
}

#[test]
fn without_flushing_a_signal_drops_nothing(rt: HostRuntime) -> Result<(), Fail> {
    let mut m = open_typed(rt.alloc(), &[b'a', b'\n', b'b', INTR, b'c', b'\n'])?;
    let flags = terminal(TtyOp::Flags(group(), NO_FLUSH, false));
    let steps = [
        Says(1, flags, Reply::Done),
        Types(3),
        signals(INTR, 2),
        Types(2),
        takes(64, 2),
        takes(64, 3),
        has_no_line(),
        waits_for_a_line(),
    ];
    assert_eq!(rt; m.try_steps(&steps), None);
    Ok(())
}

#[test]
fn without_isig_intr_is_a_byte(rt: HostRuntime) -> Result<(), Fail> {
    let mut m = open_typed(rt.alloc(), &[INTR, b'\n'])?;
    let steps = [
        Says(1, terminal(TtyOp::Flags(group(), 2, false)), Reply::Done),
        Types(2),
        takes(64, 2),
        Holds(1, 0, INTR),
    ];
    assert_eq!(rt; m.try_steps(&steps), None);
    Ok(())
}

#[test]
fn a_background_group_is_held_up(rt: HostRuntime) -> Result<(), Fail> {
    let mut m = open_typed(rt.alloc(), b"a\n")?;
    let other = Pid::new(3);
    let steps = [
        Types(2),
        Says(1, terminal(TtyOp::Take(other, 64, 0)), Reply::Background),
        Says(1, terminal(TtyOp::Take(other, 64, 1)), Reply::BadRange),
        Says(1, terminal(TtyOp::Take(other, 65, 0)), Reply::BadRange),
        Says(
            1,
            terminal(TtyOp::Flags(other, 15, false)),
            Reply::Background,
        ),
        Says(
            1,
            terminal(TtyOp::Put(other, 64, 0, false)),
            Reply::Written(64),
        ),
        Says(1, terminal(TtyOp::Flags(other, 15, true)), Reply::Done),
        Says(
            1,
            terminal(TtyOp::Put(other, 64, 0, false)),
            Reply::Background,
        ),
        Says(
            1,
            terminal(TtyOp::Put(other, 64, 0, true)),
            Reply::Written(64),
        ),
    ];
    assert_eq!(rt; m.try_steps(&steps), None);
    Ok(())
}

#[test]
fn the_foreground_group_is_set_and_told(rt: HostRuntime) -> Result<(), Fail> {
    let mut m = open_typed(rt.alloc(), b"a")?;
    let other = Pid::new(3);
    let steps = [
        Says(
            1,
            terminal(TtyOp::SetForeground(other, group(), false)),
            Reply::Background,
        ),
        Says(1, terminal(TtyOp::State), Reply::State(group(), group(), 3)),
        Says(
            1,
            terminal(TtyOp::SetForeground(group(), other, false)),
            Reply::Done,
        ),
        Says(0, terminal(TtyOp::State), Reply::State(other, group(), 3)),
        Says(0, terminal(TtyOp::Key), Reply::Key(b'a', 0, other)),
        Says(1, terminal(TtyOp::Take(group(), 64, 0)), Reply::Background),
        Says(
            1,
            terminal(TtyOp::SetForeground(group(), group(), true)),
            Reply::Done,
        ),
        Says(1, terminal(TtyOp::Take(group(), 64, 0)), Reply::NoLine),
    ];
    assert_eq!(rt; m.try_steps(&steps), None);
    Ok(())
}
