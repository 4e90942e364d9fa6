//! The line discipline at its edges.

ghost use Rattle.std.specs.Prelude.{◌≤◌};

use crate::Tty;
use w32_base::Pid;

// A terminal with these flags.
fn with_flags(flags: u8) -> Tty {
    let mut tty = Tty::new();
    tty.set_flags(flags);
    tty
}

// Takes the keys, each without a signal.
fn typed(tty: &mut Tty, keys: &[u8]) {
    for key in keys {
        tty.key(*key);
    }
}

// Whether a read of at most `n` bytes takes these bytes.
fn takes(tty: &mut Tty, n: u8, bytes: &[u8]) -> bool
    requires { n ≤ 64 }
{
    match tty.take_line(n) {
        Some(taken) => taken.as_slice() == bytes,
        None => false,
    }
}

#[test]
fn the_opening_terminal(rt: HostRuntime) {
    let mut tty = Tty::new();
    let state = tty.state();
    assert!(rt; state.fg.get() == 2 && state.sid.get() == 2 && state.flags == 3);
    assert!(rt; !tty.has_line());
    assert!(rt; tty.take_line(64).is_none());
    tty.set_fg(Pid::new(7));
    tty.set_flags(8);
    let state = tty.state();
    assert!(rt; state.fg.get() == 7 && state.sid.get() == 2 && state.flags == 8);
}

#[test]
fn bytes_are_echoed_and_read(rt: HostRuntime) {
    let mut tty = Tty::new();
    let done = tty.key(b'a');
    assert!(rt; done.echo.as_slice() == b"a".as_slice() && done.signal.is_none());
    assert!(rt; !tty.has_line());
    assert!(rt; tty.key(b'\n').echo.as_slice() == b"\n".as_slice());
    assert!(rt; tty.has_line());
    assert!(rt; takes(&mut tty, 64, b"a\n"));
    assert!(rt; !tty.has_line());
}

#[test]
fn nothing_is_echoed_without_the_flag(rt: HostRuntime) {
    let mut tty = with_flags(1);
    assert!(rt; tty.key(b'a').echo.is_empty());
    assert!(rt; tty.key(0x7f).echo.is_empty());
    assert!(rt; tty.key(0x15).echo.is_empty());
    assert!(rt; tty.key(b'\n').echo.is_empty());
    assert!(rt; takes(&mut tty, 64, b"\n"));
}

#[test]
fn sixteen_lines_may_be_done(rt: HostRuntime) {
    let mut tty = Tty::new();
    typed(&mut tty, b"\n\n\n\n\n\n\n\n\n\n\n\n\n\n\n");
    assert!(rt; tty.key(b'\n').echo.as_slice() == b"\n".as_slice());
    tty.key(b'x');
    assert!(rt; tty.key(b'\n').echo.is_empty());
    assert!(rt; tty.key(0x04).echo.is_empty());
    for _ in 0..16 {
        assert!(rt; takes(&mut tty, 64, b"\n"));
    }
    assert!(rt; !tty.has_line());
    tty.key(0x04);
    assert!(rt; takes(&mut tty, 64, b"x"));
}

#[test]
fn a_line_has_at_most_254_bytes_before_its_end(rt: HostRuntime) {
    let mut tty = Tty::new();
    for _ in 0..253 {
        tty.key(b'x');
    }
    assert!(rt; tty.key(b'y').echo.as_slice() == b"y".as_slice());
    assert!(rt; tty.key(b'z').echo.is_empty());
    tty.key(b'\n');
    assert!(rt; takes(&mut tty, 64, &[b'x'; 64]) && takes(&mut tty, 64, &[b'x'; 64]));
    assert!(rt; takes(&mut tty, 64, &[b'x'; 64]) && takes(&mut tty, 61, &[b'x'; 61]));
    assert!(rt; takes(&mut tty, 64, b"y\n"));
    assert!(rt; !tty.has_line());
}

#[test]
fn erase_drops_a_byte_of_the_current_line_alone(rt: HostRuntime) {
    let mut tty = Tty::new();
    typed(&mut tty, b"a\nbc");
    assert!(rt; tty.key(0x7f).echo.as_slice() == b"\x08 \x08".as_slice());
    tty.key(0x7f);
    assert!(rt; tty.key(0x7f).echo.is_empty());
    tty.key(b'\n');
    assert!(rt; takes(&mut tty, 64, b"a\n") && takes(&mut tty, 64, b"\n"));
}

#[test]
fn kill_drops_the_current_line_and_echoes_on_an_empty_one(rt: HostRuntime) {
    let mut tty = Tty::new();
    assert!(rt; tty.key(0x15).echo.as_slice() == b"\n".as_slice());
    typed(&mut tty, b"a\nbc\x15d\n");
    assert!(rt; takes(&mut tty, 64, b"a\n") && takes(&mut tty, 64, b"d\n"));
    assert!(rt; !tty.has_line());
}

#[test]
fn eof_ends_a_line_without_a_byte(rt: HostRuntime) {
    let mut tty = Tty::new();
    typed(&mut tty, b"ab");
    assert!(rt; tty.key(0x04).echo.is_empty());
    tty.key(0x04);
    assert!(rt; takes(&mut tty, 64, b"ab") && takes(&mut tty, 64, b""));
    assert!(rt; !tty.has_line());
}

#[test]
fn signal_keys_drop_the_lines_unless_noflsh_is_set(rt: HostRuntime) {
    let mut tty = Tty::new();
    typed(&mut tty, b"a\nb");
    let done = tty.key(0x03);
    assert!(rt; done.signal == Some(2) && done.echo.is_empty());
    assert!(rt; !tty.has_line());
    tty.key(0x04);
    assert!(rt; takes(&mut tty, 64, b""));

    let mut tty = with_flags(7);
    typed(&mut tty, b"a\nb");
    assert!(rt; tty.key(0x1c).signal == Some(3));
    assert!(rt; tty.key(0x1a).signal == Some(20));
    tty.key(0x04);
    assert!(rt; takes(&mut tty, 64, b"a\n") && takes(&mut tty, 64, b"b"));
}

#[test]
fn signal_keys_are_bytes_without_isig(rt: HostRuntime) {
    let mut tty = with_flags(2);
    let done = tty.key(0x03);
    assert!(rt; done.signal.is_none() && done.echo.as_slice() == b"\x03".as_slice());
    typed(&mut tty, b"\x1c\x1a\n");
    assert!(rt; takes(&mut tty, 64, b"\x03\x1c\x1a\n"));
}

#[test]
fn a_line_is_taken_in_parts(rt: HostRuntime) {
    let mut tty = Tty::new();
    typed(&mut tty, b"abc\nd\n");
    assert!(rt; takes(&mut tty, 0, b"") && tty.has_line());
    assert!(rt; takes(&mut tty, 2, b"ab") && takes(&mut tty, 2, b"c\n"));
    assert!(rt; takes(&mut tty, 1, b"d") && takes(&mut tty, 64, b"\n"));
    assert!(rt; !tty.has_line());
    tty.key(0x04);
    assert!(rt; takes(&mut tty, 0, b"") && !tty.has_line());
}
