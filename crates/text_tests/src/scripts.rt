//! Scripts that are read, and texts that are none.

use cyg_script::{Kind, ScriptError, read_script};
use std::alloc::AllocGlobal;
use std::process::Abort;
use std::test::Fail;

const HEAD: &[u8] = b"cygscript 1\nslots 2\nrows 8\nbudget 100000\n";

fn refuses<R: AllocGlobal>(rt: &R, text: &[u8], line: u32, kind: Kind) -> bool {
    matches!(read_script(rt.alloc(), text), Err(ScriptError::Fault { line: l, kind: k }) if l == line && k == kind)
}

fn after_head<R: AllocGlobal>(rt: &R, lines: &[u8]) -> Result<Vec<u8>, Fail> {
    let mut text = HEAD.to_vec(rt.alloc())?;
    text.extend_from_slice(lines)?;
    Ok(text)
}

/// Behind the head of a script, each of these is refused at its line with its fault.
fn refuses_each<R: AllocGlobal + Abort>(rt: &R, faulty: &[(&[u8], u32, Kind)]) -> Result<(), Fail> {
    for (lines, line, kind) in faulty {
        let text = after_head(rt, lines)?;
        assert!(rt;
            refuses(rt, &text, *line, *kind),
            "a {kind:?} in line {line}"
        );
    }
    Ok(())
}

#[test]
fn refuses_faulty_scripts(rt: HostRuntime) -> Result<(), Fail> {
    assert!(rt; refuses(&rt, b"", 1, Kind::NoHeader));
    assert!(rt; refuses(&rt, b"cygscript 2\n", 1, Kind::NoHeader));
    assert!(rt; refuses(&rt, b"cygscript 1\nslots 65\n", 2, Kind::Range));
    let faulty: [(&[u8], u32, Kind); 2] = [
        (
            b"program main heap 0 stack 64\njump 9\nschedule\nsettle\n",
            6,
            Kind::Target,
        ),
        (b"program main heap 0 stack 64\nexit 0\n", 7, Kind::Missing),
    ];
    refuses_each(&rt, &faulty)
}

#[test]
fn reads_a_script(rt: HostRuntime) -> Result<(), Fail> {
    let text = after_head(
        &rt,
        b"program main heap 0 stack 64\nexit 0\nschedule\nsettle\n",
    )?;
    let script = read_script(rt.alloc(), &text)?;
    assert_eq!(rt; script.setup.limits.rows, 8);
    Ok(())
}

#[test]
fn refuses_faulty_lines(rt: HostRuntime) -> Result<(), Fail> {
    let faulty: [(&[u8], u32, Kind); 8] = [
        (
            b"program main heap 0 stack 64\nexit 0\nschedule\nsettle",
            8,
            Kind::Unfinished,
        ),
        (b"\x80\n", 5, Kind::NotAscii),
        (b"#\t\n", 5, Kind::NotAscii),
        (
            b"#aaaaaaaaaaaaaaaaaaaaaaaaaaaaaaaaaaaaaaaaaaaaaaaaaaaaaaaaaaaaaaaaaaaaaaaaaaaaaaaaaaaaaaaaaaaaaaaaaaaa\
            aaaaaaaaaaaaaaaaaaaaaaaaaaaaaaaaaaaaaaaaaaaaaaaaaaaaaaaaaaaaaaaaaaaaaaaaaaaaaaaaaaaaaaaaaaaaaaaaaaaa\n",
            5,
            Kind::TooLong,
        ),
        (b"schedule\n", 5, Kind::Missing),
        (
            b"program main heap 0 stack 64\nschedule\n",
            6,
            Kind::Missing,
        ),
        (
            b"program main heap 0 stack 64\nprogram b heap 0 stack 64\n",
            6,
            Kind::Missing,
        ),
        (
            b"program main heap 0 stack 64\nmodule a 0 1\n",
            6,
            Kind::Unknown,
        ),
    ];
    refuses_each(&rt, &faulty)
}

#[test]
fn refuses_faulty_places(rt: HostRuntime) -> Result<(), Fail> {
    let faulty: [(&[u8], u32, Kind); 8] = [
        (b"occupy 1 0\nmodule a 0 1\n", 6, Kind::Unknown),
        (b"slots 3\n", 5, Kind::Unknown),
        (b"heap 1\n", 5, Kind::Unknown),
        (b" module a 0 1\n", 5, Kind::Unknown),
        (
            b"program main heap 0 stack 64\nexit 0\nsettle\n",
            7,
            Kind::Missing,
        ),
        (
            b"program main heap 0 stack 64\nexit 0\nschedule\nsettle\nexit 0\n",
            9,
            Kind::Unknown,
        ),
        (
            b"program main heap 0 stack 64\nexit 0\nschedule\n",
            8,
            Kind::Missing,
        ),
        (b"# skipped\n\nheap 1\n", 7, Kind::Unknown),
    ];
    refuses_each(&rt, &faulty)
}

#[test]
fn refuses_faulty_words(rt: HostRuntime) -> Result<(), Fail> {
    let faulty: [(&[u8], u32, Kind); 8] = [
        (b"module a 0\n", 5, Kind::Words),
        (b"module a 0 1 \n", 5, Kind::Words),
        (b"module  0 1\n", 5, Kind::Words),
        (b"module a 00 1\n", 5, Kind::BadNumber),
        (b"module a -1 1\n", 5, Kind::BadNumber),
        (b"module a 1020 5\n", 5, Kind::Range),
        (b"module abcdefghijklmnopq 0 1\n", 5, Kind::BadName),
        (b"module A 99999999999999999999 1\n", 5, Kind::Range),
    ];
    refuses_each(&rt, &faulty)
}

#[test]
fn refuses_faulty_instructions(rt: HostRuntime) -> Result<(), Fail> {
    let faulty: [(&[u8], u32, Kind); 8] = [
        (
            b"program main heap 0 stack 64\nexit -0\n",
            6,
            Kind::BadNumber,
        ),
        (
            b"program main heap 0 stack 64\nexit -2147483649\n",
            6,
            Kind::Range,
        ),
        (b"program main heap 0 stack 64\nexit r8\n", 6, Kind::Words),
        (
            b"program main heap 0 stack 64\naction 2 handler 0 again\n",
            6,
            Kind::Words,
        ),
        (
            b"program main heap 0 stack 64\nmask add 1\n",
            6,
            Kind::Words,
        ),
        (b"program main heap 0 stack 64\nexec 1a\n", 6, Kind::BadName),
        (
            b"program main heap 0 stack 64\njump 1\nprogram b heap 0 stack 64\n",
            6,
            Kind::Target,
        ),
        (
            b"program main heap 0 stack 64\njump 9\nexit r9\nschedule\nsettle\n",
            7,
            Kind::Words,
        ),
    ];
    refuses_each(&rt, &faulty)
}

#[test]
fn refuses_faulty_schedules(rt: HostRuntime) -> Result<(), Fail> {
    let faulty: [(&[u8], u32, Kind); 8] = [
        (
            b"program main heap 0 stack 64\nexit 0\nschedule\nturn 3 0\n",
            8,
            Kind::Range,
        ),
        (
            b"program main heap 0 stack 64\nexit 0\nschedule\nend 0\n",
            8,
            Kind::Range,
        ),
        (
            b"program main heap 0 stack 64\nexit 0\nschedule\nkey 0A\n",
            8,
            Kind::Words,
        ),
        (
            b"program main heap 0 stack 64\nexit 0\nschedule\nsteps 0\n",
            8,
            Kind::Range,
        ),
        (b"module a 0 1\nmodule a 1 1\n", 6, Kind::Twice),
        (
            b"program main heap 0 stack 64\nexit 0\nprogram main heap 0 stack 64\nexit 0\n",
            7,
            Kind::Twice,
        ),
        (
            b"module a0 0 1\nmodule a1 0 1\nmodule a2 0 1\nmodule a3 0 1\nmodule a4 0 1\n\
            module a5 0 1\nmodule a6 0 1\nmodule a7 0 1\nmodule a8 0 1\n",
            13,
            Kind::TooMany,
        ),
        (
            b"program main heap 0 stack 64\njump 9\nschedule now\n",
            6,
            Kind::Target,
        ),
    ];
    refuses_each(&rt, &faulty)
}

// The fault of a script that is cut off behind these bytes: without a whole first line it has no header, behind a
// line's end the next line is missing, and else the last line has no end.
fn fault_of_cut(bytes: &[u8]) -> (u32, Kind) {
    if bytes.len() < 11 {
        return (1, Kind::NoHeader);
    }
    let next = |line: u32, byte: &u8| line.saturating_add(u32::from(*byte == b'\n'));
    let line = bytes.iter().fold(1, next);
    if bytes.last() == Some(&b'\n') {
        (line, Kind::Missing)
    } else {
        (line, Kind::Unfinished)
    }
}

#[test]
fn each_cut_of_a_script_has_its_fault(rt: HostRuntime) -> Result<(), Fail> {
    let text: &[u8] = b"cygscript 1\nslots 1\nrows 1\nbudget 100000\nprogram main heap 0 stack 64\n\
getpid\nkill 2 0\nexit 0\nschedule\nsettle\n";
    for len in 0..text.len() {
        let cut = &text[..len];
        let (line, kind) = fault_of_cut(cut);
        assert!(rt; refuses(&rt, cut, line, kind), "cut behind {len}");
    }
    assert!(rt; read_script(rt.alloc(), text).is_ok());
    Ok(())
}
