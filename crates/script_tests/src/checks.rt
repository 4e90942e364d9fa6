//! Scripts with logs of their runs, and what `check` says of them.

use crate::tests::{Ending, joined, run_words, sink_that_fails};
use cyg_cli::MemSink;
use std::alloc::{AllocError, AllocGlobal};
use std::process::Abort;
use std::test::Fail;

const CHECK: &[&str] = &["check"];

/// How many bytes `check` reads at the most.
const MOST_BYTES: usize = 67_108_864;

/// A script of one process that ends at once, and the bar below it.
const ENDS: &[u8] =
    b"cygscript 1\nslots 1\nrows 1\nbudget 100000\nprogram main heap 0 stack 64\nexit 0\n\
    schedule\nsettle\n==\n";

/// A log of its run.
const ENDS_LOG: &[u8] = b"log events\ndie 2 0 exit\ncollect 2\nhost 0 0\ndone quiet\n";

/// A script of a process that waits for its child, and the bar below it.
const FORKS: &[u8] =
    b"cygscript 1\nslots 2\nrows 8\nbudget 100000\nprogram main heap 0 stack 64\nfork\njzero r0 5\n\
    wait -1 0\nwait -1 0\nexit 0\nexit 7\nschedule\nsettle\n==\n";

// Checks the text, and wants its status and its answer.
fn expect_text<R: AllocGlobal + Abort>(
    rt: &R,
    text: Vec<u8>,
    status: u8,
    answer: &[u8],
) -> Result<Ending, Fail> {
    let mut sink = sink_that_fails(rt, &[])?;
    let ending = run_words(rt, CHECK, text, &[], &mut sink)?;
    assert_eq!(rt; ending.status, status);
    assert!(rt; sink.contents() == answer);
    assert_eq!(rt; ending.read_faults, 0);
    assert_eq!(rt; ending.write_faults, 0);
    assert_eq!(rt; ending.entries, 0);
    Ok(ending)
}

// Checks a script and a log, and wants its status and its answer.
fn expect<R: AllocGlobal + Abort>(
    rt: &R,
    script: &[u8],
    log: &[u8],
    status: u8,
    answer: &[u8],
) -> Result<(), Fail> {
    expect_text(rt, joined(rt, script, log)?, status, answer)?;
    Ok(())
}

#[test]
fn logs_that_hold(rt: HostRuntime) -> Result<(), Fail> {
    expect(&rt, ENDS, ENDS_LOG, 0, b"yes\n")?;
    expect(&rt, ENDS, b"log events\ndone budget\n", 0, b"yes\n")?;
    expect(
        &rt,
        FORKS,
        b"log events\nfork 2 3\nrun 2 1\nlook 2 3\nblock 2\nrun 3 1\ndie 3 7 exit\nreap 2 3 7\nnochild 2\n\
        die 2 0 exit\ncollect 2\nhost 0 0\ndone quiet\n",
        0,
        b"yes\n",
    )?;
    Ok(())
}

#[test]
fn logs_with_an_event_that_is_no_step(rt: HostRuntime) -> Result<(), Fail> {
    expect(
        &rt,
        FORKS,
        b"log events\nreap 2 3 7\ndone quiet\n",
        1,
        b"no 2 reap\n",
    )?;
    expect(
        &rt,
        FORKS,
        b"log events\nfork 2 3\nrun 2 1\nlook 2 3\nblock 2\nrun 3 1\ndie 3 7 exit\nreap 2 3 7\nreap 2 3 7\n\
        run 9 9\ndone quiet\n",
        1,
        b"no 9 reap\n",
    )?;
    expect(
        &rt,
        FORKS,
        b"log events\nfork 2 3\nrun 2 1\nrun 3 1\ndie 3 7 exit\nnothing 2\ndone quiet\n",
        1,
        b"no 6 nothing\n",
    )?;
    Ok(())
}

#[test]
fn logs_that_are_refused(rt: HostRuntime) -> Result<(), Fail> {
    expect(&rt, ENDS, b"", 3, b"logfault 1\n")?;
    expect(&rt, ENDS, b"log calls\ndone quiet\n", 3, b"logfault 1\n")?;
    expect(
        &rt,
        ENDS,
        b"log events\ndie 2 0 exit \n",
        3,
        b"logfault 2\n",
    )?;
    expect(&rt, ENDS, b"log events\ndie 2 0 exit\n", 3, b"logfault 3\n")?;
    expect(
        &rt,
        ENDS,
        b"log events\ndie 2 0 exit\n==\n",
        3,
        b"logfault 3\n",
    )?;
    expect(&rt, ENDS, b"log events\ndone quiet\n\n", 3, b"logfault 3\n")?;
    Ok(())
}

#[test]
fn scripts_that_are_refused(rt: HostRuntime) -> Result<(), Fail> {
    expect(&rt, b"", b"", 3, b"fault 1 NoHeader\n")?;
    expect(&rt, b"==\n", ENDS_LOG, 3, b"fault 1 NoHeader\n")?;
    expect(
        &rt,
        b"cygscript 1\nslots 65\n==\n",
        b"log calls\n",
        3,
        b"fault 2 Range\n",
    )?;
    expect(&rt, b"cygscript 1\nslots 2\n", b"", 3, b"fault 3 Missing\n")?;
    Ok(())
}

#[test]
fn text_without_a_bar_is_a_script(rt: HostRuntime) -> Result<(), Fail> {
    let script = ENDS.strip_suffix(b"==\n").ok_or("bar")?;
    expect(&rt, script, b"", 3, b"logfault 1\n")?;
    expect(&rt, script, b"==", 3, b"fault 9 Unfinished\n")?;
    expect(&rt, script, b"== \n", 3, b"fault 9 Unknown\n")?;
    Ok(())
}

#[test]
fn text_that_is_cut_is_refused(rt: HostRuntime) -> Result<(), Fail> {
    let whole = joined(&rt, ENDS, ENDS_LOG)?;
    for length in 0..whole.len() {
        let mut sink = sink_that_fails(&rt, &[])?;
        let text = joined(&rt, &whole[..length], b"")?;
        let ending = run_words(&rt, CHECK, text, &[], &mut sink)?;
        assert_eq!(rt; ending.status, 3);
    }
    expect_text(&rt, whole, 0, b"yes\n")?;
    let cut = ENDS_LOG.strip_suffix(b"\n").ok_or("end")?;
    expect(&rt, ENDS, cut, 3, b"logfault 5\n")?;
    Ok(())
}

#[test]
fn source_that_fails_at_each_call(rt: HostRuntime) -> Result<(), Fail> {
    for call in 1..3 {
        let mut sink = sink_that_fails(&rt, &[1])?;
        let ending = run_words(&rt, CHECK, joined(&rt, ENDS, ENDS_LOG)?, &[call], &mut sink)?;
        assert_eq!(rt; ending.status, 4);
        assert!(rt; sink.contents().is_empty());
        assert_eq!(rt; ending.read_faults, 1);
        assert_eq!(rt; ending.write_faults, 0);
    }
    let mut sink = sink_that_fails(&rt, &[])?;
    let ending = run_words(&rt, CHECK, joined(&rt, ENDS, ENDS_LOG)?, &[3], &mut sink)?;
    assert_eq!(rt; ending.status, 0);
    Ok(())
}

#[test]
fn sinks_that_fail(rt: HostRuntime) -> Result<(), Fail> {
    let texts: &[(&[u8], &[u8])] = &[
        (ENDS, ENDS_LOG),
        (FORKS, b"log events\nreap 2 3 7\ndone quiet\n"),
        (ENDS, b""),
        (b"", b""),
    ];
    for (script, log) in texts {
        let mut sink = sink_that_fails(&rt, &[1])?;
        let ending = run_words(&rt, CHECK, joined(&rt, script, log)?, &[], &mut sink)?;
        assert_eq!(rt; ending.status, 5);
        assert!(rt; sink.contents().is_empty());
        assert_eq!(rt; ending.write_faults, 1);
    }
    let mut small = MemSink::new(rt.alloc(), 2, Vec::new(rt.alloc()))?;
    let ending = run_words(&rt, CHECK, joined(&rt, ENDS, ENDS_LOG)?, &[], &mut small)?;
    assert_eq!(rt; ending.status, 5);
    assert!(rt; small.contents() == b"ye".as_slice());
    Ok(())
}

// A text of so many bytes that begins with the bar.
fn long_text<R: AllocGlobal>(rt: &R, length: usize) -> Result<Vec<u8>, AllocError> {
    let mut text = Vec::from_slice(rt.alloc(), b"==\n")?;
    text.resize(length, b'.')?;
    Ok(text)
}

#[test]
fn script_that_is_too_long(rt: HostRuntime) -> Result<(), Fail> {
    let mut script = Vec::new(rt.alloc());
    script.resize(1_048_576, b'\n')?;
    expect(&rt, &script, b"==\n", 3, b"fault 1048577 NoHeader\n")?;
    script.push(b'\n')?;
    expect(&rt, &script, b"==\n", 3, b"fault 0 Large\n")?;
    Ok(())
}

#[test]
fn text_of_the_most_bytes(rt: HostRuntime) -> Result<(), Fail> {
    expect_text(&rt, long_text(&rt, MOST_BYTES)?, 3, b"fault 1 NoHeader\n")?;
    Ok(())
}

#[test]
fn text_that_is_too_long(rt: HostRuntime) -> Result<(), Fail> {
    expect_text(&rt, long_text(&rt, MOST_BYTES + 1)?, 3, b"fault 0 Large\n")?;
    Ok(())
}
