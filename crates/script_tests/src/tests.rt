//! Whole scripts, their logs and statuses.

use cyg_cli::{MemSink, MemSource, run_top};
use std::alloc::{AllocError, AllocGlobal};
use std::process::Abort;
use std::test::Fail;

// What one run of the top call came to.
#[derive(Clone, Copy)]
pub struct Ending {
    pub status: u8,
    pub read_faults: u64,
    pub write_faults: u64,
    pub entries: usize,
}

const RUN_CALLS: &[&str] = &["run", "calls"];

pub const START: &[u8] = b"cygscript 1\nslots 1\nrows 1\n";

pub const FIRST: &[u8] =
    b"budget 100000\nprogram main heap 0 stack 64\ngetpid\nkill 2 0\nexit 0\nschedule\nsettle\n";

pub const FIRST_LOG: &[u8] =
    b"log calls\nhost 0 0\nget 2 pid 2\nkill 2 2 0 0\ndie 2 0 exit\ntty -\ndone quiet\n";

// The bytes of two pieces.
pub fn joined<R: AllocGlobal>(rt: &R, first: &[u8], second: &[u8]) -> Result<Vec<u8>, AllocError> {
    let mut bytes = Vec::new(rt.alloc());
    bytes.extend_from_slice(first)?;
    bytes.extend_from_slice(second)?;
    Ok(bytes)
}

// A sink with room for any log of these tests. It fails at the calls that are given.
pub fn sink_that_fails<R: AllocGlobal>(rt: &R, bad_writes: &[u32]) -> Result<Box<MemSink>, Fail> {
    let mut fails = Vec::new(rt.alloc());
    fails.extend_from_slice(bad_writes)?;
    Ok(Box::new(rt.alloc(), MemSink::new(rt.alloc(), 4096, fails)?)?)
}

// Runs the words over a script. The source fails at the calls that are given.
pub fn run_words<R: AllocGlobal>(
    rt: &R,
    words: &[&str],
    script: Vec<u8>,
    bad_reads: &[u32],
    sink: &mut MemSink,
) -> Result<Ending, AllocError> {
    let mut list = Vec::new(rt.alloc());
    for word in words {
        list.push(String::from_str(rt.alloc(), word)?)?;
    }
    let mut fails = Vec::new(rt.alloc());
    fails.extend_from_slice(bad_reads)?;
    let mut src = MemSource::new(script, fails);
    let answer = run_top(rt.alloc(), &list, &mut src, sink);
    Ok(Ending {
        status: answer.status.get(),
        read_faults: src.faults(),
        write_faults: sink.faults(),
        entries: answer.journal.len(),
    })
}

// Runs a script with the words, and wants its status and what is written.
pub fn expect_output<R: AllocGlobal + Abort>(
    rt: &R,
    words: &[&str],
    script: &[u8],
    status: u8,
    output: &[u8],
) -> Result<Ending, Fail> {
    let mut sink = sink_that_fails(rt, &[])?;
    let ending = run_words(rt, words, joined(rt, script, b"")?, &[], &mut sink)?;
    assert_eq!(rt; ending.status, status);
    assert!(rt; sink.contents() == output);
    assert_eq!(rt; ending.read_faults, 0);
    assert_eq!(rt; ending.write_faults, 0);
    Ok(ending)
}

// The same for a script with one slot and one row whose other lines are given, in view `calls`.
pub fn expect<R: AllocGlobal + Abort>(
    rt: &R,
    rest: &[u8],
    status: u8,
    log: &[u8],
) -> Result<Ending, Fail> {
    expect_output(rt, RUN_CALLS, &joined(rt, START, rest)?, status, log)
}

#[test]
fn other_words_are_refused(rt: HostRuntime) -> Result<(), Fail> {
    let refused: &[&[&str]] = &[
        &[],
        &["run"],
        &["run", "quick"],
        &["run", "All"],
        &["run", "log"],
        &["live", "calls"],
        &["make"],
        &["make", "0"],
        &["make", "501"],
        &["make", "07"],
        &["make", "+7"],
        &["make", "7 "],
        &["make", "two"],
        &["make", "18446744073709551617"],
        &["make", "2", "2"],
        &["run", "calls", "calls"],
        &["check", "check"],
        &["check", "calls"],
        &["run", "check"],
        &["checks"],
        &["Check"],
        &["--help"],
    ];
    for words in refused {
        let mut sink = sink_that_fails(&rt, &[])?;
        let ending = run_words(&rt, words, joined(&rt, START, FIRST)?, &[1], &mut sink)?;
        assert_eq!(rt; ending.status, 2);
        assert!(rt; sink.contents().is_empty());
        assert_eq!(rt; ending.read_faults, 0);
        assert_eq!(rt; ending.write_faults, 0);
        assert_eq!(rt; ending.entries, 0);
    }
    Ok(())
}

// What `make 2` writes.
const TWO_FORKS: &[u8] =
    b"cygscript 1\nslots 2\nrows 3\nbudget 500000\nprogram main heap 64 stack 64\nfork\njzero r0 7\nwait r0 0\n\
    fork\njzero r0 7\nwait r0 0\nexit 0\ngetpid\nexit r0\nschedule\nsettle\n";

#[test]
fn scripts_are_made(rt: HostRuntime) -> Result<(), Fail> {
    let mut sink = sink_that_fails(&rt, &[])?;
    let ending = run_words(
        &rt,
        &["make", "2"],
        joined(&rt, START, FIRST)?,
        &[1],
        &mut sink,
    )?;
    assert_eq!(rt; ending.status, 0);
    assert!(rt; sink.contents() == TWO_FORKS);
    assert_eq!(rt; ending.read_faults, 0);
    assert_eq!(rt; ending.entries, 0);

    let mut large = MemSink::new(rt.alloc(), 65_536, Vec::new(rt.alloc()))?;
    let ending = run_words(&rt, &["make", "500"], Vec::new(rt.alloc()), &[], &mut large)?;
    assert_eq!(rt; ending.status, 0);
    assert!(rt;
        large
            .contents()
            .starts_with(b"cygscript 1\nslots 2\nrows 501\n")
    );
    assert!(rt;
        large
            .contents()
            .ends_with(b"exit 0\ngetpid\nexit r0\nschedule\nsettle\n")
    );

    let mut failing = sink_that_fails(&rt, &[1])?;
    let ending = run_words(&rt, &["make", "2"], Vec::new(rt.alloc()), &[], &mut failing)?;
    assert_eq!(rt; ending.status, 5);
    assert!(rt; TWO_FORKS.starts_with(failing.contents()));
    Ok(())
}

#[test]
fn source_that_fails_at_each_call(rt: HostRuntime) -> Result<(), Fail> {
    for call in 1..3 {
        let mut sink = sink_that_fails(&rt, &[])?;
        let ending = run_words(
            &rt,
            RUN_CALLS,
            joined(&rt, START, FIRST)?,
            &[call],
            &mut sink,
        )?;
        assert_eq!(rt; ending.status, 4);
        assert!(rt; sink.contents().is_empty());
        assert_eq!(rt; ending.read_faults, 1);
        assert_eq!(rt; ending.write_faults, 0);
        assert_eq!(rt; ending.entries, 0);
    }
    let mut sink = sink_that_fails(&rt, &[])?;
    let ending = run_words(&rt, RUN_CALLS, joined(&rt, START, FIRST)?, &[3], &mut sink)?;
    assert_eq!(rt; ending.status, 0);
    Ok(())
}
