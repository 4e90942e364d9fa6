//! Runs of scripts, and scripts that are refused.

use crate::tests::{
    FIRST, FIRST_LOG, START, expect, expect_output, joined, run_words, sink_that_fails,
};
use std::alloc::{AllocGlobal, Global};
use std::process::Abort;
use std::test::Fail;

const RUN_ALL: &[&str] = &["run", "all"];

const RUN_EVENTS: &[&str] = &["run", "events"];

const RUN_CALLS: &[&str] = &["run", "calls"];

/// The lines of a script of one process that ends at once, after those of its limits.
const ENDS: &[u8] = b"program main heap 0 stack 64\nexit 0\nschedule\nsettle\n";

/// The log of its run in view `calls`.
const ENDS_LOG: &[u8] = b"log calls\nhost 0 0\ndie 2 0 exit\ntty -\ndone quiet\n";

/// The entries of its run: the first turn of each thread, the process's start, its end by `exit`, and the host's look
/// at it.
const ENDS_ENTRIES: [&str; 25] = [
    "1 turn 0 0 | load 1 0 | word 1 | -\n",
    "2 turn 0 1 | load 1 0 | word 1 | -\n",
    "3 turn 1 0 | load 1 0 | word 1 | -\n",
    "4 turn 1 0 | event 0 0 | handle 4 | -\n",
    "5 turn 1 0 | mutex 0 | handle 5 | -\n",
    "6 turn 1 0 | pipe | two 6 7 | -\n",
    "7 turn 1 0 | event 0 0 | handle 8 | -\n",
    "8 turn 1 0 | open 2 | handle 9 | -\n",
    "9 turn 1 0 | resume 9 1 | count 1 | -\n",
    "10 turn 1 1 | load 1 0 | word 1 | -\n",
    "11 turn 1 0 | resume 9 2 | count 1 | -\n",
    "12 turn 1 2 | load 1 0 | word 1 | -\n",
    "13 turn 1 0 | close 9 | done | -\n",
    "14 turn 1 0 | load 1 1 | word 2251804108652544 | -\n",
    "15 turn 1 0 | cas 1 3 0 1024 | word 0 | -\n",
    "16 turn 1 0 | load 1 1 | word 2251804108652544 | -\n",
    "17 turn 1 0 | cas 1 1 2251804108652544 4503603922337792 | word 2251804108652544 | die 2 0 exit\n",
    "18 turn 1 0 | wait 2 | woke 0 | -\n",
    "19 turn 1 0 | load 1 2 | word 68753039361 | -\n",
    "20 turn 1 0 | load 1 1 | word 4503603922337792 | -\n",
    "21 turn 1 0 | cas 1 1 4503603922337792 5629499534213120 | word 4503603922337792 | collect 2\n",
    "22 turn 1 0 | release 2 | done | -\n",
    "23 turn 1 0 | exitself 0 | done | -\n",
    "24 turn 0 1 | wait 4 | woke 0 | -\n",
    "25 turn 0 1 | exitcode 4 | code 0 | host 0 0\n",
];

// That script with a budget.
fn ends_script(alloc: Global, budget: usize) -> Result<Vec<u8>, Fail> {
    let limits = format!(in alloc; "cygscript 1\nslots 1\nrows 1\nbudget {budget}\n")?;
    let mut script = limits.as_bytes().to_vec(alloc)?;
    script.extend_from_slice(ENDS)?;
    Ok(script)
}

// The log in view `all` of its first entries, with the last line.
fn ends_log(alloc: Global, entries: usize, done: &str) -> Result<Vec<u8>, Fail> {
    let mut log = b"log all\n".to_vec(alloc)?;
    for line in ENDS_ENTRIES.iter().take(entries) {
        log.extend_from_slice(line.as_bytes())?;
    }
    log.extend_from_slice(done.as_bytes())?;
    Ok(log)
}

#[test]
fn first_script_is_run(rt: HostRuntime) -> Result<(), Fail> {
    expect(&rt, FIRST, 0, FIRST_LOG)?;
    expect_output(
        &rt,
        RUN_EVENTS,
        &joined(&rt, START, FIRST)?,
        0,
        b"log events\nget 2 pid 2\nkill 2 2 0 0\ndie 2 0 exit\ncollect 2\nhost 0 0\ndone quiet\n",
    )?;
    Ok(())
}

#[test]
fn each_entry_of_a_run_is_told(rt: HostRuntime) -> Result<(), Fail> {
    let most = ENDS_ENTRIES.len();
    let log = ends_log(rt.alloc(), most, "done quiet\n")?;
    for budget in [100_000, most] {
        let script = ends_script(rt.alloc(), budget)?;
        let ending = expect_output(&rt, RUN_ALL, &script, 0, &log)?;
        assert_eq!(rt; ending.entries, most);
        expect_output(&rt, RUN_CALLS, &script, 0, ENDS_LOG)?;
    }
    Ok(())
}

#[test]
fn budget_ends_a_run(rt: HostRuntime) -> Result<(), Fail> {
    for budget in 1..ENDS_ENTRIES.len() {
        let script = ends_script(rt.alloc(), budget)?;
        let log = ends_log(rt.alloc(), budget, "done budget\n")?;
        let ending = expect_output(&rt, RUN_ALL, &script, 6, &log)?;
        assert_eq!(rt; ending.entries, budget);
    }
    Ok(())
}

#[test]
fn sink_that_fails_at_each_call_holds_the_first_lines(rt: HostRuntime) -> Result<(), Fail> {
    let script = ends_script(rt.alloc(), 100_000)?;
    let log = ends_log(rt.alloc(), ENDS_ENTRIES.len(), "done quiet\n")?;
    let calls = ENDS_ENTRIES.len() as u32 + 2;
    for call in 1..=calls {
        let mut sink = sink_that_fails(&rt, &[call])?;
        let ending = run_words(&rt, RUN_ALL, joined(&rt, &script, b"")?, &[], &mut sink)?;
        assert_eq!(rt; ending.status, 5);
        assert_eq!(rt; ending.write_faults, 1);
        let written = sink.contents();
        assert!(rt; written.len() < log.len());
        assert!(rt; log.starts_with(written));
    }
    let mut sink = sink_that_fails(&rt, &[calls + 1])?;
    let ending = run_words(&rt, RUN_ALL, script, &[], &mut sink)?;
    assert_eq!(rt; ending.status, 0);
    Ok(())
}

#[test]
fn schedule_may_give_each_turn(rt: HostRuntime) -> Result<(), Fail> {
    expect(
        &rt,
        b"budget 100000\nprogram main heap 0 stack 64\nexit 0\nschedule\nsteps 1\n",
        0,
        b"log calls\ntty -\ndone given\n",
    )?;
    let ending = expect_output(
        &rt,
        RUN_ALL,
        &joined(
            &rt,
            START,
            b"budget 9\nprogram main heap 0 stack 64\nexit 0\nschedule\nturn 1 0\nturn 1 1\nend 1\nend 1\nturn 1 0\n",
        )?,
        0,
        b"log all\n1 turn 1 0 | load 1 0 | word 1 | -\n2 turn 1 1 | - | idle | -\n3 end 1 | - | ended 2 | -\n\
        4 end 1 | - | idle | -\n5 turn 1 0 | - | idle | -\ndone given\n",
    )?;
    assert_eq!(rt; ending.entries, 5);
    Ok(())
}

#[test]
fn process_that_is_ended_shows_its_code(rt: HostRuntime) -> Result<(), Fail> {
    expect(
        &rt,
        b"budget 100000\nprogram main heap 0 stack 64\njump 0\nschedule\nsteps 30\nend 1\nsettle\n",
        0,
        b"log calls\nhost 0 65536\ntty -\ndone quiet\n",
    )?;
    Ok(())
}

#[test]
fn kill_of_an_absent_process(rt: HostRuntime) -> Result<(), Fail> {
    expect(
        &rt,
        b"budget 100000\nprogram main heap 0 stack 64\nkill 3 0\nexit 4\nschedule\nsettle\n",
        0,
        b"log calls\nhost 0 4\nkill 2 3 0 ESRCH\ndie 2 4 exit\ntty -\ndone quiet\n",
    )?;
    Ok(())
}

#[test]
fn gets_tell_the_numbers(rt: HostRuntime) -> Result<(), Fail> {
    expect(
        &rt,
        b"budget 100000\nprogram main heap 0 stack 64\ngetppid\ngetpgid\ngetsid\nexit r0\nschedule\nsettle\n",
        0,
        b"log calls\nhost 0 2\nget 2 ppid 1\nget 2 pgid 2\nget 2 sid 2\ndie 2 2 exit\ntty -\ndone quiet\n",
    )?;
    Ok(())
}

#[test]
fn faults_end_the_process(rt: HostRuntime) -> Result<(), Fail> {
    let programs: &[&[u8]] = &[
        b"program main heap 0 stack 64\nload r0 0\nexit 0\n",
        b"program main heap 4 stack 64\nstore 4 1\nexit 0\n",
        b"program main heap 4 stack 64\npop r1\nexit 0\n",
        b"program main heap 0 stack 64\ngetpid\n",
    ];
    for program in programs {
        let front = joined(&rt, START, b"budget 100000\n")?;
        let rest = joined(&rt, program, b"schedule\nsettle\n")?;
        let mut sink = sink_that_fails(&rt, &[])?;
        let ending = run_words(&rt, RUN_CALLS, joined(&rt, &front, &rest)?, &[], &mut sink)?;
        assert_eq!(rt; ending.status, 0);
        assert!(rt;
            sink.contents()
                .ends_with(b"die 2 267 fault\ntty -\ndone quiet\n")
        );
        assert!(rt; sink.contents().starts_with(b"log calls\nhost 0 267\n"));
    }
    expect(
        &rt,
        b"budget 100000\nprogram main heap 0 stack 64\nload r0 0\nexit 0\nschedule\nsettle\n",
        0,
        b"log calls\nhost 0 267\ndie 2 267 fault\ntty -\ndone quiet\n",
    )?;
    Ok(())
}

#[test]
fn local_instructions_run_in_blocks(rt: HostRuntime) -> Result<(), Fail> {
    expect_output(
        &rt,
        RUN_EVENTS,
        &joined(
            &rt,
            START,
            b"budget 100000\nprogram main heap 4 stack 64\nset r1 300\nadd r2 3\nadd r1 -1\njzero r1 5\njump 1\n\
            store 2 r2\nload r3 2\npush r3\npop r4\nexit r4\nschedule\nsettle\n",
        )?,
        0,
        b"log events\nrun 2 256\nrun 2 256\nrun 2 256\nrun 2 256\nrun 2 180\ndie 2 132 exit\ncollect 2\n\
        host 0 132\ndone quiet\n",
    )?;
    Ok(())
}

// Wants that a text is refused with the line.
fn refused<R: AllocGlobal + Abort>(rt: &R, script: &[u8], line: &[u8]) -> Result<(), Fail> {
    let ending = expect_output(rt, RUN_CALLS, script, 3, line)?;
    assert_eq!(rt; ending.entries, 0);
    Ok(())
}

#[test]
fn first_fault_of_a_text_is_told(rt: HostRuntime) -> Result<(), Fail> {
    refused(&rt, b"", b"fault 1 NoHeader\n")?;
    refused(&rt, b"cygscript 2\n", b"fault 1 NoHeader\n")?;
    refused(&rt, b"cygscript 1\nslots 65\n", b"fault 2 Range\n")?;
    refused(
        &rt,
        b"cygscript 1\nslots 1\nrows 1\nbudget 100000\nprogram main heap 0 stack 64\njump 9\nschedule\nsettle\n",
        b"fault 6 Target\n",
    )?;
    refused(
        &rt,
        b"cygscript 1\nslots 1\nrows 1\nbudget 100000\nprogram main heap 0 stack 64\nexit 0\n",
        b"fault 7 Missing\n",
    )?;
    let script = joined(&rt, START, FIRST)?;
    for length in 0..script.len() {
        let mut sink = sink_that_fails(&rt, &[])?;
        let text = joined(&rt, &script[..length], b"")?;
        let ending = run_words(&rt, RUN_CALLS, text, &[], &mut sink)?;
        assert_eq!(rt; ending.status, 3);
        assert!(rt; sink.contents().starts_with(b"fault "));
    }
    Ok(())
}

#[test]
fn words_that_are_not_built_are_refused(rt: HostRuntime) -> Result<(), Fail> {
    let programs: &[&[u8]] = &[
        b"fork\nexit 0\nschedule\nsettle\n",
        b"kill 2 9\nexit 0\nschedule\nsettle\n",
        b"kill -2 0\nexit 0\nschedule\nsettle\n",
        b"kill r0 0\nexit 0\nschedule\nsettle\n",
        b"exit 0\npause\nschedule\nsettle\n",
        b"exit 0\nschedule\nsettle\nkey 0a\n",
    ];
    for program in programs {
        let front = joined(&rt, START, b"budget 5\nprogram main heap 0 stack 64\n")?;
        refused(&rt, &joined(&rt, &front, program)?, b"fault 0 Unbuilt\n")?;
    }
    // A fault of the grammar stands before it.
    let front = joined(&rt, START, b"budget 5\nprogram main heap 0 stack 64\n")?;
    refused(
        &rt,
        &joined(&rt, &front, b"fork\nexit 0\nschedule\nsettle 1\n")?,
        b"fault 9 Words\n",
    )?;
    Ok(())
}

#[test]
fn text_that_is_too_long(rt: HostRuntime) -> Result<(), Fail> {
    let mut script = joined(&rt, START, FIRST)?;
    script.resize(1_048_576, b'\n')?;
    expect_output(&rt, RUN_CALLS, &script, 0, FIRST_LOG)?;
    script.push(b'\n')?;
    refused(&rt, &script, b"fault 0 Large\n")
}
