//! The largest inputs: there is memory for them.

use crate::outcome::outcome_of;
use std::alloc::{AllocError, Global};
use std::test::Fail;

/// The most bytes that a script may have.
const MOST_SCRIPT: usize = 1_048_576;

/// The most bytes that a text of a script and a log may have.
const MOST_TEXT: usize = 67_108_864;

/// The first lines of a script with the largest budget.
const START: &[u8] = b"cygscript 1\nslots 1\nrows 1\nbudget 500000\n";

/// The other lines of a script with a short program.
const SHORT: &[u8] = b"program main heap 0 stack 64\nexit 0\nschedule\nsettle\n";

/// A line that is skipped.
const COMMENT: &[u8] = b"# a comment that makes the script as long as it may be\n";

/// A line of an event, with as many bytes as an event may show.
const WRITE: &[u8] =
    b"write 2 64 61616161616161616161616161616161616161616161616161616161616161616161\
    616161616161616161616161616161616161616161616161616161616161\n";

/// The last line of a log.
const DONE: &[u8] = b"done quiet\n";

// Adds the line as often as there is room for it below this number of bytes.
fn fill(bytes: &mut Vec<u8>, line: &[u8], most: usize) -> Result<(), AllocError> {
    let room = most.saturating_sub(bytes.len());
    for _line in 0..room / line.len().max(1) {
        bytes.extend_from_slice(line)?;
    }
    Ok(())
}

// A script of as many bytes as one may have, but for less than one line that is skipped.
fn large_script(alloc: Global) -> Result<Vec<u8>, AllocError> {
    let mut script = Vec::new(alloc);
    script.extend_from_slice(START)?;
    fill(&mut script, COMMENT, MOST_SCRIPT - SHORT.len())?;
    script.extend_from_slice(SHORT)?;
    Ok(script)
}

// The script, and a log of as many bytes as there may be of both together, but for less than one line of an event.
fn large_text(alloc: Global) -> Result<Vec<u8>, AllocError> {
    let mut text = large_script(alloc)?;
    text.extend_from_slice(b"==\nlog events\n")?;
    fill(&mut text, WRITE, MOST_TEXT - DONE.len())?;
    text.extend_from_slice(DONE)?;
    Ok(text)
}

#[test]
fn the_longest_program_is_run(rt: HostRuntime) -> Result<(), Fail> {
    let mut script = START.to_vec(rt.alloc())?;
    script.extend_from_slice(b"program main heap 0 stack 64\n")?;
    for _check in 0..3999 {
        script.extend_from_slice(b"kill 4001 0\n")?;
    }
    script.extend_from_slice(b"exit 0\nschedule\nsettle\n")?;
    let outcome = outcome_of(rt.alloc(), &["run", "calls"], script)?;
    assert_eq!(rt; outcome.status, 0);
    assert!(rt;
        outcome
            .output
            .ends_with(b"die 2 0 exit\ntty -\ndone quiet\n")
    );
    Ok(())
}

#[test]
fn the_largest_script_is_read(rt: HostRuntime) -> Result<(), Fail> {
    let script = large_script(rt.alloc())?;
    assert!(rt; script.len() <= MOST_SCRIPT && script.len() + COMMENT.len() > MOST_SCRIPT);
    // The script has no fault, and the log that is wanting has one.
    let outcome = outcome_of(rt.alloc(), &["check"], script)?;
    assert_eq!(rt; outcome.status, 3);
    assert_eq!(rt; outcome.output.as_slice(), b"logfault 1\n".as_slice());
    Ok(())
}

#[test]
fn the_largest_text_is_judged(rt: HostRuntime) -> Result<(), Fail> {
    let text = large_text(rt.alloc())?;
    assert!(rt; text.len() <= MOST_TEXT && text.len() + WRITE.len() > MOST_TEXT);
    let outcome = outcome_of(rt.alloc(), &["check"], text)?;
    assert_eq!(rt; outcome.status, 1);
    assert_eq!(rt; outcome.output.as_slice(), b"no 2 write\n".as_slice());
    Ok(())
}
