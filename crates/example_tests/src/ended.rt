//! Runs of a script whose first process is ended from outside, and what `check` says of their logs.

use crate::outcome::outcome_of;
use std::alloc::{AllocError, Global};

/// The line that stands before the lines of a schedule.
const SCHEDULE: &str = "\nschedule\n";

/// After how many steps the process is ended at the most.
const MOST_STEPS: u32 = 60;

/// Whether the log of each run of a script holds in which, after some number of steps up to 60, the process in slot 1
/// is ended. It fails only for want of memory.
pub fn holds_with_ends(alloc: Global, script: &str) -> Result<bool, AllocError> {
    let Some((front, _)) = script.split_once(SCHEDULE) else {
        return Ok(false);
    };
    for steps in 1..=MOST_STEPS {
        if !holds_with_end(alloc, front, steps)? {
            return Ok(false);
        }
    }
    Ok(true)
}

// Whether the log of such a run holds, where its process is ended after so many steps.
fn holds_with_end(alloc: Global, front: &str, steps: u32) -> Result<bool, AllocError> {
    let script = format!(in alloc; "{front}{SCHEDULE}steps {steps}\nend 1\nsettle\n")?;
    let run = outcome_of(alloc, &["run", "events"], script.as_bytes().to_vec(alloc)?)?;
    if run.status != 0 && run.status != 6 {
        return Ok(false);
    }
    let mut text = script.as_bytes().to_vec(alloc)?;
    text.extend_from_slice(b"==\n")?;
    text.extend_from_slice(&run.output)?;
    let verdict = outcome_of(alloc, &["check"], text)?;
    Ok(verdict.status == 0)
}
