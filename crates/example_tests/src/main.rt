//! Carries out the examples of a folder, and compares what comes of each with what stands beside it. It prints a line
//! for each example, and ends with status 1 where one of them differs. The argument is the folder; without one it is
//! that in which it runs.
#![tactic(auto)]

mod ended;
mod outcome;
#[cfg(test)]
mod tests;

use anyhow::Result;
use ended::holds_with_ends;
use outcome::{Outcome, outcome_of};
use std::process::ExitCode;
use std::rt::Files;
use std::{env, fs};

/// An example came to something else.
const DIFFERS: u8 = 1;

/// The scripts that are run, each with the view and the status of the run. The log of NAME.cyg is NAME.log.
const RUNS: [(&str, &str, u8); 5] = [
    ("first", "calls", 0),
    ("looping", "events", 0),
    ("ended", "calls", 0),
    ("budget", "calls", 6),
    ("two_forks", "calls", 3),
];

/// The scripts that are run once more with their process ended after each number of steps.
const ENDED: [&str; 4] = ["first", "looping", "ended", "budget"];

/// The texts of a script and a log that are judged with the word `check`, each with the status of the verdict. The
/// verdict on NAME.trace is NAME.verdict.
const TRACES: [(&str, u8); 3] = [("reaped", 0), ("reaped_twice", 1), ("interrupt", 0)];

fn main(rt: HostRuntime) -> Result<ExitCode> {
    let folder = match env::args(&rt)?.nth(1) {
        Some(word) => word,
        None => String::from_str(rt.alloc(), ".")?,
    };
    let folder = folder.as_str();
    let mut are_same = true;
    for (name, view, status) in RUNS {
        let script = file(&rt, folder, name, "cyg")?;
        let wanted = Outcome {
            status,
            output: file(&rt, folder, name, "log")?,
        };
        let outcome = outcome_of(rt.alloc(), &["run", view], script)?;
        are_same &= report(&rt, name, outcome.is(&wanted))?;
    }
    for name in ENDED {
        let script = String::from_utf8(file(&rt, folder, name, "cyg")?)?;
        let ended = format!(in rt.alloc(); "{name} with ends")?;
        are_same &= report(
            &rt,
            ended.as_str(),
            holds_with_ends(rt.alloc(), script.as_str())?,
        )?;
    }
    let wanted = Outcome {
        status: 0,
        output: file(&rt, folder, "two_forks", "cyg")?,
    };
    let made = outcome_of(rt.alloc(), &["make", "2"], Vec::new(rt.alloc()))?;
    are_same &= report(&rt, "make 2", made.is(&wanted))?;
    for (name, status) in TRACES {
        let trace = file(&rt, folder, name, "trace")?;
        let wanted = Outcome {
            status,
            output: file(&rt, folder, name, "verdict")?,
        };
        let verdict = outcome_of(rt.alloc(), &["check"], trace)?;
        are_same &= report(&rt, name, verdict.is(&wanted))?;
    }
    Ok(ExitCode::from(if are_same { 0 } else { DIFFERS }))
}

// The bytes of the file of an example with this ending.
fn file<R: Files + AllocGlobal>(rt: &R, folder: &str, name: &str, ending: &str) -> Result<Vec<u8>> {
    let path = format!(in rt.alloc(); "{folder}/{name}.{ending}")?;
    Ok(fs::read(rt, path.as_str())?)
}

// Says whether an example came to what stands beside it, and answers it.
fn report<R: Print>(rt: &R, name: &str, is_same: bool) -> Result<bool> {
    let says = if is_same { "as it stands" } else { "differs" };
    println!(rt; "{name}: {says}")?;
    Ok(is_same)
}
