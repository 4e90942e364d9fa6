//! Reads a script on standard input and prints how many instructions and how many lines of a schedule it has, or its
//! first fault, which ends it with status 3. `bench/run_script.sh` times it.
#![tactic(auto)]

use anyhow::Result;
use cyg_io::{StdSource, read_all};
use cyg_script::{Script, ScriptError, read_script};
use std::process::ExitCode;

/// One byte more than a script may have, so that a longer text is refused and not cut.
const MOST_BYTES: usize = 1_048_577;

/// The text is no script.
const NO_SCRIPT: u8 = 3;

/// How many instructions the programs of a script have.
fn instructions(script: &Script) -> usize {
    script.setup.programs.as_slice().iter().fold(
        0,
        |sum: usize, program| sum.saturating_add(program.code.len()),
    )
}

fn main(rt: HostRuntime) -> Result<ExitCode> {
    let bytes = read_all(rt.alloc(), &mut StdSource::new(rt.reader()), MOST_BYTES)?;
    match read_script(rt.alloc(), &bytes) {
        Ok(script) => {
            println!(rt; "instructions {}", instructions(&script))?;
            println!(rt; "lines {}", script.directives.len())?;
            Ok(ExitCode::SUCCESS)
        }
        Err(ScriptError::Fault { line, kind }) => {
            println!(rt; "fault {line} {kind:?}")?;
            Ok(ExitCode::from(NO_SCRIPT))
        }
        Err(ScriptError::Memory) => Err(ScriptError::Memory.into()),
    }
}
