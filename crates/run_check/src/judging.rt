//! What a text of a script and a log is.

ghost use Rattle.std.specs.Prelude.{◌≤◌, IfOk, length};
ghost use Rattle.log_text.specs.ReadLogs.{most_log_bytes};
ghost use Rattle.run_check.specs.Judging.{JudgesLog, JudgesParts, Judges};

use crate::parts::parts;
use crate::verdict::{Verdict, check};
use cyg_script::{ScriptError, read_script};
use log_text::{LogError, read_events};
use script_spec::{Kind, Script};
use std::alloc::{AllocError, Global};
use w32_base::Memory;

/// What a text of a script and a log is.
#[derive(Clone, Copy, Debug, PartialEq, Eq)]
pub enum Judged {
    /// Its script has a fault.
    ScriptFault {
        /// The line of the script, from 1; 0 for a script that is too long.
        line: u32,
        /// What is wrong with it.
        kind: Kind,
    },
    /// Its log is none in view `events`.
    LogFault {
        /// The line of the log, from 1.
        line: u32,
    },
    /// Its log says events, which have this verdict.
    Verdict(Verdict),
}

// Judges the log of a run of the script.
fn judge_log(alloc: Global, script: &Script, log: &[u8]) -> Result<Judged, Memory>
    requires { length log.now ≤ most_log_bytes }
    ensures { IfOk result (λ judged. JudgesLog script.now log.now judged) }
{
    match read_events(alloc, script, log) {
        Ok(events) => Ok(Judged::Verdict(check(alloc, script, &events)?)),
        Err(LogError::Fault { line }) => Ok(Judged::LogFault { line }),
        Err(LogError::Memory) => Err(AllocError),
    }
}

// Judges the text of a script and a log.
fn judge_parts(alloc: Global, text: &[u8], log: &[u8]) -> Result<Judged, Memory>
    requires { length log.now ≤ most_log_bytes }
    ensures { IfOk result (λ judged. JudgesParts text.now log.now judged) }
{
    match read_script(alloc, text) {
        Ok(script) => judge_log(alloc, &script, log),
        Err(ScriptError::Fault { line, kind }) => Ok(Judged::ScriptFault { line, kind }),
        Err(ScriptError::Memory) => Err(AllocError),
    }
}

/// Judges a text of a script and a log: the script's first fault, else the log's, else whether its events are a run of
/// the script. It fails only for want of memory.
pub fn judge(alloc: Global, text: &[u8]) -> Result<Judged, Memory>
    requires { length text.now ≤ most_log_bytes }
    ensures { IfOk result (λ judged. Judges text.now judged) }
{
    let (script, log) = parts(text);
    judge_parts(alloc, script, log)
}
