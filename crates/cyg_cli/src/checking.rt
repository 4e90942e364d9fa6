//! What a text of a script and a log of its run is, and the line that says so.

ghost use Rattle.std.specs.Prelude.{◌≡◌, IfOk, MatchResult};
ghost use Rattle.std.specs.String.{string_bytes};
ghost use Rattle.cyg_cli.specs.AnswerLines.{line_of, verdict_line as line_of_verdict};
ghost use Rattle.cyg_cli.specs.Checks.{IsJudged, IsNotJudged};
ghost use Rattle.cyg_cli.specs.Outside.{supply};

use cyg_io::{ReadAllFault, Source, read_all};
use cyg_runs::{Refusal, numbered, refusal_line};
use run_check::{Judged, Verdict, judge};
use script_spec::Kind;
use std::alloc::{AllocError, Global};

/// The most bytes that a script and its log may have.
const MOST_BYTES: usize = 67_108_864;

/// Why it isn't told what a source gives.
#[derive(Clone, Copy, Debug, PartialEq, Eq)]
pub enum NotJudged {
    /// The source had a fault.
    Read,
    /// Memory ran out.
    Memory,
}

/// Reads all that the source gives, and says what it is. A text of more than 67,108,864 bytes is a script that is too
/// large; no more than one byte past them is read.
pub fn judge_all<S: Source>(alloc: Global, src: &mut S) -> Result<Judged, NotJudged>
    ensures { MatchResult result
        (IsJudged (supply (S.remaining src.old) (S.faults src.old) (S.given src.old) (S.ends src.old))
        (supply (S.remaining src.new) (S.faults src.new) (S.given src.new) (S.ends src.new)))
        (IsNotJudged (supply (S.remaining src.old) (S.faults src.old) (S.given src.old) (S.ends src.old))
        (supply (S.remaining src.new) (S.faults src.new) (S.given src.new) (S.ends src.new))) }
{
    match read_all(alloc, src, MOST_BYTES) {
        Ok(text) => match judge(alloc, &text) {
            Ok(judged) => Ok(judged),
            Err(_) => Err(NotJudged::Memory),
        },
        Err(ReadAllFault::Large) => Ok(Judged::ScriptFault {
            line: 0,
            kind: Kind::Large,
        }),
        Err(ReadAllFault::Read) => Err(NotJudged::Read),
        Err(ReadAllFault::Memory) => Err(NotJudged::Memory),
    }
}

/// The line that says what a text is. It fails only for want of memory.
pub fn answer_line(alloc: Global, judged: &Judged) -> Result<String, AllocError>
    ensures { IfOk result (λ line. string_bytes line ≡ line_of judged.now) }
{
    match judged {
        Judged::ScriptFault { line, kind } => refusal_line(
            alloc,
            &Refusal::Fault {
                line: *line,
                kind: *kind,
            },
        ),
        Judged::LogFault { line } => format!(in alloc; "logfault {line}\n"),
        Judged::Verdict(verdict) => verdict_line(alloc, verdict),
    }
}

// The line of a verdict.
fn verdict_line(alloc: Global, verdict: &Verdict) -> Result<String, AllocError>
    ensures { IfOk result (λ line. string_bytes line ≡ line_of_verdict verdict.now) }
{
    match verdict {
        Verdict::Yes => format!(in alloc; "yes\n"),
        Verdict::No { line, rule } => numbered(alloc, "no", *line, rule.as_str()),
    }
}
