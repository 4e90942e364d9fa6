//! A script that was read is run, and its log written; or the line of its refusal is.

ghost use Rattle.std.specs.Prelude.{◌≡◌, true};
ghost use Rattle.script_spec.specs.Validity.{IsValid};
ghost use Rattle.layer_spec.specs.Headline.{IsJournalOf};
ghost use Rattle.cyg_runs.specs.Runs.{IsLogOf, IsRefusal, RunsScript, status_of as status_number};

use crate::refusal::{Refusal, refusal_line};
use crate::running::{Finished, run_world};
use crate::status::{RunAnswer, Status, without_journal};
use cyg_io::{Sink, write_all};
use log_text::write_log;
use script_spec::Script;
use std::alloc::Global;
use w32_base::{End, View};
use world_spec::RelyGuarantee;

/// Runs a script where the parts are built for it, and writes its log in a view; else writes the line of its refusal.
/// The caller says whether they are built.
pub fn run_built<P: RelyGuarantee + Drop, K: Sink>(
    alloc: Global,
    script: &Script,
    built: bool,
    view: View,
    sink: &mut K,
) -> RunAnswer
    requires valid { IsValid script.now }
    requires serves { built ≡ true → P.serves script.now }
    ensures { RunsScript (IsJournalOf P.posted_of P.goes P.opening P.slot_of P.thread_of script.now) built view
        (K.held sink.old) (K.held sink.new) (K.faults sink.old) (K.faults sink.new) result.status result.journal }
{
    if !built {
        return refuse(alloc, &Refusal::Unbuilt, sink);
    }
    match run_world::<P>(alloc, script) {
        Ok(run) => log(script, run, view, sink),
        Err(_) => without_journal(alloc, Status::new(7)),
    }
}

/// Writes the line that says why a text is refused.
pub fn refuse<K: Sink>(alloc: Global, refusal: &Refusal, sink: &mut K) -> RunAnswer
    ensures { IsRefusal refusal.now (K.held sink.old) (K.held sink.new) (K.faults sink.old) (K.faults sink.new)
        result.status result.journal }
{
    let Ok(line) = refusal_line(alloc, refusal) else {
        return without_journal(alloc, Status::new(7));
    };
    match write_all(sink, line.as_bytes()) {
        Ok(()) => without_journal(alloc, Status::new(3)),
        Err(_) => without_journal(alloc, Status::new(5)),
    }
}

/// Writes the log of a run.
pub fn log<K: Sink>(script: &Script, run: Finished, view: View, sink: &mut K) -> RunAnswer
    ensures { IsLogOf view run.journal run.end (K.held sink.old) (K.held sink.new) (K.faults sink.old)
        (K.faults sink.new) result.status result.journal }
{
    let status = match write_log(script, run.journal.as_slice(), run.end, view, sink) {
        Ok(()) => status_of(run.end),
        Err(_) => Status::new(5),
    };
    RunAnswer {
        status,
        journal: run.journal,
    }
}

/// The status of a run that ended so, where its whole log was written.
pub fn status_of(end: End) -> Status
    ensures { result ≡ status_number end }
{
    match end {
        End::Quiet | End::Given => Status::new(0),
        End::Budget => Status::new(6),
    }
}
