//! The top call: from the words and the bytes of a script to the bytes of its log.

ghost use Rattle.std.specs.Prelude.{◌≡◌, ◌≢◌, ◌≤◌, [], ◌↔◌, ◌⊎◌, ℕ, map, true, IfOk, IfSome};
ghost use Rattle.std.specs.String.{string_bytes};
ghost use Rattle.w32_base.specs.declared.entry.View.{View};
ghost use Rattle.script_spec.specs.declared.script.Script.{Script};
ghost use Rattle.script_spec.specs.Print.{print_of};
ghost use Rattle.script_spec.specs.Validity.{IsValid};
ghost use Rattle.layer_spec.specs.Headline.{IsJournalOf};
ghost use Rattle.layer_actor.specs.Built.{is_built};
ghost use Rattle.world_gen.specs.Forks.{IsForking};
ghost use Rattle.cyg_io.specs.Counts.{Rose, RoseBy};
ghost use Rattle.cyg_io.specs.Source.{DrawsUpTo};
ghost use Rattle.cyg_runs.specs.declared.refusal.Refusal.{Refusal};
ghost use Rattle.cyg_runs.specs.declared.refusal.Refusal.TheVariants as refusal;
ghost use Rattle.cyg_runs.specs.Runs.{IsRefusal};
ghost use Rattle.cyg_cli.specs.Top.{Ends, IsMaking};
ghost use Rattle.cyg_cli.specs.Outside.{outside};
ghost use Rattle.cyg_cli.specs.LayerJournals.{IsLayerJournal};
ghost use Rattle.cyg_cli.specs.Runs.{RunEnds, IsRefused, IsDeclined, IsRead, IsRunOf, IsLogged};
ghost use Rattle.cyg_cli.specs.Runs.{IsRunOrShort, IsRunStatus};
ghost use Rattle.cyg_cli.specs.AnswerLines.{answer_status};
ghost use Rattle.cyg_cli.specs.Checks.{Checks, ComesToItsText, IsAnswerStatus, IsAnswered, IsAnsweredOrShort};
ghost use Rattle.cyg_cli.specs.Checks.{IsDenied, IsTold};
ghost use Rattle.cyg_cli.specs.Commands.{Asks, IsNoCommand};
ghost use Rattle.cyg_cli.specs.declared.commands.Command.TheVariants.{Run, Check, Make};

use crate::checking::{NotJudged, answer_line, judge_all};
use crate::commands::{Command, command_of};
use cyg_io::{ReadAllFault, Sink, Source, read_all, write_all};
use cyg_runs::{Refusal, RunAnswer as TopAnswer, Status, refuse, run_built, without_journal};
use cyg_script::{ScriptError, print_script, read_script};
use layer_actor::{Actor, built};
use run_check::{Judged, Verdict};
use script_spec::{Kind, MOST_BYTES};
use std::alloc::Global;
use w32_base::{Memory, View};
use world_gen::make;
use world_spec::RelyGuarantee;

/// Carries out a command. The words are the program's arguments after its own name: `run all`, `run events`,
/// `run calls`, `check`, or `make N` with N from 1 to 500, in digits without a leading zero.
///
/// With `run` and a view the source gives a script, of at most 1,048,576 bytes. It is run on the modelled Win32 by the
/// layer, and its log goes to the sink in that view. A text that is no script is refused with the line
/// `fault LINE KIND` of its first fault, and a script of which a word isn't built with the line `fault 0 Unbuilt`. With
/// `make N` the script of N forks goes to the sink, and the source isn't read.
///
/// With `check` the source gives a script, a line `==` and a log in view `events`, of at most 67,108,864 bytes
/// together. To the sink goes one line: `yes` where the log's events are a run of the POSIX machine from where the
/// script begins, `no LINE RULE` with the first event that is no step, `fault LINE KIND` with the first fault of the
/// script, or `logfault LINE` with that of the log.
pub fn run_top<S: Source, K: Sink>(
    alloc: Global,
    words: &Vec<String>,
    src: &mut S,
    sink: &mut K,
) -> TopAnswer
    // How it ended, with what was read, run and written.
    ensures story { Ends IsLayerJournal (map string_bytes words.now.items)
        (outside (S.remaining src.old) (S.faults src.old) (S.given src.old) (S.ends src.old)
        (K.held sink.old) (K.faults sink.old))
        (outside (S.remaining src.new) (S.faults src.new) (S.given src.new) (S.ends src.new)
        (K.held sink.new) (K.faults sink.new))
        result.status result.journal }

    // 2 is the answer exactly where the words aren't accepted. Nothing is then read or written.
    ensures other_words { (result.status ≡ 2) ↔ IsNoCommand (map string_bytes words.now.items) }
    ensures source_untouched { result.status ≡ 2
        → (S.remaining src.new ≡ S.remaining src.old) × (S.faults src.new ≡ S.faults src.old)
        × (S.given src.new ≡ S.given src.old) × (S.ends src.new ≡ S.ends src.old) }
    ensures sink_untouched { result.status ≡ 2
        → (K.held sink.new ≡ K.held sink.old) × (K.faults sink.new ≡ K.faults sink.old) }

    // With `run` 3 comes where the text was read and is no script, or one of which a word isn't built. The line that
    // says so is what was written.
    ensures refused { (v : View) → Asks (map string_bytes words.now.items) (Run v) → result.status ≡ 3
        → IsDeclined (S.remaining src.old) (K.held sink.old) (K.held sink.new) }
    ensures refused_after { (v : View) → Asks (map string_bytes words.now.items) (Run v) → result.status ≡ 3
        → IsRead (S.ends src.old) (S.ends src.new) (S.given src.old) (S.given src.new) }
    ensures only_scripts_run { (v : View) → Asks (map string_bytes words.now.items) (Run v)
        → IfSome (S.remaining src.old)
        (λ text. (r : Refusal) → IsRefused text r → (result.status ≢ 0) × (result.status ≢ 6)) }

    // 4 comes only where the source had a fault, and nothing is then written. 5 comes only where the sink had one. 7
    // comes before the first directive.
    ensures read_fault { result.status ≡ 4
        → Rose (S.faults src.old) (S.faults src.new) × (K.held sink.new ≡ K.held sink.old) }
    ensures write_fault { result.status ≡ 5 → Rose (K.faults sink.old) (K.faults sink.new) }
    ensures no_memory { result.status ≡ 7 → (K.held sink.new ≡ K.held sink.old) × (result.journal ≡ []) }

    // A journal that is answered is that of a run of the script: its entries are steps of the modelled Win32 under the
    // script's schedule, each with what the part of its thread did; its events are steps of the POSIX machine, with
    // their evidence; and after each entry its processes are those that the rows and the memory of the live processes
    // show.
    ensures headline { result.journal ≢ [] → IsRunOf IsLayerJournal (S.remaining src.old) result.journal }

    // 0 and 6 come with the whole log of such a journal, in the view that was asked for; 6 exactly where the run ended
    // by its budget.
    ensures logged { (v : View) → Asks (map string_bytes words.now.items) (Run v)
        → (result.status ≡ 0) ⊎ (result.status ≡ 6)
        → IsLogged IsLayerJournal v (S.remaining src.old) (K.held sink.old) (K.held sink.new)
        result.status result.journal }

    // A script is run, or its text refused, unless the source or the sink has a fault or memory runs out.
    ensures complete { (v : View) → Asks (map string_bytes words.now.items) (Run v)
        → ¬ Rose (S.faults src.old) (S.faults src.new) → ¬ Rose (K.faults sink.old) (K.faults sink.new)
        → IsRunStatus result.status × IfSome (S.remaining src.old) (IsRunOrShort result.status result.journal) }

    // A script is made, unless the sink has a fault or memory runs out. The source isn't read.
    ensures made { (n : ℕ) → Asks (map string_bytes words.now.items) (Make n)
        → IsMaking n (K.held sink.old) (K.held sink.new) (K.faults sink.old) (K.faults sink.new)
        result.status result.journal }
    ensures unread { (n : ℕ) → Asks (map string_bytes words.now.items) (Make n)
        → (S.remaining src.new ≡ S.remaining src.old) × (S.faults src.new ≡ S.faults src.old)
        × (S.given src.new ≡ S.given src.old) × (S.ends src.new ≡ S.ends src.old) }

    // A `check` writes what its text is, unless the source or the sink has a fault or memory runs out. It runs no
    // world, and reads at most one byte past the limit of 67,108,864.
    ensures checked { Asks (map string_bytes words.now.items) Check → ComesToItsText
        (outside (S.remaining src.old) (S.faults src.old) (S.given src.old) (S.ends src.old)
        (K.held sink.old) (K.faults sink.old))
        (outside (S.remaining src.new) (S.faults src.new) (S.given src.new) (S.ends src.new)
        (K.held sink.new) (K.faults sink.new))
        result.status }
    ensures unrun { Asks (map string_bytes words.now.items) Check → result.journal ≡ [] }
    ensures asked { Asks (map string_bytes words.now.items) Check
        → DrawsUpTo 67108865 (S.remaining src.old) (S.remaining src.new) (S.given src.old) (S.given src.new) }

    // 0, 1 and 3 come with the whole line of an answer, and 1 only where the log has an event that is no step.
    ensures answered { Asks (map string_bytes words.now.items) Check
        → (result.status ≡ 0) ⊎ (result.status ≡ 1) ⊎ (result.status ≡ 3)
        → IsAnswered (S.remaining src.old) (K.held sink.old) (K.held sink.new) result.status }
    ensures denied { result.status ≡ 1 → Asks (map string_bytes words.now.items) Check
        × IsDenied (S.remaining src.old) (K.held sink.old) (K.held sink.new) }

    // A text is answered, unless the source or the sink has a fault or memory runs out.
    ensures complete_check { Asks (map string_bytes words.now.items) Check
        → ¬ Rose (S.faults src.old) (S.faults src.new) → ¬ Rose (K.faults sink.old) (K.faults sink.new)
        → IsAnswerStatus result.status × IfSome (S.remaining src.old) (IsAnsweredOrShort result.status) }

    // Where a `check` ends with 0 or 1, the source has answered its end.
    ensures whole_check { Asks (map string_bytes words.now.items) Check
        → (result.status ≡ 0) ⊎ (result.status ≡ 1) → RoseBy 1 (S.ends src.old) (S.ends src.new) }

    // Where a run ends with 0 or 6, the source has answered its end.
    ensures whole_run { (v : View) → Asks (map string_bytes words.now.items) (Run v) → result.status ≡ 0
        → RoseBy 1 (S.ends src.old) (S.ends src.new) }
    ensures part_run { result.status ≡ 6 → RoseBy 1 (S.ends src.old) (S.ends src.new) }
{
    carry_out::<Actor, S, K>(alloc, words, src, sink)
}

// Carries out a command, where the parts serve each script of which every word is built.
fn carry_out<P: RelyGuarantee + Drop, S: Source, K: Sink>(
    alloc: Global,
    words: &Vec<String>,
    src: &mut S,
    sink: &mut K,
) -> TopAnswer
    requires serves { (script : Script) → IsValid script → is_built script ≡ true → P.serves script }
    ensures story { Ends (IsJournalOf P.posted_of P.goes P.opening P.slot_of P.thread_of)
        (map string_bytes words.now.items)
        (outside (S.remaining src.old) (S.faults src.old) (S.given src.old) (S.ends src.old)
        (K.held sink.old) (K.faults sink.old))
        (outside (S.remaining src.new) (S.faults src.new) (S.given src.new) (S.ends src.new)
        (K.held sink.new) (K.faults sink.new))
        result.status result.journal }
{
    match command_of(words) {
        Some(Command::Run(view)) => run_script::<P, S, K>(alloc, view, src, sink),
        Some(Command::Check) => without_journal(alloc, check_log(alloc, src, sink)),
        Some(Command::Make(n)) => make_script(alloc, n, sink),
        None => without_journal(alloc, Status::new(2)),
    }
}

// Reads a script, and runs it or says why it is refused.
fn run_script<P: RelyGuarantee + Drop, S: Source, K: Sink>(
    alloc: Global,
    view: View,
    src: &mut S,
    sink: &mut K,
) -> TopAnswer
    requires serves { (script : Script) → IsValid script → is_built script ≡ true → P.serves script }
    ensures { RunEnds (IsJournalOf P.posted_of P.goes P.opening P.slot_of P.thread_of) view
        (outside (S.remaining src.old) (S.faults src.old) (S.given src.old) (S.ends src.old)
        (K.held sink.old) (K.faults sink.old))
        (outside (S.remaining src.new) (S.faults src.new) (S.given src.new) (S.ends src.new)
        (K.held sink.new) (K.faults sink.new))
        result.status result.journal }
{
    let bytes = match read_all(alloc, src, MOST_BYTES) {
        Ok(bytes) => bytes,
        Err(ReadAllFault::Read) => return without_journal(alloc, Status::new(4)),
        Err(ReadAllFault::Memory) => return without_journal(alloc, Status::new(7)),
        Err(ReadAllFault::Large) => return refuse_text(alloc, 0, Kind::Large, sink),
    };
    match read_script(alloc, &bytes) {
        Ok(script) => run_built::<P, K>(alloc, &script, built(&script), view, sink),
        Err(ScriptError::Fault { line, kind }) => refuse_text(alloc, line, kind, sink),
        Err(ScriptError::Memory) => without_journal(alloc, Status::new(7)),
    }
}

// Writes the line of a fault of a text.
fn refuse_text<K: Sink>(alloc: Global, line: u32, kind: Kind, sink: &mut K) -> TopAnswer
    ensures { IsRefusal (refusal.Fault line kind) (K.held sink.old) (K.held sink.new)
        (K.faults sink.old) (K.faults sink.new) result.status result.journal }
{
    refuse(alloc, &Refusal::Fault { line, kind }, sink)
}

fn check_log<S: Source, K: Sink>(alloc: Global, src: &mut S, sink: &mut K) -> Status
    ensures { Checks
        (outside (S.remaining src.old) (S.faults src.old) (S.given src.old) (S.ends src.old)
        (K.held sink.old) (K.faults sink.old))
        (outside (S.remaining src.new) (S.faults src.new) (S.given src.new) (S.ends src.new)
        (K.held sink.new) (K.faults sink.new))
        result }
{
    match judge_all(alloc, src) {
        Ok(judged) => answer(alloc, &judged, sink),
        Err(NotJudged::Read) => Status::new(4),
        Err(NotJudged::Memory) => Status::new(7),
    }
}

// Writes the line that says what a text is.
fn answer<K: Sink>(alloc: Global, judged: &Judged, sink: &mut K) -> Status
    ensures { IsTold judged.now (K.held sink.old) (K.held sink.new) (K.faults sink.old) (K.faults sink.new) result }
{
    let Ok(line) = answer_line(alloc, judged) else {
        return Status::new(7);
    };
    match write_all(sink, line.as_bytes()) {
        Ok(()) => status_of_judged(judged),
        Err(_) => Status::new(5),
    }
}

fn status_of_judged(judged: &Judged) -> Status
    ensures { result ≡ answer_status judged.now }
{
    match judged {
        Judged::Verdict(Verdict::Yes) => Status::new(0),
        Judged::Verdict(Verdict::No { .. }) => Status::new(1),
        Judged::ScriptFault { .. } | Judged::LogFault { .. } => Status::new(3),
    }
}

fn make_script<K: Sink>(alloc: Global, n: u16, sink: &mut K) -> TopAnswer
    requires { (1 ≤ n) × (n ≤ 500) }
    ensures { IsMaking n (K.held sink.old) (K.held sink.new) (K.faults sink.old) (K.faults sink.new)
        result.status result.journal }
{
    let Ok(text) = script_text(alloc, n) else {
        return without_journal(alloc, Status::new(7));
    };
    match write_all(sink, &text) {
        Ok(()) => without_journal(alloc, Status::new(0)),
        Err(_) => without_journal(alloc, Status::new(5)),
    }
}

// The text of the script of so many forks.
fn script_text(alloc: Global, n: u16) -> Result<Vec<u8>, Memory>
    requires { (1 ≤ n) × (n ≤ 500) }
    ensures { IfOk result (λ text. (script : Script) × IsForking n script × (text.items ≡ print_of script)) }
{
    let script = make(alloc, n)?;
    let text = print_script(alloc, &script)?;
    Ok(text)
}
