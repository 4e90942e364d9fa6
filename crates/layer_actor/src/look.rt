//! The look at the own main word, and what is next in the program.

ghost use Rattle.std.specs.Prelude.{◌≡◌, ◌+◌, ◌≤◌, length};
ghost use Rattle.vm_spec.specs.Image.{image_of, word_at};
ghost use Rattle.vm_spec.specs.Step.{upcoming, low_byte as low_byte_of};
ghost use Rattle.layer_spec.specs.Decoding.{main_of};
ghost use Rattle.layer_spec.specs.HeapReads.{mask_in};
ghost use Rattle.layer_spec.specs.Rows.{main_place};
ghost use Rattle.layer_turns.specs.OwnTurns.{OwnTurn};
ghost use Rattle.pinfo_word.specs.Shown.{shown_main};
ghost use Rattle.proc_vm.specs.Shown.{shown, instr_of};
ghost use Rattle.roster.specs.Turns.{section_handle};
ghost use Rattle.layer_actor.specs.Doing.{begins, begins_call, begins_getpid, begins_kill, code_in, has_regions};
ghost use Rattle.layer_actor.specs.Doing.{is_free, look_by, look_after};

use crate::doing::Doing;
use crate::gets::Asked;
use crate::identity::Identity;
use child_watch::Ending;
use kill_calls::{KillStart, begin};
use layer_turns::{answer, load, main_place, result_of};
use pinfo_word::{Main, RowKind};
use proc_vm::{CallInstr, Next, next_instr, operand_value, program_number};
use sig_sets::{clean_mask, deliverable};
use w32_base::{Answer, Call, Event, Field, Number, Own, Reply, RowNo, Setup};

/// Looks at the own main word, and goes on with what is next in the program.
#[derive(Clone, Copy, Debug, PartialEq, Eq)]
pub struct Look {
    /// The row of the process.
    pub row: RowNo,
}

/// Where a part goes, and the event that stands in the turn.
pub type Gone = (Doing, Option<Event>);

// The low 8 bits of a value.
fn low_byte(value: i32) -> u8
    ensures { result ≡ low_byte_of value }
{
    (value.cast_unsigned() % 256) as u8
}

// The signal mask.
#[tactic(auto, unfolding(vm_spec::specs::Image::word_at))]
fn mask(own: &Own) -> u32
    requires { length own.now.cyg ≡ 288 }
    ensures { result ≡ mask_in own.now.cyg }
{
    own.cyg.word(4)
}

// Whether the memory has the regions that a process of the layer has.
fn has_regions(own: &Own) -> bool
    ensures { result ≡ has_regions own.now }
{
    own.dat.len() == 64 && own.cyg.len() == 288
}

// Whether the process runs and no signal is deliverable.
fn is_free(own: &Own, main: &Main) -> bool
    ensures { result ≡ is_free own.now (shown_main main.now) }
{
    match main.kind {
        RowKind::Running => {
            has_regions(own) && deliverable(main.pending, clean_mask(mask(own))).is_none()
        }
        RowKind::Free | RowKind::Held | RowKind::Stopped | RowKind::Zombie | RowKind::Gone => false,
    }
}

// What is next in the program.
#[tactic(auto, unfolding(vm_spec::specs::Step::upcoming))]
fn next_in(setup: &Setup, own: &Own) -> Next
    requires { length own.now.dat ≡ 64 }
    ensures { shown result ≡ upcoming (code_in setup.now own.now) (image_of own.now) }
{
    match setup.programs.as_slice().get(program_number(own) as usize) {
        Some(program) => next_instr(own, program),
        None => Next::Fault,
    }
}

// The own number is known without a look.
fn begin_getpid(who: &Identity, own: &mut Own) -> Gone
    ensures { (record { part = result.0; own = own.new; event = result.1 }) ≡ begins_getpid who.now own.old }
{
    let pid = who.pid().get();
    if answer(own, i32::from(pid)) {
        let event = Event::Get(who.acting(), Field::Pid, Number::unsigned(u32::from(pid)));
        (Doing::look(who), Some(event))
    } else {
        (Doing::rest(), None)
    }
}

// A kill with these values.
fn begin_kill(who: &Identity, own: &mut Own, target: i32, signal: i32, start: KillStart) -> Gone
    ensures { (record { part = result.0; own = own.new; event = result.1 })
        ≡ begins_kill who.now own.old target signal start }
{
    match start {
        KillStart::Refused(error) => {
            let refused = Answer::Error(error);
            if answer(own, result_of(refused)) {
                let (q, s) = (Number::signed(target), Number::signed(signal));
                (
                    Doing::look(who),
                    Some(Event::Kill(who.acting(), q, s, refused)),
                )
            } else {
                (Doing::rest(), None)
            }
        }
        KillStart::One(kill) => (Doing::Kill(kill), None),
        KillStart::Group => (Doing::rest(), None),
    }
}

// The call that is next begins.
fn begin_call(who: &Identity, own: &mut Own, setup: &Setup, call: CallInstr) -> Gone
    requires { length own.old.dat ≡ 64 }
    ensures { (record { part = result.0; own = own.new; event = result.1 })
        ≡ begins_call setup.now.limits.rows who.now own.old (instr_of call) }
{
    match call {
        CallInstr::GetPid => begin_getpid(who, own),
        CallInstr::GetPpid => (Doing::gets(who, Asked::Parent), None),
        CallInstr::GetPgid => (Doing::gets(who, Asked::Group), None),
        CallInstr::GetSid => (Doing::gets(who, Asked::Session), None),
        CallInstr::Exit(value) => {
            let code = low_byte(operand_value(own, value));
            (Doing::exit(who, Ending::Exit(code)), None)
        }
        CallInstr::Kill(target, signal) => {
            let target = operand_value(own, target);
            let signal = operand_value(own, signal);
            let start = begin(setup, who.pid(), target, signal);
            begin_kill(who, own, target, signal, start)
        }
        _ => (Doing::rest(), None),
    }
}

// What is next begins.
fn begin_next(who: &Identity, own: &mut Own, setup: &Setup, next: Next) -> Gone
    requires { length own.old.dat ≡ 64 }
    ensures { (record { part = result.0; own = own.new; event = result.1 })
        ≡ begins setup.now.limits.rows who.now own.old (shown next) }
{
    match next {
        Next::Local => (Doing::run(who), None),
        Next::Call(call) => begin_call(who, own, setup, call),
        Next::Fault => (Doing::exit(who, Ending::Fault), None),
    }
}

// With the own main word.
fn looked(who: &Identity, own: &mut Own, setup: &Setup, word: u64) -> Gone
    ensures { (record { part = result.0; own = own.new; event = result.1 })
        ≡ look_by setup.now who.now own.old (main_of word) }
{
    let Some(main) = Main::decode(word) else {
        return (Doing::rest(), None);
    };
    if is_free(own, &main) {
        let next = next_in(setup, own);
        begin_next(who, own, setup, next)
    } else {
        (Doing::rest(), None)
    }
}

impl Look {
    /// The call that it posts next.
    pub fn call(&self) -> Call
        ensures { result ≡ Call.Load section_handle (main_place self.now.row) }
    {
        load(main_place(self.row))
    }

    /// Where the main thread goes with a reply over the own bytes, and the event that stands in the turn.
    pub fn turn(&self, who: &Identity, own: &mut Own, setup: &Setup, reply: &Reply) -> Gone
        ensures { (record { part = result.0; own = own.new; event = result.1 })
            ≡ look_after setup.now who.now own.old reply.now }
    {
        match reply {
            Reply::Word(word) => looked(who, own, setup, *word),
            _ => (Doing::rest(), None),
        }
    }
}
