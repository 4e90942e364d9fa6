//! Whether all that an event names is in its range. A contract sees the values of an event's fields bare, so each is
//! looked at here, although its type keeps most ranges.

ghost use Rattle.std.specs.Prelude.{◌≡◌, ◌&&◌, true, nat_eq};
ghost use Rattle.std.specs.List.{list_all};
ghost use Rattle.w32_base.specs.Name.{is_name};
ghost use Rattle.w32_base.specs.Names.{is_among};
ghost use Rattle.w32_base.specs.Setup.{module_names, program_names};
ghost use Rattle.log_spec.specs.Words.{Bytes, is_actor, is_numeral, is_byte, is_word_within};
ghost use Rattle.log_spec.specs.Events.{fork_cause_words, exec_cause_words, death_words, action_words, is_event_within};

use crate::read_words::is_same;
use script_spec::Script;
use w32_base::event::{Death, Event, ExecCause, ForkCause, NewAction};
use w32_base::lists::Bytes64;
use w32_base::names::Name;
use w32_base::numbers::{Acting, Number};
use w32_base::setup::{Module, Program};

fn is_actor(p: Acting) -> bool
    ensures { result ≡ is_actor p }
{
    let number = p.get();
    number == 0 || (2 <= number && number <= 4001)
}

fn is_host(p: Acting) -> bool
    ensures { result ≡ nat_eq p 0 }
{
    p.get() == 0
}

fn is_numeral(n: Number) -> bool
    ensures { result ≡ is_numeral n }
{
    let number = n.get();
    -2_147_483_648 <= number && number <= 4_294_967_295
}

fn is_byte(byte: u8) -> bool
    ensures { result ≡ is_byte byte }
{
    u16::from(byte) < 256
}

fn are_bytes(bytes: &[u8]) -> bool
    ensures { result ≡ list_all is_byte bytes.now }
{
    bytes.iter().all(|byte| is_byte(*byte))
}

fn is_shown(script: &Script, bytes: &Bytes64) -> bool
    ensures { result ≡ is_word_within script.now (Bytes bytes.now) }
{
    bytes.len() <= 64 && are_bytes(bytes.as_slice())
}

// Whether one of the programs has this name.
fn has_program(name: &Name, programs: &[Program]) -> bool
    ensures { result ≡ is_among name.now (program_names programs.now) }
{
    match programs {
        [] => false,
        [program, rest @ ..] => is_same(name.as_slice(), program.name.as_slice())
            || has_program(name, rest),
    }
}

// Whether one of the modules has this name.
fn has_module(name: &Name, modules: &[Module]) -> bool
    ensures { result ≡ is_among name.now (module_names modules.now) }
{
    match modules {
        [] => false,
        [module, rest @ ..] => is_same(name.as_slice(), module.name.as_slice())
            || has_module(name, rest),
    }
}

// Whether the name is one of a program.
fn is_program(script: &Script, name: &Name) -> bool
    ensures { result ≡ (is_name name.now && is_among name.now (program_names script.now.setup.programs)) }
{
    Name::try_new(name.as_slice()).is_some() && has_program(name, script.setup.programs.as_slice())
}

// Whether the name is one of a module.
fn is_module(script: &Script, name: &Name) -> bool
    ensures { result ≡ (is_name name.now && is_among name.now (module_names script.now.setup.modules)) }
{
    Name::try_new(name.as_slice()).is_some() && has_module(name, script.setup.modules.as_slice())
}

fn fork_cause(script: &Script, cause: &ForkCause) -> bool
    ensures { result ≡ list_all (is_word_within script.now) (fork_cause_words cause.now) }
{
    match cause {
        ForkCause::Children => true,
        ForkCause::Rows => true,
        ForkCause::Slot => true,
        ForkCause::Placed(module, found, wanted) => {
            is_module(script, module) && is_numeral(*found) && is_numeral(*wanted)
        }
        ForkCause::Ended(process) => is_numeral(*process),
    }
}

fn exec_cause(script: &Script, cause: ExecCause) -> bool
    ensures { result ≡ list_all (is_word_within script.now) (exec_cause_words cause) }
{
    match cause {
        ExecCause::NoEntry => true,
        ExecCause::Slot => true,
        ExecCause::Ended(process) => is_numeral(process),
    }
}

fn death(script: &Script, death: Death) -> bool
    ensures { result ≡ list_all (is_word_within script.now) (death_words death) }
{
    match death {
        Death::Exit => true,
        Death::Signal => true,
        Death::Fault => true,
        Death::World(entry) => is_numeral(entry),
    }
}

fn action(script: &Script, new: NewAction) -> bool
    ensures { result ≡ list_all (is_word_within script.now) (action_words new) }
{
    match new {
        NewAction::Default => true,
        NewAction::Ignore => true,
        NewAction::Handler(place, _) => is_numeral(place),
    }
}

fn by(p: Acting) -> bool
    ensures { result ≡ (is_actor p && true) }
{
    is_actor(p)
}

fn by_of(p: Acting, n: Number) -> bool
    ensures { result ≡ (is_actor p && (is_numeral n && true)) }
{
    is_actor(p) && is_numeral(n)
}

fn by_of_two(p: Acting, m: Number, n: Number) -> bool
    ensures { result ≡ (is_actor p && (is_numeral m && (is_numeral n && true))) }
{
    is_actor(p) && is_numeral(m) && is_numeral(n)
}

/// Whether all that the event names is in its range.
pub fn is_within(script: &Script, event: &Event) -> bool
    ensures { result ≡ is_event_within script.now event.now }
{
    match event {
        Event::Run(p, n) => by_of(*p, *n),
        Event::Get(p, _, value) => by_of(*p, *value),
        Event::Fork(p, child) => by_of(*p, *child),
        Event::ForkFail(p, cause) => is_actor(*p) && fork_cause(script, cause),
        Event::Exec(p, name) => is_actor(*p) && is_program(script, name),
        Event::ExecFail(p, cause) => is_actor(*p) && exec_cause(script, *cause),
        Event::Kill(p, target, signal, _) => by_of_two(*p, *target, *signal),
        Event::Member(p, member, signal) => by_of_two(*p, *member, *signal),
        Event::GroupDone(p, group, signal, _) => by_of_two(*p, *group, *signal),
        Event::Look(p, child) => by_of(*p, *child),
        Event::Block(p) => by(*p),
        Event::Nothing(p) => by(*p),
        Event::Reap(p, child, status) => by_of_two(*p, *child, *status),
        Event::Report(p, child, status) => by_of_two(*p, *child, *status),
        Event::NoChild(p) => by(*p),
        Event::Refuse(p, _) => by(*p),
        Event::Mask(p, mask) => by_of(*p, *mask),
        Event::SetAction(p, signal, new) => {
            is_actor(*p) && is_numeral(*signal) && action(script, *new)
        }
        Event::Suspend(p, mask) => by_of(*p, *mask),
        Event::Return(p) => by(*p),
        Event::Deliver(p, signal, _) => by_of(*p, *signal),
        Event::Discard(p, signal) => by_of(*p, *signal),
        Event::Stop(p, signal) => by_of(*p, *signal),
        Event::Die(p, status, cause) => {
            is_actor(*p) && is_numeral(*status) && death(script, *cause)
        }
        Event::Notify(p) => by(*p),
        Event::Collect(p) => by(*p),
        Event::SetPgid(p, process, group) => by_of_two(*p, *process, *group),
        Event::SetSid(p) => by(*p),
        Event::TcSet(p, group) => by_of(*p, *group),
        Event::Flags(p, flags) => by_of(*p, *flags),
        Event::Background(p, signal) => by_of(*p, *signal),
        Event::BackgroundDone(p) => by(*p),
        Event::Line(p, count, bytes) => {
            is_actor(*p) && is_numeral(*count) && is_shown(script, bytes)
        }
        Event::Write(p, count, bytes) => {
            is_actor(*p) && is_numeral(*count) && is_shown(script, bytes)
        }
        Event::Key(p, byte) => is_host(*p) && is_byte(*byte),
        Event::Host(p, code) => is_host(*p) && is_numeral(*code),
    }
}
