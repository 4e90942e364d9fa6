//! Any event: carried out where it is a step.

ghost use Rattle.std.specs.Prelude.{◌≡◌, true, OnErr};
ghost use Rattle.posix_spec.specs.Step.{posix_step, member_of, group_done_of};
ghost use Rattle.posix_model.specs.Applied.{may_want_memory};
ghost use Rattle.posix_model.specs.Machine.{script_of, state_of};
ghost use Rattle.posix_model.specs.Gives.{Gives, GivesOrFails};

use crate::machine::Machine;
use crate::numbers::natural;
use crate::{
    console, deaths, delivers, execs, forks, groups, kills, lines, own, returns, runs, signal_acts,
    signal_calls, terminal, waits,
};
use std::alloc::Global;
use w32_base::{Acting, Answer, Event, Memory};

/// Carries an event out where it is a step, and answers whether it is one. It fails only for want of memory, at an
/// event that may want for it.
#[tactic(auto, unfolding(posix_spec::specs::Step::posix_step))]
pub fn step(alloc: Global, m: &mut Machine, event: &Event) -> Result<bool, Memory>
    ensures gives { GivesOrFails (posix_step (script_of m.old) (state_of m.old) event.now) result m.old m.new }
    ensures memory { OnErr result (may_want_memory event.now ≡ true) }
{
    match *event {
        Event::Run(p, n) => Ok(runs::run(m, p, n)),
        Event::Get(p, field, v) => Ok(own::get(m, p, field, v)),
        Event::Fork(p, c) => match natural(c) {
            Some(c) => forks::fork(alloc, m, p, c),
            None => Ok(false),
        },
        Event::ForkFail(p, cause) => Ok(forks::fork_fail(m, p, cause)),
        Event::Exec(p, name) => Ok(execs::exec(m, p, name)),
        Event::ExecFail(p, cause) => Ok(execs::exec_fail(m, p, cause)),
        Event::Kill(p, q, signal, answer) => kills::kill(m, p, q, signal, answer),
        Event::Member(p, q, signal) => match (natural(q), natural(signal)) {
            (Some(q), Some(signal)) => member(m, p, q, signal),
            _ => Ok(false),
        },
        Event::GroupDone(p, g, signal, answer) => match (natural(g), natural(signal)) {
            (Some(g), Some(signal)) => Ok(group_done(m, p, g, signal, answer)),
            _ => Ok(false),
        },
        Event::Look(p, c) => match natural(c) {
            Some(c) => Ok(waits::look(m, p, c)),
            None => Ok(false),
        },
        Event::Block(p) => Ok(waits::block(m, p)),
        Event::Nothing(p) => Ok(waits::nothing(m, p)),
        Event::Reap(p, c, v) => match natural(c) {
            Some(c) => Ok(waits::reap(m, p, c, v)),
            None => Ok(false),
        },
        Event::Report(p, c, v) => match natural(c) {
            Some(c) => Ok(waits::report(m, p, c, v)),
            None => Ok(false),
        },
        Event::NoChild(p) => Ok(waits::no_child(m, p)),
        Event::Refuse(p, e) => Ok(terminal::refuse(m, p, e)),
        Event::Mask(p, mask) => match natural(mask) {
            Some(mask) => Ok(signal_calls::mask(m, p, mask)),
            None => Ok(false),
        },
        Event::SetAction(p, signal, new) => match natural(signal) {
            Some(signal) => Ok(signal_calls::action(m, p, signal, new)),
            None => Ok(false),
        },
        Event::Suspend(p, mask) => match natural(mask) {
            Some(mask) => Ok(signal_calls::suspend(m, p, mask)),
            None => Ok(false),
        },
        Event::Return(p) => Ok(returns::from_handler(m, p)),
        Event::Deliver(p, signal, how) => match natural(signal) {
            Some(signal) => Ok(delivers::deliver(m, p, signal, how)),
            None => Ok(false),
        },
        Event::Discard(p, signal) => match natural(signal) {
            Some(signal) => Ok(signal_acts::discard(m, p, signal)),
            None => Ok(false),
        },
        Event::Stop(p, signal) => match natural(signal) {
            Some(signal) => signal_acts::stop(m, p, signal),
            None => Ok(false),
        },
        Event::Die(p, status, cause) => match natural(status) {
            Some(status) => deaths::die(m, p, status, cause),
            None => Ok(false),
        },
        Event::Notify(p) => Ok(signal_acts::notify(m, p)),
        Event::Collect(p) => Ok(deaths::collect(m, p)),
        Event::SetPgid(p, q, g) => match (natural(q), natural(g)) {
            (Some(q), Some(g)) => Ok(groups::setpgid(m, p, q, g)),
            _ => Ok(false),
        },
        Event::SetSid(p) => Ok(groups::setsid(m, p)),
        Event::TcSet(p, g) => match natural(g) {
            Some(g) => Ok(terminal::tcset(m, p, g)),
            None => Ok(false),
        },
        Event::Flags(p, flags) => match natural(flags) {
            Some(flags) => Ok(terminal::flags(m, p, flags)),
            None => Ok(false),
        },
        Event::Background(p, signal) => match natural(signal) {
            Some(signal) => Ok(terminal::background(m, p, signal)),
            None => Ok(false),
        },
        Event::BackgroundDone(p) => Ok(terminal::background_done(m, p)),
        Event::Line(p, n, bytes) => Ok(lines::line(m, p, n, bytes)),
        Event::Write(p, n, bytes) => terminal::write(m, p, n, bytes),
        Event::Key(p, b) => console::key(m, p, b),
        Event::Host(p, n) => Ok(console::host(m, p, n)),
    }
}

/// `member P Q S`, of a process or of the console, whose number is 0.
fn member(m: &mut Machine, p: Acting, q: u32, signal: u32) -> Result<bool, Memory>
    ensures { GivesOrFails (member_of (script_of m.old) (state_of m.old) p q signal) result m.old m.new }
{
    if p.get() == 0 {
        console::member(m, q, signal)
    } else {
        kills::member(m, p, q, signal)
    }
}

/// `groupdone P G S REPLY`, of a process or of the console, whose number is 0.
fn group_done(m: &mut Machine, p: Acting, g: u32, signal: u32, answer: Answer) -> bool
    ensures { Gives (group_done_of (script_of m.old) (state_of m.old) p answer g signal) result m.old m.new }
{
    if p.get() == 0 {
        console::group_done(m, g, signal, answer)
    } else {
        kills::group_done(m, p, g, signal, answer)
    }
}
