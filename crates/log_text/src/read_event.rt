//! The event that a line says.

ghost use Rattle.std.specs.Prelude.{◌≡◌};
ghost use Rattle.log_text.specs.ReadEvents.{fork_cause_of, exec_cause_of, death_of, action_of, alone, named, numbered};
ghost use Rattle.log_text.specs.ReadEvents.{tailed, paired, answered, by_two, by_one, event_of};
ghost use Rattle.log_text.specs.ReadWords.{numeral_in};

use crate::first_word::{EventWord, event_word};
use crate::read_words::{actor, answer, delivery, errno, field, is_same, key, name, number, shown};
use w32_base::event::{Answer, Death, Event, ExecCause, ForkCause, NewAction};
use w32_base::numbers::{Acting, Number};

// Why a fork failed.
fn fork_cause(word: &[u8], x: &[u8], y: &[u8], z: &[u8]) -> Option<ForkCause>
    ensures { result ≡ fork_cause_of word.now x.now y.now z.now }
{
    if is_same(b"children", word) {
        Some(ForkCause::Children)
    } else if is_same(b"rows", word) {
        Some(ForkCause::Rows)
    } else if is_same(b"slot", word) {
        Some(ForkCause::Slot)
    } else if is_same(b"placed", word) {
        Some(ForkCause::Placed(name(x)?, number(y)?, number(z)?))
    } else if is_same(b"ended", word) {
        Some(ForkCause::Ended(number(x)?))
    } else {
        None
    }
}

// Why an exec failed.
fn exec_cause(word: &[u8], x: &[u8]) -> Option<ExecCause>
    ensures { result ≡ exec_cause_of word.now x.now }
{
    if is_same(b"noent", word) {
        Some(ExecCause::NoEntry)
    } else if is_same(b"slot", word) {
        Some(ExecCause::Slot)
    } else if is_same(b"ended", word) {
        Some(ExecCause::Ended(number(x)?))
    } else {
        None
    }
}

// What ended a process.
fn death(word: &[u8], x: &[u8]) -> Option<Death>
    ensures { result ≡ death_of word.now x.now }
{
    if is_same(b"exit", word) {
        Some(Death::Exit)
    } else if is_same(b"signal", word) {
        Some(Death::Signal)
    } else if is_same(b"fault", word) {
        Some(Death::Fault)
    } else if is_same(b"world", word) {
        Some(Death::World(number(x)?))
    } else {
        None
    }
}

// The action that an `action` call set.
fn action(word: &[u8], x: &[u8], y: &[u8]) -> Option<NewAction>
    ensures { result ≡ action_of word.now x.now y.now }
{
    if is_same(b"default", word) {
        Some(NewAction::Default)
    } else if is_same(b"ignore", word) {
        Some(NewAction::Ignore)
    } else if is_same(b"handler", word) {
        Some(NewAction::Handler(number(x)?, is_same(b"restart", y)))
    } else {
        None
    }
}

// An event of a process alone.
fn alone(word: EventWord, p: Acting) -> Option<Event>
    ensures { result ≡ alone word p }
{
    match word {
        EventWord::Block => Some(Event::Block(p)),
        EventWord::Nothing => Some(Event::Nothing(p)),
        EventWord::NoChild => Some(Event::NoChild(p)),
        EventWord::Return => Some(Event::Return(p)),
        EventWord::Notify => Some(Event::Notify(p)),
        EventWord::Collect => Some(Event::Collect(p)),
        EventWord::SetSid => Some(Event::SetSid(p)),
        EventWord::BackgroundDone => Some(Event::BackgroundDone(p)),
        _ => None,
    }
}

// An event of a process and something other than a number.
fn named(word: EventWord, p: Acting, a: &[u8], b: &[u8], c: &[u8], d: &[u8]) -> Option<Event>
    ensures { result ≡ named word p a.now b.now c.now d.now }
{
    match word {
        EventWord::Get => Some(Event::Get(p, field(a)?, number(b)?)),
        EventWord::ForkFail => Some(Event::ForkFail(p, fork_cause(a, b, c, d)?)),
        EventWord::Exec => Some(Event::Exec(p, name(a)?)),
        EventWord::ExecFail => Some(Event::ExecFail(p, exec_cause(a, b)?)),
        EventWord::Refuse => Some(Event::Refuse(p, errno(a)?)),
        EventWord::Key => Some(Event::Key(p, key(a)?)),
        _ => None,
    }
}

// An event of a process and a number.
fn numbered(word: EventWord, p: Acting, n: Number) -> Option<Event>
    ensures { result ≡ numbered word p n }
{
    match word {
        EventWord::Run => Some(Event::Run(p, n)),
        EventWord::Fork => Some(Event::Fork(p, n)),
        EventWord::Look => Some(Event::Look(p, n)),
        EventWord::Mask => Some(Event::Mask(p, n)),
        EventWord::Suspend => Some(Event::Suspend(p, n)),
        EventWord::Discard => Some(Event::Discard(p, n)),
        EventWord::Stop => Some(Event::Stop(p, n)),
        EventWord::TcSet => Some(Event::TcSet(p, n)),
        EventWord::Flags => Some(Event::Flags(p, n)),
        EventWord::Background => Some(Event::Background(p, n)),
        EventWord::Host => Some(Event::Host(p, n)),
        _ => None,
    }
}

// An event of a process, a number and something other than a number.
fn tailed(word: EventWord, p: Acting, n: Number, b: &[u8], c: &[u8], d: &[u8]) -> Option<Event>
    ensures { result ≡ tailed word p n b.now c.now d.now }
{
    match word {
        EventWord::Action => Some(Event::SetAction(p, n, action(b, c, d)?)),
        EventWord::Deliver => Some(Event::Deliver(p, n, delivery(b)?)),
        EventWord::Die => Some(Event::Die(p, n, death(b, c)?)),
        EventWord::Line => Some(Event::Line(p, n, shown(b)?)),
        EventWord::Write => Some(Event::Write(p, n, shown(b)?)),
        _ => None,
    }
}

// An event of a process and two numbers.
fn paired(word: EventWord, p: Acting, m: Number, n: Number) -> Option<Event>
    ensures { result ≡ paired word p m n }
{
    match word {
        EventWord::Member => Some(Event::Member(p, m, n)),
        EventWord::Reap => Some(Event::Reap(p, m, n)),
        EventWord::Report => Some(Event::Report(p, m, n)),
        EventWord::SetPgid => Some(Event::SetPgid(p, m, n)),
        _ => None,
    }
}

// An event of a process, two numbers and how the call ended.
fn answered(
    word: EventWord,
    p: Acting,
    m: Number,
    n: Number,
    answer: Option<Answer>,
) -> Option<Event>
    ensures { result ≡ answered word p m n answer }
{
    let answer = answer?;
    match word {
        EventWord::Kill => Some(Event::Kill(p, m, n, answer)),
        EventWord::GroupDone => Some(Event::GroupDone(p, m, n, answer)),
        _ => None,
    }
}

// An event of a process and at least two numbers.
fn by_two(word: EventWord, p: Acting, m: Number, b: &[u8], c: &[u8]) -> Option<Event>
    ensures { result ≡ by_two word p m c.now (numeral_in b.now) }
{
    let n = number(b)?;
    if let Some(event) = paired(word, p, m, n) {
        return Some(event);
    }
    answered(word, p, m, n, answer(c))
}

// An event of a process and at least one number.
fn by_one(word: EventWord, p: Acting, a: &[u8], b: &[u8], c: &[u8], d: &[u8]) -> Option<Event>
    ensures { result ≡ by_one word p b.now c.now d.now (numeral_in a.now) }
{
    let n = number(a)?;
    if let Some(event) = numbered(word, p, n) {
        return Some(event);
    }
    if let Some(event) = tailed(word, p, n, b, c, d) {
        return Some(event);
    }
    by_two(word, p, n, b, c)
}

/// The event that up to six words say; those that aren't there are empty. Words that say no event may give one: who
/// writes the event again and compares knows.
#[tactic(auto, unfolding(crate::specs::ReadEvents::event_of))]
pub fn event_of(
    word: &[u8],
    process: &[u8],
    a: &[u8],
    b: &[u8],
    c: &[u8],
    d: &[u8],
) -> Option<Event>
    ensures { result ≡ event_of word.now process.now a.now b.now c.now d.now }
{
    let word = event_word(word)?;
    let p = actor(process)?;
    if let Some(event) = alone(word, p) {
        return Some(event);
    }
    if let Some(event) = named(word, p, a, b, c, d) {
        return Some(event);
    }
    by_one(word, p, a, b, c, d)
}
