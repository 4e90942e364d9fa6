//! The texts of events.

ghost use Rattle.std.specs.Prelude.{◌≡◌, ◌+◌, ◌≤◌, [], ◌∷◌, ◌++◌, length, map, IsTrue};
ghost use Rattle.std.specs.Fmt.{decimal, signed_decimal};
ghost use Rattle.log_spec.specs.EventsText.{is_one_line};
ghost use Rattle.log_spec.specs.Texts.{spaced, bytes_text};
ghost use Rattle.log_spec.specs.Words.{word_text};
ghost use Rattle.log_spec.specs.Events.{errno_text, answer_text, field_text, delivery_text, action_words, event_text};

use crate::line::Line;
use crate::words::{add_actor, add_bytes, add_name, add_number, add_word, push_byte};
use w32_base::event::{
    Answer, Death, Delivery, Errno, Event, ExecCause, Field, ForkCause, NewAction,
};
use w32_base::lists::Bytes64;
use w32_base::names::Name;
use w32_base::numbers::{Acting, Number};

/// The name of an error.
pub fn errno_word(errno: Errno) -> &'static [u8]
    ensures text { result.now ≡ errno_text errno }
    ensures size { length result.now ≤ 7 }
    ensures one_line { IsTrue (is_one_line result.now) }
{
    match errno {
        Errno::EPERM => b"EPERM",
        Errno::ENOENT => b"ENOENT",
        Errno::ESRCH => b"ESRCH",
        Errno::EINTR => b"EINTR",
        Errno::EIO => b"EIO",
        Errno::ECHILD => b"ECHILD",
        Errno::EAGAIN => b"EAGAIN",
        Errno::EACCES => b"EACCES",
        Errno::EINVAL => b"EINVAL",
        Errno::ENOTTY => b"ENOTTY",
    }
}

/// `0` or the name of an error.
pub fn answer_word(answer: Answer) -> &'static [u8]
    ensures text { result.now ≡ answer_text answer }
    ensures size { length result.now ≤ 7 }
    ensures one_line { IsTrue (is_one_line result.now) }
{
    match answer {
        Answer::Zero => b"0",
        Answer::Error(errno) => errno_word(errno),
    }
}

// What a `get` call asks for.
fn field_word(field: Field) -> &'static [u8]
    ensures text { result.now ≡ field_text field }
    ensures size { length result.now ≤ 7 }
    ensures one_line { IsTrue (is_one_line result.now) }
{
    match field {
        Field::Pid => b"pid",
        Field::Ppid => b"ppid",
        Field::Pgid => b"pgid",
        Field::Sid => b"sid",
        Field::Foreground => b"fg",
    }
}

// How a handler is begun.
fn delivery_word(delivery: Delivery) -> &'static [u8]
    ensures text { result.now ≡ delivery_text delivery }
    ensures size { length result.now ≤ 7 }
    ensures one_line { IsTrue (is_one_line result.now) }
{
    match delivery {
        Delivery::Plain => b"plain",
        Delivery::Interrupting => b"eintr",
    }
}

// A word and the process that acts.
fn by(line: &mut Line, word: &[u8], p: Acting)
    requires room { length line.old ≤ 400 }
    requires short { length word.now ≤ 10 }
    requires one_line { IsTrue (is_one_line word.now) }
    ensures text { line.new ≡ line.old ++ spaced (word.now ∷ decimal p ∷ []) }
    ensures size { length line.new ≤ length line.old + 31 }
{
    line.push_text(word);
    add_actor(line, p);
}

// A word, the process that acts and a number.
fn by_of(line: &mut Line, word: &[u8], p: Acting, n: Number)
    requires room { length line.old ≤ 400 }
    requires short { length word.now ≤ 10 }
    requires one_line { IsTrue (is_one_line word.now) }
    ensures text { line.new ≡ line.old ++ spaced (word.now ∷ decimal p ∷ signed_decimal n ∷ []) }
    ensures size { length line.new ≤ length line.old + 52 }
{
    by(line, word, p);
    add_number(line, n);
}

// A word, the process that acts and two numbers.
fn by_of_two(line: &mut Line, word: &[u8], p: Acting, m: Number, n: Number)
    requires room { length line.old ≤ 400 }
    requires short { length word.now ≤ 10 }
    requires one_line { IsTrue (is_one_line word.now) }
    ensures text { line.new ≡ line.old
        ++ spaced (word.now ∷ decimal p ∷ signed_decimal m ∷ signed_decimal n ∷ []) }
    ensures size { length line.new ≤ length line.old + 73 }
{
    by_of(line, word, p, m);
    add_number(line, n);
}

// A word, the process that acts, two numbers and how the call ended.
fn answered(line: &mut Line, word: &[u8], p: Acting, m: Number, n: Number, answer: Answer)
    requires room { length line.old ≤ 400 }
    requires short { length word.now ≤ 10 }
    requires one_line { IsTrue (is_one_line word.now) }
    ensures text { line.new ≡ line.old
        ++ spaced (word.now ∷ decimal p ∷ signed_decimal m ∷ signed_decimal n ∷ answer_text answer ∷ []) }
    ensures size { length line.new ≤ length line.old + 81 }
{
    by_of_two(line, word, p, m, n);
    add_word(line, answer_word(answer));
}

// A word, the process that acts, a number and bytes.
fn shown(line: &mut Line, word: &[u8], p: Acting, n: Number, bytes: &Bytes64)
    requires room { length line.old ≤ 400 }
    requires short { length word.now ≤ 10 }
    requires one_line { IsTrue (is_one_line word.now) }
    ensures text { line.new ≡ line.old
        ++ spaced (word.now ∷ decimal p ∷ signed_decimal n ∷ bytes_text bytes.now ∷ []) }
    ensures size { length line.new ≤ length line.old + 181 }
{
    by_of(line, word, p, n);
    add_bytes(line, bytes);
}

// `get P pid V`.
fn get(line: &mut Line, p: Acting, field: Field, value: Number)
    requires { length line.old ≤ 400 }
    ensures text { line.new ≡ line.old ++ event_text (Event.Get p field value) }
    ensures size { length line.new ≤ length line.old + 200 }
{
    by(line, b"get", p);
    add_word(line, field_word(field));
    add_number(line, value);
}

// `forkfail P CAUSE`.
fn fork_failed(line: &mut Line, p: Acting, cause: ForkCause)
    requires { length line.old ≤ 400 }
    ensures text { line.new ≡ line.old ++ event_text (Event.ForkFail p cause) }
    ensures size { length line.new ≤ length line.old + 200 }
{
    by(line, b"forkfail", p);
    match cause {
        ForkCause::Children => line.push_text(b" children"),
        ForkCause::Rows => line.push_text(b" rows"),
        ForkCause::Slot => line.push_text(b" slot"),
        ForkCause::Placed(module, found, wanted) => {
            line.push_text(b" placed");
            add_name(line, &module);
            add_number(line, found);
            add_number(line, wanted);
        }
        ForkCause::Ended(process) => {
            line.push_text(b" ended");
            add_number(line, process);
        }
    }
}

// `exec P NAME`.
fn exec(line: &mut Line, p: Acting, name: &Name)
    requires { length line.old ≤ 400 }
    ensures text { line.new ≡ line.old ++ event_text (Event.Exec p name.now) }
    ensures size { length line.new ≤ length line.old + 200 }
{
    by(line, b"exec", p);
    add_name(line, name);
}

// `execfail P CAUSE`.
fn exec_failed(line: &mut Line, p: Acting, cause: ExecCause)
    requires { length line.old ≤ 400 }
    ensures text { line.new ≡ line.old ++ event_text (Event.ExecFail p cause) }
    ensures size { length line.new ≤ length line.old + 200 }
{
    by(line, b"execfail", p);
    match cause {
        ExecCause::NoEntry => line.push_text(b" noent"),
        ExecCause::Slot => line.push_text(b" slot"),
        ExecCause::Ended(process) => {
            line.push_text(b" ended");
            add_number(line, process);
        }
    }
}

// `refuse P ERROR`.
fn refused(line: &mut Line, p: Acting, errno: Errno)
    requires { length line.old ≤ 400 }
    ensures text { line.new ≡ line.old ++ event_text (Event.Refuse p errno) }
    ensures size { length line.new ≤ length line.old + 200 }
{
    by(line, b"refuse", p);
    add_word(line, errno_word(errno));
}

// The place of a handler, and whether the call begins again.
fn handler(line: &mut Line, place: Number, restart: bool)
    requires { length line.old ≤ 500 }
    ensures text { line.new ≡ line.old
        ++ 32 ∷ spaced (map word_text (action_words (NewAction.Handler place restart))) }
    ensures size { length line.new ≤ length line.old + 40 }
{
    line.push_text(b" handler");
    add_number(line, place);
    if restart {
        line.push_text(b" restart");
    }
}

// `action P S ACTION`.
fn action(line: &mut Line, p: Acting, signal: Number, new: NewAction)
    requires { length line.old ≤ 400 }
    ensures text { line.new ≡ line.old ++ event_text (Event.SetAction p signal new) }
    ensures size { length line.new ≤ length line.old + 200 }
{
    by_of(line, b"action", p, signal);
    match new {
        NewAction::Default => line.push_text(b" default"),
        NewAction::Ignore => line.push_text(b" ignore"),
        NewAction::Handler(place, restart) => handler(line, place, restart),
    }
}

// `deliver P S plain` or `eintr`.
fn delivered(line: &mut Line, p: Acting, signal: Number, delivery: Delivery)
    requires { length line.old ≤ 400 }
    ensures text { line.new ≡ line.old ++ event_text (Event.Deliver p signal delivery) }
    ensures size { length line.new ≤ length line.old + 200 }
{
    by_of(line, b"deliver", p, signal);
    add_word(line, delivery_word(delivery));
}

// `die P V exit`, `signal`, `fault` or `world N`.
fn died(line: &mut Line, p: Acting, status: Number, death: Death)
    requires { length line.old ≤ 400 }
    ensures text { line.new ≡ line.old ++ event_text (Event.Die p status death) }
    ensures size { length line.new ≤ length line.old + 200 }
{
    by_of(line, b"die", p, status);
    match death {
        Death::Exit => line.push_text(b" exit"),
        Death::Signal => line.push_text(b" signal"),
        Death::Fault => line.push_text(b" fault"),
        Death::World(entry) => {
            line.push_text(b" world");
            add_number(line, entry);
        }
    }
}

// `key 0 B`.
fn key(line: &mut Line, p: Acting, byte: u8)
    requires { length line.old ≤ 400 }
    ensures text { line.new ≡ line.old ++ event_text (Event.Key p byte) }
    ensures size { length line.new ≤ length line.old + 200 }
{
    by(line, b"key", p);
    line.push_text(b" ");
    push_byte(line, byte);
}

/// Adds the text of an event.
pub fn push_event(line: &mut Line, event: &Event)
    requires { length line.old ≤ 400 }
    ensures text { line.new ≡ line.old ++ event_text event.now }
    ensures size { length line.new ≤ length line.old + 200 }
{
    match event {
        Event::Run(p, n) => by_of(line, b"run", *p, *n),
        Event::Get(p, field, value) => get(line, *p, *field, *value),
        Event::Fork(p, child) => by_of(line, b"fork", *p, *child),
        Event::ForkFail(p, cause) => fork_failed(line, *p, *cause),
        Event::Exec(p, name) => exec(line, *p, name),
        Event::ExecFail(p, cause) => exec_failed(line, *p, *cause),
        Event::Kill(p, target, signal, answer) => {
            answered(line, b"kill", *p, *target, *signal, *answer)
        }
        Event::Member(p, member, signal) => by_of_two(line, b"member", *p, *member, *signal),
        Event::GroupDone(p, group, signal, answer) => {
            answered(line, b"groupdone", *p, *group, *signal, *answer)
        }
        Event::Look(p, child) => by_of(line, b"look", *p, *child),
        Event::Block(p) => by(line, b"block", *p),
        Event::Nothing(p) => by(line, b"nothing", *p),
        Event::Reap(p, child, status) => by_of_two(line, b"reap", *p, *child, *status),
        Event::Report(p, child, status) => by_of_two(line, b"report", *p, *child, *status),
        Event::NoChild(p) => by(line, b"nochild", *p),
        Event::Refuse(p, errno) => refused(line, *p, *errno),
        Event::Mask(p, mask) => by_of(line, b"mask", *p, *mask),
        Event::SetAction(p, signal, new) => action(line, *p, *signal, *new),
        Event::Suspend(p, mask) => by_of(line, b"suspend", *p, *mask),
        Event::Return(p) => by(line, b"return", *p),
        Event::Deliver(p, signal, delivery) => delivered(line, *p, *signal, *delivery),
        Event::Discard(p, signal) => by_of(line, b"discard", *p, *signal),
        Event::Stop(p, signal) => by_of(line, b"stop", *p, *signal),
        Event::Die(p, status, death) => died(line, *p, *status, *death),
        Event::Notify(p) => by(line, b"notify", *p),
        Event::Collect(p) => by(line, b"collect", *p),
        Event::SetPgid(p, process, group) => by_of_two(line, b"setpgid", *p, *process, *group),
        Event::SetSid(p) => by(line, b"setsid", *p),
        Event::TcSet(p, group) => by_of(line, b"tcset", *p, *group),
        Event::Flags(p, flags) => by_of(line, b"flags", *p, *flags),
        Event::Background(p, signal) => by_of(line, b"background", *p, *signal),
        Event::BackgroundDone(p) => by(line, b"bgdone", *p),
        Event::Line(p, count, bytes) => shown(line, b"line", *p, *count, bytes),
        Event::Write(p, count, bytes) => shown(line, b"write", *p, *count, bytes),
        Event::Key(p, byte) => key(line, *p, *byte),
        Event::Host(p, code) => by_of(line, b"host", *p, *code),
    }
}
