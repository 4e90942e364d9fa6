//! The texts of replies, directives and outcomes.

ghost use Rattle.std.specs.Prelude.{◌≡◌, ◌+◌, ◌≤◌, ◌++◌, length};
ghost use Rattle.log_spec.specs.Replies.{reply_text, directive_text, outcome_text};

use crate::call::{one, three, two};
use crate::line::Line;
use crate::words::push_byte;
use w32_base::call::Reply;
use w32_base::entry::{Directive, Outcome};

/// Adds the text of a reply.
pub fn push_reply(line: &mut Line, reply: &Reply)
    requires { length line.old ≤ 500 }
    ensures text { line.new ≡ line.old ++ reply_text reply.now }
    ensures size { length line.new ≤ length line.old + 80 }
{
    match reply {
        Reply::Ran(n) => one(line, b"ran", u64::from(*n)),
        Reply::Word(x) => one(line, b"word", *x),
        Reply::BadIndex => line.push_text(b"badindex"),
        Reply::Made(h, w) => two(line, b"made", u64::from(h.get()), u64::from(w.get())),
        Reply::NoSlot => line.push_text(b"noslot"),
        Reply::TableFull => line.push_text(b"tablefull"),
        Reply::Count(n) => one(line, b"count", u64::from(*n)),
        Reply::Gone => line.push_text(b"gone"),
        Reply::Handle(h) => one(line, b"handle", u64::from(h.get())),
        Reply::Unknown => line.push_text(b"unknown"),
        Reply::Code(n) => one(line, b"code", u64::from(*n)),
        Reply::Active => line.push_text(b"active"),
        Reply::Done => line.push_text(b"done"),
        Reply::BadRange => line.push_text(b"badrange"),
        Reply::Base(n) => one(line, b"base", u64::from(*n)),
        Reply::NotOwner => line.push_text(b"notowner"),
        Reply::Two(read, write) => {
            two(line, b"two", u64::from(read.get()), u64::from(write.get()))
        }
        Reply::NoReader => line.push_text(b"noreader"),
        Reply::Full => line.push_text(b"full"),
        Reply::Byte(b) => one(line, b"byte", u64::from(*b)),
        Reply::Broken => line.push_text(b"broken"),
        Reply::Empty => line.push_text(b"empty"),
        Reply::BadHandle => line.push_text(b"badhandle"),
        Reply::Woke(i) => one(line, b"woke", u64::from(*i)),
        Reply::Abandoned(i) => one(line, b"abandoned", u64::from(*i)),
        Reply::Key(b, s, g) => {
            three(
                line,
                b"key",
                u64::from(*b),
                u64::from(*s),
                u64::from(g.get()),
            )
        }
        Reply::NoKey => line.push_text(b"nokey"),
        Reply::Background => line.push_text(b"background"),
        Reply::NoLine => line.push_text(b"noline"),
        Reply::Line(n) => one(line, b"line", u64::from(*n)),
        Reply::Written(n) => one(line, b"put", u64::from(*n)),
        Reply::State(g, s, f) => {
            three(
                line,
                b"state",
                u64::from(g.get()),
                u64::from(s.get()),
                u64::from(*f),
            )
        }
    }
}

/// Adds the text of a directive.
pub fn push_directive(line: &mut Line, directive: Directive)
    requires { length line.old ≤ 500 }
    ensures text { line.new ≡ line.old ++ directive_text directive }
    ensures size { length line.new ≤ length line.old + 52 }
{
    match directive {
        Directive::Turn(slot, thread) => {
            two(
                line,
                b"turn",
                u64::from(slot.get()),
                u64::from(thread.get()),
            )
        }
        Directive::End(slot) => one(line, b"end", u64::from(slot.get())),
        Directive::Key(byte) => {
            line.push_text(b"key ");
            push_byte(line, byte);
        }
    }
}

/// Adds the text of an outcome.
pub fn push_outcome(line: &mut Line, outcome: &Outcome)
    requires { length line.old ≤ 500 }
    ensures text { line.new ≡ line.old ++ outcome_text outcome.now }
    ensures size { length line.new ≤ length line.old + 80 }
{
    match outcome {
        Outcome::Idle => line.push_text(b"idle"),
        Outcome::Step(reply) => push_reply(line, reply),
        Outcome::Ended(process) => one(line, b"ended", u64::from(process.get())),
        Outcome::Keyed => line.push_text(b"keyed"),
    }
}
