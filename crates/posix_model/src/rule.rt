//! The kinds of event.

ghost use Rattle.std.specs.Prelude.{◌≡◌};
ghost use Rattle.log_spec.specs.Events.{words_of};

use w32_base::Event;

/// A kind of event: all those whose text has the same first word.
#[derive(Clone, Copy, Debug, PartialEq, Eq)]
pub enum Rule {
    /// `run`.
    Run,
    /// `get`.
    Get,
    /// `fork`.
    Fork,
    /// `forkfail`.
    ForkFail,
    /// `exec`.
    Exec,
    /// `execfail`.
    ExecFail,
    /// `kill`.
    Kill,
    /// `member`.
    Member,
    /// `groupdone`.
    GroupDone,
    /// `look`.
    Look,
    /// `block`.
    Block,
    /// `nothing`.
    Nothing,
    /// `reap`.
    Reap,
    /// `report`.
    Report,
    /// `nochild`.
    NoChild,
    /// `refuse`.
    Refuse,
    /// `mask`.
    Mask,
    /// `action`.
    Action,
    /// `suspend`.
    Suspend,
    /// `return`.
    Return,
    /// `deliver`.
    Deliver,
    /// `discard`.
    Discard,
    /// `stop`.
    Stop,
    /// `die`.
    Die,
    /// `notify`.
    Notify,
    /// `collect`.
    Collect,
    /// `setpgid`.
    SetPgid,
    /// `setsid`.
    SetSid,
    /// `tcset`.
    TcSet,
    /// `flags`.
    Flags,
    /// `background`.
    Background,
    /// `bgdone`.
    BackgroundDone,
    /// `line`.
    Line,
    /// `write`.
    Write,
    /// `key`.
    Key,
    /// `host`.
    Host,
}

impl Rule {
    ghost use Rattle.posix_model.specs.Rules.{rule_of, word_of, first_word};

    /// The kind of an event.
    pub fn of(event: &Event) -> Rule
        ensures value { result ≡ rule_of event.now }
        ensures word { first_word (words_of event.now) ≡ word_of result }
    {
        match event {
            Event::Run(..) => Rule::Run,
            Event::Get(..) => Rule::Get,
            Event::Fork(..) => Rule::Fork,
            Event::ForkFail(..) => Rule::ForkFail,
            Event::Exec(..) => Rule::Exec,
            Event::ExecFail(..) => Rule::ExecFail,
            Event::Kill(..) => Rule::Kill,
            Event::Member(..) => Rule::Member,
            Event::GroupDone(..) => Rule::GroupDone,
            Event::Look(..) => Rule::Look,
            Event::Block(..) => Rule::Block,
            Event::Nothing(..) => Rule::Nothing,
            Event::Reap(..) => Rule::Reap,
            Event::Report(..) => Rule::Report,
            Event::NoChild(..) => Rule::NoChild,
            Event::Refuse(..) => Rule::Refuse,
            Event::Mask(..) => Rule::Mask,
            Event::SetAction(..) => Rule::Action,
            Event::Suspend(..) => Rule::Suspend,
            Event::Return(..) => Rule::Return,
            Event::Deliver(..) => Rule::Deliver,
            Event::Discard(..) => Rule::Discard,
            Event::Stop(..) => Rule::Stop,
            Event::Die(..) => Rule::Die,
            Event::Notify(..) => Rule::Notify,
            Event::Collect(..) => Rule::Collect,
            Event::SetPgid(..) => Rule::SetPgid,
            Event::SetSid(..) => Rule::SetSid,
            Event::TcSet(..) => Rule::TcSet,
            Event::Flags(..) => Rule::Flags,
            Event::Background(..) => Rule::Background,
            Event::BackgroundDone(..) => Rule::BackgroundDone,
            Event::Line(..) => Rule::Line,
            Event::Write(..) => Rule::Write,
            Event::Key(..) => Rule::Key,
            Event::Host(..) => Rule::Host,
        }
    }

    /// The first word of the text of such an event.
    pub fn as_str(&self) -> &'static str
        ensures { result.now ≡ word_of self.now }
    {
        match self {
            Rule::Run => "run",
            Rule::Get => "get",
            Rule::Fork => "fork",
            Rule::ForkFail => "forkfail",
            Rule::Exec => "exec",
            Rule::ExecFail => "execfail",
            Rule::Kill => "kill",
            Rule::Member => "member",
            Rule::GroupDone => "groupdone",
            Rule::Look => "look",
            Rule::Block => "block",
            Rule::Nothing => "nothing",
            Rule::Reap => "reap",
            Rule::Report => "report",
            Rule::NoChild => "nochild",
            Rule::Refuse => "refuse",
            Rule::Mask => "mask",
            Rule::Action => "action",
            Rule::Suspend => "suspend",
            Rule::Return => "return",
            Rule::Deliver => "deliver",
            Rule::Discard => "discard",
            Rule::Stop => "stop",
            Rule::Die => "die",
            Rule::Notify => "notify",
            Rule::Collect => "collect",
            Rule::SetPgid => "setpgid",
            Rule::SetSid => "setsid",
            Rule::TcSet => "tcset",
            Rule::Flags => "flags",
            Rule::Background => "background",
            Rule::BackgroundDone => "bgdone",
            Rule::Line => "line",
            Rule::Write => "write",
            Rule::Key => "key",
            Rule::Host => "host",
        }
    }
}
