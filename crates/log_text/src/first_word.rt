//! The first words of events' lines.

ghost use Rattle.std.specs.Prelude.{◌≡◌};
ghost use Rattle.log_text.specs.FirstWords.{call_word, child_word, signal_word, group_word, terminal_word, event_word};

/// The first word of an event's line.
#[derive(Clone, Copy, Debug, PartialEq, Eq)]
pub enum EventWord {
    /// `run`
    Run,
    /// `get`
    Get,
    /// `fork`
    Fork,
    /// `forkfail`
    ForkFail,
    /// `exec`
    Exec,
    /// `execfail`
    ExecFail,
    /// `kill`
    Kill,
    /// `member`
    Member,
    /// `groupdone`
    GroupDone,
    /// `look`
    Look,
    /// `block`
    Block,
    /// `nothing`
    Nothing,
    /// `reap`
    Reap,
    /// `report`
    Report,
    /// `nochild`
    NoChild,
    /// `refuse`
    Refuse,
    /// `mask`
    Mask,
    /// `action`
    Action,
    /// `suspend`
    Suspend,
    /// `return`
    Return,
    /// `deliver`
    Deliver,
    /// `discard`
    Discard,
    /// `stop`
    Stop,
    /// `die`
    Die,
    /// `notify`
    Notify,
    /// `collect`
    Collect,
    /// `setpgid`
    SetPgid,
    /// `setsid`
    SetSid,
    /// `tcset`
    TcSet,
    /// `flags`
    Flags,
    /// `background`
    Background,
    /// `bgdone`
    BackgroundDone,
    /// `line`
    Line,
    /// `write`
    Write,
    /// `key`
    Key,
    /// `host`
    Host,
}

// The word of a block, a call or a part of a group call.
fn call_word(word: &[u8]) -> Option<EventWord>
    ensures { result ≡ call_word word.now }
{
    match word {
        b"run" => Some(EventWord::Run),
        b"get" => Some(EventWord::Get),
        b"fork" => Some(EventWord::Fork),
        b"forkfail" => Some(EventWord::ForkFail),
        b"exec" => Some(EventWord::Exec),
        b"execfail" => Some(EventWord::ExecFail),
        b"kill" => Some(EventWord::Kill),
        b"member" => Some(EventWord::Member),
        b"groupdone" => Some(EventWord::GroupDone),
        _ => None,
    }
}

// The word of a `wait` call's steps, and of a refusal.
fn child_word(word: &[u8]) -> Option<EventWord>
    ensures { result ≡ child_word word.now }
{
    match word {
        b"look" => Some(EventWord::Look),
        b"block" => Some(EventWord::Block),
        b"nothing" => Some(EventWord::Nothing),
        b"reap" => Some(EventWord::Reap),
        b"report" => Some(EventWord::Report),
        b"nochild" => Some(EventWord::NoChild),
        b"refuse" => Some(EventWord::Refuse),
        b"notify" => Some(EventWord::Notify),
        b"collect" => Some(EventWord::Collect),
        _ => None,
    }
}

// The word of what concerns signals.
fn signal_word(word: &[u8]) -> Option<EventWord>
    ensures { result ≡ signal_word word.now }
{
    match word {
        b"mask" => Some(EventWord::Mask),
        b"action" => Some(EventWord::Action),
        b"suspend" => Some(EventWord::Suspend),
        b"return" => Some(EventWord::Return),
        b"deliver" => Some(EventWord::Deliver),
        b"discard" => Some(EventWord::Discard),
        b"stop" => Some(EventWord::Stop),
        b"die" => Some(EventWord::Die),
        _ => None,
    }
}

// The word of what concerns groups.
fn group_word(word: &[u8]) -> Option<EventWord>
    ensures { result ≡ group_word word.now }
{
    match word {
        b"setpgid" => Some(EventWord::SetPgid),
        b"setsid" => Some(EventWord::SetSid),
        b"tcset" => Some(EventWord::TcSet),
        b"background" => Some(EventWord::Background),
        b"bgdone" => Some(EventWord::BackgroundDone),
        _ => None,
    }
}

// The word of what concerns the terminal or the host.
fn terminal_word(word: &[u8]) -> Option<EventWord>
    ensures { result ≡ terminal_word word.now }
{
    match word {
        b"flags" => Some(EventWord::Flags),
        b"line" => Some(EventWord::Line),
        b"write" => Some(EventWord::Write),
        b"key" => Some(EventWord::Key),
        b"host" => Some(EventWord::Host),
        _ => None,
    }
}

/// The first word of an event's line, or none where it begins no event's line.
pub fn event_word(word: &[u8]) -> Option<EventWord>
    ensures { result ≡ event_word word.now }
{
    if let Some(found) = call_word(word) {
        return Some(found);
    }
    if let Some(found) = child_word(word) {
        return Some(found);
    }
    if let Some(found) = signal_word(word) {
        return Some(found);
    }
    if let Some(found) = group_word(word) {
        return Some(found);
    }
    terminal_word(word)
}
