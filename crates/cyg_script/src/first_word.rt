//! The first words of lines.

ghost use Rattle.std.specs.Prelude.{◌≡◌};
ghost use Rattle.script_spec.specs.FirstWords.{local_word, process_word, signal_word, group_word, instr_word};
ghost use Rattle.script_spec.specs.FirstWords.{directive_word, other_word, first_word};

use script_spec::{DirectiveWord, FirstWord, InstrWord};

/// The word of a local instruction.
fn local_word(word: &[u8]) -> Option<InstrWord>
    ensures { result ≡ local_word word.now }
{
    match word {
        b"set" => Some(InstrWord::Set),
        b"add" => Some(InstrWord::Add),
        b"load" => Some(InstrWord::Load),
        b"store" => Some(InstrWord::Store),
        b"push" => Some(InstrWord::Push),
        b"pop" => Some(InstrWord::Pop),
        b"jump" => Some(InstrWord::Jump),
        b"jzero" => Some(InstrWord::JumpZero),
        b"jneg" => Some(InstrWord::JumpNegative),
        _ => None,
    }
}

/// The word of a call on processes.
fn process_word(word: &[u8]) -> Option<InstrWord>
    ensures { result ≡ process_word word.now }
{
    match word {
        b"getpid" => Some(InstrWord::GetPid),
        b"getppid" => Some(InstrWord::GetPpid),
        b"getpgid" => Some(InstrWord::GetPgid),
        b"getsid" => Some(InstrWord::GetSid),
        b"fork" => Some(InstrWord::Fork),
        b"exec" => Some(InstrWord::Exec),
        b"exit" => Some(InstrWord::Exit),
        b"wait" => Some(InstrWord::Wait),
        _ => None,
    }
}

/// The word of a call on signals.
fn signal_word(word: &[u8]) -> Option<InstrWord>
    ensures { result ≡ signal_word word.now }
{
    match word {
        b"kill" => Some(InstrWord::Kill),
        b"action" => Some(InstrWord::Action),
        b"mask" => Some(InstrWord::Mask),
        b"suspend" => Some(InstrWord::Suspend),
        b"pause" => Some(InstrWord::Pause),
        b"return" => Some(InstrWord::Return),
        _ => None,
    }
}

/// The word of a call on groups or the terminal.
fn group_word(word: &[u8]) -> Option<InstrWord>
    ensures { result ≡ group_word word.now }
{
    match word {
        b"setpgid" => Some(InstrWord::SetPgid),
        b"setsid" => Some(InstrWord::SetSid),
        b"tcset" => Some(InstrWord::TcSet),
        b"tcget" => Some(InstrWord::TcGet),
        b"ttyflags" => Some(InstrWord::TtyFlags),
        b"read" => Some(InstrWord::Read),
        b"write" => Some(InstrWord::Write),
        _ => None,
    }
}

/// The word of an instruction.
fn instr_word(word: &[u8]) -> Option<InstrWord>
    ensures { result ≡ instr_word word.now }
{
    if let Some(found) = local_word(word) {
        return Some(found);
    }
    if let Some(found) = process_word(word) {
        return Some(found);
    }
    if let Some(found) = signal_word(word) {
        return Some(found);
    }
    group_word(word)
}

/// The word of a schedule's line.
fn directive_word(word: &[u8]) -> Option<DirectiveWord>
    ensures { result ≡ directive_word word.now }
{
    match word {
        b"turn" => Some(DirectiveWord::Turn),
        b"end" => Some(DirectiveWord::End),
        b"key" => Some(DirectiveWord::Key),
        b"steps" => Some(DirectiveWord::Steps),
        b"settle" => Some(DirectiveWord::Settle),
        _ => None,
    }
}

/// The word of another line.
fn other_word(word: &[u8]) -> Option<FirstWord>
    ensures { result ≡ other_word word.now }
{
    match word {
        b"cygscript" => Some(FirstWord::CygScript),
        b"slots" => Some(FirstWord::Slots),
        b"rows" => Some(FirstWord::Rows),
        b"budget" => Some(FirstWord::Budget),
        b"module" => Some(FirstWord::Module),
        b"occupy" => Some(FirstWord::Occupy),
        b"program" => Some(FirstWord::Program),
        b"schedule" => Some(FirstWord::Schedule),
        _ => None,
    }
}

/// The first word of a line, or none where it begins no line.
pub fn first_word(word: &[u8]) -> Option<FirstWord>
    ensures { result ≡ first_word word.now }
{
    if let Some(instr) = instr_word(word) {
        return Some(FirstWord::Instr(instr));
    }
    if let Some(directive) = directive_word(word) {
        return Some(FirstWord::Directive(directive));
    }
    other_word(word)
}
