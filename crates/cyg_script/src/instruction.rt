//! The lines of instructions.

ghost use Rattle.std.specs.Prelude.{◌≡◌, ◌<◌, true, ◌∷◌, [], ◌&&◌, nat_lt, IfOk, Some, option_map};
ghost use Rattle.std.specs.Fmt.{decimal};
ghost use Rattle.w32_base.specs.Name.{is_name};
ghost use Rattle.w32_base.specs.Targets.{is_target_below};
ghost use Rattle.script_spec.specs.FirstWords.{instr_word_text};
ghost use Rattle.script_spec.specs.Fields.{RegisterWord, ValueWord, PlaceWord, NameWord};
ghost use Rattle.script_spec.specs.Forms.{instr_forms, forms_fault, kept_form, place_as};
ghost use Rattle.script_spec.specs.InstrText.{register_text, operand_text, instr_words};
ghost use Rattle.script_spec.specs.Validity.{is_valid_operand, is_valid_instr};
ghost use Rattle.cyg_script.specs.Instructions.{clamped, place_named, change_of, restart_words, IsRead};
ghost use Rattle.cyg_script.specs.Results.{fault_in};
ghost use Rattle.cyg_script.specs.Words.{words_after};

use crate::field::{is_same, name, operand, place, register};
use crate::least::both;
use crate::words::{are_none, four, one, three, two};
use script_spec::{InstrWord, Kind};
use w32_base::{Action, Instr, MaskChange, Name, Operand, Register};

/// An instruction without words after the first one.
#[tactic(auto, using(crate::proofs::Forms::no_words_fault, crate::proofs::Forms::some_words_fault))]
fn alone(instr: Instr, rest: Option<&[u8]>) -> Result<Instr, Kind>
    ensures fault { fault_in result ≡ forms_fault ([] ∷ []) (words_after (option_map (λ r. r.now) rest.entry)) }
    ensures text { IfOk result (λ i. (i ≡ instr) × (words_after (option_map (λ r. r.now) rest.entry) ≡ [])) }
{
    if are_none(rest) {
        Ok(instr)
    } else {
        Err(Kind::Words)
    }
}

/// An operand.
#[tactic(auto, using(crate::proofs::Forms::one_form))]
fn one_operand(rest: Option<&[u8]>) -> Result<Operand, Kind>
    ensures fault { fault_in result ≡ forms_fault ((ValueWord ∷ []) ∷ [])
        (words_after (option_map (λ r. r.now) rest.entry)) }
    ensures valid { IfOk result (λ v. is_valid_operand v ≡ true) }
    ensures text { IfOk result (λ v. words_after (option_map (λ r. r.now) rest.entry) ≡ operand_text v ∷ []) }
{
    match one(rest) {
        Some(v) => operand(v),
        None => Err(Kind::Words),
    }
}

/// Two operands.
#[tactic(auto, using(crate::proofs::Forms::two_form))]
fn two_operands(rest: Option<&[u8]>) -> Result<(Operand, Operand), Kind>
    ensures fault { fault_in result ≡ forms_fault ((ValueWord ∷ ValueWord ∷ []) ∷ [])
        (words_after (option_map (λ r. r.now) rest.entry)) }
    ensures valid { IfOk result (λ p. (is_valid_operand p.0 && is_valid_operand p.1) ≡ true) }
    ensures text { IfOk result (λ p. words_after (option_map (λ r. r.now) rest.entry)
        ≡ operand_text p.0 ∷ operand_text p.1 ∷ []) }
{
    match two(rest) {
        Some((u, v)) => both(operand(u), operand(v)),
        None => Err(Kind::Words),
    }
}

/// A register.
#[tactic(auto, using(crate::proofs::Forms::one_form))]
fn one_register(rest: Option<&[u8]>) -> Result<Register, Kind>
    ensures fault { fault_in result ≡ forms_fault ((RegisterWord ∷ []) ∷ [])
        (words_after (option_map (λ r. r.now) rest.entry)) }
    ensures valid { IfOk result (λ r. nat_lt r 8 ≡ true) }
    ensures text { IfOk result (λ r. words_after (option_map (λ r. r.now) rest.entry) ≡ register_text r ∷ []) }
{
    match one(rest) {
        Some(r) => register(r),
        None => Err(Kind::Words),
    }
}

/// A register and an operand.
#[tactic(auto, using(crate::proofs::Forms::two_form))]
fn register_and_operand(rest: Option<&[u8]>) -> Result<(Register, Operand), Kind>
    ensures fault { fault_in result ≡ forms_fault ((RegisterWord ∷ ValueWord ∷ []) ∷ [])
        (words_after (option_map (λ r. r.now) rest.entry)) }
    ensures valid { IfOk result (λ p. (nat_lt p.0 8 && is_valid_operand p.1) ≡ true) }
    ensures text { IfOk result (λ p. words_after (option_map (λ r. r.now) rest.entry)
        ≡ register_text p.0 ∷ operand_text p.1 ∷ []) }
{
    match two(rest) {
        Some((r, v)) => both(register(r), operand(v)),
        None => Err(Kind::Words),
    }
}

/// A place.
fn one_place(rest: Option<&[u8]>) -> Result<u16, Kind>
    ensures fault { fault_in result ≡ forms_fault ((PlaceWord ∷ []) ∷ [])
        (words_after (option_map (λ r. r.now) rest.entry)) }
    ensures place { IfOk result (λ p. option_map clamped (place_as
        (words_after (option_map (λ r. r.now) rest.entry)) (kept_form ((PlaceWord ∷ []) ∷ [])
        (words_after (option_map (λ r. r.now) rest.entry)))) ≡ Some p) }
    ensures text { IfOk result (λ p. p < 65535 → (words_after (option_map (λ r. r.now) rest.entry)) ≡ decimal p ∷ []) }
{
    match one(rest) {
        Some(n) => place(n),
        None => Err(Kind::Words),
    }
}

/// An operand and a place.
fn operand_and_place(rest: Option<&[u8]>) -> Result<(Operand, u16), Kind>
    ensures fault { fault_in result ≡ forms_fault ((ValueWord ∷ PlaceWord ∷ []) ∷ [])
        (words_after (option_map (λ r. r.now) rest.entry)) }
    ensures valid { IfOk result (λ p. is_valid_operand p.0 ≡ true) }
    ensures place { IfOk result (λ p. option_map clamped (place_as
        (words_after (option_map (λ r. r.now) rest.entry)) (kept_form ((ValueWord ∷ PlaceWord ∷ []) ∷ [])
        (words_after (option_map (λ r. r.now) rest.entry)))) ≡ Some p.1) }
    ensures text { IfOk result (λ p. p.1 < 65535 → (words_after (option_map (λ r. r.now) rest.entry))
        ≡ operand_text p.0 ∷ decimal p.1 ∷ []) }
{
    match two(rest) {
        Some((v, n)) => both(operand(v), place(n)),
        None => Err(Kind::Words),
    }
}

/// A name.
#[tactic(auto, using(crate::proofs::Forms::one_form))]
fn one_name(rest: Option<&[u8]>) -> Result<Name, Kind>
    ensures fault { fault_in result ≡ forms_fault ((NameWord ∷ []) ∷ [])
        (words_after (option_map (λ r. r.now) rest.entry)) }
    ensures valid { IfOk result (λ n. is_name n ≡ true) }
    ensures text { IfOk result (λ n. words_after (option_map (λ r. r.now) rest.entry) ≡ n ∷ []) }
{
    match one(rest) {
        Some(n) => name(n),
        None => Err(Kind::Words),
    }
}

/// `action V default` or `action V ignore`.
fn plain_action(signal: &[u8], word: &[u8]) -> Result<Instr, Kind>
    ensures fault { fault_in result ≡ forms_fault (instr_forms InstrWord.Action) (signal.now ∷ word.now ∷ []) }
    ensures valid { IfOk result (λ i. is_valid_instr i ≡ true) }
    ensures read { IfOk result (IsRead InstrWord.Action (signal.now ∷ word.now ∷ [])) }
{
    if is_same(b"default", word) {
        let v = operand(signal)?;
        Ok(Instr::Action(v, Action::Default))
    } else if is_same(b"ignore", word) {
        let v = operand(signal)?;
        Ok(Instr::Action(v, Action::Ignore))
    } else {
        Err(Kind::Words)
    }
}

/// `action V handler N`, with or without `restart`.
fn handler_action(signal: &[u8], word: &[u8], at: &[u8], restart: bool) -> Result<Instr, Kind>
    ensures fault { fault_in result ≡ forms_fault (instr_forms InstrWord.Action)
        (signal.now ∷ word.now ∷ at.now ∷ restart_words restart) }
    ensures valid { IfOk result (λ i. is_valid_instr i ≡ true) }
    ensures read { IfOk result (IsRead InstrWord.Action (signal.now ∷ word.now ∷ at.now ∷ restart_words restart)) }
{
    if is_same(b"handler", word) {
        let (v, place) = both(operand(signal), place(at))?;
        Ok(Instr::Action(v, Action::Handler(place, restart)))
    } else {
        Err(Kind::Words)
    }
}

/// `action V handler N restart`.
fn restart_action(signal: &[u8], word: &[u8], at: &[u8], last: &[u8]) -> Result<Instr, Kind>
    ensures fault { fault_in result ≡ forms_fault (instr_forms InstrWord.Action)
        (signal.now ∷ word.now ∷ at.now ∷ last.now ∷ []) }
    ensures valid { IfOk result (λ i. is_valid_instr i ≡ true) }
    ensures read { IfOk result (IsRead InstrWord.Action (signal.now ∷ word.now ∷ at.now ∷ last.now ∷ [])) }
{
    if is_same(b"restart", last) {
        handler_action(signal, word, at, true)
    } else {
        Err(Kind::Words)
    }
}

/// `action V default`, `action V ignore`, `action V handler N` or `action V handler N restart`.
fn action(rest: Option<&[u8]>) -> Result<Instr, Kind>
    ensures fault { fault_in result ≡ forms_fault (instr_forms InstrWord.Action)
        (words_after (option_map (λ r. r.now) rest.entry)) }
    ensures valid { IfOk result (λ i. is_valid_instr i ≡ true) }
    ensures read { IfOk result (IsRead InstrWord.Action (words_after (option_map (λ r. r.now) rest.entry))) }
{
    match two(rest) {
        Some((signal, word)) => plain_action(signal, word),
        None => match three(rest) {
            Some((signal, word, at)) => handler_action(signal, word, at, false),
            None => match four(rest) {
                Some((signal, word, at, last)) => restart_action(signal, word, at, last),
                None => Err(Kind::Words),
            },
        },
    }
}

/// `block`, `unblock` or `set`.
fn change(word: &[u8]) -> Option<MaskChange>
    ensures { result ≡ change_of word.now }
{
    match word {
        b"block" => Some(MaskChange::Block),
        b"unblock" => Some(MaskChange::Unblock),
        b"set" => Some(MaskChange::Set),
        _ => None,
    }
}

/// `mask CHANGE V`, of its two words.
fn mask_of(word: &[u8], v: &[u8]) -> Result<Instr, Kind>
    ensures fault { fault_in result ≡ forms_fault (instr_forms InstrWord.Mask) (word.now ∷ v.now ∷ []) }
    ensures valid { IfOk result (λ i. is_valid_instr i ≡ true) }
    ensures read { IfOk result (IsRead InstrWord.Mask (word.now ∷ v.now ∷ [])) }
{
    match change(word) {
        Some(change) => {
            let v = operand(v)?;
            Ok(Instr::Mask(change, v))
        }
        None => Err(Kind::Words),
    }
}

/// `mask CHANGE V`.
fn mask(rest: Option<&[u8]>) -> Result<Instr, Kind>
    ensures fault { fault_in result ≡ forms_fault (instr_forms InstrWord.Mask)
        (words_after (option_map (λ r. r.now) rest.entry)) }
    ensures valid { IfOk result (λ i. is_valid_instr i ≡ true) }
    ensures read { IfOk result (IsRead InstrWord.Mask (words_after (option_map (λ r. r.now) rest.entry))) }
{
    match two(rest) {
        Some((word, v)) => mask_of(word, v),
        None => Err(Kind::Words),
    }
}

/// The instruction with these words after its first one.
pub fn instruction(word: InstrWord, rest: Option<&[u8]>) -> Result<Instr, Kind>
    ensures fault { fault_in result ≡ forms_fault (instr_forms word)
        (words_after (option_map (λ r. r.now) rest.entry)) }
    ensures valid { IfOk result (λ i. is_valid_instr i ≡ true) }
    ensures place { IfOk result (λ i. option_map clamped (place_as
        (words_after (option_map (λ r. r.now) rest.entry)) (kept_form (instr_forms word)
        (words_after (option_map (λ r. r.now) rest.entry)))) ≡ place_named i) }
    ensures text { IfOk result (λ i. is_target_below 65535 i ≡ true
        → instr_word_text word ∷ (words_after (option_map (λ r. r.now) rest.entry)) ≡ instr_words i) }
{
    match word {
        InstrWord::Set => {
            let (r, v) = register_and_operand(rest)?;
            Ok(Instr::Set(r, v))
        }
        InstrWord::Add => {
            let (r, v) = register_and_operand(rest)?;
            Ok(Instr::Add(r, v))
        }
        InstrWord::Load => {
            let (r, v) = register_and_operand(rest)?;
            Ok(Instr::Load(r, v))
        }
        InstrWord::Store => {
            let (u, v) = two_operands(rest)?;
            Ok(Instr::Store(u, v))
        }
        InstrWord::Push => Ok(Instr::Push(one_operand(rest)?)),
        InstrWord::Pop => Ok(Instr::Pop(one_register(rest)?)),
        InstrWord::Jump => Ok(Instr::Jump(one_place(rest)?)),
        InstrWord::JumpZero => {
            let (v, n) = operand_and_place(rest)?;
            Ok(Instr::JumpZero(v, n))
        }
        InstrWord::JumpNegative => {
            let (v, n) = operand_and_place(rest)?;
            Ok(Instr::JumpNegative(v, n))
        }
        InstrWord::GetPid => alone(Instr::GetPid, rest),
        InstrWord::GetPpid => alone(Instr::GetPpid, rest),
        InstrWord::GetPgid => alone(Instr::GetPgid, rest),
        InstrWord::GetSid => alone(Instr::GetSid, rest),
        InstrWord::Fork => alone(Instr::Fork, rest),
        InstrWord::Exec => Ok(Instr::Exec(one_name(rest)?)),
        InstrWord::Exit => Ok(Instr::Exit(one_operand(rest)?)),
        InstrWord::Wait => {
            let (u, v) = two_operands(rest)?;
            Ok(Instr::Wait(u, v))
        }
        InstrWord::Kill => {
            let (u, v) = two_operands(rest)?;
            Ok(Instr::Kill(u, v))
        }
        InstrWord::Action => action(rest),
        InstrWord::Mask => mask(rest),
        InstrWord::Suspend => Ok(Instr::Suspend(one_operand(rest)?)),
        InstrWord::Pause => alone(Instr::Pause, rest),
        InstrWord::Return => alone(Instr::Return, rest),
        InstrWord::SetPgid => {
            let (u, v) = two_operands(rest)?;
            Ok(Instr::SetPgid(u, v))
        }
        InstrWord::SetSid => alone(Instr::SetSid, rest),
        InstrWord::TcSet => Ok(Instr::TcSet(one_operand(rest)?)),
        InstrWord::TcGet => alone(Instr::TcGet, rest),
        InstrWord::TtyFlags => Ok(Instr::TtyFlags(one_operand(rest)?)),
        InstrWord::Read => {
            let (u, v) = two_operands(rest)?;
            Ok(Instr::Read(u, v))
        }
        InstrWord::Write => {
            let (u, v) = two_operands(rest)?;
            Ok(Instr::Write(u, v))
        }
    }
}
