//! The lines of a script that are no instructions.

ghost use Rattle.std.specs.Prelude.{◌≡◌, ℕ, ◌≤◌, ◌+◌, ◌∷◌, ◌&&◌, [], List, true, IfOk, codes, option_map};
ghost use Rattle.std.specs.Fmt.{decimal};
ghost use Rattle.w32_base.specs.Names.{is_same};
ghost use Rattle.script_spec.specs.Faults.{least};
ghost use Rattle.script_spec.specs.Fields.{NumberWord, KeyWord, field_fault};
ghost use Rattle.script_spec.specs.FirstWords.{directive_word_text};
ghost use Rattle.script_spec.specs.Forms.{forms, directive_forms, forms_fault};
ghost use Rattle.script_spec.specs.LineFaults.{is_header, pages_fault};
ghost use Rattle.script_spec.specs.Numbers.{value_of};
ghost use Rattle.script_spec.specs.Print.{module_words, occupied_words, schedule_words};
ghost use Rattle.script_spec.specs.Ranges.{is_line_within};
ghost use Rattle.script_spec.specs.Validity.{is_valid_module, is_valid_page, is_valid_line};
ghost use Rattle.cyg_script.specs.Headings.{heading_words, is_valid_heading};
ghost use Rattle.cyg_script.specs.Results.{fault_in};
ghost use Rattle.cyg_script.specs.Words.{words_after};

use crate::field::{is_same, key_byte, name};
use crate::heading::Heading;
use crate::least::both;
use crate::number::number;
use crate::words::{are_none, five, one, three, two};
use script_spec::{DirectiveWord, FirstWord, Kind, OccupiedPage, ScheduleLine};
use w32_base::{Directive, Module, Slot, ThreadNo};

/// `1`, after `cygscript`.
pub fn is_version(rest: Option<&[u8]>) -> bool
    ensures { (word : List ℕ) → is_header (word ∷ words_after (option_map (λ r. r.now) rest.entry))
        ≡ (is_same (codes "cygscript") word && result) }
{
    matches!(one(rest), Some(b"1"))
}

/// One number in a range.
#[tactic(auto, using(crate::proofs::Forms::one_is))]
pub fn one_number(rest: Option<&[u8]>, low: u64, high: u64) -> Result<u64, Kind>
    ensures fault { fault_in result ≡ forms_fault ((NumberWord low high ∷ []) ∷ [])
        (words_after (option_map (λ r. r.now) rest.entry)) }
    ensures range { IfOk result (λ n. (low ≤ n) × (n ≤ high)) }
    ensures value { IfOk result (λ n. value_of (decimal n) ≡ n) }
    ensures text { IfOk result (λ n. words_after (option_map (λ r. r.now) rest.entry) ≡ decimal n ∷ []) }
{
    match one(rest) {
        Some(n) => number(n, low, high),
        None => Err(Kind::Words),
    }
}

/// The pages of a module.
fn pages(base: &[u8], size: &[u8]) -> Result<(u64, u64), Kind>
    ensures fault { fault_in result ≡ least (least (field_fault (NumberWord 0 1023) base.now)
        (field_fault (NumberWord 1 8) size.now)) (pages_fault FirstWord.Module ([] ∷ base.now ∷ size.now ∷ [])) }
    ensures size { IfOk result (λ p. (1 ≤ p.1) × (p.1 ≤ 8)) }
    ensures end { IfOk result (λ p. p.0 + p.1 ≤ 1024) }
    ensures base_text { IfOk result (λ p. base.now ≡ decimal p.0) }
    ensures size_text { IfOk result (λ p. size.now ≡ decimal p.1) }
{
    let (base, size) = both(number(base, 0, 1023), number(size, 1, 8))?;
    if base + size <= 1024 {
        Ok((base, size))
    } else {
        Err(Kind::Range)
    }
}

/// `NAME BASE SIZE`.
pub fn module(rest: Option<&[u8]>) -> Result<Module, Kind>
    ensures fault { fault_in result ≡ least
        (forms_fault (forms 0 FirstWord.Module) (words_after (option_map (λ r. r.now) rest.entry)))
        (pages_fault FirstWord.Module (words_after (option_map (λ r. r.now) rest.entry))) }
    ensures valid { IfOk result (λ m. is_valid_module m ≡ true) }
    ensures text { IfOk result (λ m. codes "module" ∷ words_after (option_map (λ r. r.now) rest.entry)
        ≡ module_words m) }
{
    match three(rest) {
        Some((word, base, size)) => {
            let (name, (base, size)) = both(name(word), pages(base, size))?;
            Ok(Module {
                name,
                base: base as u16,
                size: size as u8,
            })
        }
        None => Err(Kind::Words),
    }
}

/// `CREATION PAGE`.
pub fn occupy(rest: Option<&[u8]>) -> Result<OccupiedPage, Kind>
    ensures fault { fault_in result ≡ forms_fault (forms 0 FirstWord.Occupy)
        (words_after (option_map (λ r. r.now) rest.entry)) }
    ensures valid { IfOk result (λ o. is_valid_page o ≡ true) }
    ensures text { IfOk result (λ o. codes "occupy" ∷ words_after (option_map (λ r. r.now) rest.entry)
        ≡ occupied_words o) }
{
    match two(rest) {
        Some((creation, page)) => {
            let (creation, page) = both(number(creation, 1, 500_000), number(page, 0, 1023))?;
            Ok(OccupiedPage {
                creation: creation as u32,
                page: page as u16,
            })
        }
        None => Err(Kind::Words),
    }
}

/// `NAME heap N stack N`.
pub fn own_line(rest: Option<&[u8]>) -> Result<Heading, Kind>
    ensures fault { fault_in result ≡ forms_fault (forms 0 FirstWord.Program)
        (words_after (option_map (λ r. r.now) rest.entry)) }
    ensures valid { IfOk result (λ h. is_valid_heading h ≡ true) }
    ensures text { IfOk result (λ h. codes "program" ∷ words_after (option_map (λ r. r.now) rest.entry)
        ≡ heading_words h) }
{
    match five(rest) {
        Some((word, heap_word, heap, stack_word, stack)) => {
            if !is_same(b"heap", heap_word) {
                return Err(Kind::Words);
            }
            if !is_same(b"stack", stack_word) {
                return Err(Kind::Words);
            }
            let (name, (heap, stack)) = both(
                name(word),
                both(number(heap, 0, 32768), number(stack, 64, 32768)),
            )?;
            Ok(Heading {
                name,
                heap: heap as u16,
                stack: stack as u16,
            })
        }
        None => Err(Kind::Words),
    }
}

/// `S T`.
#[tactic(auto, using(crate::proofs::Forms::two_is))]
fn turn(slots: u8, rest: Option<&[u8]>) -> Result<ScheduleLine, Kind>
    requires { slots ≤ 64 }
    ensures fault { fault_in result ≡ forms_fault (directive_forms slots DirectiveWord.Turn)
        (words_after (option_map (λ r. r.now) rest.entry)) }
    ensures within { IfOk result (λ l. is_line_within slots l ≡ true) }
    ensures valid { IfOk result (λ l. is_valid_line slots l ≡ true) }
    ensures text { IfOk result (λ l. codes "turn" ∷ words_after (option_map (λ r. r.now) rest.entry)
        ≡ schedule_words l) }
{
    match two(rest) {
        Some((slot, thread)) => {
            let (slot, thread) = both(number(slot, 0, u64::from(slots)), number(thread, 0, 2))?;
            Ok(ScheduleLine::Given(Directive::Turn(
                Slot::new(slot as u8),
                ThreadNo::new(thread as u8),
            )))
        }
        None => Err(Kind::Words),
    }
}

/// `S`.
fn end(slots: u8, rest: Option<&[u8]>) -> Result<ScheduleLine, Kind>
    requires { slots ≤ 64 }
    ensures fault { fault_in result ≡ forms_fault (directive_forms slots DirectiveWord.End)
        (words_after (option_map (λ r. r.now) rest.entry)) }
    ensures within { IfOk result (λ l. is_line_within slots l ≡ true) }
    ensures valid { IfOk result (λ l. is_valid_line slots l ≡ true) }
    ensures text { IfOk result (λ l. codes "end" ∷ words_after (option_map (λ r. r.now) rest.entry)
        ≡ schedule_words l) }
{
    let slot = one_number(rest, 1, u64::from(slots))?;
    Ok(ScheduleLine::Given(Directive::End(Slot::new(slot as u8))))
}

/// `BB`.
#[tactic(auto, using(crate::proofs::Forms::one_is))]
fn key(rest: Option<&[u8]>) -> Result<ScheduleLine, Kind>
    ensures fault { fault_in result ≡ forms_fault ((KeyWord ∷ []) ∷ [])
        (words_after (option_map (λ r. r.now) rest.entry)) }
    ensures within { IfOk result (λ l. (slots : ℕ) → is_line_within slots l ≡ true) }
    ensures valid { IfOk result (λ l. (slots : ℕ) → is_valid_line slots l ≡ true) }
    ensures text { IfOk result (λ l. codes "key" ∷ words_after (option_map (λ r. r.now) rest.entry)
        ≡ schedule_words l) }
{
    match one(rest) {
        Some(byte) => Ok(ScheduleLine::Given(Directive::Key(key_byte(byte)?))),
        None => Err(Kind::Words),
    }
}

/// A line of the schedule with these words after its first one.
pub fn schedule_line(
    slots: u8,
    word: DirectiveWord,
    rest: Option<&[u8]>,
) -> Result<ScheduleLine, Kind>
    requires { slots ≤ 64 }
    ensures fault { fault_in result ≡ forms_fault (directive_forms slots word)
        (words_after (option_map (λ r. r.now) rest.entry)) }
    ensures within { IfOk result (λ l. is_line_within slots l ≡ true) }
    ensures valid { IfOk result (λ l. is_valid_line slots l ≡ true) }
    ensures text { IfOk result (λ l. directive_word_text word ∷ words_after (option_map (λ r. r.now) rest.entry)
        ≡ schedule_words l) }
{
    match word {
        DirectiveWord::Turn => turn(slots, rest),
        DirectiveWord::End => end(slots, rest),
        DirectiveWord::Key => key(rest),
        DirectiveWord::Steps => Ok(ScheduleLine::Steps(one_number(rest, 1, 500_000)? as u32)),
        DirectiveWord::Settle => {
            if are_none(rest) {
                Ok(ScheduleLine::Settle)
            } else {
                Err(Kind::Words)
            }
        }
    }
}
