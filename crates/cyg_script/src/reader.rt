//! What was read of a script, a line after the other.

ghost use Rattle.std.specs.Prelude.{◌≡◌, ◌∷◌, ℕ, List, true, false, Some, IfOk, option_map};
ghost use Rattle.std.specs.List.{list_all};
ghost use Rattle.w32_base.specs.Names.{is_among};
ghost use Rattle.w32_base.specs.Setup.{module_names, program_names};
ghost use Rattle.w32_base.specs.Targets.{is_target_below};
ghost use Rattle.script_spec.specs.FirstWords.{first_word, sort_of};
ghost use Rattle.script_spec.specs.LineFaults.{is_printable, bytes_fault, is_header};
ghost use Rattle.script_spec.specs.Lines.{is_skipped};
ghost use Rattle.script_spec.specs.Places.{is_sort};
ghost use Rattle.cyg_script.specs.Judged.{Reads, ReadsWords, ReadsLine, Closes, Finishes, at_line, last_fault};
ghost use Rattle.cyg_script.specs.Parts.{parts_of, no_parts, stage, stands, ends_program, past_line, IsStaged, IsEnded};
ghost use Rattle.cyg_script.specs.Scripts.{HasParts};
ghost use Rattle.cyg_script.specs.Words.{words_after};
ghost use Rattle.cyg_script.specs.declared.reader.Stop.TheVariants.{Fault, Memory};

use crate::error::ScriptError;
use crate::field::is_same;
use crate::first_word::first_word;
use crate::heading::Heading;
use crate::instruction::instruction;
use crate::line::{is_version, module, occupy, one_number, own_line, schedule_line};
use crate::piece::cut;
use crate::place::{place_fault, sort_of};
use crate::words::are_none;
use script_spec::{
    DirectiveWord, FirstWord, InstrWord, Kind, Lines, MOST_LINE, MOST_LINES, MOST_OCCUPIED,
    Occupied, OccupiedPage, ScheduleLine, Script, Sort,
};
use std::alloc::{AllocError, AllocFailed, Global};
use w32_base::{Action, Code, Instr, Limits, Module, Modules, Name, Program, Programs, Setup};

/// How many modules, programs and instructions of a program there may be.
const MOST_MODULES: usize = 8;

const MOST_PROGRAMS: usize = 32;

const MOST_INSTRUCTIONS: usize = 4000;

/// What was read so far.
#[derive(Drop)]
pub struct Reader {
    /// The sort of the last line that wasn't skipped.
    last: Option<Sort>,
    slots: u8,
    rows: u16,
    budget: u32,
    modules: Vec<Module>,
    pages: Vec<OccupiedPage>,
    /// The programs that have ended.
    programs: Vec<Program>,
    /// The own line of the program that hasn't ended, its instructions and their lines.
    heading: Option<Heading>,
    code: Vec<Instr>,
    code_lines: Vec<u32>,
    schedule: Vec<ScheduleLine>,
}

/// Why a line ends the reading.
#[derive(Clone, Copy, Debug)]
pub enum Stop {
    /// The line has this fault.
    Fault(Kind),
    /// Memory ran out.
    Memory,
}

impl From<Kind> for Stop {
    ghost from_gives = { λ k e. e ≡ Fault k };

    fn from(kind: Kind) -> Stop {
        Stop::Fault(kind)
    }
}

impl From<AllocError> for Stop {
    ghost from_gives = { λ _ e. e ≡ Memory };

    fn from(_e: AllocError) -> Stop {
        Stop::Memory
    }
}

impl<T: Drop> From<AllocFailed<T>> for Stop {
    ghost from_gives = { λ _ e. e ≡ Memory };

    fn from(_e: AllocFailed<T>) -> Stop {
        Stop::Memory
    }
}

fn is_printable(bytes: &[u8]) -> bool
    ensures { result ≡ list_all is_printable bytes.now }
{
    bytes.iter().all(|b| *b >= 32 && *b <= 126)
}

/// The fault of a line's bytes.
fn bytes_fault(bytes: &[u8], is_ended: bool) -> Option<Kind>
    ensures { result ≡ bytes_fault (record { bytes = bytes.now; is_ended = is_ended }) }
{
    if !is_ended {
        Some(Kind::Unfinished)
    } else if !is_printable(bytes) {
        Some(Kind::NotAscii)
    } else if bytes.len() > MOST_LINE {
        Some(Kind::TooLong)
    } else {
        None
    }
}

/// Whether a line is empty or begins with #.
fn is_skipped(bytes: &[u8]) -> bool
    ensures { result ≡ is_skipped bytes.now }
{
    match bytes {
        [] => true,
        [first, ..] => *first == b'#',
    }
}

/// Whether the word is `cygscript`.
fn is_cygscript(word: FirstWord) -> bool
    ensures { result ≡ is_sort Sort.Header (sort_of word) }
{
    matches!(word, FirstWord::CygScript)
}

/// Whether a line of these words is `cygscript 1`.
fn is_header(first: Option<FirstWord>, rest: Option<&[u8]>) -> bool
    ensures { (w : List ℕ) → first ≡ first_word w
        → result ≡ is_header (w ∷ words_after (option_map (λ r. r.now) rest.entry)) }
{
    let Some(word) = first else {
        return false;
    };
    if is_cygscript(word) {
        is_version(rest)
    } else {
        false
    }
}

/// The fault of the end of a text whose last line is of this sort.
fn end_fault(last: Option<Sort>) -> Option<Kind>
    ensures { result ≡ last_fault last }
{
    match last {
        None => Some(Kind::NoHeader),
        Some(Sort::Directive) => None,
        Some(
            Sort::Header
            | Sort::Slots
            | Sort::Rows
            | Sort::Budget
            | Sort::Module
            | Sort::Occupy
            | Sort::Program
            | Sort::Instruction
            | Sort::Schedule,
        ) => Some(Kind::Missing),
    }
}

/// Whether a line with this first word ends a program.
fn ends_program(first: Option<FirstWord>) -> bool
    ensures { result ≡ ends_program first }
{
    matches!(first, Some(FirstWord::Program | FirstWord::Schedule))
}

/// Whether the place that an instruction names, if any, lies in a program of n instructions.
fn is_target_below(n: usize, instr: Instr) -> bool
    ensures { result ≡ is_target_below n instr }
{
    match instr {
        Instr::Jump(place) | Instr::JumpZero(_, place) | Instr::JumpNegative(_, place) =>
            usize::from(place) < n,
        Instr::Action(_, Action::Handler(place, _)) => usize::from(place) < n,
        _ => true,
    }
}

/// The line of the first instruction that names a place past the end of a program of n instructions.
fn first_past(n: usize, code: &[Instr], lines: &[u32]) -> Option<u32>
    ensures { result ≡ past_line n code.now lines.now }
{
    match code {
        [] => None,
        [instr, code @ ..] => match lines {
            [] => None,
            [line, lines @ ..] => {
                if is_target_below(n, *instr) {
                    first_past(n, code, lines)
                } else {
                    Some(*line)
                }
            }
        },
    }
}

/// The answer to the line with this number.
fn at_line(number: u32, read: Result<(), Stop>) -> Result<(), ScriptError>
    ensures { result ≡ at_line number read }
{
    match read {
        Ok(()) => Ok(()),
        Err(Stop::Fault(kind)) => Err(ScriptError::Fault { line: number, kind }),
        Err(Stop::Memory) => Err(ScriptError::Memory),
    }
}

/// Whether one of the modules has this name.
fn has_module(name: &Name, modules: &[Module]) -> bool
    ensures { result ≡ is_among name.now (module_names modules.now) }
{
    match modules {
        [] => false,
        [module, rest @ ..] => is_same(name.as_slice(), module.name.as_slice())
            || has_module(name, rest),
    }
}

/// Whether one of the programs has this name.
fn has_program(name: &Name, programs: &[Program]) -> bool
    ensures { result ≡ is_among name.now (program_names programs.now) }
{
    match programs {
        [] => false,
        [program, rest @ ..] => is_same(name.as_slice(), program.name.as_slice())
            || has_program(name, rest),
    }
}

impl Reader {
    /// Nothing is read.
    pub fn new(alloc: Global) -> Reader
        ensures { parts_of result ≡ no_parts }
    {
        Reader {
            last: None,
            slots: 1,
            rows: 1,
            budget: 1,
            modules: Vec::new(alloc),
            pages: Vec::new(alloc),
            programs: Vec::new(alloc),
            heading: None,
            code: Vec::new(alloc),
            code_lines: Vec::new(alloc),
            schedule: Vec::new(alloc),
        }
    }

    /// Reads the next line.
    pub fn line(
        &mut self,
        alloc: Global,
        number: u32,
        bytes: &[u8],
        is_ended: bool,
    ) -> Result<(), ScriptError>
        requires { IsStaged (parts_of self.old) }
        ensures staged { IfOk result (λ _. IsStaged (parts_of self.new)) }
        ensures read { ReadsLine result number (record { bytes = bytes.now; is_ended = is_ended })
            (parts_of self.old) (parts_of self.new) }
    {
        let form = bytes_fault(bytes, is_ended);
        if is_skipped(bytes) {
            return match form {
                Some(kind) => Err(ScriptError::Fault { line: number, kind }),
                None => Ok(()),
            };
        }
        let (word, rest) = cut(bytes, b' ');
        let first = first_word(word);
        if ends_program(first) {
            self.end_program(alloc)?;
            at_line(number, self.ending(form, first, rest))
        } else {
            at_line(number, self.words(number, form, first, rest))
        }
    }

    /// Adds the program whose instructions were read, if there is one.
    #[tactic(auto, using(crate::proofs::Steps::distinct_programs, crate::proofs::Steps::none_past))]
    fn end_program(&mut self, alloc: Global) -> Result<(), ScriptError>
        requires { IsStaged (parts_of self.old) }
        ensures ended { IfOk result (λ _. IsEnded (parts_of self.new)) }
        ensures closed { Closes result (parts_of self.old) (parts_of self.new) }
    {
        if self.code.is_empty() {
            return Ok(());
        }
        let Some(heading) = self.heading else {
            return Ok(());
        };
        if let Some(line) = first_past(self.code.len(), &self.code, &self.code_lines) {
            return Err(ScriptError::Fault {
                line,
                kind: Kind::Target,
            });
        }
        let code = std::mem::replace(&mut self.code, Vec::new(alloc));
        self.code_lines.clear();
        self.heading = None;
        self.programs.push(Program {
            name: heading.name,
            heap: heading.heap,
            stack: heading.stack,
            code: Code::from_vec(code),
        })?;
        Ok(())
    }

    /// The words of a line that isn't skipped, and that begins with `program` or `schedule`.
    fn ending(
        &mut self,
        form: Option<Kind>,
        first: Option<FirstWord>,
        rest: Option<&[u8]>,
    ) -> Result<(), Stop>
        requires closed { IsEnded (parts_of self.old) }
        requires word { ends_program first ≡ true }
        ensures staged { IfOk result (λ _. IsStaged (parts_of self.new)) }
        ensures read { (number : ℕ) → ReadsWords result number form first
            (words_after (option_map (λ r. r.now) rest.entry)) (parts_of self.old) (parts_of self.new) }
    {
        let Some(last) = self.last else {
            return Err(Stop::Fault(Kind::NoHeader));
        };
        if let Some(kind) = form {
            return Err(Stop::Fault(kind));
        }
        let Some(word) = first else {
            return Err(Stop::Fault(Kind::Unknown));
        };
        if let Some(kind) = place_fault(last, sort_of(word)) {
            return Err(Stop::Fault(kind));
        }
        match word {
            FirstWord::Program => self.program(rest),
            FirstWord::Schedule => self.schedule(rest),
            _ => Err(Stop::Fault(Kind::Unknown)),
        }
    }

    /// The words of a line that isn't skipped, and that doesn't begin with `program` or `schedule`.
    fn words(
        &mut self,
        number: u32,
        form: Option<Kind>,
        first: Option<FirstWord>,
        rest: Option<&[u8]>,
    ) -> Result<(), Stop>
        requires staged { IsStaged (parts_of self.old) }
        requires word { ends_program first ≡ false }
        ensures staged { IfOk result (λ _. IsStaged (parts_of self.new)) }
        ensures read { ReadsWords result number form first (words_after (option_map (λ r. r.now) rest.entry))
            (parts_of self.old) (parts_of self.new) }
    {
        let Some(last) = self.last else {
            return self.header(form, first, rest);
        };
        if let Some(kind) = form {
            return Err(Stop::Fault(kind));
        }
        let Some(word) = first else {
            return Err(Stop::Fault(Kind::Unknown));
        };
        if let Some(kind) = place_fault(last, sort_of(word)) {
            return Err(Stop::Fault(kind));
        }
        self.known(number, word, rest)
    }

    /// `cygscript 1`.
    fn header(
        &mut self,
        form: Option<Kind>,
        first: Option<FirstWord>,
        rest: Option<&[u8]>,
    ) -> Result<(), Stop>
        requires staged { IsStaged (parts_of self.old) }
        requires place { stage self.old.last ≡ 0 }
        ensures staged { IfOk result (λ _. IsStaged (parts_of self.new)) }
        ensures read { (number : ℕ) → ReadsWords result number form first
            (words_after (option_map (λ r. r.now) rest.entry)) (parts_of self.old) (parts_of self.new) }
    {
        if !is_header(first, rest) {
            return Err(Stop::Fault(Kind::NoHeader));
        }
        if let Some(kind) = form {
            return Err(Stop::Fault(kind));
        }
        self.last = Some(Sort::Header);
        Ok(())
    }

    /// A line that may stand here, and that doesn't begin with `program` or `schedule`.
    fn known(&mut self, number: u32, word: FirstWord, rest: Option<&[u8]>) -> Result<(), Stop>
        requires staged { IsStaged (parts_of self.old) }
        requires place { stands self.old.last (sort_of word) ≡ true }
        requires open { ends_program (Some word) ≡ false }
        ensures staged { IfOk result (λ _. IsStaged (parts_of self.new)) }
        ensures read { Reads result number word (words_after (option_map (λ r. r.now) rest.entry))
            (parts_of self.old) (parts_of self.new) }
    {
        match word {
            FirstWord::CygScript | FirstWord::Program | FirstWord::Schedule => Err(Stop::Fault(
                Kind::Unknown,
            )),
            FirstWord::Slots => self.slots(rest),
            FirstWord::Rows => self.rows(rest),
            FirstWord::Budget => self.budget(rest),
            FirstWord::Module => self.module(rest),
            FirstWord::Occupy => self.occupy(rest),
            FirstWord::Instr(word) => self.instr(number, word, rest),
            FirstWord::Directive(word) => self.directive(word, rest),
        }
    }

    /// `slots N`.
    fn slots(&mut self, rest: Option<&[u8]>) -> Result<(), Stop>
        requires staged { IsStaged (parts_of self.old) }
        requires place { stands self.old.last Sort.Slots ≡ true }
        ensures staged { IfOk result (λ _. IsStaged (parts_of self.new)) }
        ensures read { (number : ℕ) → Reads result number FirstWord.Slots
            (words_after (option_map (λ r. r.now) rest.entry)) (parts_of self.old) (parts_of self.new) }
    {
        self.slots = one_number(rest, 1, 64)? as u8;
        self.last = Some(Sort::Slots);
        Ok(())
    }

    /// `rows N`.
    fn rows(&mut self, rest: Option<&[u8]>) -> Result<(), Stop>
        requires staged { IsStaged (parts_of self.old) }
        requires place { stands self.old.last Sort.Rows ≡ true }
        ensures staged { IfOk result (λ _. IsStaged (parts_of self.new)) }
        ensures read { (number : ℕ) → Reads result number FirstWord.Rows
            (words_after (option_map (λ r. r.now) rest.entry)) (parts_of self.old) (parts_of self.new) }
    {
        self.rows = one_number(rest, 1, 4000)? as u16;
        self.last = Some(Sort::Rows);
        Ok(())
    }

    /// `budget N`.
    fn budget(&mut self, rest: Option<&[u8]>) -> Result<(), Stop>
        requires staged { IsStaged (parts_of self.old) }
        requires place { stands self.old.last Sort.Budget ≡ true }
        ensures staged { IfOk result (λ _. IsStaged (parts_of self.new)) }
        ensures read { (number : ℕ) → Reads result number FirstWord.Budget
            (words_after (option_map (λ r. r.now) rest.entry)) (parts_of self.old) (parts_of self.new) }
    {
        self.budget = one_number(rest, 1, 500_000)? as u32;
        self.last = Some(Sort::Budget);
        Ok(())
    }

    /// `module NAME BASE SIZE`.
    #[tactic(auto, using(crate::proofs::Steps::distinct_modules))]
    fn module(&mut self, rest: Option<&[u8]>) -> Result<(), Stop>
        requires staged { IsStaged (parts_of self.old) }
        requires place { stands self.old.last Sort.Module ≡ true }
        ensures staged { IfOk result (λ _. IsStaged (parts_of self.new)) }
        ensures read { (number : ℕ) → Reads result number FirstWord.Module
            (words_after (option_map (λ r. r.now) rest.entry)) (parts_of self.old) (parts_of self.new) }
    {
        let module = module(rest)?;
        if has_module(&module.name, &self.modules) {
            return Err(Stop::Fault(Kind::Twice));
        }
        if self.modules.len() >= MOST_MODULES {
            return Err(Stop::Fault(Kind::TooMany));
        }
        self.modules.push(module)?;
        self.last = Some(Sort::Module);
        Ok(())
    }

    /// `occupy CREATION PAGE`.
    fn occupy(&mut self, rest: Option<&[u8]>) -> Result<(), Stop>
        requires staged { IsStaged (parts_of self.old) }
        requires place { stands self.old.last Sort.Occupy ≡ true }
        ensures staged { IfOk result (λ _. IsStaged (parts_of self.new)) }
        ensures read { (number : ℕ) → Reads result number FirstWord.Occupy
            (words_after (option_map (λ r. r.now) rest.entry)) (parts_of self.old) (parts_of self.new) }
    {
        let page = occupy(rest)?;
        if self.pages.len() >= MOST_OCCUPIED {
            return Err(Stop::Fault(Kind::TooMany));
        }
        self.pages.push(page)?;
        self.last = Some(Sort::Occupy);
        Ok(())
    }

    /// `program NAME heap N stack N`.
    fn program(&mut self, rest: Option<&[u8]>) -> Result<(), Stop>
        requires ended { IsEnded (parts_of self.old) }
        requires place { stands self.old.last Sort.Program ≡ true }
        ensures staged { IfOk result (λ _. IsStaged (parts_of self.new)) }
        ensures read { (number : ℕ) → Reads result number FirstWord.Program
            (words_after (option_map (λ r. r.now) rest.entry)) (parts_of self.old) (parts_of self.new) }
    {
        let heading = own_line(rest)?;
        if has_program(&heading.name, &self.programs) {
            return Err(Stop::Fault(Kind::Twice));
        }
        if self.programs.len() >= MOST_PROGRAMS {
            return Err(Stop::Fault(Kind::TooMany));
        }
        self.heading = Some(heading);
        self.last = Some(Sort::Program);
        Ok(())
    }

    /// An instruction.
    fn instr(&mut self, number: u32, word: InstrWord, rest: Option<&[u8]>) -> Result<(), Stop>
        requires staged { IsStaged (parts_of self.old) }
        requires place { stands self.old.last Sort.Instruction ≡ true }
        ensures staged { IfOk result (λ _. IsStaged (parts_of self.new)) }
        ensures read { Reads result number (FirstWord.Instr word)
            (words_after (option_map (λ r. r.now) rest.entry)) (parts_of self.old) (parts_of self.new) }
    {
        let instr = instruction(word, rest)?;
        if self.code.len() >= MOST_INSTRUCTIONS {
            return Err(Stop::Fault(Kind::TooMany));
        }
        self.code.extend_from_slice(&[instr])?;
        self.code_lines.push(number)?;
        self.last = Some(Sort::Instruction);
        Ok(())
    }

    /// `schedule`.
    fn schedule(&mut self, rest: Option<&[u8]>) -> Result<(), Stop>
        requires ended { IsEnded (parts_of self.old) }
        requires place { stands self.old.last Sort.Schedule ≡ true }
        ensures staged { IfOk result (λ _. IsStaged (parts_of self.new)) }
        ensures read { (number : ℕ) → Reads result number FirstWord.Schedule
            (words_after (option_map (λ r. r.now) rest.entry)) (parts_of self.old) (parts_of self.new) }
    {
        if !are_none(rest) {
            return Err(Stop::Fault(Kind::Words));
        }
        self.last = Some(Sort::Schedule);
        Ok(())
    }

    /// A line of the schedule.
    fn directive(&mut self, word: DirectiveWord, rest: Option<&[u8]>) -> Result<(), Stop>
        requires staged { IsStaged (parts_of self.old) }
        requires place { stands self.old.last Sort.Directive ≡ true }
        ensures staged { IfOk result (λ _. IsStaged (parts_of self.new)) }
        ensures read { (number : ℕ) → Reads result number (FirstWord.Directive word)
            (words_after (option_map (λ r. r.now) rest.entry)) (parts_of self.old) (parts_of self.new) }
    {
        let line = schedule_line(self.slots, word, rest)?;
        if self.schedule.len() >= MOST_LINES {
            return Err(Stop::Fault(Kind::TooMany));
        }
        self.schedule.extend_from_slice(&[line])?;
        self.last = Some(Sort::Directive);
        Ok(())
    }

    /// The script, at the end of the text, which is the line `number`.
    pub fn finish(self, number: u32) -> Result<Script, ScriptError>
        requires { IsStaged (parts_of self) }
        ensures { Finishes result number (parts_of self) }
    {
        match end_fault(self.last) {
            Some(kind) => Err(ScriptError::Fault { line: number, kind }),
            None => Ok(self.into_script()),
        }
    }

    fn into_script(self) -> Script
        requires staged { IsStaged (parts_of self) }
        requires place { stage self.last ≡ 10 }
        ensures { HasParts result (parts_of self) }
    {
        Script {
            setup: Setup {
                limits: Limits {
                    slots: self.slots,
                    rows: self.rows,
                    budget: self.budget,
                },
                modules: Modules::from_vec(self.modules),
                programs: Programs::from_vec(self.programs),
            },
            occupied: Occupied::from_vec(self.pages),
            directives: Lines::from_vec(self.schedule),
        }
    }
}
