//! Prints a script.

ghost use Rattle.std.specs.Prelude.{◌≡◌, ◌++◌, IfOk, OnOk, map};
ghost use Rattle.script_spec.specs.InstrText.{instr_words};
ghost use Rattle.script_spec.specs.Print.{limits_words, module_words, occupied_words, program_lines};
ghost use Rattle.script_spec.specs.Print.{programs_lines, directive_words, schedule_words, print_of, words_text};
ghost use Rattle.script_spec.specs.Print.{line_text};

use crate::instr_print::instr_line;
use crate::line_print::{alone, with_key, with_name, with_number, with_numbers, with_sizes};
use script_spec::{OccupiedPage, ScheduleLine, Script};
use std::alloc::Global;
use w32_base::{Code, Directive, Limits, Memory, Module, Program};

/// The lines of the limits.
fn limits_lines(alloc: Global, out: &mut Vec<u8>, limits: &Limits) -> Result<(), Memory>
    ensures { OnOk result (out.new.items ≡ out.old.items ++ words_text (limits_words limits.now)) }
{
    out.extend_from_slice(b"cygscript 1\n")?;
    with_number(alloc, out, b"slots", u64::from(limits.slots))?;
    with_number(alloc, out, b"rows", u64::from(limits.rows))?;
    with_number(alloc, out, b"budget", u64::from(limits.budget))
}

/// The lines of the modules.
fn module_lines(alloc: Global, out: &mut Vec<u8>, modules: &[Module]) -> Result<(), Memory>
    ensures { OnOk result (out.new.items ≡ out.old.items ++ words_text (map module_words modules.now)) }
{
    for module in modules {
        with_name(
            alloc,
            out,
            b"module",
            module.name.as_slice(),
            u64::from(module.base),
            u64::from(module.size),
        )?;
    }
    Ok(())
}

/// The lines of the occupied pages.
fn page_lines(alloc: Global, out: &mut Vec<u8>, pages: &[OccupiedPage]) -> Result<(), Memory>
    ensures { OnOk result (out.new.items ≡ out.old.items ++ words_text (map occupied_words pages.now)) }
{
    for page in pages {
        with_numbers(
            alloc,
            out,
            b"occupy",
            u64::from(page.creation),
            u64::from(page.page),
        )?;
    }
    Ok(())
}

/// The lines of a program's instructions.
fn code_lines(alloc: Global, out: &mut Vec<u8>, code: &Code) -> Result<(), Memory>
    ensures { OnOk result (out.new.items ≡ out.old.items ++ words_text (map instr_words code.now)) }
{
    for place in 0..code.len() {
        match code.get(place) {
            Some(instr) => instr_line(alloc, out, instr)?,
            None => break,
        }
    }
    Ok(())
}

/// The lines of a program.
fn program_lines(alloc: Global, out: &mut Vec<u8>, program: &Program) -> Result<(), Memory>
    ensures { OnOk result (out.new.items ≡ out.old.items ++ words_text (program_lines program.now)) }
{
    with_sizes(
        alloc,
        out,
        program.name.as_slice(),
        u64::from(program.heap),
        u64::from(program.stack),
    )?;
    code_lines(alloc, out, &program.code)
}

/// The lines of the programs.
fn programs_lines(alloc: Global, out: &mut Vec<u8>, programs: &[Program]) -> Result<(), Memory>
    ensures { OnOk result (out.new.items ≡ out.old.items ++ words_text (programs_lines programs.now)) }
{
    for program in programs {
        program_lines(alloc, out, program)?;
    }
    Ok(())
}

/// The line of a directive.
fn directive_line(alloc: Global, out: &mut Vec<u8>, directive: Directive) -> Result<(), Memory>
    ensures { OnOk result (out.new.items ≡ out.old.items ++ line_text (directive_words directive)) }
{
    match directive {
        Directive::Turn(slot, thread) => with_numbers(
            alloc,
            out,
            b"turn",
            u64::from(slot.get()),
            u64::from(thread.get()),
        ),
        Directive::End(slot) => with_number(alloc, out, b"end", u64::from(slot.get())),
        Directive::Key(byte) => with_key(out, byte),
    }
}

/// A line of the schedule.
fn schedule_line(alloc: Global, out: &mut Vec<u8>, line: ScheduleLine) -> Result<(), Memory>
    ensures { OnOk result (out.new.items ≡ out.old.items ++ line_text (schedule_words line)) }
{
    match line {
        ScheduleLine::Given(directive) => directive_line(alloc, out, directive),
        ScheduleLine::Steps(turns) => with_number(alloc, out, b"steps", u64::from(turns)),
        ScheduleLine::Settle => alone(out, b"settle"),
    }
}

/// The lines of the schedule after its first one.
fn schedule_lines(alloc: Global, out: &mut Vec<u8>, lines: &[ScheduleLine]) -> Result<(), Memory>
    ensures { OnOk result (out.new.items ≡ out.old.items ++ words_text (map schedule_words lines.now)) }
{
    for line in lines {
        schedule_line(alloc, out, *line)?;
    }
    Ok(())
}

/// The canonical print of a script.
pub fn print_script(alloc: Global, script: &Script) -> Result<Vec<u8>, Memory>
    ensures { IfOk result (λ bytes. bytes.items ≡ print_of script.now) }
{
    let mut out = Vec::new(alloc);
    limits_lines(alloc, &mut out, &script.setup.limits)?;
    module_lines(alloc, &mut out, script.setup.modules.as_slice())?;
    page_lines(alloc, &mut out, script.occupied.as_slice())?;
    programs_lines(alloc, &mut out, script.setup.programs.as_slice())?;
    alone(&mut out, b"schedule")?;
    schedule_lines(alloc, &mut out, script.directives.as_slice())?;
    Ok(out)
}
