//! A copy of a script.

ghost use Rattle.std.specs.Prelude.{◌≡◌, IfOk, OnOk};
ghost use Rattle.script_spec.specs.Validity.{IsValid};
ghost use Rattle.w32_opening.specs.ScriptCopies.{added};

use script_spec::{Lines, Occupied, Script};
use std::alloc::Global;
use w32_base::{Code, Instr, Memory, Modules, Program, Programs, Setup};

/// A copy of a script. It fails only for want of memory.
pub fn script_of(alloc: Global, script: &Script) -> Result<Script, Memory>
    requires { IsValid script.now }
    ensures { IfOk result (λ copy. copy ≡ script.now) }
{
    let modules = Vec::from_slice(alloc, script.setup.modules.as_slice())?;
    let programs = programs_of(alloc, &script.setup.programs)?;
    let pages = Vec::from_slice(alloc, script.occupied.as_slice())?;
    let lines = Vec::from_slice(alloc, script.directives.as_slice())?;
    Ok(Script {
        setup: Setup {
            limits: script.setup.limits,
            modules: Modules::from_vec(modules),
            programs,
        },
        occupied: Occupied::from_vec(pages),
        directives: Lines::from_vec(lines),
    })
}

// Copies of programs.
fn programs_of(alloc: Global, programs: &Programs) -> Result<Programs, Memory>
    ensures { IfOk result (λ copies. copies ≡ programs.now) }
{
    let mut copies: Vec<Program> = Vec::with_capacity(alloc, programs.len())?;
    for program in programs.as_slice() {
        copies.push(program_of(alloc, program)?)?;
    }
    Ok(Programs::from_vec(copies))
}

// A copy of a program.
fn program_of(alloc: Global, program: &Program) -> Result<Program, Memory>
    ensures { IfOk result (λ copy. copy ≡ program.now) }
{
    let mut code: Vec<Instr> = Vec::with_capacity(alloc, program.code.len())?;
    for place in 0..program.code.len() {
        add(&mut code, program.code.get(place))?;
    }
    Ok(Program {
        name: program.name,
        heap: program.heap,
        stack: program.stack,
        code: Code::from_vec(code),
    })
}

// Adds an item to a copy, where there is one.
fn add<T: Copy>(copy: &mut Vec<T>, item: Option<T>) -> Result<(), Memory>
    ensures { OnOk result (copy.new.items ≡ added copy.old.items item) }
{
    match item {
        Some(x) => Ok(copy.push(x)?),
        None => Ok(()),
    }
}
