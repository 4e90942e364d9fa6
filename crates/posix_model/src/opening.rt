//! The parts of the state in which a run of a script begins.

ghost use Rattle.std.specs.Prelude.{◌≡◌, IfOk, OnOk};
ghost use Rattle.vm_spec.specs.NewImage.{new_image};
ghost use Rattle.posix_spec.specs.State.{opening_record};
ghost use Rattle.posix_model.specs.Copies.{added};
ghost use Rattle.posix_model.specs.Machine.{machine_of};
ghost use Rattle.posix_model.specs.Opened.{opened_by};
ghost use Rattle.posix_model.specs.Shown.{record_of};

use crate::images::begin_image;
use crate::machine::Machine;
use crate::marks::Marks;
use crate::process::{Life, Process, Progress, SIGNALS, Untold};
use crate::table::Table;
use bitflags::Flags;
use script_spec::Script;
use sig_sets::SigSet;
use std::alloc::Global;
use tty_line::Tty;
use w32_base::{Action, Code, Instr, Memory, Own, Pid, Program, Programs};

/// The number of the first process.
const FIRST: u16 = 2;

/// Adds an item to a copy, where there is one.
fn add<T: Copy>(copy: &mut Vec<T>, item: Option<T>) -> Result<(), Memory>
    ensures { OnOk result (copy.new.items ≡ added copy.old.items item) }
{
    match item {
        Some(x) => Ok(copy.push(x)?),
        None => Ok(()),
    }
}

/// A copy of a program.
fn copy_of(alloc: Global, program: &Program) -> Result<Program, Memory>
    ensures { IfOk result (λ copy. copy ≡ program.now) }
{
    let mut code: Vec<Instr> = Vec::with_capacity(alloc, program.code.len())?;
    for place in 0..program.code.len() {
        add(&mut code, program.code.get(place))?;
    }
    Ok(Program {
        name: program.name,
        heap: program.heap,
        stack: program.stack,
        code: Code::from_vec(code),
    })
}

/// Copies of programs.
fn copies_of(alloc: Global, programs: &Programs) -> Result<Programs, Memory>
    ensures { IfOk result (λ copies. copies ≡ programs.now) }
{
    let mut copies: Vec<Program> = Vec::with_capacity(alloc, programs.len())?;
    for program in programs.as_slice() {
        copies.push(copy_of(alloc, program)?)?;
    }
    Ok(Programs::from_vec(copies))
}

/// The first process, which runs this program.
#[tactic(auto, unfolding(posix_spec::specs::State::opening_record))]
fn first_process(alloc: Global, program: &Program) -> Result<Process, Memory>
    ensures { IfOk result (λ process. record_of process ≡ opening_record (new_image 0 program.now)) }
{
    let mut own = Own::new(alloc)?;
    begin_image(&mut own, 0, program);
    Ok(Process {
        parent: 1,
        group: Pid::new(FIRST),
        session: Pid::new(FIRST),
        terminal: true,
        execd: false,
        life: Life::Running,
        untold: Untold::Nothing,
        pending: SigSet::empty(),
        mask: SigSet::empty(),
        saved: None,
        actions: [Action::Default; SIGNALS],
        own,
        progress: Progress::Nothing,
        marks: Marks::new(alloc)?,
        blocked: false,
        due: false,
        lost: SigSet::empty(),
        owed: 0,
    })
}

/// The parts of the state in which a run of a script begins. It fails only for want of memory.
pub fn opened(alloc: Global, script: &Script) -> Result<Machine, Memory>
    ensures { IfOk result (λ machine. machine_of machine ≡ opened_by script.now) }
{
    let mut table = Table::new(alloc)?;
    let first = first_process(alloc, script.setup.programs.first())?;
    table.put(u32::from(FIRST), Box::new(alloc, first)?);
    let mut used = Marks::new(alloc)?;
    used.insert(Pid::new(FIRST));
    Ok(Machine {
        limits: script.setup.limits,
        programs: copies_of(alloc, &script.setup.programs)?,
        table,
        used,
        tty: Tty::new(),
        output: Vec::new(alloc),
        console: None,
        console_marks: Marks::new(alloc)?,
        first_status: None,
        host_came: false,
    })
}
