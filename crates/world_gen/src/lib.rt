//! Scripts that are made for a number of forks.
#![tactic(auto)]

ghost use Rattle.std.specs.Prelude.{◌≡◌, ◌≤◌, ◌+◌, ◌*◌, ◌∷◌, [], IfOk};
ghost use Rattle.world_gen.specs.Forks.{instructions_of, IsForking, one_fork as fork_and_wait, forks as forks_of};
ghost use Rattle.world_gen.specs.Parts.{IsMainOf, IsSetupOf};
ghost use Rattle.script_spec.specs.declared.script.ScheduleLine.TheVariants.{Settle};

use script_spec::{Lines, Occupied, ScheduleLine, Script};
use std::alloc::Global;
use w32_base::{
    Code, Instr, Limits, Memory, Modules, Name, Operand, Program, Programs, Register, Setup,
};

/// How many forks a script may be made for.
pub const MOST_FORKS: u16 = 500;

/// How many slots the script has: one for the parent, and one for the child that it waits for.
const SLOTS: u8 = 2;

/// How many entries the script's journal may have.
const BUDGET: u32 = 500_000;

/// How many bytes the program's heap and its stack have.
const BYTES: u16 = 64;

// The first register.
fn first_register() -> Operand
    ensures { result ≡ Operand.Register 0 }
{
    Operand::Register(Register::new(0))
}

// A fork, whose child goes to a place of the program and whose parent waits for it.
fn one_fork(child: u16) -> [Instr; 3]
    ensures { result ≡ fork_and_wait child }
{
    [
        Instr::Fork,
        Instr::JumpZero(first_register(), child),
        Instr::Wait(first_register(), Operand::Number(0)),
    ]
}

// So many of them.
#[tactic(auto, using(crate::proofs::Rounds::one_more))]
fn forks(alloc: Global, child: u16, n: u16) -> Result<Vec<Instr>, Memory>
    ensures { IfOk result (λ code. code.items ≡ forks_of child n) }
{
    let mut code = Vec::new(alloc);
    for _fork in 0..n {
        code.extend_from_slice(&one_fork(child))?;
    }
    Ok(code)
}

// The instructions of the program.
fn instructions(alloc: Global, n: u16) -> Result<Vec<Instr>, Memory>
    requires { n ≤ MOST_FORKS }
    ensures { IfOk result (λ code. code.items ≡ instructions_of n) }
{
    let mut code = forks(alloc, 3 * n + 1, n)?;
    let end = [
        Instr::Exit(Operand::Number(0)),
        Instr::GetPid,
        Instr::Exit(first_register()),
    ];
    code.extend_from_slice(&end)?;
    Ok(code)
}

// The program `main`.
fn main_program(alloc: Global, n: u16) -> Result<Program, Memory>
    requires { n ≤ MOST_FORKS }
    ensures { IfOk result (λ program. IsMainOf n program) }
{
    let code = instructions(alloc, n)?;
    Ok(Program {
        name: Name::try_new(b"main").unwrap(),
        heap: BYTES,
        stack: BYTES,
        code: Code::from_vec(code),
    })
}

// This program alone.
fn only(alloc: Global, program: Program) -> Result<Programs, Memory>
    ensures { IfOk result (λ programs. programs ≡ program ∷ []) }
{
    let mut programs = Vec::new(alloc);
    programs.push(program)?;
    Ok(Programs::from_vec(programs))
}

// What all processes know of the script.
fn setup(alloc: Global, n: u16) -> Result<Setup, Memory>
    requires { n ≤ MOST_FORKS }
    ensures { IfOk result (λ setup. IsSetupOf n setup) }
{
    Ok(Setup {
        limits: Limits {
            slots: SLOTS,
            rows: n + 1,
            budget: BUDGET,
        },
        modules: Modules::from_vec(Vec::new(alloc)),
        programs: only(alloc, main_program(alloc, n)?)?,
    })
}

// A schedule that gives turns until nobody can take one.
fn schedule(alloc: Global) -> Result<Lines, Memory>
    ensures { IfOk result (λ lines. lines ≡ Settle ∷ []) }
{
    let mut lines = Vec::new(alloc);
    lines.extend_from_slice(&[ScheduleLine::Settle])?;
    Ok(Lines::from_vec(lines))
}

/// The script in which one process forks `n` times, 1 to 500, and waits for each child before the next fork. Each child
/// looks at its number and ends with it. It fails only for want of memory.
pub fn make(alloc: Global, n: u16) -> Result<Script, Memory>
    requires { (1 ≤ n) × (n ≤ MOST_FORKS) }
    ensures { IfOk result (λ script. IsForking n script) }
{
    Ok(Script {
        setup: setup(alloc, n)?,
        occupied: Occupied::from_vec(Vec::new(alloc)),
        directives: schedule(alloc)?,
    })
}

#[cfg(test)]
mod tests;
