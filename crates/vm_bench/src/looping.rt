//! The loop program and its memory.

ghost use Rattle.std.specs.Prelude.{◌≡◌, length, IfOk};

use anyhow::{Context, Result};
use std::alloc::{AllocError, Global};
use w32_base::{Bytes, Code, Instr, Name, Operand, Own, Program, Register};

/// How many bytes the heap has.
const HEAP: u16 = 32_768;

/// How many bytes the stack has.
const STACK: u16 = 64;

/// A program that goes over its heap again and again: it adds the address to each byte and stores it, and adds the
/// byte to r3 by way of the stack. It has each kind of local instruction and never ends.
pub fn loop_program(alloc: Global) -> Result<Program> {
    let (address, byte, copied, sum, left) = (
        Register::new(0),
        Register::new(1),
        Register::new(2),
        Register::new(3),
        Register::new(4),
    );
    let code = [
        Instr::Set(address, Operand::Number(0)),
        Instr::Load(byte, Operand::Register(address)),
        Instr::Add(byte, Operand::Register(address)),
        Instr::Store(Operand::Register(address), Operand::Register(byte)),
        Instr::Push(Operand::Register(byte)),
        Instr::Pop(copied),
        Instr::JumpZero(Operand::Register(copied), 8),
        Instr::Add(sum, Operand::Register(copied)),
        Instr::Add(address, Operand::Number(1)),
        Instr::Set(left, Operand::Register(address)),
        Instr::Add(left, Operand::Number(-32_768)),
        Instr::JumpNegative(Operand::Register(left), 1),
        Instr::Jump(0),
    ];
    Ok(Program {
        name: Name::try_new(b"loop").context("a name")?,
        heap: HEAP,
        stack: STACK,
        code: Code::from_vec(code.to_vec(alloc)?),
    })
}

/// The memory of a new process: zeros.
pub fn loop_memory(alloc: Global) -> Result<Own, AllocError>
    ensures { IfOk result (λ own. length own.dat ≡ 64) }
{
    Ok(Own {
        dat: Bytes::zeros(alloc, 64)?,
        heap: Bytes::zeros(alloc, HEAP as usize)?,
        stack: Bytes::zeros(alloc, STACK as usize)?,
        cyg: Bytes::zeros(alloc, 0)?,
        scratch: Bytes::zeros(alloc, 0)?,
    })
}
