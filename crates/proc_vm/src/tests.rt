//! Runs of small programs.

ghost use Rattle.std.specs.Prelude.{◌≡◌, ◌≤◌, IsTrue, length, IfOk};
ghost use Rattle.w32_base.specs.Targets.{is_target_below, are_targets_below};

use super::*;
use std::alloc::Global;
use std::test::Fail;
use w32_base::{Action, Bytes, Code, Instr, Name, Operand, Own, Program, Register};

/// Whether the place that an instruction names, if any, lies in a program of n instructions.
fn has_target_below(instr: &Instr, n: usize) -> bool
    ensures { result ≡ is_target_below n instr.now }
{
    match *instr {
        Instr::Jump(place) | Instr::JumpZero(_, place) | Instr::JumpNegative(_, place) =>
            (place as usize) < n,
        Instr::Action(_, Action::Handler(place, _)) => (place as usize) < n,
        _ => true,
    }
}

/// The same for each of them.
fn have_targets_below(code: &[Instr], n: usize) -> bool
    ensures { result ≡ are_targets_below n code.now }
{
    match code {
        [] => true,
        [first, rest @ ..] => has_target_below(first, n) && have_targets_below(rest, n),
    }
}

/// A program of these instructions.
fn program(alloc: Global, code: &[Instr]) -> Result<Program, Fail> {
    if code.is_empty() || code.len() > 4000 || !have_targets_below(code, code.len()) {
        return Err("a program".into());
    }
    Ok(Program {
        name: Name::try_new(b"main").ok_or("a name")?,
        heap: 70,
        stack: 64,
        code: Code::from_vec(code.to_vec(alloc)?),
    })
}

/// A new process with a heap of 70 bytes and a stack of 64, of which so many are in use.
fn memory(alloc: Global, used: u32) -> Result<Own, Fail>
    ensures { IfOk result (λ own. length own.dat ≡ 64) }
{
    let mut dat = Bytes::zeros(alloc, 64)?;
    words::set_word(&mut dat, 36, used);
    Ok(Own {
        dat,
        heap: Bytes::zeros(alloc, 70)?,
        stack: Bytes::zeros(alloc, 64)?,
        cyg: Bytes::zeros(alloc, 0)?,
        scratch: Bytes::zeros(alloc, 0)?,
    })
}

/// Whether an instruction faults as the only one of a program, with so many bytes of stack in use.
fn faults(alloc: Global, used: u32, instr: Instr) -> Result<bool, Fail> {
    let p = program(alloc, &[instr])?;
    let own = memory(alloc, used)?;
    Ok(match next_instr(&own, &p) {
        Next::Fault => true,
        _ => false,
    })
}

/// How many instructions the next block has, which is carried out.
fn block(own: &mut Own, p: &Program) -> u16
    requires { length own.old.dat ≡ 64 }
    ensures { length own.new.dat ≡ 64 }
{
    match next_instr(own, p) {
        Next::Local => run_block(own, p),
        _ => 0,
    }
}

/// How many instructions the next block has, which is carried out and taken back.
fn block_and_back(own: &mut Own, p: &Program) -> u16
    requires { length own.old.dat ≡ 64 }
    ensures { length own.new.dat ≡ 64 }
{
    let mut kept = Undo::new();
    match next_instr(own, p) {
        Next::Local => {
            let count = run_block_kept(own, p, &mut kept);
            undo_block(own, &kept);
            count
        }
        _ => 0,
    }
}

/// Writes a result where the next place allows it.
fn answer(own: &mut Own, r0: i32, r1: Option<i32>)
    requires { length own.old.dat ≡ 64 }
    ensures { length own.new.dat ≡ 64 }
{
    if next_place(own) < u32::MAX {
        set_result(own, r0, r1);
    }
}

/// Pushes a frame, where no more bytes of stack are in use than there are.
fn pushed(own: &mut Own, mask: u32, target: u16) -> Result<(), NoRoom>
    requires { length own.old.dat ≡ 64 }
    ensures { length own.new.dat ≡ 64 }
{
    if stack_in_use(own) as usize > own.stack.len() {
        return Err(NoRoom);
    }
    push_frame(own, mask, target)
}

/// Pops a frame, where no more bytes of stack are in use than there are.
fn popped(own: &mut Own) -> Result<u32, NoFrame>
    requires { length own.old.dat ≡ 64 }
    ensures { length own.new.dat ≡ 64 }
{
    if stack_in_use(own) as usize > own.stack.len() {
        return Err(NoFrame);
    }
    pop_frame(own)
}

fn number(n: i32) -> Operand {
    Operand::Number(n)
}

fn r(n: u8) -> Register {
    Register::new(n % 8)
}

#[test]
fn a_block_ends_at_256(rt: HostRuntime) -> Result<(), Fail> {
    let mut code = Vec::new(rt.alloc());
    for _ in 0..300 {
        code.push(Instr::Add(r(0), number(1)))?;
    }
    code.push(Instr::Exit(Operand::Register(r(0))))?;
    let p = program(rt.alloc(), code.as_slice())?;
    let mut own = memory(rt.alloc(), 0)?;
    assert_eq!(rt; block(&mut own, &p), 256);
    assert_eq!(rt; block(&mut own, &p), 44);
    assert_eq!(rt; block(&mut own, &p), 0);
    assert_eq!(rt; register(&own, r(0)), 300);
    assert_eq!(rt;
        next_instr(&own, &p),
        Next::Call(CallInstr::Exit(Operand::Register(r(0))))
    );
    Ok(())
}

#[test]
fn each_local_instruction(rt: HostRuntime) -> Result<(), Fail> {
    let code = [
        Instr::Set(r(0), number(2_147_483_647)),
        Instr::Add(r(0), number(1)),
        Instr::Set(r(1), Operand::Register(r(0))),
        Instr::Add(r(1), number(-1)),
        Instr::Store(number(69), number(-258)),
        Instr::Load(r(2), number(69)),
        Instr::Push(Operand::Register(r(0))),
        Instr::Push(number(258)),
        Instr::Pop(r(3)),
        Instr::JumpZero(number(0), 11),
        Instr::Exit(number(1)),
        Instr::JumpZero(number(-1), 10),
        Instr::JumpNegative(number(-1), 14),
        Instr::Exit(number(2)),
        Instr::JumpNegative(number(0), 13),
        Instr::Jump(17),
        Instr::Exit(number(3)),
        Instr::GetPid,
    ];
    let p = program(rt.alloc(), &code)?;
    let mut own = memory(rt.alloc(), 0)?;
    assert_eq!(rt; block(&mut own, &p), 14);
    assert_eq!(rt; register(&own, r(0)), -2_147_483_648);
    assert_eq!(rt; register(&own, r(1)), 2_147_483_647);
    assert_eq!(rt; own.heap.get(69), Some(254));
    assert_eq!(rt; register(&own, r(2)), 254);
    assert_eq!(rt; register(&own, r(3)), 258);
    assert_eq!(rt; stack_in_use(&own), 4);
    let stack = own.stack.as_slice();
    assert!(rt; stack.len() == 64);
    assert_eq!(rt; &stack[..9], &[0, 0, 0, 128, 2, 1, 0, 0, 0][..]);
    assert_eq!(rt; next_place(&own), 17);
    assert_eq!(rt; next_instr(&own, &p), Next::Call(CallInstr::GetPid));
    Ok(())
}

#[test]
fn each_fault_at_its_edge(rt: HostRuntime) -> Result<(), Fail> {
    let cases = [
        (0, Instr::Load(r(0), number(69)), false),
        (0, Instr::Load(r(0), number(70)), true),
        (0, Instr::Load(r(0), number(-1)), true),
        (0, Instr::Store(number(0), number(1)), false),
        (0, Instr::Store(number(70), number(1)), true),
        (60, Instr::Push(number(1)), false),
        (61, Instr::Push(number(1)), true),
        (4, Instr::Pop(r(0)), false),
        (3, Instr::Pop(r(0)), true),
        (64, Instr::Set(r(0), number(1)), false),
        (65, Instr::Set(r(0), number(1)), true),
        (40, Instr::Return, false),
        (39, Instr::Return, true),
        (0, Instr::Read(number(67), number(3)), false),
        (0, Instr::Read(number(67), number(4)), true),
        (0, Instr::Read(number(6), number(65)), false),
        (0, Instr::Read(number(7), number(65)), true),
        (0, Instr::Read(number(0), number(-1)), true),
        (0, Instr::Write(number(-1), number(1)), true),
        (0, Instr::Write(number(-1), number(0)), false),
        (0, Instr::Write(number(71), number(0)), false),
    ];
    for (used, instr, wanted) in &cases {
        assert_eq!(rt;
            faults(rt.alloc(), *used, *instr)?,
            *wanted,
            "{instr:?} with {used} in use"
        );
    }
    let p = program(rt.alloc(), &[Instr::Jump(0)])?;
    let mut own = memory(rt.alloc(), 0)?;
    assert_eq!(rt; next_instr(&own, &p), Next::Local);
    words::set_word(&mut own.dat, 32, 1);
    assert_eq!(rt; next_instr(&own, &p), Next::Fault);
    Ok(())
}

#[test]
fn a_result_is_written(rt: HostRuntime) -> Result<(), Fail> {
    let mut own = memory(rt.alloc(), 0)?;
    answer(&mut own, -4, None);
    assert_eq!(rt; register(&own, r(0)), -4);
    assert_eq!(rt; next_place(&own), 1);
    answer(&mut own, 3, Some(267));
    assert_eq!(rt; register(&own, r(0)), 3);
    assert_eq!(rt; register(&own, r(1)), 267);
    assert_eq!(rt; next_place(&own), 2);
    assert_eq!(rt; operand_value(&own, Operand::Register(r(1))), 267);
    assert_eq!(rt; program_number(&own), 0);
    Ok(())
}

#[test]
fn a_frame_is_pushed_and_popped(rt: HostRuntime) -> Result<(), Fail> {
    let mut own = memory(rt.alloc(), 0)?;
    answer(&mut own, -4, Some(7));
    assert_eq!(rt; pushed(&mut own, 0x0102_0304, 300), Ok(()));
    let stack = own.stack.as_slice();
    assert!(rt; stack.len() == 64);
    assert_eq!(rt; &stack[..9], &[252, 255, 255, 255, 7, 0, 0, 0, 0][..]);
    assert_eq!(rt; &stack[32..41], &[1, 0, 0, 0, 4, 3, 2, 1, 0][..]);
    assert_eq!(rt; next_place(&own), 300);
    assert_eq!(rt; stack_in_use(&own), 40);
    assert_eq!(rt; register(&own, r(0)), -4);
    answer(&mut own, 5, Some(6));
    assert_eq!(rt; popped(&mut own), Ok(0x0102_0304));
    assert_eq!(rt; register(&own, r(0)), -4);
    assert_eq!(rt; register(&own, r(1)), 7);
    assert_eq!(rt; next_place(&own), 1);
    assert_eq!(rt; stack_in_use(&own), 0);
    assert_eq!(rt; popped(&mut own), Err(NoFrame));
    Ok(())
}

#[test]
fn a_frame_needs_40_bytes(rt: HostRuntime) -> Result<(), Fail> {
    assert_eq!(rt; pushed(&mut memory(rt.alloc(), 24)?, 1, 1), Ok(()));
    assert_eq!(rt; pushed(&mut memory(rt.alloc(), 25)?, 1, 1), Err(NoRoom));
    assert_eq!(rt; popped(&mut memory(rt.alloc(), 40)?), Ok(0));
    assert_eq!(rt; popped(&mut memory(rt.alloc(), 39)?), Err(NoFrame));
    Ok(())
}

#[test]
fn a_block_is_taken_back(rt: HostRuntime) -> Result<(), Fail> {
    let code = [
        Instr::Store(number(0), number(9)),
        Instr::Push(number(5)),
        Instr::Add(r(0), number(1)),
        Instr::Store(number(0), number(7)),
        Instr::Exit(number(0)),
    ];
    let p = program(rt.alloc(), &code)?;
    let mut own = memory(rt.alloc(), 0)?;
    assert_eq!(rt; block_and_back(&mut own, &p), 4);
    assert_eq!(rt; own.heap.get(0), Some(0));
    assert_eq!(rt; own.stack.get(0), Some(0));
    assert_eq!(rt; stack_in_use(&own), 0);
    assert_eq!(rt; next_place(&own), 0);
    assert_eq!(rt; register(&own, r(0)), 0);
    assert_eq!(rt; block(&mut own, &p), 4);
    assert_eq!(rt; own.heap.get(0), Some(7));
    assert_eq!(rt; block_and_back(&mut own, &p), 0);
    Ok(())
}
