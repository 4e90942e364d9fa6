//! What is next in a program: a local instruction, a call or an image fault.

ghost use Rattle.std.specs.Prelude.{◌≡◌, ℕ, ◌+◌, ◌<◌, ◌≤◌, length, Some};
ghost use Rattle.vm_spec.specs.Faults.{instr_faults, is_outside, is_range_outside};
ghost use Rattle.vm_spec.specs.Image.{image_of};
ghost use Rattle.vm_spec.specs.Step.{upcoming, upcoming_at};
ghost use Rattle.proc_vm.specs.Shown.{shown};

use crate::readers::{next_place, operand_value, stack_in_use};
use w32_base::{Action, Instr, MaskChange, Name, Operand, Own, Program};

/// An instruction that isn't local: a call. Each case has the values of its text, in that order.
#[derive(Clone, Copy, Debug, PartialEq, Eq)]
pub enum CallInstr {
    /// `getpid`: the process number.
    GetPid,
    /// `getppid`: the parent's number.
    GetPpid,
    /// `getpgid`: the process group.
    GetPgid,
    /// `getsid`: the session.
    GetSid,
    /// `fork`: makes a child.
    Fork,
    /// `exec NAME`: runs another program.
    Exec(Name),
    /// `exit V`: ends with the low 8 bits of V.
    Exit(Operand),
    /// `wait V V`: waits for the children that the selector names, with flags.
    Wait(Operand, Operand),
    /// `kill V V`: sends a signal to a process or a group.
    Kill(Operand, Operand),
    /// `action V ACTION`: sets what a signal does.
    Action(Operand, Action),
    /// `mask CHANGE V`: changes the signal mask.
    Mask(MaskChange, Operand),
    /// `suspend V`: sets the mask and waits for a signal.
    Suspend(Operand),
    /// `pause`: waits for a signal.
    Pause,
    /// `return`: leaves a handler.
    Return,
    /// `setpgid V V`: sets the group of a process.
    SetPgid(Operand, Operand),
    /// `setsid`: begins a session.
    SetSid,
    /// `tcset V`: sets the foreground group.
    TcSet(Operand),
    /// `tcget`: the foreground group.
    TcGet,
    /// `ttyflags V`: sets the terminal's flags.
    TtyFlags(Operand),
    /// `read V V`: reads from the terminal to a heap address, up to a count.
    Read(Operand, Operand),
    /// `write V V`: writes from a heap address to the terminal.
    Write(Operand, Operand),
}

/// What is next in a program.
#[derive(Clone, Copy, Debug, PartialEq, Eq)]
pub enum Next {
    /// A local instruction, which doesn't fault.
    Local,
    /// This call, which doesn't fault.
    Call(CallInstr),
    /// An image fault.
    Fault,
}

/// What is next in the process's program: a local instruction, a call, or an image fault.
#[tactic(auto, unfolding(vm_spec::specs::Step::upcoming))]
pub fn next_instr(own: &Own, p: &Program) -> Next
    requires { length own.now.dat ≡ 64 }
    ensures { shown result ≡ upcoming p.now.code (image_of own.now) }
{
    if stack_in_use(own) as usize > own.stack.len() {
        return Next::Fault;
    }
    match p.code.get(next_place(own) as usize) {
        Some(instr) => {
            if is_refused(own, &instr) {
                Next::Fault
            } else {
                classified(instr)
            }
        }
        None => Next::Fault,
    }
}

/// Whether this instruction faults, where no more bytes of stack are in use than the stack has.
fn is_refused(own: &Own, instr: &Instr) -> bool
    requires { length own.now.dat ≡ 64 }
    ensures { result ≡ instr_faults instr.now (image_of own.now) }
{
    match *instr {
        Instr::Load(_, address) | Instr::Store(address, _) => {
            is_outside(own.heap.len(), operand_value(own, address))
        }
        Instr::Push(_) => stack_in_use(own) as usize + 4 > own.stack.len(),
        Instr::Pop(_) => stack_in_use(own) < 4,
        Instr::Return => stack_in_use(own) < 40,
        Instr::Read(address, count) | Instr::Write(address, count) => {
            is_range_outside(
                own.heap.len(),
                operand_value(own, address),
                operand_value(own, count),
            )
        }
        _ => false,
    }
}

/// Whether an address is that of no byte in a region of this size.
fn is_outside(size: usize, address: i32) -> bool
    ensures { result ≡ is_outside size address }
{
    address < 0 || address as usize >= size
}

/// Whether a range has a byte outside a region of this size, or its count is below 0. Of a count above 64 it has 64
/// bytes.
fn is_range_outside(size: usize, address: i32, count: i32) -> bool
    ensures { result ≡ is_range_outside size address count }
{
    if count <= 0 {
        return count < 0;
    }
    address < 0 || address as usize + count.min(64) as usize > size
}

/// What an instruction is that doesn't fault.
fn classified(instr: Instr) -> Next
    ensures { shown result ≡ upcoming_at (Some instr) }
{
    match instr {
        Instr::Set(..)
        | Instr::Add(..)
        | Instr::Load(..)
        | Instr::Store(..)
        | Instr::Push(..)
        | Instr::Pop(..)
        | Instr::Jump(..)
        | Instr::JumpZero(..)
        | Instr::JumpNegative(..) => Next::Local,
        Instr::GetPid => Next::Call(CallInstr::GetPid),
        Instr::GetPpid => Next::Call(CallInstr::GetPpid),
        Instr::GetPgid => Next::Call(CallInstr::GetPgid),
        Instr::GetSid => Next::Call(CallInstr::GetSid),
        Instr::Fork => Next::Call(CallInstr::Fork),
        Instr::Exec(name) => Next::Call(CallInstr::Exec(name)),
        Instr::Exit(v) => Next::Call(CallInstr::Exit(v)),
        Instr::Wait(which, flags) => Next::Call(CallInstr::Wait(which, flags)),
        Instr::Kill(target, signal) => Next::Call(CallInstr::Kill(target, signal)),
        Instr::Action(signal, action) => Next::Call(CallInstr::Action(signal, action)),
        Instr::Mask(change, v) => Next::Call(CallInstr::Mask(change, v)),
        Instr::Suspend(v) => Next::Call(CallInstr::Suspend(v)),
        Instr::Pause => Next::Call(CallInstr::Pause),
        Instr::Return => Next::Call(CallInstr::Return),
        Instr::SetPgid(process, group) => Next::Call(CallInstr::SetPgid(process, group)),
        Instr::SetSid => Next::Call(CallInstr::SetSid),
        Instr::TcSet(v) => Next::Call(CallInstr::TcSet(v)),
        Instr::TcGet => Next::Call(CallInstr::TcGet),
        Instr::TtyFlags(v) => Next::Call(CallInstr::TtyFlags(v)),
        Instr::Read(address, count) => Next::Call(CallInstr::Read(address, count)),
        Instr::Write(address, count) => Next::Call(CallInstr::Write(address, count)),
    }
}
