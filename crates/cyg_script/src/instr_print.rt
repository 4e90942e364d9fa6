//! Prints the lines of instructions.

ghost use Rattle.std.specs.Prelude.{◌≡◌, ◌++◌, OnOk};
ghost use Rattle.script_spec.specs.InstrText.{instr_words};
ghost use Rattle.script_spec.specs.Print.{line_text};

use crate::line_print::{
    alone, two_words, with_handler, with_number, with_operand, with_operand_place,
    with_operand_word, with_operands, with_register, with_register_operand, with_restart,
    with_word_operand,
};
use std::alloc::Global;
use w32_base::{Action, Instr, MaskChange, Memory, Operand};

/// The line of `action`.
fn action_line(
    alloc: Global,
    out: &mut Vec<u8>,
    signal: Operand,
    action: Action,
) -> Result<(), Memory>
    ensures { OnOk result (out.new.items ≡ out.old.items ++ line_text (instr_words (Instr.Action signal action))) }
{
    match action {
        Action::Default => with_operand_word(alloc, out, b"action", signal, b"default"),
        Action::Ignore => with_operand_word(alloc, out, b"action", signal, b"ignore"),
        Action::Handler(place, false) => with_handler(alloc, out, signal, place),
        Action::Handler(place, true) => with_restart(alloc, out, signal, place),
    }
}

/// The line of `mask`.
fn mask_line(alloc: Global, out: &mut Vec<u8>, change: MaskChange, v: Operand) -> Result<(), Memory>
    ensures { OnOk result (out.new.items ≡ out.old.items ++ line_text (instr_words (Instr.Mask change v))) }
{
    match change {
        MaskChange::Block => with_word_operand(alloc, out, b"mask", b"block", v),
        MaskChange::Unblock => with_word_operand(alloc, out, b"mask", b"unblock", v),
        MaskChange::Set => with_word_operand(alloc, out, b"mask", b"set", v),
    }
}

/// The line of an instruction.
pub fn instr_line(alloc: Global, out: &mut Vec<u8>, instr: Instr) -> Result<(), Memory>
    ensures { OnOk result (out.new.items ≡ out.old.items ++ line_text (instr_words instr)) }
{
    match instr {
        Instr::Set(r, v) => with_register_operand(alloc, out, b"set", r, v),
        Instr::Add(r, v) => with_register_operand(alloc, out, b"add", r, v),
        Instr::Load(r, v) => with_register_operand(alloc, out, b"load", r, v),
        Instr::Store(u, v) => with_operands(alloc, out, b"store", u, v),
        Instr::Push(v) => with_operand(alloc, out, b"push", v),
        Instr::Pop(r) => with_register(out, b"pop", r),
        Instr::Jump(n) => with_number(alloc, out, b"jump", u64::from(n)),
        Instr::JumpZero(v, n) => with_operand_place(alloc, out, b"jzero", v, n),
        Instr::JumpNegative(v, n) => with_operand_place(alloc, out, b"jneg", v, n),
        Instr::GetPid => alone(out, b"getpid"),
        Instr::GetPpid => alone(out, b"getppid"),
        Instr::GetPgid => alone(out, b"getpgid"),
        Instr::GetSid => alone(out, b"getsid"),
        Instr::Fork => alone(out, b"fork"),
        Instr::Exec(name) => two_words(out, b"exec", name.as_slice()),
        Instr::Exit(v) => with_operand(alloc, out, b"exit", v),
        Instr::Wait(u, v) => with_operands(alloc, out, b"wait", u, v),
        Instr::Kill(u, v) => with_operands(alloc, out, b"kill", u, v),
        Instr::Action(signal, action) => action_line(alloc, out, signal, action),
        Instr::Mask(change, v) => mask_line(alloc, out, change, v),
        Instr::Suspend(v) => with_operand(alloc, out, b"suspend", v),
        Instr::Pause => alone(out, b"pause"),
        Instr::Return => alone(out, b"return"),
        Instr::SetPgid(u, v) => with_operands(alloc, out, b"setpgid", u, v),
        Instr::SetSid => alone(out, b"setsid"),
        Instr::TcSet(v) => with_operand(alloc, out, b"tcset", v),
        Instr::TcGet => alone(out, b"tcget"),
        Instr::TtyFlags(v) => with_operand(alloc, out, b"ttyflags", v),
        Instr::Read(u, v) => with_operands(alloc, out, b"read", u, v),
        Instr::Write(u, v) => with_operands(alloc, out, b"write", u, v),
    }
}
