//! Process programs: their instructions.

ghost use Rattle.std.specs.Prelude.{◌≡◌, ◌<◌, ◌≤◌, ◌↔◌, IsSome, IfSome};

use crate::names::Name;
use std::marker::Model;

/// A register, `r0` to `r7`.
#[derive(Clone, Copy, Debug, PartialEq, Eq, PartialOrd, Ord)]
pub struct Register(u8);

impl Model for Register {
    ghost use Rattle.std.specs.Prelude.{ℕ, ◌<◌};

    ghost Value = { ℕ };

    ghost view = { λ r. r.0 };

    ghost invariant = { λ r. r.0 < 8 };

    ghost inverse = { λ n. record { 0 = n } };
}

impl Register {
    /// The register with this number.
    pub fn new(number: u8) -> Register
        requires { number < 8 }
        ensures { result ≡ number }
    {
        Register(number)
    }

    /// The register with this number, or none where there is none.
    pub fn try_new(number: u8) -> Option<Register>
        ensures valid { IsSome result ↔ (number < 8) }
        ensures value { IfSome result (λ r. r ≡ number) }
    {
        if number < 8 {
            Some(Register(number))
        } else {
            None
        }
    }

    /// The number.
    pub fn get(self) -> u8
        ensures value { result ≡ self }
        ensures range { self < 8 }
    {
        self.0
    }
}

/// An operand, whose text is a register or a number.
#[derive(Clone, Copy, Debug, PartialEq, Eq)]
pub enum Operand {
    /// What the register holds.
    Register(Register),
    /// The number itself.
    Number(i32),
}

/// What a process does at a signal.
#[derive(Clone, Copy, Debug, PartialEq, Eq)]
pub enum Action {
    /// The signal's default.
    Default,
    /// Nothing.
    Ignore,
    /// The handler at this place of the program, and whether a call that it interrupts begins again.
    Handler(u16, bool),
}

/// How `mask` changes the signal mask.
#[derive(Clone, Copy, Debug, PartialEq, Eq)]
pub enum MaskChange {
    /// Adds the signals.
    Block,
    /// Takes them away.
    Unblock,
    /// Sets the mask.
    Set,
}

/// An instruction of a process program. A place is that of an instruction of the same program, from 0.
#[derive(Clone, Copy, Debug, PartialEq, Eq)]
pub enum Instr {
    /// `set R V`: R becomes V.
    Set(Register, Operand),
    /// `add R V`: R becomes R + V, wrapped to 32 bits.
    Add(Register, Operand),
    /// `load R V`: R becomes the heap byte at V.
    Load(Register, Operand),
    /// `store V V`: the heap byte at the first becomes the low 8 bits of the second.
    Store(Operand, Operand),
    /// `push V`: adds four bytes to the stack.
    Push(Operand),
    /// `pop R`: takes four bytes off the stack.
    Pop(Register),
    /// `jump N`: goes to place N.
    Jump(u16),
    /// `jzero V N`: goes to place N where V is 0.
    JumpZero(Operand, u16),
    /// `jneg V N`: goes to place N where V is below 0.
    JumpNegative(Operand, u16),
    /// `getpid`: the process number.
    GetPid,
    /// `getppid`: the parent's number.
    GetPpid,
    /// `getpgid`: the process group.
    GetPgid,
    /// `getsid`: the session.
    GetSid,
    /// `fork`: makes a child.
    Fork,
    /// `exec NAME`: runs another program.
    Exec(Name),
    /// `exit V`: ends with the low 8 bits of V.
    Exit(Operand),
    /// `wait V V`: waits for the children that the selector names, with flags.
    Wait(Operand, Operand),
    /// `kill V V`: sends a signal to a process or a group.
    Kill(Operand, Operand),
    /// `action V ACTION`: sets what a signal does.
    Action(Operand, Action),
    /// `mask CHANGE V`: changes the signal mask.
    Mask(MaskChange, Operand),
    /// `suspend V`: sets the mask and waits for a signal.
    Suspend(Operand),
    /// `pause`: waits for a signal.
    Pause,
    /// `return`: leaves a handler.
    Return,
    /// `setpgid V V`: sets the group of a process.
    SetPgid(Operand, Operand),
    /// `setsid`: begins a session.
    SetSid,
    /// `tcset V`: sets the foreground group.
    TcSet(Operand),
    /// `tcget`: the foreground group.
    TcGet,
    /// `ttyflags V`: sets the terminal's flags.
    TtyFlags(Operand),
    /// `read V V`: reads from the terminal to a heap address, up to a count.
    Read(Operand, Operand),
    /// `write V V`: writes from a heap address to the terminal.
    Write(Operand, Operand),
}
