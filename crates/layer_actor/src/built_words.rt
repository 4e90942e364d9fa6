//! Whether a script keeps to what the parts are built for.

ghost use Rattle.std.specs.Prelude.{◌≡◌};
ghost use Rattle.std.specs.List.{list_all};
ghost use Rattle.layer_actor.specs.Built.{is_built, is_built_instr, is_built_kill, is_built_line, is_built_program};

use script_spec::{ScheduleLine, Script};
use w32_base::{Code, Directive, Instr, Operand, Program};

// Whether a `kill` asks with the number 0 for a process of a number above 0, neither from a register.
fn is_built_kill(target: Operand, signal: Operand) -> bool
    ensures { result ≡ is_built_kill target signal }
{
    match target {
        Operand::Number(target) => match signal {
            Operand::Number(signal) => target > 0 && signal == 0,
            Operand::Register(_) => false,
        },
        Operand::Register(_) => false,
    }
}

// Whether an instruction is local, or a call that is built.
fn is_built_instr(instr: Instr) -> bool
    ensures { result ≡ is_built_instr instr }
{
    match instr {
        Instr::Set(_, _)
        | Instr::Add(_, _)
        | Instr::Load(_, _)
        | Instr::Store(_, _)
        | Instr::Push(_)
        | Instr::Pop(_)
        | Instr::Jump(_)
        | Instr::JumpZero(_, _)
        | Instr::JumpNegative(_, _)
        | Instr::GetPid
        | Instr::GetPpid
        | Instr::GetPgid
        | Instr::GetSid
        | Instr::Exit(_) => true,
        Instr::Kill(target, signal) => is_built_kill(target, signal),
        Instr::Fork
        | Instr::Exec(_)
        | Instr::Wait(_, _)
        | Instr::Action(_, _)
        | Instr::Mask(_, _)
        | Instr::Suspend(_)
        | Instr::Pause
        | Instr::Return
        | Instr::SetPgid(_, _)
        | Instr::SetSid
        | Instr::TcSet(_)
        | Instr::TcGet
        | Instr::TtyFlags(_)
        | Instr::Read(_, _)
        | Instr::Write(_, _) => false,
    }
}

// Whether all instructions of a program are.
fn are_built(code: &Code) -> bool
    ensures { result ≡ list_all is_built_instr code.now }
{
    for place in 0..code.len() {
        match code.get(place) {
            Some(instr) => {
                if !is_built_instr(instr) {
                    return false;
                }
            }
            None => break,
        }
    }
    true
}

fn are_built_programs(programs: &[Program]) -> bool
    ensures { result ≡ list_all is_built_program programs.now }
{
    programs.iter().all(|program| are_built(&program.code))
}

// Whether a line of a schedule gives no key.
fn is_built_line(line: ScheduleLine) -> bool
    ensures { result ≡ is_built_line line }
{
    match line {
        ScheduleLine::Given(Directive::Key(_)) => false,
        ScheduleLine::Given(_) | ScheduleLine::Steps(_) | ScheduleLine::Settle => true,
    }
}

fn are_built_lines(lines: &[ScheduleLine]) -> bool
    ensures { result ≡ list_all is_built_line lines.now }
{
    lines.iter().all(|line| is_built_line(*line))
}

/// Whether a script keeps to what the parts are built for: its programs have local instructions, the calls that tell a
/// number, `exit`, and `kill` with a number above 0 and the signal 0; and its schedule gives no key.
pub fn built(script: &Script) -> bool
    ensures { result ≡ is_built script.now }
{
    are_built_programs(script.setup.programs.as_slice())
        && are_built_lines(script.directives.as_slice())
}
