//! Blocks of local instructions, and the calls that tell a process of itself.

ghost use Rattle.posix_spec.specs.Conditions.{for_call};
ghost use Rattle.std.specs.Prelude.{◌≡◌};
ghost use Rattle.posix_spec.specs.OwnSteps.{told, get_step};
ghost use Rattle.proc_vm.specs.Shown.{instr_of};
ghost use Rattle.posix_model.specs.Shown.{record_of};
ghost use Rattle.posix_model.specs.Machine.{script_of, state_of};
ghost use Rattle.posix_model.specs.Gives.{Gives};

use crate::machine::Machine;
use crate::numbers::is_number;
use crate::process::Process;
use proc_vm::CallInstr;
use w32_base::{Acting, Field, Number};

/// `get P FIELD V`.
pub fn get(m: &mut Machine, p: Acting, field: Field, v: Number) -> bool
    ensures { Gives (for_call (script_of m.old) (state_of m.old) p (get_step (state_of m.old) p field v)) result
        m.old m.new }
{
    let Some((process, call)) = m.own_call(p) else {
        return false;
    };
    match told(m, p, process, field, call) {
        Some(value) if is_number(v, u32::from(value)) => {
            m.answer_with(p, value);
            true
        }
        _ => false,
    }
}

/// What the call tells, where it asks for this field.
fn told(m: &Machine, p: Acting, process: &Process, field: Field, call: CallInstr) -> Option<u16>
    ensures { result ≡ told (state_of m.now) p (record_of process.now) field (instr_of call) }
{
    match (field, call) {
        (Field::Pid, CallInstr::GetPid) => Some(p.get()),
        (Field::Ppid, CallInstr::GetPpid) => Some(m.shown_parent(process)),
        (Field::Pgid, CallInstr::GetPgid) => Some(process.group.get()),
        (Field::Sid, CallInstr::GetSid) => Some(process.session.get()),
        (Field::Foreground, CallInstr::TcGet) if process.terminal => Some(m.tty.state().fg.get()),
        _ => None,
    }
}
