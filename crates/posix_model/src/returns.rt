//! The return from a handler.

ghost use Rattle.std.specs.Prelude.{◌≡◌, Some};
ghost use Rattle.posix_spec.specs.Conditions.{for_call};
ghost use Rattle.posix_spec.specs.Records.{change_record};
ghost use Rattle.posix_spec.specs.SignalCalls.{returned, return_step};
ghost use Rattle.posix_spec.specs.State.{Record, record_of as record_at};
ghost use Rattle.proc_vm.specs.Shown.{instr_of};
ghost use Rattle.posix_model.specs.Gives.{Gives};
ghost use Rattle.posix_model.specs.Handled.{HasFrame, is_return};
ghost use Rattle.posix_model.specs.Machine.{script_of, state_of};

use crate::machine::Machine;
use proc_vm::CallInstr;
use w32_base::Acting;

/// `return P`.
pub fn from_handler(m: &mut Machine, p: Acting) -> bool
    ensures { Gives (for_call (script_of m.old) (state_of m.old) p (return_step (state_of m.old) p)) result m.old
        m.new }
{
    let Some((_process, call)) = m.own_call(p) else {
        return false;
    };
    if !is_return(call) {
        return false;
    }
    m.leave_handler(p);
    true
}

/// Whether the call is a return.
fn is_return(call: CallInstr) -> bool
    ensures { result ≡ is_return (instr_of call) }
{
    matches!(call, CallInstr::Return)
}

impl Machine {
    /// The handler of the process that acts returns, where there is one.
    fn leave_handler(&mut self, p: Acting)
        requires { (r : Record) → record_at (state_of self.old) p ≡ Some r → HasFrame r }
        ensures state { state_of self.new ≡ change_record (state_of self.old) p returned }
        ensures script { script_of self.new ≡ script_of self.old }
    {
        let number = u32::from(p.get());
        if self.table.get(number).is_none() {
            return;
        }
        let mut process = self.table.take(number);
        process.leave_handler();
        self.table.put(number, process);
    }
}
