//! The handlers that signals begin.

ghost use Rattle.std.specs.Prelude.{◌≡◌, MatchOption, Some, None, true};
ghost use Rattle.vm_spec.specs.Frames.{has_frame_room};
ghost use Rattle.proc_vm.specs.Shown.{shown};
ghost use Rattle.posix_spec.specs.Conditions.{for_process};
ghost use Rattle.posix_spec.specs.Records.{change_record};
ghost use Rattle.posix_spec.specs.SignalActs as spec;
ghost use Rattle.posix_spec.specs.State.{Record, record_of as record_at};
ghost use Rattle.posix_model.specs.Gives.{Gives};
ghost use Rattle.posix_model.specs.Handlings.{handling_of};
ghost use Rattle.posix_model.specs.Machine.{script_of, state_of};
ghost use Rattle.posix_model.specs.Shown.{record_of};

use crate::change::Signal;
use crate::handlers::Handling;
use crate::machine::Machine;
use crate::process::Process;
use proc_vm::{CallInstr, Next};
use w32_base::{Acting, Action, Delivery};

/// `deliver P S plain`, `deliver P S eintr`.
pub fn deliver(m: &mut Machine, p: Acting, signal: u32, how: Delivery) -> bool
    ensures { Gives (for_process (state_of m.old) p
        (spec.deliver_step (script_of m.old) (state_of m.old) p how signal)) result m.old m.new }
{
    let Some(process) = m.process(p) else {
        return false;
    };
    let Some(number) = process.deliverable_as(signal) else {
        return false;
    };
    if process.is_in_group_call() {
        return false;
    }
    let Some(handling) = handling_of(m, process, number, how) else {
        return false;
    };
    m.enter_handler(p, handling);
    true
}

/// The beginning of the signal's handler, where it has one, whose frame has room, and that begins like this.
fn handling_of(m: &Machine, process: &Process, signal: Signal, how: Delivery) -> Option<Handling>
    ensures { MatchOption result (handling_of (script_of m.now) (record_of process.now) how signal.number ≡ None)
        (λ h. (handling_of (script_of m.now) (record_of process.now) how signal.number ≡ Some (h.interrupted, h.target))
        × (h.signal.number ≡ signal.number)) }
{
    let Action::Handler(target, restart) = process.action(signal.number) else {
        return None;
    };
    let interrupted = is_interrupted(m, process, restart);
    if process.has_frame_room() && is_delivery(interrupted, how) {
        Some(Handling {
            signal,
            target,
            interrupted,
        })
    } else {
        None
    }
}

/// Whether the handler interrupts a blocked call.
fn is_interrupted(m: &Machine, process: &Process, restart: bool) -> bool
    ensures { result ≡ spec.is_interrupted (script_of m.now) (record_of process.now) restart }
{
    process.blocked && !(restart && is_restartable(m.next(process)))
}

/// Whether this is a call that begins again after a handler with `restart`.
fn is_restartable(next: Next) -> bool
    ensures { result ≡ spec.is_restartable (shown next) }
{
    matches!(next, Next::Call(CallInstr::Wait(..) | CallInstr::Read(..)))
}

/// Whether a handler that interrupts a blocked call, or does not, begins like this.
fn is_delivery(interrupted: bool, how: Delivery) -> bool
    ensures { result ≡ spec.is_delivery interrupted how }
{
    match how {
        Delivery::Plain => !interrupted,
        Delivery::Interrupting => interrupted,
    }
}

impl Machine {
    /// A handler of the process that acts begins, where there is one.
    fn enter_handler(&mut self, p: Acting, handling: Handling)
        requires { (r : Record) → record_at (state_of self.old) p ≡ Some r → has_frame_room r.image ≡ true }
        ensures state { state_of self.new ≡ change_record (state_of self.old) p
            (spec.in_handler handling.interrupted handling.signal.number handling.target) }
        ensures script { script_of self.new ≡ script_of self.old }
    {
        let number = u32::from(p.get());
        if self.table.get(number).is_none() {
            return;
        }
        let mut process = self.table.take(number);
        process.enter_handler(handling);
        self.table.put(number, process);
    }
}
