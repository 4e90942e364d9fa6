//! Blocks of local instructions.

ghost use Rattle.std.specs.Prelude.{◌≡◌, Some, if◌then◌else◌, true, option_copied, slice_get};
ghost use Rattle.vm_spec.specs.Block.{block_length};
ghost use Rattle.vm_spec.specs.Image.{program_of};
ghost use Rattle.vm_spec.specs.Step.{upcoming, LocalInstruction};
ghost use Rattle.posix_spec.specs.Conditions.{for_process};
ghost use Rattle.posix_spec.specs.Numbers as numbers;
ghost use Rattle.posix_spec.specs.OwnSteps.{run_step};
ghost use Rattle.posix_spec.specs.State.{Record, record_of as record_at};
ghost use Rattle.posix_model.specs.Blocks.{is_at_block, with_run, ran};
ghost use Rattle.posix_model.specs.Gives.{Gives};
ghost use Rattle.posix_model.specs.Machine.{script_of, state_of};
ghost use Rattle.posix_model.specs.Shown.{record_of};

use crate::machine::Machine;
use crate::numbers::is_number;
use crate::process::Process;
use proc_vm::{Next, Undo, program_number, run_block_kept, undo_block};
use w32_base::{Acting, Number, Program};

/// `run P N`.
pub fn run(m: &mut Machine, p: Acting, n: Number) -> bool
    ensures { Gives (for_process (state_of m.old) p (run_step (script_of m.old) (state_of m.old) p n)) result m.old
        m.new }
{
    let Some(process) = m.process(p) else {
        return false;
    };
    if !is_at_block(m, process) {
        return false;
    }
    m.run_block(p, n)
}

/// Whether the process may go on, and a local instruction is next.
fn is_at_block(m: &Machine, process: &Process) -> bool
    ensures { result ≡ is_at_block (script_of m.now) (record_of process.now) }
{
    process.may_go_on() && !process.is_in_group_call() && matches!(m.next(process), Next::Local)
}

impl Machine {
    /// The program of a process.
    fn program(&self, process: &Process) -> Option<&Program>
        ensures { option_copied result ≡
            slice_get (script_of self.now).setup.programs (program_of (record_of process.now).image) }
    {
        self.programs
            .as_slice()
            .get(program_number(&process.own) as usize)
    }

    /// Carries out the next block of the process that acts, where it has so many instructions.
    fn run_block(&mut self, p: Acting, n: Number) -> bool
        requires { (r : Record) → record_at (state_of self.old) p ≡ Some r →
            is_at_block (script_of self.old) r ≡ true }
        ensures { Gives (for_process (state_of self.old) p (ran (script_of self.old) (state_of self.old) p n)) result
            self.old self.new }
    {
        let number = u32::from(p.get());
        if self.table.get(number).is_none() {
            return false;
        }
        let mut process = self.table.take(number);
        let Some(program) = self.program(&process) else {
            unreachable!()
        };
        let done = process.run(program, n);
        self.table.put(number, process);
        done
    }
}

impl Process {
    /// Carries out the next block of this program, where it has so many instructions.
    fn run(&mut self, program: &Program, n: Number) -> bool
        requires { upcoming program.now.code (record_of self.old).image ≡ LocalInstruction }
        ensures done { result ≡ numbers.is_number n (block_length program.now.code (record_of self.old).image) }
        ensures process { record_of self.new ≡
            (if result then with_run program.now.code (record_of self.old) else record_of self.old) }
    {
        let mut undo = Undo::new();
        let length = run_block_kept(&mut self.own, program, &mut undo);
        if !is_number(n, u32::from(length)) {
            undo_block(&mut self.own, &undo);
            return false;
        }
        self.go_on();
        true
    }
}
