//! New programs in processes.

ghost use Rattle.std.specs.Prelude.{◌≡◌, is_some, map, option_map};
ghost use Rattle.posix_spec.specs.Conditions.{for_call};
ghost use Rattle.posix_spec.specs.ForkSteps as spec;
ghost use Rattle.posix_spec.specs.Numbers.{error_result};
ghost use Rattle.proc_vm.specs.Shown.{instr_of};
ghost use Rattle.posix_model.specs.Executed.{found_shown, exec_fails, is_exec};
ghost use Rattle.posix_model.specs.Gives.{Gives};
ghost use Rattle.posix_model.specs.Machine.{script_of, state_of};

use crate::images::begin_image;
use crate::machine::Machine;
use crate::process::{Process, SIGNALS};
use crate::terminal::is_same;
use proc_vm::CallInstr;
use w32_base::{Acting, Action, Errno, ExecCause, Name, Program, Programs};

/// A program of the script, with its number.
#[derive(Clone, Copy, Debug)]
pub struct Found<'a> {
    /// Its place among the programs.
    pub number: u32,
    /// The program.
    pub program: &'a Program,
}

/// The first program of this name.
fn program_named(programs: &Programs, name: Name) -> Option<Found<'_>>
    ensures { option_map found_shown result ≡ spec.program_from 0 programs.now name }
{
    let count = programs.len();
    let all = programs.as_slice();
    for i in 0..count {
        let program = &all[i];
        if is_same(program.name.as_slice(), name.as_slice()) {
            return Some(Found {
                number: i as u32,
                program,
            });
        }
    }
    None
}

/// `execfail P CAUSE`.
pub fn exec_fail(m: &mut Machine, p: Acting, cause: ExecCause) -> bool
    ensures { Gives (for_call (script_of m.old) (state_of m.old) p
        (spec.exec_fail_step (script_of m.old) (state_of m.old) p cause)) result m.old m.new }
{
    let Some((_, call)) = m.own_call(p) else {
        return false;
    };
    if !exec_fails(m, &cause, call) {
        return false;
    }
    m.fail(p, exec_error(&cause));
    true
}

/// Whether the call is an exec that fails for this cause.
fn exec_fails(m: &Machine, cause: &ExecCause, call: CallInstr) -> bool
    ensures { result ≡ exec_fails (script_of m.now) cause.now (instr_of call) }
{
    match call {
        CallInstr::Exec(name) => is_exec_cause(m.has_program(name), cause),
        _ => false,
    }
}

fn is_exec_cause(has_program: bool, cause: &ExecCause) -> bool
    ensures { result ≡ spec.is_exec_cause has_program cause.now }
{
    match cause {
        ExecCause::NoEntry => !has_program,
        ExecCause::Slot | ExecCause::Ended(_) => has_program,
    }
}

/// The error of an exec that fails for this cause.
fn exec_error(cause: &ExecCause) -> Errno
    ensures { error_result result ≡ spec.exec_result cause.now }
{
    match cause {
        ExecCause::NoEntry => Errno::ENOENT,
        ExecCause::Slot | ExecCause::Ended(_) => Errno::EAGAIN,
    }
}

/// `exec P NAME`.
pub fn exec(m: &mut Machine, p: Acting, name: Name) -> bool
    ensures { Gives (for_call (script_of m.old) (state_of m.old) p
        (spec.exec_step (script_of m.old) (state_of m.old) p name)) result m.old m.new }
{
    let Some((_, call)) = m.own_call(p) else {
        return false;
    };
    if !is_exec(call, name) {
        return false;
    }
    m.begin(p, name)
}

/// Whether the call is an exec of this name.
fn is_exec(call: CallInstr, name: Name) -> bool
    ensures { result ≡ is_exec (instr_of call) name }
{
    match call {
        CallInstr::Exec(wanted) => is_same(wanted.as_slice(), name.as_slice()),
        _ => false,
    }
}

impl Machine {
    /// Whether a program has this name.
    fn has_program(&self, name: Name) -> bool
        ensures { result ≡ is_some (spec.program_named (script_of self.now) name) }
    {
        program_named(&self.programs, name).is_some()
    }

    /// The process, where there is one, runs the program of this name from its beginning, where there is one.
    fn begin(&mut self, p: Acting, name: Name) -> bool
        ensures { Gives (spec.exec_to (state_of self.old) p (spec.program_named (script_of self.old) name)) result
            self.old self.new }
    {
        let number = u32::from(p.get());
        let Some(found) = program_named(&self.programs, name) else {
            return false;
        };
        if self.table.get(number).is_none() {
            return true;
        }
        let mut process = self.table.take(number);
        process.replace(found.number, found.program);
        self.table.put(number, process);
        true
    }
}

impl Process {
    ghost use Rattle.vm_spec.specs.NewImage.{new_image};
    ghost use Rattle.posix_model.specs.Shown.{record_of};

    /// It runs this program from its beginning.
    fn replace(&mut self, number: u32, program: &Program)
        ensures { record_of self.new ≡ spec.replaced (new_image number program.now) (record_of self.old) }
    {
        begin_image(&mut self.own, number, program);
        self.execd = true;
        self.actions = actions_after_exec(self.actions);
        self.end_call();
    }
}

/// The actions in a new program.
fn actions_after_exec(actions: [Action; SIGNALS]) -> [Action; SIGNALS]
    ensures { result ≡ map spec.action_after_exec actions }
{
    let mut after = actions;
    for i in 0..SIGNALS {
        after[i] = action_after_exec(after[i]);
    }
    after
}

/// A handled signal is set to its default.
fn action_after_exec(action: Action) -> Action
    ensures { result ≡ spec.action_after_exec action }
{
    match action {
        Action::Default => Action::Default,
        Action::Ignore => Action::Ignore,
        Action::Handler(..) => Action::Default,
    }
}
