//! New processes.

ghost use Rattle.std.specs.Prelude.{◌≡◌, IfOk, MatchOption, false, true};
ghost use Rattle.posix_spec.specs.Conditions.{for_call};
ghost use Rattle.posix_spec.specs.ForkSteps as spec;
ghost use Rattle.proc_vm.specs.Shown.{instr_of};
ghost use Rattle.posix_model.specs.Forked.{forks, fork_fails};
ghost use Rattle.posix_model.specs.Gives.{Gives, GivesOrFails};
ghost use Rattle.posix_model.specs.Machine.{script_of, state_of};
ghost use Rattle.posix_model.specs.Shown.{record_of};

use crate::images::copied_image;
use crate::machine::Machine;
use crate::marks::Marks;
use crate::process::{Life, Process, Progress, Untold};
use crate::results::finish;
use bitflags::Flags;
use proc_vm::CallInstr;
use sig_sets::SigSet;
use std::alloc::Global;
use w32_base::{Acting, Errno, ForkCause, Memory, Pid};

/// How many children a process may have.
const MOST_CHILDREN: usize = 32;

/// `forkfail P CAUSE`.
pub fn fork_fail(m: &mut Machine, p: Acting, cause: ForkCause) -> bool
    ensures { Gives (for_call (script_of m.old) (state_of m.old) p (spec.fork_fail_step (state_of m.old) p cause))
        result m.old m.new }
{
    let Some((_, call)) = m.own_call(p) else {
        return false;
    };
    if !fork_fails(m, p, cause, call) {
        return false;
    }
    m.fail(p, Errno::EAGAIN);
    true
}

/// Whether the call is a fork that may fail for this cause.
fn fork_fails(m: &Machine, p: Acting, cause: ForkCause, call: CallInstr) -> bool
    ensures { result ≡ fork_fails (state_of m.now) p cause (instr_of call) }
{
    match call {
        CallInstr::Fork => is_fork_cause(m, p, cause),
        _ => false,
    }
}

fn is_fork_cause(m: &Machine, p: Acting, cause: ForkCause) -> bool
    ensures { result ≡ spec.is_fork_cause (state_of m.now) p cause }
{
    match cause {
        ForkCause::Children => m.children(u32::from(p.get())) == MOST_CHILDREN,
        _ => true,
    }
}

/// `fork P C`. It fails, and changes nothing, only for want of memory.
pub fn fork(alloc: Global, m: &mut Machine, p: Acting, c: u32) -> Result<bool, Memory>
    ensures { GivesOrFails (for_call (script_of m.old) (state_of m.old) p
        (spec.fork_step (script_of m.old) (state_of m.old) p c)) result m.old m.new }
{
    let Some((process, call)) = m.own_call(p) else {
        return Ok(false);
    };
    let Some(number) = forks(m, p, c, call) else {
        return Ok(false);
    };
    let child = Box::new(alloc, process.child(alloc, p)?)?;
    m.add(number, child);
    m.answer_with(p, number.get());
    Ok(true)
}

/// The number of the child, where the call is a fork that may give it this one.
fn forks(m: &Machine, p: Acting, c: u32, call: CallInstr) -> Option<Pid>
    ensures { MatchOption result (forks (script_of m.now) (state_of m.now) p c (instr_of call) ≡ false) (λ number.
        (forks (script_of m.now) (state_of m.now) p c (instr_of call) ≡ true) × (number ≡ c)) }
{
    match call {
        CallInstr::Fork => m.child_number(p, c),
        _ => None,
    }
}

impl Machine {
    ghost use Rattle.posix_spec.specs.Records.{with_record};
    ghost use Rattle.posix_model.specs.Forked.{may_have};

    /// The number, where the process may have a child more and the child this number.
    fn child_number(&self, p: Acting, c: u32) -> Option<Pid>
        ensures { MatchOption result (may_have (script_of self.now) (state_of self.now) p c ≡ false) (λ number.
            (may_have (script_of self.now) (state_of self.now) p c ≡ true) × (number ≡ c)) }
    {
        if self.children(u32::from(p.get())) < MOST_CHILDREN {
            self.fresh(c)
        } else {
            None
        }
    }

    /// The number, where a row has it and it was never used.
    fn fresh(&self, c: u32) -> Option<Pid>
        ensures { MatchOption result (spec.is_fresh (script_of self.now) (state_of self.now) c ≡ false) (λ number.
            (spec.is_fresh (script_of self.now) (state_of self.now) c ≡ true) × (number ≡ c)) }
    {
        if c >= 2 && c <= u32::from(self.limits.rows) + 1 && !self.used.has(c) {
            Some(Pid::new(c as u16))
        } else {
            None
        }
    }

    /// There is this process, whose number is used from then on.
    fn add(&mut self, number: Pid, process: Box<Process>)
        ensures state { state_of self.new ≡ spec.with_used (with_record (state_of self.old) number (record_of
            process.value)) number }
        ensures script { script_of self.new ≡ script_of self.old }
    {
        self.used.insert(number);
        self.table.put(u32::from(number.get()), process);
    }
}

impl Process {
    /// Its child, which has its group, session, terminal, mask, actions and image, with result 0, and nothing else of
    /// it. It fails only for want of memory.
    fn child(&self, alloc: Global, p: Acting) -> Result<Process, Memory>
        ensures { IfOk result (λ child. record_of child ≡ spec.child_of p (record_of self.now)) }
    {
        let mut own = copied_image(alloc, &self.own)?;
        finish(&mut own, 0, None);
        Ok(Process {
            parent: p.get(),
            group: self.group,
            session: self.session,
            terminal: self.terminal,
            execd: false,
            life: Life::Running,
            untold: Untold::Nothing,
            pending: SigSet::empty(),
            mask: self.mask,
            saved: None,
            actions: self.actions,
            own,
            progress: Progress::Nothing,
            marks: Marks::new(alloc)?,
            blocked: false,
            due: false,
            lost: SigSet::empty(),
            owed: 0,
        })
    }
}
