//! The parts of a state, and the processes' calls.

ghost use Rattle.std.specs.Prelude.{◌≡◌, ◌<◌, MatchOption, None, Some, option_copied, option_map, pos};
ghost use Rattle.vm_spec.specs.Image.{image_of, place_of};
ghost use Rattle.vm_spec.specs.Step.{CallInstruction};
ghost use Rattle.w32_base.specs.declared.instr.Instr.{Instr};
ghost use Rattle.posix_spec.specs.Conditions as spec;
ghost use Rattle.posix_spec.specs.State.{Record, record_of as record_at};
ghost use Rattle.posix_spec.specs.Records.{change_record, is_live_at};
ghost use Rattle.posix_spec.specs.Groups.{shown_parent};
ghost use Rattle.posix_spec.specs.Numbers.{error_result, answer_result};
ghost use Rattle.proc_vm.specs.Shown.{shown, instr_of};

use crate::marks::Marks;
use crate::numbers::error_word;
use crate::process::{GroupCall, Life, Process, Progress};
use crate::table::Table;
use proc_vm::{CallInstr, Next, next_instr, program_number};
use tty_line::Tty;
use w32_base::{Acting, Answer, Errno, Limits, Programs};

/// The parts of a state: what is kept of the script, the processes, the numbers that were used, the terminal with what
/// was put out on it, the console's call for a group with the members that have had their step, the status of
/// process 2's death, and whether the host has read its code.
#[derive(Debug, Drop)]
pub struct Machine {
    pub limits: Limits,
    pub programs: Programs,
    pub table: Table,
    pub used: Marks,
    pub tty: Tty,
    pub output: Vec<u8>,
    pub console: Option<GroupCall>,
    pub console_marks: Marks,
    pub first_status: Option<u16>,
    pub host_came: bool,
}

impl Machine {
    ghost use Rattle.posix_model.specs.Machine.{script_of, state_of, called, group_called};
    ghost use Rattle.posix_model.specs.Shown.{record_of};

    /// What is next in a process.
    pub fn next(&self, process: &Process) -> Next
        ensures { shown result ≡ spec.next_of (script_of self.now) (record_of process.now) }
    {
        match self
            .programs
            .as_slice()
            .get(program_number(&process.own) as usize)
        {
            Some(program) => next_instr(&process.own, program),
            None => Next::Fault,
        }
    }

    /// The process that acts.
    pub fn process(&self, p: Acting) -> Option<&Process>
        ensures { option_map record_of (option_copied result) ≡ record_at (state_of self.now) p }
    {
        self.table.get(u32::from(p.get()))
    }

    /// Whether there is a live process of this number.
    pub fn is_live_at(&self, number: u32) -> bool
        ensures { result ≡ is_live_at (record_at (state_of self.now) number) }
    {
        match self.table.get(number) {
            Some(process) => process.is_live(),
            None => false,
        }
    }

    /// The process that acts, and the call that its own events belong to, outside a call for a group.
    pub fn own_call(&self, p: Acting) -> Option<(&Process, CallInstr)>
        ensures { MatchOption result (called (script_of self.now) (state_of self.now) p ≡ None) (λ c.
            (called (script_of self.now) (state_of self.now) p ≡ Some (record_of c.0.now, instr_of c.1))
            × (record_at (state_of self.now) p ≡ Some (record_of c.0.now))) }
    {
        let process = self.table.get(u32::from(p.get()))?;
        if !process.may_go_on() || matches!(process.progress, Progress::Group(_)) {
            return None;
        }
        match self.next(process) {
            Next::Call(CallInstr::Pause | CallInstr::Suspend(_)) if process.blocked => None,
            Next::Call(call) => Some((process, call)),
            _ => None,
        }
    }

    /// The same where the process may be in a call for a group.
    pub fn group_call(&self, p: Acting) -> Option<(&Process, CallInstr)>
        ensures { MatchOption result (group_called (script_of self.now) (state_of self.now) p ≡ None) (λ c.
            (group_called (script_of self.now) (state_of self.now) p ≡ Some (record_of c.0.now, instr_of c.1))
            × (record_at (state_of self.now) p ≡ Some (record_of c.0.now))) }
    {
        let process = self.table.get(u32::from(p.get()))?;
        if !process.may_go_on() {
            return None;
        }
        match self.next(process) {
            Next::Call(call) => Some((process, call)),
            _ => None,
        }
    }

    /// The parent that a process is shown: 1 where its parent is a zombie or has no record.
    pub fn shown_parent(&self, process: &Process) -> u16
        ensures { result ≡ shown_parent (state_of self.now) (record_of process.now) }
    {
        match self.table.get(u32::from(process.parent)) {
            Some(parent) if parent.is_live() => process.parent,
            _ => 1,
        }
    }

    /// Ends the call of a process, where there is one, with r0, and with r1 where it is given.
    pub fn answer(&mut self, p: Acting, r0: u32, r1: Option<u32>)
        ensures state { state_of self.new ≡ change_record (state_of self.old) p
            (spec.with_results (pos r0) (option_map pos r1)) }
        ensures script { script_of self.new ≡ script_of self.old }
    {
        let number = u32::from(p.get());
        if self.table.get(number).is_none() {
            return;
        }
        let mut process = self.table.take(number);
        process.answer(r0, r1);
        self.table.put(number, process);
    }

    /// The same with a natural number in r0 alone.
    pub fn answer_with(&mut self, p: Acting, value: u16)
        ensures state { state_of self.new ≡ spec.answered (state_of self.old) p (pos value) }
        ensures script { script_of self.new ≡ script_of self.old }
    {
        self.answer(p, u32::from(value), None);
    }

    /// The same with 32 bits in r0 alone.
    pub fn answer_word(&mut self, p: Acting, word: u32)
        ensures state { state_of self.new ≡ spec.answered (state_of self.old) p (pos word) }
        ensures script { script_of self.new ≡ script_of self.old }
    {
        self.answer(p, word, None);
    }

    /// The same with natural numbers in r0 and r1.
    pub fn answer_both(&mut self, p: Acting, value: u16, second: u16)
        ensures state { state_of self.new ≡ spec.answered_both (state_of self.old) p (pos value) (pos second) }
        ensures script { script_of self.new ≡ script_of self.old }
    {
        self.answer(p, u32::from(value), Some(u32::from(second)));
    }

    /// The same with an error.
    pub fn fail(&mut self, p: Acting, e: Errno)
        ensures state { state_of self.new ≡ spec.answered (state_of self.old) p (error_result e) }
        ensures script { script_of self.new ≡ script_of self.old }
    {
        self.answer(p, error_word(e), None);
    }

    /// The same with the answer of a call whose event says it.
    pub fn conclude(&mut self, p: Acting, answer: Answer)
        ensures state { state_of self.new ≡ spec.answered (state_of self.old) p (answer_result answer) }
        ensures script { script_of self.new ≡ script_of self.old }
    {
        match answer {
            Answer::Zero => self.answer_with(p, 0),
            Answer::Error(e) => self.fail(p, e),
        }
    }
}
