//! The calls on processes and their threads.

ghost use Rattle.std.specs.Prelude.{◌≡◌, ◌<◌, ◌≤◌, IfOk, IfErr, IsSome, MatchOption};
ghost use Rattle.win32_spec.specs.Lookup.{thread_at};
ghost use Rattle.win32_spec.specs.ProcessCalls.{ExitCodeStep, ResumeStep, SuspendStep};
ghost use Rattle.w32_machine.specs.Contract.{IsCaller};
ghost use Rattle.w32_machine.specs.Reached.{Reaches, Misses, MissesThread};

use crate::caller::Caller;
use crate::machine::Machine;
use w32_base::{HandleNo, Reply, Slot, ThreadNo};

impl Machine {
    // `exitcode`
    pub(super) fn exit_code(&self, by: &Caller, h: HandleNo) -> Reply
        requires { IsCaller self.now.win32 by.now }
        ensures { ExitCodeStep self.now.win32 by.now.process h result self.now.win32 }
    {
        match self.named_process(by, h) {
            Some((w, _)) => match self.processes.exit_code(w) {
                Some(code) => Reply::Code(code),
                None => Reply::Active,
            },
            None => Reply::BadHandle,
        }
    }

    // `resume`
    pub(super) fn resume(&mut self, by: &Caller, h: HandleNo, thread: u32) -> Reply
        requires { IsCaller self.old.win32 by.now }
        ensures step { ResumeStep self.old.win32 by.now.process h thread result self.new.win32 }
        ensures script { self.new.script ≡ self.old.script }
    {
        match self.named_thread(by, h, thread) {
            Ok(at) => Reply::Count(self.processes.resume(at.0, at.1)),
            Err(refusal) => refusal,
        }
    }

    // `suspend`
    pub(super) fn suspend(&mut self, by: &Caller, h: HandleNo, thread: u32) -> Reply
        requires { IsCaller self.old.win32 by.now }
        ensures step { SuspendStep self.old.win32 by.now.process h thread result self.new.win32 }
        ensures script { self.new.script ≡ self.old.script }
    {
        match self.named_thread(by, h, thread) {
            Ok(at) => Reply::Count(self.processes.suspend(at.0, at.1)),
            Err(refusal) => refusal,
        }
    }

    // The slot of the live process that a handle of the caller names.
    pub(super) fn named_live(&self, by: &Caller, h: HandleNo) -> Result<Slot, Reply>
        requires { IsCaller self.now.win32 by.now }
        ensures reached { IfOk result (λ slot. Reaches self.now.win32 by.now.process h slot) }
        ensures missed { IfErr result (λ r. Misses self.now.win32 by.now.process h r) }
    {
        match self.named_process(by, h) {
            Some(at) => {
                if self.processes.in_slot(at.1) == Some(at.0) {
                    Ok(at.1)
                } else {
                    Err(Reply::Gone)
                }
            }
            None => Err(Reply::BadHandle),
        }
    }

    // A thread of the live process that a handle of the caller names, with its slot.
    fn named_thread(&self, by: &Caller, h: HandleNo, thread: u32) -> Result<(Slot, ThreadNo), Reply>
        requires { IsCaller self.now.win32 by.now }
        ensures reached { IfOk result (λ at. Reaches self.now.win32 by.now.process h at.0) }
        ensures thread { IfOk result (λ at. at.1 ≡ thread) }
        ensures there { IfOk result (λ at. IsSome (thread_at self.now.win32 at.0 at.1)) }
        ensures missed { IfErr result (λ r. MissesThread self.now.win32 by.now.process h thread r) }
    {
        let slot = self.named_live(by, h)?;
        let Some(thread) = thread_no(thread) else {
            return Err(Reply::BadIndex);
        };
        match self.processes.count(slot, thread) {
            Some(_) => Ok((slot, thread)),
            None => Err(Reply::BadIndex),
        }
    }
}

// The thread with this number, or none where no process has one.
fn thread_no(thread: u32) -> Option<ThreadNo>
    ensures { MatchOption result (2 < thread) (λ t. t ≡ thread) }
{
    if thread <= 2 {
        Some(ThreadNo::new(thread as u8))
    } else {
        None
    }
}
