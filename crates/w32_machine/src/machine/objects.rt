//! The calls on events, mutexes and pipes.

ghost use Rattle.std.specs.Prelude.{◌≡◌};
ghost use Rattle.win32_spec.specs.ObjectCalls.{SetStep, ResetStep, ReleaseStep};
ghost use Rattle.win32_spec.specs.ObjectCalls.{PutStep, GetStep};
ghost use Rattle.w32_machine.specs.Contract.{IsCaller};

use crate::caller::Caller;
use crate::machine::Machine;
use w32_base::{HandleNo, Reply};
use w32_kinds::end_of;

impl Machine {
    // `set`
    pub(super) fn set(&mut self, by: &Caller, h: HandleNo) -> Reply
        requires { IsCaller self.old.win32 by.now }
        ensures step { SetStep self.old.win32 by.now.process h result self.new.win32 }
        ensures script { self.new.script ≡ self.old.script }
    {
        match self.named(by, h) {
            Some(o) => self.objects.get_mut(o).set(),
            None => Reply::BadHandle,
        }
    }

    // `reset`
    pub(super) fn reset(&mut self, by: &Caller, h: HandleNo) -> Reply
        requires { IsCaller self.old.win32 by.now }
        ensures step { ResetStep self.old.win32 by.now.process h result self.new.win32 }
        ensures script { self.new.script ≡ self.old.script }
    {
        match self.named(by, h) {
            Some(o) => self.objects.get_mut(o).reset(),
            None => Reply::BadHandle,
        }
    }

    // `release`
    pub(super) fn release(&mut self, by: &Caller, h: HandleNo) -> Reply
        requires { IsCaller self.old.win32 by.now }
        ensures step { ReleaseStep self.old.win32 by.now.process by.now.thread h result self.new.win32 }
        ensures script { self.new.script ≡ self.old.script }
    {
        let (process, thread) = (by.process, by.thread);
        match self.named(by, h) {
            Some(o) => self.objects.get_mut(o).release(process, thread),
            None => Reply::BadHandle,
        }
    }

    // `put`
    pub(super) fn put(&mut self, by: &Caller, h: HandleNo, b: u8) -> Reply
        requires { IsCaller self.old.win32 by.now }
        ensures step { PutStep self.old.win32 by.now.process h b result self.new.win32 }
        ensures script { self.new.script ≡ self.old.script }
    {
        match self.named(by, h) {
            Some(o) => self.objects.get_mut(o).put(end_of(o), b),
            None => Reply::BadHandle,
        }
    }

    // `get`
    pub(super) fn get(&mut self, by: &Caller, h: HandleNo) -> Reply
        requires { IsCaller self.old.win32 by.now }
        ensures step { GetStep self.old.win32 by.now.process h result self.new.win32 }
        ensures script { self.new.script ≡ self.old.script }
    {
        match self.named(by, h) {
            Some(o) => self.objects.get_mut(o).get(end_of(o)),
            None => Reply::BadHandle,
        }
    }
}
