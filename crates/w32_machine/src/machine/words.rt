//! The calls on the words of a section.

ghost use Rattle.std.specs.Prelude.{◌≡◌};
ghost use Rattle.win32_spec.specs.WordCalls.{LoadStep, ExchangeStep, AddStep};
ghost use Rattle.w32_machine.specs.Contract.{IsCaller};

use crate::caller::Caller;
use crate::machine::Machine;
use w32_base::{HandleNo, Reply};

impl Machine {
    // `load`
    pub(super) fn load(&self, by: &Caller, h: HandleNo, i: u32) -> Reply
        requires { IsCaller self.now.win32 by.now }
        ensures { LoadStep self.now.win32 by.now.process h i result self.now.win32 }
    {
        match self.named(by, h) {
            Some(o) => self.objects.get(o).load(i),
            None => Reply::BadHandle,
        }
    }

    // `cas`
    pub(super) fn compare_exchange(
        &mut self,
        by: &Caller,
        h: HandleNo,
        i: u32,
        old: u64,
        new: u64,
    ) -> Reply
        requires { IsCaller self.old.win32 by.now }
        ensures step { ExchangeStep self.old.win32 by.now.process h i old new result self.new.win32 }
        ensures script { self.new.script ≡ self.old.script }
    {
        match self.named(by, h) {
            Some(o) => self.objects.get_mut(o).compare_exchange(i, old, new),
            None => Reply::BadHandle,
        }
    }

    // `add`
    pub(super) fn fetch_add(&mut self, by: &Caller, h: HandleNo, i: u32, n: u64) -> Reply
        requires { IsCaller self.old.win32 by.now }
        ensures step { AddStep self.old.win32 by.now.process h i n result self.new.win32 }
        ensures script { self.new.script ≡ self.old.script }
    {
        match self.named(by, h) {
            Some(o) => self.objects.get_mut(o).fetch_add(i, n),
            None => Reply::BadHandle,
        }
    }
}
