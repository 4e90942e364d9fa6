//! The calls of a process on itself: `run` and `module`.

ghost use Rattle.std.specs.Prelude.{◌≡◌, length};
ghost use Rattle.vm_spec.specs.Block.{block_length, block_image};
ghost use Rattle.vm_spec.specs.Image.{image_of, with_image};
ghost use Rattle.w32_base.specs.Part.{KeepsLengths};
ghost use Rattle.win32_spec.specs.MemoryCalls.{RunStep};
ghost use Rattle.win32_spec.specs.Placing.{ModuleStep};
ghost use Rattle.w32_machine.specs.Contract.{IsCaller};

use crate::caller::Caller;
use crate::machine::Machine;
use proc_vm::{Next, next_instr, run_block};
use w32_base::{Own, Program, Reply};

impl Machine {
    // `run`
    pub(super) fn run(&mut self, by: &Caller) -> Reply
        requires { IsCaller self.old.win32 by.now }
        ensures step { RunStep self.old.script self.old.win32 by.now.process result self.new.win32 }
        ensures script { self.new.script ≡ self.old.script }
    {
        let script = &self.script;
        match self.processes.program(by.slot) {
            Some(number) => {
                let program = &script.setup.programs.as_slice()[usize::from(number)];
                Reply::Ran(run_next(self.processes.own_mut(by.slot), program))
            }
            None => Reply::Ran(0),
        }
    }

    // `module`
    pub(super) fn module(&mut self, by: &Caller, m: u32) -> Reply
        requires { IsCaller self.old.win32 by.now }
        ensures step { ModuleStep self.old.script self.old.win32 by.now.process m result self.new.win32 }
        ensures script { self.new.script ≡ self.old.script }
    {
        let script = &self.script;
        let modules = &script.setup.modules;
        if self.processes.program(by.slot).is_none() {
            return Reply::BadIndex;
        }
        if m as usize >= modules.len() {
            return Reply::BadIndex;
        }
        let wanted = modules.as_slice()[m as usize];
        let number = m as u8;
        let slot = usize::from(by.slot.get());
        if let Some(base) = self.placed[slot].base(number) {
            return Reply::Base(base);
        }
        let creation = by.process.get() - 1;
        let base = self.placed[slot].place_for(script, creation, &wanted);
        self.placed[slot].push(number, base);
        Reply::Base(base)
    }
}

// Carries out a block of local instructions, and answers how many they were.
fn run_next(own: &mut Own, program: &Program) -> u16
    requires { length own.old.dat ≡ 64 }
    ensures length { result ≡ block_length program.now.code (image_of own.old) }
    ensures image { own.new ≡ with_image own.old (block_image program.now.code (image_of own.old)) }
    ensures sizes { KeepsLengths own.old own.new }
{
    match next_instr(own, program) {
        Next::Local => run_block(own, program),
        _ => 0,
    }
}
