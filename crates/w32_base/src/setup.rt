//! What all processes know of the script: its limits, modules and programs.

ghost use Rattle.std.specs.Prelude.{◌≡◌, ◌<◌, ◌≤◌, ◌↔◌, length, ◌+◌, [], IsTrue, IfOk, Some, slice_get, false};
ghost use Rattle.w32_base.specs.Names.{are_distinct};
ghost use Rattle.w32_base.specs.Targets.{are_targets_below};

use crate::instr::Instr;
use crate::names::Name;
use std::marker::Model;

/// The limits of a run.
#[derive(Clone, Copy, Debug)]
pub struct Limits {
    /// How many slots there are for layer processes, 1 to 64.
    pub slots: u8,
    /// How many rows there are, 1 to 4000.
    pub rows: u16,
    /// How many entries the journal may have, 1 to 500,000.
    pub budget: u32,
    pub ghost slots_in_range: { (1 ≤ slots) × (slots ≤ 64) },
    pub ghost rows_in_range: { (1 ≤ rows) × (rows ≤ 4000) },
    pub ghost budget_in_range: { (1 ≤ budget) × (budget ≤ 500000) },
}

/// A module that each process loads.
#[derive(Clone, Copy, Debug)]
pub struct Module {
    /// Its name.
    pub name: Name,
    /// The page at which it is wanted.
    pub base: u16,
    /// How many pages it has, 1 to 8.
    pub size: u8,
    pub ghost size_in_range: { (1 ≤ size) × (size ≤ 8) },
    pub ghost pages_in_range: { base + size ≤ 1024 },
}

/// The instructions of a program. A contract sees them as a list.
#[derive(Debug, Drop)]
pub struct Code {
    instructions: Vec<Instr>,
}

impl Model for Code {
    ghost use Rattle.std.specs.Prelude.{List};
    ghost use Rattle.w32_base.specs.declared.instr.Instr.{Instr};

    ghost Value = { List Instr };

    ghost view = { λ c. c.instructions.items };
}

impl Code {
    /// These instructions, without taking memory.
    pub fn from_vec(instructions: Vec<Instr>) -> Code
        ensures { result ≡ instructions.items }
    {
        Code { instructions }
    }

    /// The instructions again, without taking memory.
    pub fn into_vec(self) -> Vec<Instr>
        ensures { result.items ≡ self }
    {
        self.instructions
    }

    /// How many instructions there are.
    pub fn len(&self) -> usize
        ensures { result ≡ length self.now }
    {
        self.instructions.len()
    }

    /// Whether there are none.
    pub fn is_empty(&self) -> bool
        ensures { IsTrue result ↔ (self.now ≡ []) }
    {
        self.instructions.is_empty()
    }

    /// The instruction at a place, or none past the end.
    pub fn get(&self, place: usize) -> Option<Instr>
        ensures { result ≡ slice_get self.now place }
    {
        self.instructions.as_slice().get(place).copied()
    }
}

/// A program of the script.
#[derive(Debug, Drop)]
pub struct Program {
    /// Its name.
    pub name: Name,
    /// The bytes of its heap, 0 to 32,768.
    pub heap: u16,
    /// The bytes of its stack, 64 to 32,768.
    pub stack: u16,
    /// Its instructions, 1 to 4000.
    pub code: Code,
    pub ghost heap_in_range: { heap ≤ 32768 },
    pub ghost stack_in_range: { (64 ≤ stack) × (stack ≤ 32768) },
    pub ghost code_in_range: { (1 ≤ length code) × (length code ≤ 4000) },
    pub ghost targets_in_range: { IsTrue (are_targets_below (length code) code) },
}

/// The modules of a script, at most 8, with names of their own. A contract sees them as a list.
#[derive(Debug, Drop)]
pub struct Modules {
    modules: Vec<Module>,
}

impl Model for Modules {
    ghost use Rattle.std.specs.Prelude.{List, length, ◌≤◌, IsTrue};
    ghost use Rattle.w32_base.specs.declared.setup.Module.{Module};
    ghost use Rattle.w32_base.specs.Names.{are_distinct};
    ghost use Rattle.w32_base.specs.Setup.{module_names};

    ghost Value = { List Module };

    ghost view = { λ m. m.modules.items };

    ghost invariant = { λ m. (length m.modules.items ≤ 8) × IsTrue (are_distinct (module_names m.modules.items)) };
}

impl Modules {
    ghost use Rattle.w32_base.specs.Setup.{module_names};

    /// These modules, without taking memory.
    pub fn from_vec(modules: Vec<Module>) -> Modules
        requires few { length modules.items ≤ 8 }
        requires names { IsTrue (are_distinct (module_names modules.items)) }
        ensures { result ≡ modules.items }
    {
        Modules { modules }
    }

    /// How many there are.
    pub fn len(&self) -> usize
        ensures value { result ≡ length self.now }
        ensures range { result ≤ 8 }
    {
        self.modules.len()
    }

    /// Whether there are none.
    pub fn is_empty(&self) -> bool
        ensures { IsTrue result ↔ (self.now ≡ []) }
    {
        self.modules.is_empty()
    }

    /// The modules.
    pub fn as_slice(&self) -> &[Module]
        ensures value { result.now ≡ self.now }
        ensures names { IsTrue (are_distinct (module_names self.now)) }
    {
        self.modules.as_slice()
    }
}

/// The programs of a script, 1 to 32, with names of their own. A contract sees them as a list.
#[derive(Debug, Drop)]
pub struct Programs {
    programs: Vec<Program>,
}

impl Model for Programs {
    ghost use Rattle.std.specs.Prelude.{List, length, ◌≤◌, IsTrue};
    ghost use Rattle.w32_base.specs.declared.setup.Program.{Program};
    ghost use Rattle.w32_base.specs.Names.{are_distinct};
    ghost use Rattle.w32_base.specs.Setup.{program_names};

    ghost Value = { List Program };

    ghost view = { λ p. p.programs.items };

    ghost invariant = { λ p. (1 ≤ length p.programs.items) × (length p.programs.items ≤ 32)
        × IsTrue (are_distinct (program_names p.programs.items)) };
}

impl Programs {
    ghost use Rattle.w32_base.specs.Setup.{program_names};

    /// These programs, without taking memory.
    pub fn from_vec(programs: Vec<Program>) -> Programs
        requires some { 1 ≤ length programs.items }
        requires few { length programs.items ≤ 32 }
        requires names { IsTrue (are_distinct (program_names programs.items)) }
        ensures { result ≡ programs.items }
    {
        Programs { programs }
    }

    /// How many there are.
    pub fn len(&self) -> usize
        ensures value { result ≡ length self.now }
        ensures range { (1 ≤ result) × (result ≤ 32) }
    {
        self.programs.len()
    }

    /// Whether there are none, which never is.
    pub fn is_empty(&self) -> bool
        ensures { result ≡ false }
    {
        false
    }

    /// The programs.
    pub fn as_slice(&self) -> &[Program]
        ensures value { result.now ≡ self.now }
        ensures some { 1 ≤ length self.now }
        ensures names { IsTrue (are_distinct (program_names self.now)) }
    {
        self.programs.as_slice()
    }

    /// The script's first program, which the first layer process runs.
    pub fn first(&self) -> &Program
        ensures { slice_get self.now 0 ≡ Some result.now }
    {
        &self.programs[0]
    }
}

/// What all processes know of the script.
#[derive(Debug, Drop)]
pub struct Setup {
    /// The limits of the run.
    pub limits: Limits,
    /// The modules that each process loads, in the order of the script.
    pub modules: Modules,
    /// The programs, in the order of the script.
    pub programs: Programs,
}
