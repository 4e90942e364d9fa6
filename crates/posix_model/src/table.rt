//! The processes by their numbers.

ghost use Rattle.std.specs.Prelude.{◌≡◌, ◌<◌, ◌≤◌, IfOk, IsSome, length, option_map, option_copied, IfSome, Some};
ghost use Rattle.std.specs.Prelude.{vec_len};
ghost use Rattle.std.specs.FinMap as map;

use crate::process::Process;
use std::alloc::Global;
use w32_base::Memory;

/// The least number of a process.
const FIRST: u32 = 2;

/// The greatest number of a process.
const LAST: u32 = 4001;

/// How many numbers processes may have.
const SEATS: usize = 4000;

/// The processes, each in the seat of its number; those of the other numbers are empty.
#[derive(Debug, Drop)]
pub struct Table {
    pub seats: Vec<Option<Box<Process>>>,
    ghost room: { vec_len seats ≡ 4000 },
}

impl Table {
    ghost use Rattle.posix_model.specs.Shown.{record_of};
    ghost use Rattle.posix_model.specs.Table.{records_of};
    ghost use Rattle.posix_spec.specs.Records.{settled};

    /// No processes. It fails only for want of memory.
    pub fn new(alloc: Global) -> Result<Table, Memory>
        ensures { IfOk result (λ t. records_of t ≡ map.empty) }
    {
        let mut seats: Vec<Option<Box<Process>>> = Vec::with_capacity(alloc, SEATS)?;
        for _seat in 0..SEATS {
            seats.push(None)?;
        }
        Ok(Table { seats })
    }

    /// The process of a number, or none where there is none.
    pub fn get(&self, number: u32) -> Option<&Process>
        ensures value { option_map record_of (option_copied result) ≡ map.get (records_of self.now) number }
        ensures range { IfSome result (λ _. (2 ≤ number) × (number ≤ 4001)) }
    {
        if number < FIRST || number > LAST {
            return None;
        }
        match &self.seats[number as usize - 2] {
            Some(process) => Some(process),
            None => None,
        }
    }

    /// Takes the process of a number out, which is there.
    pub fn take(&mut self, number: u32) -> Box<Process>
        requires there { IsSome (map.get (records_of self.old) number) }
        requires range { (2 ≤ number) × (number ≤ 4001) }
        ensures process { map.get (records_of self.old) number ≡ Some (record_of result.value) }
        ensures rest { records_of self.new ≡ map.remove (records_of self.old) number }
    {
        match self.seats[number as usize - 2].take() {
            Some(process) => process,
            None => unreachable!(),
        }
    }

    /// Puts a process into the seat of its number. Its `due` is cleared where no signal may act.
    pub fn put(&mut self, number: u32, mut process: Box<Process>)
        requires { (2 ≤ number) × (number ≤ 4001) }
        ensures { records_of self.new ≡ map.insert (records_of self.old) number (settled (record_of process.value)) }
    {
        process.settle();
        self.seats[number as usize - 2] = Some(process);
    }
}
