//! What is asked of all processes.

ghost use Rattle.std.specs.Prelude.{◌≡◌, ℕ, Bool, length};
ghost use Rattle.std.specs.FinMap as map;
ghost use Rattle.posix_spec.specs.State.{Record};
ghost use Rattle.posix_model.specs.Shown.{record_of};
ghost use Rattle.posix_model.specs.Scanned.{is_passed_in, some_entry, count_entries};
ghost use Rattle.posix_model.specs.Table.{record_in, records_of};

use crate::process::Process;
use crate::table::Table;

/// A test of a process and its number.
pub trait Test {
    /// Whether a process passes.
    ghost is_passed: { Self → ℕ → Record → Bool };

    /// Whether a process passes.
    fn passes(&self, number: u32, process: &Process) -> bool
        ensures { result ≡ is_passed self.now number (record_of process.now) };
}

/// Whether the process of a seat passes, where there is one.
pub fn passes_in<T: Test>(test: &T, number: u32, seat: &Option<Box<Process>>) -> bool
    ensures { result ≡ is_passed_in (T.is_passed test.now) number (record_in seat.now) }
{
    match seat {
        Some(process) => test.passes(number, process),
        None => false,
    }
}

impl Table {
    /// Whether some process passes.
    pub fn some<T: Test>(&self, test: &T) -> bool
        ensures { result ≡ some_entry (T.is_passed test.now) (map.entries (records_of self.now)) }
    {
        for i in 0..self.seats.len() {
            if passes_in(test, i as u32 + 2, &self.seats[i]) {
                return true;
            }
        }
        false
    }

    /// How many processes pass.
    pub fn count<T: Test>(&self, test: &T) -> usize
        ensures { result ≡ count_entries (T.is_passed test.now) (map.entries (records_of self.now)) }
    {
        let mut count = 0;
        for i in 0..self.seats.len() {
            if passes_in(test, i as u32 + 2, &self.seats[i]) {
                count += 1;
            }
        }
        count
    }
}
