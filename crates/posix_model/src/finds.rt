//! The first process that passes a test.

ghost use Rattle.std.specs.Prelude.{◌≡◌, ℕ, true, false, MatchOption};
ghost use Rattle.std.specs.FinMap as map;
ghost use Rattle.posix_model.specs.Shown.{record_of};
ghost use Rattle.posix_model.specs.Scanned.{some_entry};
ghost use Rattle.posix_model.specs.Table.{records_of};

use crate::process::Process;
use crate::scans::{Test, passes_in};
use crate::table::Table;

impl Table {
    /// The first process that passes, or none exactly where none does.
    pub fn find<T: Test>(&self, test: &T) -> Option<&Process>
        ensures { MatchOption result (some_entry (T.is_passed test.now) (map.entries (records_of self.now)) ≡ false)
            (λ process. (n : ℕ) × (T.is_passed test.now n (record_of process.now) ≡ true)) }
    {
        for i in 0..self.seats.len() {
            if passes_in(test, i as u32 + 2, &self.seats[i]) {
                if let Some(process) = &self.seats[i] {
                    return Some(process);
                }
            }
        }
        None
    }
}
