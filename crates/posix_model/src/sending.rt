//! Changes of the processes, and signals that are sent.

ghost use Rattle.std.specs.Prelude.{◌≡◌, ◌<◌, ◌≤◌, IsTrue, IsFalse, IsSomeAnd, OnOk, OnErr, Some};
ghost use Rattle.posix_spec.specs.State.{Record, record_of};
ghost use Rattle.posix_spec.specs.Records.{change_record};
ghost use Rattle.posix_spec.specs.Sending as spec;
ghost use Rattle.posix_model.specs.Changes.{change_of};
ghost use Rattle.posix_model.specs.Continues.{told_of_continue};
ghost use Rattle.posix_model.specs.Machine.{script_of, state_of};

use crate::change::Change;
use crate::machine::Machine;
use crate::process::Life;
use std::alloc::AllocError;
use w32_base::{Acting, Memory};

/// CONT.
const CONTINUE: u8 = 18;

impl Machine {
    /// Changes the process of a number, where there is one.
    pub fn change(&mut self, number: u32, change: Change)
        ensures state { state_of self.new ≡ change_record (state_of self.old) number (change_of change) }
        ensures script { script_of self.new ≡ script_of self.old }
    {
        if self.table.get(number).is_none() {
            return;
        }
        let mut process = self.table.take(number);
        process.change(change);
        self.table.put(number, process);
    }

    /// Changes the process that acts.
    pub fn change_own(&mut self, p: Acting, change: Change)
        ensures state { state_of self.new ≡ change_record (state_of self.old) p (change_of change) }
        ensures script { script_of self.new ≡ script_of self.old }
    {
        self.change(u32::from(p.get()), change);
    }

    /// Whether one CHLD more may be owed to the process of a number.
    pub fn may_owe(&self, number: u32) -> bool
        ensures fits { IsTrue result → (r : Record) → record_of (state_of self.now) number ≡ Some r → r.owed <
            18446744073709551615 }
        ensures full { IsFalse result → IsSomeAnd (record_of (state_of self.now) number)
            (λ r. 18446744073709551615 ≤ r.owed) }
    {
        match self.table.get(number) {
            Some(process) => process.owed < u64::MAX,
            None => true,
        }
    }

    /// One CHLD more is owed to the process of a number, where there is one that is live.
    pub fn owe_more(&mut self, number: u32)
        requires { (r : Record) → record_of (state_of self.old) number ≡ Some r → r.owed < 18446744073709551615 }
        ensures state { state_of self.new ≡ change_record (state_of self.old) number spec.owed_more }
        ensures script { script_of self.new ≡ script_of self.old }
    {
        if self.table.get(number).is_none() {
            return;
        }
        let mut process = self.table.take(number);
        process.owe_more();
        self.table.put(number, process);
    }

    /// Sends a signal, or none where it is 0, to the process of a number. It fails, and changes nothing, only where
    /// its parent is owed as many CHLD as can be counted.
    pub fn send(&mut self, q: u32, signal: u8) -> Result<(), Memory>
        ensures sent { OnOk result (state_of self.new ≡ spec.sent (state_of self.old) q signal) }
        ensures script { OnOk result (script_of self.new ≡ script_of self.old) }
        ensures unchanged { OnErr result (self.new ≡ self.old) }
    {
        match self.told_of_continue(q, signal) {
            Some(parent) => {
                if !self.may_owe(parent) {
                    return Err(AllocError);
                }
                self.change(q, Change::Generate(signal));
                self.owe_more(parent);
            }
            None => self.change(q, Change::Generate(signal)),
        }
        Ok(())
    }

    /// The parent of a stopped process that this signal continues.
    fn told_of_continue(&self, q: u32, signal: u8) -> Option<u32>
        ensures { result ≡ told_of_continue (record_of (state_of self.now) q) signal }
    {
        match self.table.get(q) {
            Some(process) if signal == CONTINUE && matches!(process.life, Life::Stopped(_)) => {
                Some(u32::from(process.parent))
            }
            _ => None,
        }
    }
}
