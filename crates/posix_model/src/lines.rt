//! A process that reads from its terminal.

ghost use Rattle.std.specs.Prelude.{◌≡◌, ◌≤◌, ◌<◌, ◌+◌, length, MatchOption, Some, None, IfSome, true};
ghost use Rattle.tty_line.specs.Peek.{bytes_taken};
ghost use Rattle.posix_spec.specs.Conditions.{for_call};
ghost use Rattle.posix_spec.specs.Records.{change_record};
ghost use Rattle.posix_spec.specs.State.{Record, record_of as record_at};
ghost use Rattle.posix_spec.specs.TerminalSteps as spec;
ghost use Rattle.proc_vm.specs.Shown.{instr_of};
ghost use Rattle.posix_model.specs.Gives.{Gives};
ghost use Rattle.posix_model.specs.Machine.{script_of, state_of};
ghost use Rattle.posix_model.specs.Reads.{reading_of, is_this_line, HasRoom};
ghost use Rattle.posix_model.specs.Shown.{record_of};

use crate::machine::Machine;
use crate::numbers::is_number;
use crate::process::Process;
use crate::terminal::{address_of, count_of, is_same};
use proc_vm::CallInstr;
use w32_base::{Acting, Bytes64, Number};

/// Where a read puts its bytes, and how many it takes at the most.
#[derive(Clone, Copy, Debug)]
pub struct Reading {
    /// The place in the heap.
    pub place: u32,
    /// The count.
    pub count: u8,
    ghost most: { count ≤ 64 },
}

/// `line P N BYTES`.
pub fn line(m: &mut Machine, p: Acting, n: Number, bytes: Bytes64) -> bool
    ensures { Gives (for_call (script_of m.old) (state_of m.old) p (spec.line_step (state_of m.old) p n bytes)) result
        m.old m.new }
{
    let Some((process, call)) = m.own_call(p) else {
        return false;
    };
    let Some(reading) = reading_of(m, process, call) else {
        return false;
    };
    let Some(taken) = m.peek_bytes(reading.count) else {
        return false;
    };
    if !is_this_line(taken.as_slice(), n, bytes.as_slice()) {
        return false;
    }
    let Some(line) = m.take_bytes(reading.count) else {
        unreachable!()
    };
    m.put_bytes(p, reading.place, line.as_slice());
    true
}

/// What the call reads, where it may.
fn reading_of(m: &Machine, process: &Process, call: CallInstr) -> Option<Reading>
    ensures { MatchOption result (reading_of (state_of m.now) (record_of process.now) (instr_of call) ≡ None)
        (λ r. reading_of (state_of m.now) (record_of process.now) (instr_of call) ≡ Some (r.place, r.count)) }
{
    let CallInstr::Read(address, count) = call else {
        return None;
    };
    if !m.read_check(process).is_allowed() {
        return None;
    }
    Some(Reading {
        place: address_of(process.value(address)),
        count: count_of(process.value(count)),
    })
}

/// Whether the bytes that are taken are these, and so many.
fn is_this_line(taken: &[u8], n: Number, bytes: &[u8]) -> bool
    requires { length taken.now ≤ 64 }
    ensures { result ≡ is_this_line n bytes.now taken.now }
{
    is_number(n, taken.len() as u32) && is_same(bytes, taken)
}

impl Machine {
    /// The bytes that a read of this count takes, or none where no line is done.
    fn peek_bytes(&self, count: u8) -> Option<Bytes64>
        requires { count ≤ 64 }
        ensures { result ≡ bytes_taken (spec.read_from self.now.tty count) }
    {
        if count == 0 {
            Some(Bytes64::new())
        } else {
            self.tty.peek_line(count)
        }
    }

    /// Takes the bytes of a read of this count, or answers none where no line is done.
    fn take_bytes(&mut self, count: u8) -> Option<Bytes64>
        requires { count ≤ 64 }
        ensures taken { MatchOption result (spec.read_from self.old.tty count ≡ None) (λ bytes.
            spec.read_from self.old.tty count ≡ Some (record { terminal = self.new.tty; bytes = bytes })) }
        ensures state { state_of self.new ≡ record (state_of self.old) { terminal = self.new.tty } }
        ensures script { script_of self.new ≡ script_of self.old }
    {
        if count == 0 {
            Some(Bytes64::new())
        } else {
            self.tty.take_line(count)
        }
    }

    /// The call of the process that acts, where there is one, ends with these bytes in the heap, for which there is
    /// room.
    fn put_bytes(&mut self, p: Acting, place: u32, bytes: &[u8])
        requires room { (r : Record) → record_at (state_of self.old) p ≡ Some r → HasRoom place bytes.now r }
        requires most { length bytes.now ≤ 64 }
        ensures state { state_of self.new ≡ change_record (state_of self.old) p (spec.with_read place bytes.now) }
        ensures script { script_of self.new ≡ script_of self.old }
    {
        let number = u32::from(p.get());
        if self.table.get(number).is_none() {
            return;
        }
        let mut process = self.table.take(number);
        process.read(place, bytes);
        self.table.put(number, process);
    }
}

impl Process {
    /// Its call ends with these bytes in the heap, for which there is room.
    fn read(&mut self, place: u32, bytes: &[u8])
        requires room { HasRoom place bytes.now (record_of self.old) }
        requires most { length bytes.now ≤ 64 }
        ensures { record_of self.new ≡ spec.with_read place bytes.now (record_of self.old) }
    {
        self.put(place, bytes);
        self.answer(bytes.len() as u32, None);
    }

    /// Puts bytes into the heap, where there are any. There is room for them.
    fn put(&mut self, place: u32, bytes: &[u8])
        requires { HasRoom place bytes.now (record_of self.old) }
        ensures { record_of self.new ≡
            record (record_of self.old) { image = spec.with_heap_bytes place bytes.now (record_of self.old).image } }
    {
        if !bytes.is_empty() {
            self.own.heap.copy_in(place as usize, bytes);
        }
    }
}
