//! The calls on the terminal.

ghost use Rattle.std.specs.Prelude.{◌≡◌, ◌≤◌, is_some, option_copied};
ghost use Rattle.w32_base.specs.declared.call.TtyOp.TheVariants as tty;
ghost use Rattle.win32_spec.specs.Lookup.{memory_by};
ghost use Rattle.win32_spec.specs.Named.{object_by, terminal_named};
ghost use Rattle.win32_spec.specs.TerminalCalls.{TtyStep, is_buffer};
ghost use Rattle.w32_machine.specs.Contract.{IsCaller};
ghost use Rattle.w32_kinds.specs.Terminals.{LineStep};

use crate::caller::Caller;
use crate::machine::Machine;
use crate::machine::memory::{Start, lies_inside};
use tty_line::Tty;
use w32_base::{Bytes64, HandleNo, Pid, Region, Reply, TtyOp};
use w32_kinds::{is_behind, stops_writers};

/// How many bytes a call may move.
const MOST_MOVED: u32 = 64;

impl Machine {
    // `tty`
    pub(super) fn tty(&mut self, by: &Caller, h: HandleNo, op: TtyOp) -> Reply
        requires { IsCaller self.old.win32 by.now }
        ensures step { TtyStep self.old.win32 by.now.process h op result self.new.win32 }
        ensures script { self.new.script ≡ self.old.script }
    {
        match op {
            TtyOp::Key => self.tty_key(by, h),
            TtyOp::Take(group, count, place) => self.tty_take(by, h, group, count, place),
            TtyOp::Put(group, count, place, force) => self.tty_put(
                by, h, group, count, place, force,
            ),
            TtyOp::SetForeground(group, next, force) => self.tty_set_foreground(
                by, h, group, next, force,
            ),
            TtyOp::Flags(group, flags, force) => self.tty_set_flags(by, h, group, flags, force),
            TtyOp::State => self.tty_state(by, h),
        }
    }

    // `key`
    fn tty_key(&mut self, by: &Caller, h: HandleNo) -> Reply
        requires { IsCaller self.old.win32 by.now }
        ensures step { TtyStep self.old.win32 by.now.process h tty.Key result self.new.win32 }
        ensures script { self.new.script ≡ self.old.script }
    {
        let Some(o) = self.named(by, h) else {
            return Reply::BadHandle;
        };
        if !self.objects.get(o).is_terminal() {
            return Reply::BadHandle;
        }
        match self.keys.pop_front() {
            Some(b) => self.objects.get_mut(o).press(b),
            None => Reply::NoKey,
        }
    }

    // `take`
    fn tty_take(&mut self, by: &Caller, h: HandleNo, group: Pid, count: u32, place: u32) -> Reply
        requires { IsCaller self.old.win32 by.now }
        ensures step { TtyStep self.old.win32 by.now.process h (tty.Take group count place) result self.new.win32 }
        ensures script { self.new.script ≡ self.old.script }
    {
        if !self.names_terminal(by, h) {
            return Reply::BadHandle;
        }
        if !self.is_buffer(by, place, count) {
            return Reply::BadRange;
        }
        match self.take_line(by, h, group, count as u8) {
            Ok(bytes) => {
                let into = Start {
                    slot: by.slot,
                    region: Region::Heap,
                    place,
                };
                if !self.write(&into, bytes.as_slice()) {
                    unreachable!()
                }
                Reply::Line(bytes.len() as u8)
            }
            Err(refusal) => refusal,
        }
    }

    // Takes at most `count` bytes of the first done line of the terminal that a handle of the caller names.
    fn take_line(
        &mut self,
        by: &Caller,
        h: HandleNo,
        group: Pid,
        count: u8,
    ) -> Result<Bytes64, Reply>
        requires few { count ≤ 64 }
        requires caller { IsCaller self.old.win32 by.now }
        ensures taken { LineStep self.old.win32 by.now.process h group count result self.new.win32 }
        ensures script { self.new.script ≡ self.old.script }
    {
        match self.named(by, h) {
            Some(o) => self.objects.get_mut(o).take_line(group, count),
            None => Err(Reply::BadHandle),
        }
    }

    // `put`
    fn tty_put(
        &self,
        by: &Caller,
        h: HandleNo,
        group: Pid,
        count: u32,
        place: u32,
        force: bool,
    ) -> Reply
        requires { IsCaller self.now.win32 by.now }
        ensures { TtyStep self.now.win32 by.now.process h (tty.Put group count place force) result self.now.win32 }
    {
        match self.terminal(by, h) {
            Some(terminal) => {
                if !self.is_buffer(by, place, count) {
                    return Reply::BadRange;
                }
                if is_behind(terminal, group) && stops_writers(terminal) && !force {
                    return Reply::Background;
                }
                Reply::Written(count as u8)
            }
            None => Reply::BadHandle,
        }
    }

    // `setfg`
    fn tty_set_foreground(
        &mut self,
        by: &Caller,
        h: HandleNo,
        group: Pid,
        next: Pid,
        force: bool,
    ) -> Reply
        requires { IsCaller self.old.win32 by.now }
        ensures step { TtyStep self.old.win32 by.now.process h (tty.SetForeground group next force) result
            self.new.win32 }
        ensures script { self.new.script ≡ self.old.script }
    {
        match self.named(by, h) {
            Some(o) => self.objects.get_mut(o).set_foreground(group, next, force),
            None => Reply::BadHandle,
        }
    }

    // `flags`
    fn tty_set_flags(
        &mut self,
        by: &Caller,
        h: HandleNo,
        group: Pid,
        flags: u8,
        force: bool,
    ) -> Reply
        requires { IsCaller self.old.win32 by.now }
        ensures step { TtyStep self.old.win32 by.now.process h (tty.Flags group flags force) result self.new.win32 }
        ensures script { self.new.script ≡ self.old.script }
    {
        match self.named(by, h) {
            Some(o) => self.objects.get_mut(o).set_flags(group, flags, force),
            None => Reply::BadHandle,
        }
    }

    // `state`
    fn tty_state(&self, by: &Caller, h: HandleNo) -> Reply
        requires { IsCaller self.now.win32 by.now }
        ensures { TtyStep self.now.win32 by.now.process h tty.State result self.now.win32 }
    {
        match self.named(by, h) {
            Some(o) => self.objects.get(o).terminal_state(),
            None => Reply::BadHandle,
        }
    }

    // The terminal that a handle of the caller names.
    fn terminal(&self, by: &Caller, h: HandleNo) -> Option<&Tty>
        requires { IsCaller self.now.win32 by.now }
        ensures { option_copied result ≡ terminal_named (object_by self.now.win32 by.now.process h) }
    {
        match self.named(by, h) {
            Some(o) => self.objects.get(o).terminal(),
            None => None,
        }
    }

    // Whether a handle of the caller names the terminal.
    fn names_terminal(&self, by: &Caller, h: HandleNo) -> bool
        requires { IsCaller self.now.win32 by.now }
        ensures { result ≡ is_some (terminal_named (object_by self.now.win32 by.now.process h)) }
    {
        match self.named(by, h) {
            Some(o) => self.objects.get(o).is_terminal(),
            None => false,
        }
    }

    // Whether so many bytes from a place of the caller's heap on may be moved.
    fn is_buffer(&self, by: &Caller, place: u32, count: u32) -> bool
        requires { IsCaller self.now.win32 by.now }
        ensures { result ≡ is_buffer (memory_by self.now.win32 by.now.process) place count }
    {
        let size = self.processes.own(by.slot).heap.len();
        count <= MOST_MOVED && lies_inside(size, place, count)
    }
}
