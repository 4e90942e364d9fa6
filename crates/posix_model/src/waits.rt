//! Waits for children.

ghost use Rattle.std.specs.Prelude.{◌≡◌, ◌&&◌, not, nat_eq, length, true, false, option_map, MatchOption, pos};
ghost use Rattle.std.specs.FinSet as set;
ghost use Rattle.posix_spec.specs.Conditions.{for_call};
ghost use Rattle.posix_spec.specs.State.{record_of as record_at};
ghost use Rattle.posix_spec.specs.Waits as spec;
ghost use Rattle.posix_spec.specs.WaitSteps.{is_looked_at, is_reaped, is_reported, can_block, look_step, block_step};
ghost use Rattle.posix_spec.specs.WaitSteps.{nothing_step, reap_step, report_step, no_child_step};
ghost use Rattle.posix_spec.specs.Records.{without_record};
ghost use Rattle.proc_vm.specs.Shown.{instr_of};
ghost use Rattle.posix_model.specs.Machine.{script_of, state_of};
ghost use Rattle.posix_model.specs.MarkedNumbers.{numbers_of};
ghost use Rattle.posix_model.specs.Shown.{record_of};
ghost use Rattle.posix_model.specs.Waiting.{wait_shown};
ghost use Rattle.posix_model.specs.Gives.{Gives};

use crate::change::Change;
use crate::machine::Machine;
use crate::marks::Marks;
use crate::numbers::is_number;
use crate::operands::natural_within;
use crate::process::{Life, Process, Progress, Untold};
use crate::scans::Test;
use proc_vm::CallInstr;
use w32_base::{Acting, Errno, Number, Pid};

/// A wait of a process in a group, with its selector and its flags.
#[derive(Clone, Copy, Debug)]
pub struct Wait {
    /// The process that waits.
    pub parent: Acting,
    /// Its group.
    pub group: Pid,
    /// Which children it waits for.
    pub selector: Number,
    /// The flags, from 0 to 7.
    pub flags: u32,
}

/// The flag under which a wait doesn't wait.
const NOHANG: u32 = 1;

/// The flag under which it tells of stops.
const UNTRACED: u32 = 2;

/// The flag under which it tells of continues.
const CONTINUED: u32 = 4;

/// The status value of a continue.
const CONTINUE_STATUS: u16 = 1024;

impl Wait {
    /// The wait that is next in a process, where its flags are valid.
    pub fn of(p: Acting, process: &Process, call: CallInstr) -> Option<Wait>
        ensures { option_map wait_shown result ≡ spec.wait_of p (record_of process.now) (instr_of call) }
    {
        let CallInstr::Wait(selector, flags) = call else {
            return None;
        };
        let flags = natural_within(7, process.value(flags))?;
        Some(Wait {
            parent: p,
            group: process.group,
            selector: process.value(selector),
            flags,
        })
    }

    /// Whether it doesn't wait.
    pub fn has_nohang(&self) -> bool
        ensures { result ≡ spec.has_nohang (wait_shown self.now) }
    {
        self.flags & NOHANG != 0
    }

    /// Whether a process is a child that matches.
    pub fn is_match(&self, c: u32, child: &Process) -> bool
        ensures { result ≡ spec.is_match (wait_shown self.now) c (record_of child.now) }
    {
        child.parent == self.parent.get() && self.selects(c, child)
    }

    fn selects(&self, c: u32, child: &Process) -> bool
        ensures { result ≡ spec.is_selected self.now.selector self.now.group c (record_of child.now) }
    {
        let selector = self.selector.get();
        if selector > 0 {
            i64::from(c) == selector
        } else if selector == 0 {
            child.group == self.group
        } else if selector == -1 {
            true
        } else {
            i64::from(child.group.get()) == -selector
        }
    }

    /// The status value of a stop or of a continue that it reports.
    pub fn change_to_report(&self, child: &Process) -> Option<u16>
        ensures { result ≡ spec.change_to_report (wait_shown self.now) (record_of child.now) }
    {
        match (child.life, child.untold) {
            (Life::Running, Untold::Continue) if self.flags & CONTINUED != 0 => {
                Some(CONTINUE_STATUS)
            }
            (Life::Stopped(signal), Untold::Stop) if self.flags & UNTRACED != 0 => {
                Some(stop_status(signal))
            }
            _ => None,
        }
    }

    /// Whether it has something to report of a child.
    pub fn has_report(&self, child: &Process) -> bool
        ensures { result ≡ spec.has_report (wait_shown self.now) (record_of child.now) }
    {
        death_to_report(child).is_some() || self.change_to_report(child).is_some()
    }
}

/// The status value of a stop by a signal.
fn stop_status(signal: u8) -> u16
    ensures { result ≡ spec.stop_status signal }
{
    512 + u16::from(signal)
}

/// The status of a zombie.
fn death_to_report(child: &Process) -> Option<u16>
    ensures { result ≡ spec.death_to_report (record_of child.now).life }
{
    match child.life {
        Life::Zombie(status) => Some(status),
        _ => None,
    }
}

/// The child, where it matches and the wait has nothing to report of it.
fn looked_at(m: &Machine, wait: &Wait, c: u32) -> Option<Pid>
    ensures { MatchOption result (is_looked_at (wait_shown wait.now) c (record_at (state_of m.now) c) ≡ false) (λ child.
        (is_looked_at (wait_shown wait.now) c (record_at (state_of m.now) c) ≡ true) × (child ≡ c)) }
{
    let child = m.table.get(c)?;
    if wait.is_match(c, child) && !wait.has_report(child) {
        Some(Pid::new(c as u16))
    } else {
        None
    }
}

/// A child and a status value of it.
#[derive(Clone, Copy, Debug)]
struct Told {
    child: u16,
    status: u16,
}

/// The zombie child that the wait finds, where its status is this.
fn reaped(m: &Machine, wait: &Wait, c: u32, v: Number) -> Option<Told>
    ensures { MatchOption result (is_reaped (wait_shown wait.now) c v (record_at (state_of m.now) c) ≡ false) (λ told.
        (is_reaped (wait_shown wait.now) c v (record_at (state_of m.now) c) ≡ true)
        × (told.child ≡ c) × (v ≡ pos told.status)) }
{
    let child = m.table.get(c)?;
    let status = death_to_report(child)?;
    if wait.is_match(c, child) && is_number(v, u32::from(status)) {
        Some(Told {
            child: c as u16,
            status,
        })
    } else {
        None
    }
}

/// The child whose stop or continue the wait finds, where its status value is this.
fn reported(m: &Machine, wait: &Wait, c: u32, v: Number) -> Option<Told>
    ensures { MatchOption result (is_reported (wait_shown wait.now) c v (record_at (state_of m.now) c) ≡ false) (λ told.
        (is_reported (wait_shown wait.now) c v (record_at (state_of m.now) c) ≡ true)
        × (told.child ≡ c) × (v ≡ pos told.status)) }
{
    let child = m.table.get(c)?;
    let status = wait.change_to_report(child)?;
    if wait.is_match(c, child) && is_number(v, u32::from(status)) {
        Some(Told {
            child: c as u16,
            status,
        })
    } else {
        None
    }
}

/// Whether a process is a child that matches.
#[derive(Clone, Copy)]
struct Match<'a>(&'a Wait);

impl Test for Match<'_> {
    ghost is_passed = { λ t q r. spec.is_match (wait_shown t.0.now) q r };

    fn passes(&self, number: u32, process: &Process) -> bool {
        self.0.is_match(number, process)
    }
}

/// Whether a process is a child that matches and was not looked at.
#[derive(Clone, Copy)]
struct Unseen<'a> {
    wait: &'a Wait,
    looked_at: &'a Marks,
}

impl Test for Unseen<'_> {
    ghost is_passed = { λ t q r. spec.is_match (wait_shown t.wait.now) q r && not (set.contains (numbers_of
        t.looked_at.now) q) };

    fn passes(&self, number: u32, process: &Process) -> bool {
        self.wait.is_match(number, process) && !self.looked_at.has(number)
    }
}

impl Machine {
    /// Whether no child matches.
    fn has_no_match(&self, wait: &Wait) -> bool
        ensures { result ≡ nat_eq (length (spec.matching (state_of self.now) (wait_shown wait.now))) 0 }
    {
        self.table.count(&Match(wait)) == 0
    }

    /// Whether some child matches, and each that does was looked at in the call in progress.
    fn has_looked_at_all(&self, process: &Process, wait: &Wait) -> bool
        ensures { result ≡ spec.has_looked_at_all (state_of self.now) (record_of process.now).call (wait_shown
            wait.now) }
    {
        match process.progress {
            Progress::Wait => self.has_seen_each(&process.marks, wait),
            Progress::Nothing => false,
            Progress::Group(_) => false,
        }
    }

    /// Whether some child matches, and each that does is among these.
    fn has_seen_each(&self, looked_at: &Marks, wait: &Wait) -> bool
        ensures { result ≡ spec.has_looked_at_each (numbers_of looked_at.now) (spec.matching (state_of self.now)
            (wait_shown wait.now)) }
    {
        if self.has_no_match(wait) {
            return false;
        }
        !self.table.some(&Unseen { wait, looked_at })
    }

    /// Takes a process away, where there is one.
    pub fn remove(&mut self, number: u32)
        ensures state { state_of self.new ≡ without_record (state_of self.old) number }
        ensures script { script_of self.new ≡ script_of self.old }
    {
        let Some(_) = self.table.get(number) else {
            return;
        };
        self.table.take(number);
    }
}

/// `look P C`.
pub fn look(m: &mut Machine, p: Acting, c: u32) -> bool
    ensures { Gives (for_call (script_of m.old) (state_of m.old) p (look_step (state_of m.old) p c)) result m.old
        m.new }
{
    let Some((process, call)) = m.own_call(p) else {
        return false;
    };
    let Some(wait) = Wait::of(p, process, call) else {
        return false;
    };
    let Some(child) = looked_at(m, &wait, c) else {
        return false;
    };
    m.change_own(p, Change::Look(child));
    true
}

/// `block P`.
pub fn block(m: &mut Machine, p: Acting) -> bool
    ensures { Gives (for_call (script_of m.old) (state_of m.old) p (block_step (state_of m.old) p)) result m.old m.new }
{
    let Some((process, call)) = m.own_call(p) else {
        return false;
    };
    if !may_block(m, p, process, call) {
        return false;
    }
    m.change_own(p, Change::Block);
    true
}

/// Whether the call has not waited yet, and may.
fn may_block(m: &Machine, p: Acting, process: &Process, call: CallInstr) -> bool
    ensures { result ≡ (not (record_of process.now).blocked && can_block (state_of m.now) p (record_of process.now)
        (instr_of call)) }
{
    if process.blocked {
        return false;
    }
    match call {
        CallInstr::Wait(..) => match Wait::of(p, process, call) {
            Some(wait) => !wait.has_nohang() && m.has_looked_at_all(process, &wait),
            None => false,
        },
        CallInstr::Read(_, count) => m.can_block_in_read(process, process.value(count)),
        CallInstr::Pause => true,
        _ => false,
    }
}

/// `nothing P`.
pub fn nothing(m: &mut Machine, p: Acting) -> bool
    ensures { Gives (for_call (script_of m.old) (state_of m.old) p (nothing_step (state_of m.old) p)) result m.old
        m.new }
{
    let Some((process, call)) = m.own_call(p) else {
        return false;
    };
    let Some(wait) = Wait::of(p, process, call) else {
        return false;
    };
    if !finds_nothing(m, process, &wait) {
        return false;
    }
    m.answer_both(p, 0, 0);
    true
}

/// Whether the wait doesn't wait, and each child that matches was looked at.
fn finds_nothing(m: &Machine, process: &Process, wait: &Wait) -> bool
    ensures { result ≡ (spec.has_nohang (wait_shown wait.now) && spec.has_looked_at_all (state_of m.now) (record_of
        process.now).call (wait_shown wait.now)) }
{
    wait.has_nohang() && m.has_looked_at_all(process, wait)
}

/// `reap P C V`.
pub fn reap(m: &mut Machine, p: Acting, c: u32, v: Number) -> bool
    ensures { Gives (for_call (script_of m.old) (state_of m.old) p (reap_step (state_of m.old) p v c)) result m.old
        m.new }
{
    let Some((process, call)) = m.own_call(p) else {
        return false;
    };
    let Some(wait) = Wait::of(p, process, call) else {
        return false;
    };
    let Some(told) = reaped(m, &wait, c, v) else {
        return false;
    };
    m.remove(c);
    m.answer_both(p, told.child, told.status);
    true
}

/// `report P C V`.
pub fn report(m: &mut Machine, p: Acting, c: u32, v: Number) -> bool
    ensures { Gives (for_call (script_of m.old) (state_of m.old) p (report_step (state_of m.old) p v c)) result m.old
        m.new }
{
    let Some((process, call)) = m.own_call(p) else {
        return false;
    };
    let Some(wait) = Wait::of(p, process, call) else {
        return false;
    };
    let Some(told) = reported(m, &wait, c, v) else {
        return false;
    };
    m.change(c, Change::Report);
    m.answer_both(p, told.child, told.status);
    true
}

/// `nochild P`.
pub fn no_child(m: &mut Machine, p: Acting) -> bool
    ensures { Gives (for_call (script_of m.old) (state_of m.old) p (no_child_step (state_of m.old) p)) result m.old
        m.new }
{
    let Some((process, call)) = m.own_call(p) else {
        return false;
    };
    let Some(wait) = Wait::of(p, process, call) else {
        return false;
    };
    if !m.has_no_match(&wait) {
        return false;
    }
    m.fail(p, Errno::ECHILD);
    true
}
