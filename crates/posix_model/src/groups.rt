//! Groups and sessions that a process sets.

ghost use Rattle.std.specs.Prelude.{◌≡◌, ◌&&◌, MatchOption, None, false, is_some};
ghost use Rattle.proc_vm.specs.Shown.{instr_of};
ghost use Rattle.posix_model.specs.Leads.{leads, moves};
ghost use Rattle.posix_spec.specs.Conditions.{for_call};
ghost use Rattle.posix_spec.specs.GroupSteps as spec;
ghost use Rattle.posix_spec.specs.Groups.{has_member};
ghost use Rattle.posix_spec.specs.State.{record_of as record_at};
ghost use Rattle.posix_model.specs.Checked.{shown};
ghost use Rattle.posix_model.specs.Machine.{script_of, state_of};
ghost use Rattle.posix_model.specs.Shown.{record_of};
ghost use Rattle.posix_model.specs.Gives.{Gives};

use crate::change::Change;
use crate::checks::Check;
use crate::machine::Machine;
use crate::numbers::natural;
use crate::process::Process;
use proc_vm::CallInstr;
use w32_base::{Acting, Errno, Number, Pid};

/// A number that stands for another one where it is 0.
fn or_this(n: u32, this: u32) -> u32
    ensures { result ≡ spec.or_this n this }
{
    if n == 0 { this } else { n }
}

impl Machine {
    /// The check of a setpgid.
    pub fn setpgid_check(&self, p: Acting, process: &Process, q: Number, g: Number) -> Check
        ensures { shown result ≡ spec.setpgid_check (state_of self.now) p (record_of process.now) q g }
    {
        let Some(group) = natural(g) else {
            return Check::Refused(Errno::EINVAL);
        };
        let Some(number) = natural(q) else {
            return Check::Refused(Errno::ESRCH);
        };
        let moved = or_this(number, u32::from(p.get()));
        self.move_check(p, process, moved, or_this(group, moved))
    }

    fn move_check(&self, p: Acting, process: &Process, q: u32, g: u32) -> Check
        ensures { shown result ≡ spec.move_check (state_of self.now) p (record_of process.now) q g (record_at
            (state_of self.now) q) }
    {
        let Some(target) = self.table.get(q) else {
            return Check::Refused(Errno::ESRCH);
        };
        let is_own = q == u32::from(p.get());
        if !is_own && target.parent != p.get() {
            Check::Refused(Errno::ESRCH)
        } else if !is_own && target.execd {
            Check::Refused(Errno::EACCES)
        } else {
            Check::that(
                is_movable(process, q, target) && self.is_joinable(process, q, g),
                Errno::EPERM,
            )
        }
    }

    fn is_joinable(&self, process: &Process, q: u32, g: u32) -> bool
        ensures { result ≡ spec.is_joinable (state_of self.now) (record_of process.now) q g }
    {
        g == q || self.has_member_in(g, process.session)
    }

    /// The check of a setsid.
    pub fn setsid_check(&self, p: Acting) -> Check
        ensures { shown result ≡ spec.setsid_check (state_of self.now) p }
    {
        Check::that(!self.has_member(u32::from(p.get())), Errno::EPERM)
    }
}

fn is_movable(process: &Process, q: u32, target: &Process) -> bool
    ensures { result ≡ spec.is_movable (record_of process.now) q (record_of target.now) }
{
    u32::from(target.session.get()) != q && target.session == process.session
}

impl Machine {
    /// The number of the process that acts, where it is there.
    fn number_of(&self, p: Acting) -> Option<Pid>
        ensures { MatchOption result (record_at (state_of self.now) p ≡ None) (λ number. number ≡ p) }
    {
        self.table.get(u32::from(p.get()))?;
        Some(Pid::new(p.get()))
    }
}

/// `setsid P`.
pub fn setsid(m: &mut Machine, p: Acting) -> bool
    ensures { Gives (for_call (script_of m.old) (state_of m.old) p (spec.setsid_step (state_of m.old) p)) result
        m.old m.new }
{
    let Some(leader) = m.number_of(p) else {
        return false;
    };
    let Some((_, call)) = m.own_call(p) else {
        return false;
    };
    if !leads(m, p, call) {
        return false;
    }
    m.change_own(p, Change::LeadSession(leader));
    m.answer_with(p, p.get());
    true
}

/// Whether the call is a setsid that may be carried out.
fn leads(m: &Machine, p: Acting, call: CallInstr) -> bool
    ensures { result ≡ leads (state_of m.now) p (instr_of call) }
{
    match call {
        CallInstr::SetSid => m.setsid_check(p).is_allowed(),
        _ => false,
    }
}

/// `setpgid P Q G`.
pub fn setpgid(m: &mut Machine, p: Acting, q: u32, g: u32) -> bool
    ensures { Gives (for_call (script_of m.old) (state_of m.old) p (spec.setpgid_step (state_of m.old) p q g)) result
        m.old m.new }
{
    let Some((process, call)) = m.own_call(p) else {
        return false;
    };
    if !moves(m, p, process, call, q, g) {
        return false;
    }
    let Some(group) = m.joined(process, q, g) else {
        return false;
    };
    m.change(q, Change::Join(group));
    m.answer_with(p, 0);
    true
}

/// Whether the call moves this process to this group, and may.
fn moves(m: &Machine, p: Acting, process: &Process, call: CallInstr, q: u32, g: u32) -> bool
    ensures { result ≡ moves (state_of m.now) p q g (record_of process.now) (instr_of call) }
{
    let CallInstr::SetPgid(moved, group) = call else {
        return false;
    };
    let moved = process.value(moved);
    let group = process.value(group);
    is_move(p, q, g, natural(moved), natural(group))
        && m.setpgid_check(p, process, moved, group).is_allowed()
}

/// Whether these are the process and the group that the call names.
fn is_move(p: Acting, q: u32, g: u32, process: Option<u32>, group: Option<u32>) -> bool
    ensures { result ≡ spec.is_move p q g process group }
{
    match (process, group) {
        (Some(process), Some(group)) => {
            q == or_this(process, u32::from(p.get())) && g == or_this(group, q)
        }
        _ => false,
    }
}

impl Machine {
    /// The group that the process of a number joins, where there is one of that number and it may.
    fn joined(&self, process: &Process, q: u32, g: u32) -> Option<Pid>
        ensures { MatchOption result
            ((is_some (record_at (state_of self.now) q) && spec.is_joinable (state_of self.now) (record_of
            process.now) q g) ≡ false)
            (λ group. group ≡ g) }
    {
        self.table.get(q)?;
        if g == q {
            return Some(Pid::new(q as u16));
        }
        self.group_in(g, process.session)
    }
}
