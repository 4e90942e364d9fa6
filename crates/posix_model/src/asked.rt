//! What is asked of the groups and their members.

ghost use Rattle.std.specs.Prelude.{◌≡◌, ◌&&◌, nat_eq, not, false, MatchOption};
ghost use Rattle.posix_spec.specs.Groups as spec;
ghost use Rattle.posix_spec.specs.State.{record_of as record_at};
ghost use Rattle.posix_model.specs.Asked.{is_tied};
ghost use Rattle.posix_model.specs.Machine.{state_of};
ghost use Rattle.posix_model.specs.Shown.{record_of};

use crate::machine::Machine;
use crate::process::Process;
use crate::scans::Test;
use w32_base::Pid;

/// Whether a process is in a group and a session.
#[derive(Clone, Copy)]
struct InSession {
    group: u32,
    session: Pid,
}

impl Test for InSession {
    ghost is_passed = { λ t q r. nat_eq r.group t.group && nat_eq r.session t.session };

    fn passes(&self, _number: u32, process: &Process) -> bool {
        process.is_in(self.group) && process.session == self.session
    }
}

/// Whether the shown parent of a member of the group is in its session, and not in the group.
#[derive(Clone, Copy)]
struct Tied<'a> {
    machine: &'a Machine,
    group: u32,
}

impl<'a> Test for Tied<'a> {
    ghost is_passed = { λ t q r. is_tied (state_of t.machine.now) t.group q r };

    fn passes(&self, _number: u32, process: &Process) -> bool {
        process.is_in(self.group) && self.machine.has_parent_outside(self.group, process)
    }
}

impl Machine {
    /// Whether the group exists in the session.
    pub fn has_member_in(&self, g: u32, session: Pid) -> bool
        ensures { result ≡ spec.has_member_in (state_of self.now) g session }
    {
        self.table.some(&InSession { group: g, session })
    }

    /// The group, where it exists in the session.
    pub fn group_in(&self, g: u32, session: Pid) -> Option<Pid>
        ensures { MatchOption result (spec.has_member_in (state_of self.now) g session ≡ false) (λ group. group ≡ g) }
    {
        match self.table.find(&InSession { group: g, session }) {
            Some(process) => Some(process.group),
            None => None,
        }
    }

    /// Whether the group is orphaned: the shown parent of each member is in the group or isn't in its session.
    pub fn is_orphaned(&self, g: u32) -> bool
        ensures { result ≡ spec.is_orphaned (state_of self.now) g }
    {
        !self.table.some(&Tied {
            machine: self,
            group: g,
        })
    }

    /// Whether the process's shown parent is in its session, and not in the group.
    fn has_parent_outside(&self, g: u32, process: &Process) -> bool
        ensures { result ≡ not (spec.has_no_parent_outside g (record_of process.now).session (record_at (state_of
            self.now) (record_of process.now).parent)) }
    {
        match self.table.get(u32::from(process.parent)) {
            Some(parent) => {
                parent.is_live() && !parent.is_in(g) && parent.session == process.session
            }
            None => false,
        }
    }
}

impl Process {
    /// Whether it is in the group.
    pub fn is_in(&self, g: u32) -> bool
        ensures { result ≡ nat_eq (record_of self.now).group g }
    {
        u32::from(self.group.get()) == g
    }
}
