//! The members of groups, and the children of processes.

ghost use Rattle.std.specs.Prelude.{◌≡◌, ◌&&◌, not, nat_eq, length, is_some, IfSome, option_copied};
ghost use Rattle.std.specs.FinSet as set;
ghost use Rattle.posix_spec.specs.Groups as groups;
ghost use Rattle.posix_spec.specs.GroupCalls as calls;
ghost use Rattle.posix_spec.specs.Records.{children};
ghost use Rattle.posix_model.specs.Machine.{state_of};
ghost use Rattle.posix_model.specs.MarkedNumbers.{numbers_of};
ghost use Rattle.posix_model.specs.Shown.{record_of};
ghost use Rattle.posix_model.specs.Underways.{members_in, underway_call};

use crate::machine::Machine;
use crate::marks::Marks;
use crate::process::{GroupCall, Process};
use crate::scans::Test;
use w32_base::{Answer, Errno, Pid};

/// A call for a group with the members that have had their step, which are none where it has no marks yet.
#[derive(Clone, Copy, Debug)]
pub struct Underway<'a> {
    /// The group and the signal.
    pub call: GroupCall,
    /// The members that have had their step.
    pub marks: Option<&'a Marks>,
}

impl Underway<'_> {
    /// Whether the member of this number has had its step.
    pub fn has(&self, number: u32) -> bool
        ensures { result ≡ set.contains (members_in self.now.marks) number }
    {
        match self.marks {
            Some(marks) => marks.has(number),
            None => false,
        }
    }
}

/// Whether a process is in a group.
#[derive(Clone, Copy)]
struct InGroup(u32);

impl Test for InGroup {
    ghost is_passed = { λ t q r. nat_eq r.group t.0 };

    fn passes(&self, _number: u32, process: &Process) -> bool {
        u32::from(process.group.get()) == self.0
    }
}

/// Whether a process is a child of the one with this number.
#[derive(Clone, Copy)]
struct ChildOf(u32);

impl Test for ChildOf {
    ghost is_passed = { λ t q r. nat_eq r.parent t.0 };

    fn passes(&self, _number: u32, process: &Process) -> bool {
        u32::from(process.parent) == self.0
    }
}

/// Whether a process is a member that has had no step yet.
#[derive(Clone, Copy)]
struct Waiting<'a>(Underway<'a>);

impl Test for Waiting<'_> {
    ghost is_passed = { λ t q r. nat_eq r.group t.0.call.group && not (set.contains (members_in t.0.marks) q) };

    fn passes(&self, number: u32, process: &Process) -> bool {
        u32::from(process.group.get()) == self.0.call.group && !self.0.has(number)
    }
}

impl Machine {
    /// Whether some process is in the group.
    pub fn has_member(&self, g: u32) -> bool
        ensures { result ≡ groups.has_member (state_of self.now) g }
    {
        self.table.some(&InGroup(g))
    }

    /// How many children a process has.
    pub fn children(&self, p: u32) -> usize
        ensures { result ≡ length (children (state_of self.now) p) }
    {
        self.table.count(&ChildOf(p))
    }

    /// Whether each member now has had its step.
    pub fn is_complete(&self, u: Underway<'_>) -> bool
        ensures { result ≡ calls.is_complete (state_of self.now) (underway_call u.entry) }
    {
        !self.table.some(&Waiting(u))
    }

    /// The number of a member now that has had no step yet, where the signal is the call's.
    pub fn next_member(&self, u: Underway<'_>, q: u32, signal: u32) -> Option<Pid>
        ensures next { is_some result ≡ calls.is_next_member (state_of self.now) (underway_call u.entry) q signal }
        ensures number { IfSome result (λ n. n ≡ q) }
    {
        let process = self.table.get(q)?;
        if u32::from(process.group.get()) != u.call.group
            || u.has(q)
            || signal != u32::from(u.call.signal)
        {
            return None;
        }
        Some(Pid::new(q as u16))
    }

    /// Whether the call ends with this group, signal and answer.
    pub fn ends_with(&self, u: Underway<'_>, g: u32, signal: u32, answer: Answer) -> bool
        ensures { result ≡ calls.ends_with (state_of self.now) (underway_call u.entry) g signal answer }
    {
        g == u.call.group
            && signal == u32::from(u.call.signal)
            && self.is_complete(u)
            && answer == self.group_answer(g)
    }

    /// ESRCH where there is no member now.
    fn group_answer(&self, g: u32) -> Answer
        ensures { result ≡ calls.group_answer (state_of self.now) (record {
          group = g;
          signal = 0;
          members =
              set.empty;
        }) }
    {
        if self.has_member(g) {
            Answer::Zero
        } else {
            Answer::Error(Errno::ESRCH)
        }
    }
}
