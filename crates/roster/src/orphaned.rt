//! Whether a group is orphaned.

ghost use Rattle.std.specs.Prelude.{◌≡◌, ◌<◌, ◌≤◌, ◌↔◌, ◌+◌, IsTrue};

use crate::scan::Scan;
use crate::{calls, words};
use pinfo_word::Group;
use w32_base::{After, Call, Own, Part, Pid, Reply, RowNo, Setup};

/// A member whose parent is looked at.
#[derive(Clone, Copy, Debug, PartialEq, Eq)]
pub struct Member {
    /// The group.
    pub group: u16,
    /// The member's session.
    pub session: u16,
    /// Its parent's row.
    pub parent: RowNo,
    /// The look through the rows behind it.
    pub rest: Scan,
}

/// Tells the holder of the roster mutex whether a group is orphaned. Where it isn't, the last step is the look that
/// shows a live parent outside the group and in its session.
#[derive(Clone, Copy, Debug, PartialEq, Eq)]
pub enum Orphaned {
    /// Looks through the rows for members of the group.
    Scanning(u16, Scan),
    /// Looks at the group word of a member's parent.
    Grouping(Member),
    /// Looks at the main word of a parent outside.
    Looking(Member),
    /// Is done: whether the group is orphaned.
    Answered(bool),
    /// Has nothing to do any more.
    Rest,
}

impl Orphaned {
    ghost use Rattle.roster.specs.declared.scan.Scan.TheVariants.{Counting};
    ghost use Rattle.roster.specs.Scan.{scan_next};
    ghost use Rattle.roster.specs.Orphaned.{is_outside, orphaned_on, orphaned_found, orphaned_scanned};
    ghost use Rattle.roster.specs.Orphaned.{orphaned_grouped, orphaned_looked, orphaned_after};
    ghost use Rattle.roster.specs.Orphaned.{orphaned_rank, orphaned_answer};
    ghost use Rattle.layer_spec.specs.Decoding.{group_of};

    /// At its start, for a group, where there are so many rows.
    pub fn new(group: u16, rows: RowNo) -> Orphaned
        ensures { result ≡ Orphaned.Scanning group (Counting rows) }
    {
        Orphaned::Scanning(group, Scan::new(rows))
    }

    /// Whether the group is orphaned; none before it is done.
    pub fn answer(self) -> Option<bool>
        ensures { result ≡ orphaned_answer self }
    {
        match self {
            Orphaned::Answered(is_orphaned) => Some(is_orphaned),
            _ => None,
        }
    }

    /// Whether it is done.
    pub fn is_finished(self) -> bool
        ensures { IsTrue result ↔ (orphaned_rank self ≡ 0) }
    {
        matches!(self, Orphaned::Answered(_))
    }

    // Goes on through these rows.
    fn on(group: u16, rows: Scan) -> Orphaned
        ensures { result ≡ orphaned_on group rows }
    {
        match rows {
            Scan::Past => Orphaned::Answered(true),
            other => Orphaned::Scanning(group, other),
        }
    }

    // With a process that was found, and the rows behind it.
    fn found(group: u16, word: u64, rest: Scan) -> Orphaned
        ensures { result ≡ orphaned_found group (group_of word) rest }
    {
        let Some(process) = Group::decode(word) else {
            return Orphaned::on(group, rest);
        };
        if process.pgid != group {
            return Orphaned::on(group, rest);
        }
        match Pid::try_new(process.ppid) {
            Some(parent) => Orphaned::Grouping(Member {
                group,
                session: process.sid,
                parent: parent.row(),
                rest,
            }),
            None => Orphaned::on(group, rest),
        }
    }

    // With the look through the rows after a turn.
    fn scanned(group: u16, rows: Scan) -> Orphaned
        ensures { result ≡ orphaned_scanned group rows }
    {
        match rows {
            Scan::Found(_, _, word) => Orphaned::found(group, word, rows.next()),
            other => Orphaned::on(group, other),
        }
    }

    // With the group word of a member's parent.
    fn grouped(member: Member, word: u64) -> Orphaned
        ensures { result ≡ orphaned_grouped member word }
    {
        match Group::decode(word) {
            Some(parent) if parent.pgid != member.group && parent.sid == member.session => {
                Orphaned::Looking(member)
            }
            _ => Orphaned::on(member.group, member.rest),
        }
    }

    // With its main word.
    fn looked(member: Member, word: u64) -> Orphaned
        ensures { result ≡ orphaned_looked member word }
    {
        if words::is_live(word) {
            Orphaned::Answered(false)
        } else {
            Orphaned::on(member.group, member.rest)
        }
    }

    // Where it goes with a reply.
    fn after_reply(self, reply: &Reply) -> Orphaned
        ensures { result ≡ orphaned_after self reply.now }
    {
        match self {
            Orphaned::Scanning(group, rows) => Orphaned::scanned(group, rows.after_reply(reply)),
            Orphaned::Grouping(member) => match reply {
                Reply::Word(word) => Orphaned::grouped(member, *word),
                _ => Orphaned::Rest,
            },
            Orphaned::Looking(member) => match reply {
                Reply::Word(word) => Orphaned::looked(member, *word),
                _ => Orphaned::Rest,
            },
            Orphaned::Answered(_) | Orphaned::Rest => self,
        }
    }
}

impl Part for Orphaned {
    ghost use Rattle.roster.specs.Orphaned.{orphaned_posted, orphaned_after, orphaned_rank};
    ghost use Rattle.roster.specs.OrphanedLaws.{orphaned_lowers};
    ghost use Rattle.roster.specs.Turns.{Went, quietly, went_lowers, went_keeps};

    ghost rank = { orphaned_rank };

    ghost posted_of = { orphaned_posted };

    ghost goes = { λ p o s r q n a. Went (quietly (orphaned_after p r)) o q n a };

    ghost lowers_rank = { λ p q o n s r a _ g keeps.
        went_lowers orphaned_rank orphaned_posted p q o n r a (quietly (orphaned_after p r)) (orphaned_lowers p r) g
        keeps };

    ghost keeps_lengths = { λ p q o n s r a _ g. went_keeps (quietly (orphaned_after p r)) o q n a g };

    fn posted(&self) -> Call {
        match *self {
            Orphaned::Scanning(_, rows) => rows.call(),
            Orphaned::Grouping(member) => calls::load(words::group_place(member.parent)),
            Orphaned::Looking(member) => calls::load(words::main_place(member.parent)),
            Orphaned::Answered(_) | Orphaned::Rest => calls::rest(),
        }
    }

    fn after(&mut self, _own: &mut Own, _setup: &Setup, reply: &Reply) -> After {
        *self = self.after_reply(reply);
        After {
            event: None,
            finished: self.is_finished(),
        }
    }
}
