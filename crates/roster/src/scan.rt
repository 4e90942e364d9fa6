//! Looking through the rows.

ghost use Rattle.std.specs.Prelude.{◌≡◌, ◌<◌, ◌≤◌, ◌↔◌, ◌+◌, IsTrue};
ghost use Rattle.std.specs.Option.{option_map};

use crate::{calls, words};
use pinfo_word::Group;
use w32_base::{After, Call, Own, Part, Reply, RowNo, Setup};

/// Looks through the rows that are claimed, in rising order, and stops at each that is a process. The thread holds the
/// roster mutex meanwhile, so the processes that it finds stay what they are, deaths aside.
#[derive(Clone, Copy, Debug, PartialEq, Eq)]
pub enum Scan {
    /// Looks how many rows are claimed. There are so many rows in all.
    Counting(RowNo),
    /// Looks at a row's main word. The second is the last row.
    Looking(RowNo, RowNo),
    /// Looks at its group word.
    Grouping(RowNo, RowNo),
    /// Is done: the row is a process with this group word.
    Found(RowNo, RowNo, u64),
    /// Is done: no further row is a process.
    Past,
    /// Has nothing to do any more.
    Rest,
}

impl Scan {
    ghost use Rattle.roster.specs.Scan.{scan_from, scan_counted, scan_looked, scan_grouped, scan_after, scan_next};
    ghost use Rattle.roster.specs.Scan.{scan_posted, scan_rank, scan_row, scan_answer};
    ghost use Rattle.pinfo_word.specs.Shown.{shown_group};

    /// At its start, where there are so many rows.
    pub fn new(rows: RowNo) -> Scan
        ensures { result ≡ Scan.Counting rows }
    {
        Scan::Counting(rows)
    }

    /// The row of the process that it has found; none also before it is done.
    pub fn row(self) -> Option<RowNo>
        ensures { result ≡ scan_row self }
    {
        match self {
            Scan::Found(row, _, _) => Some(row),
            _ => None,
        }
    }

    /// What the group word of the process that it has found tells; none also before it is done.
    pub fn answer(self) -> Option<Group>
        ensures { option_map shown_group result ≡ scan_answer self }
    {
        match self {
            Scan::Found(_, _, word) => Group::decode(word),
            _ => None,
        }
    }

    /// The look through the rows after a process that was found.
    pub fn next(self) -> Scan
        ensures { result ≡ scan_next self }
    {
        match self {
            Scan::Found(row, last, _) => Scan::behind(row, last),
            other => other,
        }
    }

    /// Whether it is done.
    pub fn is_finished(self) -> bool
        ensures { IsTrue result ↔ (scan_rank self ≡ 0) }
    {
        matches!(self, Scan::Found(_, _, _) | Scan::Past)
    }

    // The rows behind one.
    fn behind(row: RowNo, last: RowNo) -> Scan
        ensures { result ≡ scan_from (row + 1) last }
    {
        if row.get() < last.get() {
            Scan::Looking(RowNo::new(row.get() + 1), last)
        } else {
            Scan::Past
        }
    }

    // With the number of claims.
    fn counted(rows: RowNo, claims: u64) -> Scan
        ensures { result ≡ scan_counted rows claims }
    {
        if claims == 0 {
            return Scan::Past;
        }
        let last = if claims < u64::from(rows.get()) {
            RowNo::new(claims as u16)
        } else {
            rows
        };
        Scan::Looking(RowNo::new(1), last)
    }

    // With the main word of a row.
    fn looked(row: RowNo, last: RowNo, word: u64) -> Scan
        ensures { result ≡ scan_looked row last word }
    {
        if words::is_process(word) {
            Scan::Grouping(row, last)
        } else {
            Scan::behind(row, last)
        }
    }

    // With the group word of a process.
    fn grouped(row: RowNo, last: RowNo, word: u64) -> Scan
        ensures { result ≡ scan_grouped row last word }
    {
        match Group::decode(word) {
            Some(_) => Scan::Found(row, last, word),
            None => Scan::Rest,
        }
    }

    /// The call that it posts next.
    pub fn call(self) -> Call
        ensures { result ≡ scan_posted self }
    {
        match self {
            Scan::Counting(_) => calls::load(0),
            Scan::Looking(row, _) => calls::load(words::main_place(row)),
            Scan::Grouping(row, _) => calls::load(words::group_place(row)),
            Scan::Found(_, _, _) | Scan::Past | Scan::Rest => calls::rest(),
        }
    }

    /// Where it goes with a reply.
    pub fn after_reply(self, reply: &Reply) -> Scan
        ensures { result ≡ scan_after self reply.now }
    {
        match self {
            Scan::Counting(rows) => match reply {
                Reply::Word(claims) => Scan::counted(rows, *claims),
                _ => Scan::Rest,
            },
            Scan::Looking(row, last) => match reply {
                Reply::Word(word) => Scan::looked(row, last, *word),
                _ => Scan::Rest,
            },
            Scan::Grouping(row, last) => match reply {
                Reply::Word(word) => Scan::grouped(row, last, *word),
                _ => Scan::Rest,
            },
            Scan::Found(_, _, _) | Scan::Past | Scan::Rest => self,
        }
    }
}

impl Part for Scan {
    ghost use Rattle.roster.specs.Scan.{scan_posted, scan_after, scan_rank};
    ghost use Rattle.roster.specs.ScanLaws.{scan_lowers};
    ghost use Rattle.roster.specs.Turns.{Went, quietly, went_lowers, went_keeps};

    ghost rank = { scan_rank };

    ghost posted_of = { scan_posted };

    ghost goes = { λ p o s r q n a. Went (quietly (scan_after p r)) o q n a };

    ghost lowers_rank = { λ p q o n s r a _ g keeps.
        went_lowers scan_rank scan_posted p q o n r a (quietly (scan_after p r)) (scan_lowers p r) g keeps };

    ghost keeps_lengths = { λ p q o n s r a _ g. went_keeps (quietly (scan_after p r)) o q n a g };

    fn posted(&self) -> Call {
        self.call()
    }

    fn after(&mut self, _own: &mut Own, _setup: &Setup, reply: &Reply) -> After {
        *self = self.after_reply(reply);
        After {
            event: None,
            finished: self.is_finished(),
        }
    }
}
