//! The words of a row as numbers: sums of fields times powers of two.

ghost use Rattle.std.specs.Prelude.{◌≡◌, ◌+◌, ◌^◌, ◌<◌};
ghost use Rattle.std.specs.Option.{option_map};
ghost use Rattle.layer_spec.specs.Rows.{is_main, is_group, is_exit, kind_number, kind_from, main_word_of};
ghost use Rattle.layer_spec.specs.Rows.{group_word_of, exit_word_of};
ghost use Rattle.layer_spec.specs.Decoding.{field, main_fields, if_main, main_of, group_of, exit_of};
ghost use Rattle.pinfo_word.specs.Fields.{shown_kind, main_by, group_by, exit_by};
ghost use Rattle.pinfo_word.specs.Shown.{shown_main, shown_group, shown_exit};

use crate::words::{Exit, Group, Main, RowKind};
use bitflags::Flags;
use sig_sets::SigSet;

/// The field of so many bits from a place of a word on.
fn field(word: u64, place: u32, width: u32) -> u64
    requires { place + width < 64 }
    ensures value { result ≡ field word place width }
    ensures small { result < 2 ^ width }
{
    word >> place & ((1 << width) - 1)
}

impl RowKind {
    /// The number of the kind in a main word.
    fn number(self) -> u8
        ensures { result ≡ kind_number (shown_kind self) }
    {
        match self {
            RowKind::Free => 0,
            RowKind::Held => 1,
            RowKind::Running => 2,
            RowKind::Stopped => 3,
            RowKind::Zombie => 4,
            RowKind::Gone => 5,
        }
    }

    /// The kind with this number, if there is one.
    fn from_number(number: u64) -> Option<RowKind>
        ensures { option_map shown_kind result ≡ kind_from number }
    {
        match number {
            0 => Some(RowKind::Free),
            1 => Some(RowKind::Held),
            2 => Some(RowKind::Running),
            3 => Some(RowKind::Stopped),
            4 => Some(RowKind::Zombie),
            5 => Some(RowKind::Gone),
            _ => None,
        }
    }
}

/// Whether a main word may have these fields.
fn is_legal(
    kind: RowKind,
    stop: u8,
    report: u8,
    execd: bool,
    image: u32,
    pending: SigSet,
    status: u16,
) -> bool
    ensures { result ≡ is_main (main_by kind stop report execd image pending status) }
{
    match kind {
        RowKind::Free | RowKind::Held | RowKind::Gone => {
            stop == 0 && report == 0 && !execd && image == 0 && pending.bits() == 0 && status == 0
        }
        RowKind::Running => {
            stop == 0
                && (report == 0 || report == 2)
                && image < 1 << 19
                && pending.bits() < 1 << 31
                && status == 0
        }
        RowKind::Stopped => {
            stop >= 19
                && stop <= 22
                && (report == 0 || report == 1)
                && image < 1 << 19
                && pending.bits() < 1 << 31
                && status == 0
        }
        RowKind::Zombie => {
            stop == 0 && report == 0 && image < 1 << 19 && pending.bits() == 0 && status < 1 << 9
        }
    }
}

impl Main {
    /// The word.
    pub fn encode(&self) -> u64
        ensures value { result ≡ main_word_of (shown_main self.now) }
        ensures small { result < 2 ^ 61 }
    {
        let low = match self.kind {
            RowKind::Zombie => u64::from(self.status),
            _ => u64::from(self.pending.bits()),
        };
        low + (u64::from(self.image) << 31)
            + (u64::from(self.kind.number()) << 50)
            + (u64::from(self.report) << 53)
            + (u64::from(self.execd) << 55)
            + (u64::from(self.stop) << 56)
    }

    /// What the word tells, or none where no row has such a word.
    pub fn decode(word: u64) -> Option<Main>
        ensures { option_map shown_main result ≡ main_of word }
    {
        match RowKind::from_number(field(word, 50, 3)) {
            None => None,
            Some(kind) => Main::of_kind(word, kind),
        }
    }

    /// What a word of this kind tells.
    fn of_kind(word: u64, kind: RowKind) -> Option<Main>
        ensures { option_map shown_main result ≡ if_main word (main_fields (shown_kind kind) word) }
    {
        let low = field(word, 0, 31);
        let (pending, status) = match kind {
            RowKind::Zombie => (0, low),
            _ => (low, 0),
        };
        if status >= 1 << 9 {
            return None;
        }
        let stop = field(word, 56, 5) as u8;
        let report = field(word, 53, 2) as u8;
        let execd = field(word, 55, 1) == 1;
        let image = field(word, 31, 19) as u32;
        let pending = SigSet::from_bits_retain(pending as u32);
        let status = status as u16;
        if !is_legal(kind, stop, report, execd, image, pending, status) {
            return None;
        }
        let main = Main {
            kind,
            stop,
            report,
            execd,
            image,
            pending,
            status,
        };
        if main.encode() == word {
            Some(main)
        } else {
            None
        }
    }
}

impl Group {
    /// The word.
    pub fn encode(&self) -> u64
        ensures value { result ≡ group_word_of (shown_group self.now) }
        ensures small { result < 2 ^ 37 }
    {
        u64::from(self.ppid)
            + (u64::from(self.pgid) << 12)
            + (u64::from(self.sid) << 24)
            + (u64::from(self.tty) << 36)
    }

    /// What the word tells, or none where no row has such a word.
    pub fn decode(word: u64) -> Option<Group>
        ensures { option_map shown_group result ≡ group_of word }
    {
        let group = Group {
            ppid: field(word, 0, 12) as u16,
            pgid: field(word, 12, 12) as u16,
            sid: field(word, 24, 12) as u16,
            tty: field(word, 36, 1) == 1,
        };
        if group.encode() == word {
            Some(group)
        } else {
            None
        }
    }
}

impl Exit {
    /// The word.
    pub fn encode(&self) -> u64
        ensures value { result ≡ exit_word_of (shown_exit self.now) }
        ensures small { result < 2 ^ 29 }
    {
        u64::from(self.status) + (u64::from(self.image) << 9) + (u64::from(self.fault) << 28)
    }

    /// What the word tells, or none where no row has such a word.
    pub fn decode(word: u64) -> Option<Exit>
        ensures { option_map shown_exit result ≡ exit_of word }
    {
        let status = field(word, 0, 9) as u16;
        let image = field(word, 9, 19) as u32;
        let fault = field(word, 28, 1) == 1;
        if fault && status != 267 {
            return None;
        }
        let exit = Exit {
            image,
            status,
            fault,
        };
        if exit.encode() == word {
            Some(exit)
        } else {
            None
        }
    }
}
