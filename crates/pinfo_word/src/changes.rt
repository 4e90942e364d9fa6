//! How a main word may change.

ghost use Rattle.std.specs.Prelude.{◌≡◌, ◌^◌, ◌<◌, IsTrue, true};
ghost use Rattle.std.specs.Option.{option_map};
ghost use Rattle.posix_spec.specs.Signals.{is_signal};
ghost use Rattle.layer_spec.specs.Rows.{Running, Stopped, is_main, is_live_kind};
ghost use Rattle.layer_spec.specs.Transitions.{blank, published, posted, woken, cleared, stopped, taken_over, sealed};
ghost use Rattle.layer_spec.specs.Transitions.{reported, trans, is_op};
ghost use Rattle.pinfo_word.specs.Fields.{shown_kind};
ghost use Rattle.pinfo_word.specs.Shown.{shown_main, shown_op};

use crate::words::{Main, RowKind};
use bitflags::Flags;
use sig_sets::{SigSet, generate};

/// A change of a main word.
#[derive(Clone, Copy, Debug, PartialEq, Eq)]
pub enum Op {
    /// A free row is held for a child to come.
    Hold,
    /// A held row isn't used.
    Drop,
    /// A held row becomes a process with this image.
    Publish(u32),
    /// The signal is posted.
    Post(u8),
    /// The row is only looked at.
    Probe,
    /// The pending signal is taken away.
    Clear(u8),
    /// The pending signal stops the process.
    Stop(u8),
    /// This image takes over.
    TakeOver(u32),
    /// The process dies with this status.
    Seal(u16),
    /// Its stop or its continue is told.
    Report,
    /// Its parent reaps the zombie.
    Reap,
    /// The zombie has no parent and goes.
    Collect,
}

/// A row of this kind without any other field.
fn blank(kind: RowKind) -> Main
    requires { IsTrue (is_main (blank (shown_kind kind))) }
    ensures { shown_main result ≡ blank (shown_kind kind) }
{
    Main {
        kind,
        stop: 0,
        report: 0,
        execd: false,
        image: 0,
        pending: SigSet::empty(),
        status: 0,
    }
}

/// A process that begins to run in this image.
fn published(image: u32) -> Main
    requires { image < 2 ^ 19 }
    ensures { shown_main result ≡ published image }
{
    Main {
        kind: RowKind::Running,
        stop: 0,
        report: 0,
        execd: false,
        image,
        pending: SigSet::empty(),
        status: 0,
    }
}

/// A running process to which the signal is posted.
fn posted(main: &Main, s: u8) -> Main
    requires signal { IsTrue (is_signal s) }
    requires runs { shown_kind main.now.kind ≡ Running }
    ensures { shown_main result ≡ posted (shown_main main.now) s }
{
    Main {
        kind: main.kind,
        stop: main.stop,
        report: main.report,
        execd: main.execd,
        image: main.image,
        pending: generate(main.pending, s),
        status: main.status,
    }
}

/// A stopped process to which the signal is posted: CONT makes it run again.
fn woken(main: &Main, s: u8) -> Main
    requires signal { IsTrue (is_signal s) }
    requires is_stopped { shown_kind main.now.kind ≡ Stopped }
    ensures { shown_main result ≡ woken (shown_main main.now) s }
{
    let pending = generate(main.pending, s);
    if s == 18 {
        Main {
            kind: RowKind::Running,
            stop: 0,
            report: 2,
            execd: main.execd,
            image: main.image,
            pending,
            status: main.status,
        }
    } else {
        Main {
            kind: main.kind,
            stop: main.stop,
            report: main.report,
            execd: main.execd,
            image: main.image,
            pending,
            status: main.status,
        }
    }
}

/// A running process without the signal, where it is pending.
fn cleared(main: &Main, s: u8) -> Option<Main>
    requires signal { IsTrue (is_signal s) }
    requires runs { shown_kind main.now.kind ≡ Running }
    ensures { option_map shown_main result ≡ cleared (shown_main main.now) s }
{
    if main.pending.has(s) {
        Some(Main {
            kind: main.kind,
            stop: main.stop,
            report: main.report,
            execd: main.execd,
            image: main.image,
            pending: main.pending.outside(SigSet::only(s)),
            status: main.status,
        })
    } else {
        None
    }
}

/// A running process that the signal stops, where it is pending and one that stops.
fn stopped(main: &Main, s: u8) -> Option<Main>
    requires signal { IsTrue (is_signal s) }
    requires runs { shown_kind main.now.kind ≡ Running }
    ensures { option_map shown_main result ≡ stopped (shown_main main.now) s }
{
    if s >= 19 && s <= 22 && main.pending.has(s) {
        Some(Main {
            kind: RowKind::Stopped,
            stop: s,
            report: 1,
            execd: main.execd,
            image: main.image,
            pending: main.pending.outside(SigSet::only(s)),
            status: main.status,
        })
    } else {
        None
    }
}

/// A running process whose next image this is.
fn taken_over(main: &Main, image: u32) -> Main
    requires small { image < 2 ^ 19 }
    requires runs { shown_kind main.now.kind ≡ Running }
    ensures { shown_main result ≡ taken_over (shown_main main.now) image }
{
    Main {
        kind: main.kind,
        stop: main.stop,
        report: main.report,
        execd: true,
        image,
        pending: main.pending,
        status: main.status,
    }
}

/// A live process that has died with this status.
fn sealed(main: &Main, status: u16) -> Main
    requires small { status < 2 ^ 9 }
    requires lives { is_live_kind (shown_kind main.now.kind) ≡ true }
    ensures { shown_main result ≡ sealed (shown_main main.now) status }
{
    Main {
        kind: RowKind::Zombie,
        stop: 0,
        report: 0,
        execd: main.execd,
        image: main.image,
        pending: SigSet::empty(),
        status,
    }
}

/// A live process without its report, where it is this one.
fn reported(main: &Main, report: u8) -> Option<Main>
    requires lives { is_live_kind (shown_kind main.now.kind) ≡ true }
    ensures { option_map shown_main result ≡ reported (shown_main main.now) report }
{
    if main.report == report {
        Some(Main {
            kind: main.kind,
            stop: main.stop,
            report: 0,
            execd: main.execd,
            image: main.image,
            pending: main.pending,
            status: main.status,
        })
    } else {
        None
    }
}

/// A table of changes: what comes of a row of each kind that a change is for, and nothing of every other kind.
macro_rules! table {
    ($main:ident, $op:expr; $($change:pat => { $($kind:ident: $result:expr),* })*) => {
        match $op {
            $($change => match $main.kind {
                $(RowKind::$kind => $result,)*
                _ => None,
            },)*
        }
    };
}

/// What comes of a row by a change, or none where a row of its kind doesn't change so.
pub fn trans(main: &Main, op: &Op) -> Option<Main>
    requires { IsTrue (is_op (shown_op op.now)) }
    ensures { option_map shown_main result ≡ trans (shown_main main.now) (shown_op op.now) }
{
    table! { main, *op;
        Op::Hold => { Free: Some(blank(RowKind::Held)) }
        Op::Drop => { Held: Some(blank(RowKind::Gone)) }
        Op::Publish(image) => { Held: Some(published(image)) }
        Op::Post(s) => { Running: Some(posted(main, s)), Stopped: Some(woken(main, s)), Zombie: Some(*main) }
        Op::Probe => { Running: Some(*main), Stopped: Some(*main), Zombie: Some(*main) }
        Op::Clear(s) => { Running: cleared(main, s) }
        Op::Stop(s) => { Running: stopped(main, s) }
        Op::TakeOver(image) => { Running: Some(taken_over(main, image)) }
        Op::Seal(status) => { Running: Some(sealed(main, status)), Stopped: Some(sealed(main, status)) }
        Op::Report => { Running: reported(main, 2), Stopped: reported(main, 1) }
        Op::Reap => { Zombie: Some(blank(RowKind::Gone)) }
        Op::Collect => { Zombie: Some(blank(RowKind::Gone)) }
    }
}
