//! Words at the edges, and each change of each kind of row.

ghost use Rattle.std.specs.Prelude.{IsTrue};
ghost use Rattle.layer_spec.specs.Transitions.{is_op};
ghost use Rattle.pinfo_word.specs.Shown.{shown_op};

use super::*;
use bitflags::Flags;
use sig_sets::SigSet;

/// A free row, and a held one.
const FREE: u64 = 0;

const HELD: u64 = 1125899906842624;
/// Image 2 with TERM, CONT, STOP and signal 31 pending, whose continue wasn't told.
const RUNNING: u64 = 20266203692285952;
/// The last image after an exec, stopped by TSTP, which wasn't told, with KILL and TTIN pending.
const STOPPED: u64 = 1490691474513199360;
/// Image 2 after an exec, with status 7.
const ZOMBIE: u64 = 40532400941301767;
/// A row that isn't used again.
const GONE: u64 = 5629499534213120;

/// What comes of a row's main word by a change.
fn after(word: u64, op: &Op) -> Option<u64>
    requires { IsTrue (is_op (shown_op op.now)) }
{
    let main = Main::decode(word)?;
    Some(trans(&main, op)?.encode())
}

/// Whether the change gives these words of the six rows.
fn gives(op: Op, want: [Option<u64>; 6]) -> bool
    requires { IsTrue (is_op (shown_op op)) }
{
    after(FREE, &op) == want[0]
        && after(HELD, &op) == want[1]
        && after(RUNNING, &op) == want[2]
        && after(STOPPED, &op) == want[3]
        && after(ZOMBIE, &op) == want[4]
        && after(GONE, &op) == want[5]
}

/// The word that is told by this one, where it is a main word.
fn main_again(word: u64) -> Option<u64> {
    Some(Main::decode(word)?.encode())
}

/// The same of a group word, and of an exit word.
fn group_again(word: u64) -> Option<u64> {
    Some(Group::decode(word)?.encode())
}

fn exit_again(word: u64) -> Option<u64> {
    Some(Exit::decode(word)?.encode())
}

#[test]
fn each_change_of_each_kind_goes_by_the_table(rt: HostRuntime) {
    assert!(rt;
        gives(
            Op::Hold,
            [Some(1125899906842624), None, None, None, None, None]
        )
    );
    assert!(rt;
        gives(
            Op::Drop,
            [None, Some(5629499534213120), None, None, None, None]
        )
    );
    assert!(rt;
        gives(
            Op::Publish(9),
            [None, Some(2251819141038080), None, None, None, None]
        )
    );
    assert!(rt;
        gives(
            Op::Post(18),
            [
                None,
                None,
                Some(20266203692023808),
                Some(57420893101621504),
                Some(40532400941301767),
                None
            ]
        )
    );
    assert!(rt;
        gives(
            Op::Post(20),
            [
                None,
                None,
                Some(20266203692679168),
                Some(1490691474513723648),
                Some(40532400941301767),
                None
            ]
        )
    );
    assert!(rt;
        gives(
            Op::Post(1),
            [
                None,
                None,
                Some(20266203692285953),
                Some(1490691474513199361),
                Some(40532400941301767),
                None
            ]
        )
    );
    assert!(rt;
        gives(
            Op::Probe,
            [
                None,
                None,
                Some(20266203692285952),
                Some(1490691474513199360),
                Some(40532400941301767),
                None
            ]
        )
    );
    assert!(rt;
        gives(
            Op::Clear(15),
            [None, None, Some(20266203692269568), None, None, None]
        )
    );
    assert!(rt; gives(Op::Clear(14), [None, None, None, None, None, None]));
    assert!(rt;
        gives(
            Op::Stop(19),
            [None, None, Some(1381479191064756224), None, None, None]
        )
    );
    assert!(rt; gives(Op::Stop(15), [None, None, None, None, None, None]));
    assert!(rt; gives(Op::Stop(20), [None, None, None, None, None, None]));
    assert!(rt;
        gives(
            Op::TakeOver(9),
            [None, None, Some(56295015743635456), None, None, None]
        )
    );
    assert!(rt;
        gives(
            Op::Seal(265),
            [
                None,
                None,
                Some(4503603922338057),
                Some(41658294405693705),
                None,
                None
            ]
        )
    );
    assert!(rt;
        gives(
            Op::Report,
            [
                None,
                None,
                Some(2251805182803968),
                Some(1481684275258458368),
                None,
                None
            ]
        )
    );
    assert!(rt;
        gives(
            Op::Reap,
            [None, None, None, None, Some(5629499534213120), None]
        )
    );
    assert!(rt;
        gives(
            Op::Collect,
            [None, None, None, None, Some(5629499534213120), None]
        )
    );
}

#[test]
fn a_main_word_has_its_fields_at_their_places(rt: HostRuntime) {
    let runs = Main {
        kind: RowKind::Running,
        stop: 0,
        report: 0,
        execd: false,
        image: 2,
        pending: SigSet::empty(),
        status: 0,
    };
    assert_eq!(rt; runs.encode(), 2251804108652544);
    assert_eq!(rt;
        trans(&runs, &Op::Post(15)).map(|m| m.encode()),
        Some(2251804108668928)
    );
    let stopped = Main {
        kind: RowKind::Stopped,
        stop: 19,
        report: 1,
        execd: false,
        image: 2,
        pending: SigSet::empty(),
        status: 0,
    };
    assert_eq!(rt; stopped.encode(), 1381479189990866944);
    let zombie = Main {
        kind: RowKind::Zombie,
        stop: 0,
        report: 0,
        execd: false,
        image: 2,
        pending: SigSet::empty(),
        status: 7,
    };
    assert_eq!(rt; zombie.encode(), 4503603922337799);
    assert_eq!(rt; Main::decode(4503603922337799), Some(zombie));
    let largest = Main {
        kind: RowKind::Stopped,
        stop: 22,
        report: 1,
        execd: true,
        image: 524287,
        pending: SigSet::from_bits_retain(0x7FFF_FFFF),
        status: 0,
    };
    assert_eq!(rt; Main::decode(largest.encode()), Some(largest));
}

#[test]
fn group_and_exit_words_have_their_fields_at_their_places(rt: HostRuntime) {
    let group = Group {
        ppid: 1,
        pgid: 2,
        sid: 2,
        tty: true,
    };
    assert_eq!(rt; group.encode(), 68753039361);
    assert_eq!(rt; Group::decode(68753039361), Some(group));
    let exit = Exit {
        image: 2,
        status: 7,
        fault: false,
    };
    assert_eq!(rt; exit.encode(), 1031);
    assert_eq!(rt; Exit::decode(1031), Some(exit));
    assert_eq!(rt; group_again((1 << 37) - 1), Some((1 << 37) - 1));
    assert_eq!(rt; group_again(1 << 37), None);
    assert_eq!(rt;
        exit_again(267 + (524287 << 9) + (1 << 28)),
        Some(267 + (524287 << 9) + (1 << 28))
    );
    assert_eq!(rt; exit_again(266 + (2 << 9) + (1 << 28)), None);
    assert_eq!(rt; exit_again(1031 + (1 << 29)), None);
    assert_eq!(rt; exit_again(0), Some(0));
}

#[test]
fn what_no_row_has_is_no_main_word(rt: HostRuntime) {
    assert_eq!(rt; main_again(0), Some(0));
    assert_eq!(rt; main_again(1), None);
    assert_eq!(rt; main_again(HELD + (1 << 31)), None);
    assert_eq!(rt; main_again(GONE + (1 << 55)), None);
    assert_eq!(rt; main_again(6 << 50), None);
    assert_eq!(rt; main_again(7 << 50), None);
    assert_eq!(rt; main_again(2251804108652544 + (1 << 61)), None);
    assert_eq!(rt; main_again(2251804108652544 + (1 << 63)), None);
    assert_eq!(rt; main_again(2251804108652544 + (1 << 53)), None);
    assert_eq!(rt; main_again(2251804108652544 + (3 << 53)), None);
    assert_eq!(rt; main_again(2251804108652544 + (19 << 56)), None);
    assert_eq!(rt; main_again(1381479189990866944 + (1 << 53)), None);
    assert_eq!(rt; main_again(1381479189990866944 - (1 << 56)), None);
    assert_eq!(rt; main_again(1381479189990866944 + (4 << 56)), None);
    assert_eq!(rt; main_again(4503603922337799 + (1 << 53)), None);
    assert_eq!(rt; main_again(4503603922337799 + (19 << 56)), None);
    assert_eq!(rt; main_again(4503603922337799 + (1 << 9)), None);
    assert_eq!(rt; main_again(0xFFFF_FFFF_FFFF_FFFF), None);
}
