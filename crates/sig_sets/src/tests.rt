//! Signals at the edges.

use super::*;
use bitflags::Flags;

/// These bits as a set, with bit 31 where it is given.
fn set(bits: u32) -> SigSet {
    SigSet::from_bits_retain(bits)
}

/// What a number's signal does by default, where there is one.
fn by_default(s: u8) -> Option<ByDefault> {
    if s >= 1 && s <= 31 {
        Some(default_of(s))
    } else {
        None
    }
}

#[test]
fn a_signal_is_the_bit_below_its_number(rt: HostRuntime) {
    assert_eq!(rt; SigSet::only(1).bits(), 1);
    assert_eq!(rt; SigSet::only(31).bits(), 0x4000_0000);
    assert_eq!(rt; SigSet::only(9), SigSet::KILL);
    assert_eq!(rt; SigSet::only(19), SigSet::STOP);
    assert_eq!(rt;
        SigSet::from_name("X31").map(|s| s.bits()),
        Some(0x4000_0000)
    );
    assert_eq!(rt; SigSet::from_bits(0x8000_0000).is_none(), true);
    assert_eq!(rt; SigSet::all().bits(), 0x7FFF_FFFF);
    assert!(rt; set(0x4000_0001).has(31));
    assert!(rt; set(0x4000_0001).has(1));
    assert!(rt; !set(0xBFFF_FFFE).has(31));
    assert!(rt; !set(0xBFFF_FFFE).has(1));
}

#[test]
fn generation_takes_away_what_it_undoes(rt: HostRuntime) {
    assert_eq!(rt; generate(set(0), 1).bits(), 1);
    assert_eq!(rt; generate(set(1), 31).bits(), 0x4000_0001);
    assert_eq!(rt; generate(set(0x7FFF_FFFF), 9).bits(), 0x7FFF_FFFF);
    assert_eq!(rt; generate(set(0x7FFF_FFFF), 19).bits(), 0x7FFD_FFFF);
    assert_eq!(rt; generate(set(0x7FFF_FFFF), 22).bits(), 0x7FFD_FFFF);
    assert_eq!(rt; generate(set(0x7FFF_FFFF), 18).bits(), 0x7FC3_FFFF);
    assert_eq!(rt; generate(set(0x7FFF_FFFF), 23).bits(), 0x7FFF_FFFF);
    assert_eq!(rt; generate(set(0x8000_0000), 1).bits(), 1);
}

#[test]
fn the_lowest_open_signal_is_delivered(rt: HostRuntime) {
    assert_eq!(rt; deliverable(set(0), set(0)), None);
    assert_eq!(rt; deliverable(set(0x7FFF_FFFF), set(0)), Some(1));
    assert_eq!(rt; deliverable(set(0x7FFF_FFFF), set(0x3FFF_FFFF)), Some(31));
    assert_eq!(rt; deliverable(set(0x7FFF_FFFF), set(0x7FFF_FFFF)), None);
    assert_eq!(rt; deliverable(set(0x0004_0100), set(0)), Some(9));
    assert_eq!(rt; deliverable(set(0x0004_0100), set(0x0100)), Some(19));
    assert_eq!(rt; deliverable(set(0x8000_0000), set(0)), None);
}

#[test]
fn kill_and_stop_are_never_masked(rt: HostRuntime) {
    assert_eq!(rt; clean_mask(0xFFFF_FFFF).bits(), 0x7FFB_FEFF);
    assert_eq!(rt; clean_mask(0x8004_0100).bits(), 0);
    assert_eq!(rt; clean_mask(0x4000_0001).bits(), 0x4000_0001);
}

#[test]
fn each_signal_has_its_default(rt: HostRuntime) {
    let cases = [
        (1, ByDefault::End),
        (9, ByDefault::End),
        (16, ByDefault::End),
        (17, ByDefault::Ignore),
        (18, ByDefault::Continue),
        (19, ByDefault::Stop),
        (20, ByDefault::Stop),
        (21, ByDefault::Stop),
        (22, ByDefault::Stop),
        (23, ByDefault::Ignore),
        (24, ByDefault::End),
        (27, ByDefault::End),
        (28, ByDefault::Ignore),
        (29, ByDefault::End),
        (31, ByDefault::End),
    ];
    for (s, wanted) in &cases {
        assert_eq!(rt; by_default(*s), Some(*wanted), "{s}");
    }
}
