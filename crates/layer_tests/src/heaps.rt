//! Cygheaps at their edges. The bytes and places are worked out by hand from the layout.

ghost use Rattle.std.specs.Prelude.{IsTrue, take};
ghost use Rattle.layer_spec.specs.Heap.{IsHeapBytes};

use cygheap_image::{
    HEAP_BYTES, Heap, add_child, child, children, for_child, for_exec, mask, note_death, owed,
    read_heap, remove_child, saved, set_action, set_base, set_mask, set_owed, set_saved,
};
use std::alloc::Global;
use std::test::Fail;
use w32_base::{Action, Bytes, Own};

/// Version 1, these bytes at these places, and zeros else.
fn bytes_with(changes: &[(usize, u8)]) -> [u8; HEAP_BYTES] {
    let mut bytes = [0; HEAP_BYTES];
    bytes[0] = 1;
    for (place, b) in changes {
        if *place < HEAP_BYTES {
            bytes[*place] = *b;
        }
    }
    bytes
}

/// The place at which these bytes break the layout, or 999 where they keep it.
fn place_of(bytes: &[u8]) -> u16 {
    match read_heap(bytes) {
        Ok(_) => 999,
        Err(e) => e.place,
    }
}

/// In `suspend`, with USR1 blocked before and INT now; two CHLD owed; a handler of INT at 300 that restarts; bases 10
/// and 1023; child 3, whose death is noted, and child 4001.
const SOME: [(usize, u8); 16] = [
    (2, 1),
    (4, 2),
    (9, 2),
    (12, 2),
    (20, 2),
    (21, 1),
    (22, 44),
    (23, 1),
    (140, 10),
    (142, 255),
    (143, 3),
    (156, 2),
    (160, 3),
    (162, 1),
    (164, 161),
    (165, 15),
];

/// What these bytes tell.
fn some_heap() -> Heap {
    let mut actions = [Action::Default; 31];
    actions[1] = Action::Handler(300, true);
    let mut bases = [0; 8];
    bases[0] = 10;
    bases[1] = 1023;
    let mut children = [(0, false); 32];
    children[0] = (3, true);
    children[1] = (4001, false);
    Heap {
        mask: 2,
        saved: Some(512),
        owed: 2,
        actions,
        bases,
        count: 2,
        children,
    }
}

#[test]
fn breaks_are_found(rt: HostRuntime) {
    assert_eq!(rt; place_of(&[0; 287]), 288);
    assert_eq!(rt; place_of(&[0; 289]), 288);
    assert_eq!(rt; place_of(&[0; 288]), 0);
    let cases: [(&[(usize, u8)], u16); 22] = [
        (&[], 999),
        (&SOME, 999),
        (&[(5, 1)], 5),
        (&[(6, 4)], 6),
        (&[(8, 1)], 8),
        (&[(2, 1), (8, 1)], 999),
        (&[(2, 1), (9, 1)], 9),
        (&[(20, 3)], 20),
        (&[(48, 1)], 48),
        (&[(88, 2)], 88),
        (&[(20, 1), (23, 1)], 23),
        (&[(20, 2), (21, 2)], 21),
        (&[(155, 4)], 155),
        (&[(154, 255), (155, 3)], 999),
        (&[(156, 33)], 156),
        (&[(156, 1)], 161),
        (&[(156, 1), (160, 2)], 999),
        (&[(156, 1), (160, 162), (161, 15)], 161),
        (&[(156, 1), (160, 2), (162, 2)], 162),
        (&[(156, 1), (160, 2), (163, 1)], 163),
        (&[(160, 2)], 160),
        (&[(156, 1), (160, 2), (164, 2)], 164),
    ];
    for (changes, wanted) in &cases {
        assert_eq!(rt; place_of(&bytes_with(changes)), *wanted, "{wanted}");
    }
}

/// The places at which a lone 255 keeps the layout: the low byte of the mask, both of the owed CHLD, and the low bytes
/// of the bases.
const FITTING: [u16; 11] = [4, 12, 13, 140, 142, 144, 146, 148, 150, 152, 154];

#[test]
fn a_lone_255_breaks_at_its_place(rt: HostRuntime) {
    for place in 0..288u16 {
        let wanted = if FITTING.contains(&place) { 999 } else { place };
        assert_eq!(rt;
            place_of(&bytes_with(&[(usize::from(place), 255)])),
            wanted,
            "{place}"
        );
    }
}

#[test]
fn all_fields_are_read(rt: HostRuntime) {
    assert_eq!(rt; read_heap(&bytes_with(&SOME)), Ok(some_heap()));
    let empty = Heap {
        mask: 0,
        saved: None,
        owed: 0,
        actions: [Action::Default; 31],
        bases: [0; 8],
        count: 0,
        children: [(0, false); 32],
    };
    assert_eq!(rt; read_heap(&bytes_with(&[])), Ok(empty));
}

/// What the example tells once it is changed by one of the writers.
fn after(number: u8) -> Option<Heap> {
    let mut bytes = bytes_with(&SOME);
    if read_heap(&bytes).is_err() || children(&bytes) != 2 {
        return None;
    }
    match number {
        0 => set_mask(&mut bytes, 0x7FFB_FEFF),
        1 => set_saved(&mut bytes, None),
        2 => set_saved(&mut bytes, Some(1)),
        3 => set_owed(&mut bytes, 65535),
        4 => set_action(&mut bytes, 31, Action::Handler(65535, false)),
        5 => set_action(&mut bytes, 2, Action::Ignore),
        6 => set_base(&mut bytes, 7, 1023),
        7 => add_child(&mut bytes, 258),
        8 => remove_child(&mut bytes, 0),
        9 => remove_child(&mut bytes, 1),
        10 => note_death(&mut bytes, 1, true),
        _ => note_death(&mut bytes, 0, false),
    }
    read_heap(&bytes).ok()
}

#[test]
fn a_writer_leaves_the_other_fields(rt: HostRuntime) {
    let mut wanted = [some_heap(); 12];
    wanted[0].mask = 0x7FFB_FEFF;
    wanted[1].saved = None;
    wanted[2].saved = Some(1);
    wanted[3].owed = 65535;
    wanted[4].actions[30] = Action::Handler(65535, false);
    wanted[5].actions[1] = Action::Ignore;
    wanted[6].bases[7] = 1023;
    wanted[7].count = 3;
    wanted[7].children[2] = (258, false);
    wanted[8].count = 1;
    wanted[8].children[0] = (4001, false);
    wanted[8].children[1] = (0, false);
    wanted[9].count = 1;
    wanted[9].children[1] = (0, false);
    wanted[10].children[1] = (4001, true);
    wanted[11].children[0] = (3, false);
    for number in 0..12u8 {
        assert_eq!(rt;
            after(number),
            Some(wanted[usize::from(number)]),
            "{number}"
        );
    }
}

/// The number of children, or 99 where the bytes break the layout.
fn count_of(bytes: &[u8]) -> u8 {
    match read_heap(bytes) {
        Ok(heap) => heap.count,
        Err(_) => 99,
    }
}

/// The numbers of children that stand in the bytes after 32 were added, and after all but the last were taken away.
fn filled_and_emptied() -> Option<(u8, u8, (u16, bool))> {
    let mut bytes = bytes_with(&[]);
    for c in 2..34u16 {
        if read_heap(&bytes).is_ok() && children(&bytes) < 32 {
            add_child(&mut bytes, c);
        }
    }
    let most = count_of(&bytes);
    for _ in 0..31u8 {
        if read_heap(&bytes).is_ok() && children(&bytes) > 0 {
            remove_child(&mut bytes, 0);
        }
    }
    let heap = read_heap(&bytes).ok()?;
    Some((most, heap.count, heap.children[0]))
}

#[test]
fn children_come_and_go(rt: HostRuntime) {
    assert_eq!(rt; filled_and_emptied(), Some((32, 1, (33, false))));
}

/// A memory with the example in its scratch region, and 7 behind it.
fn memory(alloc: Global) -> Result<Own, Fail> {
    let mut scratch = Bytes::zeros(alloc, 512)?;
    if scratch.len() != 512 {
        return Err("512 bytes".into());
    }
    scratch.copy_in(0, &bytes_with(&SOME));
    scratch.set(288, 7);
    Ok(Own {
        dat: Bytes::zeros(alloc, 64)?,
        heap: Bytes::zeros(alloc, 1)?,
        stack: Bytes::zeros(alloc, 64)?,
        cyg: Bytes::zeros(alloc, 288)?,
        scratch,
    })
}

/// What the first 288 of these bytes tell.
fn told(bytes: &[u8]) -> Option<Heap> {
    if bytes.len() < HEAP_BYTES {
        return None;
    }
    read_heap(&bytes[..HEAP_BYTES]).ok()
}

/// Whether the first 288 of these bytes keep the layout.
fn keep(bytes: &[u8]) -> bool
    ensures { IsTrue result → IsHeapBytes (take 288 bytes.now) }
{
    if bytes.len() < HEAP_BYTES {
        return false;
    }
    read_heap(&bytes[..HEAP_BYTES]).is_ok()
}

/// Makes the copy for a child, where there is one.
fn make_for_child(own: &mut Own) {
    if keep(own.scratch.as_slice()) {
        for_child(own);
    }
}

/// Makes the copy for the next image, where there is one.
fn make_for_exec(own: &mut Own) {
    if keep(own.scratch.as_slice()) {
        for_exec(own);
    }
}

#[test]
fn copies_are_made(rt: HostRuntime) -> Result<(), Fail> {
    let mut own = Box::new(rt.alloc(), memory(rt.alloc())?)?;
    make_for_child(&mut own);
    let mut wanted = some_heap();
    wanted.owed = 0;
    wanted.count = 0;
    wanted.children = [(0, false); 32];
    assert_eq!(rt; told(own.scratch.as_slice()), Some(wanted));
    assert_eq!(rt; own.scratch.get(288), Some(7));

    let mut own = Box::new(rt.alloc(), memory(rt.alloc())?)?;
    make_for_exec(&mut own);
    let mut wanted = some_heap();
    wanted.actions = [Action::Default; 31];
    wanted.bases = [0; 8];
    assert_eq!(rt; told(own.scratch.as_slice()), Some(wanted));
    assert_eq!(rt; own.scratch.get(288), Some(7));
    Ok(())
}
