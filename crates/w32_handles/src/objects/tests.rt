ghost use Rattle.std.specs.Prelude.{◌↔◌, ◌<◌, IsTrue, IsSome, IsSomeAnd};
ghost use Rattle.w32_handles.specs.Table.{object_at};

use super::*;
use std::process::Abort;
use std::test::Fail;

// What the plain list keeps of an object.
#[derive(Clone, Copy)]
struct Entry {
    number: ObjectNo,
    object: u32,
    holders: u16,
}

// Whether there is room for one more object.
fn has_room(objects: &Objects<u32>) -> bool
    ensures { IsTrue result ↔ (0 < objects.now.spare) }
{
    objects.spare > 0
}

// Whether a number is that of an object.
fn contains(objects: &Objects<u32>, o: ObjectNo) -> bool
    ensures { IsTrue result ↔ IsSome (object_at objects.now o) }
{
    objects.slab.contains(place_of(o))
}

// Whether an object can get one more holder.
fn can_hold(objects: &Objects<u32>, o: ObjectNo) -> bool
    ensures { IsTrue result → IsSomeAnd (object_at objects.now o) (λ kept. kept.holders < 4160) }
{
    match objects.slab.get(place_of(o)) {
        Some(held) => held.holders < 4160,
        None => false,
    }
}

// Compares the table with the plain list, and counts the places that are free.
fn compare(rt: &impl Abort, objects: &Objects<u32>, plain: &[Entry], room: usize) {
    for entry in plain {
        assert!(rt; contains(objects, entry.number));
        assert_eq!(rt; *objects.get(entry.number), entry.object);
    }
    assert_eq!(rt; objects.slab.len(), plain.len());
    assert!(rt; plain.len() <= room);
    assert_eq!(rt; objects.spare, room - plain.len());
}

// The place of a number in the plain list.
fn find(plain: &[Entry], number: ObjectNo) -> Option<usize> {
    plain.iter().position(|entry| entry.number == number)
}

// One call, picked by a random number, of the table and of the plain list.
fn step(
    rt: &impl Abort,
    objects: &mut Objects<u32>,
    plain: &mut Vec<Entry>,
    random: u32,
) -> Result<(), AllocError> {
    if random % 2 == 0 && has_room(objects) {
        let number = objects.add(random);
        assert_eq!(rt; number.get() % 2, 0);
        assert!(rt; find(plain.as_slice(), number).is_none());
        plain.push(Entry {
            number,
            object: random,
            holders: 1,
        })?;
    } else if !plain.is_empty() {
        let place = random as usize / 8 % plain.len();
        let entry = &mut plain[place];
        let number = ObjectNo::new(entry.number.get() | random / 4 % 2);
        if random % 3 == 0 && entry.holders < 9 {
            assert!(rt; can_hold(objects, number));
            objects.hold(number);
            entry.holders += 1;
        } else if random % 3 == 1 {
            assert!(rt; contains(objects, number));
            *objects.get_mut(number) = random;
            entry.object = random;
        } else {
            assert!(rt; contains(objects, number));
            objects.release(number);
            if entry.holders > 1 {
                entry.holders -= 1;
            } else {
                plain.swap_remove(place);
                assert!(rt; !contains(objects, number));
            }
        }
    }
    Ok(())
}

#[test]
fn follows_a_plain_list(rt: HostRuntime) -> Result<(), Fail> {
    let room = 20;
    let mut objects = Objects::with_room(rt.alloc(), room)?;
    let mut plain = Vec::new(rt.alloc());
    let mut random = 1u32;
    for _ in 0..3000 {
        random = random.wrapping_mul(1_664_525).wrapping_add(1_013_904_223);
        step(&rt, &mut objects, &mut plain, random / 16)?;
        compare(&rt, &objects, plain.as_slice(), room);
    }
    Ok(())
}

#[test]
fn an_object_goes_with_its_last_holder(rt: HostRuntime) -> Result<(), Fail> {
    let mut objects = Objects::with_room(rt.alloc(), 2)?;
    let first = objects.add(7u32);
    let second = objects.add(8);
    assert!(rt; !has_room(&objects));
    assert!(rt; can_hold(&objects, first));
    objects.hold(first);
    assert!(rt; contains(&objects, first));
    *objects.get_mut(first) = 9;
    assert!(rt; contains(&objects, first));
    objects.release(first);
    assert!(rt; contains(&objects, first));
    assert_eq!(rt; *objects.get(first), 9);
    objects.release(first);
    assert!(rt; !contains(&objects, first));
    assert!(rt; contains(&objects, second));
    assert_eq!(rt; *objects.get(second), 8);
    assert!(rt; has_room(&objects));
    Ok(())
}
