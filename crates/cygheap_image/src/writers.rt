//! Writes to the bytes of a cygheap, field by field.

ghost use Rattle.std.specs.Prelude.{◌≡◌, ◌≤◌, ◌<◌, IsTrue};
ghost use Rattle.layer_spec.specs.Heap.{IsHeapBytes, heap_bytes, is_mask, is_saved_mask, saved_flag, saved_mask};
ghost use Rattle.layer_spec.specs.Heap.{is_action, is_base, action_bytes, child_bytes};
ghost use Rattle.layer_spec.specs.HeapReads.{child_count_in};
ghost use Rattle.cygheap_image.specs.Fields.{fields_in};
ghost use Rattle.cygheap_image.specs.Changes.{with_mask, with_saved, with_owed, with_action, with_base, with_child};
ghost use Rattle.cygheap_image.specs.Changes.{without_child, with_note, without_children, without_bases};

use crate::places::{put, take_out};
use crate::readers::{child, children};
use w32_base::Action;

/// Sets the signal mask, which has neither KILL nor STOP nor bit 31.
pub fn set_mask(bytes: &mut [u8], m: u32)
    requires layout { IsHeapBytes bytes.old }
    requires range { IsTrue (is_mask m) }
    ensures value { bytes.new ≡ heap_bytes (with_mask (fields_in bytes.old) m) }
    ensures layout { IsHeapBytes bytes.new }
{
    put(bytes, 4, &m.to_le_bytes());
}

/// The flag that tells whether there is a mask from before.
fn saved_flag(m: Option<u32>) -> u16
    ensures { result ≡ saved_flag m }
{
    match m {
        Some(_) => 1,
        None => 0,
    }
}

/// The mask from before, and 0 where there is none.
fn saved_mask(m: Option<u32>) -> u32
    ensures { result ≡ saved_mask m }
{
    match m {
        Some(mask) => mask,
        None => 0,
    }
}

/// Sets the mask from before a `suspend`, or that there is none.
pub fn set_saved(bytes: &mut [u8], m: Option<u32>)
    requires layout { IsHeapBytes bytes.old }
    requires range { IsTrue (is_saved_mask m) }
    ensures value { bytes.new ≡ heap_bytes (with_saved (fields_in bytes.old) m) }
    ensures layout { IsHeapBytes bytes.new }
{
    put(bytes, 2, &saved_flag(m).to_le_bytes());
    put(bytes, 8, &saved_mask(m).to_le_bytes());
}

/// Sets how many CHLD are owed, at most 65535.
pub fn set_owed(bytes: &mut [u8], n: u32)
    requires layout { IsHeapBytes bytes.old }
    requires range { n ≤ 65535 }
    ensures value { bytes.new ≡ heap_bytes (with_owed (fields_in bytes.old) n) }
    ensures layout { IsHeapBytes bytes.new }
{
    put(bytes, 12, &n.to_le_bytes());
}

/// The bytes of an action.
fn action_bytes(a: Action) -> [u8; 4]
    ensures { result ≡ action_bytes a }
{
    match a {
        Action::Default => [0, 0, 0, 0],
        Action::Ignore => [1, 0, 0, 0],
        Action::Handler(target, restart) => {
            let target = target.to_le_bytes();
            [2, u8::from(restart), target[0], target[1]]
        }
    }
}

/// Sets the action of a signal, from 1 to 31. KILL and STOP keep the default.
pub fn set_action(bytes: &mut [u8], s: u8, a: Action)
    requires layout { IsHeapBytes bytes.old }
    requires from_1 { 1 ≤ s }
    requires to_31 { s ≤ 31 }
    requires range { IsTrue (is_action s a) }
    ensures value { bytes.new ≡ heap_bytes (with_action (fields_in bytes.old) s a) }
    ensures layout { IsHeapBytes bytes.new }
{
    put(bytes, 12 + 4 * usize::from(s), &action_bytes(a));
}

/// Sets the first page of a module, from 0 to 7.
pub fn set_base(bytes: &mut [u8], module: u8, page: u16)
    requires layout { IsHeapBytes bytes.old }
    requires to_7 { «module» < 8 }
    requires range { IsTrue (is_base page) }
    ensures value { bytes.new ≡ heap_bytes (with_base (fields_in bytes.old) «module» page) }
    ensures layout { IsHeapBytes bytes.new }
{
    put(bytes, 140 + 2 * usize::from(module), &page.to_le_bytes());
}

/// The bytes of a child.
fn child_bytes(number: u16, noted: bool) -> [u8; 4]
    ensures { result ≡ child_bytes (record { number = number; noted = noted }) }
{
    let number = number.to_le_bytes();
    [number[0], number[1], u8::from(noted), 0]
}

/// Adds a child at the end, whose death isn't noted.
pub fn add_child(bytes: &mut [u8], c: u16)
    requires layout { IsHeapBytes bytes.old }
    requires room { child_count_in bytes.old < 32 }
    requires from_2 { 2 ≤ c }
    requires to_4001 { c ≤ 4001 }
    ensures value { bytes.new ≡ heap_bytes (with_child (fields_in bytes.old) c) }
    ensures layout { IsHeapBytes bytes.new }
{
    let count = children(bytes);
    put(bytes, 160 + 4 * usize::from(count), &child_bytes(c, false));
    put(bytes, 156, &(u32::from(count) + 1).to_le_bytes());
}

/// Takes a child away. The later ones stand one place lower then.
pub fn remove_child(bytes: &mut [u8], i: u8)
    requires layout { IsHeapBytes bytes.old }
    requires listed { i < child_count_in bytes.old }
    ensures value { bytes.new ≡ heap_bytes (without_child (fields_in bytes.old) i) }
    ensures layout { IsHeapBytes bytes.new }
{
    let count = children(bytes);
    take_out(bytes, 160 + 4 * usize::from(i));
    put(bytes, 156, &(u32::from(count) - 1).to_le_bytes());
}

/// Sets whether a child's death is noted.
pub fn note_death(bytes: &mut [u8], i: u8, noted: bool)
    requires layout { IsHeapBytes bytes.old }
    requires listed { i < child_count_in bytes.old }
    ensures value { bytes.new ≡ heap_bytes (with_note (fields_in bytes.old) i noted) }
    ensures layout { IsHeapBytes bytes.new }
{
    let (number, _) = child(bytes, i);
    put(bytes, 160 + 4 * usize::from(i), &child_bytes(number, noted));
}

/// Takes all children away.
pub fn clear_children(bytes: &mut [u8])
    requires { IsHeapBytes bytes.old }
    ensures value { bytes.new ≡ heap_bytes (without_children (fields_in bytes.old)) }
    ensures layout { IsHeapBytes bytes.new }
{
    put(bytes, 156, &[0; 132]);
}

/// Sets all bases to 0.
pub fn clear_bases(bytes: &mut [u8])
    requires { IsHeapBytes bytes.old }
    ensures value { bytes.new ≡ heap_bytes (without_bases (fields_in bytes.old)) }
    ensures layout { IsHeapBytes bytes.new }
{
    put(bytes, 140, &[0; 16]);
}
