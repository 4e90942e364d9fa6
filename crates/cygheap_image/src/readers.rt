//! What the bytes of a cygheap tell, field by field.

ghost use Rattle.std.specs.Prelude.{◌≡◌, ◌≤◌, ◌<◌};
ghost use Rattle.layer_spec.specs.Heap.{IsHeapBytes};
ghost use Rattle.layer_spec.specs.HeapReads.{mask_in, saved_in, owed_in, action_in, base_in, child_count_in, child_in};
ghost use Rattle.cygheap_image.specs.Shown.{pair_of};

use crate::places::{half, word};
use w32_base::Action;

/// The signal mask.
pub fn mask(bytes: &[u8]) -> u32
    requires { IsHeapBytes bytes.now }
    ensures { result ≡ mask_in bytes.now }
{
    word(bytes, 4)
}

/// In a `suspend` the mask from before, and else none.
pub fn saved(bytes: &[u8]) -> Option<u32>
    requires { IsHeapBytes bytes.now }
    ensures { result ≡ saved_in bytes.now }
{
    if half(bytes, 2) == 1 {
        Some(word(bytes, 8))
    } else {
        None
    }
}

/// How many CHLD are owed.
pub fn owed(bytes: &[u8]) -> u32
    requires { IsHeapBytes bytes.now }
    ensures { result ≡ owed_in bytes.now }
{
    word(bytes, 12)
}

/// The action of a signal, from 1 to 31.
pub fn action(bytes: &[u8], s: u8) -> Action
    requires layout { IsHeapBytes bytes.now }
    requires from_1 { 1 ≤ s }
    requires to_31 { s ≤ 31 }
    ensures { result ≡ action_in bytes.now s }
{
    let place = 12 + 4 * usize::from(s);
    match bytes[place] {
        2 => Action::Handler(half(bytes, place + 2), bytes[place + 1] == 1),
        1 => Action::Ignore,
        _ => Action::Default,
    }
}

/// The first page of a module, from 0 to 7.
pub fn base(bytes: &[u8], module: u8) -> u16
    requires layout { IsHeapBytes bytes.now }
    requires to_7 { «module» < 8 }
    ensures { result ≡ base_in bytes.now «module» }
{
    half(bytes, 140 + 2 * usize::from(module))
}

/// The number of children.
pub fn children(bytes: &[u8]) -> u8
    requires { IsHeapBytes bytes.now }
    ensures value { result ≡ child_count_in bytes.now }
    ensures few { result ≤ 32 }
{
    word(bytes, 156) as u8
}

/// The process number of a child, the oldest being child 0, and whether its death is noted.
pub fn child(bytes: &[u8], i: u8) -> (u16, bool)
    requires layout { IsHeapBytes bytes.now }
    requires listed { i < child_count_in bytes.now }
    ensures { result ≡ pair_of (child_in bytes.now i) }
{
    let place = 160 + 4 * usize::from(i);
    (half(bytes, place), half(bytes, place + 2) == 1)
}
