//! The children in a process's cygheap.

ghost use Rattle.std.specs.Prelude.{◌≡◌, ◌+◌, ◌≤◌, ◌<◌, length};
ghost use Rattle.layer_spec.specs.HeapReads.{half_at, child_count_in};
ghost use Rattle.child_watch.specs.Exiting.{listed_child, is_listed, row_if};

use w32_base::{Own, Pid, RowNo};

/// The number in two bytes from a place on.
fn half(bytes: &[u8], place: usize) -> u16
    requires { place + 2 ≤ length bytes.now }
    ensures { result ≡ half_at bytes.now place }
{
    u16::from_le_bytes([bytes[place], bytes[place + 1]])
}

/// The number of children.
#[tactic(auto, unfolding(vm_spec::specs::Image::word_at))]
fn count(own: &Own) -> u32
    requires { length own.now.cyg ≡ 288 }
    ensures { result ≡ child_count_in own.now.cyg }
{
    own.cyg.word(156)
}

/// Whether there is a child at a place.
fn is_listed(own: &Own, place: u8) -> bool
    ensures { result ≡ is_listed own.now.cyg place }
{
    own.cyg.len() == 288 && place < 32 && u32::from(place) < count(own)
}

/// The row of a number, where it is a process's.
fn row_if(number: u16) -> Option<RowNo>
    ensures { result ≡ row_if number }
{
    match Pid::try_new(number) {
        Some(pid) => Some(pid.row()),
        None => None,
    }
}

/// The row of the child at a place of the list in the own cygheap, the oldest at place 0; none past the last child.
pub fn listed_child(own: &Own, place: u8) -> Option<RowNo>
    ensures { result ≡ listed_child own.now.cyg place }
{
    if is_listed(own, place) {
        row_if(half(own.cyg.as_slice(), 160 + 4 * usize::from(place)))
    } else {
        None
    }
}
