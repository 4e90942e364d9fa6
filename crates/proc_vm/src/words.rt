//! Numbers in four bytes of a region.

ghost use Rattle.std.specs.Prelude.{◌≡◌, ◌+◌, ◌≤◌, length};
ghost use Rattle.vm_spec.specs.Image.{word_at, with_word};

use w32_base::Bytes;

/// The number at a place, whose four bytes lie in the region.
#[tactic(auto, unfolding(vm_spec::specs::Image::word_at))]
pub fn word<const ROOM: usize>(bytes: &Bytes<ROOM>, place: usize) -> u32
    requires { place + 4 ≤ length bytes.now }
    ensures { result ≡ word_at bytes.now place }
{
    bytes.word(place)
}

/// Writes a number to a place, whose four bytes lie in the region.
#[tactic(auto, unfolding(vm_spec::specs::Image::with_word))]
pub fn set_word<const ROOM: usize>(bytes: &mut Bytes<ROOM>, place: usize, number: u32)
    requires { place + 4 ≤ length bytes.old }
    ensures value { bytes.new ≡ with_word bytes.old place number }
    ensures len { length bytes.new ≡ length bytes.old }
{
    bytes.set_word(place, number);
}
