//! The results of calls.

ghost use Rattle.std.specs.Prelude.{◌≡◌, ◌+◌, ◌≤◌, length, pos, option_map};
ghost use Rattle.vm_spec.specs.Image.{image_of, with_image, with_result};
ghost use Rattle.vm_spec.specs.Image as image;

use proc_vm::next_place;
use vm_spec::PLACE_AT;
use w32_base::{Bytes, Own};

/// Writes the result of a call, as its 32 bits, to r0, and to r1 where that is given, and
/// moves to the following instruction. Past the greatest place the following one is 0.
pub fn finish(own: &mut Own, r0: u32, r1: Option<u32>)
    requires { length own.old.dat ≡ 64 }
    ensures value { own.new ≡ with_image own.old (with_result (image_of own.old) (pos r0) (option_map pos r1)) }
    ensures len { length own.new.dat ≡ 64 }
{
    let next = next_place(own).wrapping_add(1);
    set_word(&mut own.dat, PLACE_AT, next);
    set_word(&mut own.dat, 0, r0);
    if let Some(number) = r1 {
        set_word(&mut own.dat, 4, number);
    }
}

/// Writes a number into four bytes of the data region.
#[tactic(auto, unfolding(vm_spec::specs::Image::with_word))]
pub fn set_word(dat: &mut Bytes<64>, place: usize, number: u32)
    requires size { length dat.old ≡ 64 }
    requires place { place ≤ 60 }
    ensures value { dat.new ≡ image.with_word dat.old place number }
    ensures len { length dat.new ≡ 64 }
{
    dat.set_word(place, number);
}
