//! What is written to the data region of a process.

ghost use Rattle.std.specs.Prelude.{◌≡◌, ◌+◌, ◌<◌, length};
ghost use Rattle.vm_spec.specs.Image.{image_of, with_image, with_register, at_place, moved_on, place_of, with_in_use};
ghost use Rattle.vm_spec.specs.Image.{SameSizes, with_result};

use crate::readers::next_place;
use crate::words::set_word;
use vm_spec::{IN_USE_AT, PLACE_AT};
use w32_base::{Own, Register};

/// Writes a register.
pub fn set_register(own: &mut Own, r: Register, number: i32)
    requires { length own.old.dat ≡ 64 }
    ensures value { own.new ≡ with_image own.old (with_register (image_of own.old) r number) }
    ensures len { length own.new.dat ≡ 64 }
    ensures sizes { SameSizes (image_of own.old) (image_of own.new) }
{
    set_word(&mut own.dat, 4 * r.get() as usize, number.cast_unsigned());
}

/// Sets the place of the next instruction.
pub fn go_to(own: &mut Own, place: u32)
    requires { length own.old.dat ≡ 64 }
    ensures value { own.new ≡ with_image own.old (at_place (image_of own.old) place) }
    ensures len { length own.new.dat ≡ 64 }
    ensures sizes { SameSizes (image_of own.old) (image_of own.new) }
{
    set_word(&mut own.dat, PLACE_AT, place);
}

/// Sets how many bytes of stack are in use. Of a count past 32 bits the low 32 bits are kept.
pub fn set_in_use(own: &mut Own, count: usize)
    requires { length own.old.dat ≡ 64 }
    ensures value { own.new ≡ with_image own.old (with_in_use (image_of own.old) count) }
    ensures len { length own.new.dat ≡ 64 }
    ensures sizes { SameSizes (image_of own.old) (image_of own.new) }
{
    set_word(&mut own.dat, IN_USE_AT, (count % 4_294_967_296) as u32);
}

/// Moves to the following instruction.
pub fn move_on(own: &mut Own)
    requires size { length own.old.dat ≡ 64 }
    requires place { place_of (image_of own.old) < 4294967295 }
    ensures value { own.new ≡ with_image own.old (moved_on (image_of own.old)) }
    ensures len { length own.new.dat ≡ 64 }
    ensures sizes { SameSizes (image_of own.old) (image_of own.new) }
{
    go_to(own, next_place(own) + 1);
}

/// Writes the result of a call to r0, and to r1 where that is given, and moves to the following instruction.
pub fn set_result(own: &mut Own, r0: i32, r1: Option<i32>)
    requires size { length own.old.dat ≡ 64 }
    requires place { place_of (image_of own.old) < 4294967295 }
    ensures value { own.new ≡ with_image own.old (with_result (image_of own.old) r0 r1) }
    ensures len { length own.new.dat ≡ 64 }
    ensures sizes { SameSizes (image_of own.old) (image_of own.new) }
{
    move_on(own);
    set_register(own, Register::new(0), r0);
    if let Some(number) = r1 {
        set_register(own, Register::new(1), number);
    }
}
