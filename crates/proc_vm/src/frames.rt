//! The frame that a signal's handler finds on the stack, and that its return takes off again.

ghost use Rattle.std.specs.Prelude.{◌≡◌, ◌↔◌, ◌+◌, ◌≤◌, length, IsErr, IfOk, OnOk, OnErr, false};
ghost use Rattle.vm_spec.specs.Image.{image_of, with_image, in_use, SameSizes};
ghost use Rattle.vm_spec.specs.Frames.{has_frame_room, frame_bytes, with_frame, has_frame, frame_mask, without_frame};

use crate::readers::stack_in_use;
use crate::words::word;
use crate::writers::{go_to, set_in_use};
use w32_base::{Bytes, Own};

/// How many bytes a frame has: those of the registers and of the next place, and four of the mask to come back.
const FRAME_BYTES: usize = 40;

/// How many bytes of the data region a frame keeps: the registers and the next place, with which it begins.
const KEPT_BYTES: usize = 36;

/// Fewer than 40 bytes of stack are free.
#[derive(Clone, Copy, Debug, PartialEq, Eq)]
pub struct NoRoom;

/// Fewer than 40 bytes of stack are in use.
#[derive(Clone, Copy, Debug, PartialEq, Eq)]
pub struct NoFrame;

/// Pushes a frame with the registers, the next place and the mask to come back, and goes to the handler at `target`.
///
/// # Errors
///
/// Fewer than 40 bytes of stack are free; nothing changes then.
pub fn push_frame(own: &mut Own, mask: u32, target: u16) -> Result<(), NoRoom>
    requires size { length own.old.dat ≡ 64 }
    requires used { in_use (image_of own.old) ≤ length own.old.stack }
    ensures no_room { IsErr result ↔ (has_frame_room (image_of own.old) ≡ false) }
    ensures pushed { OnOk result (own.new ≡ with_image own.old (with_frame (image_of own.old) mask target)) }
    ensures unchanged { OnErr result (own.new ≡ own.old) }
    ensures len { length own.new.dat ≡ 64 }
    ensures sizes { SameSizes (image_of own.old) (image_of own.new) }
{
    let used = stack_in_use(own) as usize;
    if own.stack.len() < used + FRAME_BYTES {
        return Err(NoRoom);
    }
    let bytes = frame(&own.dat, mask);
    own.stack.copy_in(used, &bytes);
    go_to(own, u32::from(target));
    set_in_use(own, used + FRAME_BYTES);
    Ok(())
}

/// The bytes of a frame.
fn frame(dat: &Bytes<64>, mask: u32) -> [u8; 40]
    requires { length dat.now ≡ 64 }
    ensures { result ≡ frame_bytes dat.now mask }
{
    let mut bytes = [0; FRAME_BYTES];
    bytes[..KEPT_BYTES].copy_from_slice(&dat.as_slice()[..KEPT_BYTES]);
    bytes[KEPT_BYTES..].copy_from_slice(&mask.to_le_bytes());
    bytes
}

/// Pops the frame that ends the bytes in use: its registers and its next place come back. Answers the mask in it.
///
/// # Errors
///
/// Fewer than 40 bytes of stack are in use; nothing changes then.
pub fn pop_frame(own: &mut Own) -> Result<u32, NoFrame>
    requires size { length own.old.dat ≡ 64 }
    requires used { in_use (image_of own.old) ≤ length own.old.stack }
    ensures no_frame { IsErr result ↔ (has_frame (image_of own.old) ≡ false) }
    ensures mask { IfOk result (λ mask. mask ≡ frame_mask (image_of own.old)) }
    ensures popped { OnOk result (own.new ≡ with_image own.old (without_frame (image_of own.old))) }
    ensures unchanged { OnErr result (own.new ≡ own.old) }
    ensures len { length own.new.dat ≡ 64 }
    ensures sizes { SameSizes (image_of own.old) (image_of own.new) }
{
    let used = stack_in_use(own) as usize;
    if used < FRAME_BYTES {
        return Err(NoFrame);
    }
    let start = used - FRAME_BYTES;
    let mask = word(&own.stack, used - 4);
    own.dat
        .copy_in(0, &own.stack.as_slice()[start..start + KEPT_BYTES]);
    set_in_use(own, start);
    Ok(mask)
}
