//! Copies of a process's memory, and the memory that a program begins with.

ghost use Rattle.std.specs.Prelude.{◌≡◌, ◌≤◌, IfOk, length};
ghost use Rattle.vm_spec.specs.Image.{image_of, with_image};
ghost use Rattle.vm_spec.specs.NewImage.{new_image};

use crate::results::set_word;
use std::alloc::Global;
use vm_spec::{DATA_BYTES, PROGRAM_AT};
use w32_base::{Bytes, Memory, Own, Program};

/// The same bytes. It fails only for want of memory.
fn copied<const ROOM: usize>(alloc: Global, bytes: &Bytes<ROOM>) -> Result<Bytes<ROOM>, Memory>
    requires { length bytes.now ≤ ROOM }
    ensures { IfOk result (λ copy. copy ≡ bytes.now) }
{
    let mut copy = Bytes::zeros(alloc, bytes.len())?;
    copy.copy_in(0, bytes.as_slice());
    Ok(copy)
}

/// Memory with the same image, whose other regions have no bytes. It fails only for want of memory.
pub fn copied_image(alloc: Global, own: &Own) -> Result<Own, Memory>
    requires data { length own.now.dat ≤ 64 }
    requires heap { length own.now.heap ≤ 32768 }
    requires stack { length own.now.stack ≤ 32768 }
    ensures { IfOk result (λ copy. image_of copy ≡ image_of own.now) }
{
    Ok(Own {
        dat: copied(alloc, &own.dat)?,
        heap: copied(alloc, &own.heap)?,
        stack: copied(alloc, &own.stack)?,
        cyg: Bytes::new(alloc)?,
        scratch: Bytes::new(alloc)?,
    })
}

/// The image with which the program of a number begins, in a process's memory. It takes no memory.
pub fn begin_image(own: &mut Own, number: u32, program: &Program)
    ensures value { own.new ≡ with_image own.old (new_image number program.now) }
    ensures data { length own.new.dat ≡ 64 }
    ensures heap { length own.new.heap ≤ 32768 }
    ensures stack { length own.new.stack ≤ 32768 }
{
    own.dat.reset(DATA_BYTES);
    set_word(&mut own.dat, PROGRAM_AT, number);
    own.heap.reset(usize::from(program.heap));
    own.stack.reset(usize::from(program.stack));
}
