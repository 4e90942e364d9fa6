//! Blocks of local instructions.

ghost use Rattle.std.specs.Prelude.{◌≡◌, ◌≤◌, length};
ghost use Rattle.vm_spec.specs.Image.{image_of, with_image, SameSizes};
ghost use Rattle.vm_spec.specs.Block.{block_length, block_image};
ghost use Rattle.vm_spec.specs.Step.{upcoming, LocalInstruction, block_of, IsBlock};

use crate::step::step;
use vm_spec::BLOCK;
use w32_base::{Own, Program};

/// Carries out local instructions until the next one isn't local, or faults, or 256 were done. Answers how many they
/// were, which is 1 at the least, since the next one has to be local.
pub fn run_block(own: &mut Own, p: &Program) -> u16
    requires size { length own.old.dat ≡ 64 }
    requires local { upcoming p.now.code (image_of own.old) ≡ LocalInstruction }
    ensures range { (1 ≤ result) × (result ≤ 256) }
    ensures block { IsBlock p.now.code (image_of own.old) result }
    ensures length { result ≡ block_length p.now.code (image_of own.old) }
    ensures value { own.new ≡ with_image own.old (block_of result p.now.code (image_of own.old)) }
    ensures image { own.new ≡ with_image own.old (block_image p.now.code (image_of own.old)) }
    ensures len { length own.new.dat ≡ 64 }
    ensures sizes { SameSizes (image_of own.old) (image_of own.new) }
{
    for count in 0..BLOCK {
        if !step(own, p) {
            return count;
        }
    }
    BLOCK
}
