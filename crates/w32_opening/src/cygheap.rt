//! The cygheap of the first layer process.

ghost use Rattle.std.specs.Prelude.{◌≡◌, replicate};
ghost use Rattle.win32_spec.specs.Opening.{opening_cygheap};

use w32_base::Bytes;
use w32_kinds::Placements;

/// Where the first pages of the modules begin.
const BASES: usize = 140;

/// Writes the version and the first pages of the modules into zeros.
pub fn write_cygheap(cyg: &mut Bytes<288>, placed: &Placements)
    requires { cyg.old ≡ replicate 288 0 }
    ensures { cyg.new ≡ opening_cygheap placed.now }
{
    let bases = placed.base_bytes();
    cyg.set(0, 1);
    cyg.copy_in(BASES, bases.as_slice());
}
