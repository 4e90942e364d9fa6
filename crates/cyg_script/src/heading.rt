//! The own line of a program.

ghost use Rattle.std.specs.Prelude.{◌≤◌};

use w32_base::Name;

/// A program's own line.
#[derive(Clone, Copy, Debug)]
pub struct Heading {
    /// Its name.
    pub name: Name,
    /// The bytes of its heap.
    pub heap: u16,
    /// The bytes of its stack.
    pub stack: u16,
    pub ghost heap_in_range: { heap ≤ 32768 },
    pub ghost stack_in_range: { (64 ≤ stack) × (stack ≤ 32768) },
}
