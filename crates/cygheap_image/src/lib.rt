//! The cygheap: what a process of the layer keeps in 288 bytes of its own memory. Its fields are read and written in
//! place, its bytes are tested against the layout, and its copies for a child and for the next image are made. No call
//! takes memory.
#![tactic(auto)]

mod breaks;
mod copies;
mod image;
mod places;
mod readers;
mod writers;

pub use copies::{for_child, for_exec};
pub use image::{BadHeap, Heap, read_heap};
pub use readers::{action, base, child, children, mask, owed, saved};
pub use writers::{
    add_child, note_death, remove_child, set_action, set_base, set_mask, set_owed, set_saved,
};

/// How many bytes a cygheap has.
pub const HEAP_BYTES: usize = 288;
