//! All fields of a cygheap at once.

ghost use Rattle.std.specs.Prelude.{◌≡◌, ◌↔◌, IsOk, IfOk, IfErr};
ghost use Rattle.layer_spec.specs.Heap.{IsHeapBytes};
ghost use Rattle.layer_spec.specs.HeapReads.{heap_in};
ghost use Rattle.layer_spec.specs.HeapBreaks.{BreaksAt};
ghost use Rattle.cygheap_image.specs.Fields.{fields_in};
ghost use Rattle.cygheap_image.specs.Shown.{shown, shown_children};

use crate::breaks::first_break;
use crate::readers::{action, base, child, children, mask, owed, saved};
use w32_base::Action;

/// What a cygheap keeps.
#[derive(Clone, Copy, Debug, PartialEq, Eq)]
pub struct Heap {
    /// The signal mask.
    pub mask: u32,
    /// In a `suspend` the mask from before, and else none.
    pub saved: Option<u32>,
    /// How many CHLD are owed.
    pub owed: u32,
    /// The actions of the signals 1 to 31.
    pub actions: [Action; 31],
    /// The first pages of the modules 0 to 7.
    pub bases: [u16; 8],
    /// The number of children.
    pub count: u8,
    /// The children, the oldest first: a process number, and whether the death is noted. Places past `count` hold 0
    /// and false.
    pub children: [(u16, bool); 32],
}

/// The bytes break the layout of a cygheap.
#[derive(Clone, Copy, Debug, PartialEq, Eq)]
pub struct BadHeap {
    /// The least place such that no bytes of the layout begin with those up to it, or 288 where there aren't 288 bytes.
    pub place: u16,
}

/// What the bytes of a cygheap tell.
///
/// # Errors
///
/// They break the layout.
pub fn read_heap(bytes: &[u8]) -> Result<Heap, BadHeap>
    ensures accepted { IsOk result ↔ IsHeapBytes bytes.now }
    ensures place { IfErr result (λ e. BreaksAt bytes.now e.place) }
    ensures heap { IfOk result (λ heap. heap ≡ shown (fields_in bytes.now)) }
{
    match first_break(bytes) {
        Some(place) => Err(BadHeap { place }),
        None => Ok(Heap {
            mask: mask(bytes),
            saved: saved(bytes),
            owed: owed(bytes),
            actions: actions(bytes),
            bases: bases(bytes),
            count: children(bytes),
            children: all_children(bytes),
        }),
    }
}

/// The actions of the signals 1 to 31.
fn actions(bytes: &[u8]) -> [Action; 31]
    requires { IsHeapBytes bytes.now }
    ensures { result ≡ (fields_in bytes.now).actions }
{
    let mut actions = [Action::Default; 31];
    for k in 0..31 {
        actions[usize::from(k)] = action(bytes, k + 1);
    }
    actions
}

/// The first pages of the modules 0 to 7.
fn bases(bytes: &[u8]) -> [u16; 8]
    requires { IsHeapBytes bytes.now }
    ensures { result ≡ (fields_in bytes.now).bases }
{
    let mut bases = [0; 8];
    for k in 0..8 {
        bases[usize::from(k)] = base(bytes, k);
    }
    bases
}

/// The children, and 0 and false at the places past them.
fn all_children(bytes: &[u8]) -> [(u16, bool); 32]
    requires { IsHeapBytes bytes.now }
    ensures { result ≡ shown_children (fields_in bytes.now).children }
{
    let mut all = [(0, false); 32];
    for i in 0..children(bytes) {
        all[usize::from(i)] = child(bytes, i);
    }
    all
}
