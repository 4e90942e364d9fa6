//! The copies of a cygheap in the scratch region that a child and the next image begin with.

ghost use Rattle.std.specs.Prelude.{◌≡◌, ◌≤◌, length, take};
ghost use Rattle.layer_spec.specs.Heap.{IsHeapBytes, heap_bytes, without_handler};
ghost use Rattle.layer_spec.specs.HeapReads.{own_for_child, own_for_exec};
ghost use Rattle.cygheap_image.specs.Fields.{fields_in};
ghost use Rattle.cygheap_image.specs.Changes.{without_handlers};

use crate::HEAP_BYTES;
use crate::readers::action;
use crate::writers::{clear_bases, clear_children, set_action, set_owed};
use w32_base::{Action, Own};

/// The bytes of the copy.
fn copied(own: &Own) -> [u8; 288]
    requires { 288 ≤ length own.now.scratch }
    ensures { result ≡ take 288 own.now.scratch }
{
    let mut heap = [0; HEAP_BYTES];
    heap.copy_from_slice(&own.scratch.as_slice()[..HEAP_BYTES]);
    heap
}

/// Makes the copy of a cygheap in the first 288 bytes of scratch what a child begins with: nothing is owed to it, and
/// it has no children.
pub fn for_child(own: &mut Own)
    requires { IsHeapBytes (take 288 own.old.scratch) }
    ensures value { own.new ≡ own_for_child own.old }
    ensures layout { IsHeapBytes (take 288 own.new.scratch) }
{
    let mut heap = copied(own);
    set_owed(&mut heap, 0);
    clear_children(&mut heap);
    own.scratch.copy_in(0, &heap);
}

/// Makes the copy of a cygheap in the first 288 bytes of scratch what the next image begins with: handlers become the
/// default, and the bases are 0.
pub fn for_exec(own: &mut Own)
    requires { IsHeapBytes (take 288 own.old.scratch) }
    ensures value { own.new ≡ own_for_exec own.old }
    ensures layout { IsHeapBytes (take 288 own.new.scratch) }
{
    let mut heap = copied(own);
    drop_handlers(&mut heap);
    clear_bases(&mut heap);
    own.scratch.copy_in(0, &heap);
}

/// An action in the next image.
fn without_handler(a: Action) -> Action
    ensures { result ≡ without_handler a }
{
    match a {
        Action::Handler(_, _) => Action::Default,
        other => other,
    }
}

/// Makes each handler the default.
fn drop_handlers(bytes: &mut [u8])
    requires { IsHeapBytes bytes.old }
    ensures value { bytes.new ≡ heap_bytes (without_handlers (fields_in bytes.old)) }
    ensures layout { IsHeapBytes bytes.new }
{
    for s in 1..32 {
        let after = without_handler(action(bytes, s));
        set_action(bytes, s, after);
    }
}
