//! Blocks that can be taken back.

ghost use Rattle.std.specs.Prelude.{◌≡◌, ℕ, ◌+◌, ◌<◌, ◌≤◌, [], ◌∷◌, ◌++◌, length, IfSome, Some, true, false, slice_get};
ghost use Rattle.std.specs.Option.{option_to_list};
ghost use Rattle.vm_spec.specs.Image.{image_of, with_image, in_use, SameSizes};
ghost use Rattle.vm_spec.specs.Faults.{instr_faults};
ghost use Rattle.vm_spec.specs.Step.{upcoming, LocalInstruction, after_local, local_step, block_of, IsBlock};
ghost use Rattle.vm_spec.specs.Block.{block_length, block_image};
ghost use Rattle.proc_vm.specs.Kept.{contents_of, with_contents, with_pushed, put_back, taken_back, IsChange, IsWithin};
ghost use Rattle.proc_vm.specs.Kept.{Fits};

use crate::readers::{next_place, stack_in_use};
use crate::step::{heap_place, step};
use std::marker::Model;
use vm_spec::BLOCK;
use w32_base::{Instr, Own, Program};

/// A place of the heap or of the stack, and what stood there before a local instruction changed it.
#[derive(Clone, Copy, Debug)]
pub enum Change {
    /// A byte of the heap.
    HeapByte(usize, u8),
    /// Four bytes of the stack.
    StackBytes(usize, [u8; 4]),
}

/// What a block changed: the data region before it, and up to 256 places of the heap and of the stack with what stood
/// there. A contract sees the changes in their order.
#[derive(Debug, Drop)]
pub struct Undo {
    dat: [u8; 64],
    changes: [Change; 256],
    count: usize,
}

impl Model for Undo {
    ghost use Rattle.proc_vm.specs.Kept.{Kept};

    ghost Value = { Kept };

    ghost use Rattle.proc_vm.specs.KeptInside.{kept_of, IsUndo};

    ghost view = { kept_of };

    ghost invariant = { IsUndo };
}

impl Undo {
    /// Nothing is kept yet: the data region is zeros, and no place changed.
    pub fn new() -> Undo
        ensures dat { length result.dat ≡ 64 }
        ensures changes { result.changes ≡ [] }
    {
        Undo {
            dat: [0; 64],
            changes: [Change::HeapByte(0, 0); 256],
            count: 0,
        }
    }

    /// Begins anew with this data region.
    fn begin(&mut self, dat: &[u8])
        requires { length dat.now ≡ 64 }
        ensures { self.new ≡ record { dat = dat.now; changes = [] } }
    {
        self.dat.copy_from_slice(dat);
        self.count = 0;
    }

    /// Adds a change.
    fn note(&mut self, change: Change)
        requires { length self.old.changes < 256 }
        ensures { self.new ≡ record self.old { changes = self.old.changes ++ change ∷ [] } }
    {
        self.changes[self.count] = change;
        self.count += 1;
    }
    /// How many changes are kept.
    fn len(&self) -> usize
        ensures { result ≡ length self.now.changes }
    {
        self.count
    }

    /// A change.
    fn change(&self, i: usize) -> Change
        requires kept { i < length self.now.changes }
        requires room { i < 256 }
        ensures { slice_get self.now.changes i ≡ Some result }
    {
        self.changes[i]
    }

    /// The data region that is kept.
    fn dat(&self) -> &[u8]
        ensures { result.now ≡ self.now.dat }
    {
        &self.dat
    }

    /// Adds a change, where there is one.
    fn keep(&mut self, change: Option<Change>)
        requires { length self.old.changes < 256 }
        ensures { self.new ≡ record self.old { changes = self.old.changes ++ option_to_list change } }
    {
        if let Some(change) = change {
            self.note(change);
        }
    }
}

/// Carries out a block as `run_block`, and keeps what it changes.
pub fn run_block_kept(own: &mut Own, p: &Program, u: &mut Undo) -> u16
    requires size { length own.old.dat ≡ 64 }
    requires local { upcoming p.now.code (image_of own.old) ≡ LocalInstruction }
    ensures range { (1 ≤ result) × (result ≤ 256) }
    ensures block { IsBlock p.now.code (image_of own.old) result }
    ensures length { result ≡ block_length p.now.code (image_of own.old) }
    ensures value { own.new ≡ with_image own.old (block_of result p.now.code (image_of own.old)) }
    ensures image { own.new ≡ with_image own.old (block_image p.now.code (image_of own.old)) }
    ensures len { length own.new.dat ≡ 64 }
    ensures sizes { SameSizes (image_of own.old) (image_of own.new) }
    ensures fits { Fits u.new (image_of own.new) }
    ensures back { with_image own.new (taken_back u.new (image_of own.new)) ≡ own.old }
{
    u.begin(own.dat.as_slice());
    for count in 0..BLOCK {
        let change = next_change(own, p);
        if !step(own, p) {
            return count;
        }
        u.keep(change);
    }
    BLOCK
}

/// Takes a block back, after which the bytes are those before it.
pub fn undo_block(own: &mut Own, u: &Undo)
    requires size { length own.old.dat ≡ 64 }
    requires fits { Fits u.now (image_of own.old) }
    ensures value { own.new ≡ with_image own.old (taken_back u.now (image_of own.old)) }
    ensures len { length own.new.dat ≡ 64 }
    ensures sizes { SameSizes (image_of own.old) (image_of own.new) }
{
    let count = u.len();
    for i in 0..count {
        restore(own, u.change(count - 1 - i));
    }
    own.dat.copy_in(0, u.dat());
}

/// Writes what stood at a place back.
fn restore(own: &mut Own, change: Change)
    requires within { IsWithin (contents_of (image_of own.old)) change }
    ensures dat { own.new ≡ with_image own.old
        (with_contents own.old.dat (put_back change (contents_of (image_of own.old)))) }
    ensures sizes { SameSizes (image_of own.old) (image_of own.new) }
{
    match change {
        Change::HeapByte(place, byte) => own.heap.set(place, byte),
        Change::StackBytes(place, bytes) => own.stack.copy_in(place, &bytes),
    }
}

/// The change that the next instruction makes outside the data region, where it is one that makes one.
fn next_change(own: &Own, p: &Program) -> Option<Change>
    requires size { length own.now.dat ≡ 64 }
    ensures within { IfSome result (IsWithin (contents_of (image_of own.now))) }
    ensures change { upcoming p.now.code (image_of own.now) ≡ LocalInstruction
        → IsChange (contents_of (image_of own.now)) (contents_of (local_step p.now.code (image_of own.now))) result }
{
    match p.code.get(next_place(own) as usize) {
        Some(instr) => place_before(own, &instr),
        None => None,
    }
}

/// What stands at the place that this instruction changes outside the data region, where it is one that does.
fn place_before(own: &Own, instr: &Instr) -> Option<Change>
    requires size { length own.now.dat ≡ 64 }
    ensures within { IfSome result (IsWithin (contents_of (image_of own.now))) }
    ensures change { instr_faults instr.now (image_of own.now) ≡ false
        → IsChange (contents_of (image_of own.now)) (contents_of (after_local instr.now (image_of own.now))) result }
{
    match *instr {
        Instr::Store(address, _) => {
            let place = heap_place(own, address)?;
            Some(Change::HeapByte(place, own.heap.as_slice()[place]))
        }
        Instr::Push(_) => stack_before(own),
        _ => None,
    }
}

/// The four bytes of the stack that follow those in use, where there are four.
fn stack_before(own: &Own) -> Option<Change>
    requires size { length own.now.dat ≡ 64 }
    ensures within { IfSome result (IsWithin (contents_of (image_of own.now))) }
    ensures change { (number : ℕ) → in_use (image_of own.now) + 4 ≤ length own.now.stack
        → IsChange (contents_of (image_of own.now)) (with_pushed (image_of own.now) number) result }
{
    let used = stack_in_use(own) as usize;
    let stack = own.stack.as_slice();
    if used + 4 > stack.len() {
        return None;
    }
    let mut bytes = [0; 4];
    bytes.copy_from_slice(&stack[used..used + 4]);
    Some(Change::StackBytes(used, bytes))
}
