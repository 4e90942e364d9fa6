//! The objects that handles name. Each of them stays in the table while somebody holds it.

ghost use Rattle.std.specs.Prelude.{◌≡◌, ℕ, ◌+◌, ◌/◌, ◌%◌, ◌<◌, ◌≤◌, ◌↔◌, Some, None, IsTrue, IsSome, IsSomeAnd, IfOk};
ghost use Rattle.std.specs.Borrow.{sem};
ghost use Rattle.w32_handles.specs.Table.{object_at, Changes, one_more, one_less, freed};

use slab::Slab;
use std::alloc::{AllocError, Global};
use std::marker::Model;
use w32_base::{Memory, ObjectNo};

/// How many objects have numbers: an object's number is twice its place in the table.
const MOST_OBJECTS: usize = 2_147_483_648;

/// An object and how many holders it has, one at least.
#[derive(Drop)]
struct HeldObject<K> {
    object: K,
    holders: u16,
}

impl<K> Model for HeldObject<K> {
    ghost use Rattle.std.specs.Prelude.{◌<◌};
    ghost use Rattle.w32_handles.specs.Table.{HeldObject, kept_code};

    ghost Value = { HeldObject K };

    ghost coded = { kept_code K.code };

    ghost view = { λ h. record { object = h.object; holders = h.holders } };

    ghost invariant = { λ h. 0 < h.holders };
}

impl<K> HeldObject<K> {
    ghost use Rattle.w32_handles.specs.Lends.{lends_held};

    // The object.
    fn object(&self) -> &K
        ensures value { result.now ≡ self.now.object }
        ensures held { 0 < self.now.holders }
    {
        &self.object
    }

    // The object, to change it.
    fn object_mut(&mut self) -> &mut K
        ensures* lends { sem 𝓛 (lends_held K.row self.entry result) }
        ensures value { result.now ≡ self.old.object }
    {
        &mut self.object
    }
}

/// A table of objects. Each has an even number, and a count of its holders. A contract sees it as its places, each
/// with an object and its holders or nothing, and the number of further objects that it has room for.
#[derive(Drop)]
pub struct Objects<K> {
    slab: Slab<HeldObject<K>>,
    spare: usize,
}

impl<K> Model for Objects<K> {
    ghost use Rattle.std.specs.Prelude.{◌+◌, ◌^◌, ◌≤◌};
    ghost use Rattle.slab.specs.Slab.{slab_len};
    ghost use Rattle.w32_handles.specs.Table.{Table, table_code};

    ghost Value = { Table K };

    ghost coded = { table_code K.code };

    ghost view = { λ t. record { places = t.slab.slots; spare = t.spare } };

    ghost invariant = { λ t. (slab_len t.slab + t.spare ≤ t.slab.capacity) × (t.slab.capacity ≤ 2147483648) };
}

impl<K: Drop> Objects<K> {
    ghost use Rattle.w32_handles.specs.Lends.{lends_object};

    /// An empty table with room for `n` objects. It fails only for want of memory.
    pub fn with_room(alloc: Global, n: usize) -> Result<Objects<K>, Memory>
        requires { n ≤ 2147483648 }
        ensures empty { IfOk result (λ table. (o : ℕ) → object_at table o ≡ None) }
        ensures spare { IfOk result (λ table. table.spare ≡ n) }
    {
        let slab = Slab::with_capacity(alloc, n)?;
        // more room than there are numbers is as good as none
        if slab.capacity() > MOST_OBJECTS {
            return Err(AllocError);
        }
        Ok(Objects { slab, spare: n })
    }

    /// Puts an object into the table, with one holder, under an even number that wasn't in use.
    pub fn add(&mut self, k: K) -> ObjectNo
        requires { 0 < self.old.spare }
        ensures even { result % 2 ≡ 0 }
        ensures unused { object_at self.old result ≡ None }
        ensures added { Changes self.old self.new result (Some (record { object = k; holders = 1 })) }
        ensures spare { self.new.spare + 1 ≡ self.old.spare }
    {
        let place = self.slab.insert_reserved(HeldObject {
            object: k,
            holders: 1,
        });
        self.spare -= 1;
        ObjectNo::new(2 * (place as u32))
    }

    /// Adds a holder to an object.
    pub fn hold(&mut self, o: ObjectNo)
        requires { IsSomeAnd (object_at self.old o) (λ kept. kept.holders < 4160) }
        ensures held { Changes self.old self.new o (one_more (object_at self.old o)) }
        ensures spare { self.new.spare ≡ self.old.spare }
    {
        let held = &mut self.slab[place_of(o)];
        held.holders += 1;
    }

    /// Takes a holder of an object away. With its last one the object is dropped.
    pub fn release(&mut self, o: ObjectNo)
        requires { IsSome (object_at self.old o) }
        ensures released { Changes self.old self.new o (one_less (object_at self.old o)) }
        ensures spare { self.new.spare ≡ self.old.spare + freed (object_at self.old o) }
    {
        let place = place_of(o);
        let held = &mut self.slab[place];
        if held.holders > 1 {
            held.holders -= 1;
        } else {
            let _ = self.slab.remove(place);
            self.spare += 1;
        }
    }

    /// An object.
    pub fn get(&self, o: ObjectNo) -> &K
        requires { IsSome (object_at self.now o) }
        ensures value { IsSomeAnd (object_at self.now o) (λ kept. kept.object ≡ result.now) }
        ensures held { IsSomeAnd (object_at self.now o) (λ kept. 0 < kept.holders) }
    {
        self.slab[place_of(o)].object()
    }

    /// How many places the table has at the most. The object at a place has twice its number.
    pub fn places(&self) -> usize
        ensures all { (o : ℕ) → result ≤ o / 2 → object_at self.now o ≡ None }
        ensures range { result ≤ 2147483648 }
    {
        self.slab.capacity()
    }

    /// Whether an object is in the table.
    pub fn contains(&self, o: ObjectNo) -> bool
        ensures { IsTrue result ↔ IsSome (object_at self.now o) }
    {
        self.slab.contains(place_of(o))
    }

    /// An object, to change it.
    pub fn get_mut(&mut self, o: ObjectNo) -> &mut K
        requires { IsSome (object_at self.old o) }
        ensures* lends { sem 𝓛 (lends_object K.row self.entry o result) }
        ensures value { IsSomeAnd (object_at self.old o) (λ kept. kept.object ≡ result.now) }
    {
        self.slab[place_of(o)].object_mut()
    }
}

// The place of a number, whose lowest bit doesn't count.
fn place_of(o: ObjectNo) -> usize
    ensures { result ≡ o / 2 }
{
    o.get() as usize / 2
}

#[cfg(test)]
mod tests;
