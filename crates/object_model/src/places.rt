//! Where each object of a device stands in its list, found in the logarithm of their number.

ghost use Rattle.std.specs.Prelude.{◌≡◌, List, ◌++◌, ◌∷◌, [], OnOk, OnErr, length};
ghost use Rattle.std.specs.BTreeMap as tree;
ghost use Rattle.object_model.specs.Places.{id_cmp, also_at};
ghost use Rattle.primitives.specs.tags.declared.object_id.ObjectId.{ObjectId};

use primitives::tags::ObjectId;
use std::alloc::{AllocError, Allocator};
use std::collections::BTreeMap;
use std::marker::Model;

/// A list of identifiers, with a map from each to its place. A contract sees the list.
#[derive(Drop)]
pub struct Places<A: Allocator> {
    identifiers: Vec<ObjectId, A>,
    by_identifier: BTreeMap<ObjectId, usize, A>,
}

impl<A: Allocator> Model for Places<A> {
    ghost use Rattle.std.specs.Prelude.{◌≡◌, List};
    ghost use Rattle.std.specs.BTreeMap as tree;
    ghost use Rattle.object_model.specs.Places.{place_of, id_cmp};
    ghost use Rattle.primitives.specs.tags.declared.object_id.ObjectId.{ObjectId};

    ghost Value = { List ObjectId };

    ghost view = { λ s. s.identifiers.items };

    ghost invariant = { λ s. (id : ObjectId) → tree.get id_cmp s.by_identifier id ≡ place_of s.identifiers.items id };
}

impl<A: Allocator + Copy> Places<A> {
    ghost use Rattle.std.specs.Prelude.{◌≡◌, ◌++◌, ◌∷◌, [], OnOk, OnErr};
    ghost use Rattle.object_model.specs.Places.{place_of};

    /// The empty list.
    pub fn new(alloc: A) -> Self
        ensures { result ≡ [] }
    {
        Places {
            identifiers: Vec::new(alloc),
            by_identifier: BTreeMap::new(alloc),
        }
    }

    /// The first place of an identifier in the list, counted from 0.
    pub fn find(&self, id: ObjectId) -> Option<usize>
        ensures { result ≡ place_of self.now id }
    {
        self.by_identifier.get(&id).copied()
    }

    /// Puts an identifier at the end. An `Err` leaves the list as it was.
    ///
    /// # Errors
    /// Want of memory.
    pub fn push(&mut self, id: ObjectId) -> Result<(), AllocError>
        ensures pushed { OnOk result (self.new ≡ self.old ++ id ∷ []) }
        ensures unchanged { OnErr result (self.new ≡ self.old) }
    {
        self.identifiers.reserve(1)?;
        note_place(&mut self.by_identifier, id, self.identifiers.len())?;
        self.identifiers.push(id)?;
        Ok(())
    }
}

/// Notes the place of an identifier that has none yet.
fn note_place<A: Allocator + Copy>(
    places: &mut BTreeMap<ObjectId, usize, A>,
    id: ObjectId,
    place: usize,
) -> Result<(), AllocError>
    ensures noted { OnOk result ((q : ObjectId) → tree.get id_cmp places.new q ≡
        also_at (tree.get id_cmp places.old q) id place q) }
    ensures unchanged { OnErr result ((q : ObjectId) → tree.get id_cmp places.new q ≡ tree.get id_cmp places.old q) }
{
    if !places.contains_key(&id) {
        places.insert(id, place)?;
    }
    Ok(())
}
