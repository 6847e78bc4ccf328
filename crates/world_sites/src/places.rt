//! At which place of a list each key stands first.

ghost use Rattle.std.specs.Prelude.{IfOk, OnOk};
ghost use Rattle.world_sites.specs.Places.{AreFirst, IsPut};

use std::alloc::{AllocError, Allocator};
use std::collections::BTreeMap;

/// The place of the first of each key.
pub(crate) type FirstPlaces<K, A> = BTreeMap<K, usize, A>;

/// At which place of the list each key stands first, the place of its first key being 0.
///
/// # Errors
/// Want of memory.
pub(crate) fn first_places<K: Ord + Drop, A: Allocator + Copy>(
    alloc: A,
    keys: Vec<K, A>,
) -> Result<FirstPlaces<K, A>, AllocError>
    ensures { IfOk result (λ places. AreFirst K.cmp places keys.items) }
{
    let mut places = BTreeMap::new(alloc);
    let mut left = keys;
    // from the last on, so that the first of equal keys is what stays
    while let Some(key) = left.pop() {
        places.insert(key, left.len())?;
    }
    Ok(places)
}

/// A key has this place then, and any other the place that it had.
///
/// # Errors
/// Want of memory.
#[tactic(auto, using(crate::proofs::PlaceLaws::put_rules))]
pub(crate) fn put_place<K: Ord + Drop, A: Allocator + Copy>(
    places: &mut FirstPlaces<K, A>,
    key: K,
    place: usize,
) -> Result<(), AllocError>
    ensures { OnOk result (IsPut K.cmp key place places.old places.new) }
{
    places.insert(key, place)?;
    Ok(())
}
