//! The map and its calls.

use std::alloc::{AllocError, Allocator};
use std::marker::Model;

/// Keys and their values, in the order of the keys. A contract sees it as their list.
#[derive(Drop)]
pub struct SortedMap<K: Ord, V, A: Allocator> {
    entries: Vec<(K, V), A>,
}

impl<K: Ord, V, A: Allocator> Model for SortedMap<K, V, A> {
    ghost use Rattle.std.specs.Prelude.{List};
    ghost use Rattle.sorted_map.specs.Entries.{AreSorted};

    ghost Value = { List (K × V) };

    ghost view = { λ m. m.entries.items };

    ghost invariant = { λ m. AreSorted K.cmp m.entries.items };
}

impl<K: Ord + Copy, V: Copy, A: Allocator + Copy> SortedMap<K, V, A> {
    ghost use Rattle.std.specs.Prelude.{◌≡◌, [], Some, None, IfOk, IfErr, IfSome, OnOk, OnErr, length};
    ghost use Rattle.std.specs.BTreeMap.{insert_entry};
    ghost use Rattle.sorted_map.specs.Entries.{HasNow, IsAt, IsGap, Updates, value_of, without};

    /// Returns an empty map, whose memory will be that of `alloc`. It takes none.
    pub fn new(alloc: A) -> Self
        ensures { result ≡ [] }
    {
        SortedMap {
            entries: Vec::new(alloc),
        }
    }

    /// Returns an equal map, in the same memory, with room for this many entries more.
    ///
    /// # Errors
    /// Want of memory.
    pub fn copy_with_room(&self, more: usize) -> Result<Self, AllocError>
        ensures { IfOk result (λ copy. copy ≡ self.now) }
    {
        let room = self.entries.len().saturating_add(more);
        let mut entries = Vec::with_capacity(*self.entries.allocator(), room)?;
        entries.extend_from_slice(self.entries.as_slice())?;
        Ok(SortedMap { entries })
    }

    /// Returns the entries, in the order of their keys.
    pub fn as_slice(&self) -> &[(K, V)]
        ensures { result.now ≡ self.now }
    {
        self.entries.as_slice()
    }

    /// Returns how many entries there are.
    pub fn len(&self) -> usize
        ensures { result ≡ length self.now }
    {
        self.entries.len()
    }

    /// Returns the value of a key: to put it in again would change nothing.
    pub fn get(&self, key: K) -> Option<V>
        ensures value { result ≡ value_of K.cmp key self.now }
        ensures kept { IfSome result (λ value. insert_entry K.cmp self.now key value ≡ self.now) }
    {
        match self.search(key) {
            Ok(place) => Some(self.entries[place].1),
            Err(_) => None,
        }
    }

    /// Puts a value in under a key, in the place of the one that it had, and returns that.
    ///
    /// # Errors
    /// Want of memory, which only a new key takes. The map is then as it was.
    pub fn insert(&mut self, key: K, value: V) -> Result<Option<V>, AllocError>
        ensures had { IfOk result (λ had. had ≡ value_of K.cmp key self.old) }
        ensures entries { OnOk result (self.new ≡ insert_entry K.cmp self.old key value) }
        ensures set { OnOk result (HasNow K.cmp key (Some value) self.old self.new) }
        ensures unchanged { OnErr result (self.new ≡ self.old) }
        ensures absent { OnErr result (value_of K.cmp key self.old ≡ None) }
    {
        match self.search(key) {
            Ok(place) => {
                let had = self.entries[place];
                self.entries[place] = (had.0, value);
                Ok(Some(had.1))
            }
            Err(place) => {
                self.entries.insert(place, (key, value))?;
                Ok(None)
            }
        }
    }

    /// Takes a key away where it has this value.
    pub fn remove_pair(&mut self, key: K, value: V)
    where
        V: PartialEq,
        ensures entries { self.new ≡ without K.cmp V.eq key value self.old }
        ensures values { Updates K.cmp V.eq key value self.old self.new }
    {
        let Ok(place) = self.search(key) else {
            return;
        };
        if self.entries[place].1 == value {
            self.entries.remove(place);
        }
    }

    /// Takes all entries away. It takes no memory.
    pub fn clear(&mut self)
        ensures { self.new ≡ [] }
    {
        self.entries.clear();
    }

    /// Returns the place of a key, or else the one where it would go.
    #[inline(always)]
    fn search(&self, key: K) -> Result<usize, usize>
        ensures found { IfOk result (IsAt K.cmp self.now key) }
        ensures absent { IfErr result (IsGap K.cmp self.now key) }
    {
        self.entries.binary_search_by(|entry| entry.0.cmp(&key))
    }
}
