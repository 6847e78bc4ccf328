//! The keys of transactions that wait for their answers, by when their last packets came.

use crate::strays::Stray;
use diagnosis_parts::Key;
use lru::{DefaultHasher, Iter, LruCache};
use std::alloc::{AllocError, Allocator};
use std::num::NonZeroUsize;

/// The keys of transactions that wait, each with an answer of another station than was asked, if one came.
#[derive(Drop)]
pub(crate) struct Waiting<A: Allocator> {
    keys: LruCache<Key, Option<Stray>, DefaultHasher, A>,
}

impl<A: Allocator + Copy> Waiting<A> {
    /// None yet, of so many at most.
    pub(crate) fn new(alloc: A, most: NonZeroUsize) -> Result<Waiting<A>, AllocError> {
        Ok(Waiting {
            keys: LruCache::new(alloc, most)?,
        })
    }

    /// A transaction begins to wait.
    pub(crate) fn begin(&mut self, key: Key) -> Result<(), AllocError> {
        self.keys.put(key, None)?;
        Ok(())
    }

    /// Another packet of a transaction came, if it waits.
    pub(crate) fn touch(&mut self, key: Key) {
        self.keys.promote(&key);
    }

    /// A transaction waits no more. Returns what was known of it, if it did.
    pub(crate) fn end(&mut self, key: Key) -> Option<Option<Stray>> {
        self.keys.pop(&key)
    }

    /// The one whose last packet is the oldest.
    pub(crate) fn oldest(&self) -> Option<(Key, Option<Stray>)> {
        let (key, stray) = self.keys.peek_lru()?;
        Some((*key, *stray))
    }

    /// Those that wait, the one whose last packet is the newest first.
    pub(crate) fn by_age(&self) -> Iter<'_, Key, Option<Stray>> {
        self.keys.iter()
    }

    /// Notes an answer from another station at a transaction of this client and invoke ID, if one waits.
    pub(crate) fn suspect(&mut self, key: Key, stray: Stray) -> bool {
        let Some(open) = self.other_of(key) else {
            return false;
        };
        match self.keys.peek_mut(&open) {
            Some(place) => {
                *place = Some(stray);
                true
            }
            None => false,
        }
    }

    /// The key of a transaction of this client and invoke ID.
    fn other_of(&self, key: Key) -> Option<Key> {
        for (open, _) in &self.keys {
            if open.client == key.client && open.invoke_id == key.invoke_id {
                return Some(*open);
            }
        }
        None
    }
}
