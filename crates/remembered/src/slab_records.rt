//! Remembered answers in a slab, with a map to the newest of each asker and a queue of their order: what is
//! looked for is found in the time of a map.

ghost use Rattle.std.specs.Prelude.{◌≡◌, ◌∷◌, ◌++◌, [], OnOk, OnErr, IfOk, option_copied, drop};
ghost use Rattle.answers.specs.objects.Machine.{after};
ghost use Rattle.remembered.specs.Keeping.{first};

use crate::keys::{AskerKeys, key_in, run_with_key};
use crate::record::{Asker, Record};
use crate::records::Records;
use answers::Executor;
use npdu::Way;
use primitives::Request;
use profile::lives;
use segments::Sender;
use slab::Slab;
use std::alloc::{AllocError, Allocator};
use std::collections::VecDeque;
use std::marker::Model;

/// Records under keys. A contract sees them as a list in order of execution.
#[derive(Drop)]
pub struct SlabRecords<A: Allocator> {
    alloc: A,
    held: Slab<Record<A>, A>,
    keys: AskerKeys<A>,
    order: VecDeque<usize, A>,
}

impl<A: Allocator> Model for SlabRecords<A> {
    ghost use Rattle.std.specs.Prelude.{List};
    ghost use Rattle.remembered.specs.declared.record.Record.{Record};
    ghost use Rattle.remembered.specs.Keeping.{listed, IsKept};

    ghost Value = { List (Record A) };

    ghost view = { λ s. listed s.held.slots s.order.items };

    ghost invariant = { λ s. IsKept s.held.slots s.keys s.order.items };
}

#[tactic(auto, using(crate::proofs::Keeping::keeping_rules))]
impl<A: Allocator + Copy> SlabRecords<A> {
    /// No records, whose memory will be that of `alloc`. It takes none.
    pub fn new(alloc: A) -> Self
        ensures { result ≡ [] }
    {
        SlabRecords {
            alloc,
            held: Slab::new(alloc),
            keys: AskerKeys::new(alloc),
            order: VecDeque::new(alloc),
        }
    }

    /// Executes a request, and puts the record of it behind all others. All growths come first.
    ///
    /// # Errors
    /// Want of memory. The records and the objects are then as they were.
    pub fn execute<E: Executor<A>>(
        &mut self,
        entry: Record<A>,
        executor: &mut E,
        request: &Request<A>,
    ) -> Result<(), AllocError>
        ensures added { OnOk result (self.new ≡ self.old ++ entry ∷ []) }
        ensures ran { OnOk result (E.table_of executor.new ≡ after (E.table_of executor.old) request.now) }
        ensures unchanged { OnErr result (self.new ≡ self.old) }
        ensures same_table { OnErr result (E.table_of executor.new ≡ E.table_of executor.old) }
    {
        self.held.reserve(1)?;
        self.order.reserve(1)?;
        let key = self.held.vacant_key();
        run_with_key(&mut self.keys, entry.asker, key, executor, request)?;
        self.held.insert_reserved(entry);
        self.order.push_back(key).unwrap();
        Ok(())
    }

    /// Puts a record behind all others.
    fn add(&mut self, entry: Record<A>) -> Result<(), AllocError>
        ensures added { OnOk result (self.new ≡ self.old ++ entry ∷ []) }
        ensures unchanged { OnErr result (self.new ≡ self.old) }
    {
        self.held.reserve(1)?;
        self.order.reserve(1)?;
        let key = self.held.vacant_key();
        self.keys.insert(entry.asker, key)?;
        self.held.insert_reserved(entry);
        self.order.push_back(key).unwrap();
        Ok(())
    }

    /// The oldest record.
    fn first(&self) -> Option<&Record<A>>
        ensures { option_copied result ≡ first self.now }
    {
        let key = self.order.front()?;
        self.held.get(*key)
    }

    /// Forgets the oldest record.
    fn forget_first(&mut self)
        ensures { self.new ≡ drop 1 self.old }
    {
        let Some(key) = self.order.pop_front() else {
            return;
        };
        let Some(record) = self.held.try_remove(key) else {
            return;
        };
        self.keys.remove_pair(record.asker, key);
    }
}

#[tactic(auto, using(crate::proofs::Keeping::keeping_rules))]
impl<A: Allocator + Copy> Records<A> for SlabRecords<A> {
    ghost content = { λ s. s };

    fn find(&self, asker: Asker) -> Option<&Record<A>> {
        let key = self.keys.get(asker)?;
        self.held.get(key)
    }

    fn forget_dead(&mut self, now: u64) {
        while self.begins_dead(now) {
            self.forget_first();
        }
    }

    fn replace(&mut self, asker: Asker, way: Way, sending: Option<Sender>) {
        let Some(key) = self.keys.get(asker) else {
            return;
        };
        let Some(entry) = self.held.get_mut(key) else {
            return;
        };
        entry.way = way;
        entry.sending = sending;
    }

    fn clear(&mut self) {
        self.held.clear();
        self.keys.clear();
        self.order.clear();
    }

    fn at(&self, place: usize) -> Option<&Record<A>> {
        let key = key_in(&self.order, place)?;
        self.held.get(key)
    }

    fn len(&self) -> usize {
        self.order.len()
    }

    fn begins_dead(&self, now: u64) -> bool {
        match self.first() {
            None => false,
            Some(oldest) => !lives(oldest.at, now),
        }
    }

    fn copy(&self) -> Result<Self, AllocError> {
        let mut copy = SlabRecords::new(self.alloc);
        for place in 0..self.len() {
            let Some(entry) = self.at(place) else {
                return Ok(copy);
            };
            copy.add(entry.copy(self.alloc)?)?;
        }
        Ok(copy)
    }
}
