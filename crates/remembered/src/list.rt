//! Remembered answers in a list, for tests.

ghost use Rattle.std.specs.Prelude.{◌≡◌, ◌∷◌, ◌++◌, [], OnOk, OnErr};
ghost use Rattle.answers.specs.objects.Machine.{after};
ghost use Rattle.remembered.specs.Keeping.{newest_place};
ghost use Rattle.remembered.specs.Records.{later_or, some_if};

use crate::record::{Asker, Record};
use crate::records::Records;
use answers::Executor;
use npdu::Way;
use primitives::Request;
use profile::lives;
use segments::Sender;
use std::alloc::{AllocError, Allocator};

/// This place where it is one of the asker's, else the one before.
fn later(is_of: bool, place: usize, before: Option<usize>) -> Option<usize>
    ensures { result ≡ later_or (some_if is_of place) before }
{
    if is_of { Some(place) } else { before }
}

/// Records in a list, in order of execution.
#[derive(Drop)]
pub struct ListRecords<A: Allocator> {
    alloc: A,
    list: Vec<Record<A>, A>,
}

#[tactic(auto, using(crate::proofs::Places::place_rules))]
impl<A: Allocator + Copy> ListRecords<A> {
    /// No records, whose memory will be that of `alloc`. It takes none.
    pub fn new(alloc: A) -> Self
        ensures { result.list.items ≡ [] }
    {
        ListRecords {
            alloc,
            list: Vec::new(alloc),
        }
    }

    /// Executes a request, and puts the record of it behind all others. All growths come first.
    ///
    /// # Errors
    /// Want of memory. The records and the objects are then as they were.
    pub fn execute<E: Executor<A>>(
        &mut self,
        entry: Record<A>,
        executor: &mut E,
        request: &Request<A>,
    ) -> Result<(), AllocError>
        ensures added { OnOk result (self.new.list.items ≡ self.old.list.items ++ entry ∷ []) }
        ensures ran { OnOk result (E.table_of executor.new ≡ after (E.table_of executor.old) request.now) }
        ensures unchanged { OnErr result (self.new.list.items ≡ self.old.list.items) }
        ensures same_table { OnErr result (E.table_of executor.new ≡ E.table_of executor.old) }
    {
        self.list.reserve(1)?;
        executor.run(request)?;
        self.list.push(entry).unwrap();
        Ok(())
    }

    /// The place of the newest record of this asker.
    fn place_of(&self, asker: Asker) -> Option<usize>
        ensures { result ≡ newest_place asker self.now.list.items }
    {
        let mut newest = None;
        for place in 0..self.list.len() {
            let is_of = self.list[place].asker.is_same(asker);
            newest = later(is_of, place, newest);
        }
        newest
    }
}

#[tactic(auto, using(crate::proofs::Places::place_rules))]
impl<A: Allocator + Copy> Records<A> for ListRecords<A> {
    ghost content = { λ s. s.list.items };

    fn find(&self, asker: Asker) -> Option<&Record<A>> {
        let place = self.place_of(asker)?;
        self.at(place)
    }

    fn forget_dead(&mut self, now: u64) {
        while self.begins_dead(now) {
            self.list.remove(0);
        }
    }

    fn replace(&mut self, asker: Asker, way: Way, sending: Option<Sender>) {
        if let Some(place) = self.place_of(asker) {
            let entry = &mut self.list[place];
            entry.way = way;
            entry.sending = sending;
        }
    }

    fn clear(&mut self) {
        self.list.clear();
    }

    fn at(&self, place: usize) -> Option<&Record<A>> {
        self.list.get(place)
    }

    fn len(&self) -> usize {
        self.list.len()
    }

    fn begins_dead(&self, now: u64) -> bool {
        match self.list.first() {
            None => false,
            Some(oldest) => !lives(oldest.at, now),
        }
    }

    fn copy(&self) -> Result<Self, AllocError> {
        let mut copy = ListRecords::new(self.alloc);
        for place in 0..self.list.len() {
            copy.list.push(self.list[place].copy(self.alloc)?)?;
        }
        Ok(copy)
    }
}
