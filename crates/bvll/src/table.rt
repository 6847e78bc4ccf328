//! Tables, whose entries lie in a datagram or in a list of the caller's.

ghost use Rattle.std.specs.Prelude.{◌≡◌, ◌≢◌, ◌↔◌, ◌%◌, [], length, IfOk, IfErr, IsTrue, OnOk, OnErr, ◌++◌, flat_map};
ghost use Rattle.std.specs.Prelude.{slice_get};

use crate::entry::{ENTRY_OCTETS, TableEntry};
use std::alloc::{AllocError, Allocator};
use tags::Fault;

/// A broadcast distribution table or a foreign device table, as a datagram has it (J.2.2, J.2.8): in octets that were
/// read, or in a list that is to be written.
#[derive(Clone, Copy, Debug)]
pub enum BvllTable<'a, E> {
    /// Ten octets for each entry. What is left over belongs to none.
    Octets(&'a [u8]),
    Entries(&'a [E]),
}

/// Goes through the entries of a table.
#[derive(Clone, Copy, Debug)]
pub struct Iter<'a, E> {
    rest: BvllTable<'a, E>,
}

impl<'a, E: TableEntry> BvllTable<'a, E> {
    ghost use Rattle.bvll.specs.Table.{entries_at, entries_of, rest_of, SpellsTable};
    ghost use Rattle.std.specs.List.{AllByRecursion};
    ghost use Rattle.tags.specs.Canonical.{Extends};

    /// The table that the octets spell, all of them. Takes no memory.
    ///
    /// # Errors
    ///
    /// `BadLength` for octets that are not whole entries.
    #[tactic(auto, using(crate::proofs::Tables::table_rules))]
    pub fn read(octets: &'a [u8]) -> Result<BvllTable<'a, E>, Fault>
        ensures read { IfOk result (λ t. SpellsTable E.octets_of E.IsEntry octets.entry.now (entries_of E.entry_at t)) }
        ensures refused { IfErr result (λ e. (e ≡ Fault.BadLength) × (length octets.entry.now % 10 ≢ 0)) }
    {
        if octets.len() % ENTRY_OCTETS != 0 {
            return Err(Fault::BadLength);
        }
        Ok(BvllTable::Octets(octets))
    }

    /// The number of entries.
    #[tactic(auto, using(crate::proofs::Tables::table_rules))]
    pub fn len(&self) -> usize
        ensures { result ≡ length (entries_of E.entry_at self.now) }
    {
        match self {
            BvllTable::Octets(octets) => octets.len() / ENTRY_OCTETS,
            BvllTable::Entries(entries) => entries.len(),
        }
    }

    /// Whether there is no entry.
    pub fn is_empty(&self) -> bool
        ensures { IsTrue result ↔ (entries_of E.entry_at self.now ≡ []) }
    {
        self.len() == 0
    }

    /// The entry at an index from 0, in the order of the datagram.
    pub fn get(&self, index: usize) -> Option<E>
        ensures { result ≡ slice_get (entries_of E.entry_at self.now) index }
    {
        match self {
            BvllTable::Octets(octets) => BvllTable::row(octets, index),
            BvllTable::Entries(entries) => entries.get(index).copied(),
        }
    }

    /// The entries in order.
    pub fn iter(&self) -> Iter<'a, E>
        ensures rest { rest_of E.entry_at result ≡ entries_of E.entry_at self.now }
    {
        Iter { rest: *self }
    }

    pub(crate) fn put<B: Allocator>(&self, out: &mut Vec<u8, B>) -> Result<(), AllocError>
        ensures put { OnOk result (out.new.items ≡ out.old.items ++
            flat_map E.octets_of (entries_of E.entry_at self.now)) }
        ensures fields { OnOk result (AllByRecursion E.IsEntry (entries_of E.entry_at self.now)) }
        ensures err { OnErr result (Extends out.old.items out.new.items) }
    {
        for entry in self.iter() {
            out.extend_from_slice(&entry.to_octets())?;
        }
        Ok(())
    }

    #[tactic(auto, using(crate::proofs::Tables::table_rules))]
    fn row(octets: &[u8], index: usize) -> Option<E>
        ensures { result ≡ slice_get (entries_at E.entry_at octets.now) index }
    {
        if octets.len() / ENTRY_OCTETS <= index {
            return None;
        }
        let (_, rest) = octets.split_at(ENTRY_OCTETS * index);
        Some(E::from_octets(rest))
    }
}

impl<'a, E: TableEntry> Iterator for Iter<'a, E> {
    type Item = E;

    ghost use Rattle.std.specs.Iterator.{YieldsFirst, item_count};
    ghost use Rattle.bvll.specs.Table.{rest_of};

    ghost next_gives = { YieldsFirst (rest_of E.entry_at) };

    ghost remaining = { item_count (rest_of E.entry_at) };

    #[tactic(auto, using(crate::proofs::Tables::next_rules))]
    fn next(&mut self) -> Option<E> {
        match self.rest {
            BvllTable::Octets(octets) => {
                if octets.len() < ENTRY_OCTETS {
                    return None;
                }
                let entry = E::from_octets(octets);
                let (_, rest) = octets.split_at(ENTRY_OCTETS);
                self.rest = BvllTable::Octets(rest);
                Some(entry)
            }
            BvllTable::Entries(entries) => {
                let [entry, rest @ ..] = entries else {
                    return None;
                };
                self.rest = BvllTable::Entries(rest);
                Some(*entry)
            }
        }
    }
}
