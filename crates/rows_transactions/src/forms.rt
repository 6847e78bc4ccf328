//! Both forms of what remembers: a list, and records under keys.

use npdu::Way;
use primitives::Request;
use remembered::{Asker, ListRecords, Record, Records, SlabRecords};
use segments::Sender;
use services::ObjectExecutor;
use std::alloc::{AllocError, Allocator};

/// What remembers.
#[derive(Drop)]
pub(crate) enum Form<A: Allocator + Copy> {
    List(ListRecords<A>),
    Keys(SlabRecords<A>),
}

impl<A: Allocator + Copy> Form<A> {
    /// Executes a request, and puts the record of it behind all others.
    ///
    /// # Errors
    /// Want of memory.
    pub(crate) fn execute(
        &mut self,
        entry: Record<A>,
        executor: &mut ObjectExecutor<A>,
        request: &Request<A>,
    ) -> Result<(), AllocError> {
        match self {
            Form::List(records) => records.execute(entry, executor, request),
            Form::Keys(records) => records.execute(entry, executor, request),
        }
    }

    /// The newest record of this asker.
    pub(crate) fn find(&self, asker: Asker) -> Option<&Record<A>> {
        match self {
            Form::List(records) => records.find(asker),
            Form::Keys(records) => records.find(asker),
        }
    }

    /// Forgets the oldest records, as long as they are dead.
    pub(crate) fn forget_dead(&mut self, now: u64) {
        match self {
            Form::List(records) => records.forget_dead(now),
            Form::Keys(records) => records.forget_dead(now),
        }
    }

    /// Has the newest record of this asker said on this way by this sender.
    pub(crate) fn replace(&mut self, asker: Asker, way: Way, sending: Option<Sender>) {
        match self {
            Form::List(records) => records.replace(asker, way, sending),
            Form::Keys(records) => records.replace(asker, way, sending),
        }
    }

    /// Forgets all.
    pub(crate) fn clear(&mut self) {
        match self {
            Form::List(records) => records.clear(),
            Form::Keys(records) => records.clear(),
        }
    }

    /// The record at this place.
    pub(crate) fn at(&self, place: usize) -> Option<&Record<A>> {
        match self {
            Form::List(records) => records.at(place),
            Form::Keys(records) => records.at(place),
        }
    }

    /// How many there are.
    pub(crate) fn len(&self) -> usize {
        match self {
            Form::List(records) => records.len(),
            Form::Keys(records) => records.len(),
        }
    }

    /// Whether the oldest record is dead.
    pub(crate) fn begins_dead(&self, now: u64) -> bool {
        match self {
            Form::List(records) => records.begins_dead(now),
            Form::Keys(records) => records.begins_dead(now),
        }
    }

    /// Equal records.
    ///
    /// # Errors
    /// Want of memory.
    pub(crate) fn copy(&self) -> Result<Self, AllocError> {
        match self {
            Form::List(records) => Ok(Form::List(records.copy()?)),
            Form::Keys(records) => Ok(Form::Keys(records.copy()?)),
        }
    }
}
