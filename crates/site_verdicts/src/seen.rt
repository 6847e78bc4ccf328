//! What expectations are judged by.

use crate::refusals::Refusals;
use primitives::Reply;
use site_history::WorldEntry;
use site_parts::Station;
use std::alloc::Allocator;

/// What has been seen of a run so far.
#[derive(Clone, Copy)]
pub struct Seen<'a, A: Allocator> {
    pub history: &'a [WorldEntry<A>],
    /// The stations of the site, whose names are told.
    pub stations: &'a [Station<A>],
    pub refusals: Refusals,
    /// What the property that an expectation asks for reads now at its device, if there is one.
    pub read: Option<&'a Reply<A>>,
}
