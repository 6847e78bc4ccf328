//! Parts that are a site, or not: `judge P -> site`, with each allocation refused in turn.

use crate::described::Described;
use sheets::{Counts, Given, Stop, Trial, refusal, try_row};
use site::Site;
use site_parts::Parts;
use std::alloc::{Allocator, Global};

/// Parts that are judged, anew at each call.
#[derive(Clone, Copy)]
struct Judged<'r>(Described<'r>);

impl<'r, 'a> Trial<'a> for Judged<'r> {
    fn answer(&self, given: Given<'a>, _octets: &[u8]) -> Result<String, Stop> {
        judgement(given.alloc, given.memory, self.0.parts(given.other)?)
    }
}

/// What comes of judging parts.
fn judgement<A: Allocator + Copy>(
    alloc: Global,
    memory: A,
    parts: Parts<A>,
) -> Result<String, Stop> {
    match Site::new(memory, parts) {
        Ok(_) => Ok(String::from_str(alloc, "site")?),
        Err(fault) => refusal(alloc, fault),
    }
}

/// Runs a row.
pub(crate) fn run(
    given: Given<'_>,
    described: Described<'_>,
    wanted: &str,
) -> Result<Counts, Stop> {
    try_row(given, &Judged(described), &[], wanted)
}
