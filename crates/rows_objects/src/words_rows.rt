//! Requests in words, and what is printed of them: `read 05:1 85 -> read 5:1 85`.

use sheets::{Counts, Given, Stop, Trial, try_row};
use std::alloc::{Allocator, Global};
use words::{Unread, Words, parse_request};

/// Words that say a request, or not.
#[derive(Clone, Copy)]
struct Read<'t>(&'t str);

impl<'t, 'a> Trial<'a> for Read<'t> {
    fn answer(&self, given: Given<'a>, _octets: &[u8]) -> Result<String, Stop> {
        printed(given.alloc, given.memory, self.0)
    }
}

/// The request that words say, printed, or why they say none.
fn printed<A: Allocator + Copy>(alloc: Global, memory: A, words: &str) -> Result<String, Stop> {
    match parse_request(memory, words) {
        Ok(request) => Ok(format!(in alloc; "{}", Words(&request))?),
        Err(Unread::Memory) => Err(Stop::Memory),
        Err(unread) => Ok(format!(in alloc; "{unread}")?),
    }
}

/// Runs a row of a request.
pub(crate) fn run(given: Given<'_>, asked: &str, wanted: &str) -> Result<Counts, Stop> {
    try_row(given, &Read(asked), &[], wanted)
}
