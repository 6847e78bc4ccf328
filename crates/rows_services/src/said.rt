//! Requests and replies in words, and octets that words spell.

use primitives::{Reply, Request};
use sheets::{Stop, octets};
use std::alloc::{Allocator, Global};
use words::Words;

/// A request in words.
///
/// # Errors
/// Want of memory.
pub(crate) fn request_in_words<A: Allocator>(
    alloc: Global,
    request: &Request<A>,
) -> Result<String, Stop> {
    Ok(format!(in alloc; "{}", Words(request))?)
}

/// A reply in words.
///
/// # Errors
/// Want of memory.
pub(crate) fn reply_in_words<A: Allocator>(
    alloc: Global,
    reply: &Reply<A>,
) -> Result<String, Stop> {
    Ok(format!(in alloc; "{}", Words(reply))?)
}

/// What stands behind `bare`, and whether that stands in front.
pub(crate) fn bare(asked: &str) -> (&str, bool) {
    match asked.strip_prefix("bare ") {
        Some(rest) => (rest, true),
        None => (asked, false),
    }
}

/// The octets that words spell as pairs of hexadecimal digits.
///
/// # Errors
/// `Unread` where a word spells none, and `Memory`.
pub(crate) fn octets_of(alloc: Global, text: &str) -> Result<Vec<u8>, Stop> {
    let mut all = Vec::new(alloc);
    for word in text.split(' ') {
        all.extend_from_slice(octets(alloc, word)?.as_slice())?;
    }
    Ok(all)
}
