//! Copies of requests and replies, and of `levels 1 2`, a list of a type of the program's own: equal, in
//! memory of the caller's, or there is none.

use crate::text::{expanded, is_reply};
use primitives::{CopyIn, copy_all};
use sheets::{Counts, Given, Stop, Trial, reply_in, request_in, try_row};
use std::alloc::{AllocError, Allocator};
use tags::Items;
use words::parse_number;

/// What is copied, in words. It lies in memory of its own, which is refused during the copy.
#[derive(Clone, Copy)]
struct Copied<'w>(&'w str);

impl<'w, 'a> Trial<'a> for Copied<'w> {
    fn answer(&self, given: Given<'a>, _octets: &[u8]) -> Result<String, Stop> {
        let Given { memory, other, .. } = given;
        let is_equal = match self.0.split_once(' ') {
            Some(("levels", words)) => is_list_copied(given, other, memory, words)?,
            _ if is_reply(self.0) => is_reply_copied(given, other, memory, self.0)?,
            _ => is_request_copied(given, other, memory, self.0)?,
        };
        let found = if is_equal { "equal" } else { "not equal" };
        Ok(String::from_str(given.alloc, found)?)
    }
}

/// Whether the copy of a request is equal.
fn is_request_copied<A: Allocator + Copy>(
    given: Given<'_>,
    from: A,
    to: A,
    words: &str,
) -> Result<bool, Stop> {
    let request = request_in(from, words)?;
    given.other.refuse_all();
    let copy = request.copy(to);
    given.other.refuse_only(0);
    Ok(copy? == request)
}

/// Whether the copy of a reply is equal.
fn is_reply_copied<A: Allocator + Copy>(
    given: Given<'_>,
    from: A,
    to: A,
    words: &str,
) -> Result<bool, Stop> {
    let reply = reply_in(from, words)?;
    given.other.refuse_all();
    let copy = reply.copy(to);
    given.other.refuse_only(0);
    Ok(copy? == reply)
}

/// A part of a list that is copied.
#[derive(Clone, Copy, PartialEq)]
struct Lamp {
    level: u8,
}

impl<A: Allocator> CopyIn<A> for Lamp {
    fn copy_in(&self, _alloc: A) -> Result<Lamp, AllocError> {
        Ok(*self)
    }
}

/// Whether the copy of a list is equal, and is not once the list has grown.
fn is_list_copied<A: Allocator + Copy>(
    given: Given<'_>,
    from: A,
    to: A,
    words: &str,
) -> Result<bool, Stop> {
    let mut lamps = Items::new(from);
    for word in words.split(' ') {
        let level = parse_number(word)?;
        lamps.push(Lamp { level })?;
    }
    given.other.refuse_all();
    let copy = copy_all(to, lamps.as_slice());
    given.other.refuse_only(0);
    let copy = copy?;
    let is_equal = copy == lamps;
    lamps.push(Lamp { level: 0 })?;
    Ok(is_equal && copy != lamps)
}

/// Runs a row.
pub(crate) fn run(given: Given<'_>, asked: &str, wanted: &str) -> Result<Counts, Stop> {
    let words = expanded(given.alloc, asked)?;
    try_row(given, &Copied(words.as_str()), &[], wanted)
}
