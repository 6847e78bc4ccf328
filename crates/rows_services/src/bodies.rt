//! Bodies of the confirmed services (15): `12 0C014000011955 -> read 5:1 85`, which is written again, and
//! `12 0C01400001 -> reject 5`. With `bare` in front the body is read while each allocation is refused.

use crate::said::{bare, request_in_words};
use apdu::RejectReason;
use primitives::Request;
use services::{decode_request, encode_request, service_of};
use sheets::{
    Counts, Given, Stop, Trial, buffer_in, differs, octets, push_written, run_octets, run_text,
    two_words, written_octets,
};
use std::alloc::{Allocator, Global};
use words::parse_number;

/// Octets that a request of a service is read from, and that are written of it.
#[derive(Clone, Copy)]
struct Bodies {
    service: u8,
}

impl<'a> Trial<'a> for Bodies {
    fn answer(&self, given: Given<'a>, octets: &[u8]) -> Result<String, Stop> {
        told(given, given.memory, self.service, octets)
    }
}

/// The request that a body spells, in words, with what is written of it where that is not what was read,
/// or the number of its Reject.
fn told<A: Allocator + Copy>(
    given: Given<'_>,
    memory: A,
    service: u8,
    octets: &[u8],
) -> Result<String, Stop> {
    match decode_request(memory, service, octets)? {
        Ok(request) => asked(given, memory, (service, octets), &request),
        Err(reason) => rejected(given.alloc, reason),
    }
}

/// A request of a service in words, with what is written of it where that is not what was read.
fn asked<A: Allocator + Copy>(
    given: Given<'_>,
    memory: A,
    read: (u8, &[u8]),
    request: &Request<A>,
) -> Result<String, Stop> {
    let mut text = request_in_words(given.alloc, request)?;
    push_again(given, memory, read, request, &mut text)?;
    Ok(text)
}

/// The number of a Reject, in words.
fn rejected(alloc: Global, reason: RejectReason) -> Result<String, Stop> {
    Ok(format!(in alloc; "reject {}", u8::from(reason))?)
}

/// Appends what is written of a request of a service, where that is not what was read.
fn push_again<A: Allocator + Copy>(
    given: Given<'_>,
    memory: A,
    (service, octets): (u8, &[u8]),
    request: &Request<A>,
    text: &mut String,
) -> Result<(), Stop> {
    if !request.is_sound() || u8::from(service_of(request)) != service {
        return Err(differs(given.alloc, "a request without a spelling"));
    }
    let mut out = buffer_in(memory)?;
    let came = encode_request(request, &mut out);
    push_written(octets, written_octets(given, came, out.as_slice())?, text)?;
    Ok(())
}

/// Runs a row.
pub(crate) fn run(given: Given<'_>, asked: &str, wanted: &str) -> Result<Counts, Stop> {
    let (asked, is_bare) = bare(asked);
    let (service, word) = two_words(asked);
    let service = parse_number(service)?;
    if is_bare {
        return run_text(told_bare(given, given.memory, service, word)?, wanted);
    }
    run_octets(given, &Bodies { service }, word, wanted)
}

/// The request that a body spells, or the number of its Reject, read while each allocation is refused.
fn told_bare<A: Allocator + Copy>(
    given: Given<'_>,
    memory: A,
    service: u8,
    word: &str,
) -> Result<String, Stop> {
    let octets = octets(given.alloc, word)?;
    given.memory.refuse_all();
    let found = decode_request(memory, service, octets.as_slice());
    given.memory.refuse_only(0);
    match found? {
        Ok(request) => request_in_words(given.alloc, &request),
        Err(reason) => rejected(given.alloc, reason),
    }
}
