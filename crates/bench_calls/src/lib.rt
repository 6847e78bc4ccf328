//! The calls that `bench` times, for programs in C or Rust: a static library. Each function makes one call so many
//! times, and answers a number that depends on each of them, 0 where the device can't be opened or memory is wanting. A
//! datagram is BACnet/IP to one station, and its NPDU has neither DNET nor SNET.
#![tactic(auto)]

use calls::{Answering, Reading, decode, gather};
use std::alloc::Global;

/// Decodes a datagram with a confirmed request `times` times, down to the request. Its invoke ID is changed.
#[unsafe(no_mangle)]
pub extern "C" fn bench_calls_decode(alloc: Global, datagram: &mut [u8], times: u64) -> u64 {
    decode(alloc, datagram, times)
}

/// A device of `objects` Binary Values hears a datagram `times` times, each time under another invoke ID and `gap` ms
/// later, and answers: how many octets it says.
#[unsafe(no_mangle)]
pub extern "C" fn bench_calls_answer(
    alloc: Global,
    datagram: &[u8],
    objects: u16,
    gap: u64,
    times: u64,
) -> u64 {
    let Ok(mut answering) = Answering::new(alloc, objects, datagram, gap) else {
        return 0;
    };
    answering.go(times).unwrap_or(0)
}

/// Reads the present values of a table of `objects` Binary Values in turn, `times` times: how many values came.
#[unsafe(no_mangle)]
pub extern "C" fn bench_calls_read(alloc: Global, objects: u16, times: u64) -> u64 {
    let Ok(mut reading) = Reading::new(alloc, objects) else {
        return 0;
    };
    reading.go(times).unwrap_or(0)
}

/// A device hears the first `segments` of a request, each with these octets and more to follow: how many parcels it
/// says.
#[unsafe(no_mangle)]
pub extern "C" fn bench_calls_gather(alloc: Global, octets: &[u8], segments: u8) -> u64 {
    gather(alloc, segments, octets).unwrap_or(0)
}
