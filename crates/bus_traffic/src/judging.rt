//! How a frame is judged that is heard on a bus.

ghost use Rattle.std.specs.Prelude.{◌≡◌, Some, None, bytes_eq};
ghost use Rattle.bus_traffic.specs.Sendings.{judged_by, known_of};

use crate::sending::Known;
use profile::is_heard_in_time;
use std::alloc::Allocator;
use tags::{Fault, Octets};

/// Whether a frame has just these octets.
pub(crate) fn is_frame<A: Allocator>(frame: &Octets<A>, octets: &[u8]) -> bool
    ensures { result ≡ bytes_eq frame.now octets.now }
{
    frame.as_slice() == octets
}

/// The youngest stamp that is known of frames of these octets.
pub(crate) fn stamp_of<A: Allocator>(known: &[Known<A>], octets: &[u8]) -> Option<u64>
    ensures { result ≡ known_of octets.now known.now }
{
    let mut left = known;
    while let [first, rest @ ..] = left {
        if is_frame(&first.octets, octets) {
            return Some(first.stamp);
        }
        left = rest;
    }
    None
}

/// Judges a frame of these octets that is heard at the moment `now`, in milliseconds: it has the youngest stamp with
/// which it was put out.
///
/// # Errors
/// `Forged` where nobody put it out; `Expired` where each time it was put out with a stamp more than 1000 ms old.
pub(crate) fn judge<A: Allocator>(known: &[Known<A>], octets: &[u8], now: u64) -> Result<u64, Fault>
    ensures { result ≡ judged_by now (known_of octets.now known.now) }
{
    match stamp_of(known, octets) {
        None => Err(Fault::Forged),
        Some(stamp) if is_heard_in_time(stamp, now) => Ok(stamp),
        Some(_) => Err(Fault::Expired),
    }
}
