//! How long a request may be, and how it is cut (5.2.1, 5.4.4.1).

ghost use Rattle.std.specs.Prelude.{◌≡◌, ◌≤◌, length};
ghost use Rattle.bindings.specs.Limits.{apdu_limit, begun, goes_whole, is_too_long};

use crate::accepts::Accepts;
use crate::bound::Bound;
use profile::{MAX_SEGMENTS_ACCEPTED, MAX_SERVICE_DATA_OCTETS};
use segments::{Sender, piece_count};
use std::cmp::{max, min};

/// How many octets the header of a request has (20.1.2).
const REQUEST_HEADER: usize = 4;

/// How many octets the header of a segment of a request has (20.1.2).
const SEGMENT_HEADER: usize = 6;

/// How many octets of an APDU each station takes (20.1.2.5).
const LEAST_MAX_APDU: u16 = 50;

/// How many octets an APDU has at most: what both sides take, and 50 that each station takes.
pub fn apdu_limit(accepts: Accepts, to: &Bound) -> u16
    ensures limit { result ≡ apdu_limit accepts to.now }
    ensures least { 50 ≤ result }
{
    max(LEAST_MAX_APDU, min(accepts.max_apdu.octets(), to.max_apdu))
}

/// Whether a request of so many octets goes whole.
fn goes_whole(max_apdu: u16, length: usize) -> bool
    requires { 50 ≤ max_apdu }
    ensures { result ≡ goes_whole max_apdu length }
{
    length <= max_apdu as usize - REQUEST_HEADER
}

/// Whether a request of so many octets can't be said: it has too many octets, too many segments, or has segments
/// where the client has none.
pub fn is_too_long(segmented: bool, max_apdu: u16, length: usize) -> bool
    requires { 50 ≤ max_apdu }
    ensures { result ≡ is_too_long segmented max_apdu length }
{
    length > MAX_SERVICE_DATA_OCTETS
        || piece_count(max_apdu as usize - SEGMENT_HEADER, length) > MAX_SEGMENTS_ACCEPTED as usize
        || !segmented && !goes_whole(max_apdu, length)
}

/// What goes on sending a request that is said from its beginning at the moment `now`, in milliseconds: nothing
/// where it goes whole.
pub fn begun(now: u64, max_apdu: u16, body: &[u8]) -> Option<Sender>
    requires { 50 ≤ max_apdu }
    ensures { result ≡ begun now max_apdu (length body.now) }
{
    if goes_whole(max_apdu, body.len()) {
        return None;
    }
    let mut sender = Sender::new(body, max_apdu as usize - SEGMENT_HEADER);
    sender.on_tick(now);
    Some(sender)
}
