//! How long an answer may be, and how it is cut (5.2.1, 5.4.5.3).

ghost use Rattle.std.specs.Prelude.{◌≡◌, ◌≤◌, length};
ghost use Rattle.server_answers.specs.Limits.{answer_chunk, begins_if, begun, fitted, fitted_if};
ghost use Rattle.server_answers.specs.Limits.{goes_whole, is_too_long};

use crate::asked::AnswerLimits;
use apdu::{AbortReason, MaxApdu};
use profile::MAX_SERVICE_DATA_OCTETS;
use remembered::RememberedAnswer;
use segments::{Sender, piece_count};
use std::alloc::Allocator;
use std::cmp::{max, min};

/// How many octets the header of a segment of an answer has (20.1.5).
const SEGMENT_HEADER: u16 = 5;

/// How many octets fewer the header of a whole answer has (20.1.5).
const SHORTER_HEADER: usize = 2;

/// How many octets of an answer go in a segment, where the device's link has APDUs of at most this size.
pub fn answer_chunk(own: MaxApdu, limits: &AnswerLimits) -> usize
    ensures chunk { result ≡ answer_chunk own limits.now }
    ensures range { (45 ≤ result) × (result ≤ 1471) }
{
    (min(own.octets(), limits.max_apdu.octets()) - SEGMENT_HEADER) as usize
}

/// Whether so many octets of service data go whole, where a segment has room for `chunk`.
fn goes_whole(chunk: usize, length: usize) -> bool
    ensures { result ≡ goes_whole chunk length }
{
    length.saturating_sub(SHORTER_HEADER) <= chunk
}

/// Whether so many octets are too long for segments of `chunk` octets, one at least.
fn is_too_long(limits: &AnswerLimits, chunk: usize, length: usize) -> bool
    requires { 1 ≤ chunk }
    ensures { result ≡ is_too_long limits.now chunk length }
{
    length > MAX_SERVICE_DATA_OCTETS
        || piece_count(chunk, length) > limits.max_segments.segments() as usize
}

/// An answer as it is said to a client with these limits, in segments of `chunk` octets, one at least.
pub fn fitted<A: Allocator>(
    limits: &AnswerLimits,
    chunk: usize,
    answer: RememberedAnswer<A>,
) -> RememberedAnswer<A>
    requires { 1 ≤ chunk }
    ensures { result ≡ fitted limits.now chunk answer }
{
    let length = match &answer {
        RememberedAnswer::Complex(octets) => octets.len(),
        _ => return answer,
    };
    if goes_whole(chunk, length) {
        return answer;
    }
    if !limits.segmented {
        return RememberedAnswer::Abort(AbortReason::SegmentationNotSupported);
    }
    if is_too_long(limits, chunk, length) {
        return RememberedAnswer::Abort(AbortReason::BufferOverflow);
    }
    answer
}

/// What goes on sending an answer that is said from its beginning at the moment `now`, in milliseconds: nothing
/// where it goes whole.
pub fn begun<A: Allocator>(now: u64, chunk: usize, answer: &RememberedAnswer<A>) -> Option<Sender>
    ensures { result ≡ begun now chunk answer.now }
{
    let RememberedAnswer::Complex(octets) = answer else {
        return None;
    };
    if goes_whole(chunk, octets.len()) {
        return None;
    }
    let mut sender = Sender::new(octets.as_slice(), max(1, chunk));
    sender.on_tick(now);
    Some(sender)
}
