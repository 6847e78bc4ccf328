//! The segments of a request (5.4.5.1, 5.4.5.2).

ghost use Rattle.std.specs.Prelude.{◌≡◌, ◌+◌, ◌<◌, ◌≤◌, ◌^◌, Some, None, IfOk, OnOk, OnErr, IfSome, IfNone};
ghost use Rattle.std.specs.Prelude.{option_copied, vec_capacity, vec_len};
ghost use Rattle.server_answers.specs.Gathering.{gathered_with, gathering_of, receiver_of, still};
ghost use Rattle.segments.specs.Receiver.{granted_window, nothing_joined};
ghost use Rattle.server_tsm.specs.Hearing.{is_crowded};
ghost use Rattle.server_tsm.specs.Places.{IsPlaceOf};
ghost use Rattle.server_tsm.specs.Server.{still_gathered};
ghost use Rattle.tags.specs.Number.{bit};

use apdu::Segment;
use profile::MAX_GATHERINGS;
use segments::{Receiver, granted_window};
use server_answers::{Asked, Asker, RequestGathering};
use std::alloc::{AllocError, Allocator};

/// Keeps what is still gathered, but for what is of an excepted asker.
#[tactic(auto, using(crate::proofs::Places::place_rules))]
pub(crate) fn keep_gathered<A: Allocator>(
    gatherings: &mut Vec<RequestGathering<A>, A>,
    now: u64,
    except: Option<Asker>,
)
    ensures kept { gatherings.new.items ≡ still_gathered now except gatherings.old.items }
    ensures few { vec_len gatherings.new ≤ vec_len gatherings.old }
    ensures capacity { vec_capacity gatherings.new ≡ vec_capacity gatherings.old }
{
    let mut place = 0;
    while place < gatherings.len() {
        if gatherings[place].is_kept(now, except) {
            place += 1;
        } else {
            gatherings.remove(place);
        }
    }
}

/// One more where this one counts.
fn counted(counts: bool, count: usize) -> usize
    requires { count < 2 ^ 63 }
    ensures { result ≡ count + bit counts }
{
    count + usize::from(counts)
}

/// Whether no request more is gathered: so many are.
pub(crate) fn is_crowded<A: Allocator>(gatherings: &[RequestGathering<A>], now: u64) -> bool
    ensures { result ≡ is_crowded now gatherings.now }
{
    let mut living = 0;
    for gathering in gatherings {
        living = counted(gathering.gathers_still(now), living);
    }
    living >= MAX_GATHERINGS
}

/// This place, unless what came of the request is too old.
fn if_still<A: Allocator>(gathering: &RequestGathering<A>, place: usize, now: u64) -> Option<usize>
    ensures some { IfSome result (λ found. (found ≡ place) × (still now (Some gathering.now) ≡ Some gathering.now)) }
    ensures none { IfNone result (still now (Some gathering.now) ≡ None) }
{
    if gathering.gathers_still(now) {
        Some(place)
    } else {
        None
    }
}

/// The place of what came of a request of this asker, unless it is too old.
fn place_of<A: Allocator>(
    gatherings: &[RequestGathering<A>],
    now: u64,
    asker: Asker,
) -> Option<usize>
    ensures some { IfSome result (λ place. IsPlaceOf now asker gatherings.now place) }
    ensures none { IfNone result (gathering_of now asker gatherings.now ≡ None) }
{
    for place in 0..gatherings.len() {
        if gatherings[place].is_for(asker) {
            return if_still(&gatherings[place], place, now);
        }
    }
    None
}

/// Returns what came of a request of this asker, unless it is too old.
pub(crate) fn gathering_of<A: Allocator>(
    gatherings: &[RequestGathering<A>],
    now: u64,
    asker: Asker,
) -> Option<&RequestGathering<A>>
    ensures { option_copied result ≡ gathering_of now asker gatherings.now }
{
    match place_of(gatherings, now, asker) {
        Some(place) => gatherings.get(place),
        None => None,
    }
}

/// A request of which nothing came yet, once its first segment joined.
fn begun_with<A: Allocator + Copy>(
    alloc: A,
    asked: Asked,
    segment: &Segment,
    octets: &[u8],
    now: u64,
) -> Result<RequestGathering<A>, AllocError>
    ensures { IfOk result (λ gathering. gathering ≡
        gathered_with now asked segment.now octets.now
        (nothing_joined (granted_window segment.now.window))) }
{
    let mut gathering = RequestGathering {
        asked,
        receiver: Receiver::new(alloc, granted_window(segment.window)),
        at: now,
    };
    gathering.join(asked, segment, octets, now)?;
    Ok(gathering)
}

/// Takes what came of a request of this asker away, once a segment joined it.
#[tactic(auto, using(crate::proofs::Places::join_rules))]
fn take_at<A: Allocator + Copy>(
    gatherings: &mut Vec<RequestGathering<A>, A>,
    place: usize,
    asked: Asked,
    segment: &Segment,
    octets: &[u8],
    now: u64,
) -> Result<RequestGathering<A>, AllocError>
    requires { IsPlaceOf now asked.asker gatherings.old.items place }
    ensures joined { IfOk result (λ gathering. gathering ≡ gathered_with now asked segment.now octets.now
        (receiver_of (gathering_of now asked.asker gatherings.old.items) segment.now)) }
    ensures rest { OnOk result (still_gathered now (Some asked.asker) gatherings.new.items ≡
        still_gathered now (Some asked.asker) gatherings.old.items) }
    ensures few { vec_len gatherings.new ≤ vec_len gatherings.old }
    ensures capacity { vec_capacity gatherings.new ≡ vec_capacity gatherings.old }
    ensures unchanged { OnErr result (gatherings.new.items ≡ gatherings.old.items) }
{
    gatherings[place].join(asked, segment, octets, now)?;
    Ok(gatherings.remove(place))
}

/// Takes what came of a request of who asks so away, once a segment joined it: where nothing came, the segment alone.
pub(crate) fn take_joined<A: Allocator + Copy>(
    alloc: A,
    gatherings: &mut Vec<RequestGathering<A>, A>,
    asked: Asked,
    segment: &Segment,
    octets: &[u8],
    now: u64,
) -> Result<RequestGathering<A>, AllocError>
    ensures joined { IfOk result (λ gathering. gathering ≡ gathered_with now asked segment.now octets.now
        (receiver_of (gathering_of now asked.asker gatherings.old.items) segment.now)) }
    ensures rest { OnOk result (still_gathered now (Some asked.asker) gatherings.new.items ≡
        still_gathered now (Some asked.asker) gatherings.old.items) }
    ensures few { vec_len gatherings.new ≤ vec_len gatherings.old }
    ensures capacity { vec_capacity gatherings.new ≡ vec_capacity gatherings.old }
    ensures unchanged { OnErr result (gatherings.new.items ≡ gatherings.old.items) }
{
    match place_of(gatherings.as_slice(), now, asked.asker) {
        Some(place) => take_at(gatherings, place, asked, segment, octets, now),
        None => begun_with(alloc, asked, segment, octets, now),
    }
}

/// Equal ones, in memory of `alloc`.
pub(crate) fn copied<A: Allocator + Copy>(
    alloc: A,
    gatherings: &[RequestGathering<A>],
) -> Result<Vec<RequestGathering<A>, A>, AllocError>
    ensures { IfOk result (λ copies. copies.items ≡ gatherings.now) }
{
    let mut copies = Vec::new(alloc);
    for gathering in gatherings {
        copies.push(gathering.copy()?)?;
    }
    Ok(copies)
}
