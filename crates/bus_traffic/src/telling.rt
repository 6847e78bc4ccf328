//! Which frame an ear is told next.

ghost use Rattle.std.specs.Prelude.{◌≡◌, ◌≤◌, ◌<◌, ◌∷◌, [], Some, None, true, IfSome, IfNone, length, slice_get};
ghost use Rattle.std.specs.List.{AllWithin};
ghost use Rattle.bus_traffic.specs.Sendings as spec;
ghost use Rattle.bus_traffic.specs.Telling.{BeginsAt, HasNoTurn, IsDue, IsDueNowhere, IsEarlier, IsFirstEar, IsNext};
ghost use Rattle.bus_traffic.specs.Telling.{IsFromTurn, NoneBetween, NoneWaits};

use crate::bus::{Bus, waits_at};
use crate::ear::Ear;
use crate::sending::{Recent, RecentBox};
use std::alloc::Allocator;

/// Whose turn it is to be told: the frame before which so many were put out on all buses, and the ear at a place.
#[derive(Clone, Copy, Debug, PartialEq, Eq)]
pub struct Telling {
    pub frames: u64,
    pub ear: usize,
}

/// A frame that an ear is told next.
#[derive(Drop)]
pub struct NextTold<'b, A: Allocator> {
    pub bus: &'b Bus<A>,
    pub recent: &'b Recent<A>,
    /// The place of the ear among those of the bus.
    pub ear_place: usize,
    pub ear: &'b Ear,
}

/// The first ear from a place on at which a frame waits to be delivered.
#[tactic(auto, using(crate::proofs::TellingLaws::ear_rules))]
fn next_ear<'b, A: Allocator>(
    ears: &'b [Ear],
    recent: &Recent<A>,
    from: usize,
    now: u64,
) -> Option<(usize, &'b Ear)>
    ensures there { IfSome result (λ p. slice_get ears.entry.now p.0 ≡ Some p.1.now) }
    ensures waits { IfSome result (λ p. spec.waits_at now p.1.now.address recent.now ≡ true) }
    ensures behind { IfSome result (λ p. from ≤ p.0) }
    ensures first { IfSome result (λ p. NoneBetween now ears.entry.now recent.now from p.0) }
    ensures none { IfNone result (NoneBetween now ears.entry.now recent.now from (length ears.entry.now)) }
{
    let mut place = from;
    while place < ears.len() {
        let ear = &ears[place];
        if waits_at(recent, ear.address, now) {
            return Some((place, ear));
        }
        place += 1;
    }
    None
}

/// The ear from which on a frame is told, where this is whose turn it is.
fn first_ear(from: Telling, frame: u64) -> Option<usize>
    ensures some { IfSome result (λ first. BeginsAt from frame first) }
    ensures none { IfNone result (HasNoTurn from frame) }
{
    if from.frames < frame {
        Some(0)
    } else if from.frames == frame {
        Some(from.ear)
    } else {
        None
    }
}

/// The first ear at which a frame is due, from whose turn it is on, where the frame was put out before another.
#[tactic(auto, using(crate::proofs::TellingLaws::turn_rules))]
fn due_at<'b, A: Allocator>(
    ears: &'b [Ear],
    recent: &Recent<A>,
    from: Telling,
    before: u64,
    now: u64,
) -> Option<(usize, &'b Ear)>
    ensures due { IfSome result (λ p. IsDue now from before ears.entry.now recent.now p.0 p.1.now) }
    ensures first { IfSome result (λ p. IsFirstEar now from before ears.entry.now recent.now p.0) }
    ensures none { IfNone result (IsDueNowhere now from before ears.entry.now recent.now) }
{
    let frame = recent.sending.place.frames;
    if frame >= before {
        return None;
    }
    let Some(first) = first_ear(from, frame) else {
        return None;
    };
    next_ear(ears, recent, first, now)
}

/// How many frames were put out before so many, of some that stand in the order of their places. It is found by halves.
fn count_before<A: Allocator>(recent: &[RecentBox<A>], frames: u64) -> usize
    requires { spec.AreInTurn recent.now }
    ensures within { result ≤ length recent.now }
    ensures before { AllWithin (λ r. spec.turn_of r < frames) recent.now 0 result }
{
    recent.partition_point(|held| held.recent().sending.place.frames < frames)
}

/// The frames of a bus, without those in front that were put out before so many.
fn from_turn<A: Allocator>(bus: &Bus<A>, frames: u64) -> &[RecentBox<A>]
    ensures { IsFromTurn frames bus.now.recent.items result.now }
{
    let recent = bus.recent.as_slice();
    let first = if bus.is_in_turn {
        count_before(recent, frames)
    } else {
        0
    };
    &recent[first..]
}

/// The first frame of a bus, before another, that is due at one of its ears, from whose turn it is on.
fn next_on<A: Allocator>(
    bus: &Bus<A>,
    from: Telling,
    before: u64,
    now: u64,
) -> Option<NextTold<'_, A>>
    ensures next { IfSome result (λ next.
        IsNext now from before (bus.now ∷ []) next.bus.now next.recent.now next.ear_place next.ear.now) }
    ensures none { IfNone result (NoneWaits now from before (bus.now ∷ [])) }
{
    for held in from_turn(bus, from.frames) {
        let recent = held.recent();
        if let Some((ear_place, ear)) = due_at(&bus.ears, recent, from, before, now) {
            return Some(NextTold {
                bus,
                recent,
                ear_place,
                ear,
            });
        }
    }
    None
}

/// The first of two in the order in which they were put out.
fn earlier<'b, A: Allocator>(
    one: Option<NextTold<'b, A>>,
    other: Option<NextTold<'b, A>>,
) -> Option<NextTold<'b, A>>
    ensures { IsEarlier one.entry other.entry result }
{
    match (&one, &other) {
        (Some(a), Some(b)) if b.recent.sending.place.frames < a.recent.sending.place.frames =>
            other,
        (None, _) => other,
        _ => one,
    }
}

/// The frame that an ear is told next at the moment `now`, in milliseconds: the first, from whose turn it is on and
/// before the frame of a number, that may still be heard and wasn't delivered yet at an ear of its bus, beside its
/// sender's, and the first such ear.
pub fn next_hear<A: Allocator>(
    buses: &[Bus<A>],
    from: Telling,
    before: u64,
    now: u64,
) -> Option<NextTold<'_, A>>
    ensures next { IfSome result (λ next.
        IsNext now from before buses.now next.bus.now next.recent.now next.ear_place next.ear.now) }
    ensures none { IfNone result (NoneWaits now from before buses.now) }
{
    let mut next = None;
    for bus in buses {
        next = earlier(next, next_on(bus, from, before, now));
    }
    next
}
