//! The events of a site that nothing disturbs: time passes by milliseconds, what was put out is delivered, and each
//! station wakes.

ghost use Rattle.std.specs.Prelude.{◌≡◌, ◌≤◌, ◌<◌, ◌⊎◌, ◌+◌, ◌-◌, ◌*◌, ◌^◌, Some, IfOk, IfErr, OnOk, OnErr, slice_get};
ghost use Rattle.bus_traffic.specs.Telling.{IsBehind};
ghost use Rattle.bus_traffic.specs.declared.telling.Telling.{Telling};
ghost use Rattle.profile.specs.Times as times;
ghost use Rattle.simulator.specs.Flows.{Gives, IsLess, TakesNoTime, left_in, left_of};
ghost use Rattle.simulator.specs.declared.flow.Part.TheVariants.{Delivers};
ghost use Rattle.world.specs.Step.{IsSoundIfAny};

use bus_traffic::{NextTold, Sending, Telling};
use npdu::{Mac, Station};
use profile::MAX_TICK_MS;
use std::alloc::{AllocError, Allocator};
use tags::{Fault, Octets};
use world::{Event, Internetwork, at_address};

/// What comes next in a millisecond.
#[derive(Clone, Copy, Debug, PartialEq, Eq)]
pub enum Part {
    /// The next millisecond.
    Ticks,
    /// The items from one number on and before another, and the frames from whose turn it is on and before another.
    Delivers {
        from: usize,
        before: usize,
        told: Telling,
        frames: u64,
    },
    /// The stations from one place on and before another.
    Wakes {
        from: usize,
        before: usize,
    },
}

/// How far so many milliseconds have gone. In each of them time passes; each item and each frame that was put out
/// before, wasn't delivered and may still be heard is delivered, in the order in which they were put out, a frame at
/// each other station of its bus; and each station wakes, in the order of the site.
#[derive(Clone, Copy, Debug, PartialEq, Eq)]
pub struct Flow {
    pub(crate) left: u64,
    pub(crate) part: Part,
    /// No item before this one waits any more: each was delivered or is too old.
    pub(crate) first_item: usize,
    /// No frame whose turn comes before this does.
    pub(crate) first_told: Telling,
}

impl Flow {
    /// So many milliseconds, 1 to 60000.
    ///
    /// # Errors
    /// `NoSuch` for any other number.
    pub fn new(n: u64) -> Result<Self, Fault>
        ensures range { OnOk result ((1 ≤ n) × (n ≤ times.MAX_TICK_MS)) }
        ensures left { IfOk result (λ flow. flow.left ≡ n) }
        ensures cause { IfErr result (λ fault. fault ≡ Fault.NoSuch) }
        ensures outside { OnErr result ((n < 1) ⊎ (times.MAX_TICK_MS < n)) }
    {
        if n < 1 || n > MAX_TICK_MS {
            return Err(Fault::NoSuch);
        }
        Ok(Flow {
            left: n,
            part: Part::Ticks,
            first_item: 0,
            first_told: Telling { frames: 0, ear: 0 },
        })
    }
}

/// Whether a frame was put out before an item, if there is one.
fn is_first<A: Allocator>(sending: &Sending<A>, item: Option<usize>) -> bool {
    match item {
        Some(number) => sending.place.items <= number as u64,
        None => true,
    }
}

/// Whose turn it is to be told first, of the frames that were put out so far: there is no need to look at one before.
fn first_told<A: Allocator + Copy>(net: &Internetwork<A>, from: Telling) -> Telling {
    let frames = net.buses().frames;
    match net.buses().next_hear(from, frames, net.moment()) {
        Some(next) => Telling {
            frames: next.recent.sending.place.frames,
            ear: next.ear_place,
        },
        None => Telling { frames, ear: 0 },
    }
}

/// The next millisecond, if one is left.
fn next_tick<A: Allocator + Copy>(net: &Internetwork<A>, flow: &mut Flow) -> Option<Event<A>>
    ensures sound { IsSoundIfAny result }
    ensures gives { Gives flow.old flow.new result }
    ensures less { IsLess (flow.old.left * 2 ^ 130) flow.new result }
{
    if flow.left == 0 {
        return None;
    }
    let before = net.item_count();
    let from = match net.next_waiting(flow.first_item, before) {
        Some(number) => number,
        None => before,
    };
    let told = first_told(net, flow.first_told);
    flow.left -= 1;
    flow.first_item = from;
    flow.first_told = told;
    flow.part = Part::Delivers {
        from,
        before,
        told,
        frames: net.buses().frames,
    };
    Some(Event::Tick(1))
}

/// The wake of the station at a place before another, or the next millisecond where there is none.
fn next_wake<A: Allocator + Copy>(
    net: &Internetwork<A>,
    from: usize,
    before: usize,
    flow: &mut Flow,
) -> Result<Option<Event<A>>, Fault>
    ensures sound { IfOk result IsSoundIfAny }
    ensures gives { IfOk result (Gives flow.old flow.new) }
    ensures less { IfOk result (IsLess (flow.old.left * 2 ^ 130 + (before - from)) flow.new) }
    ensures most { IfOk result (IsLess (flow.old.left * 2 ^ 130 + 2 ^ 64) flow.new) }
    ensures cause { IfErr result (λ fault. fault ≡ Fault.Memory) }
    ensures unchanged { OnErr result (flow.new ≡ flow.old) }
{
    if from >= before {
        return Ok(next_tick(net, flow));
    }
    let Some(station) = net.site().stations().get(from) else {
        return Ok(next_tick(net, flow));
    };
    let name = station.name.copy(net.alloc())?;
    flow.part = Part::Wakes {
        from: from + 1,
        before,
    };
    Ok(Some(Event::Wake(name)))
}

/// What the station at an address of a network hears where it hears a frame, if there is such a station.
fn hear_event<A: Allocator + Copy>(
    net: &Internetwork<A>,
    network: u16,
    address: u8,
    octets: &Octets<A>,
) -> Result<Option<Event<A>>, AllocError>
    ensures sound { IfOk result IsSoundIfAny }
    ensures no_time { IfOk result TakesNoTime }
{
    let mac = Mac::One(address);
    let Some(station) = at_address(Station { net: network, mac }, net.site().stations()) else {
        return Ok(None);
    };
    Ok(Some(Event::Hear {
        network,
        station: station.name.copy(net.alloc())?,
        octets: octets.copy(net.alloc())?,
    }))
}

/// The delivery of a frame at an ear, and whose turn it is then.
#[tactic(auto, using(crate::proofs::FlowLaws::flow_rules))]
fn next_frame<A: Allocator + Copy>(
    net: &Internetwork<A>,
    from: usize,
    before: usize,
    next: NextTold<'_, A>,
    frames: u64,
    flow: &mut Flow,
) -> Result<Option<Event<A>>, Fault>
    requires there { slice_get next.bus.now.ears.items next.ear_place ≡ Some next.ear.now }
    requires ahead { next.recent.now.sending.place.frames < frames }
    ensures sound { IfOk result IsSoundIfAny }
    ensures gives { IfOk result (Gives flow.old flow.new) }
    ensures less { (told : Telling) → IsBehind told next.entry.recent.now.sending.place.frames next.entry.ear_place →
        IfOk result (IsLess (flow.old.left * 2 ^ 130 + left_in (Delivers from before told frames)) flow.new) }
    ensures cause { IfErr result (λ fault. fault ≡ Fault.Memory) }
    ensures unchanged { OnErr result (flow.new ≡ flow.old) }
{
    let sending = &next.recent.sending;
    let Some(event) = hear_event(net, next.bus.net, next.ear.address, &sending.octets)? else {
        return next_wake(net, 0, net.site().stations().len(), flow);
    };
    let told = Telling {
        frames: sending.place.frames,
        ear: next.ear_place + 1,
    };
    flow.part = Part::Delivers {
        from,
        before,
        told,
        frames,
    };
    Ok(Some(event))
}

/// The delivery of the next item or frame, or the wake of the first station where there is none.
#[tactic(auto, using(crate::proofs::FlowLaws::flow_rules))]
fn next_delivery<A: Allocator + Copy>(
    net: &Internetwork<A>,
    from: usize,
    before: usize,
    told: Telling,
    frames: u64,
    flow: &mut Flow,
) -> Result<Option<Event<A>>, Fault>
    ensures sound { IfOk result IsSoundIfAny }
    ensures gives { IfOk result (Gives flow.old flow.new) }
    ensures less { IfOk result
        (IsLess (flow.old.left * 2 ^ 130 + left_in (Delivers from before told frames)) flow.new) }
    ensures cause { IfErr result (λ fault. fault ≡ Fault.Memory) }
    ensures unchanged { OnErr result (flow.new ≡ flow.old) }
{
    let now = net.moment();
    let item = net.next_waiting(from, before);
    if let Some(next) = net.buses().next_hear(told, frames, now) {
        if is_first(&next.recent.sending, item) {
            return next_frame(net, from, before, next, frames, flow);
        }
    }
    let Some(number) = item else {
        return next_wake(net, 0, net.site().stations().len(), flow);
    };
    flow.part = Part::Delivers {
        from: number + 1,
        before,
        told,
        frames,
    };
    Ok(Some(Event::Deliver(number as u64)))
}

/// The next event of a flow, or none where it is over.
pub(crate) fn next_of<A: Allocator + Copy>(
    net: &Internetwork<A>,
    flow: &mut Flow,
) -> Result<Option<Event<A>>, Fault>
    ensures sound { IfOk result IsSoundIfAny }
    ensures gives { IfOk result (Gives flow.old flow.new) }
    ensures less { IfOk result (IsLess (left_of flow.old) flow.new) }
    ensures cause { IfErr result (λ fault. fault ≡ Fault.Memory) }
    ensures unchanged { OnErr result (flow.new ≡ flow.old) }
{
    match flow.part {
        Part::Ticks => Ok(next_tick(net, flow)),
        Part::Delivers {
            from,
            before,
            told,
            frames,
        } => next_delivery(net, from, before, told, frames, flow),
        Part::Wakes { from, before } => next_wake(net, from, before, flow),
    }
}
