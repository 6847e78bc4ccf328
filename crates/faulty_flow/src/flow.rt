//! A flow in which faults of the network act.

ghost use Rattle.std.specs.Prelude.{◌≡◌, ◌≤◌, ◌<◌, ◌⊎◌, None, IfErr, IfOk, OnErr, OnOk};
ghost use Rattle.faulty_flow.specs.Flows as spec;
ghost use Rattle.faulty_flow.specs.Flows.{Gives, IsAgain, IsAgainBeside, IsDelivery, IsDeliveryIfAny, IsLess, IsTurn};
ghost use Rattle.profile.specs.Times as times;
ghost use Rattle.simulator.specs.world.Step.{IsSoundEvent, IsSoundIfAny};
ghost use Rattle.simulator.specs.Flows.{IsOfFlow, ticks_of};

use crate::damage::damaged;
use bus_traffic::Telling;
use faults_in_force::{FaultsInForce, Turn};
use npdu::Station;
use simulator::{Event, Flow, World};
use site_views::at_address;
use std::alloc::{AllocError, Allocator};
use std::marker::Model;
use std::mem;
use tags::{Fault, Octets};
use traffic::Item;

/// How far so many milliseconds have gone, in which faults act.
#[derive(Drop)]
pub struct FaultyFlow<A: Allocator> {
    flow: Flow,
    /// Whose turn it is to be told, of the frames that were put out before this millisecond.
    told: Telling,
    /// What comes once more, where a delivery is repeated.
    again: Option<Event<A>>,
}

impl<A: Allocator> Model for FaultyFlow<A> {
    ghost use Rattle.faulty_flow.specs.Flows.{FlowState, IsAgain, state_of};

    ghost Value = { FlowState };

    ghost view = { λ f. state_of f.flow f.again };

    ghost invariant = { λ f. IsAgain f.again };
}

impl<A: Allocator + Copy> FaultyFlow<A> {
    /// So many milliseconds, 1 to 60000, in a world that has this history.
    ///
    /// # Errors
    /// `NoSuch` for any other number.
    pub fn new(n: u64, world: &World<A>, faults: &mut FaultsInForce<A>) -> Result<Self, Fault>
        ensures range { OnOk result ((1 ≤ n) × (n ≤ times.MAX_TICK_MS)) }
        ensures left { IfOk result (λ flow. flow.left ≡ n) }
        ensures cause { IfErr result (λ fault. fault ≡ Fault.NoSuch) }
        ensures outside { OnErr result ((n < 1) ⊎ (times.MAX_TICK_MS < n)) }
    {
        let flow = Flow::new(n)?;
        faults.begin(world.history());
        Ok(FaultyFlow {
            flow,
            told: nothing_told(),
            again: None,
        })
    }

    /// The next event, as faults have it, or none where all milliseconds have passed. It is made before the next one is
    /// asked for.
    ///
    /// # Errors
    /// `Memory` alone. No milliseconds have passed then.
    #[tactic(auto, using(crate::proofs::TurnLaws::turn_laws))]
    pub fn next_of(
        &mut self,
        world: &World<A>,
        faults: &mut FaultsInForce<A>,
    ) -> Result<Option<Event<A>>, Fault>
        ensures sound { IfOk result IsSoundIfAny }
        ensures gives { IfOk result (Gives self.old self.new) }
        ensures less { IfOk result (IsLess self.old self.new) }
        ensures cause { IfErr result (λ fault. fault ≡ Fault.Memory) }
        ensures unchanged { OnErr result (self.new.left ≡ self.old.left) }
    {
        match mem::replace(&mut self.again, None) {
            Some(event) => Ok(Some(event)),
            None => next_turn(
                &mut self.flow,
                &mut self.told,
                &mut self.again,
                world,
                faults,
            ),
        }
    }
}

/// That no frame was told yet in a millisecond.
fn nothing_told() -> Telling {
    Telling { frames: 0, ear: 0 }
}

/// The next event of a flow that faults leave.
#[tactic(auto, using(crate::proofs::TurnLaws::turn_laws))]
fn next_turn<A: Allocator + Copy>(
    flow: &mut Flow,
    told: &mut Telling,
    again: &mut Option<Event<A>>,
    world: &World<A>,
    faults: &mut FaultsInForce<A>,
) -> Result<Option<Event<A>>, Fault>
    requires once { again.old ≡ None }
    ensures sound { IfOk result IsSoundIfAny }
    ensures gives { IfOk result (Gives (spec.state_of flow.old again.old) (spec.state_of flow.new again.new)) }
    ensures less { IfOk result (IsLess (spec.state_of flow.old again.old) (spec.state_of flow.new again.new)) }
    ensures again { IsAgain again.new }
    ensures cause { IfErr result (λ fault. fault ≡ Fault.Memory) }
    ensures unchanged { OnErr result (flow.new.left ≡ flow.old.left) }
{
    while let Some(event) = world.next_of(flow)? {
        match turn_of(event, told, again, world, faults)? {
            Some(turn) => return Ok(Some(turn)),
            None => {}
        }
    }
    Ok(None)
}

/// What faults make of an event of a flow, and what comes once more behind it.
#[tactic(auto, using(crate::proofs::TurnLaws::turn_laws))]
fn turn_of<A: Allocator + Copy>(
    event: Event<A>,
    told: &mut Telling,
    again: &mut Option<Event<A>>,
    world: &World<A>,
    faults: &mut FaultsInForce<A>,
) -> Result<Option<Event<A>>, Fault>
    requires once { again.old ≡ None }
    requires sound { IsSoundEvent event }
    requires of_flow { IsOfFlow event }
    ensures turn { IfOk result (IsTurn event) }
    ensures again { IfOk result (IsAgainBeside again.new) }
    ensures cause { IfErr result (λ fault. fault ≡ Fault.Memory) }
    ensures no_time { OnErr result (ticks_of event ≡ 0) }
    ensures unchanged { OnErr result (again.new ≡ again.old) }
{
    if faults.are_none() {
        return Ok(Some(event));
    }
    match event {
        Event::Deliver(number) => turn_of_datagram(number, again, world, faults),
        Event::Hear {
            network,
            station,
            octets,
        } => turn_of_frame(network, station, octets, told, again, world, faults),
        Event::Tick(n) => {
            pass(n, told, world, faults);
            Ok(Some(Event::Tick(n)))
        }
        event => Ok(Some(event)),
    }
}

/// So many milliseconds pass.
fn pass<A: Allocator + Copy>(
    n: u64,
    told: &mut Telling,
    world: &World<A>,
    faults: &mut FaultsInForce<A>,
) {
    let now = world.moment().saturating_add(n);
    faults.pass(now, world.items().len() as u64, world.buses().frames);
    *told = nothing_told();
}

/// What faults make of the delivery of a datagram.
fn turn_of_datagram<A: Allocator + Copy>(
    number: u64,
    again: &mut Option<Event<A>>,
    world: &World<A>,
    faults: &mut FaultsInForce<A>,
) -> Result<Option<Event<A>>, Fault>
    requires once { again.old ≡ None }
    ensures turn { IfOk result IsDeliveryIfAny }
    ensures again { IfOk result (IsAgainBeside again.new) }
    ensures cause { IfErr result (λ fault. fault ≡ Fault.Memory) }
    ensures unchanged { OnErr result (again.new ≡ again.old) }
{
    let stations = world.site().stations();
    let Some(item) = world.items().get(number as usize) else {
        return Ok(Some(Event::Deliver(number)));
    };
    match faults.turn_of_datagram(number, item, stations, world.moment())? {
        Turn::Received => Ok(Some(Event::Deliver(number))),
        Turn::Missed => Ok(None),
        Turn::Twice => {
            *again = Some(Event::Deliver(number));
            Ok(Some(Event::Deliver(number)))
        }
        Turn::Damaged => damaged_datagram(number, item, again, world, faults),
    }
}

/// A datagram whose octets are heard damaged where no bus is, which is refused, and which then comes whole.
fn damaged_datagram<A: Allocator + Copy>(
    number: u64,
    item: &Item<A>,
    again: &mut Option<Event<A>>,
    world: &World<A>,
    faults: &FaultsInForce<A>,
) -> Result<Option<Event<A>>, Fault>
    requires once { again.old ≡ None }
    ensures turn { IfOk result IsDeliveryIfAny }
    ensures again { IfOk result (IsAgainBeside again.new) }
    ensures cause { IfErr result (λ fault. fault ≡ Fault.Memory) }
    ensures unchanged { OnErr result (again.new ≡ again.old) }
{
    let to = Station {
        net: item.net,
        mac: item.to,
    };
    let Some(station) = at_address(to, world.site().stations()) else {
        return Ok(Some(Event::Deliver(number)));
    };
    let alloc = faults.alloc();
    let event = Event::Hear {
        network: item.net,
        station: station.name.copy(alloc)?,
        octets: damaged(alloc, item.octets.as_slice())?,
    };
    *again = Some(Event::Deliver(number));
    Ok(Some(event))
}

/// What faults make of a frame at an ear.
fn turn_of_frame<A: Allocator + Copy>(
    network: u16,
    station: Octets<A>,
    octets: Octets<A>,
    told: &mut Telling,
    again: &mut Option<Event<A>>,
    world: &World<A>,
    faults: &mut FaultsInForce<A>,
) -> Result<Option<Event<A>>, Fault>
    requires once { again.old ≡ None }
    ensures turn { IfOk result IsDeliveryIfAny }
    ensures again { IfOk result (IsAgainBeside again.new) }
    ensures cause { IfErr result (λ fault. fault ≡ Fault.Memory) }
    ensures unchanged { OnErr result (again.new ≡ again.old) }
{
    match frame_turn(told, world, faults)? {
        Turn::Missed => Ok(None),
        Turn::Received => Ok(Some(hearing(network, station, octets))),
        Turn::Twice => {
            let alloc = faults.alloc();
            let (name, same) = (station.copy(alloc)?, octets.copy(alloc)?);
            *again = Some(hearing(network, name, same));
            Ok(Some(hearing(network, station, octets)))
        }
        Turn::Damaged => {
            let octets = damaged(faults.alloc(), octets.as_slice())?;
            Ok(Some(hearing(network, station, octets)))
        }
    }
}

/// A station hears octets on a bus.
fn hearing<A: Allocator>(network: u16, station: Octets<A>, octets: Octets<A>) -> Event<A>
    ensures { IsDelivery result }
{
    Event::Hear {
        network,
        station,
        octets,
    }
}

/// What becomes of the frame whose turn it is, and whose turn it is then.
fn frame_turn<A: Allocator + Copy>(
    told: &mut Telling,
    world: &World<A>,
    faults: &mut FaultsInForce<A>,
) -> Result<Turn, AllocError> {
    let now = world.moment();
    let Some(next) = world.buses().next_hear(*told, u64::MAX, now) else {
        return Ok(Turn::Received);
    };
    *told = Telling {
        frames: next.recent.sending.place.frames,
        ear: next.ear_place.saturating_add(1),
    };
    faults.turn_of_frame(&next, world.site().stations(), now)
}
