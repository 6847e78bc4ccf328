//! The faults that are in force, in the order in which they were asked for.

use crate::message_fault::{Deed, MessageFault};
use crate::outage::Outage;
use crate::set_aside::{Delivery, SetAside, is_same_frame};
use bus_traffic::NextTold;
use history::Entry;
use last_hop::{HeardPart, heard_in_datagram, heard_in_frame};
use network_faults::{FaultyMessage, NetworkFault, issue_number};
use npdu::Mac;
use site_parts::Station;
use site_views::at_address;
use std::alloc::{AllocError, Allocator};
use std::io;
use std::io::Write;
use tags::Octets;
use traffic::Item;

/// What becomes of a delivery at its turn.
#[derive(Clone, Copy, Debug, PartialEq, Eq)]
pub enum Turn {
    /// It is received.
    Received,
    /// It isn't: it is lost, or comes later.
    Missed,
    /// It is received twice.
    Twice,
    /// It is damaged.
    Damaged,
}

/// What a fault does.
#[derive(Clone, Copy)]
enum Effect {
    Message(MessageFault),
    Outage(Outage),
}

/// A fault that is in force.
#[derive(Drop)]
struct InForce<A: Allocator> {
    fault: NetworkFault<A>,
    /// The number of the script's line that asked for it.
    line: Option<u64>,
    effect: Effect,
    /// Whether it took anything.
    was_met: bool,
}

impl<A: Allocator> InForce<A> {
    /// Whether a delivery is lost by it since its station or its network receives nothing.
    fn cuts_off(&self, delivery: Delivery, to: npdu::Station, stations: &[Station<A>]) -> bool {
        match self.effect {
            Effect::Outage(outage) => {
                outage.takes(delivery) && is_there(&self.fault, to, stations)
            }
            Effect::Message(_) => false,
        }
    }

    /// What it does with a message between a client and the device of this instance, if it takes it.
    fn deed_of(&mut self, part: &HeardPart, instance: u32) -> Option<Deed> {
        match &mut self.effect {
            Effect::Message(message) => message.take(part, instance),
            Effect::Outage(_) => None,
        }
    }
}

/// The faults of the network that are in force, and the deliveries that had their turn by them.
#[derive(Drop)]
pub struct FaultsInForce<A: Allocator> {
    faults: Vec<InForce<A>, A>,
    set_aside: Vec<SetAside, A>,
}

impl<A: Allocator + Copy> FaultsInForce<A> {
    /// No fault.
    pub fn new(alloc: A) -> Self {
        FaultsInForce {
            faults: Vec::new(alloc),
            set_aside: Vec::new(alloc),
        }
    }

    /// The memory in which they are kept.
    pub fn alloc(&self) -> A {
        *self.faults.allocator()
    }

    /// Whether everything is received at its turn.
    pub fn are_none(&self) -> bool {
        self.faults.is_empty()
    }

    /// A fault is asked for by a line of a script at the moment `now`, in milliseconds, behind these entries of the
    /// history.
    ///
    /// # Errors
    /// Want of memory.
    pub fn put<Q, R>(
        &mut self,
        fault: NetworkFault<A>,
        line: Option<u64>,
        history: &[Entry<npdu::Station, Q, R>],
        now: u64,
    ) -> Result<(), AllocError> {
        let effect = effect_of(&fault, history, now);
        self.faults.push(InForce {
            fault,
            line,
            effect,
            was_met: false,
        })?;
        Ok(())
    }

    /// A flow begins: requests are looked for in the history.
    pub fn begin<Q, R>(&mut self, history: &[Entry<npdu::Station, Q, R>]) {
        for place in 0..self.faults.len() {
            if let Some(held) = self.faults.get_mut(place) {
                if let Effect::Message(message) = &mut held.effect {
                    message.find(history);
                }
            }
        }
    }

    /// The moment `now` has come, before which so many datagrams and frames were put out. What is too old to be heard
    /// is forgotten.
    pub fn pass(&mut self, now: u64, items: u64, frames: u64) {
        for place in 0..self.faults.len() {
            if let Some(held) = self.faults.get_mut(place) {
                if let Effect::Outage(outage) = &mut held.effect {
                    outage.pass(now, items, frames);
                }
            }
        }
        self.set_aside.retain(|aside| aside.may_come_up(now));
    }

    /// What becomes of the datagram of a number at its turn, at the moment `now`.
    ///
    /// # Errors
    /// Want of memory. All is then as it was.
    pub fn turn_of_datagram(
        &mut self,
        number: u64,
        item: &Item<A>,
        stations: &[Station<A>],
        now: u64,
    ) -> Result<Turn, AllocError> {
        self.set_aside.reserve(1)?;
        let delivery = Delivery::Datagram(number);
        let to = npdu::Station {
            net: item.net,
            mac: item.to,
        };
        if let Some(turn) = self.turn_before(delivery, to, stations, now) {
            return Ok(turn);
        }
        let part = heard_in_datagram(item.net, item.from, item.to, item.octets.as_slice());
        Ok(self.turn_of(delivery, part, stations, now))
    }

    /// What becomes of a frame at its turn at an ear, at the moment `now`.
    ///
    /// # Errors
    /// Want of memory. All is then as it was.
    pub fn turn_of_frame(
        &mut self,
        next: &NextTold<'_, A>,
        stations: &[Station<A>],
        now: u64,
    ) -> Result<Turn, AllocError> {
        self.set_aside.reserve(1)?;
        let number = next.recent.sending.place.frames;
        let address = next.ear.address;
        let delivery = Delivery::Frame { number, address };
        let to = npdu::Station {
            net: next.bus.net,
            mac: Mac::One(address),
        };
        let octets = next.recent.sending.octets.as_slice();
        let turn = match self.turn_before(delivery, to, stations, now) {
            Some(turn) => turn,
            None => {
                let part = heard_in_frame(next.bus.net, address, octets);
                self.turn_of(delivery, part, stations, now)
            }
        };
        match turn {
            Turn::Received | Turn::Twice => self.hand_mark_on(next, number, address, octets),
            Turn::Damaged => self.put_aside(delivery, now, None),
            Turn::Missed => {}
        }
        Ok(turn)
    }

    /// What becomes of a delivery that had its turn before, or to whom nothing comes.
    fn turn_before(
        &mut self,
        delivery: Delivery,
        to: npdu::Station,
        stations: &[Station<A>],
        now: u64,
    ) -> Option<Turn> {
        let aside = self.aside(delivery);
        if let Some(aside) = aside {
            if !aside.is_due(now) {
                return Some(Turn::Missed);
            }
        }
        if self.is_cut_off(delivery, to, stations) {
            if aside.is_none() {
                self.put_aside(delivery, now, None);
            }
            return Some(Turn::Missed);
        }
        let _ = aside?;
        self.set_aside.retain(|other| other.delivery != delivery);
        Some(Turn::Received)
    }

    /// What is known of a delivery that had its turn before.
    fn aside(&self, delivery: Delivery) -> Option<SetAside> {
        for aside in self.set_aside.as_slice() {
            if aside.delivery == delivery {
                return Some(*aside);
            }
        }
        None
    }

    /// Puts a delivery aside, up to a moment or for ever.
    fn put_aside(&mut self, delivery: Delivery, at: u64, due: Option<u64>) {
        let _ = self.set_aside.push(SetAside { delivery, at, due });
    }

    /// Whether a delivery is lost since its station or its network receives nothing.
    fn is_cut_off(
        &mut self,
        delivery: Delivery,
        to: npdu::Station,
        stations: &[Station<A>],
    ) -> bool {
        for place in 0..self.faults.len() {
            if let Some(held) = self.faults.get_mut(place) {
                if held.cuts_off(delivery, to, stations) {
                    held.was_met = true;
                    return true;
                }
            }
        }
        false
    }

    /// What becomes of a delivery that brings a message of a request, if it brings one.
    fn turn_of(
        &mut self,
        delivery: Delivery,
        part: Option<HeardPart>,
        stations: &[Station<A>],
        now: u64,
    ) -> Turn {
        let Some(part) = part else {
            return Turn::Received;
        };
        let Some(instance) = instance_at(part.invocation.device, stations) else {
            return Turn::Received;
        };
        match self.deed_of(&part, instance) {
            None => Turn::Received,
            Some(Deed::Repeat) => Turn::Twice,
            Some(Deed::Damage) => Turn::Damaged,
            Some(Deed::Lose) => {
                self.put_aside(delivery, now, None);
                Turn::Missed
            }
            Some(Deed::Delay(ms)) => {
                self.put_aside(delivery, now, Some(now.saturating_add(ms)));
                Turn::Missed
            }
        }
    }

    /// What the first fault does that takes a message.
    fn deed_of(&mut self, part: &HeardPart, instance: u32) -> Option<Deed> {
        for place in 0..self.faults.len() {
            if let Some(held) = self.faults.get_mut(place) {
                let deed = held.deed_of(part, instance);
                if deed.is_some() {
                    held.was_met = true;
                    return deed;
                }
            }
        }
        None
    }

    /// A frame is received at an ear. Of equal frames the world marks the oldest that waits there as delivered: where
    /// that one was set aside, this one waits in its place.
    fn hand_mark_on(&mut self, next: &NextTold<'_, A>, number: u64, address: u8, octets: &[u8]) {
        for place in 0..self.set_aside.len() {
            if let Some(aside) = self.set_aside.get_mut(place) {
                if let Some(older) = aside.frame_at(address) {
                    if older < number && is_same_frame(next.bus, older, octets) {
                        aside.delivery = Delivery::Frame { number, address };
                        return;
                    }
                }
            }
        }
    }

    /// Tells on `err`, each on a line, which faults took nothing.
    ///
    /// # Errors
    /// Those of writing.
    pub fn tell_unmet<E: Write>(&self, err: &mut E) -> io::Result<()> {
        for held in self.faults.as_slice() {
            if !held.was_met {
                let fault = &held.fault;
                let what = match held.effect {
                    Effect::Message(_) => "this message never came",
                    Effect::Outage(_) => "nothing came there",
                };
                match held.line {
                    Some(line) => writeln!(err, "bacsite: script line {line}: {fault}: {what}")?,
                    None => writeln!(err, "bacsite: {fault}: {what}")?,
                }
            }
        }
        Ok(())
    }
}

/// What a fault does that is asked for at the moment `now` behind these entries of the history.
fn effect_of<A: Allocator, Q, R>(
    fault: &NetworkFault<A>,
    history: &[Entry<npdu::Station, Q, R>],
    now: u64,
) -> Effect {
    match fault {
        NetworkFault::Lose { count, message } => of_message(Deed::Lose, *count, *message, history),
        NetworkFault::Repeat(message) => of_message(Deed::Repeat, 1, *message, history),
        NetworkFault::Delay { message, ms } => of_message(Deed::Delay(*ms), 1, *message, history),
        NetworkFault::Damage(message) => of_message(Deed::Damage, 1, *message, history),
        NetworkFault::LoseTo { ms, .. } | NetworkFault::LoseOn { ms, .. } => {
            Effect::Outage(Outage {
                until: now.saturating_add(*ms),
                items: 0,
                frames: 0,
            })
        }
    }
}

/// A fault of so many sendings of a message.
fn of_message<Q, R>(
    deed: Deed,
    left: u64,
    message: FaultyMessage,
    history: &[Entry<npdu::Station, Q, R>],
) -> Effect {
    let FaultyMessage { which, issue } = message;
    Effect::Message(MessageFault {
        deed,
        left,
        which,
        number: issue_number(issue, history),
        key: None,
        taken: None,
    })
}

/// Whether a delivery to a station is to the station or on the network that a fault names.
fn is_there<A: Allocator>(
    fault: &NetworkFault<A>,
    to: npdu::Station,
    stations: &[Station<A>],
) -> bool {
    match fault {
        NetworkFault::LoseOn { network, .. } => *network == to.net,
        NetworkFault::LoseTo { station, .. } => is_named(station, to, stations),
        NetworkFault::Lose { .. }
        | NetworkFault::Repeat(_)
        | NetworkFault::Delay { .. }
        | NetworkFault::Damage(_) => false,
    }
}

/// Whether the station at an address has a name.
fn is_named<A: Allocator>(
    name: &Octets<A>,
    address: npdu::Station,
    stations: &[Station<A>],
) -> bool {
    match at_address(address, stations) {
        Some(station) => station.name.as_slice() == name.as_slice(),
        None => false,
    }
}

/// The instance of the device at an address, if one is there (12.11).
fn instance_at<A: Allocator>(address: npdu::Station, stations: &[Station<A>]) -> Option<u32> {
    let station = at_address(address, stations)?;
    let objects = station.role.objects()?;
    Some(objects.instance)
}
