//! A port of either kind as a link.

ghost use Rattle.std.specs.Prelude.{◌≡◌};
ghost use Rattle.link_site.specs.Port as spec;
ghost use Rattle.link_site.specs.Port.{AsIp};

use crate::port::SitePort;
use link::{Change, Link, PortSent, Up};
use link_bus::BusPort;
use link_ip::IpPort;
use npdu::{Mac, Parcel, Station};
use std::alloc::{AllocError, Allocator};
use std::mem;
use tags::{Fault, Items};

impl<A: Allocator + Copy> Link<A> for SitePort<A> {
    ghost use Rattle.std.specs.Prelude.{◌≡◌};
    ghost use Rattle.link_site.specs.CarryLaws as laws;
    ghost use Rattle.link_site.specs.Port.{at_moment, changed, moment_of, restarted, station_of, waiting_in};
    ghost use Rattle.link_site.specs.Steps as steps;
    ghost use Rattle.link_site.specs.Steps.{Counts, Downs, Hears, IsRefused, Registers, Wakes};
    ghost use Rattle.link_site.specs.Things.{Carries};

    ghost station = { station_of };

    ghost moment = { moment_of };

    ghost waiting = { waiting_in };

    ghost carries = { Carries };

    ghost refuses = { IsRefused };

    ghost downs = { Downs };

    ghost hears = { Hears };

    ghost wakes = { Wakes };

    ghost counts = { Counts };

    ghost registers = { Registers };

    ghost restarts = { restarted };

    ghost is_due = { steps.is_due };

    ghost at = { at_moment };

    ghost changed = { changed };

    ghost one_parcel = { laws.one_parcel };

    ghost keeps_stamp = { laws.keeps_stamp };

    ghost carries_down = { laws.carries_down };

    ghost carries_up = { laws.carries_up };

    ghost carries_on = { laws.carries_on };

    ghost carries_counting = { laws.carries_counting };

    ghost carries_registering = { laws.carries_registering };

    ghost forgets = { laws.forgets };

    ghost idles = { laws.idles };

    ghost stands = { laws.stands };

    ghost stays = { laws.stays };

    fn station(&self) -> Station {
        match self {
            SitePort::Ip(port) => IpPort::station(port),
            SitePort::Bus(port) => BusPort::station(port),
        }
    }

    fn moment(&self) -> u64 {
        match self {
            SitePort::Ip(port) => IpPort::moment(port),
            SitePort::Bus(port) => BusPort::moment(port),
        }
    }

    fn copy(&self) -> Result<Self, AllocError> {
        match self {
            SitePort::Ip(port) => Ok(SitePort::Ip(IpPort::copy(port)?)),
            SitePort::Bus(port) => Ok(SitePort::Bus(BusPort::copy(port)?)),
        }
    }

    #[tactic(auto, using(crate::proofs::Changes::change_rules))]
    fn down(
        &self,
        change: &mut Change<Self>,
        parcel: &Parcel<A>,
        port: usize,
        now: u64,
        out: &mut Items<PortSent<A>, A>,
    ) -> Result<(), Fault> {
        match self {
            SitePort::Ip(own) => {
                let mut part = ip_part(change);
                let done = own.down(&mut part, parcel, port, now, out);
                put_ip(change, &part);
                done
            }
            SitePort::Bus(own) => {
                let mut part = bus_part(change);
                let done = own.down(&mut part, parcel, port, now, out);
                *change = of_bus(part);
                done
            }
        }
    }

    #[tactic(auto, using(crate::proofs::Changes::change_rules))]
    fn heard<'o>(
        &self,
        change: &mut Change<Self>,
        from: Mac,
        octets: &'o [u8],
        stamp: u64,
        port: usize,
        now: u64,
        out: &mut Items<PortSent<A>, A>,
    ) -> Result<Option<Up<'o>>, Fault> {
        match self {
            SitePort::Ip(own) => {
                let mut part = ip_part(change);
                let done = own.heard(&mut part, from, octets, stamp, port, now, out);
                put_ip(change, &part);
                done
            }
            SitePort::Bus(own) => {
                let mut part = bus_part(change);
                let done = own.heard(&mut part, from, octets, stamp, port, now, out);
                *change = of_bus(part);
                done
            }
        }
    }

    #[tactic(auto, using(crate::proofs::Changes::change_rules))]
    fn on_tick(
        &self,
        change: &mut Change<Self>,
        port: usize,
        now: u64,
        out: &mut Items<PortSent<A>, A>,
    ) -> Result<(), Fault> {
        match self {
            SitePort::Ip(own) => {
                let mut part = ip_part(change);
                let done = own.on_tick(&mut part, port, now, out);
                put_ip(change, &part);
                done
            }
            SitePort::Bus(own) => {
                let mut part = bus_part(change);
                let done = own.on_tick(&mut part, port, now, out);
                *change = of_bus(part);
                done
            }
        }
    }

    fn is_due(&self, now: u64) -> bool {
        match self {
            SitePort::Ip(_) => false,
            SitePort::Bus(port) => BusPort::is_due(port, now),
        }
    }

    #[tactic(auto, using(crate::proofs::Changes::change_rules))]
    fn on_octets(&self, change: &mut Change<Self>, count: usize, now: u64) -> Result<(), Fault> {
        match self {
            SitePort::Ip(own) => {
                let mut part = ip_part(change);
                let done = own.on_octets(&mut part, count, now);
                put_ip(change, &part);
                done
            }
            SitePort::Bus(own) => {
                let mut part = bus_part(change);
                let done = own.on_octets(&mut part, count, now);
                *change = of_bus(part);
                done
            }
        }
    }

    #[tactic(auto, using(crate::proofs::Changes::change_rules))]
    fn register(
        &self,
        change: &mut Change<Self>,
        port: usize,
        now: u64,
        out: &mut Items<PortSent<A>, A>,
    ) -> Result<(), Fault> {
        match self {
            SitePort::Ip(own) => {
                let mut part = ip_part(change);
                let done = own.register(&mut part, port, now, out);
                put_ip(change, &part);
                done
            }
            SitePort::Bus(own) => {
                let mut part = bus_part(change);
                let done = own.register(&mut part, port, now, out);
                *change = of_bus(part);
                done
            }
        }
    }

    fn settle(&mut self, change: Change<Self>, now: u64)
        ensures { self.new ≡ changed now self.old change }
    {
        let mut change = change;
        match self {
            SitePort::Ip(port) => port.settle(ip_part(&change), now),
            SitePort::Bus(port) => port.settle(bus_part(&mut change), now),
        }
    }

    fn restart(&mut self, now: u64) {
        match self {
            SitePort::Ip(port) => port.restart(now),
            SitePort::Bus(port) => port.restart(now),
        }
    }
}

/// What an event so far changes of a port of BACnet/IP.
fn ip_part<A: Allocator>(change: &Change<SitePort<A>>) -> Change<IpPort<A>>
    ensures { result ≡ spec.ip_part change.now }
{
    match change {
        Change::Nothing => Change::Nothing,
        Change::Moment | Change::Whole(_) => Change::Moment,
    }
}

/// .. of one on a bus.
fn bus_part<A: Allocator>(change: &mut Change<SitePort<A>>) -> Change<BusPort<A>>
    ensures { result ≡ spec.bus_part change.old }
{
    match mem::replace(change, Change::Nothing) {
        Change::Nothing => Change::Nothing,
        Change::Whole(SitePort::Bus(port)) => Change::Whole(port),
        Change::Moment | Change::Whole(SitePort::Ip(_)) => Change::Moment,
    }
}

/// Keeps what an event changes of a port of BACnet/IP: it is no more than its moment, so nothing large is moved.
fn put_ip<A: Allocator>(change: &mut Change<SitePort<A>>, part: &Change<IpPort<A>>)
    ensures { AsIp part.now (spec.ip_part change.new) }
{
    *change = match part {
        Change::Nothing => Change::Nothing,
        Change::Moment | Change::Whole(_) => Change::Moment,
    };
}

/// What an event changes of a port, where that is one on a bus.
fn of_bus<A: Allocator + Copy>(part: Change<BusPort<A>>) -> Change<SitePort<A>>
    ensures { spec.bus_part result ≡ part }
{
    match part {
        Change::Nothing => Change::Nothing,
        Change::Moment => Change::Moment,
        Change::Whole(port) => Change::Whole(SitePort::Bus(port)),
    }
}
