//! The port as a link.

use crate::port::IpPort;
use link::{Change, Link, PortSent, Up, max_npdu_at};
use npdu::{Mac, Parcel, Station};
use std::alloc::{AllocError, Allocator};
use tags::{Fault, Items};

impl<A: Allocator + Copy> Link<A> for IpPort<A> {
    ghost use Rattle.std.specs.Prelude.{◌≡◌};
    ghost use Rattle.carry.specs.Datagrams.{IsDatagramOf};
    ghost use Rattle.link_ip.specs.CarryLaws as laws;
    ghost use Rattle.link_ip.specs.Hearing.{IsRefused};
    ghost use Rattle.link_ip.specs.Port.{at_moment, changed, moment_of, station_of, waiting_in};
    ghost use Rattle.link_ip.specs.Steps as steps;
    ghost use Rattle.link_ip.specs.Steps.{Counts, Downs, Hears, Idles, Registers};

    ghost station = { station_of };

    ghost moment = { moment_of };

    ghost waiting = { waiting_in };

    ghost carries = { IsDatagramOf };

    ghost refuses = { IsRefused };

    ghost downs = { Downs };

    ghost hears = { Hears };

    ghost wakes = { Idles };

    ghost counts = { Counts };

    ghost registers = { Registers };

    ghost restarts = { at_moment };

    ghost is_due = { steps.is_due };

    ghost at = { at_moment };

    ghost changed = { changed };

    ghost one_parcel = { laws.one_parcel };

    ghost keeps_stamp = { laws.keeps_stamp };

    ghost carries_down = { laws.carries_down };

    ghost carries_up = { laws.carries_up };

    ghost carries_on = { laws.carries_on };

    ghost carries_counting = { laws.carries_counting };

    ghost carries_registering = { laws.carries_registering };

    ghost forgets = { laws.forgets };

    ghost idles = { laws.idles };

    ghost stands = { laws.stands };

    ghost stays = { laws.stays };

    fn station(&self) -> Station {
        IpPort::station(self)
    }

    fn moment(&self) -> u64 {
        IpPort::moment(self)
    }

    fn copy(&self) -> Result<Self, AllocError> {
        IpPort::copy(self)
    }

    /// Puts a parcel out: to one station an Original-Unicast-NPDU, to all stations an Original-Broadcast-NPDU for each
    /// other member of the subnet, or, as a foreign device, one Distribute-Broadcast-To-Network to the manager (J.4.5,
    /// J.5).
    #[tactic(auto, using(crate::proofs::Sending::link_rules))]
    fn down(
        &self,
        change: &mut Change<Self>,
        parcel: &Parcel<A>,
        port: usize,
        now: u64,
        out: &mut Items<PortSent<A>, A>,
    ) -> Result<(), Fault> {
        if parcel.npdu.len() > usize::from(max_npdu_at(self.station().mac)) {
            return Err(Fault::TooLong);
        }
        self.put_out(parcel, port, out)?;
        *change = Change::Moment;
        Ok(())
    }

    /// Hears a datagram. An Original-Unicast-NPDU, an Original-Broadcast-NPDU and a Forwarded-NPDU hand up what they
    /// carry, whatever is in it, and no other datagram does (J.2). It takes no memory.
    #[tactic(auto, using(crate::proofs::Sending::link_rules))]
    fn heard<'o>(
        &self,
        change: &mut Change<Self>,
        from: Mac,
        octets: &'o [u8],
        stamp: u64,
        port: usize,
        now: u64,
        out: &mut Items<PortSent<A>, A>,
    ) -> Result<Option<Up<'o>>, Fault> {
        let up = self.heard_from(from, octets, stamp)?;
        *change = Change::Moment;
        Ok(up)
    }

    /// Nothing waits in it, so nothing comes of a wake.
    #[tactic(auto, using(crate::proofs::Sending::link_rules))]
    fn on_tick(
        &self,
        change: &mut Change<Self>,
        port: usize,
        now: u64,
        out: &mut Items<PortSent<A>, A>,
    ) -> Result<(), Fault> {
        *change = Change::Moment;
        Ok(())
    }

    fn is_due(&self, now: u64) -> bool {
        false
    }

    #[tactic(auto, using(crate::proofs::Sending::link_rules))]
    fn on_octets(&self, change: &mut Change<Self>, count: usize, now: u64) -> Result<(), Fault> {
        *change = Change::Moment;
        Ok(())
    }

    /// Says a Register-Foreign-Device to the broadcast manager that it is a foreign device of (J.5.2).
    #[tactic(auto, using(crate::proofs::Sending::link_rules))]
    fn register(
        &self,
        change: &mut Change<Self>,
        port: usize,
        now: u64,
        out: &mut Items<PortSent<A>, A>,
    ) -> Result<(), Fault> {
        self.put_registration(port, now, out)?;
        *change = Change::Moment;
        Ok(())
    }

    fn settle(&mut self, change: Change<Self>, now: u64)
        ensures { self.new ≡ changed now self.old change }
    {
        match change {
            Change::Nothing => {}
            Change::Moment | Change::Whole(_) => self.later(now),
        }
    }

    fn restart(&mut self, now: u64) {
        self.later(now);
    }
}
