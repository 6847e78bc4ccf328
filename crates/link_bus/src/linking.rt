//! The port as a link.

use crate::port::BusPort;
use link::{Change, Link, PortSent, Up, max_npdu_at};
use npdu::{Mac, Parcel, Station};
use std::alloc::{AllocError, Allocator};
use tags::{Fault, Items};

impl<A: Allocator + Copy> Link<A> for BusPort<A> {
    ghost use Rattle.std.specs.Prelude.{◌≡◌};
    ghost use Rattle.link_bus.specs.CarryLaws as laws;
    ghost use Rattle.link_bus.specs.Port.{at_moment, changed, moment_of, restarted, station_of, waiting_in};
    ghost use Rattle.link_bus.specs.Steps as steps;
    ghost use Rattle.link_bus.specs.Steps.{Counts, Downs, Hears, Idles, IsOnBus, IsRefused, Wakes};

    ghost station = { station_of };

    ghost moment = { moment_of };

    ghost waiting = { waiting_in };

    ghost carries = { IsOnBus };

    ghost refuses = { IsRefused };

    ghost downs = { Downs };

    ghost hears = { Hears };

    ghost wakes = { Wakes };

    ghost counts = { Counts };

    ghost registers = { Idles };

    ghost restarts = { restarted };

    ghost is_due = { steps.is_due };

    ghost at = { at_moment };

    ghost changed = { changed };

    ghost one_parcel = { laws.one_parcel };

    ghost keeps_stamp = { laws.keeps_stamp };

    ghost carries_down = { laws.carries_down };

    ghost carries_up = { laws.carries_up };

    ghost carries_on = { laws.carries_on };

    ghost carries_counting = { laws.carries_counting };

    ghost carries_registering = { laws.carries_registering };

    ghost forgets = { laws.forgets };

    ghost idles = { laws.idles };

    ghost stands = { laws.stands };

    ghost stays = { laws.stays };

    fn station(&self) -> Station {
        BusPort::station(self)
    }

    fn moment(&self) -> u64 {
        BusPort::moment(self)
    }

    fn copy(&self) -> Result<Self, AllocError> {
        BusPort::copy(self)
    }

    /// Queues a parcel until the node has the token (9.5.6, Use_Token). Nothing is put out.
    #[tactic(auto, using(crate::proofs::Doing::link_rules))]
    fn down(
        &self,
        change: &mut Change<Self>,
        parcel: &Parcel<A>,
        port: usize,
        now: u64,
        out: &mut Items<PortSent<A>, A>,
    ) -> Result<(), Fault> {
        if parcel.npdu.len() > usize::from(max_npdu_at(self.station().mac)) {
            return Err(Fault::TooLong);
        }
        let mut bus = self.changing(change, now)?;
        bus.queue(parcel, now)?;
        *change = Change::Whole(bus);
        Ok(())
    }

    /// Hears a frame. Its data are handed up where the node does so, whatever is in them (9.5.6). What is no frame is
    /// dropped.
    #[tactic(auto, using(crate::proofs::Doing::link_rules))]
    fn heard<'o>(
        &self,
        change: &mut Change<Self>,
        from: Mac,
        octets: &'o [u8],
        stamp: u64,
        port: usize,
        now: u64,
        out: &mut Items<PortSent<A>, A>,
    ) -> Result<Option<Up<'o>>, Fault> {
        let mut bus = self.changing(change, now)?;
        let up = bus.hear(from, octets, stamp, port, now, out)?;
        *change = Change::Whole(bus);
        Ok(up)
    }

    /// Puts out the frames of its node (9.5.6). Where nothing is due, it comes to that moment.
    #[tactic(auto, using(crate::proofs::Doing::link_rules))]
    fn on_tick(
        &self,
        change: &mut Change<Self>,
        port: usize,
        now: u64,
        out: &mut Items<PortSent<A>, A>,
    ) -> Result<(), Fault> {
        if !self.is_due_after(change, now) {
            self.rest(change, now);
            return Ok(());
        }
        let mut bus = self.changing(change, now)?;
        bus.wake(port, now, out)?;
        *change = Change::Whole(bus);
        Ok(())
    }

    fn is_due(&self, now: u64) -> bool {
        BusPort::is_due(self, now)
    }

    fn on_octets(&self, change: &mut Change<Self>, count: usize, now: u64) -> Result<(), Fault> {
        let mut bus = self.changing(change, now)?;
        bus.count(count, now);
        *change = Change::Whole(bus);
        Ok(())
    }

    /// There is no manager to register at: the moment alone is another.
    #[tactic(auto, using(crate::proofs::Doing::link_rules))]
    fn register(
        &self,
        change: &mut Change<Self>,
        port: usize,
        now: u64,
        out: &mut Items<PortSent<A>, A>,
    ) -> Result<(), Fault> {
        self.come_later(change, now);
        Ok(())
    }

    fn settle(&mut self, change: Change<Self>, now: u64)
        ensures { self.new ≡ changed now self.old change }
    {
        match change {
            Change::Nothing => {}
            Change::Moment => self.come_to(now),
            Change::Whole(bus) => *self = bus,
        }
    }

    fn restart(&mut self, now: u64) {
        self.begin_anew(now);
    }
}
