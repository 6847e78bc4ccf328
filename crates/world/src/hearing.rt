//! Octets that are heard on a bus.

ghost use Rattle.std.specs.Prelude.{◌≡◌, ◌⊎◌, ◌↔◌, ◌<◌, IfErr, IfOk, IsTrue, OnErr, OnOk, length};
ghost use Rattle.buses.specs.Finding.{HasEarAt};
ghost use Rattle.world_log.specs.site_ports.Ports.{Then};
ghost use Rattle.world.specs.Hearing.{HasNoListener, Hears, IsOne, IsTold, Keeps, Listens, RefusesFrame};
ghost use Rattle.world.specs.Hearing.{RefusesHeard, RefusesOne, Settles, Takes, TakesAll, TakesEach};
ghost use Rattle.world.specs.Refusals.{HappeningIsRefused};
ghost use Rattle.world.specs.declared.happening.Happening.TheVariants as happening;

use crate::internetwork::Internetwork;
use crate::listener::Listener;
use bus_traffic::{CutFrame, Ending, HeardFrame, Hearing};
use buses::EarHearing;
use npdu::Mac;
use std::alloc::Allocator;
use tags::Fault;
use world_log::{Cause, Draft};
use world_sites::{EarPort, ear_port};

/// Returns whether one thing comes of these frames and so many octets behind them, or none.
fn is_one<A: Allocator>(frames: &[HeardFrame<A>], rest: usize) -> bool
    ensures { IsTrue result ↔ IsOne frames.now rest }
{
    match frames {
        [] => true,
        [_] => rest == 0,
        _ => false,
    }
}

impl<A: Allocator + Copy> Internetwork<A> {
    /// Returns with what the node at a place hears on the bus of a number.
    ///
    /// # Errors
    /// `NoSuch` where it doesn't, or there is none.
    #[tactic(auto, using(crate::proofs::HearingLaws::listener_rules))]
    fn listener(&self, place: usize, network: u16) -> Result<Listener, Fault>
        ensures listens { IfOk result (λ l. Listens network place self.now l) }
        ensures there { IfOk result (λ l. l.place < length self.now.nodes) }
        ensures cause { IfErr result (λ fault. fault ≡ Fault.NoSuch) }
        ensures none { OnErr result (HasNoListener network place self.now) }
    {
        let node = self.node(place)?;
        match ear_port(node, network) {
            Some(EarPort { port, mac }) => Ok(Listener { place, port, mac }),
            None => Err(Fault::NoSuch),
        }
    }

    /// A node hears a frame of its bus (9.5.4).
    #[tactic(auto, using(crate::proofs::HearingLaws::taking_rules))]
    fn take_frame(
        &mut self,
        listener: Listener,
        frame: &HeardFrame<A>,
        draft: &mut Draft<A>,
    ) -> Result<(), Fault>
        requires there { listener.place < length self.old.nodes }
        ensures takes { OnOk result (Takes listener frame.now self.old self.new) }
        ensures there { OnOk result (listener.place < length self.new.nodes) }
        ensures cause { IfErr result (λ fault.
            (fault ≡ Fault.Memory) ⊎ RefusesFrame listener fault frame.now self.old) }
        ensures unchanged { OnErr result (self.new ≡ self.old) }
    {
        let now = self.now();
        let Listener { place, port, mac } = listener;
        let octets = frame.octets.as_slice();
        let from = Mac::One(mac);
        let node = self.node(place)?;
        let plan = node.plan_frame(port, frame.used, from, octets, frame.stamp, now, draft)?;
        self.carry_out(place, plan, draft, Cause::Nothing)?;
        Ok(())
    }

    /// The port of a node is told of octets that end no frame, if there are any (9.5.2).
    fn tell(&mut self, listener: Listener, count: usize, draft: &mut Draft<A>) -> Result<(), Fault>
        requires there { listener.place < length self.old.nodes }
        ensures told { OnOk result (IsTold listener count self.old self.new) }
        ensures cause { IfErr result (λ fault. fault ≡ Fault.Memory) }
        ensures unchanged { OnErr result (self.new ≡ self.old) }
    {
        if count == 0 {
            return Ok(());
        }
        let now = self.now();
        let Listener { place, port, .. } = listener;
        let node = self.node(place)?;
        let plan = node.plan_octets(port, count, now, draft)?;
        self.carry_out(place, plan, draft, Cause::Nothing)?;
        Ok(())
    }

    /// A node hears frames of its bus, one after another. Where one is refused those before it were heard.
    fn take_each(
        &mut self,
        listener: Listener,
        frames: &[HeardFrame<A>],
        draft: &mut Draft<A>,
    ) -> Result<(), Fault>
        requires there { listener.place < length self.old.nodes }
        ensures takes { OnOk result (TakesEach listener frames.now self.old self.new) }
        ensures there { OnOk result (listener.place < length self.new.nodes) }
        ensures cause { IfErr result (λ fault.
            (fault ≡ Fault.Memory) ⊎ RefusesOne listener fault frames.now self.old) }
    {
        let mut left = frames;
        while let [first, rest @ ..] = left {
            self.take_frame(listener, first, draft)?;
            left = rest;
        }
        Ok(())
    }

    /// The ear at these places has heard octets, and keeps what is left of a frame.
    fn keep(&mut self, bus: usize, ear: usize, octets: &[u8], cut: CutFrame<A>)
        requires { HasEarAt bus ear self.old.buses.buses }
        ensures { Keeps bus ear octets.now cut self.old self.new }
    {
        let now = self.moment;
        self.buses.hear(bus, ear, octets, cut, now);
    }

    /// A node hears frames of its bus, one after another, and its port is told of so many octets behind them. Where
    /// one is refused those before it were heard.
    fn take_all(
        &mut self,
        listener: Listener,
        frames: &[HeardFrame<A>],
        rest: usize,
        draft: &mut Draft<A>,
    ) -> Result<(), Fault>
        requires there { listener.place < length self.old.nodes }
        ensures takes { OnOk result (TakesAll listener frames.now rest self.old self.new) }
        ensures cause { IfErr result (λ fault.
            (fault ≡ Fault.Memory) ⊎ RefusesOne listener fault frames.now self.old) }
    {
        self.take_each(listener, frames, draft)?;
        self.tell(listener, rest, draft)
    }

    /// The same, where that is one thing at most.
    #[tactic(auto, using(crate::proofs::HearingLaws::one_rules))]
    fn take_one(
        &mut self,
        listener: Listener,
        frames: &[HeardFrame<A>],
        rest: usize,
        draft: &mut Draft<A>,
    ) -> Result<(), Fault>
        requires there { listener.place < length self.old.nodes }
        requires one { IsOne frames.now rest }
        ensures takes { OnOk result (TakesAll listener frames.now rest self.old self.new) }
        ensures cause { IfErr result (λ fault.
            (fault ≡ Fault.Memory) ⊎ RefusesOne listener fault frames.now self.old) }
        ensures unchanged { OnErr result (self.new ≡ self.old) }
    {
        match frames {
            [frame, ..] => self.take_frame(listener, frame, draft),
            [] => self.tell(listener, rest, draft),
        }
    }

    /// What comes of it where no frame is refused for itself. More than one thing is done on a copy, since a later one
    /// that is refused must undo what the first one did.
    fn settle_over(
        &mut self,
        listener: Listener,
        frames: &[HeardFrame<A>],
        rest: usize,
        draft: &mut Draft<A>,
    ) -> Result<(), Fault>
        requires there { listener.place < length self.old.nodes }
        ensures takes { OnOk result (TakesAll listener frames.now rest self.old self.new) }
        ensures cause { IfErr result (λ fault.
            (fault ≡ Fault.Memory) ⊎ RefusesOne listener fault frames.now self.old) }
        ensures unchanged { OnErr result (self.new ≡ self.old) }
    {
        if is_one(frames, rest) {
            return self.take_one(listener, frames, rest, draft);
        }
        let mut next = self.copy()?;
        next.take_all(listener, frames, rest, draft)?;
        *self = next;
        Ok(())
    }

    /// Why octets are refused, where the frame behind these is refused for itself: one of these may be refused before.
    fn refusal(
        &self,
        listener: Listener,
        frames: &[HeardFrame<A>],
        fault: Fault,
        draft: &mut Draft<A>,
    ) -> Fault
        requires there { listener.place < length self.now.nodes }
        ensures { (result ≡ Fault.Memory) ⊎ (RefusesOne listener result frames.now self.now
            ⊎ ((result ≡ fault) × Then (TakesEach listener frames.now self.now) (λ u. Unit {0}))) }
    {
        if frames.is_empty() {
            return fault;
        }
        match self.copy() {
            Ok(mut next) => match next.take_each(listener, frames, draft) {
                Ok(()) => fault,
                Err(first) => first,
            },
            Err(first) => first,
        }
    }

    /// What comes of it where an ear makes this of octets (9.5.4).
    fn settle(
        &mut self,
        listener: Listener,
        at: EarHearing<A>,
        octets: &[u8],
        draft: &mut Draft<A>,
    ) -> Result<(), Fault>
        requires there { listener.place < length self.old.nodes }
        requires ear { HasEarAt at.bus at.ear self.old.buses.buses }
        ensures settles { OnOk result (Settles listener at octets.now self.old self.new) }
        ensures cause { IfErr result (λ fault. (fault ≡ Fault.Memory) ⊎ RefusesHeard listener at self.old fault) }
        ensures unchanged { OnErr result (self.new ≡ self.old) }
    {
        let EarHearing { bus, ear, hearing } = at;
        let Hearing { frames, ending } = hearing;
        match ending {
            Ending::Over { rest, cut } => {
                self.settle_over(listener, frames.as_slice(), rest, draft)?;
                self.keep(bus, ear, octets, cut);
                Ok(())
            }
            Ending::Refused(fault) => Err(self.refusal(listener, frames.as_slice(), fault, draft)),
        }
    }

    /// The node at a place hears octets on a bus (9.5.4).
    pub(crate) fn hear(
        &mut self,
        network: u16,
        place: usize,
        octets: &[u8],
        draft: &mut Draft<A>,
    ) -> Result<(), Fault>
        ensures hears { OnOk result (Hears network place octets.now self.old self.new) }
        ensures cause { IfErr result (λ fault.
            HappeningIsRefused (happening.Hear network place octets.now) self.old fault) }
        ensures unchanged { OnErr result (self.new ≡ self.old) }
    {
        let now = self.now();
        let listener = self.listener(place, network)?;
        let at = self
            .buses
            .hearing(self.alloc, network, listener.mac, octets, now)?;
        self.settle(listener, at, octets, draft)
    }
}
