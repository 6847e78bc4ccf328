//! All that can happen: by names, which are looked up once, and by places.

ghost use Rattle.std.specs.Prelude.{◌≡◌, IfErr, IfOk, OnErr, OnOk};
ghost use Rattle.world.specs.Laws.{Stands};
ghost use Rattle.world.specs.Refusals.{HappeningIsRefused, IsRefused};
ghost use Rattle.world.specs.Resting.{RestsIfQuiet};
ghost use Rattle.world.specs.Step.{Happens, HasName, IsSoundEvent, IsSoundHappening, Steps};
ghost use Rattle.world_sites.specs.Finding.{IsNobody};

use crate::internetwork::Internetwork;
use apdu::Limits;
use primitives::Request;
use site_events::Event;
use std::alloc::Allocator;
use std::mem;
use tags::{Fault, Octets};
use world_log::Draft;
use world_sites::{NamedNode, NodeId};

/// What can happen in a world, each node by its place: what is looked up once is not looked up again.
#[derive(Drop)]
pub enum Happening<A: Allocator> {
    /// A client is asked to make a sound request of the device of this instance (5.4.4.1).
    Issue {
        client: NodeId,
        instance: u32,
        request: Request<A>,
    },
    /// A client asks all devices, or those with an instance within limits, who they are (16.10.1).
    WhoIs {
        client: NodeId,
        limits: Option<Limits>,
    },
    /// So many milliseconds pass: 1 to 60000.
    Tick(u64),
    /// A node wakes: its timers have expired (5.4.1).
    Wake(NodeId),
    /// The item of this number, counted from 0, is handed to its addressee.
    Deliver(u64),
    /// A device restarts with the objects that the site gives it.
    Restart(NodeId),
    /// A node on a bus hears octets (9.5).
    Hear {
        network: u16,
        node: NodeId,
        octets: Octets<A>,
    },
    /// A foreign node registers at its broadcast manager (J.5.2).
    Register(NodeId),
}

impl<A: Allocator + Copy> Internetwork<A> {
    /// Something happens at a place, or is refused.
    ///
    /// # Errors
    /// `NoSuch` where no node is at the place; what the node, its part and its ports refuse; or `Memory`. All is then
    /// as it was.
    pub fn happen(&mut self, happening: &Happening<A>) -> Result<(), Fault>
        requires sound { IsSoundHappening happening.now }
        ensures happens { OnOk result (Happens happening.now self.old self.new) }
        ensures cause { IfErr result (λ fault. HappeningIsRefused happening.now self.old fault) }
        ensures unchanged { OnErr result (self.new ≡ self.old) }
        ensures stands { Stands self.old }
    {
        let mut draft = self.lend();
        let done = self.happen_with(happening, &mut draft);
        self.take_back(draft);
        done
    }

    /// An event happens, or is refused: its node is looked up by its name. A wake at which nothing is due says, tells
    /// and puts out nothing, and changes its node alone.
    ///
    /// # Errors
    /// `NoSuch` where no node has the name; and as `happen` is refused. All is then as it was.
    pub fn step(&mut self, event: &Event<A>) -> Result<(), Fault>
        requires sound { IsSoundEvent event.now }
        ensures steps { OnOk result (Steps event.now self.old self.new) }
        ensures rests { OnOk result (RestsIfQuiet event.now self.old self.new) }
        ensures cause { IfErr result (λ fault. IsRefused event.now self.old fault) }
        ensures unchanged { OnErr result (self.new ≡ self.old) }
        ensures stands { Stands self.old }
    {
        let mut draft = self.lend();
        let done = self.step_with(event, &mut draft);
        self.take_back(draft);
        done
    }

    /// Lends what an event drafts with, and tells what is known of each state.
    pub(crate) fn lend(&mut self) -> Draft<A>
        ensures same { self.new ≡ self.old }
        ensures stands { Stands self.old }
    {
        let alloc = self.alloc;
        mem::replace(&mut self.draft, Draft::new(alloc))
    }

    /// Takes it back.
    pub(crate) fn take_back(&mut self, draft: Draft<A>)
        ensures { self.new ≡ self.old }
    {
        self.draft = draft;
    }

    fn happen_with(&mut self, happening: &Happening<A>, draft: &mut Draft<A>) -> Result<(), Fault>
        requires sound { IsSoundHappening happening.now }
        ensures happens { OnOk result (Happens happening.now self.old self.new) }
        ensures cause { IfErr result (λ fault. HappeningIsRefused happening.now self.old fault) }
        ensures unchanged { OnErr result (self.new ≡ self.old) }
    {
        match happening {
            Happening::Issue {
                client,
                instance,
                request,
            } => self.issue(client.place(), *instance, request, draft),
            Happening::WhoIs { client, limits } => self.ask(client.place(), *limits, draft),
            Happening::Tick(n) => self.tick(*n),
            Happening::Wake(node) => self.wake(node.place(), draft),
            Happening::Deliver(number) => self.deliver(*number, draft),
            Happening::Restart(node) => self.restart(node.place(), draft),
            Happening::Register(node) => self.register(node.place(), draft),
            Happening::Hear {
                network,
                node,
                octets,
            } => self.hear(*network, node.place(), octets.as_slice(), draft),
        }
    }

    /// Returns the place of the node of a name.
    ///
    /// # Errors
    /// `NoSuch` where none has it.
    fn place_named(&self, name: &[u8]) -> Result<usize, Fault>
        ensures named { IfOk result (λ place. HasName name.now self.now place) }
        ensures cause { IfErr result (λ fault. fault ≡ Fault.NoSuch) }
        ensures nobody { OnErr result (IsNobody name.now self.now.nodes) }
    {
        match self.named(name) {
            Some(NamedNode { id, .. }) => Ok(id.place()),
            None => Err(Fault::NoSuch),
        }
    }

    #[tactic(auto, using(crate::proofs::Dues::step_rules))]
    fn step_with(&mut self, event: &Event<A>, draft: &mut Draft<A>) -> Result<(), Fault>
        requires sound { IsSoundEvent event.now }
        ensures steps { OnOk result (Steps event.now self.old self.new) }
        ensures rests { OnOk result (RestsIfQuiet event.now self.old self.new) }
        ensures cause { IfErr result (λ fault. IsRefused event.now self.old fault) }
        ensures unchanged { OnErr result (self.new ≡ self.old) }
    {
        match event {
            Event::Issue {
                client,
                instance,
                request,
            } => {
                let place = self.place_named(client.as_slice())?;
                self.issue(place, *instance, request, draft)
            }
            Event::WhoIs { client, limits } => {
                let place = self.place_named(client.as_slice())?;
                self.ask(place, *limits, draft)
            }
            Event::Tick(n) => self.tick(*n),
            Event::Wake(station) => {
                let place = self.place_named(station.as_slice())?;
                self.wake(place, draft)
            }
            Event::Deliver(number) => self.deliver(*number, draft),
            Event::Restart(station) => {
                let place = self.place_named(station.as_slice())?;
                self.restart(place, draft)
            }
            Event::Register(station) => {
                let place = self.place_named(station.as_slice())?;
                self.register(place, draft)
            }
            Event::Hear {
                network,
                station,
                octets,
            } => {
                let place = self.place_named(station.as_slice())?;
                self.hear(*network, place, octets.as_slice(), draft)
            }
        }
    }
}
