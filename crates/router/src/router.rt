//! A router, and the commit of what it would do.

ghost use Rattle.std.specs.Prelude.{IsTrue, ◌↔◌};
ghost use Rattle.router.specs.Router.{AreNumbered};

use crate::plan::{PortParcel, RouterChange, RouterPlan};
use crate::routes::{Route, Routes};
use npdu::Station;
use std::alloc::{AllocError, Allocator};
use std::marker::Model;
use tags::Items;

/// A router between networks.
#[derive(Drop)]
pub struct Router<A: Allocator + Copy> {
    pub(crate) alloc: A,
    pub(crate) ports: Items<Station, A>,
    pub(crate) routes: Routes<A>,
    pub(crate) woken: bool,
    moment: u64,
}

impl<A: Allocator + Copy> Model for Router<A> {
    ghost use Rattle.router.specs.Router.{AreNumbered, RouterState};

    ghost Value = { RouterState };

    ghost view = { λ r. record {
      ports = r.ports;
      routes = r.routes;
      woken = r.woken;
      moment = r.moment;
    } };

    ghost invariant = { λ r. AreNumbered r.ports };
}

/// Whether the network of each port has a number, 1..=65534, as a router asks.
pub fn are_numbered(ports: &[Station]) -> bool
    ensures { IsTrue result ↔ AreNumbered ports.now }
{
    for port in ports {
        if port.net == 0 || port.net == 0xFFFF {
            return false;
        }
    }
    true
}

impl<A: Allocator + Copy> Router<A> {
    ghost use Rattle.std.specs.Prelude.{◌≡◌, ◌≤◌, true, IfOk, IfSome, length, slice_get};
    ghost use Rattle.profile.specs.Limits.{MAX_LEARNED_ROUTES};
    ghost use Rattle.profile.specs.Times.{MAX_MOMENT_MS};
    ghost use Rattle.router.specs.Plan.{left_by};
    ghost use Rattle.router.specs.Router.{AreNumbered, IsNumbered, new_router, woken};

    /// A router with these ports, whose memory will be that of `alloc`: of each the number of its network, 1..=65534,
    /// and the router's address there. It knows no route but those to its own networks, and has not woken.
    ///
    /// # Errors
    /// Want of memory.
    pub fn new(alloc: A, ports: &[Station]) -> Result<Self, AllocError>
        requires numbers { AreNumbered ports.now }
        ensures { IfOk result (λ router. router ≡ new_router ports.now) }
    {
        Ok(Router {
            alloc,
            ports: Items::from_slice(alloc, ports)?,
            routes: Routes::new(alloc),
            woken: false,
            moment: 0,
        })
    }

    /// The moment of the last call that was not refused, in milliseconds.
    pub fn moment(&self) -> u64
        ensures { result ≡ self.now.moment }
    {
        self.moment
    }

    /// Its ports in order: of each the number of its network, and the router's address there.
    pub fn ports(&self) -> &[Station]
        ensures { result.now ≡ self.now.ports }
    {
        self.ports.as_slice()
    }

    /// How many routes it has learned: at most `MAX_LEARNED_ROUTES` (6.6.1).
    pub fn route_count(&self) -> usize
        ensures count { result ≡ length self.now.routes }
        ensures few { result ≤ MAX_LEARNED_ROUTES }
    {
        self.routes.len()
    }

    /// The routes that it has learned, each with the number of its network, in the order of these (6.6.1).
    pub fn routes(&self) -> &[(u16, Route)]
        ensures { result.now ≡ self.now.routes }
    {
        self.routes.as_slice()
    }

    /// An equal router, in the same memory.
    ///
    /// # Errors
    /// Want of memory.
    pub fn copy(&self) -> Result<Self, AllocError>
        ensures { IfOk result (λ copy. copy ≡ self.now) }
    {
        Ok(Router {
            alloc: self.alloc,
            ports: self.ports.copy(self.alloc)?,
            routes: self.routes.copy()?,
            woken: self.woken,
            moment: self.moment,
        })
    }

    /// The port of this number.
    #[tactic(auto, using(crate::proofs::RouteLaws::port_rules))]
    pub(crate) fn port(&self, number: usize) -> Option<Station>
        ensures port { result ≡ slice_get self.now.ports number }
        ensures numbered { IfSome result IsNumbered }
    {
        self.ports.as_slice().get(number).copied()
    }

    /// Whether it has woken: it then says nothing where it wakes again (6.6.2).
    pub fn has_woken(&self) -> bool
        ensures { result ≡ self.now.woken }
    {
        self.woken
    }

    /// Wakes again at the moment `now`, in milliseconds: it says nothing, and takes no memory.
    pub fn wake_again(&mut self, now: u64)
        requires greatest { now ≤ MAX_MOMENT_MS }
        requires order { self.old.moment ≤ now }
        requires woken { self.old.woken ≡ true }
        ensures { self.new ≡ woken now self.old }
    {
        self.moment = now;
    }

    /// Does what was planned at the moment `now`, in milliseconds, with no other input between, and answers what goes
    /// out, in order. It takes no memory, and is never refused.
    pub fn commit(&mut self, plan: RouterPlan<A>, now: u64) -> Items<PortParcel<A>, A>
        requires greatest { now ≤ MAX_MOMENT_MS }
        requires order { self.old.moment ≤ now }
        ensures out { result ≡ plan.out }
        ensures left { self.new ≡ left_by now plan self.old }
    {
        let RouterPlan { out, change } = plan;
        match change {
            RouterChange::Nothing => {}
            RouterChange::Learns(routes) => self.routes = routes,
            RouterChange::Wakes => self.woken = true,
        }
        self.moment = now;
        out
    }
}
