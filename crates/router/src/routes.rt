//! The routes that a router learns from others (6.6.1, 6.6.3.3).

ghost use Rattle.std.specs.Prelude.{◌≡◌, ◌<◌, ◌⊎◌, ◌↔◌, Some, IsTrue, OnOk, IfSome, IfNone, length};
ghost use Rattle.std.specs.BTreeMap.{insert_entry};
ghost use Rattle.std.specs.Ordering.{nat_cmp};
ghost use Rattle.router.specs.Handling.{route_to};
ghost use Rattle.router.specs.Routes as spec;
ghost use Rattle.router.specs.Routes.{IsFront, IsNews, learned, learned_one};

use npdu::{Mac, Station};
use profile::MAX_LEARNED_ROUTES;
use sorted_map::SortedMap;
use std::alloc::{AllocError, Allocator};
use std::marker::Model;
use tags::Fault;

/// The way to a network.
#[derive(Clone, Copy, Debug, PartialEq, Eq)]
pub struct Route {
    /// The number of the port that it goes over, from 0.
    pub port: usize,
    /// The address of the next router there.
    pub next: Mac,
}

/// Routes under the numbers of their networks.
type RouteMap<A> = SortedMap<u16, Route, A>;

/// Learned routes, in the order of their networks.
#[derive(Drop)]
pub(crate) struct Routes<A: Allocator> {
    pub(crate) held: RouteMap<A>,
}

impl<A: Allocator> Model for Routes<A> {
    ghost use Rattle.std.specs.Prelude.{List, ℕ, ◌≤◌, length};
    ghost use Rattle.profile.specs.Limits.{MAX_LEARNED_ROUTES};
    ghost use Rattle.router.specs.declared.routes.Route.{Route};

    ghost Value = { List (ℕ × Route) };

    ghost view = { λ r. r.held };

    ghost invariant = { λ r. length r.held ≤ MAX_LEARNED_ROUTES };
}

/// Whether one of the ports is on this network.
fn has_port_on(net: u16, ports: &[Station]) -> bool
    ensures { result ≡ spec.has_port_on net ports.now }
{
    for port in ports {
        if port.net == net {
            return true;
        }
    }
    false
}

/// Whether a route to this network may be learned: it has a number, and is none of the router's own.
fn is_learnable(ports: &[Station], net: u16) -> bool
    ensures { result ≡ spec.is_learnable ports.now net }
{
    net != 0 && net != 0xFFFF && !has_port_on(net, ports)
}

/// The network that the first two octets name, and the octets behind them.
fn front(octets: &[u8]) -> Option<(u16, &[u8])>
    ensures front { IfSome result (λ x. IsFront octets.now x.0 x.1.now) }
    ensures end { IfNone result (length octets.now < 2) }
{
    match octets {
        [high, low, rest @ ..] => Some((u16::from_be_bytes([*high, *low]), rest)),
        _ => None,
    }
}

/// Learns a route to one network.
fn learn_one<A: Allocator + Copy>(
    routes: &mut RouteMap<A>,
    ports: &[Station],
    route: Route,
    net: u16,
) -> Result<(), AllocError>
    ensures { OnOk result (routes.new ≡ learned_one ports.now route net routes.old) }
{
    if is_learnable(ports, net) {
        routes.insert(net, route)?;
    }
    Ok(())
}

/// Learns a route to each network that an announcement names, in two octets each.
#[tactic(auto, using(crate::proofs::RouteLaws::learn_rules))]
fn learn<A: Allocator + Copy>(
    routes: &mut RouteMap<A>,
    ports: &[Station],
    route: Route,
    contents: &[u8],
) -> Result<(), AllocError>
    ensures { OnOk result (routes.new ≡ learned ports.now route contents.now routes.old) }
{
    let mut rest = contents;
    while let Some((net, behind)) = front(rest) {
        learn_one(routes, ports, route, net)?;
        rest = behind;
    }
    Ok(())
}

/// Whether this very route to a network is known: to put it in would change nothing.
fn has_route<A: Allocator + Copy>(routes: &RouteMap<A>, net: u16, route: Route) -> bool
    ensures has { IsTrue result ↔ (route_to net routes.now ≡ Some route) }
    ensures kept { IsTrue result → insert_entry nat_cmp routes.now net route ≡ routes.now }
{
    match routes.get(net) {
        Some(known) => known == route,
        None => false,
    }
}

/// Whether a route to one network teaches nothing: it is known already, or none may be learned.
fn keeps_one<A: Allocator + Copy>(
    routes: &RouteMap<A>,
    ports: &[Station],
    route: Route,
    net: u16,
) -> bool
    ensures kept { IsTrue result → learned_one ports.now route net routes.now ≡ routes.now }
    ensures news { IsTrue result ⊎ IsNews ports.now route net routes.now }
{
    !is_learnable(ports, net) || has_route(routes, net, route)
}

/// Whether an announcement teaches nothing, of all the networks that it names.
#[tactic(auto, using(crate::proofs::RouteLaws::keep_rules))]
fn keeps<A: Allocator + Copy>(
    routes: &RouteMap<A>,
    ports: &[Station],
    route: Route,
    contents: &[u8],
) -> bool
    ensures { IsTrue result ↔ (learned ports.now route contents.now routes.now ≡ routes.now) }
{
    let mut rest = contents;
    while let Some((net, behind)) = front(rest) {
        if !keeps_one(routes, ports, route, net) {
            return false;
        }
        rest = behind;
    }
    true
}

impl<A: Allocator + Copy> Routes<A> {
    ghost use Rattle.std.specs.Prelude.{◌≡◌, ◌≢◌, ◌≤◌, ◌⊎◌, [], true, false, IfOk, IfErr, IfSome, OnOk, length};
    ghost use Rattle.std.specs.Prelude.{unwrap_or};
    ghost use Rattle.profile.specs.Limits.{MAX_LEARNED_ROUTES};
    ghost use Rattle.router.specs.Handling.{route_to};
    ghost use Rattle.router.specs.Routes.{is_overfull, is_too_many, learned, teaches};

    /// No route, which takes no memory.
    pub(crate) fn new(alloc: A) -> Self
        ensures { result ≡ [] }
    {
        Routes {
            held: RouteMap::new(alloc),
        }
    }

    /// Equal routes, in the same memory.
    pub(crate) fn copy(&self) -> Result<Self, AllocError>
        ensures { IfOk result (λ copy. copy ≡ self.now) }
    {
        Ok(Routes {
            held: self.held.copy_with_room(0)?,
        })
    }

    /// They, in the order of their networks.
    pub(crate) fn as_slice(&self) -> &[(u16, Route)]
        ensures { result.now ≡ self.now }
    {
        self.held.as_slice()
    }

    /// How many there are.
    pub(crate) fn len(&self) -> usize
        ensures count { result ≡ length self.now }
        ensures few { result ≤ MAX_LEARNED_ROUTES }
    {
        self.held.len()
    }

    /// The route to this network, if it was learned.
    pub(crate) fn get(&self, net: u16) -> Option<Route>
        ensures { result ≡ route_to net self.now }
    {
        self.held.get(net)
    }

    /// The routes behind an announcement, as a copy.
    ///
    /// # Errors
    /// `TableFull` for more than `MAX_LEARNED_ROUTES`, or `Memory`.
    fn learned(&self, ports: &[Station], route: Route, contents: &[u8]) -> Result<Self, Fault>
        ensures learned { IfOk result (λ routes. routes ≡ learned ports.now route contents.now self.now) }
        ensures fits { OnOk result (is_too_many (learned ports.now route contents.now self.now) ≡ false) }
        ensures cause { IfErr result (λ fault. (fault ≡ Fault.Memory) ⊎ ((fault ≡ Fault.TableFull) ×
            (is_too_many (learned ports.now route contents.now self.now) ≡ true))) }
    {
        let mut held = self.held.copy_with_room(contents.len() / 2)?;
        learn(&mut held, ports, route, contents)?;
        if held.len() > MAX_LEARNED_ROUTES {
            return Err(Fault::TableFull);
        }
        Ok(Routes { held })
    }

    /// The routes behind an announcement, as a copy, where it teaches something. `None` where it doesn't, and they
    /// stay.
    ///
    /// # Errors
    /// `TableFull` for more than `MAX_LEARNED_ROUTES`, or `Memory`.
    #[tactic(auto, using(crate::proofs::RouteLaws::taught_rules))]
    pub(crate) fn taught(
        &self,
        ports: &[Station],
        route: Route,
        contents: &[u8],
    ) -> Result<Option<Self>, Fault>
        ensures taught { IfOk result (λ o. unwrap_or o self.now ≡ learned ports.now route contents.now self.now) }
        ensures fits { OnOk result (is_overfull ports.now route contents.now self.now ≡ false) }
        ensures copied { IfOk result (λ o. IfSome o (λ r. teaches ports.now contents.now ≡ true)) }
        ensures news { IfOk result (λ o. IfSome o (λ r. r ≢ self.now)) }
        ensures cause { IfErr result (λ fault. (fault ≡ Fault.Memory) ⊎ ((fault ≡ Fault.TableFull) ×
            (is_overfull ports.now route contents.now self.now ≡ true))) }
    {
        if keeps(&self.held, ports, route, contents) {
            return Ok(None);
        }
        let routes = self.learned(ports, route, contents)?;
        Ok(Some(routes))
    }
}
