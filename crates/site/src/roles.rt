//! What stations have to be, and their order.

ghost use Rattle.std.specs.Prelude.{◌≡◌, ◌↔◌, IsTrue, map};
ghost use Rattle.std.specs.List.{AllByRecursion};
ghost use Rattle.site_parts.specs.Places.{network_of};
ghost use Rattle.site_parts.specs.Roles.{ports_in};
ghost use Rattle.site.specs.Apart.{AreApart, IsOther};
ghost use Rattle.site.specs.Roles.{AreInOrder, ArePortsApart, AreRoles, IsRole, rank};

use site_parts::{Link, Role, Station};
use std::alloc::Allocator;

/// Whether each manager is on BACnet/IP (J.4), and each router has two ports or more (6.6).
pub fn are_roles<A: Allocator>(stations: &[Station<A>]) -> bool
    ensures { IsTrue result ↔ AreRoles stations.now }
{
    let mut left = stations;
    while let [first, rest @ ..] = left {
        if !is_role(&first.role) {
            return false;
        }
        left = rest;
    }
    true
}

fn is_role<A: Allocator>(role: &Role<A>) -> bool
    ensures { IsTrue result ↔ IsRole role.now }
{
    match role {
        Role::Manager(Link::Bus { .. }) => false,
        Role::Router(ports) => 1 < ports.len(),
        Role::Manager(Link::Ip { .. }) | Role::Device { .. } | Role::Client { .. } => true,
    }
}

/// Whether no router has two ports on one network (3.2).
pub fn have_ports_apart<A: Allocator>(stations: &[Station<A>]) -> bool
    ensures { IsTrue result ↔ ArePortsApart stations.now }
{
    let mut left = stations;
    while let [first, rest @ ..] = left {
        if !has_ports_apart(&first.role) {
            return false;
        }
        left = rest;
    }
    true
}

fn has_ports_apart<A: Allocator>(role: &Role<A>) -> bool
    ensures { IsTrue result ↔ AreApart (map network_of (ports_in role.now)) }
{
    are_apart(role.ports())
}

/// Whether no two ports are on one network.
fn are_apart(ports: &[Link]) -> bool
    ensures { IsTrue result ↔ AreApart (map network_of ports.now) }
{
    let mut left = ports;
    while let [first, rest @ ..] = left {
        if !is_apart(*first, rest) {
            return false;
        }
        left = rest;
    }
    true
}

/// Whether none of the other ports is on a port's network.
fn is_apart(port: Link, others: &[Link]) -> bool
    ensures { IsTrue result ↔ AllByRecursion (IsOther (network_of port)) (map network_of others.now) }
{
    let mut left = others;
    while let [first, rest @ ..] = left {
        if !are_on_two(port, *first) {
            return false;
        }
        left = rest;
    }
    true
}

/// Whether two ports are on two networks.
fn are_on_two(a: Link, b: Link) -> bool
    ensures { IsTrue result ↔ IsOther (network_of a) (network_of b) }
{
    a.network() != b.network()
}

/// Whether managers come first, then routers, devices and clients.
pub fn are_in_order<A: Allocator>(stations: &[Station<A>]) -> bool
    ensures { IsTrue result ↔ AreInOrder 0 stations.now }
{
    let mut least = 0;
    let mut left = stations;
    while let [first, rest @ ..] = left {
        let here = rank(&first.role);
        if here < least {
            return false;
        }
        least = here;
        left = rest;
    }
    true
}

fn rank<A: Allocator>(role: &Role<A>) -> u8
    ensures { result ≡ rank role.now }
{
    match role {
        Role::Manager(_) => 0,
        Role::Router(_) => 1,
        Role::Device { .. } => 2,
        Role::Client { .. } => 3,
    }
}
