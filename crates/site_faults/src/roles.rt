//! What stations have to be, and their order.

ghost use Rattle.std.specs.Prelude.{◌↔◌, IfOk, IsTrue};
ghost use Rattle.site.specs.Roles.{AreInOrder, ArePortsApart, AreRoles};

use crate::part::Part;
use crate::shown::Named;
use crate::told::{Listener, Told};
use site::{are_in_order, are_roles, have_ports_apart};
use site_parts::{Link, Role, Station};
use std::alloc::Allocator;
use std::io;

/// Whether each manager is on BACnet/IP (J.4), and each router has two ports or more (6.6); what is wrong is told.
pub(crate) fn tell_roles<A: Allocator, L: Listener>(
    stations: &[Station<A>],
    out: &mut L,
) -> io::Result<bool>
    ensures { IfOk result (λ b. IsTrue b ↔ AreRoles stations.now) }
{
    let is_sound = are_roles(stations);
    if !is_sound {
        tell_each_role(stations, out)?;
    }
    Ok(is_sound)
}

fn tell_each_role<A: Allocator, L: Listener>(
    stations: &[Station<A>],
    out: &mut L,
) -> io::Result<()> {
    let mut left = stations;
    while let [station, rest @ ..] = left {
        if !are_roles(&left[..1]) {
            let index = stations.len().saturating_sub(left.len());
            tell_role(index, station, out)?;
        }
        left = rest;
    }
    Ok(())
}

fn tell_role<A: Allocator, L: Listener>(
    index: usize,
    station: &Station<A>,
    out: &mut L,
) -> io::Result<()> {
    let named = Named::at(index, station);
    match station.role {
        Role::Manager(_) => out.tell(Told::ManagerOnBus(named).of(named.link(0).key("network"))),
        Role::Router(_) => out.tell(Told::FewPorts(named).of(named.part().whole())),
        Role::Device { .. } | Role::Client { .. } => Ok(()),
    }
}

/// Whether no router has two ports on one network (3.2); each that has is told.
pub(crate) fn tell_ports<A: Allocator, L: Listener>(
    stations: &[Station<A>],
    out: &mut L,
) -> io::Result<bool>
    ensures { IfOk result (λ b. IsTrue b ↔ ArePortsApart stations.now) }
{
    let is_sound = have_ports_apart(stations);
    if !is_sound {
        tell_each_router(stations, out)?;
    }
    Ok(is_sound)
}

fn tell_each_router<A: Allocator, L: Listener>(
    stations: &[Station<A>],
    out: &mut L,
) -> io::Result<()> {
    for (index, station) in stations.iter().enumerate() {
        tell_same_ports(Named::at(index, station), station.role.ports(), out)?;
    }
    Ok(())
}

/// Tells each port that is on the network of an earlier one.
fn tell_same_ports<L: Listener>(router: Named<'_>, ports: &[Link], out: &mut L) -> io::Result<()> {
    for (at, port) in ports.iter().enumerate() {
        let network = port.network();
        let first = ports[..at]
            .iter()
            .position(|other| other.network() == network);
        if let Some(first) = first {
            let (first, second) = (router.link(first), router.link(at));
            let told = Told::SamePort { router, network };
            out.tell(told.of_both(first.key("network"), second.key("network")))?;
        }
    }
    Ok(())
}

/// Whether a port is on a network.
pub(crate) fn has_port_on(network: u16, ports: &[Link]) -> bool {
    ports.iter().any(|port| port.network() == network)
}

/// Whether managers come first, then routers, devices and clients.
pub(crate) fn tell_order<A: Allocator, L: Listener>(
    stations: &[Station<A>],
    out: &mut L,
) -> io::Result<bool>
    ensures { IfOk result (λ b. IsTrue b ↔ AreInOrder 0 stations.now) }
{
    let is_sound = are_in_order(stations);
    if !is_sound {
        out.tell(Told::NoOrder.of(Part::Site.whole()))?;
    }
    Ok(is_sound)
}
