//! Networks and routers as one tree.

ghost use Rattle.std.specs.Prelude.{◌↔◌, IfOk, IsTrue};
ghost use Rattle.site_faults.specs.Linked.{IsLinkedTree};

use crate::part::Part;
use crate::roles::has_port_on;
use crate::shown::Named;
use crate::told::{Listener, Told};
use site::are_linked;
use site_parts::{Link, Network, Station};
use site_tree::is_one_tree;
use std::alloc::{AllocError, Allocator};
use std::io;

/// Whether each place is on a network that is there, and networks and routers form one tree (3.2). What is wrong with
/// the tree is told; with a place off all networks there is none.
pub(crate) fn tell_tree<A: Allocator + Copy, L: Listener>(
    alloc: A,
    networks: &[Network],
    stations: &[Station<A>],
    out: &mut L,
) -> io::Result<bool>
    ensures { IfOk result (λ b. IsTrue b ↔ IsLinkedTree networks.now stations.now) }
{
    if !are_linked(networks, stations) {
        return Ok(false);
    }
    let is_sound = is_one_tree(alloc, networks, stations)?;
    if !is_sound {
        tell_no_tree(alloc, networks, stations, out)?;
    }
    Ok(is_sound)
}

/// A network, and the one that stands for all that routers join to it.
#[derive(Clone, Copy)]
struct Joined {
    network: u16,
    group: u16,
}

/// Tells each port that closes a ring, and each network to which no router leads from the first.
fn tell_no_tree<A: Allocator + Copy, L: Listener>(
    alloc: A,
    networks: &[Network],
    stations: &[Station<A>],
    out: &mut L,
) -> io::Result<()> {
    let mut all = each_apart(alloc, networks)?;
    for (index, station) in stations.iter().enumerate() {
        join_ports(
            Named::at(index, station),
            station.role.ports(),
            &mut all,
            out,
        )?;
    }
    tell_apart(all.as_slice(), out)
}

/// The networks as they are without routers.
fn each_apart<A: Allocator>(alloc: A, networks: &[Network]) -> Result<Vec<Joined, A>, AllocError> {
    let mut all = Vec::new(alloc);
    for network in networks {
        all.push(Joined {
            network: network.number,
            group: network.number,
        })?;
    }
    Ok(all)
}

/// Joins the networks of a router's ports, and tells each port whose network is joined to those before already.
fn join_ports<L: Listener>(
    router: Named<'_>,
    ports: &[Link],
    all: &mut [Joined],
    out: &mut L,
) -> io::Result<()> {
    let [first, ..] = ports else {
        return Ok(());
    };
    for (at, port) in ports.iter().enumerate() {
        let network = port.network();
        if !has_port_on(network, &ports[..at]) {
            let is_new = join(first.network(), network, all);
            if at > 0 && !is_new {
                let port = router.link(at);
                out.tell(Told::Ring { router, network }.of(port.key("network")))?;
            }
        }
    }
    Ok(())
}

/// Joins two networks, and tells whether they were apart.
fn join(first: u16, second: u16, all: &mut [Joined]) -> bool {
    let to = group_of(first, all);
    let from = group_of(second, all);
    for at in 0..all.len() {
        if all[at].group == from {
            all[at].group = to;
        }
    }
    from != to
}

/// The network that stands for those to which one is joined.
fn group_of(network: u16, all: &[Joined]) -> u16 {
    match all.iter().find(|joined| joined.network == network) {
        Some(joined) => joined.group,
        None => network,
    }
}

/// Tells each network that is not joined to the first.
fn tell_apart<L: Listener>(all: &[Joined], out: &mut L) -> io::Result<()> {
    let [first, others @ ..] = all else {
        return Ok(());
    };
    for (at, other) in others.iter().enumerate() {
        if other.group != first.group {
            let told = Told::Apart {
                first: first.network,
                network: other.network,
            };
            out.tell(told.of(Part::Network(at.saturating_add(1)).whole()))?;
        }
    }
    Ok(())
}
