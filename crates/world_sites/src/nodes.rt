//! The nodes of a site, as they open.

ghost use Rattle.std.specs.Prelude.{◌≡◌, ◌++◌, ◌∷◌, [], IfErr, IfOk, OnOk};
ghost use Rattle.std.specs.List.{flat_map};
ghost use Rattle.site.specs.Sound.{IsSound};
ghost use Rattle.world_sites.specs.Fit.{AreFit, IsFit};
ghost use Rattle.world_sites.specs.Opening.{opening_nodes, opens};

use crate::relays::{put_manager, put_router};
use crate::stations::{put_client, put_device};
use node_laws::{Part, SiteNode, SitePort};
use site::Site;
use site_parts::{Role, Station};
use std::alloc::{AllocError, Allocator};
use tags::{Fault, Octets};

/// Returns the nodes of a site as they open, in the order of its stations, whose memory will be that of `alloc`.
///
/// A device or a client has one port, which reaches the other members of its subnet in the order of the site (J.4.5),
/// or all of its network by the manager at which it registers (J.5), or is on a bus, where its node has not yet heard
/// anything (9.5.6). A device has the objects that the site gives it (12); a client is bound to no device and has asked
/// nothing (5.4.4). A manager knows the members of its subnet and the managers of its network, and serves no foreign
/// device (J.4.3); a router knows its own networks alone, and has not woken (6.6.2).
///
/// # Errors
/// `Memory` alone.
#[tactic(auto, using(crate::proofs::FitLaws::fit_rules))]
pub fn nodes_of<A: Allocator + Copy>(alloc: A, site: &Site<A>) -> Result<Vec<SiteNode<A>, A>, Fault>
    ensures nodes { IfOk result (λ out. out.items ≡ opening_nodes site.now) }
    ensures sound { OnOk result (IsSound site.now) }
    ensures cause { IfErr result (λ fault. fault ≡ Fault.Memory) }
{
    let stations = site.stations();
    let nodes = nodes_in(alloc, stations, stations)?;
    Ok(nodes)
}

/// Returns these stations as nodes, as they open among all of their site.
///
/// # Errors
/// `Memory` alone.
fn nodes_in<A: Allocator + Copy>(
    alloc: A,
    all: &[Station<A>],
    stations: &[Station<A>],
) -> Result<Vec<SiteNode<A>, A>, Fault>
    requires fit { AreFit all.now stations.now }
    ensures nodes { IfOk result (λ out. out.items ≡ flat_map (λ s. opens all.now s.name s.role) stations.now) }
    ensures cause { IfErr result (λ fault. fault ≡ Fault.Memory) }
{
    let mut out = Vec::new(alloc);
    let mut left = stations;
    while let [first, rest @ ..] = left {
        put_node(&mut out, alloc, all, first)?;
        left = rest;
    }
    Ok(out)
}

/// Puts a station as it opens behind other nodes.
fn put_node<A: Allocator + Copy>(
    out: &mut Vec<SiteNode<A>, A>,
    alloc: A,
    all: &[Station<A>],
    station: &Station<A>,
) -> Result<(), Fault>
    requires fit { IsFit all.now station.now.role }
    ensures put { OnOk result (out.new.items ≡ out.old.items ++ opens all.now station.now.name station.now.role) }
    ensures cause { IfErr result (λ fault. fault ≡ Fault.Memory) }
{
    let name = station.name.as_slice();
    match &station.role {
        Role::Manager(link) => put_manager(out, alloc, all, name, *link),
        Role::Router(links) => {
            put_router(out, alloc, all, name, links.as_slice())?;
            Ok(())
        }
        Role::Device { place, objects } => put_device(out, alloc, all, name, place, objects),
        Role::Client { place, segmented } => {
            put_client(out, alloc, all, name, place, *segmented)?;
            Ok(())
        }
    }
}

/// Puts a node of a name with these ports behind others.
pub(crate) fn put_part<A: Allocator + Copy>(
    out: &mut Vec<SiteNode<A>, A>,
    alloc: A,
    name: &[u8],
    ports: Vec<SitePort<A>, A>,
    part: Part<A>,
) -> Result<(), AllocError>
    ensures { OnOk result
        (out.new.items ≡ out.old.items ++ record { name = name.now; ports = ports.items; part = part } ∷ []) }
{
    let name = Octets::from_slice(alloc, name)?;
    out.push(SiteNode::new(alloc, name, ports, part))?;
    Ok(())
}
