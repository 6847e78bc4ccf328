//! The ports of a site's stations, as they open.

ghost use Rattle.std.specs.Prelude.{◌≡◌, ◌++◌, ◌∷◌, [], IfOk, OnOk};
ghost use Rattle.world_sites.specs.Opening as spec;
ghost use Rattle.bbmd_tables.specs.Tables.{others};
ghost use Rattle.link_ip.specs.Port.{new_port};
ghost use Rattle.link_ip.specs.declared.port.Reach.TheVariants as reach;
ghost use Rattle.site_views.specs.Views as views;
ghost use Rattle.site_views.specs.Views.{host, managed_at};

use bbmd_tables::append_others;
use bvll::Address;
use link_ip::{IpPort, Reach};
use node_laws::SitePort;
use node_laws::link_bus::BusPort;
use site::SubnetId;
use site_parts::{Foreign, Link, Place, Role, Station};
use site_views::{members, named};
use std::alloc::{AllocError, Allocator};
use tags::Items;

/// The port at an address of a subnet, which reaches the other members, in the order of the site (J.4.5).
///
/// # Errors
/// Want of memory.
fn ip_port<A: Allocator + Copy>(
    alloc: A,
    all: &[Station<A>],
    subnet: SubnetId,
    address: Address,
) -> Result<IpPort<A>, AllocError>
    ensures { IfOk result (λ port. port ≡ new_port subnet.network address
        (reach.Members (others address (views.members subnet all.now)))) }
{
    let members = members(alloc, subnet, all)?;
    let mut others = Vec::new(alloc);
    append_others(&mut others, address, members.as_slice())?;
    let reach = Reach::Members(Items::from_vec(others));
    Ok(IpPort::new(alloc, subnet.network, address, reach))
}

/// The port at a link (9.5, J.4.5).
///
/// # Errors
/// Want of memory.
fn port_at<A: Allocator + Copy>(
    alloc: A,
    all: &[Station<A>],
    link: Link,
) -> Result<SitePort<A>, AllocError>
    ensures { IfOk result (λ port. port ≡ spec.port_at all.now link) }
{
    match link {
        Link::Ip {
            network,
            subnet,
            address,
        } => {
            let subnet = SubnetId {
                network,
                number: subnet,
            };
            Ok(SitePort::Ip(ip_port(alloc, all, subnet, address)?))
        }
        Link::Bus { network, mac } => Ok(SitePort::Bus(BusPort::new(alloc, network, mac, 0))),
    }
}

/// Where a manager is; no other station manages (J.4).
fn managed_at<A: Allocator>(role: &Role<A>) -> Option<Link>
    ensures { result ≡ managed_at role.now }
{
    match role {
        Role::Manager(link) => Some(*link),
        Role::Router(_) | Role::Device { .. } | Role::Client { .. } => None,
    }
}

/// Where the manager of a name is, if there is one (J.4).
#[tactic(auto, using(crate::proofs::PortLaws::host_rules))]
fn host_of<A: Allocator>(name: &[u8], all: &[Station<A>]) -> Option<Link>
    ensures { result ≡ host name.now all.now }
{
    match named(name, all) {
        Some(station) => managed_at(&station.role),
        None => None,
    }
}

/// The port of a foreign device, which reaches all of its network by its manager (J.5).
fn foreign_port<A: Allocator + Copy>(
    alloc: A,
    foreign: &Foreign<A>,
    host: Option<Link>,
) -> Option<SitePort<A>>
    ensures { result ≡ spec.foreign_port foreign.now host }
{
    match host {
        Some(
            Link::Ip {
                network,
                address,
                ..
            },
        ) => {
            let reach = Reach::Foreign {
                manager: address,
                seconds_to_live: foreign.seconds_to_live,
            };
            let port = IpPort::new(alloc, network, foreign.address, reach);
            Some(SitePort::Ip(port))
        }
        Some(Link::Bus { .. }) | None => None,
    }
}

/// The port of a device or a client at a place among all stations of its site.
///
/// # Errors
/// Want of memory.
pub(crate) fn place_port<A: Allocator + Copy>(
    alloc: A,
    all: &[Station<A>],
    place: &Place<A>,
) -> Result<Option<SitePort<A>>, AllocError>
    ensures { IfOk result (λ port. port ≡ spec.place_port all.now place.now) }
{
    match place {
        Place::On(link) => Ok(Some(port_at(alloc, all, *link)?)),
        Place::Beyond(foreign) => {
            let host = host_of(foreign.manager.as_slice(), all);
            Ok(foreign_port(alloc, foreign, host))
        }
    }
}

/// Puts the port at a link behind others.
fn put_port<A: Allocator + Copy>(
    out: &mut Vec<SitePort<A>, A>,
    alloc: A,
    all: &[Station<A>],
    link: &Link,
) -> Result<(), AllocError>
    ensures { OnOk result (out.new.items ≡ out.old.items ++ spec.port_at all.now link.now ∷ []) }
{
    let port = port_at(alloc, all, *link)?;
    out.push(port)?;
    Ok(())
}

/// The ports of a router at these links among all stations of its site, in order (6.6.1).
///
/// # Errors
/// Want of memory.
pub(crate) fn ports_at<A: Allocator + Copy>(
    alloc: A,
    all: &[Station<A>],
    links: &[Link],
) -> Result<Vec<SitePort<A>, A>, AllocError>
    ensures { IfOk result (λ ports. ports.items ≡ spec.ports_at all.now links.now) }
{
    let mut ports = Vec::new(alloc);
    for link in links {
        put_port(&mut ports, alloc, all, link)?;
    }
    Ok(ports)
}
