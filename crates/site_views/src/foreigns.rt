//! Foreign devices and their managers (J.5).

ghost use Rattle.std.specs.Prelude.{◌≡◌, ◌++◌, IfOk, OnOk, option_to_list};
ghost use Rattle.site_parts.specs.Roles.{beyond};
ghost use Rattle.site_views.specs.Views as spec;

use crate::stations::is_text;
use bvll::Address;
use npdu::Mac;
use site_parts::{Foreign, Link, Role, Station};
use std::alloc::{AllocError, Allocator};
use tags::Items;

/// A foreign device: its address, that of the manager where it registers, and for how many seconds, 1 to 65535 (J.5.2).
#[derive(Clone, Copy, Debug, PartialEq, Eq)]
pub struct ForeignStation {
    pub address: Address,
    pub manager: Address,
    pub seconds_to_live: u16,
}

/// Where a manager is; no other station manages (J.4).
pub(crate) fn managed_at<A: Allocator>(role: &Role<A>) -> Option<Link>
    ensures { result ≡ spec.managed_at role.now }
{
    match role {
        Role::Manager(link) => Some(*link),
        Role::Router(_) | Role::Device { .. } | Role::Client { .. } => None,
    }
}

/// The address of a link, where it is on BACnet/IP.
pub(crate) fn address_of(link: Link) -> Option<Address>
    ensures { result ≡ spec.address_at link }
{
    match link {
        Link::Ip { address, .. } => Some(address),
        Link::Bus { .. } => None,
    }
}

/// Where the manager of a name is.
fn host<A: Allocator>(name: &[u8], stations: &[Station<A>]) -> Option<Link>
    ensures { result ≡ spec.host name.now stations.now }
{
    let mut left = stations;
    while let [first, rest @ ..] = left {
        if is_text(first.name.as_slice(), name) {
            return managed_at(&first.role);
        }
        left = rest;
    }
    None
}

/// The station of the internetwork that a foreign device is: one of its manager's network.
pub(crate) fn foreign_station<A: Allocator>(
    all: &[Station<A>],
    role: &Role<A>,
) -> Option<npdu::Station>
    ensures { option_to_list result ≡ spec.foreign_stations all.now (beyond role.now) }
{
    let foreign = role.beyond()?;
    let link = host(foreign.manager.as_slice(), all)?;
    Some(npdu::Station {
        net: link.network(),
        mac: Mac::Six(foreign.address.to_octets()),
    })
}

/// The foreign devices of a site in its order, each with its manager and the seconds that it asks for (J.5.2).
///
/// # Errors
/// Want of memory.
pub fn foreign_stations<A: Allocator + Copy>(
    alloc: A,
    stations: &[Station<A>],
) -> Result<Items<ForeignStation, A>, AllocError>
    ensures { IfOk result (λ all. all ≡ spec.foreigns stations.now) }
{
    let mut all = Items::new(alloc);
    for station in stations {
        put_foreign(&mut all, stations, &station.role)?;
    }
    Ok(all)
}

fn put_foreign<A: Allocator>(
    out: &mut Items<ForeignStation, A>,
    all: &[Station<A>],
    role: &Role<A>,
) -> Result<(), AllocError>
    ensures { OnOk result (out.new ≡ out.old ++ spec.foreign_of all.now (beyond role.now)) }
{
    if let Some(station) = foreign_of(all, role) {
        out.push(station)?;
    }
    Ok(())
}

fn foreign_of<A: Allocator>(all: &[Station<A>], role: &Role<A>) -> Option<ForeignStation>
    ensures { option_to_list result ≡ spec.foreign_of all.now (beyond role.now) }
{
    let foreign = role.beyond()?;
    let manager = host_address(host(foreign.manager.as_slice(), all))?;
    Some(ForeignStation {
        address: foreign.address,
        manager,
        seconds_to_live: foreign.seconds_to_live,
    })
}

fn host_address(link: Option<Link>) -> Option<Address>
    ensures { result ≡ spec.host_address link }
{
    match link {
        Some(link) => address_of(link),
        None => None,
    }
}
