//! Stations by name and by address, and all addresses.

ghost use Rattle.std.specs.Prelude.{◌≡◌, ◌++◌, IfOk, OnOk, bytes_eq, map, option_copied};
ghost use Rattle.std.specs.List.{list_any};
ghost use Rattle.npdu.specs.Mac.{same_station};
ghost use Rattle.site_parts.specs.Places.{station_of};
ghost use Rattle.site_parts.specs.Roles.{beyond, objects_in};
ghost use Rattle.site_views.specs.Views as spec;

use crate::foreigns::foreign_station;
use object_model::SiteObjects;
use site_parts::{Link, Role, Station};
use std::alloc::{AllocError, Allocator};
use tags::Items;

/// Whether two texts are one.
pub(crate) fn is_text(a: &[u8], b: &[u8]) -> bool
    ensures { result ≡ bytes_eq a.now b.now }
{
    a == b
}

/// The station of a name.
pub fn named<'s, A: Allocator>(name: &[u8], stations: &'s [Station<A>]) -> Option<&'s Station<A>>
    ensures { option_copied result ≡ spec.named name.now stations.now }
{
    let mut left = stations;
    while let [first, rest @ ..] = left {
        if is_text(first.name.as_slice(), name) {
            return Some(first);
        }
        left = rest;
    }
    None
}

/// The addresses of all stations in the internetwork, in site order: one for each port of a router, and one of each
/// other station, a foreign one on its manager's network (6.1). In a sound site each is there once.
///
/// # Errors
/// Want of memory.
pub fn addresses<A: Allocator + Copy>(
    alloc: A,
    stations: &[Station<A>],
) -> Result<Items<npdu::Station, A>, AllocError>
    ensures { IfOk result (λ all. all ≡ spec.addresses stations.now) }
{
    let mut all = Items::new(alloc);
    for station in stations {
        put_addresses(&mut all, stations, &station.role)?;
    }
    Ok(all)
}

/// Puts the addresses of a station behind others.
fn put_addresses<A: Allocator>(
    out: &mut Items<npdu::Station, A>,
    all: &[Station<A>],
    role: &Role<A>,
) -> Result<(), AllocError>
    ensures { OnOk result (out.new ≡ out.old ++ spec.addresses_of all.now role.now) }
{
    put_links(out, role.links())?;
    put_foreign(out, all, role)
}

fn put_links<A: Allocator>(
    out: &mut Items<npdu::Station, A>,
    links: &[Link],
) -> Result<(), AllocError>
    ensures { OnOk result (out.new ≡ out.old ++ map station_of links.now) }
{
    for link in links {
        out.push(link.station())?;
    }
    Ok(())
}

fn put_foreign<A: Allocator>(
    out: &mut Items<npdu::Station, A>,
    all: &[Station<A>],
    role: &Role<A>,
) -> Result<(), AllocError>
    ensures { OnOk result (out.new ≡ out.old ++ spec.foreign_stations all.now (beyond role.now)) }
{
    if let Some(station) = foreign_station(all, role) {
        out.push(station)?;
    }
    Ok(())
}

/// The station that is at an address of the internetwork: it stands there on a network, or is a foreign device of a
/// manager there (6.1, J.5).
pub fn at_address<A: Allocator>(
    address: npdu::Station,
    stations: &[Station<A>],
) -> Option<&Station<A>>
    ensures { option_copied result ≡ spec.at_address stations.now address stations.now }
{
    let mut left = stations;
    while let [first, rest @ ..] = left {
        if is_at(stations, address, &first.role) {
            return Some(first);
        }
        left = rest;
    }
    None
}

fn is_at<A: Allocator>(all: &[Station<A>], address: npdu::Station, role: &Role<A>) -> bool
    ensures { result ≡ spec.is_at all.now address role.now }
{
    has_link_at(address, role.links()) || is_foreign_at(all, address, role)
}

fn has_link_at(address: npdu::Station, links: &[Link]) -> bool
    ensures { result ≡ list_any (λ b. same_station b address) (map station_of links.now) }
{
    let mut left = links;
    while let [first, rest @ ..] = left {
        if is_same(first.station(), address) {
            return true;
        }
        left = rest;
    }
    false
}

fn is_foreign_at<A: Allocator>(all: &[Station<A>], address: npdu::Station, role: &Role<A>) -> bool
    ensures { result ≡ list_any (λ b. same_station b address) (spec.foreign_stations all.now (beyond role.now)) }
{
    match foreign_station(all, role) {
        Some(station) => is_same(station, address),
        None => false,
    }
}

fn is_same(a: npdu::Station, b: npdu::Station) -> bool
    ensures { result ≡ same_station a b }
{
    a == b
}

/// The objects that a device opens with, as a copy in memory of `alloc`; no other station has any (12).
///
/// # Errors
/// Want of memory.
pub fn opening_objects<A: Allocator + Copy>(
    alloc: A,
    station: &Station<A>,
) -> Result<Option<SiteObjects<A>>, AllocError>
    ensures { IfOk result (λ objects. objects ≡ objects_in station.now.role) }
{
    match station.role.objects() {
        Some(objects) => Ok(Some(objects.copy(alloc)?)),
        None => Ok(None),
    }
}
