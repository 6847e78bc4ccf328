//! Networks and stations.

use crate::object::{INSTANCE, objects};
use crate::place::{NETWORK, link, place};
use crate::row::{Range, Row, Stop, octets};
use crate::unread::KeyFault;
use object_model::SiteObjects;
use profile::LinkKind;
use site_parts::{Link, Network, Role, Station};
use std::alloc::Allocator;
use tags::Items;

/// Identifiers of vendors (12.11).
pub const VENDOR: Range = Range {
    least: 0,
    greatest: 65_535,
};

/// The networks of a document, in their order.
pub(crate) fn networks<'t, A: Allocator + Copy>(
    alloc: A,
    document: Row<'t>,
) -> Result<Items<Network, A>, Stop<'t>> {
    if !document.has("network") {
        return Err(document.refuse("network", KeyFault::Missing));
    }
    let mut all = Items::new(alloc);
    for (index, value) in document.rows("network")?.iter().enumerate() {
        all.push(network(document.row("network", index, value)?)?)?;
    }
    Ok(all)
}

fn network(row: Row<'_>) -> Result<Network, Stop<'_>> {
    row.only(&["number", "kind"])?;
    let number = row.some_number("number", NETWORK)?;
    match row.some_text("kind")? {
        "ip" => Ok(Network {
            number,
            link_kind: LinkKind::BacnetIp,
        }),
        "mstp" => Ok(Network {
            number,
            link_kind: LinkKind::MsTp,
        }),
        _ => Err(row.refuse("kind", KeyFault::NoKind)),
    }
}

/// The stations of a document in the order of a site: broadcast managers, routers, devices, clients.
pub(crate) fn stations<'t, A: Allocator + Copy>(
    alloc: A,
    document: Row<'t>,
) -> Result<Items<Station<A>, A>, Stop<'t>> {
    let mut all = Items::new(alloc);
    put_stations(alloc, document, "bbmd", &mut all)?;
    put_stations(alloc, document, "router", &mut all)?;
    put_stations(alloc, document, "device", &mut all)?;
    put_stations(alloc, document, "client", &mut all)?;
    Ok(all)
}

/// Puts the stations of an array behind others.
fn put_stations<'t, A: Allocator + Copy>(
    alloc: A,
    document: Row<'t>,
    array: &'t str,
    all: &mut Items<Station<A>, A>,
) -> Result<(), Stop<'t>> {
    for (index, value) in document.rows(array)?.iter().enumerate() {
        let row = document.row(array, index, value)?;
        let role = role(alloc, row, array)?;
        let name = octets(alloc, row.name("name")?)?;
        all.push(Station { name, role })?;
    }
    Ok(())
}

/// What a station is that stands in an array.
fn role<'t, A: Allocator + Copy>(alloc: A, row: Row<'t>, array: &str) -> Result<Role<A>, Stop<'t>> {
    match array {
        "bbmd" => manager(row),
        "router" => router(alloc, row),
        "device" => device(alloc, row),
        _ => client(alloc, row),
    }
}

fn manager<A: Allocator + Copy>(row: Row<'_>) -> Result<Role<A>, Stop<'_>> {
    row.only(&["name", "network", "subnet", "address"])?;
    Ok(Role::Manager(link(row)?))
}

fn router<'t, A: Allocator + Copy>(alloc: A, row: Row<'t>) -> Result<Role<A>, Stop<'t>> {
    row.only(&["name", "port"])?;
    if !row.has("port") {
        return Err(row.refuse("port", KeyFault::Missing));
    }
    let mut ports = Items::new(alloc);
    for (index, value) in row.rows("port")?.iter().enumerate() {
        ports.push(port(row.row("port", index, value)?)?)?;
    }
    Ok(Role::Router(ports))
}

fn port(row: Row<'_>) -> Result<Link, Stop<'_>> {
    row.only(&["network", "subnet", "address", "mac"])?;
    link(row)
}

fn device<'t, A: Allocator + Copy>(alloc: A, row: Row<'t>) -> Result<Role<A>, Stop<'t>> {
    row.only(&[
        "name", "instance", "vendor", "object", "network", "subnet", "address", "mac", "foreign",
        "ttl",
    ])?;
    let instance = row.some_number("instance", INSTANCE)?;
    let vendor = row.number("vendor", VENDOR)?.unwrap_or(0);
    let name = octets(alloc, row.name("name")?)?;
    let place = place(alloc, row)?;
    let objects = objects(alloc, row)?;
    Ok(Role::Device {
        objects: SiteObjects {
            name,
            instance,
            vendor,
            data_link: place.link_kind(),
            objects,
        },
        place,
    })
}

fn client<'t, A: Allocator + Copy>(alloc: A, row: Row<'t>) -> Result<Role<A>, Stop<'t>> {
    row.only(&[
        "name",
        "segmented",
        "network",
        "subnet",
        "address",
        "mac",
        "foreign",
        "ttl",
    ])?;
    let segmented = row.flag("segmented")?.unwrap_or(true);
    let place = place(alloc, row)?;
    Ok(Role::Client { place, segmented })
}
