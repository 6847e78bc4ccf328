//! The parts of sites (ANSI/ASHRAE 135, clauses 3.2, 6, 9, 12 and J): networks, and the stations on them.

use bvll::Address;
use object_model::{SiteObject, SiteObjects, ValueKind};
use profile::LinkKind;
use site_parts::{Link, Network, Parts, Place, Role, Station};
use std::alloc::{AllocError, Allocator};
use tags::{Items, Value};

/// So many networks of this kind, with the numbers from 1 on.
pub(crate) fn networks<A: Allocator + Copy>(
    alloc: A,
    count: u16,
    link_kind: LinkKind,
) -> Result<Items<Network, A>, AllocError> {
    let mut all = Items::new(alloc);
    for number in 1..=count {
        all.push(Network { number, link_kind })?;
    }
    Ok(all)
}

/// The place on the one subnet of a network at this port of 127.0.0.0 and so many.
pub(crate) fn on_ip(network: u16, host: u8, port: u16) -> Link {
    Link::Ip {
        network,
        subnet: 1,
        address: Address {
            ip: [127, 0, 0, host],
            port,
        },
    }
}

/// The router from a network to the next, at ports of its own on 127.0.0.2 and 127.0.0.3.
fn router<A: Allocator + Copy>(alloc: A, network: u16) -> Result<Station<A>, AllocError> {
    let name = format!(in alloc; "r{network}")?;
    let mut ports = Items::new(alloc);
    ports.push(on_ip(network, 2, network))?;
    ports.push(on_ip(network.saturating_add(1), 3, network))?;
    Ok(Station {
        name: Items::from_slice(alloc, name.as_bytes())?,
        role: Role::Router(ports),
    })
}

/// A Binary Value, named by its instance.
fn object<A: Allocator + Copy>(alloc: A, instance: u32) -> Result<SiteObject<A>, AllocError> {
    let name = format!(in alloc; "{instance}")?;
    Ok(SiteObject {
        kind: ValueKind::Binary,
        instance,
        name: Items::from_slice(alloc, name.as_bytes())?,
        default: Value::Enum(0),
        description: Items::new(alloc),
    })
}

/// The device of this number at a place, with so many objects, whose instances begin with 1.
pub(crate) fn device<A: Allocator + Copy>(
    alloc: A,
    number: u16,
    link: Link,
    count: u32,
) -> Result<Station<A>, AllocError> {
    let name = format!(in alloc; "d{number}")?;
    let mut objects = Items::new(alloc);
    for instance in 1..=count {
        objects.push(object(alloc, instance)?)?;
    }
    Ok(Station {
        name: Items::from_slice(alloc, name.as_bytes())?,
        role: Role::Device {
            place: Place::On(link),
            objects: SiteObjects {
                name: Items::from_slice(alloc, name.as_bytes())?,
                instance: u32::from(number),
                vendor: 260,
                data_link: link.link_kind(),
                objects,
            },
        },
    })
}

/// The client of this number at a place, which takes answers in segments.
pub(crate) fn client<A: Allocator + Copy>(
    alloc: A,
    number: u16,
    link: Link,
) -> Result<Station<A>, AllocError> {
    let name = format!(in alloc; "c{number}")?;
    Ok(Station {
        name: Items::from_slice(alloc, name.as_bytes())?,
        role: Role::Client {
            place: Place::On(link),
            segmented: true,
        },
    })
}

/// A chain of so many networks with a router between each two, devices on the first and a client on the last.
pub(crate) fn chain<A: Allocator + Copy>(
    alloc: A,
    count: u16,
    devices: u16,
    objects: u32,
) -> Result<Parts<A>, AllocError> {
    let mut stations = Items::new(alloc);
    for network in 1..count {
        stations.push(router(alloc, network)?)?;
    }
    for number in 1..=devices {
        stations.push(device(alloc, number, on_ip(1, 4, number), objects)?)?;
    }
    stations.push(client(alloc, 1, on_ip(count, 5, 1))?)?;
    let networks = networks(alloc, count, LinkKind::BacnetIp)?;
    Ok(Parts { networks, stations })
}
