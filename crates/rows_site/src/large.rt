//! Sites of many networks and devices, whose parts are made once: `large tree 250 256 8 -> site` is a chain of 250
//! networks with 256 devices of 8 objects.

use crate::devices::add_crowd;
use bvll::Address;
use object_model::SiteObjects;
use profile::LinkKind;
use sheets::{Counts, Given, Part, Stop, Trial, try_row, two_words};
use site::is_sound;
use site_parts::{Link, Network, Parts, Place, Role, Station};
use std::alloc::Allocator;
use tags::Items;
use words::parse_number;

/// Parts that are judged.
#[derive(Drop)]
struct Large<'p, A: Allocator + Copy> {
    parts: &'p Parts<A>,
    memory: A,
}

impl<'p, 'a, A: Allocator + Copy> Trial<'a> for Large<'p, A> {
    fn answer(&self, given: Given<'a>, _octets: &[u8]) -> Result<String, Stop> {
        let found = if is_sound(self.memory, self.parts)? {
            "site"
        } else {
            "no site"
        };
        Ok(String::from_str(given.alloc, found)?)
    }
}

/// Runs a row.
pub(crate) fn run(given: Given<'_>, words: &str, wanted: &str) -> Result<Counts, Stop> {
    run_within(given, (given.memory, given.other), words, wanted)
}

/// Runs a row on parts that lie in the second memory.
fn run_within<A: Allocator + Copy>(
    given: Given<'_>,
    (memory, other): (A, A),
    words: &str,
    wanted: &str,
) -> Result<Counts, Stop> {
    let parts = parts(other, words)?;
    let large = Large {
        parts: &parts,
        memory,
    };
    try_row(given, &large, &[], wanted)
}

/// A chain of networks, with as many routers as are wanted, and devices on the first one.
fn parts<A: Allocator + Copy>(memory: A, words: &str) -> Result<Parts<A>, Stop> {
    let (form, rest) = two_words(words);
    let (networks, rest) = two_words(rest);
    let (devices, objects) = two_words(rest);
    let networks = parse_number(networks)?;
    let devices = parse_number(devices)?;
    let objects = parse_number(objects)?;
    let mut parts = Parts {
        networks: all_networks(memory, networks)?,
        stations: Items::new(memory),
    };
    add_routers(memory, &mut parts, networks, form)?;
    add_devices(memory, &mut parts, devices, objects)?;
    Ok(parts)
}

fn all_networks<A: Allocator + Copy>(memory: A, count: u16) -> Result<Items<Network, A>, Stop> {
    let mut all = Items::new(memory);
    for number in 0..count {
        all.push(Network {
            number: number.wrapping_add(1),
            link_kind: LinkKind::BacnetIp,
        })?;
    }
    Ok(all)
}

/// A tree has a router from each network to the next; a ring has one from the last to the first besides, and two trees
/// none from the first to the second.
fn add_routers<A: Allocator + Copy>(
    memory: A,
    parts: &mut Parts<A>,
    networks: u16,
    form: &str,
) -> Result<(), Stop> {
    let first = match form {
        "tree" | "ring" => 1,
        "trees" => 2,
        _ => return Err(Stop::Unread(Part::Asked)),
    };
    for network in first..networks {
        add_router(memory, parts, network, network.wrapping_add(1))?;
    }
    if form == "ring" {
        add_router(memory, parts, networks, 1)?;
    }
    Ok(())
}

/// Adds a router between two networks, at ports of its own on 127.0.0.2 and 127.0.0.3.
fn add_router<A: Allocator + Copy>(
    memory: A,
    parts: &mut Parts<A>,
    from: u16,
    to: u16,
) -> Result<(), Stop> {
    let name = format!(in memory; "r{from}")?;
    let mut ports = Items::new(memory);
    ports.push(port(from, from, 2))?;
    ports.push(port(to, from, 3))?;
    parts.stations.push(Station {
        name: Items::from_slice(memory, name.as_bytes())?,
        role: Role::Router(ports),
    })?;
    Ok(())
}

fn port(network: u16, port: u16, host: u8) -> Link {
    Link::Ip {
        network,
        subnet: 1,
        address: Address {
            ip: [127, 0, 0, host],
            port,
        },
    }
}

fn add_devices<A: Allocator + Copy>(
    memory: A,
    parts: &mut Parts<A>,
    devices: u16,
    objects: u32,
) -> Result<(), Stop> {
    for number in 0..devices {
        let station = device(memory, number, objects)?;
        parts.stations.push(station)?;
    }
    Ok(())
}

/// A device on network 1, with so many objects.
fn device<A: Allocator + Copy>(memory: A, number: u16, objects: u32) -> Result<Station<A>, Stop> {
    let name = format!(in memory; "d{number}")?;
    let mut site = SiteObjects {
        name: Items::from_slice(memory, name.as_bytes())?,
        instance: u32::from(number),
        vendor: 260,
        data_link: LinkKind::BacnetIp,
        objects: Items::new(memory),
    };
    add_crowd(memory, &mut site, objects)?;
    Ok(Station {
        name: Items::from_slice(memory, name.as_bytes())?,
        role: Role::Device {
            place: Place::On(port(1, number, 4)),
            objects: site,
        },
    })
}
