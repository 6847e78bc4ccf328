//! The parts of a site in words: `network 1 ip`, `bbmd a 1/1/127.0.0.1:47808`, `router r 1/1/127.0.0.1:47808 2/1`,
//! `device d 1/1/127.0.0.1:47811 10 vendor 0`, with its objects behind it, and `client c 2/5`, `client c 2/5 whole` for
//! one that takes no segments.

use bvll::Address;
use object_model::{SiteObject, SiteObjects, ValueKind};
use profile::LinkKind;
use sheets::Stop;
use site_parts::{Link, Network, Parts, Place, Role, Station};
use std::alloc::Allocator;
use words::{Hex, Words};

/// Appends the parts.
pub(crate) fn push_parts<A: Allocator>(parts: &Parts<A>, out: &mut String) -> Result<(), Stop> {
    let mut before = "";
    for network in parts.networks.as_slice() {
        out.push_str(before)?;
        push_network(*network, out)?;
        before = "; ";
    }
    for station in parts.stations.as_slice() {
        out.push_str(before)?;
        push_station(station, out)?;
        before = "; ";
    }
    Ok(())
}

fn push_network(network: Network, out: &mut String) -> Result<(), Stop> {
    let kind = kind_of(network.link_kind);
    write!(out, "network {} {kind}", network.number)?;
    Ok(())
}

fn kind_of(kind: LinkKind) -> &'static str {
    match kind {
        LinkKind::BacnetIp => "ip",
        LinkKind::MsTp => "mstp",
    }
}

fn push_station<A: Allocator>(station: &Station<A>, out: &mut String) -> Result<(), Stop> {
    let name = station.name.as_slice();
    match &station.role {
        Role::Manager(link) => {
            push_named("bbmd", name, out)?;
            push_link(*link, out)
        }
        Role::Router(ports) => {
            push_named("router", name, out)?;
            push_ports(ports.as_slice(), out)
        }
        Role::Device { place, objects } => {
            push_named("device", name, out)?;
            push_place(place, out)?;
            push_device(name, objects, out)
        }
        Role::Client { place, segmented } => {
            push_named("client", name, out)?;
            push_place(place, out)?;
            out.push_str(if *segmented { "" } else { " whole" })?;
            Ok(())
        }
    }
}

/// What a station is, and its name.
fn push_named(word: &str, name: &[u8], out: &mut String) -> Result<(), Stop> {
    out.push_str(word)?;
    out.push(' ')?;
    push_text(name, out)
}

/// Octets of UTF-8 as they stand.
fn push_text(octets: &[u8], out: &mut String) -> Result<(), Stop> {
    match std::str::from_utf8(octets) {
        Ok(text) => out.push_str(text)?,
        Err(_) => write!(out, "{}", Hex(octets))?,
    }
    Ok(())
}

fn push_ports(ports: &[Link], out: &mut String) -> Result<(), Stop> {
    for port in ports {
        push_link(*port, out)?;
    }
    Ok(())
}

fn push_address(address: Address, out: &mut String) -> Result<(), Stop> {
    let [a, b, c, d] = address.ip;
    write!(out, "{a}.{b}.{c}.{d}:{}", address.port)?;
    Ok(())
}

fn push_link(link: Link, out: &mut String) -> Result<(), Stop> {
    match link {
        Link::Ip {
            network,
            subnet,
            address,
        } => {
            write!(out, " {network}/{subnet}/")?;
            push_address(address, out)
        }
        Link::Bus { network, mac } => {
            write!(out, " {network}/{mac}")?;
            Ok(())
        }
    }
}

fn push_place<A: Allocator>(place: &Place<A>, out: &mut String) -> Result<(), Stop> {
    let foreign = match place {
        Place::On(link) => return push_link(*link, out),
        Place::Beyond(foreign) => foreign,
    };
    out.push_str(" at ")?;
    push_text(foreign.manager.as_slice(), out)?;
    write!(out, " for {} from ", foreign.seconds_to_live)?;
    push_address(foreign.address, out)?;
    if let Some(network) = foreign.network {
        write!(out, " on {network}")?;
    }
    Ok(())
}

/// A device's instance and vendor, and its objects. Its name and kind of link are those of its station.
fn push_device<A: Allocator>(
    name: &[u8],
    objects: &SiteObjects<A>,
    out: &mut String,
) -> Result<(), Stop> {
    if objects.name.as_slice() != name {
        out.push_str(" of another name")?;
    }
    let kind = kind_of(objects.data_link);
    write!(
        out,
        " {} vendor {} {kind}",
        objects.instance, objects.vendor
    )?;
    for object in objects.objects.as_slice() {
        push_object(object, out)?;
    }
    Ok(())
}

fn push_object<A: Allocator>(object: &SiteObject<A>, out: &mut String) -> Result<(), Stop> {
    match object.kind {
        ValueKind::Binary => out.push_str(" [5:")?,
        ValueKind::MultiState { number_of_states } => write!(out, " [19/{number_of_states}:")?,
        ValueKind::CharacterString => out.push_str(" [40:")?,
        ValueKind::Integer { units } => write!(out, " [45/{units}:")?,
    }
    write!(out, "{} ", object.instance)?;
    push_text(object.name.as_slice(), out)?;
    write!(out, " {}", Words(&object.default))?;
    if !object.description.is_empty() {
        out.push_str(" described ")?;
        push_text(object.description.as_slice(), out)?;
    }
    out.push(']')?;
    Ok(())
}
