//! Which address of a site can't be bound.

use bvll::Address;
use command_files::beginning;
use npdu::Mac;
use site_parts::Station;
use site_text::site_of;
use std::alloc::Global;
use std::io;
use std::io::Write;
use std::net::{Ipv4Addr, Net, SocketAddr, SocketAddrV4, UdpSocket};

/// Binds the address of each station of a site, and tells of the first that can't be bound why not.
pub(crate) fn say_unbound<R: Net, E: Write>(
    host: &R,
    alloc: Global,
    site: &[u8],
    in_colour: bool,
    err: &mut E,
) {
    if let Ok(site) = site_of(alloc, alloc, site) {
        for station in site.stations() {
            if say_if_unbound(host, station, in_colour, err) {
                return;
            }
        }
    }
}

/// Tells which address of a station can't be bound, if there is one.
fn say_if_unbound<R: Net, E: Write>(
    host: &R,
    station: &Station<Global>,
    in_colour: bool,
    err: &mut E,
) -> bool {
    if let Some(foreign) = station.role.beyond() {
        return say_if_taken(host, station, foreign.address, in_colour, err);
    }
    for link in station.role.links() {
        if let Mac::Six(octets) = link.station().mac {
            let address = Address::from_octets(&octets);
            if say_if_taken(host, station, address, in_colour, err) {
                return true;
            }
        }
    }
    false
}

/// Tells that an address of a station can't be bound, if it can't.
fn say_if_taken<R: Net, E: Write>(
    host: &R,
    station: &Station<Global>,
    address: Address,
    in_colour: bool,
    err: &mut E,
) -> bool {
    let Address {
        ip: [a, b, c, d],
        port,
    } = address;
    let place = SocketAddrV4::new(Ipv4Addr::new(a, b, c, d), port);
    let Err(error) = bound(host, place) else {
        return false;
    };
    let beginning = beginning(in_colour);
    let name = std::str::from_utf8(station.name.as_slice()).unwrap_or("");
    let _ = writeln!(err, "{beginning} station {name}: bind {place}: {error}");
    true
}

/// Whether an address can be bound: it is let go at once.
fn bound<R: Net>(host: &R, place: SocketAddrV4) -> io::Result<()> {
    let _socket = UdpSocket::bind(host, SocketAddr::V4(place))?;
    Ok(())
}
