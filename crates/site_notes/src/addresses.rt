//! Addresses that no station can have.

use crate::note::{Shown, SiteNote, Unfit, tell_site};
use bvll::Address;
use site_parts::{Link, Parts, Station};
use std::alloc::Allocator;
use std::io;
use std::io::Write;

/// Whether a station of a site has an address that it can't be reached at; each is told.
pub(crate) fn tell_addresses<A: Allocator, W: Write>(
    parts: &Parts<A>,
    out: &mut W,
) -> io::Result<bool> {
    let mut is_told = false;
    for station in parts.stations.as_slice() {
        for link in station.role.links() {
            if let Link::Ip { address, .. } = link {
                is_told = tell_address(station, *address, out)? || is_told;
            }
        }
        if let Some(foreign) = station.role.beyond() {
            is_told = tell_address(station, foreign.address, out)? || is_told;
        }
    }
    Ok(is_told)
}

/// Whether a station can't be reached at an address, which is told.
fn tell_address<A: Allocator, W: Write>(
    station: &Station<A>,
    address: Address,
    out: &mut W,
) -> io::Result<bool> {
    let Some(unfit) = unfit(address) else {
        return Ok(false);
    };
    let station = std::str::from_utf8(station.name.as_slice()).unwrap_or("?");
    let address = Shown(address);
    let note = SiteNote::Address {
        station,
        address,
        unfit,
    };
    tell_site(note, out)?;
    Ok(true)
}

/// Why no station is reached at an address.
fn unfit(address: Address) -> Option<Unfit> {
    match address.ip {
        [0, 0, 0, 0] => Some(Unfit::Unspecified),
        [255, 255, 255, 255] => Some(Unfit::Broadcast),
        [224..=239, _, _, _] => Some(Unfit::Multicast),
        _ if address.port == 0 => Some(Unfit::Port),
        _ => None,
    }
}
