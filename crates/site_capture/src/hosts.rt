//! The names of a site's stations in a capture: for addresses of IP, and for the nodes of a bus.

use captures::write_name;
use mstp_frame::Frame;
use npdu::Mac;
use site_parts::Station;
use site_trace::NameAt;
use site_views::{addresses, at_address};
use std::alloc::{AllocError, Allocator};
use tags::Fault;

/// Appends the name of each station for an address of IP that it alone has.
///
/// # Errors
/// `Memory`, and `TooLong` for a name of over 255 octets, which no site has.
pub(crate) fn put_names<A: Allocator + Copy, B: Allocator>(
    alloc: A,
    stations: &[Station<A>],
    file: &mut Vec<u8, B>,
) -> Result<(), Fault> {
    let all = addresses(alloc, stations)?;
    let mut place = 0usize;
    for address in all.as_slice() {
        if let Some(ip) = ip_of(address.mac) {
            if let Some(station) = owner_of(*address, place, all.as_slice(), stations) {
                write_name(ip, station.name.as_slice(), file)?;
            }
        }
        place = place.saturating_add(1);
    }
    Ok(())
}

/// The address of IP in an address of BACnet/IP (J.1.2).
fn ip_of(mac: Mac) -> Option<[u8; 4]> {
    match mac {
        Mac::Six(octets) => {
            let [a, b, c, d, _, _] = octets;
            Some([a, b, c, d])
        }
        Mac::One(_) => None,
    }
}

/// The station at an address, the one at a place of all, where that is the first with its address of IP, and all with
/// it are the station's.
fn owner_of<'s, A: Allocator>(
    address: npdu::Station,
    place: usize,
    all: &[npdu::Station],
    stations: &'s [Station<A>],
) -> Option<&'s Station<A>> {
    let owner = at_address(address, stations)?;
    let mut at = 0usize;
    for other in all {
        if ip_of(other.mac) == ip_of(address.mac) {
            if at < place {
                return None;
            }
            let station = at_address(*other, stations)?;
            if station.name.as_slice() != owner.name.as_slice() {
                return None;
            }
        }
        at = at.saturating_add(1);
    }
    Some(owner)
}

/// Who says a frame on the bus of a network to whom, by their names: `router to box`; nothing where it is no frame.
///
/// # Errors
/// Want of memory.
pub(crate) fn ends_of<A: Allocator + Copy>(
    alloc: A,
    net: u16,
    octets: &[u8],
    stations: &[Station<A>],
) -> Result<String<A>, AllocError> {
    let Some(frame) = Frame::read(octets) else {
        return Ok(String::new(alloc));
    };
    let from = NameAt {
        address: npdu::Station {
            net,
            mac: Mac::One(frame.source),
        },
        stations,
    };
    if frame.destination == ALL_NODES {
        return format!(in alloc; "{from} to all");
    }
    let to = NameAt {
        address: npdu::Station {
            net,
            mac: Mac::One(frame.destination),
        },
        stations,
    };
    format!(in alloc; "{from} to {to}")
}

/// The destination of a frame that is for all nodes of its bus (9.3).
const ALL_NODES: u8 = 255;
