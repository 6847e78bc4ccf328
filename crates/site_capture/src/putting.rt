//! What is written of a world's datagrams and frames.

use crate::hosts::ends_of;
use bus_traffic::Bus;
use bvll::Address;
use captures::{Datagram, write_datagram, write_frame};
use npdu::Mac;
use site_live::Internetwork;
use site_parts::Station;
use std::alloc::{AllocError, Allocator};
use tags::Fault;
use traffic::Item;

/// The numbers of the networks of buses.
pub(crate) fn networks<A: Allocator + Copy>(
    alloc: A,
    buses: &[Bus<A>],
) -> Result<Vec<u16, A>, AllocError> {
    let mut networks = Vec::new(alloc);
    for bus in buses {
        networks.push(bus.net)?;
    }
    Ok(networks)
}

/// How much of what a site puts out stands in a file.
#[derive(Clone, Copy, Debug, PartialEq, Eq)]
pub(crate) struct Seen {
    /// How many datagrams.
    pub(crate) items: usize,
    /// How many frames on all buses.
    pub(crate) frames: u64,
}

impl Seen {
    /// Nothing.
    pub(crate) fn nothing() -> Self {
        Seen {
            items: 0,
            frames: 0,
        }
    }

    /// All that a site put out.
    pub(crate) fn all<A: Allocator + Copy>(site: &Internetwork<A>) -> Self {
        Seen {
            items: site.item_count(),
            frames: site.buses().frames,
        }
    }
}

/// Writes what a site put out behind what stands in the file, as far as it is kept, the frames at the moment of the
/// site, in milliseconds, with the names of their ends.
pub(crate) fn put_behind<A: Allocator + Copy, B: Allocator>(
    alloc: A,
    seen: Seen,
    site: &Internetwork<A>,
    file: &mut Vec<u8, B>,
) -> Result<(), Fault> {
    let kept = seen.items.saturating_sub(site.first_item());
    if let Some(items) = site.items().get(kept..) {
        put_items(items, file)?;
    }
    let stations = site.site().stations();
    let mut place = 0u16;
    for bus in &site.buses().buses {
        put_bus(
            alloc,
            place,
            bus,
            seen.frames,
            stations,
            site.moment(),
            file,
        )?;
        place = place.saturating_add(1);
    }
    Ok(())
}

/// Writes datagrams.
fn put_items<A: Allocator, B: Allocator>(
    items: &[Item<A>],
    file: &mut Vec<u8, B>,
) -> Result<(), Fault> {
    for item in items {
        put_item(item, "", file)?;
    }
    Ok(())
}

/// Writes a datagram at the moment at which it was put out, with a comment.
pub(crate) fn put_item<A: Allocator, B: Allocator>(
    item: &Item<A>,
    comment: &str,
    file: &mut Vec<u8, B>,
) -> Result<(), Fault> {
    put_datagram(
        item.from,
        item.to,
        item.octets.as_slice(),
        item.put_out,
        comment,
        file,
    )
}

/// Writes a datagram between addresses of BACnet/IP, with a comment.
pub(crate) fn put_datagram<B: Allocator>(
    from: Mac,
    to: Mac,
    octets: &[u8],
    moment: u64,
    comment: &str,
    file: &mut Vec<u8, B>,
) -> Result<(), Fault> {
    match (address(from), address(to)) {
        (Some(from), Some(to)) => write_datagram(
            &Datagram { from, to, octets },
            moment,
            comment.as_bytes(),
            file,
        ),
        (None, _) | (_, None) => Ok(()),
    }
}

/// The address of BACnet/IP of a station, if it has one.
fn address(mac: Mac) -> Option<Address> {
    match mac {
        Mac::Six(octets) => Some(Address::from_octets(&octets)),
        Mac::One(_) => None,
    }
}

/// Writes the frames that were put out behind so many on the bus at this place.
fn put_bus<A: Allocator + Copy, B: Allocator>(
    alloc: A,
    place: u16,
    bus: &Bus<A>,
    before: u64,
    stations: &[Station<A>],
    moment: u64,
    file: &mut Vec<u8, B>,
) -> Result<(), Fault> {
    for held in &bus.recent {
        let sending = &held.recent().sending;
        if sending.place.frames >= before {
            let octets = sending.octets.as_slice();
            let ends = ends_of(alloc, bus.net, octets, stations)?;
            write_frame(place, octets, moment, ends.as_bytes(), file)?;
        }
    }
    Ok(())
}
