//! The stations of a site by their places in its order.

use npdu::Mac;
use site_parts::Station;
use site_steps::Event;
use site_views::{at_address, named};
use std::alloc::Allocator;
use traffic::Item;

/// The name of a station, which is letters and digits.
pub fn name_of<A: Allocator>(station: &Station<A>) -> &str {
    std::str::from_utf8(station.name.as_slice()).unwrap_or("?")
}

/// The place of the station of a name.
pub fn place_named<A: Allocator>(name: &[u8], stations: &[Station<A>]) -> Option<usize> {
    let mut place = 0usize;
    for station in stations {
        if station.name.as_slice() == name {
            return Some(place);
        }
        place = place.saturating_add(1);
    }
    None
}

/// The place of the station at an address (6.1).
pub(crate) fn place_at<A: Allocator>(
    address: npdu::Station,
    stations: &[Station<A>],
) -> Option<usize> {
    match at_address(address, stations) {
        Some(station) => place_named(station.name.as_slice(), stations),
        None => None,
    }
}

/// The place of the device of an instance (12.11).
pub(crate) fn place_of_instance<A: Allocator>(
    instance: u32,
    stations: &[Station<A>],
) -> Option<usize> {
    let mut place = 0usize;
    for station in stations {
        if let Some(objects) = station.role.objects() {
            if objects.instance == instance {
                return Some(place);
            }
        }
        place = place.saturating_add(1);
    }
    None
}

/// The place of the station that an item comes from.
pub(crate) fn sender_of<A: Allocator>(item: &Item<A>, stations: &[Station<A>]) -> Option<usize> {
    let net = item.net;
    let mac = item.from;
    place_at(npdu::Station { net, mac }, stations)
}

/// The place of the station that an item goes to.
pub(crate) fn receiver_of<A: Allocator>(item: &Item<A>, stations: &[Station<A>]) -> Option<usize> {
    let net = item.net;
    let mac = item.to;
    place_at(npdu::Station { net, mac }, stations)
}

/// The place of the station that an event is for, among all items; time passes for none.
pub(crate) fn place_of_event<A: Allocator>(
    event: &Event<A>,
    items: &[Item<A>],
    stations: &[Station<A>],
) -> Option<usize> {
    match event {
        Event::Tick(_) => None,
        Event::Deliver(number) => match items.get(*number as usize) {
            Some(item) => receiver_of(item, stations),
            None => None,
        },
        Event::Issue { client: name, .. }
        | Event::WhoIs { client: name, .. }
        | Event::Wake(name)
        | Event::Hear { station: name, .. }
        | Event::Register(name)
        | Event::Restart(name) => place_named(name.as_slice(), stations),
    }
}

/// The MAC of the station of a name on the bus of a network, if it is there (9).
pub(crate) fn mac_on<A: Allocator>(
    network: u16,
    name: &[u8],
    stations: &[Station<A>],
) -> Option<u8> {
    let Some(station) = named(name, stations) else {
        return None;
    };
    for link in station.role.links() {
        let npdu::Station { net, mac } = link.station();
        if let Mac::One(mac) = mac {
            if net == network {
                return Some(mac);
            }
        }
    }
    None
}

/// The number of the network of a station: of its first port, or, beyond all subnets, of its manager (J.5).
pub fn network_of<A: Allocator>(station: &Station<A>, stations: &[Station<A>]) -> u16 {
    if let [link, ..] = station.role.links() {
        return link.network();
    }
    let Some(foreign) = station.role.beyond() else {
        return 0;
    };
    match named(foreign.manager.as_slice(), stations) {
        Some(manager) => match manager.role.links() {
            [link, ..] => link.network(),
            [] => 0,
        },
        None => 0,
    }
}

/// The place of the station at a MAC of a bus (9.1.2).
pub(crate) fn place_on_bus<A: Allocator>(
    network: u16,
    mac: u8,
    stations: &[Station<A>],
) -> Option<usize> {
    let address = npdu::Station {
        net: network,
        mac: Mac::One(mac),
    };
    place_at(address, stations)
}
