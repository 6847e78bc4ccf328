//! The stations of a site, and where each is seen in a capture.

use bvll::Address;
use diagnosis_parts::{LinkAddress, Party};
use npdu::{Mac, Source};
use packet_choice::Place;
use profile::LinkKind;
use site_parts::{Link, Network, Station};
use std::alloc::{AllocError, Allocator};
use tags::Octets;

/// A place where a station is seen.
#[derive(Drop)]
struct Named<A: Allocator> {
    name: Octets<A>,
    place: Place,
}

/// The places where the stations of a site are seen.
#[derive(Drop)]
pub struct Names<A: Allocator> {
    all: Vec<Named<A>, A>,
}

impl<A: Allocator + Copy> Names<A> {
    /// The places where the station of this name is seen; none where the site has no such station.
    ///
    /// # Errors
    /// Want of memory.
    pub fn places(&self, alloc: A, name: &str) -> Result<Vec<Place, A>, AllocError> {
        let mut places = Vec::new(alloc);
        for named in &self.all {
            if named.name.as_slice() == name.as_bytes() {
                places.push(named.place)?;
            }
        }
        Ok(places)
    }

    /// The name of the station at an address on a link.
    pub fn on_link(&self, link: LinkAddress) -> Option<&str> {
        let party = Party { link, remote: None };
        for named in &self.all {
            if named.place == Place::At(party) {
                return std::str::from_utf8(named.name.as_slice()).ok();
            }
        }
        None
    }

    /// The name of a station behind a router.
    pub fn behind(&self, party: Party) -> Option<&str> {
        let place = Place::Behind(party.remote?);
        for named in &self.all {
            if named.place == place {
                return std::str::from_utf8(named.name.as_slice()).ok();
            }
        }
        None
    }

    /// Adds a place of a station.
    fn add(&mut self, alloc: A, station: &Station<A>, place: Place) -> Result<(), AllocError> {
        let name = Octets::from_slice(alloc, station.name.as_slice())?;
        self.all.push(Named { name, place })?;
        Ok(())
    }

    /// Adds where a station is seen that stands on a network: there, and behind routers.
    fn add_link(
        &mut self,
        alloc: A,
        station: &Station<A>,
        link: Link,
        buses: &[u16],
    ) -> Result<(), AllocError> {
        let npdu::Station { net, mac } = link.station();
        match mac {
            Mac::One(node) => self.add_node(alloc, station, net, node, buses)?,
            Mac::Six(octets) => {
                let address = Address::from_octets(&octets);
                self.add(alloc, station, at(LinkAddress::from(address)))?;
            }
        }
        self.add_behind(alloc, station, net, mac)
    }

    /// Adds where a node is seen on its bus: at the place of the bus among those of the site, from 1, as captures have
    /// them that are written of the site; and as the only bus of a capture, where the site has one.
    fn add_node(
        &mut self,
        alloc: A,
        station: &Station<A>,
        net: u16,
        node: u8,
        buses: &[u16],
    ) -> Result<(), AllocError> {
        let mut interface = 0u32;
        for bus in buses {
            interface = interface.saturating_add(1);
            if *bus == net {
                self.add(alloc, station, at(LinkAddress::Node(interface, node)))?;
            }
        }
        if buses.len() == 1 {
            self.add(alloc, station, at(LinkAddress::Node(0, node)))?;
        }
        Ok(())
    }

    /// Adds where a station of a network is seen behind routers.
    fn add_behind(
        &mut self,
        alloc: A,
        station: &Station<A>,
        net: u16,
        mac: Mac,
    ) -> Result<(), AllocError> {
        let source = Source {
            net,
            mac: mac.as_octets(),
        };
        let beside = LinkAddress::Node(0, 0);
        match Party::sender(beside, Some(source)) {
            Some(
                Party {
                    remote: Some(remote),
                    ..
                },
            ) => { self.add(alloc, station, Place::Behind(remote)) }
            Some(_) | None => Ok(()),
        }
    }

    /// Adds where a station is seen.
    fn add_station(
        &mut self,
        alloc: A,
        station: &Station<A>,
        buses: &[u16],
    ) -> Result<(), AllocError> {
        for link in station.role.links() {
            self.add_link(alloc, station, *link, buses)?;
        }
        let Some(foreign) = station.role.beyond() else {
            return Ok(());
        };
        let address = LinkAddress::from(foreign.address);
        self.add(alloc, station, at(address))
    }
}

/// The station at an address on a link.
fn at(link: LinkAddress) -> Place {
    Place::At(Party { link, remote: None })
}

/// The places where the stations of a site with these networks are seen.
///
/// # Errors
/// Want of memory.
pub fn names_of<A: Allocator + Copy>(
    alloc: A,
    networks: &[Network],
    stations: &[Station<A>],
) -> Result<Names<A>, AllocError> {
    let buses = buses_of(alloc, networks)?;
    let mut names = Names {
        all: Vec::new(alloc),
    };
    for station in stations {
        names.add_station(alloc, station, buses.as_slice())?;
    }
    Ok(names)
}

/// The networks that are buses, in their order.
fn buses_of<A: Allocator>(alloc: A, networks: &[Network]) -> Result<Vec<u16, A>, AllocError> {
    let mut buses = Vec::new(alloc);
    for network in networks {
        if network.link_kind == LinkKind::MsTp {
            buses.push(network.number)?;
        }
    }
    Ok(buses)
}
