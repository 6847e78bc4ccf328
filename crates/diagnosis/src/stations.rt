//! The stations of a capture, and the networks that its routers announce.

use apdu::IAm;
use diagnosis_parts::{Party, Role, Settings, Station, raise};
use lru::{DefaultHasher, LruCache};
use std::alloc::{AllocError, Allocator};

/// A network that a router announces (6.4.2).
#[derive(Clone, Copy, PartialEq, Eq, Hash)]
pub struct Route {
    /// The router.
    pub router: Party,
    /// The number of the network.
    pub net: u16,
}

/// The stations of a capture.
#[derive(Drop)]
pub(crate) struct Stations<A: Allocator> {
    known: LruCache<Party, Station, DefaultHasher, A>,
    /// The networks that are announced, and the number of the packet that announced each first.
    routes: LruCache<Route, u64, DefaultHasher, A>,
    /// How many left, since there were too many.
    left: u64,
}

impl<A: Allocator + Copy> Stations<A> {
    /// None yet.
    pub(crate) fn new(alloc: A, settings: Settings) -> Result<Stations<A>, AllocError> {
        Ok(Stations {
            known: LruCache::new(alloc, settings.stations)?,
            routes: LruCache::new(alloc, settings.stations)?,
            left: 0,
        })
    }

    /// How many are known.
    pub(crate) fn len(&self) -> usize {
        self.known.len()
    }

    /// How many left.
    pub(crate) fn left(&self) -> u64 {
        self.left
    }

    /// A station sent a packet.
    pub(crate) fn hear(&mut self, party: Party, packet: u64) -> Result<(), AllocError> {
        let known = self.known.peek(&party).copied();
        self.keep(party, known.unwrap_or(Station::new(packet)).heard())
    }

    /// A station that has sent a packet says what it is.
    pub(crate) fn identify(&mut self, party: Party, i_am: IAm) -> Result<(), AllocError> {
        match self.known.peek(&party).copied() {
            Some(known) => self.keep(party, known.identified(i_am)),
            None => Ok(()),
        }
    }

    /// A station that has sent a packet does what stations of this role do.
    pub(crate) fn note_role(&mut self, party: Party, role: Role) -> Result<(), AllocError> {
        match self.known.peek(&party).copied() {
            Some(known) => self.keep(party, known.with_role(role)),
            None => Ok(()),
        }
    }

    /// A router announces the networks whose numbers these octets are (6.4.2).
    pub(crate) fn announce(
        &mut self,
        router: Party,
        nets: &[u8],
        packet: u64,
    ) -> Result<(), AllocError> {
        self.note_role(router, Role::Router)?;
        let mut left = nets;
        while let [high, low, rest @ ..] = left {
            let net = u16::from_be_bytes([*high, *low]);
            let route = Route { router, net };
            let first = self.routes.peek(&route).copied().unwrap_or(packet);
            self.routes.put(route, first)?;
            left = rest;
        }
        Ok(())
    }

    /// Those that are known, by their first packets.
    pub(crate) fn all(&self, alloc: A) -> Result<Vec<(Party, Station), A>, AllocError> {
        let mut all = Vec::new(alloc);
        for (party, known) in &self.known {
            all.push((*party, *known))?;
        }
        all.sort_by_key(|one| one.1.first)?;
        Ok(all)
    }

    /// The networks that are announced, by the first packets that did.
    pub(crate) fn routes(&self, alloc: A) -> Result<Vec<(Route, u64), A>, AllocError> {
        let mut all = Vec::new(alloc);
        for (route, first) in &self.routes {
            all.push((*route, *first))?;
        }
        all.sort_by_key(|one| one.1)?;
        Ok(all)
    }

    /// Keeps what is known of a station.
    fn keep(&mut self, party: Party, station: Station) -> Result<(), AllocError> {
        match self.known.push(party, station) {
            Ok(Some((other, _))) if other != party => {
                raise(&mut self.left);
                Ok(())
            }
            Ok(_) => Ok(()),
            Err(_) => Err(AllocError),
        }
    }
}
