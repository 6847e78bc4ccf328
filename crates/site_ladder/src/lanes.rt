//! Which stations have lanes, and where: clients left, then the stations of each network, the routers last.

use ladder::{Arrow, Band, Mark, Note, Reach, Row};
use site_gathering::{World, name_of, network_of};
use site_parts::{Role, Station};
use std::alloc::{AllocError, Allocator};

/// Up to so many lanes stations have some that send broadcasts alone.
const FEW: usize = 10;

/// What a station has to do with the rows.
#[derive(Clone, Copy)]
struct Share {
    /// It sends or receives a message that is for one station, or an event is of it.
    is_own: bool,
    /// It sends a broadcast.
    is_sender: bool,
}

/// Where the lane of a station stands: clients before others, networks in their order, routers last, and then in the
/// order of the site.
#[derive(Clone, Copy, PartialEq, Eq, PartialOrd, Ord)]
struct Rank {
    is_no_client: bool,
    network: usize,
    is_router: bool,
    place: usize,
}

/// The stations, each with its lane if it has one.
pub(crate) fn stations_of<A: Allocator + Copy>(
    alloc: A,
    world: &World<A>,
    rows: &[Row<A>],
) -> Result<Vec<ladder::Station<A>, A>, AllocError> {
    let ranks = ranks_of(alloc, world, rows)?;
    let stations = world.site().stations();
    let mut all = Vec::new(alloc);
    let mut place = 0usize;
    for station in stations {
        let name = String::from_str(alloc, name_of(station))?;
        let lane = match ranks.as_slice().get(place) {
            Some(Some(rank)) => Some(before(*rank, ranks.as_slice())),
            Some(None) | None => None,
        };
        all.push(ladder::Station { name, lane })?;
        place = place.saturating_add(1);
    }
    Ok(all)
}

/// How many lanes stand before the one of a rank.
fn before(rank: Rank, ranks: &[Option<Rank>]) -> usize {
    let mut count = 0usize;
    for other in ranks {
        if let Some(other) = other {
            if *other < rank {
                count = count.saturating_add(1);
            }
        }
    }
    count
}

/// The rank of each station that has a lane.
fn ranks_of<A: Allocator + Copy>(
    alloc: A,
    world: &World<A>,
    rows: &[Row<A>],
) -> Result<Vec<Option<Rank>, A>, AllocError> {
    let stations = world.site().stations();
    let shares = shares_of(alloc, stations.len(), rows)?;
    let are_few = are_few(shares.as_slice());
    let mut ranks = Vec::new(alloc);
    let mut place = 0usize;
    for station in stations {
        let is_client = matches!(station.role, Role::Client { .. });
        let rank = Rank {
            is_no_client: !is_client,
            network: network_place(world, network_of(station, stations)),
            is_router: matches!(station.role, Role::Router(_)),
            place,
        };
        let has_lane = match shares.as_slice().get(place) {
            Some(share) => share.is_own || share.is_sender && (are_few || is_client),
            None => false,
        };
        ranks.push(if has_lane { Some(rank) } else { None })?;
        place = place.saturating_add(1);
    }
    Ok(ranks)
}

/// Whether there are few stations that send, receive or do anything.
fn are_few(shares: &[Share]) -> bool {
    let mut count = 0usize;
    for share in shares {
        if share.is_own || share.is_sender {
            count = count.saturating_add(1);
        }
    }
    count <= FEW
}

/// The place of a network among those of the site.
fn network_place<A: Allocator + Copy>(world: &World<A>, number: u16) -> usize {
    let mut place = 0usize;
    for network in world.site().networks() {
        if network.number == number {
            return place;
        }
        place = place.saturating_add(1);
    }
    place
}

/// What each of so many stations has to do with the rows.
fn shares_of<A: Allocator + Copy>(
    alloc: A,
    count: usize,
    rows: &[Row<A>],
) -> Result<Vec<Share, A>, AllocError> {
    let mut shares = Vec::new(alloc);
    for _ in 0..count {
        shares.push(Share {
            is_own: false,
            is_sender: false,
        })?;
    }
    for row in rows {
        match &row.mark {
            Mark::Arrow(arrow) => share_arrow(arrow, &mut shares),
            Mark::Note(
                Note {
                    station: Some(place),
                    ..
                },
            ) => share_own(*place, &mut shares),
            Mark::Note(_) | Mark::Gap(_) => {}
        }
    }
    Ok(shares)
}

/// Notes who sends and receives a message.
fn share_arrow<A: Allocator>(arrow: &Arrow<A>, shares: &mut Vec<Share, A>) {
    match arrow.reach {
        Reach::One => {
            share_own(arrow.from, shares);
            for place in &arrow.to {
                share_own(*place, shares);
            }
        }
        Reach::All => {
            if arrow.from < shares.len() {
                shares[arrow.from].is_sender = true;
            }
        }
    }
}

/// Notes that a station sends or receives something of its own.
fn share_own<A: Allocator>(place: usize, shares: &mut Vec<Share, A>) {
    if place < shares.len() {
        shares[place].is_own = true;
    }
}

/// The bands of lanes side by side of one network.
pub(crate) fn bands_of<A: Allocator + Copy>(
    alloc: A,
    world: &World<A>,
    shown: &[ladder::Station<A>],
) -> Result<Vec<Band, A>, AllocError> {
    let mut bands: Vec<Band, A> = Vec::new(alloc);
    for lane in 0..shown.len() {
        if let Some(network) = network_at(world.site().stations(), shown, lane) {
            add_lane(network, lane, &mut bands)?;
        }
    }
    Ok(bands)
}

/// Adds the next lane to the last band, or in one of its own.
fn add_lane<A: Allocator>(
    network: u16,
    lane: usize,
    bands: &mut Vec<Band, A>,
) -> Result<(), AllocError> {
    let count = bands.len();
    if 0 < count && bands[count - 1].network == network {
        bands[count - 1].last = lane;
        return Ok(());
    }
    bands.push(Band {
        network,
        first: lane,
        last: lane,
    })?;
    Ok(())
}

/// The number of the network of the station at a lane.
fn network_at<A: Allocator>(
    stations: &[Station<A>],
    shown: &[ladder::Station<A>],
    lane: usize,
) -> Option<u16> {
    let mut place = 0usize;
    for station in shown {
        if station.lane == Some(lane) {
            return Some(network_of(stations.get(place)?, stations));
        }
        place = place.saturating_add(1);
    }
    None
}
