//! Where a station stands: on a network, or beyond all subnets.

use crate::row::{Range, Row, Stop, octets};
use site_parts::{Foreign, Link, Place};
use std::alloc::Allocator;

/// Numbers of networks (6.2.2).
pub const NETWORK: Range = Range {
    least: 1,
    greatest: 65_534,
};

/// Numbers of the subnets of a network.
pub const SUBNET: Range = Range {
    least: 1,
    greatest: 255,
};

/// Addresses of master nodes (9).
pub const MAC: Range = Range {
    least: 0,
    greatest: 127,
};

/// Seconds to live of a foreign device (J.5.2).
pub const SECONDS_TO_LIVE: Range = Range {
    least: 1,
    greatest: 65_535,
};

/// A place on a network: `network` with `subnet` and `address`, or with `mac`.
pub(crate) fn link(row: Row<'_>) -> Result<Link, Stop<'_>> {
    let network = row.some_number("network", NETWORK)?;
    if row.has("mac") {
        row.without("subnet")?;
        row.without("address")?;
        let mac = row.some_number("mac", MAC)?;
        return Ok(Link::Bus { network, mac });
    }
    let subnet = row.some_number("subnet", SUBNET)?;
    let address = row.address("address")?;
    Ok(Link::Ip {
        network,
        subnet,
        address,
    })
}

/// A place on a network, or one beyond all subnets: `address`, `foreign` and `ttl`.
pub(crate) fn place<'t, A: Allocator + Copy>(alloc: A, row: Row<'t>) -> Result<Place<A>, Stop<'t>> {
    if row.has("foreign") {
        row.without("subnet")?;
        row.without("mac")?;
        return Ok(Place::Beyond(foreign(alloc, row)?));
    }
    row.without("ttl")?;
    Ok(Place::On(link(row)?))
}

/// A place at a manager, whose network need not be told.
fn foreign<'t, A: Allocator + Copy>(alloc: A, row: Row<'t>) -> Result<Foreign<A>, Stop<'t>> {
    let network = row.number("network", NETWORK)?;
    let address = row.address("address")?;
    let seconds_to_live = row.some_number("ttl", SECONDS_TO_LIVE)?;
    let manager = octets(alloc, row.name("foreign")?)?;
    Ok(Foreign {
        network,
        address,
        manager,
        seconds_to_live,
    })
}
