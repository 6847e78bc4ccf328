//! Ways between stations that lead over MS/TP networks.

use profile::LinkKind;
use site_parts::{Parts, Station};
use std::alloc::{AllocError, Allocator};

/// Whether the way from one station to another leads over an MS/TP network, or one of them stands there.
///
/// # Errors
/// Want of memory.
pub(crate) fn is_over_bus<A: Allocator + Copy>(
    alloc: A,
    parts: &Parts<A>,
    from: &Station<A>,
    to: &Station<A>,
) -> Result<bool, AllocError> {
    let (Some(from), Some(to)) = (network_of(parts, from), network_of(parts, to)) else {
        return Ok(false);
    };
    if !is_ip(parts, from) || !is_ip(parts, to) {
        return Ok(true);
    }
    let mut reached = Vec::new(alloc);
    reached.push(from)?;
    // Each round reaches another network, or none that is left.
    for _round in 0..parts.networks.len() {
        reach_on(parts, &mut reached)?;
    }
    Ok(!reached.as_slice().contains(&to))
}

/// Puts the BACnet/IP networks behind those that are reached, to which a router leads from them.
fn reach_on<A: Allocator>(parts: &Parts<A>, reached: &mut Vec<u16, A>) -> Result<(), AllocError> {
    for station in parts.stations.as_slice() {
        let ports = station.role.ports();
        if ports
            .iter()
            .any(|port| reached.as_slice().contains(&port.network()))
        {
            for port in ports {
                let network = port.network();
                if is_ip(parts, network) && !reached.as_slice().contains(&network) {
                    reached.push(network)?;
                }
            }
        }
    }
    Ok(())
}

/// The network that a station is on: that of its manager, where it is foreign.
fn network_of<A: Allocator>(parts: &Parts<A>, station: &Station<A>) -> Option<u16> {
    if let [link, ..] = station.role.links() {
        return Some(link.network());
    }
    let foreign = station.role.beyond()?;
    for other in parts.stations.as_slice() {
        if other.name.as_slice() == foreign.manager.as_slice() {
            if let [link, ..] = other.role.links() {
                return Some(link.network());
            }
        }
    }
    None
}

/// Whether a network is of BACnet/IP.
fn is_ip<A: Allocator>(parts: &Parts<A>, number: u16) -> bool {
    parts.networks.as_slice().iter().any(|network| network.number == number
        && network.link_kind == LinkKind::BacnetIp)
}
