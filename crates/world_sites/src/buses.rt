//! The buses of a site, as they open.

ghost use Rattle.std.specs.Prelude.{◌≡◌, ◌++◌, [], IfOk, OnOk, map};
ghost use Rattle.std.specs.List.{flat_map};
ghost use Rattle.bus_traffic.specs.Bus.{BusState, bus_of};
ghost use Rattle.world_sites.specs.Buses as spec;
ghost use Rattle.world_sites.specs.Buses.{ear_on, ears_on, opening_buses};
ghost use Rattle.site_parts.specs.Roles.{links_in};

use bus_traffic::Bus;
use profile::LinkKind;
use site::Site;
use site_parts::{Link, Network, Station};
use std::alloc::{AllocError, Allocator};

/// A station comes to a bus at the first moment, where this link of it is there (9.5.2).
fn put_ear<A: Allocator + Copy>(bus: &mut Bus<A>, net: u16, link: Link) -> Result<(), AllocError>
    ensures { OnOk result (bus_of bus.new ≡ record (bus_of bus.old) {
      ears = bus.old.ears.items ++ ear_on net link;
    }) }
{
    if let Link::Bus { network, mac } = link {
        if network == net {
            bus.join(mac, 0)?;
        }
    }
    Ok(())
}

/// .. with all links that it has there.
fn put_ears<A: Allocator + Copy>(
    bus: &mut Bus<A>,
    net: u16,
    links: &[Link],
) -> Result<(), AllocError>
    ensures { OnOk result (bus_of bus.new ≡ record (bus_of bus.old) {
      ears = bus.old.ears.items ++ flat_map (ear_on net) links.now;
    }) }
{
    for link in links {
        put_ear(bus, net, *link)?;
    }
    Ok(())
}

/// .. and so do all stations.
fn put_all_ears<A: Allocator + Copy>(
    bus: &mut Bus<A>,
    net: u16,
    all: &[Station<A>],
) -> Result<(), AllocError>
    ensures { OnOk result (bus_of bus.new ≡ record (bus_of bus.old) {
      ears = bus.old.ears.items ++ ears_on net all.now;
    }) }
{
    for station in all {
        put_ears(bus, net, station.role.links())?;
    }
    Ok(())
}

/// Puts a network as it opens behind other buses, where it is a bus.
fn put_bus<A: Allocator + Copy>(
    out: &mut Vec<Bus<A>, A>,
    alloc: A,
    all: &[Station<A>],
    network: Network,
) -> Result<(), AllocError>
    ensures { OnOk result (map (λ b. bus_of b) out.new.items ≡ map (λ b. bus_of b) out.old.items
        ++ spec.bus_of_kind all.now network.number network.link_kind) }
{
    match network.link_kind {
        LinkKind::MsTp => {
            let mut bus = Bus::new(alloc, network.number);
            put_all_ears(&mut bus, network.number, all)?;
            out.push(bus)?;
            Ok(())
        }
        LinkKind::BacnetIp => Ok(()),
    }
}

/// Those of these networks that are buses, as they open among all stations of their site.
fn buses_in<A: Allocator + Copy>(
    alloc: A,
    all: &[Station<A>],
    networks: &[Network],
) -> Result<Vec<Bus<A>, A>, AllocError>
    ensures { IfOk result (λ out. map (λ b. bus_of b) out.items
        ≡ flat_map (λ n. spec.bus_of_kind all.now n.number n.link_kind) networks.now) }
{
    let mut out = Vec::new(alloc);
    for network in networks {
        put_bus(&mut out, alloc, all, *network)?;
    }
    Ok(out)
}

/// The buses of a site as they open, in its order, whose memory will be that of `alloc`: each station on one hears
/// there, in the order of the site, and nothing was put out (9.3).
///
/// # Errors
/// Want of memory.
pub fn buses_of<A: Allocator + Copy>(alloc: A, site: &Site<A>) -> Result<Vec<Bus<A>, A>, AllocError>
    ensures { IfOk result (λ out. map (λ b. bus_of b) out.items ≡ opening_buses site.now) }
{
    buses_in(alloc, site.stations(), site.networks())
}
