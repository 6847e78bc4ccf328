//! Each place on a network fits that network.

ghost use Rattle.std.specs.Prelude.{◌≡◌, IfOk};
ghost use Rattle.site.specs.Links.{are_linked};

use crate::part::Part;
use crate::shown::Named;
use crate::told::{Listener, Told};
use profile::LinkKind;
use site::are_linked;
use site_parts::{Link, Network, Station};
use std::alloc::Allocator;
use std::io;

/// Whether each place on a network is in range, and on a network of its kind that is there (9); each that is not is
/// told.
pub(crate) fn tell_links<A: Allocator, L: Listener>(
    networks: &[Network],
    stations: &[Station<A>],
    out: &mut L,
) -> io::Result<bool>
    ensures { IfOk result (λ b. b ≡ are_linked networks.now stations.now) }
{
    let is_sound = are_linked(networks, stations);
    if !is_sound {
        tell_stations(networks, stations, out)?;
    }
    Ok(is_sound)
}

fn tell_stations<A: Allocator, L: Listener>(
    networks: &[Network],
    stations: &[Station<A>],
    out: &mut L,
) -> io::Result<()> {
    for (index, station) in stations.iter().enumerate() {
        tell_places(
            networks,
            Named::at(index, station),
            station.role.links(),
            out,
        )?;
    }
    Ok(())
}

fn tell_places<L: Listener>(
    networks: &[Network],
    station: Named<'_>,
    links: &[Link],
    out: &mut L,
) -> io::Result<()> {
    for (at, link) in links.iter().enumerate() {
        tell_place(networks, station, station.link(at), *link, out)?;
    }
    Ok(())
}

fn tell_place<L: Listener>(
    networks: &[Network],
    station: Named<'_>,
    part: Part,
    link: Link,
    out: &mut L,
) -> io::Result<()> {
    let network = link.network();
    if !has_network(network, networks) {
        return out.tell(Told::NoSuchNetwork { station, network }.of(part.key("network")));
    }
    if !has_network_of(network, link.link_kind(), networks) {
        return match link.link_kind() {
            LinkKind::BacnetIp => {
                out.tell(Told::AddressOnBus { station, network }.of(part.key("address")))
            }
            LinkKind::MsTp => out.tell(Told::MacOnIp { station, network }.of(part.key("mac"))),
        };
    }
    match link {
        Link::Ip { subnet: 0, .. } | Link::Bus { mac: 128..=255, .. } => {
            out.tell(Told::NoPlace(station).of(part.whole()))
        }
        Link::Ip { .. } | Link::Bus { .. } => Ok(()),
    }
}

/// Whether a network of this number is there.
fn has_network(number: u16, networks: &[Network]) -> bool {
    networks.iter().any(|network| network.number == number)
}

/// Whether a network of this number and kind is there.
fn has_network_of(number: u16, kind: LinkKind, networks: &[Network]) -> bool {
    networks.iter().any(|network| network.number == number && network.link_kind == kind)
}
