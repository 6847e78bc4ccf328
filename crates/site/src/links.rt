//! Each place on a network fits that network.

ghost use Rattle.std.specs.Prelude.{◌≡◌};
ghost use Rattle.std.specs.List.{list_all, list_any};
ghost use Rattle.site_parts.specs.Roles.{links_in};
ghost use Rattle.site.specs.Links.{are_linked, is_in_range, is_link, is_on, same_kind};

use profile::LinkKind;
use site_parts::{Link, Network, Role, Station};
use std::alloc::Allocator;

/// Whether each place on a network is in range, and on a network of its kind that is there: subnets are 1 to 255, MAC
/// addresses of MS/TP 0 to 127 (9).
pub fn are_linked<A: Allocator>(networks: &[Network], stations: &[Station<A>]) -> bool
    ensures { result ≡ are_linked networks.now stations.now }
{
    let mut left = stations;
    while let [first, rest @ ..] = left {
        if !is_linked(networks, &first.role) {
            return false;
        }
        left = rest;
    }
    true
}

fn is_linked<A: Allocator>(networks: &[Network], role: &Role<A>) -> bool
    ensures { result ≡ list_all (is_link networks.now) (links_in role.now) }
{
    are_on(networks, role.links())
}

fn are_on(networks: &[Network], links: &[Link]) -> bool
    ensures { result ≡ list_all (is_link networks.now) links.now }
{
    let mut left = links;
    while let [first, rest @ ..] = left {
        if !is_link(networks, *first) {
            return false;
        }
        left = rest;
    }
    true
}

fn is_link(networks: &[Network], link: Link) -> bool
    ensures { result ≡ is_link networks.now link }
{
    is_in_range(link) && is_there(networks, link)
}

fn is_in_range(link: Link) -> bool
    ensures { result ≡ is_in_range link }
{
    match link {
        Link::Ip { subnet, .. } => 0 < subnet,
        Link::Bus { mac, .. } => mac < 128,
    }
}

/// Whether the link's network is there, and of its kind.
fn is_there(networks: &[Network], link: Link) -> bool
    ensures { result ≡ list_any (is_on link) networks.now }
{
    let mut left = networks;
    while let [first, rest @ ..] = left {
        if is_on(link, *first) {
            return true;
        }
        left = rest;
    }
    false
}

fn is_on(link: Link, network: Network) -> bool
    ensures { result ≡ is_on link network }
{
    network.number == link.network() && same_kind(network.link_kind, link.link_kind())
}

fn same_kind(a: LinkKind, b: LinkKind) -> bool
    ensures { result ≡ same_kind a b }
{
    match (a, b) {
        (LinkKind::BacnetIp, LinkKind::BacnetIp) | (LinkKind::MsTp, LinkKind::MsTp) => true,
        (LinkKind::BacnetIp, LinkKind::MsTp) | (LinkKind::MsTp, LinkKind::BacnetIp) => false,
    }
}
