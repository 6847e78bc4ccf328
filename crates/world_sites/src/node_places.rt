//! Where a node is: which of its places is at an address, and which node is first at each address.

ghost use Rattle.std.specs.Prelude.{◌≡◌, IfOk, OnOk};
ghost use Rattle.npdu.specs.Mac.{same_station};
ghost use Rattle.world_sites.specs.Finding as spec;
ghost use Rattle.world_sites.specs.Finding.{is_there, passes};
ghost use Rattle.world_sites.specs.Places.{AreFirstAt, ArePut};

use crate::places::{FirstPlaces, put_place};
use node_laws::SiteNode;
use npdu::Station;
use std::alloc::{AllocError, Allocator};
use std::collections::BTreeMap;

fn is_at(place: Option<Station>, address: Station) -> bool
    ensures { result ≡ passes (λ y. same_station y address) place }
{
    match place {
        Some(place) => place == address,
        None => false,
    }
}

/// Returns which of a node's places is at an address, if one is (6.1).
pub(crate) fn port_at<A: Allocator + Copy>(node: &SiteNode<A>, address: Station) -> Option<usize>
    ensures { result ≡ spec.port_at address node.now }
{
    for port in 0..node.place_count() {
        if is_at(node.place(port), address) {
            return Some(port);
        }
    }
    None
}

/// An address, if there is one, has this place then.
///
/// # Errors
/// Want of memory.
fn put_address<A: Allocator + Copy>(
    places: &mut FirstPlaces<Station, A>,
    address: Option<Station>,
    place: usize,
) -> Result<(), AllocError>
    ensures { OnOk result (ArePut (λ x. passes (λ y. same_station y x) address) place places.old places.new) }
{
    if let Some(address) = address {
        put_place(places, address, place)?;
    }
    Ok(())
}

/// Each address of a node has the node's place then.
///
/// # Errors
/// Want of memory.
fn put_addresses<A: Allocator + Copy>(
    places: &mut FirstPlaces<Station, A>,
    node: &SiteNode<A>,
    place: usize,
) -> Result<(), AllocError>
    ensures { OnOk result (ArePut (λ x. is_there x node.now) place places.old places.new) }
{
    for port in 0..node.place_count() {
        put_address(places, node.place(port), place)?;
    }
    Ok(())
}

/// Returns the place of the first node at each address (6.1).
///
/// # Errors
/// Want of memory.
pub(crate) fn first_at<A: Allocator + Copy>(
    alloc: A,
    nodes: &[SiteNode<A>],
) -> Result<FirstPlaces<Station, A>, AllocError>
    ensures { IfOk result (λ places. AreFirstAt (λ x n. is_there x n) places nodes.now) }
{
    let mut places = BTreeMap::new(alloc);
    let mut place = nodes.len();
    // from the last on, so that the first of several at one address is what stays
    while place > 0 {
        place -= 1;
        put_addresses(&mut places, &nodes[place], place)?;
    }
    Ok(places)
}
