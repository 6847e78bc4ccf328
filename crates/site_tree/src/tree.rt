//! Networks joined one after another by routers, and ports counted.

ghost use Rattle.std.specs.Prelude.{◌≡◌, ◌==◌, ◌+◌, ◌≤◌, ◌<◌, ◌↔◌, ◌*◌, ◌^◌, true, false, not, ℕ, List, [], ◌∷◌, ◌++◌};
ghost use Rattle.std.specs.Prelude.{IfOk, OnOk, IfSome, IfNone, IsTrue, length, map, get_or};
ghost use Rattle.std.specs.List.{list_any, flat_map};
ghost use Rattle.site_parts.specs.Places.{network_of};
ghost use Rattle.site_tree.specs.Tree.{IsOneTree, IsJoined, IsBetween, ArePortsThere, numbers, is_among, joins, leads};
ghost use Rattle.site_tree.specs.Tree.{ports, routers, nodes_in, but};

use site_parts::{Link, Network, Role, Station};
use std::alloc::{AllocError, Allocator};

/// Whether networks and routers form one tree.
///
/// # Errors
/// Want of memory.
pub fn is_one_tree<A: Allocator + Copy>(
    alloc: A,
    networks: &[Network],
    stations: &[Station<A>],
) -> Result<bool, AllocError>
    requires there { ArePortsThere (numbers networks.now) stations.now }
    ensures { IfOk result (λ b. IsTrue b ↔ IsOneTree networks.now stations.now) }
{
    let joined = is_joined(alloc, networks, stations)?;
    Ok(joined && has_no_ring(networks, stations))
}

/// Whether there is one port less than networks and routers.
pub fn has_no_ring<A: Allocator>(networks: &[Network], stations: &[Station<A>]) -> bool
    ensures { IsTrue result ↔ (ports stations.now + 1 ≡ length networks.now + routers stations.now) }
{
    count_ports(stations) + 1 == (networks.len() as u128) + count_routers(stations)
}

/// The number of ports of all routers.
fn count_ports<A: Allocator>(stations: &[Station<A>]) -> u128
    ensures count { result ≡ ports stations.now }
    ensures few { result ≤ length stations.now * 2 ^ 63 }
    ensures bound { result < 2 ^ 127 }
{
    let mut count = 0;
    let mut left = stations;
    while let [first, rest @ ..] = left {
        count += first.role.ports().len() as u128;
        left = rest;
    }
    count
}

/// The number of routers.
fn count_routers<A: Allocator>(stations: &[Station<A>]) -> u128
    ensures count { result ≡ routers stations.now }
    ensures bound { result < 2 ^ 64 }
{
    let mut count = 0;
    let mut left = stations;
    while let [first, rest @ ..] = left {
        count += nodes(&first.role);
        left = rest;
    }
    count
}

/// Whether whoever begins with the first network and follows the routers comes to all of them.
pub fn is_joined<A: Allocator + Copy>(
    alloc: A,
    networks: &[Network],
    stations: &[Station<A>],
) -> Result<bool, AllocError>
    requires there { ArePortsThere (numbers networks.now) stations.now }
    ensures { IfOk result (λ b. IsTrue b ↔ IsJoined (numbers networks.now) stations.now) }
{
    match networks {
        [first, others @ ..] => {
            let joined = is_joined_to(alloc, first.number, others, stations)?;
            Ok(joined)
        }
        [] => Ok(false),
    }
}

/// Whether whoever begins with a network and follows the routers comes to all others.
fn is_joined_to<A: Allocator + Copy>(
    alloc: A,
    first: u16,
    others: &[Network],
    stations: &[Station<A>],
) -> Result<bool, AllocError>
    requires there { ArePortsThere (first ∷ numbers others.now) stations.now }
    ensures { IfOk result (λ b. IsTrue b ↔ IsJoined (first ∷ numbers others.now) stations.now) }
{
    let mut apart = numbers_but(alloc, first, others)?;
    join(stations, &mut apart);
    Ok(is_none(apart.as_slice()))
}

/// Whether there is no number.
fn is_none(numbers: &[u16]) -> bool
    ensures { IsTrue result ↔ (numbers.now ≡ []) }
{
    numbers.is_empty()
}

/// Takes away one after another each network that a router joins to one that isn't apart.
fn join<A: Allocator>(stations: &[Station<A>], apart: &mut Vec<u16, A>)
    ensures between { (first : ℕ) (ns : List ℕ) → ArePortsThere ns stations.now →
        IsBetween first ns stations.now apart.old.items → IsBetween first ns stations.now apart.new.items }
    ensures ended { list_any (leads stations.now apart.new.items) apart.new.items ≡ false }
{
    while let Some(place) = next_joined(stations, apart.as_slice()) {
        apart.remove(place);
    }
}

/// The place of a network that a router joins to one that isn't apart.
fn next_joined<A: Allocator>(stations: &[Station<A>], apart: &[u16]) -> Option<usize>
    ensures some { IfSome result (λ i. (i < length apart.now) ×
        (leads stations.now apart.now (get_or apart.now i 0) ≡ true)) }
    ensures none { IfNone result (list_any (leads stations.now apart.now) apart.now ≡ false) }
{
    let mut place = 0;
    while place < apart.len() {
        if leads(stations, apart, apart[place]) {
            return Some(place);
        }
        place += 1;
    }
    None
}

/// Whether a router joins a network to one that isn't apart.
fn leads<A: Allocator>(stations: &[Station<A>], apart: &[u16], number: u16) -> bool
    ensures { result ≡ leads stations.now apart.now number }
{
    let mut left = stations;
    while let [first, rest @ ..] = left {
        if joins(first, apart, number) {
            return true;
        }
        left = rest;
    }
    false
}

/// Whether this router does.
fn joins<A: Allocator>(station: &Station<A>, apart: &[u16], number: u16) -> bool
    ensures { result ≡ joins station.now apart.now number }
{
    let ports = station.role.ports();
    has_port_on(number, ports) && has_port_outside(apart, ports)
}

fn has_port_on(number: u16, ports: &[Link]) -> bool
    ensures { result ≡ is_among number (map network_of ports.now) }
{
    let mut left = ports;
    while let [first, rest @ ..] = left {
        if first.network() == number {
            return true;
        }
        left = rest;
    }
    false
}

fn has_port_outside(apart: &[u16], ports: &[Link]) -> bool
    ensures { result ≡ list_any (λ m. not (is_among m apart.now)) (map network_of ports.now) }
{
    let mut left = ports;
    while let [first, rest @ ..] = left {
        if !is_among(first.network(), apart) {
            return true;
        }
        left = rest;
    }
    false
}

fn is_among(number: u16, numbers: &[u16]) -> bool
    ensures { result ≡ is_among number numbers.now }
{
    let mut left = numbers;
    while let [first, rest @ ..] = left {
        if *first == number {
            return true;
        }
        left = rest;
    }
    false
}

/// How many nodes of the graph a station is.
fn nodes<A: Allocator>(role: &Role<A>) -> u128
    ensures count { result ≡ nodes_in role.now }
    ensures few { result ≤ 1 }
{
    match role {
        Role::Router(_) => 1,
        Role::Manager(_) | Role::Device { .. } | Role::Client { .. } => 0,
    }
}

/// The numbers of networks but for one.
fn numbers_but<A: Allocator + Copy>(
    alloc: A,
    number: u16,
    networks: &[Network],
) -> Result<Vec<u16, A>, AllocError>
    ensures { IfOk result (λ ns. ns.items ≡ flat_map (λ n. but number n.number) networks.now) }
{
    let mut numbers = Vec::new(alloc);
    for network in networks {
        put_but(&mut numbers, number, network.number)?;
    }
    Ok(numbers)
}

/// Puts a number behind others, but for one.
fn put_but<A: Allocator>(
    numbers: &mut Vec<u16, A>,
    except: u16,
    number: u16,
) -> Result<(), AllocError>
    ensures { OnOk result (numbers.new.items ≡ numbers.old.items ++ but except number) }
{
    if number != except {
        numbers.push(number)?;
    }
    Ok(())
}
