//! A network of several subnets has a manager on each; at most 17 managers know each other.

ghost use Rattle.std.specs.Prelude.{◌≡◌, ◌≤◌, ◌+◌, ◌++◌, IfOk, OnOk, length, nat_le};
ghost use Rattle.std.specs.List.{flat_map, list_all, list_any};
ghost use Rattle.profile.specs.Limits as limit;
ghost use Rattle.site.specs.Managers.{are_covered, are_few, count_on, is_apart, is_covered, is_one, managed};
ghost use Rattle.site.specs.Managers.{managed_in, subnet_at, subnets};

use profile::MAX_PEERS;
use site_parts::{Link, Role, Station};
use std::alloc::{AllocError, Allocator};

/// A subnet of a BACnet/IP network: the network's number, and its own, 1 to 255.
#[derive(Clone, Copy, Debug, PartialEq, Eq)]
pub struct SubnetId {
    pub network: u16,
    pub number: u8,
}

/// Whether each subnet that a station is on has a manager, or its network has no other subnet (J.4.3).
///
/// # Errors
/// Want of memory.
pub fn is_covered_by_managers<A: Allocator + Copy>(
    alloc: A,
    stations: &[Station<A>],
) -> Result<bool, AllocError>
    ensures { IfOk result (λ b. b ≡
        are_covered (managed stations.now) (subnets stations.now) (subnets stations.now)) }
{
    let mut with_manager = Vec::new(alloc);
    put_managed(&mut with_manager, stations)?;
    let mut all = Vec::new(alloc);
    put_subnets(&mut all, stations)?;
    Ok(are_covered(with_manager.as_slice(), all.as_slice(), all.as_slice()))
}

/// Whether no network has more than 17 managers, each of which has then at most 16 peers (J.4.3).
///
/// # Errors
/// Want of memory.
pub fn has_few_managers<A: Allocator + Copy>(
    alloc: A,
    stations: &[Station<A>],
) -> Result<bool, AllocError>
    ensures { IfOk result (λ b. b ≡ are_few (managed stations.now) (managed stations.now)) }
{
    let mut with_manager = Vec::new(alloc);
    put_managed(&mut with_manager, stations)?;
    Ok(are_few(with_manager.as_slice(), with_manager.as_slice()))
}

/// Puts the subnets that stations are on behind others.
fn put_subnets<A: Allocator>(
    all: &mut Vec<SubnetId, A>,
    stations: &[Station<A>],
) -> Result<(), AllocError>
    ensures { OnOk result (all.new.items ≡ all.old.items ++ subnets stations.now) }
{
    for station in stations {
        put_links(all, station.role.links())?;
    }
    Ok(())
}

/// Puts the subnets that have a manager behind others.
fn put_managed<A: Allocator>(
    all: &mut Vec<SubnetId, A>,
    stations: &[Station<A>],
) -> Result<(), AllocError>
    ensures { OnOk result (all.new.items ≡ all.old.items ++ managed stations.now) }
{
    for station in stations {
        put_manager(all, &station.role)?;
    }
    Ok(())
}

fn put_manager<A: Allocator>(all: &mut Vec<SubnetId, A>, role: &Role<A>) -> Result<(), AllocError>
    ensures { OnOk result (all.new.items ≡ all.old.items ++ managed_in role.now) }
{
    match role {
        Role::Manager(link) => put_link(all, *link),
        Role::Router(_) | Role::Device { .. } | Role::Client { .. } => Ok(()),
    }
}

fn put_links<A: Allocator>(all: &mut Vec<SubnetId, A>, links: &[Link]) -> Result<(), AllocError>
    ensures { OnOk result (all.new.items ≡ all.old.items ++ flat_map subnet_at links.now) }
{
    for link in links {
        put_link(all, *link)?;
    }
    Ok(())
}

fn put_link<A: Allocator>(all: &mut Vec<SubnetId, A>, link: Link) -> Result<(), AllocError>
    ensures { OnOk result (all.new.items ≡ all.old.items ++ subnet_at link) }
{
    if let Link::Ip {
        network,
        subnet,
        ..
    } = link
    {
        all.push(SubnetId {
            network,
            number: subnet,
        })?;
    }
    Ok(())
}

/// Whether each of some subnets has a manager, or its network has no other of all.
fn are_covered(with_manager: &[SubnetId], all: &[SubnetId], some: &[SubnetId]) -> bool
    ensures { result ≡ are_covered with_manager.now all.now some.now }
{
    let mut left = some;
    while let [first, rest @ ..] = left {
        if !is_covered(with_manager, all, *first) {
            return false;
        }
        left = rest;
    }
    true
}

fn is_covered(with_manager: &[SubnetId], all: &[SubnetId], subnet: SubnetId) -> bool
    ensures { result ≡ is_covered with_manager.now all.now subnet }
{
    is_managed(with_manager, subnet) || is_alone(all, subnet)
}

fn is_managed(with_manager: &[SubnetId], subnet: SubnetId) -> bool
    ensures { result ≡ list_any (is_one subnet) with_manager.now }
{
    let mut left = with_manager;
    while let [first, rest @ ..] = left {
        if is_one(subnet, *first) {
            return true;
        }
        left = rest;
    }
    false
}

fn is_one(a: SubnetId, b: SubnetId) -> bool
    ensures { result ≡ is_one a b }
{
    a.network == b.network && a.number == b.number
}

/// Whether the subnet's network has no other.
fn is_alone(all: &[SubnetId], subnet: SubnetId) -> bool
    ensures { result ≡ list_all (is_apart subnet) all.now }
{
    let mut left = all;
    while let [first, rest @ ..] = left {
        if !is_apart(subnet, *first) {
            return false;
        }
        left = rest;
    }
    true
}

/// Whether two subnets are one, or of different networks.
fn is_apart(a: SubnetId, b: SubnetId) -> bool
    ensures { result ≡ is_apart a b }
{
    a.network != b.network || a.number == b.number
}

/// Whether each of some subnets is of a network with few managers.
fn are_few(all: &[SubnetId], some: &[SubnetId]) -> bool
    ensures { result ≡ are_few all.now some.now }
{
    let mut left = some;
    while let [first, rest @ ..] = left {
        if !is_one_of_few(all, *first) {
            return false;
        }
        left = rest;
    }
    true
}

fn is_one_of_few(all: &[SubnetId], subnet: SubnetId) -> bool
    ensures { result ≡ nat_le (count_on subnet.network all.now) (limit.MAX_PEERS + 1) }
{
    count_on(subnet.network, all) <= MAX_PEERS + 1
}

fn count_on(network: u16, subnets: &[SubnetId]) -> usize
    ensures count { result ≡ count_on network subnets.now }
    ensures few { result ≤ length subnets.now }
{
    let mut count = 0;
    let mut left = subnets;
    while let [first, rest @ ..] = left {
        if first.network == network {
            count += 1;
        }
        left = rest;
    }
    count
}
