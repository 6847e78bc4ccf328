//! Foreign devices register at managers of the site, at most 32 at one.

ghost use Rattle.std.specs.Prelude.{◌≡◌, ◌≤◌, length, bytes_eq, nat_le};
ghost use Rattle.std.specs.List.{list_any};
ghost use Rattle.profile.specs.Limits as limit;
ghost use Rattle.site_parts.specs.Roles.{beyond};
ghost use Rattle.site.specs.Foreigns.{are_few_beyond, are_registered, count_at, is_at, is_host, is_manager_on};
ghost use Rattle.site.specs.Foreigns.{is_registered, is_sound_beyond, is_time};

use profile::MAX_FOREIGN_DEVICES;
use site_parts::{Foreign, Role, Station};
use std::alloc::Allocator;

/// Whether each of some stations that is beyond all subnets registers, for a second or more, at a manager among all:
/// one of the name and, where the site tells it, on the network (J.5).
pub fn are_registered<A: Allocator>(all: &[Station<A>], some: &[Station<A>]) -> bool
    ensures { result ≡ are_registered all.now some.now }
{
    let mut left = some;
    while let [first, rest @ ..] = left {
        if !is_sound_beyond(all, &first.role) {
            return false;
        }
        left = rest;
    }
    true
}

fn is_sound_beyond<A: Allocator>(all: &[Station<A>], role: &Role<A>) -> bool
    ensures { result ≡ is_sound_beyond all.now (beyond role.now) }
{
    match role.beyond() {
        Some(foreign) => is_registered(all, foreign),
        None => true,
    }
}

fn is_registered<A: Allocator>(all: &[Station<A>], foreign: &Foreign<A>) -> bool
    ensures { result ≡ is_registered all.now foreign.now }
{
    is_time(foreign.seconds_to_live) && has_host(foreign, all)
}

fn is_time(seconds: u16) -> bool
    ensures { result ≡ is_time seconds }
{
    0 < seconds
}

fn has_host<A: Allocator>(foreign: &Foreign<A>, stations: &[Station<A>]) -> bool
    ensures { result ≡ list_any (is_host foreign.now) stations.now }
{
    let mut left = stations;
    while let [first, rest @ ..] = left {
        if is_host(foreign, first) {
            return true;
        }
        left = rest;
    }
    false
}

fn is_host<A: Allocator>(foreign: &Foreign<A>, station: &Station<A>) -> bool
    ensures { result ≡ is_host foreign.now station.now }
{
    is_text(station.name.as_slice(), foreign.manager.as_slice())
        && is_manager_on(foreign.network, &station.role)
}

fn is_text(a: &[u8], b: &[u8]) -> bool
    ensures { result ≡ bytes_eq a.now b.now }
{
    a == b
}

fn is_manager_on<A: Allocator>(network: Option<u16>, role: &Role<A>) -> bool
    ensures { result ≡ is_manager_on network role.now }
{
    match (network, role) {
        (None, Role::Manager(_)) => true,
        (Some(number), Role::Manager(link)) => number == link.network(),
        (Some(_) | None, Role::Router(_) | Role::Device { .. } | Role::Client { .. }) => false,
    }
}

/// Whether at most 32 of all stations register at each of some (J.5.2).
pub fn are_few_beyond<A: Allocator>(all: &[Station<A>], some: &[Station<A>]) -> bool
    ensures { result ≡ are_few_beyond all.now some.now }
{
    let mut left = some;
    while let [first, rest @ ..] = left {
        if !has_few(all, first) {
            return false;
        }
        left = rest;
    }
    true
}

fn has_few<A: Allocator>(all: &[Station<A>], station: &Station<A>) -> bool
    ensures { result ≡ nat_le (count_at station.now.name all.now) limit.MAX_FOREIGN_DEVICES }
{
    count_at(station.name.as_slice(), all) <= MAX_FOREIGN_DEVICES
}

fn count_at<A: Allocator>(name: &[u8], stations: &[Station<A>]) -> usize
    ensures count { result ≡ count_at name.now stations.now }
    ensures few { result ≤ length stations.now }
{
    let mut count = 0;
    let mut left = stations;
    while let [first, rest @ ..] = left {
        if is_at(name, &first.role) {
            count += 1;
        }
        left = rest;
    }
    count
}

fn is_at<A: Allocator>(name: &[u8], role: &Role<A>) -> bool
    ensures { result ≡ is_at name.now (beyond role.now) }
{
    match role.beyond() {
        Some(foreign) => is_text(foreign.manager.as_slice(), name),
        None => false,
    }
}
