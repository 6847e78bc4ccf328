//! How many devices there are, and their objects.

ghost use Rattle.std.specs.Prelude.{◌≡◌, ◌≤◌, ◌↔◌, IsTrue, length};
ghost use Rattle.site.specs.Devices.{AreDevices, AreFewDevices, IsDevice, IsDeviceIn, devices, devices_in};

use objects::{SiteObjects, is_site};
use profile::{LinkKind, MAX_DEVICES};
use site_parts::{Place, Role, Station};
use std::alloc::Allocator;

/// Whether there are at most 256 devices.
pub fn are_few_devices<A: Allocator>(stations: &[Station<A>]) -> bool
    ensures { IsTrue result ↔ AreFewDevices stations.now }
{
    count_devices(stations) <= MAX_DEVICES
}

fn count_devices<A: Allocator>(stations: &[Station<A>]) -> usize
    ensures count { result ≡ devices stations.now }
    ensures few { result ≤ length stations.now }
{
    let mut count = 0;
    let mut left = stations;
    while let [first, rest @ ..] = left {
        count += devices_in(&first.role);
        left = rest;
    }
    count
}

fn devices_in<A: Allocator>(role: &Role<A>) -> usize
    ensures count { result ≡ devices_in role.now }
    ensures few { result ≤ 1 }
{
    match role {
        Role::Device { .. } => 1,
        Role::Manager(_) | Role::Router(_) | Role::Client { .. } => 0,
    }
}

/// Whether each device's objects are those that a site may give it, with the station's name and kind of link (12.11).
pub fn are_devices<A: Allocator>(stations: &[Station<A>]) -> bool
    ensures { IsTrue result ↔ AreDevices stations.now }
{
    let mut left = stations;
    while let [first, rest @ ..] = left {
        if !is_device_in(first) {
            return false;
        }
        left = rest;
    }
    true
}

fn is_device_in<A: Allocator>(station: &Station<A>) -> bool
    ensures { IsTrue result ↔ IsDeviceIn station.now.name station.now.role }
{
    match &station.role {
        Role::Device { place, objects } => is_device(station.name.as_slice(), place, objects),
        Role::Manager(_) | Role::Router(_) | Role::Client { .. } => true,
    }
}

/// Whether a device's objects are those that a site may give it, with this name and the kind of link of this place.
fn is_device<A: Allocator>(name: &[u8], place: &Place<A>, objects: &SiteObjects<A>) -> bool
    ensures { IsTrue result ↔ IsDevice name.now place.now objects.now }
{
    if !is_site(objects) {
        return false;
    }
    if objects.name.as_slice() != name {
        return false;
    }
    is_kind(objects.data_link, place.link_kind())
}

fn is_kind(a: LinkKind, b: LinkKind) -> bool
    ensures { IsTrue result ↔ (a ≡ b) }
{
    a == b
}
