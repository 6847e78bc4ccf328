//! All facts of a site, each judged, and what is wrong told.

ghost use Rattle.std.specs.Prelude.{◌↔◌, IfOk, IsTrue};
ghost use Rattle.site.specs.Sound.{AreSound, AreStations, IsPlain, IsSound};

use crate::devices::tell_devices;
use crate::links::tell_links;
use crate::managers::tell_managed;
use crate::marks::tell_marks;
use crate::names::tell_named;
use crate::networks::tell_networks;
use crate::roles::{tell_order, tell_ports, tell_roles};
use crate::told::Listener;
use crate::tree::tell_tree;
use site_parts::{Network, Parts, Station};
use std::alloc::Allocator;
use std::io;

/// Whether parts are a sound site; of each fact that fails, `out` is told for each station or network that breaks it,
/// as `two stations have the address 127.0.0.1:47810: d and c`. A writer has each fault on a line of its own.
///
/// # Errors
/// Those of `out`, as a failed write, and want of memory (`OutOfMemory`).
pub fn tell_faults<A: Allocator + Copy, L: Listener>(
    alloc: A,
    parts: &Parts<A>,
    out: &mut L,
) -> io::Result<bool>
    ensures { IfOk result (λ b. IsTrue b ↔ IsSound parts.now) }
{
    let networks = parts.networks.as_slice();
    let stations = parts.stations.as_slice();
    let is_sound = tell_facts(alloc, networks, stations, out)?;
    Ok(is_sound)
}

fn tell_facts<A: Allocator + Copy, L: Listener>(
    alloc: A,
    networks: &[Network],
    stations: &[Station<A>],
    out: &mut L,
) -> io::Result<bool>
    ensures { IfOk result (λ b. IsTrue b ↔ AreSound networks.now stations.now) }
{
    let plain = tell_plain(networks, stations, out)?;
    let apart = tell_marks(alloc, networks, stations, out)?;
    let managed = tell_managed(alloc, stations, out)?;
    let tree = tell_tree(alloc, networks, stations, out)?;
    Ok(plain && apart && managed && tree)
}

/// Whether each part by itself is as it has to be.
fn tell_plain<A: Allocator, L: Listener>(
    networks: &[Network],
    stations: &[Station<A>],
    out: &mut L,
) -> io::Result<bool>
    ensures { IfOk result (λ b. IsTrue b ↔ IsPlain networks.now stations.now) }
{
    let numbered = tell_networks(networks, out)?;
    let named = tell_named(stations, out)?;
    let placed = tell_stations(networks, stations, out)?;
    let devices = tell_devices(stations, out)?;
    Ok(numbered && named && placed && devices)
}

fn tell_stations<A: Allocator, L: Listener>(
    networks: &[Network],
    stations: &[Station<A>],
    out: &mut L,
) -> io::Result<bool>
    ensures { IfOk result (λ b. IsTrue b ↔ AreStations networks.now stations.now) }
{
    let roles = tell_roles(stations, out)?;
    let ports = tell_ports(stations, out)?;
    let order = tell_order(stations, out)?;
    let links = tell_links(networks, stations, out)?;
    Ok(roles && ports && order && links)
}
