//! Broadcast managers, and the foreign devices and clients that register there.

ghost use Rattle.std.specs.Prelude.{◌≡◌, ◌↔◌, IfOk, IsTrue};
ghost use Rattle.site.specs.Foreigns.{are_few_beyond, are_registered};
ghost use Rattle.site.specs.Managers.{are_covered, are_few, managed, subnets};
ghost use Rattle.site.specs.Sound.{AreManaged};

use crate::part::{Part, Subject};
use crate::shown::{Named, name_of, text_of};
use crate::told::{Listener, MAX_MANAGERS, Told};
use profile::MAX_FOREIGN_DEVICES;
use site::{SubnetId, are_few_beyond, are_registered, has_few_managers, is_covered_by_managers};
use site_parts::{Link, Role, Station};
use std::alloc::{AllocError, Allocator};
use std::io;

/// Whether managers are where they have to be and not too many (J.4), and foreign devices register there, not too many
/// (J.5); what is wrong is told.
pub(crate) fn tell_managed<A: Allocator + Copy, L: Listener>(
    alloc: A,
    stations: &[Station<A>],
    out: &mut L,
) -> io::Result<bool>
    ensures { IfOk result (λ b. IsTrue b ↔ AreManaged stations.now) }
{
    let covered = tell_covered(alloc, stations, out)?;
    let few = tell_few(alloc, stations, out)?;
    let registered = tell_registered(stations, out)?;
    let few_beyond = tell_few_beyond(stations, out)?;
    Ok(covered && few && registered && few_beyond)
}

/// Whether each subnet has a manager, or its network has no other subnet.
fn tell_covered<A: Allocator + Copy, L: Listener>(
    alloc: A,
    stations: &[Station<A>],
    out: &mut L,
) -> io::Result<bool>
    ensures { IfOk result (λ b. b ≡
        are_covered (managed stations.now) (subnets stations.now) (subnets stations.now)) }
{
    let is_sound = is_covered_by_managers(alloc, stations)?;
    if !is_sound {
        tell_uncovered(alloc, stations, out)?;
    }
    Ok(is_sound)
}

/// A station on a subnet.
#[derive(Clone, Copy)]
struct Standing<'a> {
    subnet: SubnetId,
    station: Named<'a>,
    subject: Subject,
    is_manager: bool,
}

/// Tells each subnet without a manager whose network has others.
fn tell_uncovered<A: Allocator + Copy, L: Listener>(
    alloc: A,
    stations: &[Station<A>],
    out: &mut L,
) -> io::Result<()> {
    let all = standings(alloc, stations)?;
    let all = all.as_slice();
    for (at, here) in all.iter().enumerate() {
        if is_first(*here, &all[..at]) && is_uncovered(here.subnet, all) {
            let told = Told::NoManager {
                network: here.subnet.network,
                subnet: here.subnet.number,
                station: here.station,
            };
            out.tell(told.of(here.subject))?;
        }
    }
    Ok(())
}

/// Whether none of these is on the same subnet.
fn is_first(here: Standing<'_>, before: &[Standing<'_>]) -> bool {
    !before.iter().any(|other| other.subnet == here.subnet)
}

/// Whether a subnet has no manager, and its network has others.
fn is_uncovered(subnet: SubnetId, all: &[Standing<'_>]) -> bool {
    let is_managed = all
        .iter()
        .any(|other| other.is_manager && other.subnet == subnet);
    let has_others = all.iter().any(|other| {
        other.subnet.network == subnet.network && other.subnet.number != subnet.number
    });
    !is_managed && has_others
}

/// The stations that are on subnets, once for each place.
fn standings<A: Allocator + Copy>(
    alloc: A,
    stations: &[Station<A>],
) -> Result<Vec<Standing<'_>, A>, AllocError> {
    let mut all = Vec::new(alloc);
    for (index, station) in stations.iter().enumerate() {
        put_standings(Named::at(index, station), &station.role, &mut all)?;
    }
    Ok(all)
}

fn put_standings<'a, A: Allocator>(
    station: Named<'a>,
    role: &Role<A>,
    all: &mut Vec<Standing<'a>, A>,
) -> Result<(), AllocError> {
    let is_manager = matches!(role, Role::Manager(_));
    for (at, link) in role.links().iter().enumerate() {
        if let Link::Ip {
            network,
            subnet: number,
            ..
        } = *link
        {
            let subnet = SubnetId { network, number };
            all.push(Standing {
                subnet,
                station,
                subject: station.link(at).key("subnet"),
                is_manager,
            })?;
        }
    }
    Ok(())
}

/// Whether no network has more than 17 managers.
fn tell_few<A: Allocator + Copy, L: Listener>(
    alloc: A,
    stations: &[Station<A>],
    out: &mut L,
) -> io::Result<bool>
    ensures { IfOk result (λ b. b ≡ are_few (managed stations.now) (managed stations.now)) }
{
    let is_sound = has_few_managers(alloc, stations)?;
    if !is_sound {
        tell_many(stations, out)?;
    }
    Ok(is_sound)
}

/// Tells each network with too many managers.
fn tell_many<A: Allocator, L: Listener>(stations: &[Station<A>], out: &mut L) -> io::Result<()> {
    for (at, station) in stations.iter().enumerate() {
        if let Role::Manager(link) = station.role {
            let network = link.network();
            let count = managers_on(network, stations);
            if count > MAX_MANAGERS && managers_on(network, &stations[..at]) == 0 {
                let too_many = manager_too_many(network, stations);
                out.tell(Told::ManyManagers { network, count }.of(too_many.whole()))?;
            }
        }
    }
    Ok(())
}

/// How many managers a network has.
fn managers_on<A: Allocator>(network: u16, stations: &[Station<A>]) -> usize {
    let managers = stations
        .iter()
        .filter(|station| is_manager_on(network, station));
    managers.count()
}

/// The first manager of a network that is one too many.
fn manager_too_many<A: Allocator>(network: u16, stations: &[Station<A>]) -> Part {
    let mut count = 0usize;
    for (index, station) in stations.iter().enumerate() {
        if is_manager_on(network, station) {
            if count == MAX_MANAGERS {
                return Part::Station(index);
            }
            count = count.saturating_add(1);
        }
    }
    Part::Site
}

/// Whether a station is a manager on a network.
fn is_manager_on<A: Allocator>(network: u16, station: &Station<A>) -> bool {
    match station.role {
        Role::Manager(link) => link.network() == network,
        Role::Router(_) | Role::Device { .. } | Role::Client { .. } => false,
    }
}

/// Whether each station that is beyond all subnets registers, for a second or more, at a manager.
fn tell_registered<A: Allocator, L: Listener>(
    stations: &[Station<A>],
    out: &mut L,
) -> io::Result<bool>
    ensures { IfOk result (λ b. b ≡ are_registered stations.now stations.now) }
{
    let is_sound = are_registered(stations, stations);
    if !is_sound {
        tell_each_beyond(stations, out)?;
    }
    Ok(is_sound)
}

fn tell_each_beyond<A: Allocator, L: Listener>(
    stations: &[Station<A>],
    out: &mut L,
) -> io::Result<()> {
    let mut left = stations;
    while let [station, rest @ ..] = left {
        if !are_registered(stations, &left[..1]) {
            let index = stations.len().saturating_sub(left.len());
            tell_beyond(stations, index, station, out)?;
        }
        left = rest;
    }
    Ok(())
}

/// Tells why a station is registered nowhere.
fn tell_beyond<A: Allocator, L: Listener>(
    stations: &[Station<A>],
    index: usize,
    station: &Station<A>,
    out: &mut L,
) -> io::Result<()> {
    let Some(foreign) = station.role.beyond() else {
        return Ok(());
    };
    let station = Named::at(index, station);
    let part = station.part();
    let manager = text_of(foreign.manager.as_slice());
    if !stations.iter().any(|other| is_host(manager, other)) {
        return out.tell(Told::NoHost { station, manager }.of(part.key("foreign")));
    }
    match foreign.network {
        Some(network) if foreign.seconds_to_live > 0 => {
            let told = Told::HostElsewhere {
                station,
                manager,
                network,
            };
            out.tell(told.of(part.key("network")))
        }
        Some(_) | None => out.tell(Told::NoTime(station).of(part.key("ttl"))),
    }
}

/// Whether a station is a manager of this name.
fn is_host<A: Allocator>(manager: &str, station: &Station<A>) -> bool {
    matches!(station.role, Role::Manager(_)) && name_of(station) == manager
}

/// Whether at most 32 stations register at each (J.5.2).
fn tell_few_beyond<A: Allocator, L: Listener>(
    stations: &[Station<A>],
    out: &mut L,
) -> io::Result<bool>
    ensures { IfOk result (λ b. b ≡ are_few_beyond stations.now stations.now) }
{
    let is_sound = are_few_beyond(stations, stations);
    if !is_sound {
        tell_many_beyond(stations, out)?;
    }
    Ok(is_sound)
}

fn tell_many_beyond<A: Allocator, L: Listener>(
    stations: &[Station<A>],
    out: &mut L,
) -> io::Result<()> {
    let mut left = stations;
    while let [station, rest @ ..] = left {
        if !are_few_beyond(stations, &left[..1]) {
            let manager = name_of(station);
            let count = count_at(station.name.as_slice(), stations);
            let too_many = registration_too_many(station.name.as_slice(), stations);
            out.tell(Told::ManyBeyond { manager, count }.of(too_many.key("foreign")))?;
        }
        left = rest;
    }
    Ok(())
}

/// How many stations register at the manager of a name.
fn count_at<A: Allocator>(manager: &[u8], stations: &[Station<A>]) -> usize {
    let registered = stations
        .iter()
        .filter(|station| registers_at(manager, station));
    registered.count()
}

/// The first station that registers at the manager of a name as one too many.
fn registration_too_many<A: Allocator>(manager: &[u8], stations: &[Station<A>]) -> Part {
    let mut count = 0usize;
    for (index, station) in stations.iter().enumerate() {
        if registers_at(manager, station) {
            if count == MAX_FOREIGN_DEVICES {
                return Part::Station(index);
            }
            count = count.saturating_add(1);
        }
    }
    Part::Site
}

/// Whether a station registers at the manager of a name.
fn registers_at<A: Allocator>(manager: &[u8], station: &Station<A>) -> bool {
    match station.role.beyond() {
        Some(foreign) => foreign.manager.as_slice() == manager,
        None => false,
    }
}
