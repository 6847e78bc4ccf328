//! What may occur once in a site.

ghost use Rattle.std.specs.Prelude.{◌↔◌, IfOk, IsTrue};
ghost use Rattle.site.specs.Apart.{AreApart};
ghost use Rattle.site.specs.Marks.{marks};

use crate::part::{Part, Subject};
use crate::shown::{Common, Named};
use crate::told::{Listener, Told};
use site::{Mark, has_marks_apart};
use site_parts::{Link, Network, Role, Station};
use std::alloc::{AllocError, Allocator};
use std::io;

/// A mark, the station that has it, and where that says so.
#[derive(Clone, Copy)]
struct Held<'a> {
    mark: Mark,
    station: Named<'a>,
    subject: Subject,
}

/// Whether nothing occurs twice that may occur once: numbers of networks, instances, addresses of BACnet/IP, addresses
/// on one network of MS/TP, managers of one subnet; what does is told.
pub(crate) fn tell_marks<A: Allocator + Copy, L: Listener>(
    alloc: A,
    networks: &[Network],
    stations: &[Station<A>],
    out: &mut L,
) -> io::Result<bool>
    ensures { IfOk result (λ b. IsTrue b ↔ AreApart (marks networks.now stations.now)) }
{
    let is_sound = has_marks_apart(alloc, networks, stations)?;
    if !is_sound {
        tell_numbers(networks, out)?;
        tell_held(alloc, stations, out)?;
    }
    Ok(is_sound)
}

/// Tells each network that has the number of an earlier one.
fn tell_numbers<L: Listener>(networks: &[Network], out: &mut L) -> io::Result<()> {
    for (at, network) in networks.iter().enumerate() {
        let number = network.number;
        let first = networks[..at]
            .iter()
            .position(|other| other.number == number);
        if let Some(first) = first {
            let (first, second) = (Part::Network(first), Part::Network(at));
            let told = Told::SameNumber(number);
            out.tell(told.of_both(first.key("number"), second.key("number")))?;
        }
    }
    Ok(())
}

/// Tells each mark of a station that an earlier one has.
fn tell_held<A: Allocator + Copy, L: Listener>(
    alloc: A,
    stations: &[Station<A>],
    out: &mut L,
) -> io::Result<()> {
    let all = all_held(alloc, stations)?;
    let all = all.as_slice();
    for (at, second) in all.iter().enumerate() {
        let first = all[..at].iter().find(|first| first.mark == second.mark);
        if let Some(first) = first {
            tell_both(*first, *second, out)?;
        }
    }
    Ok(())
}

fn tell_both<L: Listener>(first: Held<'_>, second: Held<'_>, out: &mut L) -> io::Result<()> {
    out.tell(told_of(first, second).of_both(first.subject, second.subject))
}

/// What is told of two that have the same mark.
fn told_of<'a>(first: Held<'a>, second: Held<'a>) -> Told<'a> {
    let common = Common(second.mark);
    let is_managed = matches!(second.mark, Mark::Managed { .. });
    let (first, second) = (first.station, second.station);
    if first.index == second.index {
        return Told::MarkTwice {
            common,
            router: first,
        };
    }
    if is_managed {
        return Told::TwoManagers {
            common,
            first,
            second,
        };
    }
    Told::SameMark {
        common,
        first,
        second,
    }
}

/// What the stations have, in their order.
fn all_held<A: Allocator + Copy>(
    alloc: A,
    stations: &[Station<A>],
) -> Result<Vec<Held<'_>, A>, AllocError> {
    let mut all = Vec::new(alloc);
    for (index, station) in stations.iter().enumerate() {
        put_station(Named::at(index, station), &station.role, &mut all)?;
    }
    Ok(all)
}

/// Puts what a station has behind others.
fn put_station<'a, A: Allocator>(
    station: Named<'a>,
    role: &Role<A>,
    all: &mut Vec<Held<'a>, A>,
) -> Result<(), AllocError> {
    let held = |mark, subject| Held {
        mark,
        station,
        subject,
    };
    if let Some(objects) = role.objects() {
        let instance = Mark::Instance(objects.instance);
        all.push(held(instance, station.part().key("instance")))?;
    }
    if let Some(foreign) = role.beyond() {
        let address = Mark::Address(foreign.address.to_octets());
        all.push(held(address, station.part().key("address")))?;
    }
    for (at, link) in role.links().iter().enumerate() {
        let (mark, key) = mark_of(*link);
        all.push(held(mark, station.link(at).key(key)))?;
    }
    if let Role::Manager(
        Link::Ip {
            network,
            subnet,
            ..
        },
    ) = *role
    {
        let managed = Mark::Managed { network, subnet };
        all.push(held(managed, station.link(0).key("subnet")))?;
    }
    Ok(())
}

/// What no other link has, and the key that says it.
fn mark_of(link: Link) -> (Mark, &'static str) {
    match link {
        Link::Ip { address, .. } => (Mark::Address(address.to_octets()), "address"),
        Link::Bus { network, mac } => (Mark::Bus { network, mac }, "mac"),
    }
}
