//! What may occur once in a site.

ghost use Rattle.std.specs.Prelude.{◌≡◌, ◌↔◌, ◌++◌, ◌∷◌, [], IfOk, OnOk, IsTrue, map};
ghost use Rattle.std.specs.List.{AllByRecursion, flat_map};
ghost use Rattle.site.specs.Apart.{AreApart, IsOther};
ghost use Rattle.site.specs.Marks.{managed, mark_at, mark_of, marks, marks_in, marks_of, network_mark};
ghost use Rattle.site.specs.declared.marks.Mark.TheVariants as mark;

use site_parts::{Link, Network, Place, Role, Station};
use std::alloc::{AllocError, Allocator};

/// What may occur once in a site.
#[derive(Clone, Copy, Debug, PartialEq, Eq)]
pub enum Mark {
    /// A network's number (6.2.2).
    Network(u16),
    /// A device's instance number (12.11.1).
    Instance(u32),
    /// The six octets of an address of BACnet/IP (J.1.2).
    Address([u8; 6]),
    /// An address on an MS/TP network (9).
    Bus { network: u16, mac: u8 },
    /// A subnet that has a manager (J.4).
    Managed { network: u16, subnet: u8 },
}

/// Whether nothing occurs twice that may occur once: numbers of networks, instances, addresses of BACnet/IP, addresses
/// on one network of MS/TP, managers of one subnet.
///
/// # Errors
/// Want of memory.
pub fn has_marks_apart<A: Allocator + Copy>(
    alloc: A,
    networks: &[Network],
    stations: &[Station<A>],
) -> Result<bool, AllocError>
    ensures { IfOk result (λ b. IsTrue b ↔ AreApart (marks networks.now stations.now)) }
{
    let mut all = Vec::new(alloc);
    put_networks(&mut all, networks)?;
    put_stations(&mut all, stations)?;
    Ok(are_apart(all.as_slice()))
}

/// Puts the marks of networks behind others.
fn put_networks<A: Allocator>(
    all: &mut Vec<Mark, A>,
    networks: &[Network],
) -> Result<(), AllocError>
    ensures { OnOk result (all.new.items ≡ all.old.items ++ map network_mark networks.now) }
{
    for network in networks {
        all.push(Mark::Network(network.number))?;
    }
    Ok(())
}

/// Puts the marks of stations behind others.
fn put_stations<A: Allocator>(
    all: &mut Vec<Mark, A>,
    stations: &[Station<A>],
) -> Result<(), AllocError>
    ensures { OnOk result (all.new.items ≡ all.old.items ++ flat_map marks_of stations.now) }
{
    for station in stations {
        put_role(all, &station.role)?;
    }
    Ok(())
}

/// Puts the marks of a station behind others.
fn put_role<A: Allocator>(all: &mut Vec<Mark, A>, role: &Role<A>) -> Result<(), AllocError>
    ensures { OnOk result (all.new.items ≡ all.old.items ++ marks_in role.now) }
{
    match role {
        Role::Manager(link) => put_manager(all, *link),
        Role::Router(ports) => put_links(all, ports.as_slice()),
        Role::Device { place, objects } => put_device(all, objects.instance, place),
        Role::Client { place, .. } => put_place(all, place),
    }
}

fn put_manager<A: Allocator>(all: &mut Vec<Mark, A>, link: Link) -> Result<(), AllocError>
    ensures { OnOk result (all.new.items ≡ all.old.items ++ mark_of link ∷ managed link) }
{
    all.push(mark_of(link))?;
    if let Link::Ip {
        network,
        subnet,
        ..
    } = link
    {
        all.push(Mark::Managed { network, subnet })?;
    }
    Ok(())
}

fn put_links<A: Allocator>(all: &mut Vec<Mark, A>, links: &[Link]) -> Result<(), AllocError>
    ensures { OnOk result (all.new.items ≡ all.old.items ++ map mark_of links.now) }
{
    for link in links {
        all.push(mark_of(*link))?;
    }
    Ok(())
}

fn put_device<A: Allocator>(
    all: &mut Vec<Mark, A>,
    instance: u32,
    place: &Place<A>,
) -> Result<(), AllocError>
    ensures { OnOk result (all.new.items ≡ all.old.items ++ mark.Instance instance ∷ (mark_at place.now ∷ [])) }
{
    all.push(Mark::Instance(instance))?;
    put_place(all, place)
}

fn put_place<A: Allocator>(all: &mut Vec<Mark, A>, place: &Place<A>) -> Result<(), AllocError>
    ensures { OnOk result (all.new.items ≡ all.old.items ++ mark_at place.now ∷ []) }
{
    all.push(mark_at(place))?;
    Ok(())
}

/// What no other station's place has.
fn mark_at<A: Allocator>(place: &Place<A>) -> Mark
    ensures { result ≡ mark_at place.now }
{
    match place {
        Place::On(link) => mark_of(*link),
        Place::Beyond(foreign) => Mark::Address(foreign.address.to_octets()),
    }
}

/// What no other link has.
fn mark_of(link: Link) -> Mark
    ensures { result ≡ mark_of link }
{
    match link {
        Link::Ip { address, .. } => Mark::Address(address.to_octets()),
        Link::Bus { network, mac } => Mark::Bus { network, mac },
    }
}

/// Whether nothing stands twice.
fn are_apart(marks: &[Mark]) -> bool
    ensures { IsTrue result ↔ AreApart marks.now }
{
    let mut left = marks;
    while let [first, rest @ ..] = left {
        if !is_new(first, rest) {
            return false;
        }
        left = rest;
    }
    true
}

/// Whether a mark is none of others.
fn is_new(mark: &Mark, others: &[Mark]) -> bool
    ensures { IsTrue result ↔ AllByRecursion (IsOther mark.now) others.now }
{
    let mut left = others;
    while let [first, rest @ ..] = left {
        if !are_other(mark, first) {
            return false;
        }
        left = rest;
    }
    true
}

/// Whether two marks differ.
fn are_other(a: &Mark, b: &Mark) -> bool
    ensures { IsTrue result ↔ IsOther a.now b.now }
{
    *a != *b
}
