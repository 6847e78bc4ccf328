//! A site without a fault.

ghost use Rattle.std.specs.Prelude.{◌≡◌, ◌↔◌, IfOk, IsTrue};
ghost use Rattle.site.specs.Networks.{AreNetworks};
ghost use Rattle.site.specs.Named.{AreNamed};
ghost use Rattle.site.specs.Sound.{AreManaged, AreSound, AreStations, HaveObjects, IsFit, IsPlain, IsSound};

use crate::devices::{are_devices, are_few_devices};
use crate::foreigns::{are_few_beyond, are_registered};
use crate::links::are_linked;
use crate::managers::{has_few_managers, is_covered_by_managers};
use crate::marks::has_marks_apart;
use crate::named::{have_names, have_names_apart};
use crate::networks::{are_few_networks, have_numbers};
use crate::roles::{are_in_order, are_roles, have_ports_apart};
use site_parts::{Network, Parts, Station};
use site_tree::is_one_tree;
use std::alloc::{AllocError, Allocator};
use std::marker::Model;
use tags::Fault;

/// A site without a fault.
#[derive(Drop)]
pub struct Site<A: Allocator> {
    parts: Parts<A>,
}

impl<A: Allocator> Model for Site<A> {
    ghost use Rattle.site_parts.specs.declared.parts.Parts.{Parts};
    ghost use Rattle.site.specs.Sound.{IsSound};

    ghost Value = { Parts A };

    ghost view = { λ s. s.parts };

    ghost invariant = { λ s. IsSound s.parts };
}

impl<A: Allocator + Copy> Site<A> {
    ghost use Rattle.std.specs.Prelude.{◌≡◌, ◌⊎◌, IfOk, OnOk, IfErr};
    ghost use Rattle.site.specs.Sound.{IsFaulty, IsSound};

    /// The site of these parts.
    ///
    /// # Errors
    /// `BadSite` where they have a fault, or `Memory`.
    pub fn new(alloc: A, parts: Parts<A>) -> Result<Self, Fault>
        ensures parts { IfOk result (λ site. site ≡ parts) }
        ensures sound { OnOk result (IsSound parts) }
        ensures refused { IfErr result (λ fault. (fault ≡ Fault.Memory) ⊎
            ((fault ≡ Fault.BadSite) × IsFaulty parts)) }
    {
        if is_sound(alloc, &parts)? {
            Ok(Site { parts })
        } else {
            Err(Fault::BadSite)
        }
    }

    /// The networks, in order.
    pub fn networks(&self) -> &[Network]
        ensures { result.now ≡ self.now.networks }
    {
        self.parts.networks.as_slice()
    }

    /// The stations, in the order of the site: managers, routers, devices, clients.
    pub fn stations(&self) -> &[Station<A>]
        ensures stations { result.now ≡ self.now.stations }
        ensures sound { IsSound self.now }
    {
        self.parts.stations.as_slice()
    }
}

/// Whether parts have no fault.
///
/// # Errors
/// Want of memory.
pub fn is_sound<A: Allocator + Copy>(alloc: A, parts: &Parts<A>) -> Result<bool, AllocError>
    ensures { IfOk result (λ b. IsTrue b ↔ IsSound parts.now) }
{
    let networks = parts.networks.as_slice();
    let stations = parts.stations.as_slice();
    let is_sound = are_sound(alloc, networks, stations)?;
    Ok(is_sound)
}

/// Whether networks and stations are, each by itself and together, as they have to be.
fn are_sound<A: Allocator + Copy>(
    alloc: A,
    networks: &[Network],
    stations: &[Station<A>],
) -> Result<bool, AllocError>
    ensures { IfOk result (λ b. IsTrue b ↔ AreSound networks.now stations.now) }
{
    if !is_plain(networks, stations) {
        return Ok(false);
    }
    let is_fit = fits(alloc, networks, stations)?;
    Ok(is_fit)
}

/// Whether each part by itself is as it has to be.
fn is_plain<A: Allocator>(networks: &[Network], stations: &[Station<A>]) -> bool
    ensures { IsTrue result ↔ IsPlain networks.now stations.now }
{
    if !are_networks(networks) {
        return false;
    }
    if !are_named(stations) {
        return false;
    }
    if !are_stations(networks, stations) {
        return false;
    }
    have_objects(stations)
}

fn are_networks(networks: &[Network]) -> bool
    ensures { IsTrue result ↔ AreNetworks networks.now }
{
    are_few_networks(networks) && have_numbers(networks)
}

fn are_named<A: Allocator>(stations: &[Station<A>]) -> bool
    ensures { IsTrue result ↔ AreNamed stations.now }
{
    have_names(stations) && have_names_apart(stations)
}

fn are_stations<A: Allocator>(networks: &[Network], stations: &[Station<A>]) -> bool
    ensures { IsTrue result ↔ AreStations networks.now stations.now }
{
    if !are_roles(stations) {
        return false;
    }
    if !have_ports_apart(stations) {
        return false;
    }
    if !are_in_order(stations) {
        return false;
    }
    are_linked(networks, stations)
}

fn have_objects<A: Allocator>(stations: &[Station<A>]) -> bool
    ensures { IsTrue result ↔ HaveObjects stations.now }
{
    are_few_devices(stations) && are_devices(stations)
}

/// Whether nothing occurs twice, managers are where they have to be, and networks and routers form one tree.
fn fits<A: Allocator + Copy>(
    alloc: A,
    networks: &[Network],
    stations: &[Station<A>],
) -> Result<bool, AllocError>
    requires plain { IsPlain networks.now stations.now }
    ensures { IfOk result (λ b. IsTrue b ↔ IsFit networks.now stations.now) }
{
    if !has_marks_apart(alloc, networks, stations)? {
        return Ok(false);
    }
    if !are_managed(alloc, stations)? {
        return Ok(false);
    }
    let tree = is_one_tree(alloc, networks, stations)?;
    Ok(tree)
}

/// Whether managers and foreign devices are where they have to be, and not too many.
fn are_managed<A: Allocator + Copy>(alloc: A, stations: &[Station<A>]) -> Result<bool, AllocError>
    ensures { IfOk result (λ b. IsTrue b ↔ AreManaged stations.now) }
{
    if !is_covered_by_managers(alloc, stations)? {
        return Ok(false);
    }
    if !has_few_managers(alloc, stations)? {
        return Ok(false);
    }
    if !are_registered(stations, stations) {
        return Ok(false);
    }
    Ok(are_few_beyond(stations, stations))
}
