//! What a client knows of devices: their bindings.

ghost use Rattle.std.specs.Prelude.{◌≡◌, ◌++◌, ◌⊎◌, true, false, map, IfErr, OnOk, OnErr};
ghost use Rattle.bindings.specs.Binding as spec;
ghost use Rattle.bindings.specs.Binding.{binding_of, bound_by, has_place, introduced, mark_refused};

use crate::bound::Bound;
use apdu::{IAm, Segmentation};
use npdu::{NetworkRejectReason, Rejected, Station, Way};
use profile::MAX_BINDINGS;
use std::alloc::Allocator;
use std::cmp::min;
use tags::Fault;

/// A device as a client knows it by its last I-Am (16.10.3).
#[derive(Clone, Copy, Debug, PartialEq, Eq)]
pub struct Binding {
    /// The instance of its Device object.
    pub instance: u32,
    /// Where it is, and how long an APDU to it may be.
    pub bound: Bound,
    /// Whether it takes and sends segments.
    pub segmentation: Segmentation,
    /// Whether a router said since that it has no route to the network of the device (6.4.4).
    pub refused: bool,
}

impl Binding {
    ghost use Rattle.std.specs.Prelude.{◌≡◌};
    ghost use Rattle.bindings.specs.Binding.{is_of, marked};

    /// Whether it is that of the device of this instance.
    fn is_of(&self, instance: u32) -> bool
        ensures { result ≡ is_of instance self.now }
    {
        self.instance == instance
    }

    /// The same after a router said that it has no route to this network.
    fn marked(&self, net: u16) -> Binding
        ensures { result ≡ marked net self.now }
    {
        Binding {
            instance: self.instance,
            bound: self.bound,
            segmentation: self.segmentation,
            refused: self.refused || self.bound.station.net == net,
        }
    }
}

/// Where a device is, and how long an APDU to it may be, by its I-Am.
fn bound_by(station: Station, way: Way, i_am: &IAm) -> Bound
    ensures { result ≡ bound_by station way i_am.now }
{
    Bound {
        station,
        way,
        max_apdu: min(i_am.max_apdu, 65535) as u16,
    }
}

/// The binding that an I-Am from this station makes, where an answer goes there by this way (16.10.3).
pub fn introduced(station: Station, way: Way, i_am: &IAm) -> Binding
    ensures { result ≡ introduced station way i_am.now }
{
    Binding {
        instance: i_am.instance,
        bound: bound_by(station, way, i_am),
        segmentation: i_am.segmentation,
        refused: false,
    }
}

/// The binding of the device of this instance, 0..=4194303, if there is one.
pub fn binding_of(bindings: &[Binding], instance: u32) -> Option<Binding>
    ensures { result ≡ binding_of instance bindings.now }
{
    for binding in bindings {
        if binding.is_of(instance) {
            return Some(*binding);
        }
    }
    None
}

/// Whether a binding can be held for the device of this instance: there is one, or there are less than 256 (16.10.3).
pub fn has_place(bindings: &[Binding], instance: u32) -> bool
    ensures { result ≡ has_place instance bindings.now }
{
    binding_of(bindings, instance).is_some() || bindings.len() < MAX_BINDINGS
}

/// A binding takes the place of the one of its instance, or stands behind all (16.10.3).
///
/// # Errors
/// `TableFull` where there is no place for it among 256, or `Memory`. The bindings are then as they were.
#[tactic(auto, using(crate::proofs::Places::put_rules))]
pub fn put_binding<A: Allocator>(
    bindings: &mut Vec<Binding, A>,
    binding: Binding,
) -> Result<(), Fault>
    ensures put { OnOk result (bindings.new.items ≡ spec.put_binding binding bindings.old.items) }
    ensures place { OnOk result (has_place binding.instance bindings.old.items ≡ true) }
    ensures refused { IfErr result (λ fault. (fault ≡ Fault.Memory) ⊎
        ((fault ≡ Fault.TableFull) × (has_place binding.instance bindings.old.items ≡ false))) }
    ensures unchanged { OnErr result (bindings.new.items ≡ bindings.old.items) }
{
    let mut place = 0;
    while place < bindings.len() {
        if bindings[place].is_of(binding.instance) {
            bindings[place] = binding;
            return Ok(());
        }
        place += 1;
    }
    if place >= MAX_BINDINGS {
        return Err(Fault::TableFull);
    }
    bindings.push(binding)?;
    Ok(())
}

/// All bindings, after a router said that it has no route to this network. It takes no memory.
#[tactic(auto, using(crate::proofs::Places::mark_rules))]
fn mark_all<A: Allocator>(bindings: &mut Vec<Binding, A>, net: u16)
    ensures { bindings.new.items ≡ map (spec.marked net) bindings.old.items }
{
    let mut place = 0;
    while place < bindings.len() {
        bindings[place] = bindings[place].marked(net);
        place += 1;
    }
}

/// All bindings, after a router refused a message (6.4.4). It takes no memory.
pub fn mark_refused<A: Allocator>(bindings: &mut Vec<Binding, A>, rejected: Rejected)
    ensures { bindings.new.items ≡ mark_refused rejected.reason rejected.net bindings.old.items }
{
    match rejected.reason {
        NetworkRejectReason::NoRoute => mark_all(bindings, rejected.net),
        NetworkRejectReason::UnknownMessageType => {}
        NetworkRejectReason::TooLong => {}
    }
}
