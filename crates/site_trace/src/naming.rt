//! The names of stations, as they stand in what is printed.

ghost use Rattle.std.specs.Prelude.{◌≡◌, Some, option_copied};
ghost use Rattle.std.specs.Fmt.{WritesOnOk};
ghost use Rattle.site_trace.specs.Naming as spec;

use bvll::Address;
use npdu::{Mac, Station};
use object_model::SiteObjects;
use site_views::at_address;
use std::alloc::Allocator;
use std::fmt;

/// The name of a station, which is letters and digits.
#[derive(Clone, Copy)]
struct Name<'a>(&'a [u8]);

impl fmt::Display for Name<'_> {
    ghost output = { λ n. Some n.0.now };

    fn fmt<W: fmt::Write>(&self, f: &mut fmt::Formatter<W>) -> fmt::Result {
        match std::str::from_utf8(self.0) {
            Ok(name) => f.write_str(name),
            Err(_) => Err(fmt::Error),
        }
    }
}

/// The name of the station at an address, or the address where there is none.
#[derive(Clone, Copy)]
pub struct NameAt<'a, A: Allocator> {
    pub address: Station,
    /// The stations of the site.
    pub stations: &'a [site_parts::Station<A>],
}

impl<A: Allocator> fmt::Display for NameAt<'_, A> {
    ghost output = { λ n. Some (spec.name_at n.stations.now n.address) };

    fn fmt<W: fmt::Write>(&self, f: &mut fmt::Formatter<W>) -> fmt::Result {
        match at_address(self.address, self.stations) {
            Some(station) => write!(f, "{}", Name(station.name.as_slice())),
            None => fmt_mac(self.address.mac, f),
        }
    }
}

/// Prints an address: `127.0.0.1:47808` on BACnet/IP, `5` on MS/TP.
fn fmt_mac<W: fmt::Write>(mac: Mac, f: &mut fmt::Formatter<W>) -> fmt::Result
    ensures { WritesOnOk W.write_str_gives f.old result (spec.mac_text mac) f.new }
{
    match mac {
        Mac::One(octet) => write!(f, "{octet}"),
        Mac::Six(octets) => fmt_address(Address::from_octets(&octets), f),
    }
}

/// Prints an address of BACnet/IP.
fn fmt_address<W: fmt::Write>(address: Address, f: &mut fmt::Formatter<W>) -> fmt::Result
    ensures { WritesOnOk W.write_str_gives f.old result (spec.address_text address) f.new }
{
    let Address {
        ip: [a, b, c, d],
        port,
    } = address;
    write!(f, "{a}.{b}.{c}.{d}:{port}")
}

/// The name of the device of this instance.
#[derive(Clone, Copy)]
pub struct DeviceName<'a, A: Allocator> {
    pub instance: u32,
    /// The stations of the site.
    pub stations: &'a [site_parts::Station<A>],
}

impl<A: Allocator> fmt::Display for DeviceName<'_, A> {
    ghost output = { λ n. Some (spec.name_found (spec.device_of n.instance n.stations.now)) };

    fn fmt<W: fmt::Write>(&self, f: &mut fmt::Formatter<W>) -> fmt::Result {
        match device_of(self.instance, self.stations) {
            Some(station) => write!(f, "{}", Name(station.name.as_slice())),
            None => Ok(()),
        }
    }
}

/// The device of this instance (12.11).
fn device_of<A: Allocator>(
    instance: u32,
    stations: &[site_parts::Station<A>],
) -> Option<&site_parts::Station<A>>
    ensures { option_copied result ≡ spec.device_of instance stations.now }
{
    let mut left = stations;
    while let [first, rest @ ..] = left {
        if is_of_instance(instance, first.role.objects()) {
            return Some(first);
        }
        left = rest;
    }
    None
}

/// Whether these are the objects of the device of this instance.
fn is_of_instance<A: Allocator>(instance: u32, objects: Option<&SiteObjects<A>>) -> bool
    ensures { result ≡ spec.is_of_instance instance (option_copied objects.entry) }
{
    match objects {
        Some(objects) => objects.instance == instance,
        None => false,
    }
}
