//! Names, rows and addresses, as they stand in what is told.

use crate::part::Part;
use bvll::Address;
use site::Mark;
use site_parts::{Role, Station};
use std::alloc::Allocator;
use std::fmt;

/// A station: its index among all, and its name, which is letters and digits. It prints as its name.
#[derive(Clone, Copy, Debug)]
pub(crate) struct Named<'a> {
    pub(crate) index: usize,
    pub(crate) name: &'a str,
}

impl fmt::Display for Named<'_> {
    fn fmt<W: fmt::Write>(&self, f: &mut fmt::Formatter<W>) -> fmt::Result {
        f.write_str(self.name)
    }
}

impl<'a> Named<'a> {
    /// The station at an index.
    pub(crate) fn at<A: Allocator>(index: usize, station: &'a Station<A>) -> Named<'a> {
        Named {
            index,
            name: name_of(station),
        }
    }

    /// The station as a part of its site.
    pub(crate) fn part(self) -> Part {
        Part::Station(self.index)
    }

    /// One of the station's links.
    pub(crate) fn link(self, link: usize) -> Part {
        Part::Link {
            station: self.index,
            link,
        }
    }

    /// One of the station's objects.
    pub(crate) fn object(self, object: usize) -> Part {
        Part::Object {
            device: self.index,
            object,
        }
    }
}

/// A station's name, which is letters and digits.
pub(crate) fn name_of<A: Allocator>(station: &Station<A>) -> &str {
    text_of(station.name.as_slice())
}

/// Octets of UTF-8 as a text.
pub(crate) fn text_of(octets: &[u8]) -> &str {
    std::str::from_utf8(octets).unwrap_or("?")
}

/// A row of an array of a site file, the first one being 1: `device 2`.
#[derive(Clone, Copy, Debug)]
pub(crate) struct Row {
    array: &'static str,
    number: usize,
}

impl fmt::Display for Row {
    fn fmt<W: fmt::Write>(&self, f: &mut fmt::Formatter<W>) -> fmt::Result {
        write!(f, "{} {}", self.array, self.number)
    }
}

/// The row of a station behind others.
pub(crate) fn row_behind<A: Allocator>(before: &[Station<A>], station: &Station<A>) -> Row {
    let array = array_of(&station.role);
    let mut number = 1usize;
    for other in before {
        if array_of(&other.role) == array {
            number = number.saturating_add(1);
        }
    }
    Row { array, number }
}

/// The array that a station stands in.
fn array_of<A: Allocator>(role: &Role<A>) -> &'static str {
    match role {
        Role::Manager(_) => "bbmd",
        Role::Router(_) => "router",
        Role::Device { .. } => "device",
        Role::Client { .. } => "client",
    }
}

/// What two stations have in common: `the address 127.0.0.1:47808`, `the MAC 5 on network 2`, `the instance 10`.
#[derive(Clone, Copy, Debug)]
pub(crate) struct Common(pub(crate) Mark);

impl fmt::Display for Common {
    fn fmt<W: fmt::Write>(&self, f: &mut fmt::Formatter<W>) -> fmt::Result {
        fmt_mark(self.0, f)
    }
}

fn fmt_mark<W: fmt::Write>(mark: Mark, f: &mut fmt::Formatter<W>) -> fmt::Result {
    match mark {
        Mark::Network(number) => write!(f, "the number {number}"),
        Mark::Instance(instance) => write!(f, "the instance {instance}"),
        Mark::Address(octets) => fmt_address(Address::from_octets(&octets), f),
        Mark::Bus { network, mac } => write!(f, "the MAC {mac} on network {network}"),
        Mark::Managed { network, subnet } => write!(f, "subnet {subnet} of network {network}"),
    }
}

fn fmt_address<W: fmt::Write>(address: Address, f: &mut fmt::Formatter<W>) -> fmt::Result {
    let Address {
        ip: [a, b, c, d],
        port,
    } = address;
    write!(f, "the address {a}.{b}.{c}.{d}:{port}")
}
