//! Networks and stations, as a site lists them.

use crate::role::Role;
use profile::LinkKind;
use std::alloc::Allocator;
use tags::{Items, Octets};

/// A network: its number, 1 to 65534, and its kind of link (6.1).
#[derive(Clone, Copy, Debug, PartialEq, Eq)]
pub struct Network {
    pub number: u16,
    pub link_kind: LinkKind,
}

/// A station of a site: its name, and what it is.
#[derive(Drop)]
#[derive_where(PartialEq, Eq, Debug)]
pub struct Station<A: Allocator> {
    /// 1 to 32 letters and digits.
    pub name: Octets<A>,
    pub role: Role<A>,
}

/// What a site consists of: networks in order, and stations in the order managers, routers, devices, clients.
#[derive(Drop)]
#[derive_where(PartialEq, Eq, Debug)]
pub struct Parts<A: Allocator> {
    pub networks: Items<Network, A>,
    pub stations: Items<Station<A>, A>,
}
