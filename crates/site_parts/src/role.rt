//! What a station is, and where it stands.

use crate::place::{Foreign, Link, Place};
use object_model::SiteObjects;
use std::alloc::Allocator;
use tags::Items;

/// What a station is, and where it stands.
#[derive(Drop)]
#[derive_where(PartialEq, Eq, Debug)]
pub enum Role<A: Allocator> {
    /// A broadcast manager (BBMD), on a subnet (J.4).
    Manager(Link),
    /// A router, with its ports in order (6.6).
    Router(Items<Link, A>),
    /// A device with its objects (12).
    Device {
        place: Place<A>,
        objects: SiteObjects<A>,
    },
    /// A client, and whether it takes segmented answers (5.2).
    Client {
        place: Place<A>,
        segmented: bool,
    },
}

impl<A: Allocator> Role<A> {
    ghost use Rattle.std.specs.Prelude.{◌≡◌, option_copied};
    ghost use Rattle.site_parts.specs.Roles as spec;

    /// All places of the station on networks: those of a router's ports, in order, and one or none of another station.
    pub fn links(&self) -> &[Link]
        ensures { result.now ≡ spec.links_in self.now }
    {
        match self {
            Role::Manager(link) => std::slice::from_ref(link),
            Role::Router(ports) => ports.as_slice(),
            Role::Device { place, .. } | Role::Client { place, .. } => place.links(),
        }
    }

    /// The ports of a router, in order; no other station has any.
    pub fn ports(&self) -> &[Link]
        ensures { result.now ≡ spec.ports_in self.now }
    {
        match self {
            Role::Router(ports) => ports.as_slice(),
            Role::Manager(_) | Role::Device { .. } | Role::Client { .. } => &[],
        }
    }

    /// The station's place, where it is beyond all subnets.
    pub fn beyond(&self) -> Option<&Foreign<A>>
        ensures { option_copied result ≡ spec.beyond self.now }
    {
        match self {
            Role::Device { place, .. } | Role::Client { place, .. } => place.beyond(),
            Role::Manager(_) | Role::Router(_) => None,
        }
    }

    /// The objects of a device; no other station has any.
    pub fn objects(&self) -> Option<&SiteObjects<A>>
        ensures { option_copied result ≡ spec.objects_in self.now }
    {
        match self {
            Role::Device { objects, .. } => Some(objects),
            Role::Manager(_) | Role::Router(_) | Role::Client { .. } => None,
        }
    }
}
