//! What holds of the nodes that a site opens with, and of a directory, for the proofs of the layers above.

ghost use Rattle.world_sites.specs.Laws.{DevicesAreSite, DevicesOpen, LeadsStill, NamesAgree, NodesAreFresh};
ghost use Rattle.world_sites.specs.Laws.{NodesAreOfSite, NodesStand, PlacesAgree};

use std::alloc::Allocator;

/// The devices of a sound site, with their instances and opening objects, are a site of the promise (12.11).
pub fn devices_are_site<A: Allocator>()
    ensures { DevicesAreSite A }
{}

/// The devices and clients that a sound site opens with are all that a fresh world asks of them.
pub fn nodes_are_fresh<A: Allocator>()
    ensures { NodesAreFresh A }
{}

/// All devices that a sound site describes open, in its order, with its objects, and no others.
pub fn devices_open<A: Allocator>()
    ensures { DevicesOpen A }
{}

/// Each node that a sound site opens with is where its ports are, a router on networks with numbers, and has seen no
/// moment but the first; and each device is one of the site.
pub fn nodes_stand<A: Allocator>()
    ensures stand { NodesStand A }
    ensures of_site { NodesAreOfSite A }
{}

/// Each station of a sound site opens as one node, at its addresses and under its name: their places and names agree.
pub fn nodes_agree<A: Allocator>()
    ensures places { PlacesAgree A }
    ensures names { NamesAgree A }
{}

/// A directory leads to where it led, as long as nodes stay where they are and keep their names.
pub fn directory_stays<A: Allocator>()
    ensures { LeadsStill A }
{}
