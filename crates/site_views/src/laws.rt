//! What holds of a sound site, for the proofs of the layers above.

ghost use Rattle.site.specs.Apart.{AreApart};
ghost use Rattle.site.specs.Sound.{IsSound};
ghost use Rattle.site_parts.specs.declared.parts.Parts.{Parts};
ghost use Rattle.site_views.specs.Laws.{AreDevicesApart, AreTablesFull, devices};
ghost use Rattle.site_views.specs.Views.{addresses};

use std::alloc::Allocator;

/// In a sound site no two addresses are one (6.1).
pub fn stations_apart<A: Allocator>()
    ensures { (p : Parts A) → IsSound p → AreApart (addresses p.stations) }
{}

/// The devices of a sound site are at distinct stations, with distinct instances and sound objects (12.11).
pub fn devices_apart<A: Allocator>()
    ensures { (p : Parts A) → IsSound p → AreDevicesApart (devices p.stations) }
{}

/// The managers of a sound site, each made of the members of its subnet and the managers of its network in site order,
/// have full tables where just its foreign devices live in the foreign table of each (J.4.3).
pub fn managers_full<A: Allocator>()
    ensures { AreTablesFull A }
{}
