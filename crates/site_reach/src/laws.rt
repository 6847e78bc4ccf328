//! What holds of the tables of broadcast managers, for the proofs of the layers above.

ghost use Rattle.site_reach.specs.Laws.{BroadcastsReach, TablesAreFull, TablesStand, TablesStay};

use std::alloc::Allocator;

/// No event puts another into a manager's table than a foreign device of its own (J.5.2).
pub fn tables_stay<A: Allocator>()
    ensures { TablesStay A }
{}

/// Whatever events happened since a sound site opened, its managers have the tables that it gives them (J.4.3).
pub fn tables_stand<A: Allocator>()
    ensures { TablesStand A }
{}

/// Once each foreign device of a network is registered, and while its registration lives, the tables of that network
/// are full (J.4.3, J.5.2).
pub fn tables_are_full<A: Allocator>()
    ensures { TablesAreFull A }
{}

/// A broadcast of a station of such a network, which isn't too long, reaches each other station of it once, and nobody
/// else (J.4.5).
pub fn broadcasts_reach<A: Allocator>()
    ensures { BroadcastsReach A }
{}
