//! What holds of managers, as functions whose contracts are the laws.

ghost use Rattle.bbmd.specs.Laws.{BroadcastGoesOn, DistributedGoesOn, ForwardedIsSame, ForwardedStays, FullAreApart};

use std::alloc::Allocator;

/// What is broadcast or distributed through a manager goes neither back to who said it nor to the manager itself, where
/// members, managers and foreign devices are apart (J.4.5).
pub fn goes_on()
    ensures broadcast { BroadcastGoesOn }
    ensures distributed { DistributedGoesOn }
{}

/// What another manager forwards goes on octet for octet, and, where members, managers and foreign devices are apart,
/// to no manager: so it is forwarded no further (J.4.5).
pub fn forwarded_stays()
    ensures stays { ForwardedStays }
    ensures same { ForwardedIsSame }
{}

/// Over full tables members, managers and foreign devices are apart at each manager.
pub fn full_are_apart<A: Allocator>()
    ensures { FullAreApart A }
{}
