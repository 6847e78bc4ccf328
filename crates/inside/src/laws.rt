//! What holds of all that is inside messages, for the proofs of the layers above. A function without a body is a law:
//! its contract.

ghost use Rattle.inside.specs.Laws.{InsideItsHeader, NetworkMessageHasNothing, OneInside, RoutedIsInside};

use std::alloc::Allocator;

/// There is one thing inside a message: that of the one header that it spells (6.2).
pub fn one_inside()
    ensures one { OneInside }
    ensures header { InsideItsHeader }
{}

/// A network message has nothing inside (6.2.4).
pub fn network_message_has_nothing<A: Allocator>()
    ensures { NetworkMessageHasNothing A }
{}

/// What is inside what a router passes on was inside what it heard (6.5.2).
pub fn routed_is_inside<A: Allocator>()
    ensures { RoutedIsInside A }
{}
