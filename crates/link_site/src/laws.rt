//! What holds of ports of both kinds, beside the law of a link. A function without a body is a law: its contract.

ghost use Rattle.link_site.specs.Laws.{CarriedIsBorne, IsOnItsNetwork};

use std::alloc::Allocator;

/// Octets carry a parcel exactly where what is then on its way bears it, be it a datagram or a frame; and that is on
/// the network over which they go.
pub fn carried_is_borne<A: Allocator>()
    ensures borne { CarriedIsBorne A }
    ensures place { IsOnItsNetwork A }
{}
