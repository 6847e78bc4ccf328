//! What holds of all that is on its way, for the proofs of the layers above. A function without a body is a law: its
//! contract.

ghost use Rattle.carry.specs.Laws.{CarriedStill, PassedOnIsCarried, PutOutIsCarried, PutOutPassesOn, StampIsBorne};
ghost use Rattle.carry.specs.Laws.{DatagramReaches, OtherDatagramPassesOn, PortPutsOut, WaitingPutsOut};
ghost use Rattle.carry.specs.Laws.{FramePassesOn, FrameReaches, OtherFramePassesOn};
ghost use Rattle.carry.specs.Laws.{ManagerPassesOn, NetworkMessagePassesOn, RoutedIsPassedOn, RouterPassesOn};

use std::alloc::Allocator;

/// What is passed on of what is carried is carried; so is what puts out what was said; and what is carried is carried
/// still, whatever is said later.
pub fn passing_is_carried<A: Allocator>()
    ensures passed { PassedOnIsCarried A }
    ensures put { PutOutIsCarried A }
    ensures still { CarriedStill A }
{}

/// What a thing bears has its stamp.
pub fn stamp_is_borne<A: Allocator>()
    ensures { StampIsBorne A }
{}

/// A port puts out its parcels and nothing else, be they sent (J.4, J.5) or waiting; what a datagram bears reaches whom
/// it is handed to; a datagram without an NPDU passes on nothing that wasn't said.
pub fn ports_put_out<A: Allocator>()
    ensures puts { PortPutsOut A }
    ensures waits { WaitingPutsOut A }
    ensures reaches { DatagramReaches A }
    ensures other { OtherDatagramPassesOn A }
{}

/// A node puts what waits into frames (9.3); what a frame bears reaches the nodes that it is for; a frame without an
/// NPDU passes on nothing that wasn't said.
pub fn frames_pass_on<A: Allocator>()
    ensures framed { FramePassesOn A }
    ensures reaches { FrameReaches A }
    ensures other { OtherFramePassesOn A }
{}

/// A network message passes on nothing that wasn't said (6.2.4).
pub fn network_message_passes_on<A: Allocator>()
    ensures { NetworkMessagePassesOn A }
{}

/// A router passes on what it hears (6.5.2).
pub fn router_passes_on<A: Allocator>()
    ensures routed { RoutedIsPassedOn A }
    ensures out { RouterPassesOn A }
    ensures port { PutOutPassesOn A }
{}

/// A broadcast manager passes on what it hears (J.4.5).
pub fn manager_passes_on<A: Allocator>()
    ensures { ManagerPassesOn A }
{}
