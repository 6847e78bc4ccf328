//! What a message carries was said (ANSI/ASHRAE 135, clauses 5 and 6).
//!
//! To the layers above it promises: whatever is inside the parcels of a client or a device stands in the book, from it,
//! to whom it is for and at that moment, and stays there; and where whatever is inside a parcel was said, a client or a
//! device that it reaches within a second hears only what was said to it. So a network has but to keep what is inside,
//! and its stamp. It has no code, and knows neither datagrams nor frames. In `specs/`:
//!
//! - `Said`: what it is that a parcel carries what was said.
//! - `Laws`: what the functions here state.
#![tactic(auto)]

ghost use Rattle.carry_said.specs.Laws.{ClientAsksSaid, ClientHearingSays, ClientHearsSaid, ClientIssuesSaid};
ghost use Rattle.carry_said.specs.Laws.{ClientSaysSaid, ClientSaysSomething, DeviceHearingSays, DeviceHearsSaid};
ghost use Rattle.carry_said.specs.Laws.{DeviceSaysSaid, DeviceSaysSomething, HeardWasSaid, SaidStill};
ghost use Rattle.carry_said.specs.Laws.{WhoIsSaysSomething};

use std::alloc::Allocator;

/// What was said stays said, whatever is said later.
pub fn said_still<A: Allocator>()
    ensures { SaidStill A }
{}

/// Of a parcel that carries what was said, a station that it reaches within a second hears what was said to it; and
/// whatever is heard of a parcel whose inside is among what was said was said so, octet for octet.
pub fn hears_what_was_said<A: Allocator>()
    ensures device { DeviceHearsSaid A }
    ensures client { ClientHearsSaid A }
    ensures heard { HeardWasSaid A }
{}

/// The parcels of a device carry what it says.
pub fn device_says<A: Allocator>()
    ensures { DeviceSaysSaid A }
{}

/// The parcels of a client carry what it says.
pub fn client_says<A: Allocator>()
    ensures acts { ClientSaysSaid A }
    ensures issues { ClientIssuesSaid A }
    ensures asks { ClientAsksSaid A }
{}

/// There is something inside each parcel that is said, and who says it is its source.
pub fn says_something<A: Allocator>()
    ensures device { DeviceSaysSomething A }
    ensures client { ClientSaysSomething A }
    ensures asks { WhoIsSaysSomething A }
    ensures device_hears { DeviceHearingSays A }
    ensures client_hears { ClientHearingSays A }
{}
