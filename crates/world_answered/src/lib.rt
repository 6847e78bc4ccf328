//! A request is answered in a world, where nothing is lost (ANSI/ASHRAE 135, clauses 5.4.4, 5.4.5, 6.5).
//!
//! The promise of a world says that what comes is right; a world that is silent would keep it. This says the other
//! half, of the world's own events: whatever events came before, a request of a client that is bound to a device which
//! is ready is executed and answered, once, with the reply of that device's objects, where the item that each event
//! puts out is delivered and none of these events is refused. It has no code. Each function is a law: its contract. In
//! `specs/`:
//!
//! - `Exchange`: the events, over one network and over a router between two, and what they leave of the history.
#![tactic(auto)]

ghost use Rattle.world_answered.specs.Exchange.{AnsweredAtOnce, AnsweredLater, AnswersPutOut};
ghost use Rattle.world_answered.specs.Exchange.{IssuesPutOut, RoutedAnswersPutOut, RoutedAtOnce, RoutedLater};
ghost use Rattle.world_answered.specs.Exchange.{RoutedIssuesPutOut, RoutersPutOut};

use std::alloc::Allocator;

/// On one network of BACnet/IP: an issue, the delivery of the item that it put out to the device, and of the item that
/// this put out to the client, one behind another or with ticks between, end in the reply of the device's objects.
pub fn is_answered<A: Allocator>()
    ensures at_once { AnsweredAtOnce A }
    ensures later { AnsweredLater A }
{}

/// Neither is silent: an issue to a device of the client's own network of BACnet/IP puts out one item, for the device;
/// and the device that serves it puts out one, for the client, or for the router that it came over, which itself passed
/// the request on in one item, for the device (5.4.4.1, 5.4.5.3, 6.5).
pub fn none_is_silent<A: Allocator>()
    ensures issue { IssuesPutOut A }
    ensures routed_issue { RoutedIssuesPutOut A }
    ensures answer { AnswersPutOut A }
    ensures routed { RoutedAnswersPutOut A }
    ensures router { RoutersPutOut A }
{}

/// Over a router between two networks of BACnet/IP: an issue and four deliveries, each of the item that the event
/// before put out, to the router, the device, the router and the client, end in the reply of the device's objects.
pub fn is_answered_over_a_router<A: Allocator>()
    ensures at_once { RoutedAtOnce A }
    ensures later { RoutedLater A }
{}
