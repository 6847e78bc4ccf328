//! Worked examples of the promise over a world of octets: runs of its steps that compute (ANSI/ASHRAE 135, clauses 5.4,
//! 6.5, J.4.5). For tests alone; nothing stands on it.
//!
//! - `specs/Crossing`: a client and a device on two networks with a router between them. A request crosses it, is
//!   executed once and answered; and no steps make what a router would that puts its outgoing network into SNET.
//! - `specs/Distributing`: a client beyond its manager's subnet, and a device on that. A Who-Is goes through the
//!   manager.
//! - `specs/Illegal`: a history in which a device executes that the site doesn't have, and one of a world that lacks a
//!   device, aren't legal.
//! - `proofs/`: the steps of the runs (`Crossing`, `Distributing`), that what the router would make isn't carried
//!   (`Misnamed`), and what they stand on: what ports and routers put out (`Puts`), the parcels (`Parcels`), where the
//!   runs begin (`Fresh`).
#![tactic(auto)]

ghost use Rattle.carry_runs.specs.Crossing.{HasExchange, IsAnswered, NoneMisnames};
ghost use Rattle.carry_runs.specs.Distributing.{IsForwarded};
ghost use Rattle.carry_runs.specs.Illegal.{NoneIsMissing, NoneIsStrange};

use std::alloc::Allocator;

/// A request through a router's two networks is executed once and answered.
pub fn a_request_crosses_a_router<A: Allocator>()
    ensures { IsAnswered A }
{}

/// There are exchanges in which nothing is lost, of which it is promised that they end in an answer.
pub fn there_is_an_exchange<A: Allocator>()
    ensures { HasExchange A }
{}

/// A broadcast through a manager is heard beyond it.
pub fn a_manager_passes_a_broadcast_on<A: Allocator>()
    ensures { IsForwarded A }
{}

/// No list of steps makes what a router would that puts its outgoing network into SNET.
pub fn no_router_misnames_a_network<A: Allocator>()
    ensures { NoneMisnames A }
{}

/// No history is legal in which what names no device of the site is executed, and none of a world that lacks a device.
pub fn illegal_histories_are_refused<A: Allocator>()
    ensures strange { NoneIsStrange A }
    ensures missing { NoneIsMissing A }
{}
