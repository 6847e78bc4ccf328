//! What holds of each node of a site, for the proofs of the layers above (ANSI/ASHRAE 135, clauses 5.4, 6.1, 6.2.2, 6.5
//! and J.4).
//!
//! To the layer above it promises: whatever a node does, it stands as it must and stays where it is; what it tells can
//! be told, and is its own; and what it puts out passes on what it heard, or what it says. In `specs/`:
//!
//! - `Stands`: how a node stands, and that it stays so.
//! - `Says`: what a node tells of what it says.
//! - `Out`, `Laws`: what nodes put out, as things on their way.
#![tactic(auto)]

ghost use Rattle.node_laws.specs.Laws.{AskingPassesOn, CountingPassesOn, FramePassesOn, HearingPassesOn, IssuePassesOn};
ghost use Rattle.node_laws.specs.Laws.{RegisteringPassesOn, RestartPassesOn, WakePassesOn};
ghost use Rattle.node_laws.specs.Says.{RelayIsSilentAtFrame, RelayIsSilentAtHearing, RelayIsSilentAtWake};
ghost use Rattle.node_laws.specs.Says.{SaysAtAsking, SaysAtCounting, SaysAtFrame, SaysAtHearing, SaysAtIssue};
ghost use Rattle.node_laws.specs.Says.{SaysAtRegistering, SaysAtRestart, SaysAtWake};
ghost use Rattle.node_laws.specs.Stands.{StandsLater, StaysAtAsking, StaysAtCounting, StaysAtFrame, StaysAtHearing};
ghost use Rattle.node_laws.specs.Stands.{StaysAtIssue, StaysAtRegistering, StaysAtRestart, StaysAtWake};

use std::alloc::Allocator;

/// Whatever a node does, and as time passes, it stands as it must, and it stays where it is (6.1, 6.6.1).
pub fn nodes_stay<A: Allocator>()
    ensures heard { StaysAtHearing A }
    ensures framed { StaysAtFrame A }
    ensures told { StaysAtCounting A }
    ensures woken { StaysAtWake A }
    ensures issued { StaysAtIssue A }
    ensures asked { StaysAtAsking A }
    ensures registered { StaysAtRegistering A }
    ensures restarted { StaysAtRestart A }
    ensures later { StandsLater A }
{}

/// Whatever a node says can be told, octet for octet, and it says so itself at that moment (5.4, 6.2.2, 16.10).
pub fn nodes_say<A: Allocator>()
    ensures heard { SaysAtHearing A }
    ensures framed { SaysAtFrame A }
    ensures told { SaysAtCounting A }
    ensures woken { SaysAtWake A }
    ensures issued { SaysAtIssue A }
    ensures asked { SaysAtAsking A }
    ensures registered { SaysAtRegistering A }
    ensures restarted { SaysAtRestart A }
{}

/// A router and a manager have no application entity: they say, execute and tell nothing of their own (6.6, J.4).
pub fn relays_are_silent<A: Allocator>()
    ensures heard { RelayIsSilentAtHearing A }
    ensures framed { RelayIsSilentAtFrame A }
    ensures woken { RelayIsSilentAtWake A }
{}

/// Whatever a node puts out passes on what it heard, what waited in its ports or what it says itself, and so does what
/// waits there then; a router and a manager say nothing of their own (6.5.2, 9.5.6, J.4.5).
pub fn nodes_pass_on<A: Allocator>()
    ensures heard { HearingPassesOn A }
    ensures framed { FramePassesOn A }
    ensures told { CountingPassesOn A }
    ensures woken { WakePassesOn A }
    ensures issued { IssuePassesOn A }
    ensures asked { AskingPassesOn A }
    ensures registered { RegisteringPassesOn A }
    ensures restarted { RestartPassesOn A }
{}

pub use site_node::{
    Client, Device, Draft, Executed, Outcome, Part, PartPlan, PartTold, SiteNode, SitePort,
    TransactionOutcome, link_bus,
};
