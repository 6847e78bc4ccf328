//! The protocol of BACnet's objects, for the promise of the whole internetwork (ANSI/ASHRAE 135, clauses 12, 15, 20).
//!
//! To the layers above it gives the stations, requests, replies and tables that the promise is about, with their laws,
//! and what an APDU says of them. It has no code. In `specs/`, from below:
//!
//! - `Stations`: the longest APDU of each station.
//! - `Bodies`: what an APDU says, for the book of all that was said, and where a way leads.
//! - `Protocol`: what requests and answers mean, and the protocol.
//! - `Speaking`: that octets are heard to say what they say.
//! - `Laws`: that the protocol keeps the laws of the promise.
//! - `Refined`: what it is that a step of stations is a list of honest happenings.
//! - `Network`: that what the network brings to a station was said.
#![tactic(auto)]

ghost use Rattle.headline_bacnet.specs.Refined.{RefinedSaidStays};
ghost use Rattle.headline_bacnet.specs.Speaking.{ErrorIsSaid, IAmIsSaid, WhoIsIsSaid, WrittenIsSaid};

use headline::HasProtocol;
use npdu::Station;
use objects::Table;
use primitives::{Reply, Request};
use std::alloc::Allocator;

/// The objects of a site, in memory of some allocator.
pub struct BacnetProtocol<A: Allocator> {
    /// The allocator.
    pub alloc: A,
}

impl<A: Allocator> HasProtocol<Station, Request<A>, Reply<A>, Table<A>> for BacnetProtocol<A> {
    ghost use Rattle.headline_bacnet.specs.Laws.{object_laws};
    ghost use Rattle.headline_bacnet.specs.Protocol.{bacnet};

    ghost protocol = { bacnet A };

    fn has_protocol(&self) -> bool {
        true
    }

    ghost lawful = { object_laws A };
}

/// An APDU of a transaction that is written is heard to say what it says; so is an Error with any contents.
pub fn written_is_said()
    ensures written { WrittenIsSaid }
    ensures error { ErrorIsSaid }
{}

/// An I-Am and a Who-Is that are written are heard to say what they say.
pub fn unconfirmed_is_said()
    ensures i_am { IAmIsSaid }
    ensures who_is { WhoIsIsSaid }
{}

/// What was said stays said, wherever honest happenings lead.
pub fn refined_said_stays<A: Allocator>()
    ensures { RefinedSaidStays A }
{}
