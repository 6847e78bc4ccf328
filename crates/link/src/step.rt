//! What is put out, and what an event changes of a link before it is done.

ghost use Rattle.link.specs.Step as spec;

use npdu::Mac;
use std::alloc::Allocator;
use std::marker::Model;
use tags::Octets;

/// A datagram or a frame that is put out on a network.
#[derive(Drop)]
#[derive_where(Debug, PartialEq, Eq)]
pub struct Sent<A: Allocator> {
    /// The station on this network that it goes to.
    pub to: Mac,
    /// The whole datagram or frame.
    pub octets: Octets<A>,
    /// The moment at which the message in it was said, in milliseconds.
    pub stamp: u64,
}

/// A datagram or a frame that is put out over a port of a station.
#[derive(Drop)]
#[derive_where(Debug, PartialEq, Eq)]
pub struct PortSent<A: Allocator> {
    /// The number of the port, from 0 on.
    pub port: usize,
    /// What is put out.
    pub sent: Sent<A>,
}

impl<A: Allocator> Model for PortSent<A> {
    ghost Value = { spec.PortSent A };

    ghost view = { λ s. record { port = s.port; sent = s.sent } };

    ghost inverse = { λ s. record { port = s.port; sent = s.sent } };
}

/// What the calls of one event change of a link: it stays as it is until the event can't be refused any more, and the
/// link settles then.
#[derive(Drop)]
pub enum Change<L> {
    /// Nothing.
    Nothing,
    /// The moment of its last call alone.
    Moment,
    /// All of it: this is in its place.
    Whole(L),
}
