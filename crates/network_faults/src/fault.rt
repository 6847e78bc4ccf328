//! What happens on the network.

use last_hop::RequestOrAnswer;
use std::alloc::Allocator;
use tags::Octets;

/// Which issue of a request.
#[derive(Clone, Copy, Debug, PartialEq, Eq)]
pub enum IssueRef {
    /// The one of this number in the history, counted from 0.
    Number(u64),
    /// The latest one.
    Last,
}

/// A message that a fault is of, as its addressee receives it: on the last network of its way.
#[derive(Clone, Copy, Debug, PartialEq, Eq)]
pub struct FaultyMessage {
    pub which: RequestOrAnswer,
    pub issue: IssueRef,
}

/// What happens on the network. A name need not be that of a station.
#[derive(Drop)]
#[derive_where(PartialEq, Eq, Debug)]
pub enum NetworkFault<A: Allocator> {
    /// So many sendings of a message are lost, at least one.
    Lose { count: u64, message: FaultyMessage },
    /// One of its sendings is received twice.
    Repeat(FaultyMessage),
    /// One comes so many milliseconds late, 1 to 1000.
    Delay { message: FaultyMessage, ms: u64 },
    /// One is damaged on its way.
    Damage(FaultyMessage),
    /// A station receives nothing for so many milliseconds, at least one.
    LoseTo { station: Octets<A>, ms: u64 },
    /// On the network of this number nothing is received for so many milliseconds, at least one.
    LoseOn { network: u16, ms: u64 },
}
