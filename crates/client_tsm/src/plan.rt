//! What is planned for an input, before anything changes.

use crate::opened::OpenedTransaction;
use crate::said::ClientSaid;
use apdu::{AbortReason, RejectReason, Segment};
use primitives::Reply;
use segments::Sender;
use std::alloc::Allocator;
use tags::{Items, Octets};

/// What comes of a transaction.
#[derive(Drop)]
#[derive_where(PartialEq, Eq, Debug)]
pub enum Outcome<A: Allocator> {
    /// The device answered: what its answer means.
    Answered(Reply<A>),
    /// The device aborted the transaction (20.1.9).
    Aborted(AbortReason),
    /// The device rejected the request (20.1.8).
    Rejected(RejectReason),
    /// There was no answer in time, or it was too long.
    TimedOut,
}

/// What a client tells its user: what came of the transaction under this invoke ID.
#[derive(Drop)]
#[derive_where(PartialEq, Eq, Debug)]
pub struct TransactionOutcome<A: Allocator> {
    pub invoke_id: u8,
    pub outcome: Outcome<A>,
}

/// What is to change of a client. Places count its open transactions, in order of issue.
#[derive(Drop)]
pub enum ClientTsmChange<A: Allocator> {
    /// Nothing.
    Stays,
    /// A transaction is opened, under the next invoke ID.
    Opens(OpenedTransaction<A>),
    /// More of the request of the transaction at this place came: what goes on sending it, or none.
    Sends(usize, Option<Sender>),
    /// This segment of the answer to the transaction at this place came, with these octets; its request came whole.
    Gathers(usize, Segment, Octets<A>),
    /// A segment of the answer to the transaction at this place was heard and not taken; its request came whole.
    Renews(usize),
    /// The transaction at this place ends.
    Ends(usize),
    /// All transactions go on or end as at a wake.
    Wakes,
}

/// What is said of an input, what is told of it, and what it changes.
#[derive(Drop)]
pub struct ClientTsmPlan<A: Allocator> {
    /// What is said, in order.
    pub said: Items<ClientSaid<A>, A>,
    /// What is told, in order.
    pub told: Items<TransactionOutcome<A>, A>,
    /// What changes.
    pub change: ClientTsmChange<A>,
}

/// What comes of an issue.
#[derive(Drop)]
pub struct ClientTsmIssued<A: Allocator> {
    /// The invoke ID that was given.
    pub invoke_id: u8,
    /// What is said, in order.
    pub said: Items<ClientSaid<A>, A>,
}

/// What comes of any other input.
#[derive(Drop)]
pub struct ClientTsmTold<A: Allocator> {
    /// What is said, in order.
    pub said: Items<ClientSaid<A>, A>,
    /// What is told, in order.
    pub told: Items<TransactionOutcome<A>, A>,
}
