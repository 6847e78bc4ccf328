//! What a client would do on an input, before anything changes.

use bindings::Binding;
use client_tsm::{ClientTsmChange, TransactionOutcome};
use npdu::{Parcel, Rejected};
use std::alloc::Allocator;
use std::marker::Model;
use tags::Items;

/// What is to change of a client.
#[derive(Drop)]
pub(crate) enum ClientChange<A: Allocator> {
    /// Nothing.
    Stays,
    /// A router refused a message: bindings are marked (6.4.4).
    Refuses(Rejected),
    /// A device is bound (16.10.3).
    Binds(Binding),
    /// Its client of transactions changes (5.4.4).
    Transacts(ClientTsmChange<A>),
}

/// What is said and told of an input, and what it changes.
#[derive(Drop)]
pub struct ClientPlan<A: Allocator> {
    /// What is said, in order.
    pub said: Items<Parcel<A>, A>,
    /// What came of transactions, in order.
    pub outcomes: Items<TransactionOutcome<A>, A>,
    pub(crate) change: ClientChange<A>,
}

/// What an issue comes to.
#[derive(Drop)]
pub struct ClientIssuePlan<A: Allocator> {
    /// The invoke ID that is given.
    pub invoke_id: u8,
    /// What is said, and what changes; nothing is told.
    pub plan: ClientPlan<A>,
}

/// What comes of an issue.
#[derive(Drop)]
pub struct ClientIssued<A: Allocator> {
    /// The invoke ID that was given.
    pub invoke_id: u8,
    /// What is said, in order.
    pub said: Items<Parcel<A>, A>,
}

/// What comes of any other input.
#[derive(Drop)]
pub struct ClientTold<A: Allocator> {
    /// What is said, in order.
    pub said: Items<Parcel<A>, A>,
    /// What came of transactions, in order.
    pub outcomes: Items<TransactionOutcome<A>, A>,
}

impl<A: Allocator> Model for ClientTold<A> {
    ghost use Rattle.client.specs.ClientTold as spec;

    ghost Value = { spec.ClientTold A };

    ghost view = { λ s. record { said = s.said; outcomes = s.outcomes } };

    ghost inverse = { λ s. record { said = s.said; outcomes = s.outcomes } };
}
