//! A transaction that is to be opened, as a plan has it.

use crate::transaction::Transaction;
use std::alloc::{AllocError, Allocator};
use std::marker::Model;

/// A transaction that is to be opened, in memory of its own: a plan that has one is handed on cheaply.
#[derive(Drop)]
pub struct OpenedTransaction<A: Allocator> {
    held: Box<Transaction<A>, A>,
}

impl<A: Allocator> Model for OpenedTransaction<A> {
    ghost use Rattle.client_tsm.specs.Open.{Open};

    ghost Value = { Open A };

    ghost view = { λ o. o.held.value };
}

impl<A: Allocator> OpenedTransaction<A> {
    ghost use Rattle.std.specs.Prelude.{◌≡◌, IfOk};

    /// Returns a transaction in memory of `alloc`.
    ///
    /// # Errors
    /// Want of memory.
    pub(crate) fn new(alloc: A, transaction: Transaction<A>) -> Result<Self, AllocError>
        ensures { IfOk result (λ opened. opened ≡ transaction) }
    {
        Ok(OpenedTransaction {
            held: Box::new(alloc, transaction)?,
        })
    }

    /// Returns the transaction.
    pub(crate) fn into_transaction(self) -> Transaction<A>
        ensures { result ≡ self }
    {
        Box::into_inner(self.held)
    }
}
