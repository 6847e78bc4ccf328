//! What executes requests, and the object machine that does (15).

use objects::Table;
use objects::primitives::{Reply, Request};
use std::alloc::{AllocError, Allocator};

/// Executes requests on objects. A contract sees the table that it holds.
pub trait Executor<A: Allocator> {
    ghost use Rattle.std.specs.Prelude.{◌≡◌, OnOk, OnErr, IfOk};
    ghost use Rattle.objects.specs.primitives.Answers.{IsAnswerTo};
    ghost use Rattle.objects.specs.Machine.{reply, after};
    ghost use Rattle.objects.specs.object_model.Objects.{PlainTable};
    ghost use Rattle.objects.specs.primitives.Sound.{IsSoundRequest, IsSoundReply};

    ghost table_of: { Self → PlainTable A };

    /// What the object machine replies to a request.
    ///
    /// # Errors
    /// Want of memory.
    fn reply(&self, request: &Request<A>) -> Result<Reply<A>, AllocError>
        ensures machine { IfOk result (λ answer. answer ≡ reply (table_of self.now) request.now) }
        ensures sound { IfOk result (λ answer. IsSoundRequest request.now → IsSoundReply answer) }
        ensures answers { IfOk result (λ answer. IsAnswerTo request.now answer) };

    /// Does what a request asks of the objects.
    ///
    /// # Errors
    /// Want of memory. The objects are then as they were.
    fn run(&mut self, request: &Request<A>) -> Result<(), AllocError>
        ensures ran { OnOk result (table_of self.new ≡ after (table_of self.old) request.now) }
        ensures unchanged { OnErr result (table_of self.new ≡ table_of self.old) };

    /// An executor of equal objects.
    ///
    /// # Errors
    /// Want of memory.
    fn copy(&self) -> Result<Self, AllocError>
    where
        Self: Sized,
        ensures copied { IfOk result (λ copy. table_of copy ≡ table_of self.now) };
}

/// Executes requests on the table of a device.
#[derive(Drop)]
pub struct ObjectExecutor<A: Allocator> {
    /// The objects.
    pub table: Table<A>,
}

impl<A: Allocator + Copy> Executor<A> for ObjectExecutor<A> {
    ghost table_of = { λ s. s.table };

    fn reply(&self, request: &Request<A>) -> Result<Reply<A>, AllocError> {
        self.table.reply(request)
    }

    fn run(&mut self, request: &Request<A>) -> Result<(), AllocError> {
        match request {
            Request::Read { .. } | Request::ReadMany(_) => Ok(()),
            Request::Write { .. } | Request::WriteMany(_) => {
                self.table.apply(request)?;
                Ok(())
            }
        }
    }

    fn copy(&self) -> Result<Self, AllocError> {
        Ok(ObjectExecutor {
            table: self.table.copy()?,
        })
    }
}
