//! What is wrong with a history.

use std::alloc::AllocError;
use tags::Fault;
use thiserror::Error;

/// What is wrong with a history. A place counts its entries from 0.
#[derive(Clone, Copy, Debug, PartialEq, Eq, Error)]
pub enum Illegal {
    /// Issues are numbered 0, 1, .. in order.
    #[error("entry {place}: an issue has another number than the next")]
    OtherNumber { place: usize },
    /// Each other entry of an issue stands behind it.
    #[error("entry {place}: of an issue that doesn't stand before it")]
    NotIssued { place: usize },
    /// An issue is executed at most once.
    #[error("entry {place}: executed a second time")]
    ExecutedAgain { place: usize },
    /// An answer stands behind an execution with the same reply.
    #[error("entry {place}: answered so, and not executed so before")]
    NotExecuted { place: usize },
    /// An issue is answered or ends at most once.
    #[error("entry {place}: answered or ended a second time")]
    OverAgain { place: usize },
    /// What is executed, and what restarts, is a device of the site.
    #[error("entry {place}: of a device that isn't there")]
    NoDevice { place: usize },
    /// A device replies what its objects give.
    #[error("entry {place}: executed with another reply than the device's objects give")]
    OtherReply { place: usize },
    /// Its objects are what its executions leave.
    #[error("device {instance}: other objects than its executions leave")]
    OtherObjects { instance: u32 },
}

/// Why a history isn't found legal.
#[derive(Clone, Copy, Debug, PartialEq, Eq, Error)]
pub enum Objection {
    /// It is not.
    #[error("{0}")]
    Illegal(Illegal),
    /// It can't be judged: there is no memory, or what a site gives a device is none.
    #[error("{0}")]
    Unjudged(Fault),
}

impl From<Illegal> for Objection {
    fn from(illegal: Illegal) -> Objection {
        Objection::Illegal(illegal)
    }
}

impl From<Fault> for Objection {
    fn from(fault: Fault) -> Objection {
        Objection::Unjudged(fault)
    }
}

impl From<AllocError> for Objection {
    fn from(_error: AllocError) -> Objection {
        Objection::Unjudged(Fault::Memory)
    }
}
