//! What is expected of a run.

use network_faults::IssueRef;
use primitives::{PropertyReference, Reply, Values};
use std::alloc::Allocator;
use tags::{ObjectId, Octets};

/// How often a request is executed.
#[derive(Clone, Copy, Debug, PartialEq, Eq)]
pub enum Times {
    Once,
    Never,
}

/// Why a request ends with no answer; where a reason is left out, each is as expected.
#[derive(Clone, Copy, Debug, PartialEq, Eq)]
pub enum ExpectedEnd {
    /// No answer comes in time.
    TimedOut,
    /// A Reject comes (20.1.8).
    Rejected(Option<u8>),
    /// An Abort comes (20.1.9).
    Aborted(Option<u8>),
}

/// How a request ends.
#[derive(Drop)]
#[derive_where(PartialEq, Eq, Debug)]
pub enum Outcome<A: Allocator> {
    /// With an answer, this one or any.
    Answered(Option<Reply<A>>),
    /// With none, for this cause or any.
    Ended(Option<ExpectedEnd>),
}

/// What a property reads.
#[derive(Drop)]
#[derive_where(PartialEq, Eq, Debug)]
pub enum ExpectedValue<A: Allocator> {
    /// A single Unsigned, Signed or Enumerated of this number (20.2.4, 20.2.5, 20.2.11).
    Number(i64),
    /// These values.
    Values(Values<A>),
}

/// What is expected of a run. A name need not be that of a station, and a number not that of a request.
#[derive(Drop)]
#[derive_where(PartialEq, Eq, Debug)]
pub enum Expectation<A: Allocator> {
    /// A request ended so, and, where that is said, at most so many milliseconds behind its issue.
    Closed {
        issue: IssueRef,
        outcome: Outcome<A>,
        within: Option<u64>,
    },
    /// A request was executed so often.
    Executed {
        issue: IssueRef,
        times: Times,
    },
    /// A property of the device of this name reads so.
    Reads {
        station: Octets<A>,
        object: ObjectId,
        property: PropertyReference,
        value: ExpectedValue<A>,
    },
    /// No event was refused.
    NoneRefused,
}
