//! Requests and answers, as far as transactions go.

use crate::heading::{Outcome, SegmentsTaken};
use apdu::Segment;

/// A request, or a segment of one.
#[derive(Clone, Copy)]
pub struct Asked<'a> {
    pub service: u8,
    pub segment: Option<Segment>,
    pub data: &'a [u8],
}

/// An answer, or a segment of one.
#[derive(Clone, Copy)]
pub struct Answered<'a> {
    /// How it ends the transaction; a segment that others follow doesn't.
    pub outcome: Option<Outcome>,
    pub segment: Option<Segment>,
    /// What a ComplexACK says.
    pub data: &'a [u8],
    /// The whole APDU.
    pub octets: &'a [u8],
}

/// What is said between a request and its answer.
#[derive(Clone, Copy)]
pub enum WentOn {
    /// The client says that the transaction is over.
    GaveUp(Outcome),
    /// The client took segments of the answer.
    ClientTook(SegmentsTaken),
    /// The server took segments of the request.
    ServerTook(SegmentsTaken),
}
