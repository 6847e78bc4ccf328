//! What an APDU is to the transaction that it belongs to, whichever its service: Errors are taken in any form.

use apdu::{Apdu, Segment};
use tags::Fault;

/// How a transaction ended.
#[derive(Clone, Copy)]
pub enum Outcome {
    /// By a SimpleACK, or a ComplexACK and all its segments.
    Acknowledged,
    /// By an Error.
    Failed,
    /// By a Reject for the reason of this number (18.9).
    Rejected(u8),
    /// By an Abort for the reason of this number (18.10), from the server or the client.
    Aborted(u8),
}

/// What a SegmentACK says (20.1.6).
#[derive(Clone, Copy)]
pub struct SegmentsTaken {
    /// Whether a segment is lacking.
    pub is_negative: bool,
    /// The number of the last segment that came in its order, modulo 256.
    pub sequence_number: u8,
    /// How many segments may be sent before the next SegmentACK.
    pub window: u8,
}

/// An APDU, as far as transactions go.
#[derive(Clone, Copy)]
pub enum Heading<'a> {
    /// A Confirmed-Request or a segment of one, from the client.
    Request {
        invoke_id: u8,
        service: u8,
        segment: Option<Segment>,
        data: &'a [u8],
    },
    /// An Unconfirmed-Request.
    Unconfirmed {
        service: u8,
        data: &'a [u8],
    },
    /// What the server answers; a segment that others follow has no outcome.
    Answer {
        invoke_id: u8,
        outcome: Option<Outcome>,
        segment: Option<Segment>,
        /// What a ComplexACK says; empty of other answers.
        data: &'a [u8],
    },
    /// What the client says as it gives up.
    GaveUp {
        invoke_id: u8,
        outcome: Outcome,
    },
    /// What the client says to segments of the answer.
    ClientTook {
        invoke_id: u8,
        taken: SegmentsTaken,
    },
    /// What the server says to segments of the request.
    ServerTook {
        invoke_id: u8,
        taken: SegmentsTaken,
    },
}

/// The type of an Error among those of APDUs (20.1.7).
const ERROR: u8 = 5;

/// What an APDU is.
///
/// # Errors
/// Why octets are none (20.1).
pub fn heading_of(octets: &[u8]) -> Result<Heading<'_>, Fault> {
    if let [first, invoke_id, _, ..] = octets {
        if *first >> 4 == ERROR {
            return Ok(answer(*invoke_id, Outcome::Failed));
        }
    }
    Ok(heading_in(Apdu::read(octets)?))
}

/// What an APDU is.
fn heading_in(apdu: Apdu<'_>) -> Heading<'_> {
    match apdu {
        Apdu::ConfirmedRequest {
            segment,
            invoke_id,
            service,
            data,
            ..
        } => Heading::Request {
            invoke_id,
            service,
            segment,
            data,
        },
        Apdu::UnconfirmedRequest { service, data } => Heading::Unconfirmed { service, data },
        Apdu::SimpleAck { invoke_id, .. } => answer(invoke_id, Outcome::Acknowledged),
        Apdu::ComplexAck {
            segment,
            invoke_id,
            data,
            ..
        } => acknowledgement(invoke_id, segment, data),
        Apdu::SegmentAck {
            negative,
            server,
            invoke_id,
            sequence_number,
            window,
        } => {
            let taken = SegmentsTaken {
                is_negative: negative,
                sequence_number,
                window,
            };
            segments_taken(server, invoke_id, taken)
        }
        Apdu::Error { invoke_id, .. } => answer(invoke_id, Outcome::Failed),
        Apdu::Reject { invoke_id, reason } => {
            answer(invoke_id, Outcome::Rejected(u8::from(reason)))
        }
        Apdu::Abort {
            server,
            invoke_id,
            reason,
        } => abort(server, invoke_id, u8::from(reason)),
    }
}

/// An answer in one piece.
fn answer<'a>(invoke_id: u8, outcome: Outcome) -> Heading<'a> {
    Heading::Answer {
        invoke_id,
        outcome: Some(outcome),
        segment: None,
        data: &[],
    }
}

/// What either side says to segments of the other.
fn segments_taken<'a>(is_server: bool, invoke_id: u8, taken: SegmentsTaken) -> Heading<'a> {
    if is_server {
        return Heading::ServerTook { invoke_id, taken };
    }
    Heading::ClientTook { invoke_id, taken }
}

/// A ComplexACK, or a segment of one.
fn acknowledgement(invoke_id: u8, segment: Option<Segment>, data: &[u8]) -> Heading<'_> {
    let outcome = match segment {
        Some(segment) if segment.more_follows => None,
        Some(_) | None => Some(Outcome::Acknowledged),
    };
    Heading::Answer {
        invoke_id,
        outcome,
        segment,
        data,
    }
}

/// An Abort from either side.
fn abort<'a>(is_server: bool, invoke_id: u8, reason: u8) -> Heading<'a> {
    let outcome = Outcome::Aborted(reason);
    if is_server {
        return answer(invoke_id, outcome);
    }
    Heading::GaveUp { invoke_id, outcome }
}
