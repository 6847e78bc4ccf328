//! A message of a request, from its APDU.

ghost use Rattle.std.specs.Prelude.{◌≡◌};
ghost use Rattle.apdu.specs.Apdu.{apdu_of};
ghost use Rattle.last_hop.specs.Parts as spec;
ghost use Rattle.unitdata.specs.Heard.{content_of};

use apdu::{Apdu, Segment};
use npdu::Station;
use unitdata::HeardContent;

/// Which message of a request (5.4).
#[derive(Clone, Copy, Debug, PartialEq, Eq)]
pub enum RequestOrAnswer {
    /// The Confirmed-Request, or all its segments.
    Request,
    /// The SimpleACK, the ComplexACK or all its segments, the Error, the Reject, or the Abort of the device.
    Answer,
}

/// Who asks whom, under which invoke ID (20.1.2.6).
#[derive(Clone, Copy, Debug, PartialEq, Eq)]
pub struct Invocation {
    pub client: Station,
    pub device: Station,
    pub invoke_id: u8,
}

/// A message of a request, as its addressee hears it: the request, its answer, or a segment of one of them.
#[derive(Clone, Copy, Debug, PartialEq, Eq)]
pub struct HeardPart {
    pub invocation: Invocation,
    pub which: RequestOrAnswer,
    pub segment: Option<Segment>,
}

/// What a client says to a device.
fn request(client: Station, device: Station, invoke_id: u8, segment: Option<Segment>) -> HeardPart
    ensures { result ≡ spec.request client device invoke_id segment }
{
    HeardPart {
        invocation: Invocation {
            client,
            device,
            invoke_id,
        },
        which: RequestOrAnswer::Request,
        segment,
    }
}

/// What a device says to a client.
fn answer(client: Station, device: Station, invoke_id: u8, segment: Option<Segment>) -> HeardPart
    ensures { result ≡ spec.answer client device invoke_id segment }
{
    HeardPart {
        invocation: Invocation {
            client,
            device,
            invoke_id,
        },
        which: RequestOrAnswer::Answer,
        segment,
    }
}

/// The message of a request that one station hears of another, if this is one (20.1.2 to 20.1.9). A SegmentACK is none,
/// and neither is the Abort of a client.
pub(crate) fn part_in(here: Station, there: Station, content: HeardContent<'_>) -> Option<HeardPart>
    ensures { result ≡ spec.part_in here there (content_of content.entry) }
{
    match content {
        HeardContent::Apdu(apdu) => part_of(here, there, apdu),
        HeardContent::Rejected(_) => None,
    }
}

/// The same of an APDU.
fn part_of(here: Station, there: Station, apdu: Apdu<'_>) -> Option<HeardPart>
    ensures { result ≡ spec.part_of here there (apdu_of apdu.entry) }
{
    match apdu {
        Apdu::ConfirmedRequest {
            segment,
            invoke_id,
            ..
        } => Some(request(there, here, invoke_id, segment)),
        Apdu::ComplexAck {
            segment,
            invoke_id,
            ..
        } => Some(answer(here, there, invoke_id, segment)),
        Apdu::SimpleAck { invoke_id, .. }
        | Apdu::Error { invoke_id, .. }
        | Apdu::Reject { invoke_id, .. } => Some(answer(here, there, invoke_id, None)),
        Apdu::Abort {
            server,
            invoke_id,
            ..
        } => if server {
            Some(answer(here, there, invoke_id, None))
        } else {
            None
        },
        Apdu::UnconfirmedRequest { .. } | Apdu::SegmentAck { .. } => None,
    }
}
