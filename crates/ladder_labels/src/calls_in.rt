//! The transaction that a message belongs to (5.4), and which segment it is or acknowledges (5.2).

use apdu::{Apdu, Segment};
use npdu::{Dnet, Mac, Station, View};

/// Which message of a transaction a segment is part of.
#[derive(Clone, Copy, Debug, PartialEq, Eq)]
pub enum Side {
    Request,
    Answer,
}

/// A segment that a message is, or acknowledges.
#[derive(Clone, Copy, Debug, PartialEq, Eq)]
pub struct SegmentOf {
    pub of: Side,
    /// Its sequence number, modulo 256, from 0.
    pub sequence_number: u8,
    /// Whether it is the last segment.
    pub is_last: bool,
}

/// A message of a transaction: who asks whom, under which invoke ID.
#[derive(Clone, Copy, Debug, PartialEq, Eq)]
pub struct Call {
    pub client: Station,
    pub device: Station,
    pub invoke_id: u8,
    /// Whether the message is a request, or a segment of one.
    pub is_request: bool,
    pub part: Option<SegmentOf>,
}

/// Who says an APDU, from the client's side or from the device's.
#[derive(Clone, Copy)]
struct Said {
    by_client: bool,
    invoke_id: u8,
    part: Option<SegmentOf>,
}

/// The transaction of the message in an NPDU, which one station sends to another on a network, if it belongs to one.
pub fn call_in(octets: &[u8], net: u16, from: Mac, to: Mac) -> Option<Call> {
    let Ok(view) = View::read(octets) else {
        return None;
    };
    if view.message.is_some() {
        return None;
    }
    let Ok(apdu) = Apdu::read(view.body) else {
        return None;
    };
    let said = said_in(apdu)?;
    let sender = view.sender(net, from)?;
    let receiver = receiver_of(&view, net, to)?;
    let (client, device) = if said.by_client {
        (sender, receiver)
    } else {
        (receiver, sender)
    };
    Some(Call {
        client,
        device,
        invoke_id: said.invoke_id,
        is_request: matches!(apdu, Apdu::ConfirmedRequest { .. }),
        part: said.part,
    })
}

/// Whom a message is for, where that is a single station: the one that DNET and DADR name, else the one that it goes to
/// on its network (6.2.2).
fn receiver_of(view: &View<'_>, net: u16, to: Mac) -> Option<Station> {
    let Some(destination) = view.destination else {
        return Some(Station { net, mac: to });
    };
    match destination.net {
        Dnet::Network(net) => {
            let mac = Mac::from_octets(destination.mac)?;
            Some(Station { net, mac })
        }
        Dnet::Global => None,
    }
}

/// What an APDU says of its transaction (20.1).
fn said_in(apdu: Apdu<'_>) -> Option<Said> {
    match apdu {
        Apdu::ConfirmedRequest {
            segment,
            invoke_id,
            ..
        } => Some(said_so(true, invoke_id, part_of(Side::Request, segment))),
        Apdu::ComplexAck {
            segment,
            invoke_id,
            ..
        } => Some(said_so(false, invoke_id, part_of(Side::Answer, segment))),
        Apdu::SegmentAck {
            server,
            invoke_id,
            sequence_number,
            ..
        } => {
            let part = SegmentOf {
                of: if server { Side::Request } else { Side::Answer },
                sequence_number,
                is_last: false,
            };
            Some(said_so(!server, invoke_id, Some(part)))
        }
        Apdu::Abort {
            server,
            invoke_id,
            ..
        } => Some(said_so(!server, invoke_id, None)),
        Apdu::SimpleAck { invoke_id, .. }
        | Apdu::Error { invoke_id, .. }
        | Apdu::Reject { invoke_id, .. } => Some(said_so(false, invoke_id, None)),
        Apdu::UnconfirmedRequest { .. } => None,
    }
}

/// What is said of a transaction.
fn said_so(by_client: bool, invoke_id: u8, part: Option<SegmentOf>) -> Said {
    Said {
        by_client,
        invoke_id,
        part,
    }
}

/// The part of a message that a segment is.
fn part_of(of: Side, segment: Option<Segment>) -> Option<SegmentOf> {
    match segment {
        Some(segment) => Some(SegmentOf {
            of,
            sequence_number: segment.sequence_number,
            is_last: !segment.more_follows,
        }),
        None => None,
    }
}
