//! What a client says, and to whom; it goes out as all that a station says (6.1).

use apdu::{PduType, Segment};
use bindings::Accepts;
use npdu::Way;
use std::alloc::Allocator;
use tags::{Fault, Octets};
use unitdata::Say;

/// What a client says of a transaction.
#[derive(Drop)]
pub enum ClientSaid<A: Allocator> {
    /// A request, or a segment of one (20.1.2).
    Request {
        way: Way,
        accepts: Accepts,
        segment: Option<Segment>,
        invoke_id: u8,
        service: u8,
        data: Octets<A>,
    },
    /// That segments of the answer came, or are lacking (20.1.6).
    SegmentAck {
        way: Way,
        negative: bool,
        invoke_id: u8,
        sequence_number: u8,
        window: u8,
    },
}

impl<A: Allocator> ClientSaid<A> {
    ghost use Rattle.std.specs.Prelude.{◌≡◌};
    ghost use Rattle.apdu.specs.Apdu.{apdu_of};
    ghost use Rattle.apdu.specs.ApduWriting.{CanBeWritten};
    ghost use Rattle.client_tsm.specs.Said.{said_apdu, said_way};

    /// The APDU, which can be written. Takes no memory.
    pub fn apdu(&self) -> apdu::Apdu<'_>
        ensures said { apdu_of result ≡ said_apdu self.now }
        ensures sound { CanBeWritten (apdu_of result) }
    {
        match self {
            ClientSaid::Request {
                accepts,
                segment,
                invoke_id,
                service,
                data,
                ..
            } => apdu::Apdu::ConfirmedRequest {
                segment: *segment,
                segmented_response_accepted: accepts.segmented,
                max_segments: accepts.max_segments,
                max_apdu: accepts.max_apdu,
                invoke_id: *invoke_id,
                service: *service,
                data: data.as_slice(),
            },
            ClientSaid::SegmentAck {
                negative,
                invoke_id,
                sequence_number,
                window,
                ..
            } => apdu::Apdu::SegmentAck {
                negative: *negative,
                server: false,
                invoke_id: *invoke_id,
                sequence_number: *sequence_number,
                window: *window,
            },
        }
    }

    /// Where it goes.
    pub fn way(&self) -> Way
        ensures { result ≡ said_way self.now }
    {
        match self {
            ClientSaid::Request { way, .. } | ClientSaid::SegmentAck { way, .. } => *way,
        }
    }
}

impl<A: Allocator> Say for ClientSaid<A> {
    ghost use Rattle.client_tsm.specs.Said.{spoken_of};

    ghost spoken = { spoken_of };

    fn way(&self) -> Way {
        ClientSaid::way(self)
    }

    fn expects_reply(&self) -> bool {
        match self {
            ClientSaid::Request { segment, .. } => {
                unitdata::expects_reply(PduType::ConfirmedRequest, segment.is_some())
            }
            ClientSaid::SegmentAck { .. } => unitdata::expects_reply(PduType::SegmentAck, false),
        }
    }

    fn write<B: Allocator>(&self, out: &mut Vec<u8, B>) -> Result<(), Fault> {
        self.apdu().write(out)
    }
}
