//! Nodes that reply late (Treply_delay, 9.5.3).

use diagnosis_parts::{At, LinkAddress};
use findings::{Finding, Kind, Packets};
use mstp_frame::{Frame, FrameType};

/// Within so many microseconds a node begins its reply (Treply_delay, 9.5.3).
const REPLY_DELAY: u64 = 250_000;

/// So many microseconds an octet takes at the lowest rate, 9,600 baud (9.2.3): a stamp may be that of the end.
const OCTET_TIME: u64 = 1042;

/// A frame that expects a reply.
#[derive(Clone, Copy)]
struct Expected {
    node: u8,
    at: At,
}

/// The frame of a bus that expects a reply, if it was the last one.
#[derive(Clone, Copy)]
pub(crate) struct Replies {
    expected: Option<Expected>,
}

impl Replies {
    /// Nothing yet.
    pub(crate) fn none() -> Replies {
        Replies { expected: None }
    }

    /// A frame of so many octets is heard on a bus. Returns that it is a late reply, if it is.
    pub(crate) fn hear(
        &mut self,
        bus: u32,
        frame: Frame<'_>,
        count: usize,
        at: At,
    ) -> Option<Finding> {
        let expected = self.expected;
        self.expected = match frame.frame_type {
            FrameType::BacnetDataExpectingReply | FrameType::TestRequest => Some(Expected {
                node: frame.destination,
                at,
            }),
            FrameType::Token
            | FrameType::PollForMaster
            | FrameType::ReplyToPollForMaster
            | FrameType::TestResponse
            | FrameType::BacnetDataNotExpectingReply
            | FrameType::ReplyPostponed
            | FrameType::Other(_) => None,
        };
        let expected = expected?;
        let passed = at.moment.saturating_sub(expected.at.moment);
        let time = passed.saturating_sub(OCTET_TIME.saturating_mul(count as u64));
        if expected.node != frame.source || !is_reply(frame.frame_type) || time <= REPLY_DELAY {
            return None;
        }
        Some(Finding {
            kind: Kind::SlowReply {
                node: LinkAddress::Node(bus, frame.source),
                time,
            },
            packets: Packets::two(expected.at.packet, at.packet),
        })
    }

    /// Octets are heard that spell no frame.
    pub(crate) fn hear_noise(&mut self) {
        self.expected = None;
    }
}

/// Whether frames of this type are replies (9.3).
fn is_reply(frame_type: FrameType) -> bool {
    matches!(
        frame_type,
        FrameType::BacnetDataNotExpectingReply | FrameType::ReplyPostponed | FrameType::TestResponse
    )
}
