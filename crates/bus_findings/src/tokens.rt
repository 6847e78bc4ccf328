//! A token that is lost: silence, and then a node that looks for others (9.5.6).

use diagnosis_parts::At;
use findings::{Finding, Kind, Packets};
use mstp_frame::FrameType;

/// After so many microseconds of silence a node makes a new token (Tno_token, 9.5.3).
const NO_TOKEN: u64 = 500_000;

/// Within so many microseconds before the silence the token was seen.
const RECENT: u64 = 60_000_000;

/// The last frame of a bus, and its last token.
#[derive(Clone, Copy)]
pub(crate) struct Tokens {
    last: Option<At>,
    token: Option<u64>,
}

impl Tokens {
    /// Nothing yet.
    pub(crate) fn none() -> Tokens {
        Tokens {
            last: None,
            token: None,
        }
    }

    /// A frame of a type is heard on a bus. Returns that the token was lost before, if it was.
    pub(crate) fn hear(&mut self, bus: u32, frame_type: FrameType, at: At) -> Option<Finding> {
        let before = self.last;
        self.last = Some(at);
        match frame_type {
            FrameType::Token => {
                self.token = Some(at.moment);
                None
            }
            FrameType::PollForMaster => {
                let last = before?;
                let silence = at.moment.saturating_sub(last.moment);
                let is_recent = last.moment.saturating_sub(self.token?) <= RECENT;
                if silence < NO_TOKEN || !is_recent {
                    return None;
                }
                Some(Finding {
                    kind: Kind::TokenLost { bus, silence },
                    packets: Packets::two(last.packet, at.packet),
                })
            }
            FrameType::ReplyToPollForMaster
            | FrameType::TestRequest
            | FrameType::TestResponse
            | FrameType::BacnetDataExpectingReply
            | FrameType::BacnetDataNotExpectingReply
            | FrameType::ReplyPostponed
            | FrameType::Other(_) => None,
        }
    }

    /// Octets are heard that spell no frame: the bus isn't silent.
    pub(crate) fn hear_noise(&mut self, at: At) {
        self.last = Some(at);
    }
}
