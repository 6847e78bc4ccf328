//! The types of frames, and their numbers.

ghost use Rattle.std.specs.Prelude.{◌≡◌};
ghost use Rattle.mstp_frame.specs.FrameType.{type_number, IsNamed};

/// What a frame is for: the octet behind 55 FF (9.3.1 to 9.3.8).
#[derive(Clone, Copy, Debug, PartialEq, Eq)]
pub enum FrameType {
    Token,
    PollForMaster,
    ReplyToPollForMaster,
    TestRequest,
    TestResponse,
    BacnetDataExpectingReply,
    BacnetDataNotExpectingReply,
    ReplyPostponed,
    /// A number that the standard reserves, or leaves to vendors. Such a frame is heard and ignored.
    Other(u8),
}

/// The octet of a type.
impl From<FrameType> for u8 {
    ghost from_gives = { λ frame_type n. n ≡ type_number frame_type };

    fn from(frame_type: FrameType) -> u8 {
        match frame_type {
            FrameType::Token => 0,
            FrameType::PollForMaster => 1,
            FrameType::ReplyToPollForMaster => 2,
            FrameType::TestRequest => 3,
            FrameType::TestResponse => 4,
            FrameType::BacnetDataExpectingReply => 5,
            FrameType::BacnetDataNotExpectingReply => 6,
            FrameType::ReplyPostponed => 7,
            FrameType::Other(number) => number,
        }
    }
}

/// The type of an octet, by its name where it has one.
impl From<u8> for FrameType {
    ghost from_gives = { λ n frame_type. (type_number frame_type ≡ n) × IsNamed frame_type };

    fn from(number: u8) -> FrameType {
        match number {
            0 => FrameType::Token,
            1 => FrameType::PollForMaster,
            2 => FrameType::ReplyToPollForMaster,
            3 => FrameType::TestRequest,
            4 => FrameType::TestResponse,
            5 => FrameType::BacnetDataExpectingReply,
            6 => FrameType::BacnetDataNotExpectingReply,
            7 => FrameType::ReplyPostponed,
            _ => FrameType::Other(number),
        }
    }
}
