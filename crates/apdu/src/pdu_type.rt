//! The types of APDUs, and their numbers.

ghost use Rattle.std.specs.Prelude.{◌≡◌, ◌<◌, MatchResult};
ghost use Rattle.apdu.specs.PduType.{type_number};
ghost use Rattle.tags.specs.declared.fault.Fault.TheVariants.{BadTag};

use tags::Fault;

/// The type of an APDU: the high four bits of its first octet (20.1.2 to 20.1.9).
#[derive(Clone, Copy, Debug, PartialEq, Eq)]
pub enum PduType {
    ConfirmedRequest = 0,
    UnconfirmedRequest = 1,
    SimpleAck = 2,
    ComplexAck = 3,
    SegmentAck = 4,
    Error = 5,
    Reject = 6,
    Abort = 7,
}

/// The number of a type, 0 to 7.
impl From<PduType> for u8 {
    ghost from_gives = { λ kind n. n ≡ type_number kind };

    fn from(kind: PduType) -> u8 {
        kind as u8
    }
}

/// The type of a number; one over 7 is refused as `BadTag`.
impl TryFrom<u8> for PduType {
    type Error = Fault;

    ghost try_from_gives = { λ n r. MatchResult r (λ kind. type_number kind ≡ n) (λ e. (e ≡ BadTag) × (7 < n)) };

    fn try_from(number: u8) -> Result<PduType, Fault> {
        Ok(match number {
            0 => PduType::ConfirmedRequest,
            1 => PduType::UnconfirmedRequest,
            2 => PduType::SimpleAck,
            3 => PduType::ComplexAck,
            4 => PduType::SegmentAck,
            5 => PduType::Error,
            6 => PduType::Reject,
            7 => PduType::Abort,
            _ => return Err(Fault::BadTag),
        })
    }
}
