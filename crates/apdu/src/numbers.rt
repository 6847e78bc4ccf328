//! The standard's numbers of the confirmed services, and of the reasons of a Reject or an Abort
//! (clauses 18.9, 18.10 and 21).

ghost use Rattle.std.specs.Prelude.{◌≡◌, IfOk, IfErr};
ghost use Rattle.apdu.specs.Numbers.{
  service_number,
  NoService,
  reject_number,
  IsRejectOf,
  abort_number,
  IsAbortOf,
};

/// The confirmed services of this product (21, BACnetConfirmedServiceChoice). Each has its number
/// here and nowhere else.
#[derive(Clone, Copy, Debug, PartialEq, Eq)]
pub enum ConfirmedService {
    /// ReadProperty (15.5): 12.
    ReadProperty,
    /// ReadPropertyMultiple (15.7): 14.
    ReadPropertyMultiple,
    /// WriteProperty (15.9): 15.
    WriteProperty,
    /// WritePropertyMultiple (15.10): 16.
    WritePropertyMultiple,
}

/// The number of a confirmed service that this product does not have.
#[derive(Clone, Copy, Debug, PartialEq, Eq)]
pub struct UnknownService(pub u8);

impl TryFrom<u8> for ConfirmedService {
    type Error = UnknownService;

    ghost try_from_gives = { λ number result.
        (IfOk result (λ service. service_number service ≡ number))
        × (IfErr result (λ unknown. (unknown.0 ≡ number) × NoService number)) };

    fn try_from(number: u8) -> Result<ConfirmedService, UnknownService> {
        match number {
            12 => Ok(ConfirmedService::ReadProperty),
            14 => Ok(ConfirmedService::ReadPropertyMultiple),
            15 => Ok(ConfirmedService::WriteProperty),
            16 => Ok(ConfirmedService::WritePropertyMultiple),
            number => Err(UnknownService(number)),
        }
    }
}

impl From<ConfirmedService> for u8 {
    ghost from_gives = { λ service number. number ≡ service_number service };

    fn from(service: ConfirmedService) -> u8 {
        match service {
            ConfirmedService::ReadProperty => 12,
            ConfirmedService::ReadPropertyMultiple => 14,
            ConfirmedService::WriteProperty => 15,
            ConfirmedService::WritePropertyMultiple => 16,
        }
    }
}

/// Why a request is rejected (18.9, BACnetRejectReason): the reasons that this product gives, and
/// all others. Each has its number here and nowhere else.
#[derive(Clone, Copy, Debug, PartialEq, Eq)]
pub enum RejectReason {
    /// A field's contents are not those of its type: 3.
    InvalidParameterDataType,
    /// A tag is not well formed, or not one that may stand here: 4.
    InvalidTag,
    /// A field that must stand here is missing: 5.
    MissingRequiredParameter,
    /// A field is out of its range: 6.
    ParameterOutOfRange,
    /// Octets follow the last field: 7.
    TooManyArguments,
    /// The device does not have the service: 9.
    UnrecognizedService,
    /// Any other number.
    Other(u8),
}

impl From<u8> for RejectReason {
    ghost from_gives = { λ number reason. IsRejectOf number reason };

    fn from(number: u8) -> RejectReason {
        match number {
            3 => RejectReason::InvalidParameterDataType,
            4 => RejectReason::InvalidTag,
            5 => RejectReason::MissingRequiredParameter,
            6 => RejectReason::ParameterOutOfRange,
            7 => RejectReason::TooManyArguments,
            9 => RejectReason::UnrecognizedService,
            number => RejectReason::Other(number),
        }
    }
}

impl From<RejectReason> for u8 {
    ghost from_gives = { λ reason number. number ≡ reject_number reason };

    fn from(reason: RejectReason) -> u8 {
        match reason {
            RejectReason::InvalidParameterDataType => 3,
            RejectReason::InvalidTag => 4,
            RejectReason::MissingRequiredParameter => 5,
            RejectReason::ParameterOutOfRange => 6,
            RejectReason::TooManyArguments => 7,
            RejectReason::UnrecognizedService => 9,
            RejectReason::Other(number) => number,
        }
    }
}

/// Why a transaction is aborted (18.10, BACnetAbortReason): the reasons that this product gives,
/// and all others. Each has its number here and nowhere else.
#[derive(Clone, Copy, Debug, PartialEq, Eq)]
pub enum AbortReason {
    /// The message is longer than the buffer: 1.
    BufferOverflow,
    /// Segments were needed or sent that are not supported: 4.
    SegmentationNotSupported,
    /// The device has no memory for it: 9.
    OutOfResources,
    /// Any other number.
    Other(u8),
}

impl From<u8> for AbortReason {
    ghost from_gives = { λ number reason. IsAbortOf number reason };

    fn from(number: u8) -> AbortReason {
        match number {
            1 => AbortReason::BufferOverflow,
            4 => AbortReason::SegmentationNotSupported,
            9 => AbortReason::OutOfResources,
            number => AbortReason::Other(number),
        }
    }
}

impl From<AbortReason> for u8 {
    ghost from_gives = { λ reason number. number ≡ abort_number reason };

    fn from(reason: AbortReason) -> u8 {
        match reason {
            AbortReason::BufferOverflow => 1,
            AbortReason::SegmentationNotSupported => 4,
            AbortReason::OutOfResources => 9,
            AbortReason::Other(number) => number,
        }
    }
}
