//! The parameters of each service, by where their tags stand (15, 16, 21).

ghost use Rattle.std.specs.Prelude.{◌≡◌};
ghost use Rattle.parameters.specs.Productions as spec;

use crate::within::Within;
use apdu::PduType;

/// What a tag is, by the production that it stands in.
#[derive(Clone, Copy, Debug, PartialEq, Eq)]
pub enum Parameter {
    Object,
    Property,
    /// Property Array Index.
    Index,
    /// A value of the property that was named before.
    Value,
    Priority,
    ErrorClass,
    ErrorCode,
    /// Device Instance Range Low Limit.
    LowLimit,
    /// Device Instance Range High Limit.
    HighLimit,
    /// Max APDU Length Accepted.
    MaxApdu,
    /// Segmentation Supported.
    Segmentation,
    /// Vendor Identifier.
    Vendor,
    /// None that is known here.
    Other,
}

/// Which tag a parameter has.
#[derive(Clone, Copy, Debug)]
pub enum Which {
    /// The context tag of this number.
    Context(u8),
    /// Each application tag.
    Each,
    /// The application tag behind so many others.
    Nth(u8),
}

/// Where a parameter stands.
#[derive(Clone, Copy, Debug)]
pub struct Row {
    /// The opening tags that it stands behind.
    pub within: Within,
    /// Its tag.
    pub which: Which,
    /// The parameter.
    pub parameter: Parameter,
}

/// The parameters of what an APDU of this type says of the service of this number; none where they aren't known here.
#[tactic(auto, unfolding(crate::specs::Productions::production))]
pub fn production(pdu_type: PduType, service: u8) -> &'static [Row]
    ensures { result.now ≡ spec.production pdu_type service }
{
    match pdu_type {
        PduType::ConfirmedRequest => request(service),
        PduType::ComplexAck => ack(service),
        PduType::Error => {
            if service == 16 {
                write_many_error()
            } else {
                error()
            }
        }
        PduType::UnconfirmedRequest => unconfirmed(service),
        PduType::SimpleAck | PduType::SegmentAck | PduType::Reject | PduType::Abort => &[],
    }
}

/// The parameters of a confirmed request (15).
fn request(service: u8) -> &'static [Row]
    ensures { result.now ≡ spec.request service }
{
    if service == 12 {
        read_request()
    } else if service == 14 {
        read_many_request()
    } else if service == 15 {
        write_request()
    } else if service == 16 {
        write_many_request()
    } else {
        &[]
    }
}

/// The parameters of a ComplexACK (15).
fn ack(service: u8) -> &'static [Row]
    ensures { result.now ≡ spec.ack service }
{
    if service == 12 {
        read_ack()
    } else if service == 14 {
        read_many_ack()
    } else {
        &[]
    }
}

/// The parameters of an unconfirmed request (16).
fn unconfirmed(service: u8) -> &'static [Row]
    ensures { result.now ≡ spec.unconfirmed service }
{
    if service == 0 {
        i_am()
    } else if service == 8 {
        who_is()
    } else {
        &[]
    }
}

/// ReadProperty-Request (15.5.1).
#[rattlefmt::skip]
fn read_request() -> &'static [Row]
    ensures { result.now ≡ spec.read_request }
{
    &[
        Row { within: Within::Nothing, which: Which::Context(0), parameter: Parameter::Object },
        Row { within: Within::Nothing, which: Which::Context(1), parameter: Parameter::Property },
        Row { within: Within::Nothing, which: Which::Context(2), parameter: Parameter::Index },
    ]
}

/// ReadProperty-ACK (15.5.2).
#[rattlefmt::skip]
fn read_ack() -> &'static [Row]
    ensures { result.now ≡ spec.read_ack }
{
    &[
        Row { within: Within::Nothing, which: Which::Context(0), parameter: Parameter::Object },
        Row { within: Within::Nothing, which: Which::Context(1), parameter: Parameter::Property },
        Row { within: Within::Nothing, which: Which::Context(2), parameter: Parameter::Index },
        Row { within: Within::One(3), which: Which::Each, parameter: Parameter::Value },
    ]
}

/// ReadPropertyMultiple-Request (15.7.1).
#[rattlefmt::skip]
fn read_many_request() -> &'static [Row]
    ensures { result.now ≡ spec.read_many_request }
{
    &[
        Row { within: Within::Nothing, which: Which::Context(0), parameter: Parameter::Object },
        Row { within: Within::One(1), which: Which::Context(0), parameter: Parameter::Property },
        Row { within: Within::One(1), which: Which::Context(1), parameter: Parameter::Index },
    ]
}

/// ReadPropertyMultiple-ACK (15.7.2).
#[rattlefmt::skip]
fn read_many_ack() -> &'static [Row]
    ensures { result.now ≡ spec.read_many_ack }
{
    &[
        Row { within: Within::Nothing, which: Which::Context(0), parameter: Parameter::Object },
        Row { within: Within::One(1), which: Which::Context(2), parameter: Parameter::Property },
        Row { within: Within::One(1), which: Which::Context(3), parameter: Parameter::Index },
        Row { within: Within::Two(1, 4), which: Which::Each, parameter: Parameter::Value },
        Row { within: Within::Two(1, 5), which: Which::Nth(0), parameter: Parameter::ErrorClass },
        Row { within: Within::Two(1, 5), which: Which::Nth(1), parameter: Parameter::ErrorCode },
    ]
}

/// WriteProperty-Request (15.9.1).
#[rattlefmt::skip]
fn write_request() -> &'static [Row]
    ensures { result.now ≡ spec.write_request }
{
    &[
        Row { within: Within::Nothing, which: Which::Context(0), parameter: Parameter::Object },
        Row { within: Within::Nothing, which: Which::Context(1), parameter: Parameter::Property },
        Row { within: Within::Nothing, which: Which::Context(2), parameter: Parameter::Index },
        Row { within: Within::One(3), which: Which::Each, parameter: Parameter::Value },
        Row { within: Within::Nothing, which: Which::Context(4), parameter: Parameter::Priority },
    ]
}

/// WritePropertyMultiple-Request (15.10.1).
#[rattlefmt::skip]
fn write_many_request() -> &'static [Row]
    ensures { result.now ≡ spec.write_many_request }
{
    &[
        Row { within: Within::Nothing, which: Which::Context(0), parameter: Parameter::Object },
        Row { within: Within::One(1), which: Which::Context(0), parameter: Parameter::Property },
        Row { within: Within::One(1), which: Which::Context(1), parameter: Parameter::Index },
        Row { within: Within::Two(1, 2), which: Which::Each, parameter: Parameter::Value },
        Row { within: Within::One(1), which: Which::Context(3), parameter: Parameter::Priority },
    ]
}

/// WritePropertyMultiple-Error (15.10.2).
#[rattlefmt::skip]
fn write_many_error() -> &'static [Row]
    ensures { result.now ≡ spec.write_many_error }
{
    &[
        Row { within: Within::One(0), which: Which::Nth(0), parameter: Parameter::ErrorClass },
        Row { within: Within::One(0), which: Which::Nth(1), parameter: Parameter::ErrorCode },
        Row { within: Within::One(1), which: Which::Context(0), parameter: Parameter::Object },
        Row { within: Within::One(1), which: Which::Context(1), parameter: Parameter::Property },
        Row { within: Within::One(1), which: Which::Context(2), parameter: Parameter::Index },
    ]
}

/// Error (18).
#[rattlefmt::skip]
fn error() -> &'static [Row]
    ensures { result.now ≡ spec.error }
{
    &[
        Row { within: Within::Nothing, which: Which::Nth(0), parameter: Parameter::ErrorClass },
        Row { within: Within::Nothing, which: Which::Nth(1), parameter: Parameter::ErrorCode },
    ]
}

/// I-Am-Request (16.10.2).
#[rattlefmt::skip]
fn i_am() -> &'static [Row]
    ensures { result.now ≡ spec.i_am }
{
    &[
        Row { within: Within::Nothing, which: Which::Nth(0), parameter: Parameter::Object },
        Row { within: Within::Nothing, which: Which::Nth(1), parameter: Parameter::MaxApdu },
        Row { within: Within::Nothing, which: Which::Nth(2), parameter: Parameter::Segmentation },
        Row { within: Within::Nothing, which: Which::Nth(3), parameter: Parameter::Vendor },
    ]
}

/// Who-Is-Request (16.10.1).
#[rattlefmt::skip]
fn who_is() -> &'static [Row]
    ensures { result.now ≡ spec.who_is }
{
    &[
        Row { within: Within::Nothing, which: Which::Context(0), parameter: Parameter::LowLimit },
        Row { within: Within::Nothing, which: Which::Context(1), parameter: Parameter::HighLimit },
    ]
}
