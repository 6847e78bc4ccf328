//! The standard's numbers, and what they stand for: `priority 3 -> LifeSafety`, and of several that
//! stand for the same, `reject-reason 10 to 255 -> Other`.

use apdu::{
    AbortReason, ConfirmedService, MaxApdu, MaxSegments, PduType, RejectReason, Segmentation,
    UnconfirmedService, UnknownService,
};
use bvll::{Function, ResultCode};
use mstp_frame::FrameType;
use npdu::{Dnet, Priority};
use sheets::{Counts, Given, Part, Stop, compare, refusal, two_words};
use std::alloc::Global;
use std::fmt;
use tags::{Fault, Items, Value};
use words::parse_number;

/// The refusals, in the order of their numbers.
const FAULTS: [Fault; 15] = [
    Fault::Memory,
    Fault::Short,
    Fault::BadTag,
    Fault::BadLength,
    Fault::BadVersion,
    Fault::TooLong,
    Fault::NoInvokeId,
    Fault::Unbound,
    Fault::NoRoute,
    Fault::TableFull,
    Fault::Expired,
    Fault::Forged,
    Fault::NoSuch,
    Fault::Wire,
    Fault::BadSite,
];

/// Runs a row, of a number or of all between two.
pub(crate) fn run(given: Given<'_>, asked: &str, wanted: &str) -> Result<Counts, Stop> {
    let (kind, rest) = two_words(asked);
    let (first, last) = match rest.split_once(" to ") {
        Some(ends) => ends,
        None => (rest, rest),
    };
    let first: u16 = parse_number(first)?;
    let last: u16 = parse_number(last)?;
    for number in first..=last {
        compare(meaning(given.alloc, kind, number)?, wanted)?;
    }
    Ok(Counts {
        rows: 1,
        ..Counts::none()
    })
}

/// What a number of this kind stands for.
fn meaning(alloc: Global, kind: &str, number: u16) -> Result<String, Stop> {
    match kind {
        "result" => {
            let code = ResultCode::from(number);
            named(alloc, &code, u32::from(number), u32::from(u16::from(code)))
        }
        "dnet" => {
            let net = Dnet::from(number);
            named(alloc, &net, u32::from(number), u32::from(u16::from(net)))
        }
        _ => match u8::try_from(number) {
            Ok(octet) => octet_meaning(alloc, kind, octet),
            Err(_) => Err(Stop::Unread(Part::Number)),
        },
    }
}

/// What a number of one octet stands for.
fn octet_meaning(alloc: Global, kind: &str, number: u8) -> Result<String, Stop> {
    match kind {
        "refusal" => fault_name(alloc, number),
        "priority" => tried(alloc, Priority::try_from(number), number),
        "router-reject" => tried(alloc, npdu::NetworkRejectReason::try_from(number), number),
        "bvlc-function" => tried(alloc, Function::try_from(number), number),
        "frame-type" => {
            let frame_type = FrameType::from(number);
            named(
                alloc,
                &frame_type,
                u32::from(number),
                u32::from(u8::from(frame_type)),
            )
        }
        "pdu-type" => tried(alloc, PduType::try_from(number), number),
        "unconfirmed-service" => tried(alloc, UnconfirmedService::try_from(number), number),
        "confirmed-service" => confirmed_service(alloc, number),
        "reject-reason" => {
            let reason = RejectReason::from(number);
            named(
                alloc,
                &reason,
                u32::from(number),
                u32::from(u8::from(reason)),
            )
        }
        "abort-reason" => {
            let reason = AbortReason::from(number);
            named(
                alloc,
                &reason,
                u32::from(number),
                u32::from(u8::from(reason)),
            )
        }
        "max-segments" => max_segments(alloc, number),
        "max-apdu" => max_apdu(alloc, number),
        "segmentation" => segmentation(alloc, number),
        "other-tag" => other_tag(alloc, number),
        _ => Err(Stop::Unread(Part::Asked)),
    }
}

/// The name of what a number stands for, with the number that it has where that is another.
fn named<T: fmt::Debug>(alloc: Global, value: &T, asked: u32, number: u32) -> Result<String, Stop> {
    let shown = format!(in alloc; "{value:?}")?;
    let name = name_in(shown.as_str());
    if number == asked {
        return Ok(String::from_str(alloc, name)?);
    }
    Ok(format!(in alloc; "{name} {number}")?)
}

/// The name in a `Debug` text, without what stands behind it in brackets.
fn name_in(shown: &str) -> &str {
    match shown.split_once('(') {
        Some((name, _)) => name,
        None => shown,
    }
}

/// The name of what a number stands for, or its refusal.
fn tried<T: fmt::Debug + Copy>(
    alloc: Global,
    found: Result<T, Fault>,
    number: u8,
) -> Result<String, Stop>
where
    u8: From<T>,
{
    match found {
        Ok(value) => named(alloc, &value, u32::from(number), u32::from(u8::from(value))),
        Err(fault) => refusal(alloc, fault),
    }
}

/// The name of a refusal.
fn fault_name(alloc: Global, number: u8) -> Result<String, Stop> {
    for fault in FAULTS {
        if u8::from(fault) == number {
            return Ok(format!(in alloc; "{fault}")?);
        }
    }
    Err(Stop::Unread(Part::Number))
}

/// The name of a confirmed service.
fn confirmed_service(alloc: Global, number: u8) -> Result<String, Stop> {
    match ConfirmedService::try_from(number) {
        Ok(service) => named(
            alloc,
            &service,
            u32::from(number),
            u32::from(u8::from(service)),
        ),
        Err(unknown) => {
            let UnknownService(octet) = unknown;
            named(alloc, &unknown, u32::from(number), u32::from(octet))
        }
    }
}

/// How many segments a requester takes.
fn max_segments(alloc: Global, number: u8) -> Result<String, Stop> {
    match MaxSegments::try_from(number) {
        Ok(size) if u8::from(size) == number => {
            Ok(format!(in alloc; "{size:?}, {} segments", size.segments())?)
        }
        Ok(size) => named(alloc, &size, u32::from(number), u32::from(u8::from(size))),
        Err(fault) => refusal(alloc, fault),
    }
}

/// How many octets an APDU to a requester has.
fn max_apdu(alloc: Global, number: u8) -> Result<String, Stop> {
    let size = MaxApdu::from(number);
    let name = named(alloc, &size, u32::from(number), u32::from(u8::from(size)))?;
    Ok(format!(in alloc; "{name}, {} octets", size.octets())?)
}

/// Whether a device takes and sends segments.
fn segmentation(alloc: Global, number: u8) -> Result<String, Stop> {
    match Segmentation::try_from(u32::from(number)) {
        Ok(value) => named(alloc, &value, u32::from(number), u32::from(value)),
        Err(fault) => refusal(alloc, fault),
    }
}

/// Whether a tag's number is one that no variant of a value has but `other`.
fn other_tag(alloc: Global, tag: u8) -> Result<String, Stop> {
    let value = Value::Other {
        tag,
        octets: Items::new(alloc),
    };
    let word = if value.is_sound() { "sound" } else { "unsound" };
    Ok(String::from_str(alloc, word)?)
}
