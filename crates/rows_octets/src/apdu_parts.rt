//! What stands in APDUs: `cuts HEX`, `class-and-code HEX`, `who-is HEX`, `covers 1 98 99`, `i-am HEX`, and
//! `sound 16 error 2 40 at 5:1 77` or `sound max-apdu 16`.

use apdu::{
    Apdu, IAm, Limits, MaxApdu, MaxSegments, ObjectPropertyReference, ServiceError, WhoIs,
    class_and_code_from, i_am_from, who_is_from, write_class_and_code, write_i_am, write_who_is,
};
use primitives::{ErrorClass, ErrorCode};
use sheets::{
    Counts, Given, Part, Stop, Trial, buffer, differs, octets, push_mark, run_octets, run_text,
    with_written,
};
use std::alloc::{AllocError, Global};
use tags::{Fault, Reader};
use words::{parse_number, parse_object, parse_reference};

/// Octets that a class and a code are read from, and that are written of them.
struct ClassAndCode;

impl<'a> Trial<'a> for ClassAndCode {
    fn answer(&self, given: Given<'a>, octets: &[u8]) -> Result<String, Stop> {
        let Some((class, code)) = class_and_code_from(&mut Reader::new(octets)) else {
            return Ok(String::from_str(given.alloc, "none")?);
        };
        let text = format!(in given.alloc; "{class:?} {code:?}")?;
        let mut out = buffer(given)?;
        let came = write_class_and_code(class, code, &mut out);
        with_written(given, octets, came, out.as_slice(), text)
    }
}

/// Octets that a Who-Is is read from, and that are written of it.
struct WhoIses;

impl<'a> Trial<'a> for WhoIses {
    fn answer(&self, given: Given<'a>, octets: &[u8]) -> Result<String, Stop> {
        let Some(who_is) = who_is_from(octets) else {
            return Ok(String::from_str(given.alloc, "none")?);
        };
        let text = match who_is.limits {
            Some(limits) => format!(in given.alloc; "{} to {}", limits.low, limits.high)?,
            None => String::from_str(given.alloc, "all")?,
        };
        let mut out = buffer(given)?;
        let came = write_who_is(&who_is, &mut out);
        with_written(given, octets, came, out.as_slice(), text)
    }
}

/// Octets that an I-Am is read from, and that are written of it.
struct IAms;

impl<'a> Trial<'a> for IAms {
    fn answer(&self, given: Given<'a>, octets: &[u8]) -> Result<String, Stop> {
        let Some(i_am) = i_am_from(octets) else {
            return Ok(String::from_str(given.alloc, "none")?);
        };
        if i_am.instance >= 0x40_0000 {
            return Err(differs(given.alloc, "an instance without a spelling"));
        }
        let mut text = String::new(given.alloc);
        push_i_am(&i_am, &mut text)?;
        let mut out = buffer(given)?;
        let came = write_i_am(&i_am, &mut out);
        with_written(given, octets, came, out.as_slice(), text)
    }
}

/// Appends an I-Am in words.
fn push_i_am(i_am: &IAm, out: &mut String) -> Result<(), AllocError> {
    write!(
        out,
        "device {} max-apdu {} {:?} vendor {}",
        i_am.instance, i_am.max_apdu, i_am.segmentation, i_am.vendor
    )
}

/// Runs a row.
pub(crate) fn run(given: Given<'_>, asked: &str, wanted: &str) -> Result<Counts, Stop> {
    let (verb, rest) = sheets::two_words(asked);
    match verb {
        "class-and-code" => run_octets(given, &ClassAndCode, rest, wanted),
        "who-is" => run_octets(given, &WhoIses, rest, wanted),
        "i-am" => run_octets(given, &IAms, rest, wanted),
        "cuts" => run_text(cuts(given.alloc, rest)?, wanted),
        "covers" => run_text(covers(given.alloc, rest)?, wanted),
        "sound" => run_text(soundness(given.alloc, rest)?, wanted),
        _ => Err(Stop::Unread(Part::Asked)),
    }
}

/// What becomes of each prefix of an APDU in turn, as `Short*4 read*7`.
fn cuts(alloc: Global, word: &str) -> Result<String, Stop> {
    let octets = octets(alloc, word)?;
    let octets = octets.as_slice();
    let mut text = String::new(alloc);
    let mut last = None;
    let mut count = 0u64;
    for end in 0..octets.len() {
        let fault = Apdu::read(&octets[..end]).err();
        if count > 0 && fault != last {
            push_cut(last, count, &mut text)?;
            count = 0;
        }
        last = fault;
        count = count.saturating_add(1);
    }
    push_cut(last, count, &mut text)?;
    Ok(text)
}

/// Appends what became of so many prefixes.
fn push_cut(fault: Option<Fault>, count: u64, out: &mut String) -> Result<(), AllocError> {
    push_mark(" ", out)?;
    match fault {
        Some(fault) => write!(out, "{fault}*{count}"),
        None => write!(out, "read*{count}"),
    }
}

/// Whether a Who-Is with the first two numbers as limits, or without, covers the last.
fn covers(alloc: Global, rest: &str) -> Result<String, Stop> {
    let words: Vec<&str> = rest.split(' ').collect(alloc)?;
    let (limits, instance) = match words.as_slice() {
        [low, high, instance] => {
            let limits = Limits {
                low: parse_number(low)?,
                high: parse_number(high)?,
            };
            (Some(limits), instance)
        }
        ["all", instance] => (None, instance),
        _ => return Err(Stop::Unread(Part::Asked)),
    };
    let who_is = WhoIs { limits };
    yes_or_no(alloc, who_is.covers(parse_number(instance)?))
}

/// `yes` or `no`.
fn yes_or_no(alloc: Global, holds: bool) -> Result<String, Stop> {
    Ok(String::from_str(alloc, if holds { "yes" } else { "no" })?)
}

/// Whether an Error of a service, or a request with a code of a size, has a spelling.
fn soundness(alloc: Global, rest: &str) -> Result<String, Stop> {
    let (front, contents) = sheets::two_words(rest);
    if front == "max-apdu" {
        let max_apdu = MaxApdu::Reserved(parse_number(contents)?);
        return yes_or_no(alloc, request(max_apdu).is_sound());
    }
    let apdu = Apdu::Error {
        invoke_id: 0,
        service: parse_number(front)?,
        error: error(contents)?,
    };
    yes_or_no(alloc, apdu.is_sound())
}

/// A request of a client that takes APDUs of this size.
fn request<'a>(max_apdu: MaxApdu) -> Apdu<'a> {
    Apdu::ConfirmedRequest {
        segment: None,
        segmented_response_accepted: false,
        max_segments: MaxSegments::Two,
        max_apdu,
        invoke_id: 0,
        service: 12,
        data: &[],
    }
}

/// Why a service failed, as `error 2 40` or `error 2 40 at 5:1 77`.
fn error(words: &str) -> Result<ServiceError, Stop> {
    let (front, first_failed) = match words.split_once(" at ") {
        Some((front, place)) => (front, Some(failed_at(place)?)),
        None => (words, None),
    };
    let Some(numbers) = front.strip_prefix("error ") else {
        return Err(Stop::Unread(Part::Asked));
    };
    let (class, code) = sheets::two_words(numbers);
    Ok(ServiceError {
        class: ErrorClass::from(parse_number::<u32>(class)?),
        code: ErrorCode::from(parse_number::<u32>(code)?),
        first_failed,
    })
}

/// The first write that failed, as `5:1 77`.
fn failed_at(place: &str) -> Result<ObjectPropertyReference, Stop> {
    let (object, reference) = sheets::two_words(place);
    let reference = parse_reference(reference)?;
    Ok(ObjectPropertyReference {
        object: parse_object(object)?,
        property: reference.property,
        index: reference.index,
    })
}
