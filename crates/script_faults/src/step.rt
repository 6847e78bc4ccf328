//! The first place where a line stops being a step.

use crate::disturbance::{delay, loss, message};
use crate::expectation::expectation;
use crate::expected::Expected;
use crate::fault::Fault;
use crate::request::request;
use crate::value::{is_hex, number};
use crate::word::{Word, Words};
use site_parts::is_name;
use words::Unread;

/// Instances of devices, as words may name them.
const DEVICE: Expected = Expected::Number {
    kind: "a device's instance",
    least: 0,
    greatest: 4_294_967_295,
};

/// Milliseconds that pass.
const MILLISECONDS: Expected = Expected::Number {
    kind: "a number of milliseconds",
    least: 0,
    greatest: 18_446_744_073_709_551_615,
};

/// Numbers of datagrams.
const ITEM: Expected = Expected::Number {
    kind: "the number of a datagram",
    least: 0,
    greatest: 18_446_744_073_709_551_615,
};

/// Numbers of networks.
pub(crate) const NETWORK: Expected = Expected::Number {
    kind: "the number of a network",
    least: 0,
    greatest: 65_535,
};

/// Names of stations.
pub(crate) const STATION: Expected = Expected::Phrase(
    "the name of a station, 1 to 32 letters and digits",
);

/// Names of clients.
const CLIENT: Expected = Expected::Phrase("the name of a client, 1 to 32 letters and digits");

/// Octets on a bus.
const HEARD: Expected = Expected::Phrase("pairs of hexadecimal digits, or - for a silence");

/// An element with a context tag (20.2.1.3).
const ELEMENT: Expected = Expected::Phrase(
    "one element with a context tag, from its first octet to its last",
);

/// The first place where a line stops being a step, which was refused for this cause.
pub(crate) fn step_fault<'a>(line: &'a [u8], unread: Unread) -> Fault<'a> {
    let mut words = Words::new(line);
    if let Err(fault) = step(&mut words) {
        return fault;
    }
    match words.element {
        Some(word) if unread == Unread::Sound => word.fault(ELEMENT),
        _ => Fault::Unread(unread),
    }
}

/// The fault of a step that a live run doesn't take: its first word, or the one behind `expect`.
pub(crate) fn offline_fault(line: &[u8]) -> Fault<'_> {
    let mut words = Words::new(line);
    match words.next(Expected::LiveOrder) {
        Ok(order) if order.text() == "expect" => word_fault(&mut words, Expected::LiveExpectation),
        Ok(order) => order.fault(Expected::LiveOrder),
        Err(fault) => fault,
    }
}

/// The fault of the next word, in whose place this is expected.
fn word_fault<'a>(words: &mut Words<'a>, expected: Expected) -> Fault<'a> {
    match words.next(expected) {
        Ok(word) => word.fault(expected),
        Err(fault) => fault,
    }
}

/// The first fault of a step.
fn step<'a>(words: &mut Words<'a>) -> Result<(), Fault<'a>> {
    let order = words.next(Expected::Order)?;
    match order.text() {
        "issue" => issue(words)?,
        "whois" => who_is(words)?,
        "hear" => hear(words)?,
        "tick" | "flow" => number(words.next(MILLISECONDS)?, MILLISECONDS)?,
        "deliver" => number(words.next(ITEM)?, ITEM)?,
        "wake" | "register" | "restart" | "state" => name(words, STATION)?,
        "lose" => loss(words)?,
        "repeat" | "damage" => message(words)?,
        "delay" => delay(words)?,
        "expect" => expectation(words)?,
        _ => return Err(order.fault(Expected::Order)),
    }
    words.finish()
}

/// The first fault of the name of a station.
pub(crate) fn name<'a>(words: &mut Words<'a>, expected: Expected) -> Result<(), Fault<'a>> {
    let word = words.next(expected)?;
    if !is_name(word.octets) {
        return Err(word.fault(expected));
    }
    Ok(())
}

/// The first fault of a client, an instance and a request.
fn issue<'a>(words: &mut Words<'a>) -> Result<(), Fault<'a>> {
    name(words, CLIENT)?;
    number(words.next(DEVICE)?, DEVICE)?;
    request(words)
}

/// The first fault of a client, and of limits if there are some.
fn who_is<'a>(words: &mut Words<'a>) -> Result<(), Fault<'a>> {
    name(words, CLIENT)?;
    if words.are_read() {
        return Ok(());
    }
    number(words.next(DEVICE)?, DEVICE)?;
    number(words.next(DEVICE)?, DEVICE)
}

/// The first fault of a network, a station and what it hears there.
fn hear<'a>(words: &mut Words<'a>) -> Result<(), Fault<'a>> {
    number(words.next(NETWORK)?, NETWORK)?;
    name(words, STATION)?;
    let first = words.next(HEARD)?;
    if first.text() == "-" {
        return Ok(());
    }
    heard(first)?;
    for _pairs in 0..words.len() {
        if words.are_read() {
            break;
        }
        let word = words.next(HEARD)?;
        if !word.octets.is_empty() || words.are_read() {
            heard(word)?;
        }
    }
    Ok(())
}

/// The first fault of octets.
fn heard<'a>(word: Word<'a>) -> Result<(), Fault<'a>> {
    if !is_hex(word) {
        return Err(word.fault(HEARD));
    }
    Ok(())
}
