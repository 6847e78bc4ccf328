//! The first place where words stop being a fault of the network.

use crate::expected::Expected;
use crate::fault::Fault;
use crate::step::{NETWORK, STATION, name};
use crate::value::number;
use crate::word::{Word, Words};

/// Numbers of sendings.
const COUNT: Expected = Expected::Number {
    kind: "how many sendings",
    least: 1,
    greatest: 18_446_744_073_709_551_615,
};

/// For how long nothing is received.
const DURATION: Expected = Expected::Number {
    kind: "a number of milliseconds",
    least: 1,
    greatest: 18_446_744_073_709_551_615,
};

/// By how much a message may be late: nothing older is received.
const DELAY: Expected = Expected::Number {
    kind: "a number of milliseconds",
    least: 1,
    greatest: 1000,
};

/// Issues of requests.
const ISSUE: Expected = Expected::Phrase("the number of a request, or last");

/// The first fault of what is lost: a message, several, or all to a station or on a network.
pub(crate) fn loss<'a>(words: &mut Words<'a>) -> Result<(), Fault<'a>> {
    let first = words.next(Expected::Loss)?;
    match first.text() {
        "request" | "answer" => issue(words),
        "to" => {
            name(words, STATION)?;
            duration(words)
        }
        "on" => {
            number(words.next(NETWORK)?, NETWORK)?;
            duration(words)
        }
        _ => several(first, words),
    }
}

/// The first fault of so many sendings of a message.
fn several<'a>(count: Word<'a>, words: &mut Words<'a>) -> Result<(), Fault<'a>> {
    if words::parse_u64(count.text()).is_err() {
        return Err(count.fault(Expected::Loss));
    }
    number(count, COUNT)?;
    message(words)
}

/// The first fault of a message of a request.
pub(crate) fn message<'a>(words: &mut Words<'a>) -> Result<(), Fault<'a>> {
    let which = words.next(Expected::Message)?;
    match which.text() {
        "request" | "answer" => issue(words),
        _ => Err(which.fault(Expected::Message)),
    }
}

/// The first fault of a message and by how much it is late.
pub(crate) fn delay<'a>(words: &mut Words<'a>) -> Result<(), Fault<'a>> {
    message(words)?;
    number(words.next(DELAY)?, DELAY)
}

/// The first fault of the number of an issue.
pub(crate) fn issue<'a>(words: &mut Words<'a>) -> Result<(), Fault<'a>> {
    let word = words.next(ISSUE)?;
    if word.text() == "last" || words::parse_u64(word.text()).is_ok() {
        return Ok(());
    }
    Err(word.fault(ISSUE))
}

/// The first fault of how long nothing is received.
fn duration<'a>(words: &mut Words<'a>) -> Result<(), Fault<'a>> {
    let word = words.next(Expected::Duration)?;
    if word.text() != "for" {
        return Err(word.fault(Expected::Duration));
    }
    number(words.next(DURATION)?, DURATION)
}
