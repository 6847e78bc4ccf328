//! The first place where words stop being what is expected of a run.

use crate::disturbance::issue;
use crate::expected::Expected;
use crate::fault::Fault;
use crate::request::{object, property};
use crate::step::{STATION, name};
use crate::value::{OBJECT, number};
use crate::word::{Word, Words};

/// How soon a request ends.
const WITHIN: Expected = Expected::Number {
    kind: "a number of milliseconds",
    least: 0,
    greatest: 18_446_744_073_709_551_615,
};

/// The mark before what a property reads.
const EQUALS: Expected = Expected::Phrase("= and what the property reads");

/// The first fault of what is expected.
pub(crate) fn expectation<'a>(words: &mut Words<'a>) -> Result<(), Fault<'a>> {
    let kind = words.next(Expected::Expectation)?;
    match kind.text() {
        "answered" => {
            issue(words)?;
            outcome(words, Expected::Reply)
        }
        "ended" => {
            issue(words)?;
            outcome(words, Expected::Cause)
        }
        "executed" => {
            issue(words)?;
            one_of(words, Expected::Times)
        }
        "value" => reads(words),
        "none" => one_of(words, Expected::Refused),
        _ => Err(kind.fault(Expected::Expectation)),
    }
}

/// The first fault of a word that is one of few.
fn one_of<'a>(words: &mut Words<'a>, expected: Expected) -> Result<(), Fault<'a>> {
    let word = words.next(expected)?;
    if !is_among(word, expected.words()) {
        return Err(word.fault(expected));
    }
    Ok(())
}

/// Whether a word is one of these.
fn is_among(word: Word<'_>, these: &[&'static str]) -> bool {
    these.iter().any(|this| *this == word.text())
}

/// The first fault of how a request ends, and how soon, if that is said.
fn outcome<'a>(words: &mut Words<'a>, expected: Expected) -> Result<(), Fault<'a>> {
    if words.are_read() {
        return Ok(());
    }
    let mut word = words.next(expected)?;
    if !is_among(word, expected.words()) {
        return Err(word.fault(expected));
    }
    for _word in 0..=words.len() {
        if word.text() == "within" {
            return number(words.next(WITHIN)?, WITHIN);
        }
        if words.are_read() {
            break;
        }
        word = words.next(expected)?;
    }
    Ok(())
}

/// The first fault of a device, a property of it and what that reads.
fn reads<'a>(words: &mut Words<'a>) -> Result<(), Fault<'a>> {
    name(words, STATION)?;
    object(words.next(OBJECT)?)?;
    property(words.next(Expected::Property)?)?;
    let mark = words.next(EQUALS)?;
    if mark.text() != "=" {
        return Err(mark.fault(EQUALS));
    }
    let first = words.next(Expected::Reading)?;
    if !is_reading(first) {
        return Err(first.fault(Expected::Reading));
    }
    for _word in 0..=words.len() {
        if words.are_read() {
            break;
        }
        words.next(Expected::Reading)?;
    }
    Ok(())
}

/// Whether a word is a number, or may begin a value.
fn is_reading(word: Word<'_>) -> bool {
    let kind = word.without_last(b',').unwrap_or(word);
    words::parse_number::<i64>(word.text()).is_ok()
        || word.begins_with(b'"')
        || kind.text().starts_with("text/")
        || is_among(kind, Expected::Value.words())
}
