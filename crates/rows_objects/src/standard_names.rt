//! The standard's names of its numbers, each way: `type 5 -> binary-value`, `type binary-value -> 5`, and `none` where
//! there is none; `type 0..1023 -> 5, 8` tells which numbers of a range have names.

use names::{
    Row, abort_reasons, binary_values, error_classes, error_codes, name_in, number_in,
    object_types, properties, reject_reasons,
};
use sheets::{Counts, Part, Stop, run_text, two_words};
use std::alloc::{AllocError, Global};
use words::parse_number;

/// Runs a row.
pub(crate) fn run(alloc: Global, asked: &str, wanted: &str) -> Result<Counts, Stop> {
    let (kind, word) = two_words(asked);
    let table = table_of(kind)?;
    let found = match word.split_once("..") {
        Some((first, last)) => named(alloc, table, parse_number(first)?, parse_number(last)?)?,
        None => meaning(alloc, table, word)?,
    };
    run_text(found, wanted)
}

/// The table of a kind of number.
fn table_of(kind: &str) -> Result<&'static [Row], Stop> {
    match kind {
        "type" => Ok(object_types()),
        "property" => Ok(properties()),
        "class" => Ok(error_classes()),
        "code" => Ok(error_codes()),
        "reject" => Ok(reject_reasons()),
        "abort" => Ok(abort_reasons()),
        "state" => Ok(binary_values()),
        _ => Err(Stop::Unread(Part::Asked)),
    }
}

/// The name of a number, or the number of a name.
fn meaning(alloc: Global, table: &[Row], word: &str) -> Result<String, AllocError> {
    if let Ok(number) = parse_number(word) {
        return String::from_str(alloc, name_in(table, number).unwrap_or("none"));
    }
    match number_in(table, word) {
        Some(number) => format!(in alloc; "{number}"),
        None => String::from_str(alloc, "none"),
    }
}

/// The numbers from one to another that have names.
fn named(alloc: Global, table: &[Row], first: u32, last: u32) -> Result<String, AllocError> {
    let mut numbers = String::new(alloc);
    for number in first..=last {
        if name_in(table, number).is_some() {
            let mark = if numbers.is_empty() { "" } else { ", " };
            write!(numbers, "{mark}{number}")?;
        }
    }
    Ok(numbers)
}
