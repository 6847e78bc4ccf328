//! Numbers of classes, codes, object types and properties, both ways: `class 2 -> Property`.

use primitives::{ErrorClass, ErrorCode, ObjectType, Property};
use sheets::{Counts, Part, Stop, differs, refusal, run_text, two_words};
use std::alloc::Global;
use std::fmt;
use words::parse_number;

/// Runs a row of a number.
pub(crate) fn run(alloc: Global, asked: &str, wanted: &str) -> Result<Counts, Stop> {
    let (kind, word) = two_words(asked);
    let number = parse_number(word)?;
    run_text(meaning(alloc, kind, number)?, wanted)
}

/// What a number of this kind stands for.
fn meaning(alloc: Global, kind: &str, number: u32) -> Result<String, Stop> {
    match kind {
        "class" => {
            let class = ErrorClass::from(number);
            named(alloc, &class, number, u32::from(class))
        }
        "code" => {
            let code = ErrorCode::from(number);
            named(alloc, &code, number, u32::from(code))
        }
        "type" => object_type(alloc, number),
        "property" => property(alloc, number),
        _ => Err(Stop::Unread(Part::Asked)),
    }
}

/// The name of what a number stands for, which is written as that number again.
fn named<T: fmt::Debug>(alloc: Global, value: &T, asked: u32, number: u32) -> Result<String, Stop> {
    if number != asked {
        return Err(differs(alloc, "another number where it is written"));
    }
    Ok(format!(in alloc; "{value:?}")?)
}

/// An object type.
fn object_type(alloc: Global, number: u32) -> Result<String, Stop> {
    let Ok(octets) = u16::try_from(number) else {
        return Err(Stop::Unread(Part::Number));
    };
    match ObjectType::try_from(octets) {
        Ok(kind) => named(alloc, &kind, number, u32::from(u16::from(kind))),
        Err(fault) => refusal(alloc, fault),
    }
}

/// A property, with whether it is required and whether it is an array.
fn property(alloc: Global, number: u32) -> Result<String, Stop> {
    let property = match Property::try_from(number) {
        Ok(property) => property,
        Err(fault) => return refusal(alloc, fault),
    };
    let need = if property.is_required() {
        "required"
    } else {
        "optional"
    };
    let form = if property.is_array() { ", array" } else { "" };
    let name = named(alloc, &property, number, u32::from(property))?;
    Ok(format!(in alloc; "{name}, {need}{form}")?)
}
