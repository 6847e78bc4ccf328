//! The first place where words stop being a request.

use crate::expected::Expected;
use crate::fault::Fault;
use crate::value::{OBJECT, number, value};
use crate::word::{Word, Words};
use names::{number_in, object_types, properties};

/// Numbers of object types (20.2.14).
const OBJECT_TYPE: Expected = Expected::Number {
    kind: "an object type",
    least: 0,
    greatest: 1023,
};

/// Numbers of instances, also that of no object (20.2.14).
const INSTANCE: Expected = Expected::Number {
    kind: "an object's instance",
    least: 0,
    greatest: 4_194_303,
};

/// Numbers of properties (21).
const PROPERTY: Expected = Expected::Number {
    kind: "a property",
    least: 0,
    greatest: 4_294_967_295,
};

/// Numbers of the elements of an array.
const INDEX: Expected = Expected::Number {
    kind: "an array index",
    least: 0,
    greatest: 4_294_967_295,
};

/// Levels of a command (19.2).
const LEVEL: Expected = Expected::Number {
    kind: "a priority",
    least: 1,
    greatest: 16,
};

/// The first fault of a request.
pub(crate) fn request<'a>(words: &mut Words<'a>) -> Result<(), Fault<'a>> {
    let service = words.next(Expected::Service)?;
    match service.text() {
        "read" => {
            object(words.next(OBJECT)?)?;
            property(words.next(Expected::Property)?)
        }
        "write" => write(words),
        "many" => many(words),
        "batch" => batch(words),
        _ => Err(service.fault(Expected::Service)),
    }
}

/// The first fault of an object, as `45:1` or `integer-value,1`.
pub(crate) fn object<'a>(word: Word<'a>) -> Result<(), Fault<'a>> {
    if let Some((object_type, instance)) = word.cut(b':') {
        number(object_type, OBJECT_TYPE)?;
        return number(instance, INSTANCE);
    }
    let Some((name, instance)) = word.cut(b',') else {
        return Err(word.fault(OBJECT));
    };
    if number_in(object_types(), name.text()).is_none() {
        return Err(name.fault(Expected::ObjectType));
    }
    number(instance, INSTANCE)
}

/// The first fault of a property or an element of one, as `87/16`, `present-value` or `priority-array[16]`.
pub(crate) fn property<'a>(word: Word<'a>) -> Result<(), Fault<'a>> {
    if let Some((front, index)) = word.cut(b'/') {
        property_number(front)?;
        return number(index, INDEX);
    }
    let Some((front, rest)) = word.cut(b'[') else {
        return property_number(word);
    };
    property_number(front)?;
    match rest.without_last(b']') {
        Some(index) => number(index, INDEX),
        None => Err(rest.fault(Expected::Phrase("an array index and ]"))),
    }
}

/// The first fault of a property's number or name.
fn property_number<'a>(word: Word<'a>) -> Result<(), Fault<'a>> {
    if number_in(properties(), word.text()).is_some() {
        return Ok(());
    }
    match number(word, PROPERTY) {
        Ok(()) => Ok(()),
        Err(_) => Err(word.fault(Expected::Property)),
    }
}

/// The first fault of an object and a write to it.
fn write<'a>(words: &mut Words<'a>) -> Result<(), Fault<'a>> {
    object(words.next(OBJECT)?)?;
    property(words.next(Expected::Property)?)?;
    if let Err(fault) = value(words) {
        return Err(second_value(fault));
    }
    if words.are_read() {
        return Ok(());
    }
    let word = words.next(Expected::Priority)?;
    if word.text() != "at" {
        return Err(word.fault(Expected::Priority));
    }
    number(words.next(LEVEL)?, LEVEL)
}

/// The comma of a word that is none of a value, since a second value stands behind it, or another fault as it is.
fn second_value<'a>(fault: Fault<'a>) -> Fault<'a> {
    let Fault::Word { found, .. } = fault else {
        return fault;
    };
    match found.without_last(b',') {
        Some(front) => Word {
            octets: b",",
            at: front.end(),
        }
        .fault(Expected::OneValue),
        None => fault,
    }
}

/// The first fault of objects and their properties.
fn many<'a>(words: &mut Words<'a>) -> Result<(), Fault<'a>> {
    let most = words.len();
    for _object in 0..=most {
        object(words.next(OBJECT)?)?;
        all_properties(words.next(Expected::Property)?)?;
        if words.are_read() {
            break;
        }
    }
    Ok(())
}

/// The first fault of properties that are parted by commas.
fn all_properties<'a>(word: Word<'a>) -> Result<(), Fault<'a>> {
    let mut left = word;
    for _property in 0..=word.octets.len() {
        let Some((first, rest)) = left.cut(b',') else {
            break;
        };
        property(first)?;
        left = rest;
    }
    property(left)
}

/// The first fault of writes that are parted by semicolons.
fn batch<'a>(words: &mut Words<'a>) -> Result<(), Fault<'a>> {
    words.part_by_semicolons();
    let most = words.len();
    for _write in 0..=most {
        write(words)?;
        if words.take_semicolon().is_none() {
            break;
        }
    }
    Ok(())
}
