//! The simple value that WriteProperty writes, and that ReadProperty reads (15.9, 15.5).

use diagnosis_parts::digest_of;
use tags::{Class, Content, Reader, Tag, unsigned_from_contents};

/// The priority of a write that says none (19.2).
const LOWEST_PRIORITY: u8 = 16;

/// A value of one application tag.
#[derive(Clone, Copy, PartialEq, Eq)]
pub(crate) struct Value {
    /// The number of its type (20.2.1.4).
    number: u8,
    /// What stands for its contents.
    contents: u64,
}

/// The number of Null (20.2.1.4).
const NULL: u8 = 0;

impl Value {
    /// Whether it is Null, which takes a command back (19.2).
    pub(crate) fn is_null(&self) -> bool {
        self.number == NULL
    }
}

/// What a WriteProperty request writes, and with which priority; `None` for part of an array, and for a value that is
/// not simple.
pub(crate) fn value_written(data: &[u8]) -> Option<(Value, u8)> {
    let mut reader = Reader::new(data);
    let value = value_from(&mut reader)?;
    let priority = match reader.next() {
        Ok(None) => LOWEST_PRIORITY,
        Ok(Some(tag)) => priority_in(tag)?,
        Err(_) => return None,
    };
    Some((value, priority))
}

/// What a ReadProperty-ACK says; `None` for part of an array, and for a value that is not simple.
pub(crate) fn value_read(data: &[u8]) -> Option<Value> {
    value_from(&mut Reader::new(data))
}

/// The value behind an object and a property.
fn value_from(reader: &mut Reader<'_>) -> Option<Value> {
    let is_object = is_parameter(0, reader);
    let is_property = is_parameter(1, reader);
    if !is_object || !is_property || !is_next(Tag::opening(3), reader) {
        return None;
    }
    let value = match reader.next() {
        Ok(Some(tag)) => value_in(tag)?,
        Ok(None) | Err(_) => return None,
    };
    if is_next(Tag::closing(3), reader) {
        Some(value)
    } else {
        None
    }
}

/// The value of an application tag.
fn value_in(tag: Tag<'_>) -> Option<Value> {
    if tag.class != Class::Application {
        return None;
    }
    let contents = match tag.content {
        Content::Null => 0,
        Content::Boolean(holds) => u64::from(holds),
        Content::Octets(octets) => digest_of(octets),
        Content::Opening | Content::Closing => return None,
    };
    Some(Value {
        number: tag.number,
        contents,
    })
}

/// The priority that a tag says.
fn priority_in(tag: Tag<'_>) -> Option<u8> {
    match tag {
        Tag {
            class: Class::Context,
            number: 4,
            content: Content::Octets(octets),
        } => u8::try_from(unsigned_from_contents(octets).ok()?).ok(),
        Tag { .. } => None,
    }
}

/// Whether the next tag is a context tag of this number, with contents.
fn is_parameter(number: u8, reader: &mut Reader<'_>) -> bool {
    match reader.next() {
        Ok(
            Some(
                Tag {
                    class: Class::Context,
                    number: found,
                    content: Content::Octets(_),
                },
            ),
        ) => found == number,
        Ok(_) | Err(_) => false,
    }
}

/// Whether the next tag is this one.
fn is_next(wanted: Tag<'_>, reader: &mut Reader<'_>) -> bool {
    match reader.next() {
        Ok(Some(tag)) => tag == wanted,
        Ok(None) | Err(_) => false,
    }
}
