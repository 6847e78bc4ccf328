//! Values (20.2), each with its kind as the one name that all of them have: `{"enum":1}`, `{"text":"6F6E"}`.

use json_object::Object;
use primitives::{PropertyReference, Values};
use std::alloc::{AllocError, Allocator};
use tags::Value;

/// Adds the list of these values.
pub(crate) fn put_values<A: Allocator + Copy>(
    values: &Values<A>,
    out: &mut Object<A>,
) -> Result<(), AllocError> {
    out.begin_list("values")?;
    for value in values.as_slice() {
        out.begin_item()?;
        put_value(value, out)?;
        out.end()?;
    }
    out.end_list()
}

/// Adds what a value is.
fn put_value<A: Allocator + Copy>(value: &Value<A>, out: &mut Object<A>) -> Result<(), AllocError> {
    match value {
        Value::Null => out.null("null"),
        Value::Bool(value) => out.boolean("bool", *value),
        Value::Unsigned(number) => out.number("unsigned", u64::from(*number)),
        Value::Signed(number) => out.signed("signed", i64::from(*number)),
        Value::Enum(number) => out.number("enum", u64::from(*number)),
        Value::Object(object) => out.object_id("object", object),
        Value::Text { set, octets } => {
            out.octets("text", octets.as_slice())?;
            put_set(*set, out)
        }
        Value::Bits { unused, octets } => {
            out.octets("bits", octets.as_slice())?;
            out.number("unused", u64::from(*unused))
        }
        Value::Other { tag, octets } => {
            out.octets("other", octets.as_slice())?;
            out.number("tag", u64::from(*tag))
        }
        Value::Built(octets) => out.octets("built", octets.as_slice()),
    }
}

/// Adds the character set of a text, where it is another than UTF-8 (20.2.9).
fn put_set<A: Allocator + Copy>(set: u8, out: &mut Object<A>) -> Result<(), AllocError> {
    if set == 0 {
        return Ok(());
    }
    out.number("set", u64::from(set))
}

/// Adds a property, and the index of its element, if it is about one.
pub(crate) fn put_reference<A: Allocator + Copy>(
    reference: PropertyReference,
    out: &mut Object<A>,
) -> Result<(), AllocError> {
    out.number("property", u64::from(reference.property))?;
    match reference.index {
        Some(index) => out.number("index", u64::from(index)),
        None => Ok(()),
    }
}
