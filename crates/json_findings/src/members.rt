//! Members that several objects have, and an object that is written.

use diagnosis_parts::{Key, Subject};
use findings::{Exchange, Packets};
use json_object::Object;
use std::alloc::{AllocError, Allocator};
use std::io;
use std::io::Write;

/// Writes an object on a line of its own.
pub(crate) fn write_object<A: Allocator + Copy, W: Write>(
    object: Object<A>,
    out: &mut W,
) -> io::Result<()> {
    let text = object.into_text()?;
    out.write_all(text.as_slice())?;
    out.write_all(b"\n")
}

/// Adds the ends of a transaction, and its invoke ID.
pub(crate) fn put_key<A: Allocator + Copy>(
    key: &Key,
    object: &mut Object<A>,
) -> Result<(), AllocError> {
    object.shown("client", &key.client)?;
    object.shown("server", &key.server)?;
    object.number("invoke", u64::from(key.invoke_id))
}

/// Adds a request: by whom, to whom, and what it asks for.
pub(crate) fn put_exchange<A: Allocator + Copy>(
    exchange: &Exchange,
    object: &mut Object<A>,
) -> Result<(), AllocError> {
    put_key(&exchange.key, object)?;
    put_service(exchange.service, &exchange.subject, object)
}

/// Adds what a request asks for.
pub(crate) fn put_service<A: Allocator + Copy>(
    service: u8,
    subject: &Subject,
    object: &mut Object<A>,
) -> Result<(), AllocError> {
    object.number("service", u64::from(service))?;
    if let Some(own) = &subject.object {
        object.object_id("object", own)?;
    }
    match subject.property {
        Some(property) => object.number("property", u64::from(property)),
        None => Ok(()),
    }
}

/// Adds the numbers of packets as a list.
pub(crate) fn put_packets<A: Allocator + Copy>(
    packets: &Packets,
    object: &mut Object<A>,
) -> Result<(), AllocError> {
    object.begin_list("packets")?;
    for number in [packets.first, packets.second, packets.third, packets.fourth] {
        if number != 0 {
            object.number_item(number)?;
        }
    }
    object.end_list()
}
