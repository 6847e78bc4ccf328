//! What is told of a device: its objects, and the answers that it remembers.

use crate::answer::AnswerWords;
use crate::telling::Telling;
use device::Device;
use names::confirmed_services;
use objects::Table;
use primitives::{
    ALL_PROPERTIES, ObjectRefs, ObjectType, Property, PropertyReference, PropertyResult, Reply,
    Request,
};
use remembered::{Record, Records};
use site_trace::NameAt;
use std::alloc::{AllocError, Allocator};
use std::io;
use std::io::Write;
use tags::{Items, ObjectId, Value};
use words::{Named, ReplyTo, Spelled};

/// Writes the properties of its objects, each with what a read of it replies, and the answers that it remembers, in the
/// order in which their requests were executed.
pub(crate) fn write_device<A: Allocator + Copy, W: Write>(
    alloc: A,
    telling: Telling<'_, A>,
    device: &Device<A>,
    out: &mut W,
) -> io::Result<()> {
    let instance = device.i_am().instance;
    writeln!(out, " device {instance}")?;
    write_objects(alloc, telling, instance, device.table(), out)?;
    write_remembered(telling, device, out)
}

/// Writes the properties of the objects of a device.
fn write_objects<A: Allocator + Copy, W: Write>(
    alloc: A,
    telling: Telling<'_, A>,
    instance: u32,
    table: &Table<A>,
    out: &mut W,
) -> io::Result<()> {
    let object_list = Request::Read {
        object: ObjectId {
            object_type: u16::from(ObjectType::Device),
            instance,
        },
        property: u32::from(Property::ObjectList),
        index: None,
    };
    let Reply::Values(objects) = table.reply(&object_list)? else {
        return Ok(());
    };
    for value in objects.as_slice() {
        if let Value::Object(object) = value {
            write_object(alloc, telling, *object, table, out)?;
        }
    }
    Ok(())
}

/// Writes the properties of an object.
fn write_object<A: Allocator + Copy, W: Write>(
    alloc: A,
    telling: Telling<'_, A>,
    object: ObjectId,
    table: &Table<A>,
    out: &mut W,
) -> io::Result<()> {
    let asked = all_of(alloc, object)?;
    let Reply::Many(all) = table.reply(&asked)? else {
        return Ok(());
    };
    for results in all.as_slice() {
        write_properties(telling, object, results.results.as_slice(), table, out)?;
    }
    Ok(())
}

/// The request to read all properties of an object (15.7.3.1.2).
fn all_of<A: Allocator + Copy>(alloc: A, object: ObjectId) -> Result<Request<A>, AllocError> {
    let mut refs = Items::new(alloc);
    refs.push(PropertyReference {
        property: ALL_PROPERTIES,
        index: None,
    })?;
    let mut objects = Items::new(alloc);
    objects.push(ObjectRefs { object, refs })?;
    Ok(Request::ReadMany(objects))
}

/// Writes these properties of an object.
fn write_properties<A: Allocator + Copy, W: Write>(
    telling: Telling<'_, A>,
    object: ObjectId,
    properties: &[PropertyResult<A>],
    table: &Table<A>,
    out: &mut W,
) -> io::Result<()> {
    for property in properties {
        let reference = PropertyReference {
            property: property.property,
            index: property.index,
        };
        write_property(telling, object, reference, table, out)?;
    }
    Ok(())
}

/// Writes what a read of a property replies.
fn write_property<A: Allocator + Copy, W: Write>(
    telling: Telling<'_, A>,
    object: ObjectId,
    reference: PropertyReference,
    table: &Table<A>,
    out: &mut W,
) -> io::Result<()> {
    let PropertyReference { property, index } = reference;
    let request = Request::Read {
        object,
        property,
        index,
    };
    let reply = table.reply(&request)?;
    write_reply(telling, object, reference, &request, &reply, out)
}

/// Writes a property and the reply to this request for it.
fn write_reply<'a, A: Allocator, W: Write>(
    telling: Telling<'_, A>,
    object: ObjectId,
    reference: PropertyReference,
    request: &'a Request<A>,
    reply: &'a Reply<A>,
    out: &mut W,
) -> io::Result<()> {
    let head = telling.head();
    let spelling = telling.spelling;
    let asked = Some(request);
    let reply = ReplyTo {
        spelling,
        asked,
        reply,
    };
    let object = Spelled {
        spelling,
        what: &object,
    };
    let property = Spelled {
        spelling,
        what: &reference,
    };
    writeln!(out, "{head} {object} {property} {reply}")
}

/// Writes the answers that a device remembers.
fn write_remembered<A: Allocator + Copy, W: Write>(
    telling: Telling<'_, A>,
    device: &Device<A>,
    out: &mut W,
) -> io::Result<()> {
    let records = device.remembered();
    for place in 0..records.len() {
        if let Some(record) = records.at(place) {
            write_record(telling, record, out)?;
        }
    }
    Ok(())
}

/// Writes an answer that is remembered: to whom, under which invoke ID, of which service, and since when.
fn write_record<A: Allocator + Copy, W: Write>(
    telling: Telling<'_, A>,
    record: &Record<A>,
    out: &mut W,
) -> io::Result<()> {
    let head = telling.head();
    let stations = telling.stations;
    let spelling = telling.spelling;
    let asker = NameAt {
        address: record.asker.station,
        stations,
    };
    let service = Named {
        spelling,
        table: confirmed_services(),
        number: u32::from(u8::from(record.service)),
    };
    let answer = AnswerWords {
        answer: &record.answer,
        spelling,
    };
    let invoke_id = record.asker.invoke_id;
    let at = record.at;
    writeln!(
        out,
        "{head} remembers {asker} {invoke_id} {service} {answer} since {at}"
    )
}
