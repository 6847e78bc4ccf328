//! Requests (clause 15): `{"kind":"read","object":"5:1","property":85}`.

use crate::values::{put_reference, put_values};
use json_object::Object;
use primitives::{ObjectRefs, ObjectWrites, PropertyReference, PropertyWrite, Request, Values};
use std::alloc::{AllocError, Allocator};
use tags::ObjectId;

/// Adds a request.
pub(crate) fn put_request<A: Allocator + Copy>(
    request: &Request<A>,
    out: &mut Object<A>,
) -> Result<(), AllocError> {
    out.begin("request")?;
    put_fields(request, out)?;
    out.end()
}

/// Adds what a request is.
fn put_fields<A: Allocator + Copy>(
    request: &Request<A>,
    out: &mut Object<A>,
) -> Result<(), AllocError> {
    match request {
        Request::Read {
            object,
            property,
            index,
        } => {
            out.text("kind", "read")?;
            put_place(object, *property, *index, out)
        }
        Request::ReadMany(groups) => {
            out.text("kind", "many")?;
            put_refs(groups.as_slice(), out)
        }
        Request::Write {
            object,
            property,
            index,
            values,
            priority,
        } => {
            out.text("kind", "write")?;
            put_place(object, *property, *index, out)?;
            put_written(values, *priority, out)
        }
        Request::WriteMany(groups) => {
            out.text("kind", "batch")?;
            put_groups(groups.as_slice(), out)
        }
    }
}

/// Adds an object, and a property of it or an element of one.
pub(crate) fn put_place<A: Allocator + Copy>(
    object: &ObjectId,
    property: u32,
    index: Option<u32>,
    out: &mut Object<A>,
) -> Result<(), AllocError> {
    out.object_id("object", object)?;
    put_reference(PropertyReference { property, index }, out)
}

/// Adds what is written, and at which priority, if one is said.
fn put_written<A: Allocator + Copy>(
    values: &Values<A>,
    priority: Option<u8>,
    out: &mut Object<A>,
) -> Result<(), AllocError> {
    put_values(values, out)?;
    match priority {
        Some(priority) => out.number("priority", u64::from(priority)),
        None => Ok(()),
    }
}

/// Adds the list of the objects that are to be read.
fn put_refs<A: Allocator + Copy>(
    groups: &[ObjectRefs<A>],
    out: &mut Object<A>,
) -> Result<(), AllocError> {
    out.begin_list("objects")?;
    for group in groups {
        out.begin_item()?;
        out.object_id("object", &group.object)?;
        put_references(group.refs.as_slice(), out)?;
        out.end()?;
    }
    out.end_list()
}

/// Adds the list of the properties that are to be read of an object.
fn put_references<A: Allocator + Copy>(
    references: &[PropertyReference],
    out: &mut Object<A>,
) -> Result<(), AllocError> {
    out.begin_list("properties")?;
    for reference in references {
        out.begin_item()?;
        put_reference(*reference, out)?;
        out.end()?;
    }
    out.end_list()
}

/// Adds the list of writes to objects, each with its object, in the order in which they are to be done.
fn put_groups<A: Allocator + Copy>(
    groups: &[ObjectWrites<A>],
    out: &mut Object<A>,
) -> Result<(), AllocError> {
    out.begin_list("writes")?;
    for group in groups {
        put_writes(&group.object, group.writes.as_slice(), out)?;
    }
    out.end_list()
}

/// Adds writes to an object to a list.
fn put_writes<A: Allocator + Copy>(
    object: &ObjectId,
    writes: &[PropertyWrite<A>],
    out: &mut Object<A>,
) -> Result<(), AllocError> {
    for write in writes {
        out.begin_item()?;
        put_place(object, write.property, write.index, out)?;
        put_written(&write.values, write.priority, out)?;
        out.end()?;
    }
    Ok(())
}
