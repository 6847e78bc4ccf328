//! Replies (clauses 15 and 18): `{"kind":"values","values":[{"enum":1}]}`.

use crate::requests::put_place;
use crate::values::{put_reference, put_values};
use json_object::Object;
use primitives::{ErrorClass, ErrorCode, ObjectResults, PropertyReference, PropertyResult, Reply};
use std::alloc::{AllocError, Allocator};

/// Adds a reply.
pub(crate) fn put_reply<A: Allocator + Copy>(
    reply: &Reply<A>,
    out: &mut Object<A>,
) -> Result<(), AllocError> {
    out.begin("reply")?;
    put_fields(reply, out)?;
    out.end()
}

/// Adds what a reply is.
fn put_fields<A: Allocator + Copy>(
    reply: &Reply<A>,
    out: &mut Object<A>,
) -> Result<(), AllocError> {
    match reply {
        Reply::Values(values) => {
            out.text("kind", "values")?;
            put_values(values, out)
        }
        Reply::Many(all) => {
            out.text("kind", "many")?;
            put_many(all.as_slice(), out)
        }
        Reply::Done => out.text("kind", "done"),
        Reply::Error(class, code) => {
            out.text("kind", "error")?;
            put_error(*class, *code, out)
        }
        Reply::ErrorAt {
            class,
            code,
            object,
            property,
            index,
        } => {
            out.text("kind", "error")?;
            put_error(*class, *code, out)?;
            put_place(object, *property, *index, out)
        }
    }
}

/// Adds the class and the code of an error (18).
fn put_error<A: Allocator + Copy>(
    class: ErrorClass,
    code: ErrorCode,
    out: &mut Object<A>,
) -> Result<(), AllocError> {
    out.number("class", u64::from(u32::from(class)))?;
    out.number("code", u64::from(u32::from(code)))
}

/// Adds the list of the objects of which something was read.
fn put_many<A: Allocator + Copy>(
    all: &[ObjectResults<A>],
    out: &mut Object<A>,
) -> Result<(), AllocError> {
    out.begin_list("objects")?;
    for results in all {
        out.begin_item()?;
        out.object_id("object", &results.object)?;
        put_results(results.results.as_slice(), out)?;
        out.end()?;
    }
    out.end_list()
}

/// Adds the list of what was read of each property of an object.
fn put_results<A: Allocator + Copy>(
    results: &[PropertyResult<A>],
    out: &mut Object<A>,
) -> Result<(), AllocError> {
    out.begin_list("properties")?;
    for read in results {
        out.begin_item()?;
        put_result(read, out)?;
        out.end()?;
    }
    out.end_list()
}

/// Adds what was read of a property, or why nothing was.
fn put_result<A: Allocator + Copy>(
    read: &PropertyResult<A>,
    out: &mut Object<A>,
) -> Result<(), AllocError> {
    let reference = PropertyReference {
        property: read.property,
        index: read.index,
    };
    put_reference(reference, out)?;
    match &read.result {
        Ok(values) => put_values(values, out),
        Err((class, code)) => put_error(*class, *code, out),
    }
}
