//! What is told of a client: its bindings and open requests.

use crate::telling::Telling;
use bindings::Binding;
use client::{Client, Transaction};
use names::segmentations;
use site_trace::NameAt;
use std::alloc::Allocator;
use std::io;
use std::io::Write;
use words::{Named, Spelled};

/// Writes the devices that it is bound to, and its requests that have neither an answer nor an end.
pub(crate) fn write_client<A: Allocator + Copy, W: Write>(
    telling: Telling<'_, A>,
    client: &Client<A>,
    out: &mut W,
) -> io::Result<()> {
    writeln!(out, " client")?;
    for binding in client.bindings() {
        write_binding(telling, *binding, out)?;
    }
    write_open(telling, client.open_requests(), out)
}

/// Writes a device as a client knows it (16.10.3).
fn write_binding<A: Allocator, W: Write>(
    telling: Telling<'_, A>,
    binding: Binding,
    out: &mut W,
) -> io::Result<()> {
    let head = telling.head();
    let stations = telling.stations;
    let spelling = telling.spelling;
    let device = NameAt {
        address: binding.bound.station,
        stations,
    };
    let segmentation = Named {
        spelling,
        table: segmentations(),
        number: u32::from(binding.segmentation),
    };
    let instance = binding.instance;
    let max_apdu = binding.bound.max_apdu;
    let reached = if binding.refused { " no-route" } else { "" };
    writeln!(
        out,
        "{head} bound {instance} {device} {max_apdu} {segmentation}{reached}"
    )
}

/// Writes open requests.
fn write_open<A: Allocator + Copy, W: Write>(
    telling: Telling<'_, A>,
    requests: &[Transaction<A>],
    out: &mut W,
) -> io::Result<()> {
    for request in requests {
        write_request(telling, request, out)?;
    }
    Ok(())
}

/// Writes an open request: under which invoke ID, to whom, what it asks, since when, and how often it was said again.
fn write_request<A: Allocator + Copy, W: Write>(
    telling: Telling<'_, A>,
    request: &Transaction<A>,
    out: &mut W,
) -> io::Result<()> {
    let head = telling.head();
    let stations = telling.stations;
    let spelling = telling.spelling;
    let device = NameAt {
        address: request.station(),
        stations,
    };
    let asked = Spelled {
        spelling,
        what: request.request(),
    };
    let invoke_id = request.invoke_id();
    let at = request.issued_at();
    let repeats = request.repeats();
    writeln!(
        out,
        "{head} open {invoke_id} {device} {asked} since {at} repeats {repeats}"
    )
}
