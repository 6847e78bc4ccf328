//! The tables of a capture, an object a line.

use crate::members::{put_key, put_service, write_object};
use diagnosis::{Diagnosis, Route};
use diagnosis_parts::{Identity, Key, Party, Station, Transaction};
use json_object::Object;
use std::alloc::{AllocError, Allocator};
use std::io;
use std::io::Write;

/// Writes the transactions that are listed, by their first packets.
///
/// # Errors
/// Those of writing, and want of memory.
pub fn write_transactions<A: Allocator + Copy, W: Write>(
    alloc: A,
    diagnosis: &Diagnosis<A>,
    out: &mut W,
) -> io::Result<()> {
    let all = diagnosis.transactions(alloc)?;
    for (key, transaction) in all.as_slice() {
        write_object(transaction_object(alloc, key, transaction)?, out)?;
    }
    Ok(())
}

/// A transaction as an object.
fn transaction_object<A: Allocator + Copy>(
    alloc: A,
    key: &Key,
    transaction: &Transaction,
) -> Result<Object<A>, AllocError> {
    let mut object = Object::new(alloc)?;
    object.number("request", transaction.first)?;
    put_key(key, &mut object)?;
    put_service(transaction.service, &transaction.subject, &mut object)?;
    if let Some(answer) = transaction.answer {
        object.number("answer", answer.packet)?;
        object.number("microseconds", answer.microseconds)?;
    }
    if let Some(outcome) = &transaction.outcome {
        object.shown("end", outcome)?;
    }
    object.number("repeats", u64::from(transaction.repeats))?;
    object.number("segments", u64::from(transaction.segments))?;
    Ok(object)
}

/// Writes the stations that are known, by their first packets, and the networks that routers announce.
///
/// # Errors
/// Those of writing, and want of memory.
pub fn write_stations<A: Allocator + Copy, W: Write>(
    alloc: A,
    diagnosis: &Diagnosis<A>,
    out: &mut W,
) -> io::Result<()> {
    let all = diagnosis.stations(alloc)?;
    for (party, station) in all.as_slice() {
        write_object(station_object(alloc, party, station)?, out)?;
    }
    write_routes(alloc, diagnosis, out)
}

/// A station as an object.
fn station_object<A: Allocator + Copy>(
    alloc: A,
    party: &Party,
    station: &Station,
) -> Result<Object<A>, AllocError> {
    let mut object = Object::new(alloc)?;
    object.shown("station", party)?;
    object.number("packet", station.first)?;
    object.number("packets", station.packets)?;
    if let Some(identity) = &station.identity {
        put_identity(identity, &mut object)?;
    }
    object.boolean("router", station.is_router)?;
    object.boolean("bbmd", station.is_manager)?;
    object.boolean("foreign_device", station.is_foreign_device)?;
    Ok(object)
}

/// Adds what a device says of itself.
fn put_identity<A: Allocator + Copy>(
    identity: &Identity,
    object: &mut Object<A>,
) -> Result<(), AllocError> {
    object.number("instance", u64::from(identity.instance))?;
    object.number("vendor", u64::from(identity.vendor))?;
    object.number("max_apdu", u64::from(identity.max_apdu))?;
    object.number("segmentation", u64::from(u32::from(identity.segmentation)))
}

/// Writes the networks that routers announce.
fn write_routes<A: Allocator + Copy, W: Write>(
    alloc: A,
    diagnosis: &Diagnosis<A>,
    out: &mut W,
) -> io::Result<()> {
    let all = diagnosis.routes(alloc)?;
    for (route, first) in all.as_slice() {
        write_object(route_object(alloc, route, *first)?, out)?;
    }
    Ok(())
}

/// A network that a router announced first in the packet of this number, as an object.
fn route_object<A: Allocator + Copy>(
    alloc: A,
    route: &Route,
    first: u64,
) -> Result<Object<A>, AllocError> {
    let mut object = Object::new(alloc)?;
    object.number("network", u64::from(route.net))?;
    object.shown("router", &route.router)?;
    object.number("packet", first)?;
    Ok(object)
}
