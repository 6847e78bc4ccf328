//! Tables of the transactions and the stations of a capture: a line each, its columns separated by spaces, `-` for what
//! isn't known.

use crate::diagnosis::Diagnosis;
use crate::summary::Thousands;
use diagnosis_parts::{Key, Named, Station, Transaction};
use names::{confirmed_services, segmentations};
use std::alloc::Allocator;
use std::io::Write;
use std::{fmt, io};

/// Prints the transactions that are listed, by their first packets.
///
/// # Errors
/// Those of writing, and want of memory.
pub fn print_transactions<A: Allocator + Copy, W: Write>(
    alloc: A,
    diagnosis: &Diagnosis<A>,
    out: &mut W,
) -> io::Result<()> {
    let all = diagnosis.transactions(alloc)?;
    writeln!(
        out,
        "packet client server id service object property answer ms end repeats segments"
    )?;
    for (key, transaction) in all.as_slice() {
        print_transaction(key, transaction, out)?;
    }
    Ok(())
}

/// Prints a transaction.
fn print_transaction<W: Write>(
    key: &Key,
    transaction: &Transaction,
    out: &mut W,
) -> io::Result<()> {
    let service = Named {
        table: confirmed_services(),
        number: u32::from(transaction.service),
    };
    write!(
        out,
        "{} {} {} {} {service} {} ",
        transaction.first, key.client, key.server, key.invoke_id, transaction.subject
    )?;
    match transaction.answer {
        Some(answer) => write!(out, "{} {} ", answer.packet, Thousands(answer.microseconds))?,
        None => write!(out, "- - ")?,
    }
    match transaction.outcome {
        Some(outcome) => write!(out, "{outcome}")?,
        None => write!(out, "-")?,
    }
    writeln!(out, " {} {}", transaction.repeats, transaction.segments)
}

/// Prints the stations that are known, by their first packets, and the networks that routers announce.
///
/// # Errors
/// Those of writing, and want of memory.
pub fn print_stations<A: Allocator + Copy, W: Write>(
    alloc: A,
    diagnosis: &Diagnosis<A>,
    out: &mut W,
) -> io::Result<()> {
    let all = diagnosis.stations(alloc)?;
    writeln!(
        out,
        "station packet packets instance vendor max-apdu segmentation roles"
    )?;
    for (party, station) in all.as_slice() {
        write!(out, "{party} {} {} ", station.first, station.packets)?;
        print_station(station, out)?;
    }
    print_routes(alloc, diagnosis, out)
}

/// Prints the networks that routers announce, where there are any.
fn print_routes<A: Allocator + Copy, W: Write>(
    alloc: A,
    diagnosis: &Diagnosis<A>,
    out: &mut W,
) -> io::Result<()> {
    let all = diagnosis.routes(alloc)?;
    if all.is_empty() {
        return Ok(());
    }
    writeln!(out, "network router packet")?;
    for (route, first) in all.as_slice() {
        writeln!(out, "{} {} {first}", route.net, route.router)?;
    }
    Ok(())
}

/// Prints what a station says of itself, and what it does.
fn print_station<W: Write>(station: &Station, out: &mut W) -> io::Result<()> {
    match station.identity {
        Some(identity) => {
            let segmentation = Named {
                table: segmentations(),
                number: u32::from(identity.segmentation),
            };
            write!(
                out,
                "{} {} {} {segmentation}",
                identity.instance, identity.vendor, identity.max_apdu
            )?;
        }
        None => write!(out, "- - - -")?,
    }
    let router = if station.is_router { " router" } else { "" };
    let manager = if station.is_manager { " bbmd" } else { "" };
    let foreign = if station.is_foreign_device {
        " foreign-device"
    } else {
        ""
    };
    writeln!(out, "{router}{manager}{foreign}")
}
