//! What is counted of a capture, as one object.

use crate::members::write_object;
use diagnosis::Diagnosis;
use diagnosis_parts::{PacketCounts, RequestCounts};
use findings::{Findings, NAMES};
use json_object::Object;
use std::alloc::{AllocError, Allocator};
use std::io;
use std::io::Write;

/// Writes what is counted: of packets, and how many of them are asked for where that isn't all, of stations and
/// requests, and of findings those names of which there are some.
///
/// # Errors
/// Those of writing, and want of memory.
pub fn write_counts<A: Allocator + Copy, W: Write>(
    alloc: A,
    diagnosis: &Diagnosis<A>,
    findings: &Findings<A>,
    asked: Option<u64>,
    out: &mut W,
) -> io::Result<()> {
    let mut object = Object::new(alloc)?;
    put_packets(&diagnosis.packets(), asked, &mut object)?;
    object.number("microseconds", diagnosis.duration())?;
    object.number("stations", diagnosis.station_count() as u64)?;
    object.number("stations_forgotten", diagnosis.stations_left())?;
    put_requests(&diagnosis.requests(), &mut object)?;
    put_time("median_microseconds", diagnosis.percentile(50), &mut object)?;
    put_time(
        "percentile_99_microseconds",
        diagnosis.percentile(99),
        &mut object,
    )?;
    put_found(alloc, findings, &mut object)?;
    write_object(object, out)
}

/// Adds what is counted of packets.
fn put_packets<A: Allocator + Copy>(
    counts: &PacketCounts,
    asked: Option<u64>,
    object: &mut Object<A>,
) -> Result<(), AllocError> {
    object.number("packets", counts.packets)?;
    if let Some(asked) = asked {
        object.number("asked", asked)?;
    }
    object.number("datagrams", counts.datagrams)?;
    object.number("frames", counts.frames)?;
    object.number("captured_twice", counts.twice)?;
    object.number("passed_over", counts.passed_over)?;
    object.number("unread", counts.unread)
}

/// Adds what is counted of requests.
fn put_requests<A: Allocator + Copy>(
    counts: &RequestCounts,
    object: &mut Object<A>,
) -> Result<(), AllocError> {
    object.number("requests", counts.requests)?;
    object.number("answered", counts.answered)?;
    object.number("unanswered", counts.unanswered)?;
    object.number("open", counts.open)?;
    object.number("requests_forgotten", counts.left)?;
    object.number("ended_requests_forgotten", counts.unlisted)?;
    object.number("repeats", counts.repeats)?;
    object.number("repeats_after_answer", counts.repeats_after_answer)?;
    object.number("answers_without_request", counts.strays)
}

/// Adds a time in microseconds, if there is one.
fn put_time<A: Allocator + Copy>(
    name: &str,
    time: Option<u64>,
    object: &mut Object<A>,
) -> Result<(), AllocError> {
    match time {
        Some(time) => object.number(name, time),
        None => Ok(()),
    }
}

/// Adds how many findings of each name there are.
fn put_found<A: Allocator + Copy>(
    alloc: A,
    findings: &Findings<A>,
    object: &mut Object<A>,
) -> Result<(), AllocError> {
    object.begin("found")?;
    for name in NAMES {
        let count = findings.count(name);
        if count != 0 {
            let word = format!(in alloc; "{name}")?;
            object.number(word.as_str(), count)?;
        }
    }
    object.end()
}
