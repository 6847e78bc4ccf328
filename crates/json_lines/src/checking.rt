//! The lines of `check`: faults, each with the place where it is, and how large a site is that has none.

use crate::line::Line;
use crate::stop::Stop;
use json_object::Object;
use std::alloc::Allocator;
use words::parse_u64;

/// What the places of faults begin with: the arrays of a site file, and the document itself.
const PLACES: [&str; 6] = [
    "document", "network ", "bbmd ", "router ", "device ", "client ",
];

/// What faults begin with that have their places behind them.
const FIRST: [&str; 2] = ["two stations have ", "subnet "];

/// Adds what a line of `check` says.
///
/// # Errors
/// `Memory`, and `Unknown` of a line that begins as one of those with numbers and has none.
pub(crate) fn put_checked<A: Allocator + Copy>(
    line: &str,
    out: &mut Object<A>,
) -> Result<(), Stop> {
    if let Some(counts) = line.strip_prefix("site: ") {
        return put_sizes(counts, out);
    }
    if let Some(rest) = line.strip_prefix("line ") {
        return put_script_line(rest, out);
    }
    if let Some(place) = line.strip_prefix("TOML parse error at line ") {
        return put_document(place, out);
    }
    put_fault(line, out)
}

/// `1 network, 2 stations`, of a site without a fault.
fn put_sizes<A: Allocator + Copy>(counts: &str, out: &mut Object<A>) -> Result<(), Stop> {
    let (networks, stations) = parted(counts, ", ")?;
    out.number("networks", counted(networks, "network")?)?;
    out.number("stations", counted(stations, "station")?)?;
    Ok(())
}

/// The number in `1 network` or `2 networks`.
fn counted(count: &str, kind: &str) -> Result<u64, Stop> {
    let (number, word) = parted(count, " ")?;
    if word.strip_suffix('s').unwrap_or(word) != kind {
        return Err(Stop::Unknown);
    }
    Ok(parse_u64(number)?)
}

/// `3: not a number of its kind`, of a script; what a line names that the site lacks is no fault.
fn put_script_line<A: Allocator + Copy>(rest: &str, out: &mut Object<A>) -> Result<(), Stop> {
    let (number, told) = parted(rest, ": ")?;
    let number = parse_u64(number)?;
    if let Some(name) = told.strip_prefix("no station ") {
        out.text("no_station", name)?;
    } else if let Some(network) = told.strip_prefix("no network ") {
        out.number("no_network", parse_u64(network)?)?;
    } else {
        out.text("fault", told)?;
    }
    out.number("script_line", number)?;
    Ok(())
}

/// `1, column 20`, of a text that is no TOML document.
fn put_document<A: Allocator + Copy>(place: &str, out: &mut Object<A>) -> Result<(), Stop> {
    let (number, column) = parted(place, ", column ")?;
    let number = parse_u64(number)?;
    let column = parse_u64(column)?;
    out.text("fault", "TOML parse error")?;
    out.number("site_line", number)?;
    out.number("column", column)?;
    Ok(())
}

/// Adds a fault of a site, and its place, if it tells one.
fn put_fault<A: Allocator + Copy>(line: &str, out: &mut Object<A>) -> Result<(), Stop> {
    match line.rsplit_once(": ") {
        Some((fault, at)) if begins_as(line, &FIRST) => {
            out.text("fault", fault)?;
            out.text("at", at)?;
        }
        Some((at, told)) if begins_as(line, &PLACES) => put_placed(at, told, out)?,
        Some(_) | None => out.text("fault", line)?,
    }
    Ok(())
}

/// Adds a fault, its place, and the key that has it, where it is a key's, as in `client 1: name is no name`.
fn put_placed<A: Allocator + Copy>(at: &str, told: &str, out: &mut Object<A>) -> Result<(), Stop> {
    match key_and_fault(told) {
        Some((key, fault)) => {
            out.text("fault", fault)?;
            out.text("at", at)?;
            out.text("key", key)?;
        }
        None => {
            out.text("fault", told)?;
            out.text("at", at)?;
        }
    }
    Ok(())
}

/// The key that a fault is of, as in `name is no name`, and the fault.
fn key_and_fault(told: &str) -> Option<(&str, &str)> {
    let (key, _) = told.rsplit_once(" is ")?;
    let fault = told.strip_prefix(key)?.strip_prefix(' ')?;
    Some((key, fault))
}

/// What stands before and behind the first mark.
///
/// # Errors
/// `Unknown` where it isn't there.
fn parted<'l>(line: &'l str, mark: &str) -> Result<(&'l str, &'l str), Stop> {
    match line.split_once(mark) {
        Some(parts) => Ok(parts),
        None => Err(Stop::Unknown),
    }
}

/// Whether a line begins as one of these.
fn begins_as(line: &str, beginnings: &[&str]) -> bool {
    beginnings
        .iter()
        .any(|beginning| line.starts_with(*beginning))
}
