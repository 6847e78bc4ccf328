//! The faults of a site file.

ghost use Rattle.std.specs.Prelude.{IfOk, None, not};
ghost use Rattle.site_check.specs.Judged.{AreJudged};

use crate::fault::{Fault, What};
use crate::judging::{MOST, key_faults};
use crate::keys::{Key, Kind, keys_of};
use crate::parts::tell_parts;
use crate::places::{Sought, find_all, in_order};
use messages::{Choice, Excerpt, Report, excerpt_at, nearest_in};
use site_text::{BadKey, NoParts, parts_of};
use std::alloc::{AllocError, Allocator, Global};
use std::io;
use std::io::{ErrorKind, Write};
use toml::Value;

/// Whether a site file has a fault. Up to 20 faulty keys are told on `out`, each with its line and a caret under its
/// column: `plant.toml:12:1: device 1 (d): ` and what was expected there, and what was found. Where each key says a
/// part of a site, up to 20 faults of these are told in the same way: of two parts the second, with the line of the
/// first. The document is read in memory of `reading`.
///
/// # Errors
/// A failed write, and want of memory (`OutOfMemory`).
pub fn tell_site_faults<A: Allocator + Copy, W: Write>(
    reading: Global,
    alloc: A,
    file: &str,
    text: &[u8],
    in_colour: bool,
    out: &mut W,
) -> io::Result<bool>
    ensures told { IfOk result (λ is_faulty. AreJudged A text.now None (not is_faulty)) }
{
    let report = Report { file, in_colour };
    match parts_of(reading, alloc, text) {
        Ok(parts) => tell_parts(reading, alloc, report, text, &parts, out),
        Err(NoParts::Memory) => Err(ErrorKind::OutOfMemory.into()),
        Err(NoParts::Document(error)) => {
            let at = match error.span() {
                Some(span) => span.start,
                None => 0,
            };
            report.tell(&excerpt_at(text, at), &error.message(), out)?;
            Ok(true)
        }
        Err(NoParts::Key(key)) => {
            tell_keys(reading, report, text, &key, out)?;
            Ok(true)
        }
    }
}

/// Tells the faulty keys of a document in the order in which they stand in its text; the first one that was found
/// before, should there be no other.
fn tell_keys<A: Allocator + Copy, W: Write>(
    reading: Global,
    report: Report<'_>,
    text: &[u8],
    first: &BadKey<A>,
    out: &mut W,
) -> io::Result<()> {
    let document = match toml::table_from_slice(reading, text) {
        Ok(document) => document,
        Err(_) => return Err(ErrorKind::OutOfMemory.into()),
    };
    let faults = key_faults(reading, &document)?;
    let faults = faults.as_slice();
    if faults.is_empty() {
        return report.tell_whole(first, out);
    }
    let places = places_of(reading, text, faults)?;
    for (at, index) in places.as_slice() {
        if let Some(fault) = faults.get(*index) {
            tell_key(reading, report, &excerpt_at(text, *at), fault, out)?;
        }
    }
    if faults.len() > MOST {
        report.tell_whole(&format_args!("more than {MOST} keys are faulty"), out)?;
    }
    Ok(())
}

/// Where faults stand in a text, each with its index among them, in the order of the text; those that are told at most.
fn places_of(
    reading: Global,
    text: &[u8],
    faults: &[Fault<'_>],
) -> Result<Vec<(usize, usize)>, AllocError> {
    let mut sought = Vec::new(reading);
    for fault in faults.iter().take(MOST) {
        sought.push(Sought::path(fault.path(reading)?))?;
    }
    let found = find_all(reading, text, sought)?;
    in_order(reading, found.as_slice())
}

/// Tells the fault of a key, and what helps to mend it.
fn tell_key<W: Write>(
    alloc: Global,
    report: Report<'_>,
    excerpt: &Excerpt<'_>,
    fault: &Fault<'_>,
    out: &mut W,
) -> io::Result<()> {
    match fault.what {
        What::Unknown(key) => tell_unknown(alloc, report, excerpt, fault, key, out),
        What::Other {
            key: Key { kind, .. },
            found: Value::String(word),
        } => {
            let word = word.as_str();
            if let Some(near) = nearest_in(alloc, word, kind.words())? {
                let message = format_args!("{fault}; did you mean {near}?");
                return report.tell(excerpt, &message, out);
            }
            if is_real_type(kind, word) {
                let message = format_args!("{fault}: this profile has no REAL values");
                return report.tell(excerpt, &message, out);
            }
            report.tell(excerpt, fault, out)
        }
        What::Other { .. } | What::Missing(_) | What::NoTable { .. } => {
            report.tell(excerpt, fault, out)
        }
    }
}

/// Whether a word names a type of objects whose values are real numbers (12.1 to 12.4).
fn is_real_type(kind: Kind, word: &str) -> bool {
    match kind {
        Kind::ObjectType => word.starts_with("analog-") || word == "large-analog-value",
        _ => false,
    }
}

/// Tells a key that its row may not have: what rules it out, the key that was meant, or the keys that the row may have.
fn tell_unknown<W: Write>(
    alloc: Global,
    report: Report<'_>,
    excerpt: &Excerpt<'_>,
    fault: &Fault<'_>,
    key: &str,
    out: &mut W,
) -> io::Result<()> {
    if let Some(other) = fault.beside(key) {
        return report.tell(excerpt, &format_args!("{fault}, {other}"), out);
    }
    let keys = keys_of(alloc, fault.row.kind, fault.row.table)?;
    let mut names = Vec::new(alloc);
    for known in keys.as_slice() {
        names.push(known.name)?;
    }
    match nearest_in(alloc, key, names.as_slice())? {
        Some(near) => report.tell(excerpt, &format_args!("{fault}; did you mean {near}?"), out),
        None => {
            let choice = Choice(names.as_slice());
            report.tell(excerpt, &format_args!("{fault}; expected {choice}"), out)
        }
    }
}
