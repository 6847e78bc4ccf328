//! Site files: `file NAME`, and behind it the lines of the file. `parts NAME`, `changed NAME` and `read NAME` read it,
//! and `read NAME, OLD ==> NEW && OLD ==> NEW` with other words in place of some.

use crate::escaped::push_unescaped;
use crate::parts::push_parts;
use sheets::{Counts, Given, Part, Row, Stop, Trial, refusal, run_trial, try_row};
use site_text::{NoParts, parts_of, site_of};
use std::alloc::{Allocator, Global};

/// Runs a row that wants the parts of a file in words.
pub(crate) fn run_parts(
    given: Given<'_>,
    rows: &[Row<'_>],
    words: &str,
    wanted: &str,
) -> Result<Counts, Stop> {
    let text = text_of(given.alloc, rows, words)?;
    try_row(given, &Parts, text.as_slice(), wanted)
}

/// Runs such a row, also on each prefix of the file and with each octet changed.
pub(crate) fn run_changed(
    given: Given<'_>,
    rows: &[Row<'_>],
    words: &str,
    wanted: &str,
) -> Result<Counts, Stop> {
    let text = text_of(given.alloc, rows, words)?;
    run_trial(given, &Parts, text.as_slice(), wanted)
}

/// Runs a row that wants to know whether a file describes a site, and else why not.
pub(crate) fn run_read(
    given: Given<'_>,
    rows: &[Row<'_>],
    words: &str,
    wanted: &str,
) -> Result<Counts, Stop> {
    let text = text_of(given.alloc, rows, words)?;
    try_row(given, &Site, text.as_slice(), wanted)
}

/// The text of a file that rows describe.
fn text_of(alloc: Global, rows: &[Row<'_>], words: &str) -> Result<Vec<u8>, Stop> {
    let (name, changes) = match words.split_once(", ") {
        Some((name, changes)) => (name, Some(changes)),
        None => (words, None),
    };
    let mut text = lines_of(alloc, rows, name)?;
    if let Some(changes) = changes {
        for change in changes.split(" && ") {
            text = changed(alloc, text.as_str(), change)?;
        }
    }
    let mut octets = Vec::new(alloc);
    push_unescaped(text.as_str(), &mut octets)?;
    Ok(octets)
}

/// The lines behind a file's name.
fn lines_of(alloc: Global, rows: &[Row<'_>], name: &str) -> Result<String, Stop> {
    let mut text = String::new(alloc);
    let mut is_there = false;
    let mut is_named = false;
    for row in rows {
        if let Some(file_name) = row.asked.strip_prefix("file ") {
            is_named = file_name == name;
            is_there = is_there || is_named;
        } else if is_named && row.wanted.is_none() {
            text.push_str(row.asked)?;
            text.push('\n')?;
        }
    }
    if !is_there {
        return Err(Stop::Unread(Part::Asked));
    }
    Ok(text)
}

/// A text with other words in place of some that stand there.
fn changed(alloc: Global, text: &str, change: &str) -> Result<String, Stop> {
    let Some((old, new)) = change.split_once(" ==> ") else {
        return Err(Stop::Unread(Part::Asked));
    };
    let Some((front, behind)) = text.split_once(old) else {
        return Err(Stop::Unread(Part::Asked));
    };
    Ok(format!(in alloc; "{front}{new}{behind}")?)
}

/// The parts of a file.
#[derive(Clone, Copy)]
struct Parts;

impl<'a> Trial<'a> for Parts {
    fn answer(&self, given: Given<'a>, octets: &[u8]) -> Result<String, Stop> {
        parts_in_words(given.alloc, given.memory, octets)
    }
}

/// The parts of a file in words, or that there are none.
fn parts_in_words<A: Allocator + Copy>(
    alloc: Global,
    memory: A,
    octets: &[u8],
) -> Result<String, Stop> {
    let mut out = String::new(alloc);
    match parts_of(alloc, memory, octets) {
        Ok(parts) => push_parts(&parts, &mut out)?,
        Err(NoParts::Memory) => return Err(Stop::Memory),
        Err(NoParts::Document(_)) => out.push_str("no document")?,
        Err(NoParts::Key(key)) => write!(out, "{key}")?,
    }
    Ok(out)
}

/// Whether a file describes a site.
#[derive(Clone, Copy)]
struct Site;

impl<'a> Trial<'a> for Site {
    fn answer(&self, given: Given<'a>, octets: &[u8]) -> Result<String, Stop> {
        site_in_words(given.alloc, given.memory, octets)
    }
}

/// `site`, or the refusal of a file and what is wrong with it.
fn site_in_words<A: Allocator + Copy>(
    alloc: Global,
    memory: A,
    octets: &[u8],
) -> Result<String, Stop> {
    let fault = match site_of(alloc, memory, octets) {
        Ok(_) => return Ok(String::from_str(alloc, "site")?),
        Err(fault) => fault,
    };
    let refused = refusal(alloc, fault)?;
    let refused = refused.as_str();
    match parts_of(alloc, memory, octets) {
        Ok(_) => Ok(format!(in alloc; "{refused}, parts")?),
        Err(NoParts::Memory) => Err(Stop::Memory),
        Err(NoParts::Document(_)) => Ok(format!(in alloc; "{refused}, no document")?),
        Err(NoParts::Key(key)) => Ok(format!(in alloc; "{refused}, {key}")?),
    }
}
