//! What is drawn of a script at a site: `KIND SITE: STEP; STEP; .. -> ..`, the site of the file `SITE.site` and the
//! steps of a script, or `KIND SITE FROM..TO: ..` for a part of the run, either end of which may be left out, and
//! `KIND SITE FROM..TO STATION,.. #REQUEST,..: ..` for a part of some stations and requests, or of either.
//!
//! - `rows` wants the rows of the picture in words, as its titles say them, `lanes` what stands behind them, and
//!   `remark` what is said below them of what isn't in it;
//! - `history` and `requests` the tables of the page, `listed` how many requests are shown and whether their table is
//!   folded, `page` what it says of each message with the name of its place, and `explain-d0` the tree of the one at
//!   this place.
//!
//! The elements of each picture and of each page are nested, and each link leads to a place. Each row runs again with
//! each allocation refused in turn (behind the eighth not each): that is told as want of memory.

use crate::drawn::{
    are_links_there, explained, history, lanes, listed, remark, requests, summaries, titles,
};
use crate::nesting::is_nested;
use refusing::Refusing;
use sheets::{Counts, Report, Row, Stop, compare, differs, refusal, rows, two_words};
use site_ladder::{Part, ladder, report};
use std::alloc::{Allocator, Global};
use std::{fs, io};
use tags::Fault;
use words::parse_u64;

/// The file of the rows.
const FILE: &str = "ladder/runs.rows";

/// How many runs have an allocation refused at most.
const MANY: u64 = 2000;

/// A run that is drawn, and what is wanted of it.
#[derive(Clone, Copy)]
struct Run<'a, 'p> {
    kind: &'a str,
    site: &'a [u8],
    script: &'a [u8],
    part: Part<'p>,
}

/// Runs each row of the file, each at the site that it names, and prints what comes of them.
///
/// # Errors
/// Those of reading and of printing, and want of memory.
pub fn run_file(rt: &HostRuntime) -> io::Result<()> {
    let alloc = rt.alloc();
    let text = fs::read_to_string(rt, FILE)?;
    let mut counts = Report::new(alloc, FILE);
    for row in rows(alloc, text.as_str())?.as_slice() {
        let (front, steps) = row.asked.split_once(": ").unwrap_or((row.asked, ""));
        let (kind, words) = two_words(front);
        let (name, part) = two_words(words);
        let file = format!(in alloc; "ladder/{name}.site")?;
        let site = fs::read(rt, file.as_str())?;
        counts.add(row, run_row(alloc, kind, site.as_slice(), part, steps, row))?;
    }
    let said = counts.text()?;
    rt.print(said.as_str())
}

/// Runs a row at a site.
fn run_row(
    alloc: Global,
    kind: &str,
    site: &[u8],
    part: &str,
    steps: &str,
    row: &Row<'_>,
) -> Result<Counts, Stop> {
    let mut script = String::new(alloc);
    for step in steps.split("; ") {
        writeln!(script, "{step}")?;
    }
    let mut requests = Vec::new(alloc);
    let run = Run {
        kind,
        site,
        script: script.as_bytes(),
        part: part_in(part, &mut requests)?,
    };
    try_run(alloc, run, row.wanted()?)
}

/// The part of a run that words describe, with the numbers of its requests.
fn part_in<'a>(words: &'a str, requests: &'a mut Vec<u64>) -> Result<Part<'a>, Stop> {
    let (moments, chosen) = two_words(words);
    let (from, to) = moments.split_once("..").unwrap_or(("", ""));
    let mut part = Part {
        from: moment_in(from)?,
        to: moment_in(to)?,
        only: None,
        requests: None,
    };
    for word in chosen.split(' ') {
        if let Some(numbers) = word.strip_prefix("#") {
            add_numbers(numbers, requests)?;
        } else if !word.is_empty() {
            part.only = Some(word);
        }
    }
    if !requests.is_empty() {
        part.requests = Some(requests.as_slice());
    }
    Ok(part)
}

/// Adds the numbers that words say, with commas between them.
fn add_numbers(words: &str, numbers: &mut Vec<u64>) -> Result<(), Stop> {
    for word in words.split(',') {
        numbers.push(parse_u64(word)?)?;
    }
    Ok(())
}

/// The moment that a word is, if it is one.
fn moment_in(word: &str) -> Result<Option<u64>, Stop> {
    if word.is_empty() {
        return Ok(None);
    }
    Ok(Some(parse_u64(word)?))
}

/// Draws a run, and then with each allocation refused in turn, until a run meets no refusal.
fn try_run(alloc: Global, run: Run<'_, '_>, wanted: &str) -> Result<Counts, Stop> {
    let memory = Refusing::new(alloc);
    compare(drawn(alloc, &memory, run)?, wanted)?;
    let mut n = 1u64;
    for refused in 0..MANY {
        memory.refuse_only(n);
        let found = drawn(alloc, &memory, run);
        let is_waiting = memory.is_waiting();
        memory.refuse_only(0);
        match found {
            Ok(found) if is_waiting => {
                compare(found, wanted)?;
                return Ok(Counts {
                    rows: 1,
                    refused,
                    changed: 0,
                });
            }
            Err(Stop::Memory) if !is_waiting => {}
            Err(stop) => return Err(stop),
            Ok(_) => return Err(differs(alloc, "a run where memory was refused")),
        }
        n = n.saturating_add(1 + n / 8);
    }
    Err(differs(alloc, "a run that is refused memory again and again"))
}

/// What is drawn of a run, in words.
///
/// # Errors
/// `Memory` where the call says so.
fn drawn<A: Allocator + Copy>(alloc: Global, memory: A, run: Run<'_, '_>) -> Result<String, Stop> {
    let Run {
        kind,
        site,
        script,
        part,
    } = run;
    let drawn = if kind == "rows" || kind == "lanes" || kind == "remark" {
        ladder(alloc, memory, site, script, part)
    } else {
        report(alloc, memory, site, script, part)
    };
    match drawn {
        Ok(octets) => in_words(alloc, kind, octets.as_slice()),
        Err(site_ladder::Stop::Refused(Fault::Memory)) => Err(Stop::Memory),
        Err(site_ladder::Stop::Refused(fault)) => refusal(alloc, fault),
        Err(site_ladder::Stop::Line(number)) => Ok(format!(in alloc; "line {number}")?),
    }
}

/// What is wanted of a picture or of a page, in words.
fn in_words(alloc: Global, kind: &str, octets: &[u8]) -> Result<String, Stop> {
    let Ok(text) = std::str::from_utf8(octets) else {
        return Err(differs(alloc, "what is no text"));
    };
    if !is_nested(alloc, text)? {
        return Err(differs(alloc, "elements that aren't nested"));
    }
    if !are_links_there(alloc, text)? {
        return Err(differs(alloc, "a link to nowhere"));
    }
    match kind {
        "rows" => titles(alloc, text),
        "lanes" => lanes(alloc, text),
        "remark" => remark(alloc, text),
        "history" => history(alloc, text),
        "requests" => requests(alloc, text),
        "listed" => listed(alloc, text),
        "page" => summaries(alloc, text),
        _ => explained(alloc, kind.strip_prefix("explain-").unwrap_or(""), text),
    }
}
