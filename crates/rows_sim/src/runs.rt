//! What is printed of a script: `sim SITE SCRIPT ..`, `trace SITE SCRIPT ..` with the items, `once SITE SCRIPT ..` for
//! a long one, which runs with ample memory alone, and `item K SITE SCRIPT ..` for the octets of an item alone, which
//! are wanted whole, or their beginning with `..` behind it.
//!
//! What is wanted of a run that prints is the name of a `prints` block. What is told on the standard error is wanted as
//! it stands behind `! `, and the exit status is 1 then; behind `~ ` it is 0, and behind `? ` it is 4.

use crate::blocks::{Kind, blocks};
use sheets::{Counts, Given, Part, Row, Stop, compare, differs, two_words};
use site_run::{simulate, simulate_traced};
use std::alloc::{Allocator, Global};

/// How many runs have an allocation refused at most.
const MANY: u64 = 2000;

/// The line of an event that is refused memory, behind its moment.
const NO_MEMORY: &str = " refused 1 Memory\n";

/// What is told on the standard error where memory is refused outside of an event.
const ENDS: &str = "! bacsite: refused 1 Memory\n";

/// A site and a script, and whether items are printed.
#[derive(Clone, Copy)]
struct Run<'a> {
    site: &'a str,
    script: &'a str,
    is_traced: bool,
}

/// Runs a row that wants what is printed.
pub(crate) fn run_plain(
    given: Given<'_>,
    rows: &[Row<'_>],
    words: &str,
    wanted: &str,
) -> Result<Counts, Stop> {
    run_texts(given, rows, words, wanted, false)
}

/// Runs a row that wants what is printed with the items.
pub(crate) fn run_traced(
    given: Given<'_>,
    rows: &[Row<'_>],
    words: &str,
    wanted: &str,
) -> Result<Counts, Stop> {
    run_texts(given, rows, words, wanted, true)
}

/// Runs a row that wants what is printed, and refuses no allocation.
pub(crate) fn run_once(
    given: Given<'_>,
    rows: &[Row<'_>],
    words: &str,
    wanted: &str,
) -> Result<Counts, Stop> {
    let (site, scripts) = two_words(words);
    let site = blocks(given.alloc, rows, Kind::Site, site)?;
    let script = blocks(given.alloc, rows, Kind::Script, scripts)?;
    let wanted = text_wanted(given.alloc, rows, wanted)?;
    let run = Run {
        site: site.as_str(),
        script: script.as_str(),
        is_traced: false,
    };
    compare(printed(given.alloc, given.memory, run)?, wanted.as_str())?;
    Ok(Counts {
        rows: 1,
        refused: 0,
        changed: 0,
    })
}

fn run_texts(
    given: Given<'_>,
    rows: &[Row<'_>],
    words: &str,
    wanted: &str,
    is_traced: bool,
) -> Result<Counts, Stop> {
    let (site, scripts) = two_words(words);
    let site = blocks(given.alloc, rows, Kind::Site, site)?;
    let script = blocks(given.alloc, rows, Kind::Script, scripts)?;
    let wanted = text_wanted(given.alloc, rows, wanted)?;
    let run = Run {
        site: site.as_str(),
        script: script.as_str(),
        is_traced,
    };
    try_run(given, run, wanted.as_str())
}

/// The text that is wanted.
fn text_wanted(alloc: Global, rows: &[Row<'_>], wanted: &str) -> Result<String, Stop> {
    if wanted.starts_with("! ") {
        return Ok(format!(in alloc; "{wanted}\n")?);
    }
    blocks(alloc, rows, Kind::Prints, wanted)
}

/// Runs a row that wants the octets of an item.
pub(crate) fn run_item(
    given: Given<'_>,
    rows: &[Row<'_>],
    words: &str,
    wanted: &str,
) -> Result<Counts, Stop> {
    let (number, words) = two_words(words);
    let (site, scripts) = two_words(words);
    let site = blocks(given.alloc, rows, Kind::Site, site)?;
    let script = blocks(given.alloc, rows, Kind::Script, scripts)?;
    let run = Run {
        site: site.as_str(),
        script: script.as_str(),
        is_traced: true,
    };
    let found = printed(given.alloc, given.memory, run)?;
    let octets = octets_of(found.as_str(), number)?;
    let is_wanted = match wanted.strip_suffix("..") {
        Some(front) => octets.starts_with(front),
        None => octets == wanted,
    };
    if !is_wanted {
        return Err(differs(given.alloc, octets));
    }
    Ok(Counts {
        rows: 1,
        refused: 0,
        changed: 0,
    })
}

/// The octets of the item of this number, as they were printed.
fn octets_of<'a>(printed: &'a str, number: &str) -> Result<&'a str, Stop> {
    for line in printed.lines() {
        if let Some((_, item)) = line.split_once(" item ") {
            let (k, rest) = two_words(item);
            let (_, rest) = two_words(rest);
            let (_, octets) = two_words(rest);
            if k == number {
                return Ok(octets);
            }
        }
    }
    Err(Stop::Unread(Part::Asked))
}

/// What is printed, and behind it what is told on the standard error, behind `! `, or behind `~ ` where the exit status
/// is 0, and behind `? ` where it is 4.
///
/// # Errors
/// `Differs` for an exit status that doesn't fit.
fn printed<A: Allocator + Copy>(alloc: Global, memory: A, run: Run<'_>) -> Result<String, Stop> {
    let mut out = Vec::new(alloc);
    let mut err = Vec::new(alloc);
    let site = run.site.as_bytes();
    let script = run.script.as_bytes();
    let status = if run.is_traced {
        simulate_traced(alloc, memory, site, script, &mut out, &mut err)
    } else {
        simulate(alloc, memory, site, script, &mut out, &mut err)
    };
    let mut text = String::new(alloc);
    push_octets(out.as_slice(), &mut text)?;
    if !err.is_empty() {
        text.push_str(match status {
            0 => "~ ",
            4 => "? ",
            _ => "! ",
        })?;
        push_octets(err.as_slice(), &mut text)?;
    }
    if !matches!(status, 0 | 1 | 4) || (status != 0 && err.is_empty()) {
        return Err(differs(alloc, "another exit status"));
    }
    Ok(text)
}

/// Appends octets of UTF-8.
fn push_octets(octets: &[u8], out: &mut String) -> Result<(), Stop> {
    match std::str::from_utf8(octets) {
        Ok(text) => out.push_str(text)?,
        Err(_) => return Err(Stop::Unread(Part::Wanted)),
    }
    Ok(())
}

/// Runs a script as it stands, and then with each allocation refused in turn (behind the eighth not each), until a run
/// meets no refusal: the event that is refused memory is told so, and all before it is as it was; outside of an event
/// the run ends.
fn try_run(given: Given<'_>, run: Run<'_>, wanted: &str) -> Result<Counts, Stop> {
    compare(printed(given.alloc, given.memory, run)?, wanted)?;
    let mut n = 1u64;
    for refused in 0..MANY {
        given.memory.refuse_only(n);
        let found = printed(given.alloc, given.memory, run);
        let is_waiting = given.memory.is_waiting();
        given.memory.refuse_only(0);
        let found = found?;
        if is_waiting {
            compare(found, wanted)?;
            return Ok(Counts {
                rows: 1,
                refused,
                changed: 0,
            });
        }
        if !is_refused_once(found.as_str(), wanted) {
            return Err(Stop::Differs(found));
        }
        n = n.saturating_add(1 + n / 8);
    }
    Err(differs(given.alloc, "a run that is refused memory again and again"))
}

/// Whether this was printed where one allocation was refused, and that is wanted where none was.
fn is_refused_once(found: &str, wanted: &str) -> bool {
    if found == ENDS {
        return true;
    }
    let Some((front, behind)) = found.split_once(NO_MEMORY) else {
        return false;
    };
    let before = match front.rsplit_once('\n') {
        Some((before, _)) => before,
        None => "",
    };
    wanted.starts_with(before) && !behind.contains(NO_MEMORY)
}
