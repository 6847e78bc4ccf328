//! What a script prints that was found: what the given one prints, and behind it new entries, of which the last one has
//! the words that were searched for.

use crate::asked::{Asked, push_steps};
use refusing::Refusing;
use sheets::{Stop, differs};
use site_search::{Spelling, Telling, simulate_told};
use std::alloc::Global;

/// What is printed of a script at a site, without its last line.
fn entries_of(
    alloc: Global,
    site: &[u8],
    script: &str,
    spelling: Spelling,
) -> Result<String, Stop> {
    let memory = Refusing::new(alloc);
    let mut out = Vec::new(alloc);
    let mut err = Vec::new(alloc);
    let telling = Telling::entries(spelling);
    let script = script.as_bytes();
    let status = simulate_told(alloc, &memory, site, script, telling, &mut out, &mut err);
    let printed = std::str::from_utf8(out.as_slice()).unwrap_or("");
    if status != 0 || !err.is_empty() {
        return Err(differs(alloc, "a script that can't run"));
    }
    let entries = match printed.trim_end().rsplit_once('\n') {
        Some((entries, _)) => entries,
        None => "",
    };
    Ok(String::from_str(alloc, entries)?)
}

/// Whether the last of these lines has these words behind its moment.
fn ends_with(lines: &str, words: &str) -> bool {
    let last = match lines.rsplit_once('\n') {
        Some((_, last)) => last,
        None => lines,
    };
    match last.split_once(' ') {
        Some((_, behind)) => behind.starts_with(words),
        None => false,
    }
}

/// What a script with the events that were found behind it prints, and whether the last new entry has the words.
fn run_found(
    alloc: Global,
    site: &[u8],
    asked: &Asked<'_>,
    script: &str,
    spelling: Spelling,
) -> Result<(String, bool), Stop> {
    let before = entries_of(alloc, site, asked.script.as_str(), spelling)?;
    let behind = entries_of(alloc, site, script, spelling)?;
    let is_found = match behind.as_str().strip_prefix(before.as_str()) {
        Some(new) => ends_with(new, asked.words),
        None => false,
    };
    Ok((behind, is_found))
}

/// Runs a script with the events that were found behind it.
///
/// # Errors
/// `Differs` where the last new entry has other words, with numbers and with names, or there is none.
pub(crate) fn check_found(
    alloc: Global,
    site: &[u8],
    asked: &Asked<'_>,
    events: &str,
) -> Result<(), Stop> {
    let mut script = String::from_str(alloc, asked.script.as_str())?;
    push_steps(events, &mut script)?;
    let (printed, in_numbers) = run_found(alloc, site, asked, script.as_str(), Spelling::Numbers)?;
    if in_numbers {
        return Ok(());
    }
    let (_, in_names) = run_found(alloc, site, asked, script.as_str(), Spelling::Names)?;
    if in_names {
        Ok(())
    } else {
        Err(Stop::Differs(printed))
    }
}
