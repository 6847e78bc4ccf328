//! What comes of a search: the events that it found, or what is told on the standard error behind `! `, and the exit
//! status is 1 then. Each runs again with each allocation refused in turn (behind the 32nd not each), and tells want
//! of memory then and writes nothing; with `once ` before it a row runs with ample memory alone.

use crate::asked::Asked;
use crate::checks::check_found;
use refusing::Refusing;
use sheets::{Counts, Given, Stop, Trial, differs, run_text, try_row};
use site_search::{Spelling, say_found, search};
use std::alloc::Global;

/// What is told on the standard error where memory is refused.
const NO_MEMORY: &[u8] = b"bacsite: refused 1 Memory\n";

/// A search that a row asks for.
#[derive(Clone, Copy)]
struct Searching<'a> {
    site: &'a [u8],
    asked: &'a Asked<'a>,
}

impl<'a> Trial<'a> for Searching<'_> {
    fn answer(&self, given: Given<'a>, _octets: &[u8]) -> Result<String, Stop> {
        let mut out = Vec::new(given.alloc);
        let mut err = Vec::new(given.alloc);
        let found = search(
            given.alloc,
            given.memory,
            self.site,
            self.asked.script.as_bytes(),
            self.asked.words.as_bytes(),
            self.asked.depth,
            Spelling::Numbers,
            &mut out,
        );
        let status = say_found(found, &mut err);
        if status != u8::from(!err.is_empty()) || (status != 0 && !out.is_empty()) {
            return Err(differs(given.alloc, "another exit status, or a script beside it"));
        }
        if err.as_slice() == NO_MEMORY {
            return Err(Stop::Memory);
        }
        if err.is_empty() {
            return found_text(given.alloc, self.asked.script.as_str(), out.as_slice());
        }
        told_text(given.alloc, err.as_slice())
    }
}

/// What is told on the standard error, without the end of its line.
fn told_text(alloc: Global, err: &[u8]) -> Result<String, Stop> {
    let told = std::str::from_utf8(err).unwrap_or("no text");
    Ok(format!(in alloc; "! {}", told.trim_end())?)
}

/// The lines that were written behind a script, on one line.
fn found_text(alloc: Global, script: &str, written: &[u8]) -> Result<String, Stop> {
    let written = std::str::from_utf8(written).unwrap_or("no text");
    let Some(events) = written.strip_prefix(script) else {
        return Err(differs(alloc, "another script"));
    };
    let mut text = String::new(alloc);
    for event in events.lines() {
        if !text.is_empty() {
            text.push_str("; ")?;
        }
        text.push_str(event)?;
    }
    Ok(text)
}

/// Runs a row at a site, in memory that can be refused.
pub(crate) fn run(
    alloc: Global,
    site: &[u8],
    asked: &Asked<'_>,
    wanted: &str,
) -> Result<Counts, Stop> {
    let memory = Refusing::new(alloc);
    let other = Refusing::new(alloc);
    let given = Given {
        alloc,
        memory: &memory,
        other: &other,
    };
    let searching = Searching { site, asked };
    let counts = if asked.is_once {
        run_text(searching.answer(given, &[])?, wanted)?
    } else {
        try_row(given, &searching, &[], wanted)?
    };
    if !wanted.starts_with("! ") {
        check_found(alloc, site, asked, wanted)?;
    }
    Ok(counts)
}
