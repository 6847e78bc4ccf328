//! What is told: `check FILE -> 0: site: 1 network, 2 stations`, `check FILE, OLD ==> NEW -> 1: there is no network`,
//! and `script FILE: whois c\nwake x -> ..` with a script; the exit status, and then the lines, parted by ` / `.
//!
//! Each row runs again with each allocation refused in turn: that is told as want of memory, and what was told before
//! is the beginning of what is wanted. `large FILE -> ..` runs once.

use crate::texts::{text_of, unescaped};
use sheets::{Counts, Given, Part, Row, Stop, Trial, differs, run_text, run_trial, try_row};
use site_check::check;
use std::alloc::Global;
use std::io;

/// Runs a row without a script.
pub(crate) fn run_site(
    given: Given<'_>,
    rows: &[Row<'_>],
    words: &str,
    wanted: &str,
) -> Result<Counts, Stop> {
    let site = text_of(given.alloc, rows, words)?;
    let checked = Checked {
        script: None,
        wanted,
    };
    try_row(given, &checked, site.as_slice(), wanted)
}

/// Runs such a row, also on each prefix of the file and with each octet changed.
pub(crate) fn run_changed(
    given: Given<'_>,
    rows: &[Row<'_>],
    words: &str,
    wanted: &str,
) -> Result<Counts, Stop> {
    let site = text_of(given.alloc, rows, words)?;
    let checked = Checked {
        script: None,
        wanted,
    };
    run_trial(given, &checked, site.as_slice(), wanted)
}

/// Runs a row of a large site, with ample memory alone.
pub(crate) fn run_large(
    given: Given<'_>,
    rows: &[Row<'_>],
    words: &str,
    wanted: &str,
) -> Result<Counts, Stop> {
    let site = text_of(given.alloc, rows, words)?;
    let checked = Checked {
        script: None,
        wanted,
    };
    run_text(checked.answer(given, site.as_slice())?, wanted)
}

/// Runs a row with a script.
pub(crate) fn run_script(
    given: Given<'_>,
    rows: &[Row<'_>],
    words: &str,
    wanted: &str,
) -> Result<Counts, Stop> {
    let Some((site, script)) = words.split_once(": ") else {
        return Err(Stop::Unread(Part::Asked));
    };
    let site = text_of(given.alloc, rows, site)?;
    let text = unescaped(given.alloc, script)?;
    let script = Some(text.as_slice());
    let checked = Checked { script, wanted };
    try_row(given, &checked, site.as_slice(), wanted)
}

/// What is told of a site's text with a script, and what is wanted of it.
#[derive(Clone, Copy)]
struct Checked<'s, 't> {
    script: Option<&'s [u8]>,
    wanted: &'t str,
}

impl<'a> Trial<'a> for Checked<'_, '_> {
    fn answer(&self, given: Given<'a>, octets: &[u8]) -> Result<String, Stop> {
        let mut out = Vec::new(given.alloc);
        let came = check(given.alloc, given.memory, octets, self.script, &mut out);
        let lines = lines_in_words(given.alloc, out.as_slice())?;
        match came {
            Ok(is_sound) => {
                let status = u8::from(!is_sound);
                Ok(format!(in given.alloc; "{status}: {lines}")?)
            }
            Err(error) => Err(self.stop(given.alloc, &error, lines.as_str())),
        }
    }
}

impl Checked<'_, '_> {
    /// Why nothing is answered, where these lines were told before.
    fn stop(&self, alloc: Global, error: &io::Error, lines: &str) -> Stop {
        let wanted = match self.wanted.split_once(": ") {
            Some((_, wanted)) => wanted,
            None => self.wanted,
        };
        if error.kind() != io::ErrorKind::OutOfMemory {
            return differs(alloc, "a failed write");
        }
        if !wanted.starts_with(lines) {
            return differs(alloc, lines);
        }
        Stop::Memory
    }
}

/// Lines parted by ` / `.
fn lines_in_words(alloc: Global, out: &[u8]) -> Result<String, Stop> {
    let Ok(text) = std::str::from_utf8(out) else {
        return Err(Stop::Unread(Part::Wanted));
    };
    let mut words = String::new(alloc);
    for line in text.lines() {
        if !words.is_empty() {
            words.push_str(" / ")?;
        }
        words.push_str(line)?;
    }
    Ok(words)
}
