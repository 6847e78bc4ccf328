//! What is told: `script LINES -> 1: plant.script:1:6: expected ..`, the exit status that a command has for it, and
//! then the lines, parted by ` / `; `notes FILE: LINES` and `live FILE: LINES` what shows when they run;
//! `site FILE -> ..` is the same of a site file that rows describe, `online LINES` that of a script for a live run,
//! `coloured LINES` that for a terminal, `^[` being the octet of an escape; and `mended LINES -> LINES`. In a script
//! `\n` is a line feed, `\r` a carriage return, `\t` a tab, `\\` a backslash and `\!` an octet that no UTF-8 has.
//!
//! `changed LINES` and `altered FILE` are run on each prefix and with each octet changed, too: then each message of a
//! script says what was expected, and that of a faulty key where it stands.
//!
//! Each row runs again with each allocation refused in turn: that is told as want of memory, and what was told before
//! is the beginning of what is wanted. `large FILE -> ..` runs once.

use rows_check::{text_of, unescaped};
use script_faults::{mended, tell_live_faults, tell_script_faults};
use sheets::{Counts, Given, Part, Row, Stop, Trial, differs, run_text, run_trial, try_row};
use site_notes::tell_notes;
use site_text::{NoParts, parts_of};
use site_text_faults::tell_site_faults;
use std::alloc::{AllocError, Global};
use std::io;

/// Runs a row of a script.
pub(crate) fn run_script(given: Given<'_>, words: &str, wanted: &str) -> Result<Counts, Stop> {
    let text = unescaped(given.alloc, words)?;
    let told = ToldScript {
        wanted,
        in_colour: false,
        is_live: false,
    };
    try_row(given, &told, text.as_slice(), wanted)
}

/// Runs a row of a script for a live run.
pub(crate) fn run_online(given: Given<'_>, words: &str, wanted: &str) -> Result<Counts, Stop> {
    let text = unescaped(given.alloc, words)?;
    let told = ToldScript {
        wanted,
        in_colour: false,
        is_live: true,
    };
    try_row(given, &told, text.as_slice(), wanted)
}

/// Runs such a row, also on each prefix of the script and with each octet changed.
pub(crate) fn run_changed(given: Given<'_>, words: &str, wanted: &str) -> Result<Counts, Stop> {
    let text = unescaped(given.alloc, words)?;
    let told = ToldScript {
        wanted,
        in_colour: false,
        is_live: false,
    };
    run_trial(given, &told, text.as_slice(), wanted)
}

/// Runs such a row for a terminal.
pub(crate) fn run_coloured(given: Given<'_>, words: &str, wanted: &str) -> Result<Counts, Stop> {
    let text = unescaped(given.alloc, words)?;
    let told = ToldScript {
        wanted,
        in_colour: true,
        is_live: false,
    };
    try_row(given, &told, text.as_slice(), wanted)
}

/// Runs a row of a site file that other rows describe.
pub(crate) fn run_site(
    given: Given<'_>,
    rows: &[Row<'_>],
    words: &str,
    wanted: &str,
) -> Result<Counts, Stop> {
    let text = text_of(given.alloc, rows, words)?;
    try_row(given, &ToldSite { wanted }, text.as_slice(), wanted)
}

/// Runs such a row of a large file, with ample memory alone.
pub(crate) fn run_large(
    given: Given<'_>,
    rows: &[Row<'_>],
    words: &str,
    wanted: &str,
) -> Result<Counts, Stop> {
    let text = text_of(given.alloc, rows, words)?;
    run_text(ToldSite { wanted }.answer(given, text.as_slice())?, wanted)
}

/// Runs such a row, also on each prefix of the file and with each octet changed.
pub(crate) fn run_changed_site(
    given: Given<'_>,
    rows: &[Row<'_>],
    words: &str,
    wanted: &str,
) -> Result<Counts, Stop> {
    let text = text_of(given.alloc, rows, words)?;
    run_trial(given, &ToldSite { wanted }, text.as_slice(), wanted)
}

/// Runs a row of what shows when a site and a script run.
pub(crate) fn run_notes(
    given: Given<'_>,
    rows: &[Row<'_>],
    words: &str,
    wanted: &str,
) -> Result<Counts, Stop> {
    run_noted(given, rows, words, wanted, false)
}

/// Runs such a row of a live run.
pub(crate) fn run_live(
    given: Given<'_>,
    rows: &[Row<'_>],
    words: &str,
    wanted: &str,
) -> Result<Counts, Stop> {
    run_noted(given, rows, words, wanted, true)
}

fn run_noted(
    given: Given<'_>,
    rows: &[Row<'_>],
    words: &str,
    wanted: &str,
    is_live: bool,
) -> Result<Counts, Stop> {
    let (site, script) = match words.split_once(": ") {
        Some((site, script)) => (site, Some(unescaped(given.alloc, script)?)),
        None => (words, None),
    };
    let text = text_of(given.alloc, rows, site)?;
    let noted = Noted {
        script: script.as_ref().map(|script| script.as_slice()),
        is_live,
        wanted,
    };
    try_row(given, &noted, text.as_slice(), wanted)
}

/// Runs a row of a script that is mended, and once more with what came of it, which stays.
pub(crate) fn run_mended(given: Given<'_>, words: &str, wanted: &str) -> Result<Counts, Stop> {
    let text = unescaped(given.alloc, words)?;
    let counts = try_row(given, &Mended, text.as_slice(), wanted)?;
    let again = unescaped(given.alloc, wanted)?;
    Ok(counts.and(try_row(given, &Mended, again.as_slice(), wanted)?))
}

/// What is told of a script, and what is wanted of it.
#[derive(Clone, Copy)]
struct ToldScript<'t> {
    wanted: &'t str,
    in_colour: bool,
    is_live: bool,
}

impl<'a> Trial<'a> for ToldScript<'_> {
    fn answer(&self, given: Given<'a>, octets: &[u8]) -> Result<String, Stop> {
        let mut out = Vec::new(given.alloc);
        let (memory, file) = (given.memory, "plant.script");
        let came = if self.is_live {
            tell_live_faults(memory, file, octets, self.in_colour, &mut out)
        } else {
            tell_script_faults(memory, file, octets, self.in_colour, &mut out)
        };
        let told = told_in_words(given.alloc, came, out.as_slice(), self.wanted)?;
        if !all_are_placed(out.as_slice()) {
            return Err(differs(given.alloc, told.as_str()));
        }
        Ok(told)
    }
}

/// What is told of a site file, and what is wanted of it.
#[derive(Clone, Copy)]
struct ToldSite<'t> {
    wanted: &'t str,
}

impl<'a> Trial<'a> for ToldSite<'_> {
    fn answer(&self, given: Given<'a>, octets: &[u8]) -> Result<String, Stop> {
        let mut out = Vec::new(given.alloc);
        let came = tell_site_faults(
            given.alloc,
            given.memory,
            "plant.toml",
            octets,
            false,
            &mut out,
        );
        let told = told_in_words(given.alloc, came, out.as_slice(), self.wanted)?;
        let is_key = matches!(
            parts_of(given.alloc, given.other, octets),
            Err(NoParts::Key(_))
        );
        if is_key && !begins_with_place(out.as_slice(), b"plant.toml:") {
            return Err(differs(given.alloc, told.as_str()));
        }
        Ok(told)
    }
}

/// What shows when a site and a script run, and what is wanted of it.
#[derive(Clone, Copy)]
struct Noted<'s, 't> {
    script: Option<&'s [u8]>,
    is_live: bool,
    wanted: &'t str,
}

impl<'a> Trial<'a> for Noted<'_, '_> {
    fn answer(&self, given: Given<'a>, octets: &[u8]) -> Result<String, Stop> {
        let mut out = Vec::new(given.alloc);
        let came = tell_notes(
            given.alloc,
            given.memory,
            octets,
            self.script,
            self.is_live,
            &mut out,
        );
        told_in_words(given.alloc, came, out.as_slice(), self.wanted)
    }
}

/// A script as it is mended.
#[derive(Clone, Copy)]
struct Mended;

impl<'a> Trial<'a> for Mended {
    fn answer(&self, given: Given<'a>, octets: &[u8]) -> Result<String, Stop> {
        match mended(given.memory, octets) {
            Ok(text) => escaped(given.alloc, text.as_slice()),
            Err(AllocError) => Err(Stop::Memory),
        }
    }
}

/// Whether each message of a script says what was expected, or that there are more.
fn all_are_placed(out: &[u8]) -> bool {
    for line in out.split(|octet| *octet == b'\n') {
        if let Some(place) = line.strip_prefix(b"plant.script:") {
            if let Ok(message) = std::str::from_utf8(place) {
                if !message.contains(": expected ") && !message.starts_with(" more than ") {
                    return false;
                }
            }
        }
    }
    true
}

/// Whether a text begins with the name of a file and the number of a line.
fn begins_with_place(out: &[u8], file: &[u8]) -> bool {
    match out.strip_prefix(file) {
        Some([first, ..]) => first.is_ascii_digit(),
        _ => false,
    }
}

/// The status and the lines that were told, or why nothing is answered, where what was told before begins what is
/// wanted.
pub(crate) fn told_in_words(
    alloc: Global,
    came: io::Result<bool>,
    out: &[u8],
    wanted: &str,
) -> Result<String, Stop> {
    let lines = lines_in_words(alloc, out)?;
    match came {
        Ok(is_faulty) => {
            let status = u8::from(is_faulty);
            Ok(format!(in alloc; "{status}: {lines}")?)
        }
        Err(error) if error.kind() != io::ErrorKind::OutOfMemory => {
            Err(differs(alloc, "a failed write"))
        }
        Err(_) => {
            let wanted = match wanted.split_once(": ") {
                Some((_, wanted)) => wanted,
                None => wanted,
            };
            if !wanted.starts_with(lines.as_str()) {
                return Err(differs(alloc, lines.as_str()));
            }
            Err(Stop::Memory)
        }
    }
}

/// Lines parted by ` / `, with `^[` for each escape.
fn lines_in_words(alloc: Global, out: &[u8]) -> Result<String, Stop> {
    let mut words = String::new(alloc);
    let lines = match out {
        [front @ .., b'\n'] => front,
        _ => out,
    };
    for (index, line) in lines.split(|octet| *octet == b'\n').enumerate() {
        let Ok(line) = std::str::from_utf8(line) else {
            return Err(Stop::Unread(Part::Wanted));
        };
        if index > 0 {
            words.push_str(" / ")?;
        }
        for part in line.chars() {
            match part {
                '\x1b' => words.push_str("^[")?,
                '\t' => words.push_str("\\t")?,
                other => words.push(other)?,
            }
        }
    }
    Ok(words)
}

/// A text with its escapes.
fn escaped(alloc: Global, text: &[u8]) -> Result<String, Stop> {
    let Ok(text) = std::str::from_utf8(text) else {
        return Err(Stop::Unread(Part::Wanted));
    };
    let mut words = String::new(alloc);
    for letter in text.chars() {
        match letter {
            '\n' => words.push_str("\\n")?,
            '\r' => words.push_str("\\r")?,
            '\t' => words.push_str("\\t")?,
            '\\' => words.push_str("\\\\")?,
            other => words.push(other)?,
        }
    }
    Ok(words)
}
