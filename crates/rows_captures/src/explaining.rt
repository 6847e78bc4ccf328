//! What is printed of a capture: `explain FILE -> STATUS: LINES ! LINES`, as rows of the program's tools have it, and
//! with names `named FILE -> ..`.
//!
//! Each row runs again with each allocation refused in turn, where what was printed before is the beginning of what is
//! wanted, and with each prefix of the file and each of its octets changed, where the status is 0, or 1 for what is no
//! capture.

use capture_lines::explain_capture;
use rows_packets::octets_of;
use sheets::{Counts, Given, Row, Said, Stop, Trial, change_octets, differs, try_row};
use std::alloc::Global;
use words::Spelling;

/// What is printed on standard error where memory is refused.
const REFUSED: &[u8] = b"bacsite: refused 1 Memory\n";

/// What is printed on standard error of what is no capture.
const NO_CAPTURE: &[u8] = b"bacsite: capture\n";

/// Runs a row.
pub(crate) fn run(
    given: Given<'_>,
    spelling: Spelling,
    rows: &[Row<'_>],
    words: &str,
    wanted: &str,
) -> Result<Counts, Stop> {
    let file = octets_of(given.alloc, rows, words)?;
    let counts = try_row(
        given,
        &Explaining { spelling, wanted },
        file.as_slice(),
        wanted,
    )?;
    let changed = change_octets(given, &Changed { spelling }, file.as_slice())?;
    Ok(Counts { changed, ..counts })
}

/// What is printed of a file in memory that may be refused.
fn said(given: Given<'_>, spelling: Spelling, file: &[u8]) -> Said {
    let mut out = Vec::new(given.alloc);
    let mut err = Vec::new(given.alloc);
    let status = explain_capture(given.memory, spelling, file, &mut out, &mut err);
    Said { status, out, err }
}

/// A file as it stands, and what is wanted of it.
#[derive(Clone, Copy)]
struct Explaining<'t> {
    spelling: Spelling,
    wanted: &'t str,
}

impl<'a> Trial<'a> for Explaining<'_> {
    fn answer(&self, given: Given<'a>, octets: &[u8]) -> Result<String, Stop> {
        let said = said(given, self.spelling, octets);
        if said.err.as_slice() == REFUSED {
            return Err(self.refused(given.alloc, said)?);
        }
        said.in_words(given.alloc)
    }
}

impl Explaining<'_> {
    /// Why it stopped that was refused memory: want of memory where the status is 1, and the beginning of what is
    /// wanted was printed before.
    fn refused(&self, alloc: Global, said: Said) -> Result<Stop, Stop> {
        let Said { status, out, .. } = said;
        let before = Said {
            status: 0,
            out,
            err: Vec::new(alloc),
        };
        let words = before.in_words(alloc)?;
        if status == 1 && self.wanted.starts_with(words.as_str()) {
            return Ok(Stop::Memory);
        }
        Ok(differs(alloc, "another status or a text where memory was refused"))
    }
}

/// A file that is cut or changed.
#[derive(Clone, Copy)]
struct Changed {
    spelling: Spelling,
}

impl<'a> Trial<'a> for Changed {
    fn answer(&self, given: Given<'a>, octets: &[u8]) -> Result<String, Stop> {
        let said = said(given, self.spelling, octets);
        let is_capture = said.status == 0 && said.err.is_empty();
        let is_none = said.status == 1 && said.out.is_empty() && said.err.as_slice() == NO_CAPTURE;
        if !is_capture && !is_none {
            return Err(differs(given.alloc, "a status that does not go with the text"));
        }
        Ok(String::new(given.alloc))
    }
}
