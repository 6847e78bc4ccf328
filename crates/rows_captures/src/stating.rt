//! Rows of the conformance statement: `text LABEL -> VALUE` and `markdown LABEL -> VALUE`, what stands behind a label,
//! and `text lines -> N`, how many lines there are. A label that isn't there once gives `no row` or `several rows`.
//!
//! Each row runs again with each allocation refused in turn.

use pics::{Form, write_statement};
use sheets::{Counts, Given, Stop, Trial, differs, try_row};
use std::alloc::Global;
use std::io;

/// Runs a row.
pub(crate) fn run(given: Given<'_>, form: Form, label: &str, wanted: &str) -> Result<Counts, Stop> {
    try_row(given, &Stating { form, label }, &[], wanted)
}

/// What stands behind a label.
#[derive(Clone, Copy)]
struct Stating<'l> {
    form: Form,
    label: &'l str,
}

impl<'a> Trial<'a> for Stating<'_> {
    fn answer(&self, given: Given<'a>, _octets: &[u8]) -> Result<String, Stop> {
        let mut page = Vec::new(given.alloc);
        if let Err(error) = write_statement(given.memory, self.form, &mut page) {
            if error.kind() == io::ErrorKind::OutOfMemory {
                return Err(Stop::Memory);
            }
            return Err(differs(given.alloc, "a failed write"));
        }
        let Ok(page) = std::str::from_utf8(page.as_slice()) else {
            return Err(differs(given.alloc, "what is no text"));
        };
        if self.label == "lines" {
            return Ok(format!(in given.alloc; "{}", page.lines().count())?);
        }
        self.behind(given.alloc, page)
    }
}

impl Stating<'_> {
    /// What stands behind the label on a page.
    fn behind(&self, alloc: Global, page: &str) -> Result<String, Stop> {
        let mut found = "no row";
        for line in page.lines() {
            if let Some(value) = value_in(self.form, self.label, line) {
                found = if found == "no row" {
                    value
                } else {
                    "several rows"
                };
            }
        }
        Ok(String::from_str(alloc, found)?)
    }
}

/// The value of a line that has this label.
fn value_in<'l>(form: Form, label: &str, line: &'l str) -> Option<&'l str> {
    match form {
        Form::Text => line
            .strip_prefix("  ")?
            .strip_prefix(label)?
            .strip_prefix(": "),
        Form::Markdown => line
            .strip_prefix("| ")?
            .strip_prefix(label)?
            .strip_prefix(" | ")?
            .strip_suffix(" |"),
    }
}
