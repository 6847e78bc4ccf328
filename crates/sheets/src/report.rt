//! What is printed of a file.

use crate::row::Row;
use crate::stop::Stop;
use crate::trial::Counts;
use std::alloc::{AllocError, Global};

/// What is printed of a file: a line for each row that differs, and one with the counts.
#[derive(Drop)]
pub struct Report<'a> {
    name: &'a str,
    counts: Counts,
    text: String,
}

impl<'a> Report<'a> {
    /// The report of a file of this name, of which no row has run.
    pub fn new(alloc: Global, name: &'a str) -> Report<'a> {
        Report {
            name,
            counts: Counts::none(),
            text: String::new(alloc),
        }
    }

    /// Adds what came of a row.
    ///
    /// # Errors
    /// Want of memory.
    pub fn add(&mut self, row: &Row<'_>, came: Result<Counts, Stop>) -> Result<(), AllocError> {
        match came {
            Ok(counts) => {
                self.counts = self.counts.and(counts);
                Ok(())
            }
            Err(stop) => self.add_stop(row, &stop),
        }
    }

    /// Adds a row that does not hold.
    fn add_stop(&mut self, row: &Row<'_>, stop: &Stop) -> Result<(), AllocError> {
        write!(self.text, "{}:{}: {}", self.name, row.line, row.asked)?;
        if let Some(wanted) = row.wanted {
            write!(self.text, " -> {wanted}")?;
        }
        match stop {
            Stop::Memory => writeln!(self.text, ", want of memory"),
            Stop::Unread(what) => writeln!(self.text, ", {what}"),
            Stop::Differs(found) => writeln!(self.text, ", found {found}"),
        }
    }

    /// The text, with the counts at its end.
    ///
    /// # Errors
    /// Want of memory.
    pub fn text(self) -> Result<String, AllocError> {
        let Report {
            name,
            counts,
            mut text,
        } = self;
        let Counts {
            rows,
            refused,
            changed,
        } = counts;
        writeln!(
            text,
            "{name}: {rows} rows, {refused} refused allocations, {changed} changed octets and prefixes"
        )?;
        Ok(text)
    }
}
