//! Rows on searches for the shortest continuation of a script (ANSI/ASHRAE 135, clauses 5.4, 6, 9, 12 and J), each at
//! the site of a file of the folder `search`. The program `rows_sim` runs them.
//!
//! - `asked`: what a row asks for.
//! - `searches`: what comes of a search, also where an allocation is refused.
//! - `checks`: what a script prints that was found.
#![tactic(auto)]

mod asked;
mod checks;
mod searches;

use crate::asked::asked_of;
use sheets::{Counts, Report, Row, Stop, differs, rows};
use std::{fs, io};

/// The file of the rows.
const FILE: &str = "search/searches.rows";

/// Runs a row at the site of its file.
fn run_row(rt: &HostRuntime, row: &Row<'_>) -> Result<Counts, Stop> {
    let alloc = rt.alloc();
    let asked = asked_of(alloc, row.asked)?;
    let file = format!(in alloc; "search/{}.toml", asked.site)?;
    match fs::read(rt, file.as_str()) {
        Ok(site) => searches::run(alloc, site.as_slice(), &asked, row.wanted()?),
        Err(_) => Err(differs(alloc, "no file of that site")),
    }
}

/// Runs each row of the file, and prints a line for each that differs and one with the counts.
///
/// # Errors
/// Those of reading and of printing, and want of memory.
pub fn run_file(rt: &HostRuntime) -> io::Result<()> {
    let alloc = rt.alloc();
    let text = fs::read_to_string(rt, FILE)?;
    let mut report = Report::new(alloc, FILE);
    for row in rows(alloc, text.as_str())?.as_slice() {
        report.add(row, run_row(rt, row))?;
    }
    let said = report.text()?;
    rt.print(said.as_str())
}
