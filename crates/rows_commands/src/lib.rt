//! Rows on what the command line offers beside runs: completions for shells, the man page, the examples of each
//! command, and a site with a script to begin with. The program `rows` runs them.
//!
//! - `pages`: completions and the man page, line by line.
//! - `examples`: what each example asks for.
//! - `beginnings`: the site and the script to begin with, and what is told of them.
//! - `lines`: lines of a text in words.
#![tactic(auto)]

mod beginnings;
mod examples;
mod lines;
mod pages;

use sheets::{Bench, Counts, Given, Part, Report, Row, Stop, two_words};
use std::alloc::AllocError;

/// What these rows run on.
pub struct Commands;

impl Bench for Commands {
    fn run(
        given: Given<'_>,
        _name: &str,
        rows: &[Row<'_>],
        report: &mut Report<'_>,
    ) -> Result<(), AllocError> {
        for row in rows {
            report.add(row, run_row(given, row))?;
        }
        Ok(())
    }
}

/// Runs a row.
fn run_row(given: Given<'_>, row: &Row<'_>) -> Result<Counts, Stop> {
    let wanted = row.wanted()?;
    let (word, words) = two_words(row.asked);
    match word {
        "shell" => pages::run_shell(given, words, wanted),
        "bash" | "zsh" | "fish" | "man" => pages::run(given, word, words, wanted),
        "examples" => examples::run(given, words, wanted),
        "devices" => beginnings::run_devices(given, words, wanted),
        "site" => beginnings::run_site(given, words, wanted),
        "script" => beginnings::run_script(given, words, wanted),
        "check" => beginnings::run_check(given, words, wanted),
        "large" => beginnings::run_large(given, words, wanted),
        _ => Err(Stop::Unread(Part::Asked)),
    }
}
