//! Commands and what they leave in force: `put 16 unsigned 20 -> none`, `current -> unsigned 20`.

ghost use Rattle.std.specs.Prelude.{◌≤◌, IfOk};

use priority::Slots;
use sheets::{Counts, Part, Report, Row, Stop, run_text, two_words};
use std::alloc::{AllocError, Global};
use words::parse_number;

/// The slots, each of which holds a value in words of the rows.
type Commanded<'t> = Slots<&'t str>;

/// Runs the rows of a file on sixteen slots, which are empty at its beginning and behind `new`.
pub(crate) fn run<'t>(
    alloc: Global,
    rows: &[Row<'t>],
    report: &mut Report<'_>,
) -> Result<(), AllocError> {
    let mut slots = Slots::new();
    for row in rows {
        report.add(row, run_row(alloc, &mut slots, row))?;
    }
    Ok(())
}

/// Runs a row on the slots.
fn run_row<'t>(alloc: Global, slots: &mut Commanded<'t>, row: &Row<'t>) -> Result<Counts, Stop> {
    match row.wanted {
        Some(wanted) => run_text(answer(alloc, slots, row.asked)?, wanted),
        None if row.asked == "new" => {
            *slots = Slots::new();
            Ok(Counts::none())
        }
        None => Err(Stop::Unread(Part::Asked)),
    }
}

/// What a row answers.
fn answer<'t>(alloc: Global, slots: &mut Commanded<'t>, asked: &'t str) -> Result<String, Stop> {
    let (verb, rest) = two_words(asked);
    match verb {
        "put" => put(alloc, slots, rest),
        "relinquish" => shown(alloc, slots.put(level(rest)?, None)),
        "at" => shown(alloc, slots.at(level(rest)?).copied()),
        "current" => shown(alloc, slots.current().copied()),
        "levels" => Ok(levels(alloc, slots)?),
        _ => Err(Stop::Unread(Part::Asked)),
    }
}

/// What a level held before it is commanded.
fn put<'t>(alloc: Global, slots: &mut Commanded<'t>, words: &'t str) -> Result<String, Stop> {
    let (word, value) = two_words(words);
    shown(alloc, slots.put(level(word)?, Some(value)))
}

/// A level, 1 to 16.
fn level(word: &str) -> Result<u8, Stop>
    ensures { IfOk result (λ level. (1 ≤ level) × (level ≤ 16)) }
{
    let level = parse_number(word)?;
    if level < 1 || 16 < level {
        return Err(Stop::Unread(Part::Number));
    }
    Ok(level)
}

/// What a slot holds.
fn shown(alloc: Global, held: Option<&str>) -> Result<String, Stop> {
    Ok(String::from_str(alloc, held.unwrap_or("none"))?)
}

/// The filled slots, each with its level.
fn levels(alloc: Global, slots: &Commanded<'_>) -> Result<String, AllocError> {
    let mut out = String::new(alloc);
    for level in 1..=16u8 {
        if let Some(value) = slots.at(level) {
            let before = if out.is_empty() { "" } else { ", " };
            write!(out, "{before}{level} {value}")?;
        }
    }
    if out.is_empty() {
        out.push_str("none")?;
    }
    Ok(out)
}
