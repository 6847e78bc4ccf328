//! Rows on a sorted map whose keys and values are numbers of an octet, and on moments by place (`moments`). The program
//! `rows` runs them.
//!
//! `put 5 50; put 3 30; get 5; list -> new; new; 50; 3=30 5=50`: each step is taken by one map, which is empty at
//! first.
//!
//! - `put KEY VALUE`: a value is put in. Told is the one that the key had, or `new`.
//! - `get KEY`: told is its value, or `none`.
//! - `take KEY VALUE`: the key is taken away where it has this value. Told is how many are left.
//! - `copy MORE`: the steps that follow are taken by a copy with room for so many more.
//! - `clear`, `list`: all are taken away; told are the entries in their order.
#![tactic(auto)]

mod moments;

use moments::Moments;
use sheets::{
    Bench, Counts, Given, Part, Report, Row, Stop, Trial, differs, number, push_mark, small,
    try_row, two_words,
};
use sorted_map::SortedMap;
use std::alloc::{AllocError, Allocator, Global};

/// What these rows run on.
pub struct MapRows;

impl Bench for MapRows {
    fn run(
        given: Given<'_>,
        name: &str,
        rows: &[Row<'_>],
        report: &mut Report<'_>,
    ) -> Result<(), AllocError> {
        for row in rows {
            report.add(row, run_row(given, given.memory, name, row))?;
        }
        Ok(())
    }
}

/// Runs a row of a file of this name.
fn run_row<A: Allocator + Copy>(
    given: Given<'_>,
    memory: A,
    name: &str,
    row: &Row<'_>,
) -> Result<Counts, Stop> {
    let wanted = row.wanted()?;
    let words = row.asked;
    match name {
        "sorted_map.txt" => try_row(given, &Steps { memory, words }, &[], wanted),
        "due_times.txt" => try_row(given, &Moments { memory, words }, &[], wanted),
        _ => Err(Stop::Unread(Part::Asked)),
    }
}

/// The steps of a row, and the memory of the map that takes them.
#[derive(Clone, Copy)]
struct Steps<'w, A> {
    memory: A,
    words: &'w str,
}

impl<'w, 'a, A: Allocator + Copy> Trial<'a> for Steps<'w, A> {
    fn answer(&self, given: Given<'a>, _octets: &[u8]) -> Result<String, Stop> {
        let mut map = SortedMap::new(self.memory);
        let mut out = String::new(given.alloc);
        for step in self.words.split("; ") {
            push_mark("; ", &mut out)?;
            take(&mut map, given.alloc, step, &mut out)?;
        }
        Ok(out)
    }
}

/// Takes a step, and appends what comes of it in words.
fn take<A: Allocator + Copy>(
    map: &mut SortedMap<u8, u8, A>,
    alloc: Global,
    step: &str,
    out: &mut String,
) -> Result<(), Stop> {
    let (verb, rest) = two_words(step);
    let (key, value) = two_words(rest);
    match verb {
        "put" => {
            let had = put(map, alloc, small(key)?, small(value)?)?;
            Ok(push_value(had, "new", out)?)
        }
        "get" => Ok(push_value(map.get(small(key)?), "none", out)?),
        "take" => {
            map.remove_pair(small(key)?, small(value)?);
            Ok(write!(out, "{} left", map.len())?)
        }
        "copy" => {
            *map = map.copy_with_room(number(key)? as usize)?;
            Ok(push_entries(map.as_slice(), out)?)
        }
        "clear" => {
            map.clear();
            Ok(push_entries(map.as_slice(), out)?)
        }
        "list" => Ok(push_entries(map.as_slice(), out)?),
        _ => Err(Stop::Unread(Part::Asked)),
    }
}

/// Puts a value in. The map is as it was where memory was refused.
fn put<A: Allocator + Copy>(
    map: &mut SortedMap<u8, u8, A>,
    alloc: Global,
    key: u8,
    value: u8,
) -> Result<Option<u8>, Stop> {
    let before = Vec::from_slice(alloc, map.as_slice())?;
    match map.insert(key, value) {
        Ok(had) => Ok(had),
        Err(AllocError) if before.as_slice() == map.as_slice() => Err(Stop::Memory),
        Err(AllocError) => Err(differs(alloc, "a change where memory was refused")),
    }
}

/// Appends a value, or this word where there is none.
fn push_value(value: Option<u8>, none: &str, out: &mut String) -> Result<(), AllocError> {
    match value {
        Some(value) => write!(out, "{value}"),
        None => out.push_str(none),
    }
}

/// Appends entries in words, or `none`.
fn push_entries(entries: &[(u8, u8)], out: &mut String) -> Result<(), AllocError> {
    let Some(((key, value), others)) = entries.split_first() else {
        return out.push_str("none");
    };
    write!(out, "{key}={value}")?;
    for (key, value) in others {
        write!(out, " {key}={value}")?;
    }
    Ok(())
}
