//! The requests that the picture shows: when each was issued, what it asks for, and how it ended (5.4.4).

use crate::found::Found;
use history::Entry;
use ladder::Escaped;
use site_gathering::{EntryLine, Spelling, World, WorldEntry};
use std::alloc::{AllocError, Allocator};
use std::io;
use std::io::Write;

/// How many requests stand open above the picture: with more of them it would begin below the first screen.
const FEW: usize = 12;

/// Writes the requests as a table, which is folded where they are many. Each leads to its first row in the picture, and
/// has the name `q` with its number.
pub(crate) fn write_requests<A: Allocator + Copy, W: Write>(
    alloc: A,
    world: &World<A>,
    found: &Found<A>,
    out: &mut W,
) -> io::Result<()> {
    let ends = ends_of(alloc, world.history())?;
    let count = found.count_requests();
    let open = if count <= FEW { " open=\"\"" } else { "" };
    writeln!(out, "<h2>Requests</h2>")?;
    writeln!(
        out,
        "<details{open}><summary>{count} shown</summary>\n<table id=\"requests\">"
    )?;
    writeln!(
        out,
        "<tr><th>Request</th><th class=\"moment\">Time (ms)</th><th>Asked</th><th>Came to</th><th class=\"moment\">After (ms)</th></tr>"
    )?;
    let mut place = 0usize;
    for entry in world.history() {
        if let Entry::Issue { number, .. } = entry {
            if let Some(row) = found.request(*number) {
                let end = end_in(ends.as_slice(), *number);
                write_request(alloc, world, place, end, row, out)?;
            }
        }
        place = place.saturating_add(1);
    }
    writeln!(out, "</table>\n</details>")
}

/// The places in a history of the entries that close its requests, by their numbers.
fn ends_of<A: Allocator + Copy>(
    alloc: A,
    history: &[WorldEntry<A>],
) -> Result<Vec<Option<usize>, A>, AllocError> {
    let mut ends = Vec::new(alloc);
    let mut place = 0usize;
    for entry in history {
        match entry {
            Entry::Issue { .. } => ends.push(None)?,
            Entry::Answered { number, .. } | Entry::Ended { number, .. } => {
                let at = *number as usize;
                if at < ends.len() {
                    ends[at] = Some(place);
                }
            }
            Entry::Executed { .. } | Entry::Restarted { .. } => {}
        }
        place = place.saturating_add(1);
    }
    Ok(ends)
}

/// The place of the entry that closes a request, if it is closed.
fn end_in(ends: &[Option<usize>], number: u64) -> Option<usize> {
    match ends.get(number as usize) {
        Some(end) => *end,
        None => None,
    }
}

/// Writes the request that the entry at a place issues, with the entry that closes it.
fn write_request<A: Allocator + Copy, W: Write>(
    alloc: A,
    world: &World<A>,
    place: usize,
    end: Option<usize>,
    row: usize,
    out: &mut W,
) -> io::Result<()> {
    let Some(Entry::Issue { number, moment, .. }) = world.history().get(place) else {
        return Ok(());
    };
    let asked = words_of(alloc, world, place)?;
    let asked = Escaped::whole(behind_number(asked.as_str()));
    write!(
        out,
        "<tr id=\"q{number}\" class=\"all r{number}\"><td><a href=\"#a{row}\">{number}</a></td>\
         <td class=\"moment\">{moment}</td><td class=\"entry\">{asked}</td>"
    )?;
    write_end(alloc, world, *moment, end, out)
}

/// Writes what a request came to that was issued at a moment, and after how many milliseconds.
fn write_end<A: Allocator + Copy, W: Write>(
    alloc: A,
    world: &World<A>,
    issued: u64,
    end: Option<usize>,
    out: &mut W,
) -> io::Result<()> {
    let closing = match end {
        Some(place) => world.history().get(place),
        None => None,
    };
    let (Some(place), Some(Entry::Answered { moment, .. } | Entry::Ended { moment, .. })) = (
        end, closing,
    ) else {
        return writeln!(out, "<td class=\"entry\">open</td><td></td></tr>");
    };
    let words = words_of(alloc, world, place)?;
    let came_to = Escaped::whole(behind_number(words.as_str()));
    let after = moment.saturating_sub(issued);
    writeln!(
        out,
        "<td class=\"entry\">{came_to}</td><td class=\"moment\">{after}</td></tr>"
    )
}

/// The entry of the history at a place in words, with the standard's names.
fn words_of<A: Allocator + Copy>(
    alloc: A,
    world: &World<A>,
    place: usize,
) -> Result<String<A>, AllocError> {
    let Some(entry) = world.history().get(place) else {
        return Ok(String::new(alloc));
    };
    let shown = EntryLine {
        entry,
        history: world.history().get(..place).unwrap_or(&[]),
        stations: world.site().stations(),
        spelling: Spelling::Names,
    };
    format!(in alloc; "{shown}")
}

/// What stands behind the third word of a line: its time, what happens, and the number of its request.
fn behind_number(line: &str) -> &str {
    let mut left = line;
    for _ in 0..3u8 {
        match left.split_once(' ') {
            Some((_, rest)) => left = rest,
            None => return left,
        }
    }
    left
}
