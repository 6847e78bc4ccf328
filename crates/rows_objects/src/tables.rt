//! Requests to the table of a site, and its replies: `write 45:1 85 signed 20 at 8 -> done`. They
//! run in their order on the table that opened last.

use crate::opening::{open_table, try_copies, try_site, with_refused};
use crate::sites::Described;
use crate::text::expanded;
use objects::Table;
use primitives::Reply;
use sheets::{
    Counts, Given, Part, Report, Row, Stop, Trial, compare, differs, request_in, try_row, two_words,
};
use std::alloc::{AllocError, Allocator, Global};
use words::Words;

/// How many runs have an allocation refused at most.
const MANY: u64 = 1000;

/// A table, and the request that reads all of it, in words.
#[derive(Drop)]
pub(crate) struct Opened<A: Allocator> {
    pub(crate) table: Table<A>,
    pub(crate) everything: String,
}

/// Runs the rows of a file.
pub(crate) fn run(
    given: Given<'_>,
    rows: &[Row<'_>],
    report: &mut Report<'_>,
) -> Result<(), AllocError> {
    run_within(given, (given.memory, given.other), rows, report)
}

/// Runs the rows of a file on tables that lie in the first memory, with requests in the second: those of `given`.
fn run_within<A: Allocator + Copy>(
    given: Given<'_>,
    memories: (A, A),
    rows: &[Row<'_>],
    report: &mut Report<'_>,
) -> Result<(), AllocError> {
    let mut opened = None;
    for row in rows {
        report.add(row, run_row(given, memories, rows, &mut opened, row))?;
    }
    Ok(())
}

/// Opens the table of a site, or runs a request on the table that opened last. Rows that describe a site
/// are read where it opens.
fn run_row<A: Allocator + Copy>(
    given: Given<'_>,
    memories: (A, A),
    rows: &[Row<'_>],
    opened: &mut Option<Opened<A>>,
    row: &Row<'_>,
) -> Result<Counts, Stop> {
    let Some(wanted) = row.wanted else {
        return Ok(Counts::none());
    };
    let asked = expanded(given.alloc, row.asked)?;
    match asked.strip_prefix("open ") {
        Some(words) => reopen(given, memories, opened, Described { rows, words }, wanted),
        None => run_asked(given, memories.1, opened, asked.as_str(), wanted),
    }
}

/// Opens the table of a site, where it opens, in place of the one that opened last.
fn reopen<A: Allocator + Copy>(
    given: Given<'_>,
    memories: (A, A),
    opened: &mut Option<Opened<A>>,
    described: Described<'_>,
    wanted: &str,
) -> Result<Counts, Stop> {
    *opened = None;
    let counts = try_site(given, described, wanted)?;
    if wanted != "opened" {
        return Ok(counts);
    }
    let table = open_table(given.alloc, memories, described)?;
    let counts = try_copies(given, memories.1, &table, counts)?;
    *opened = Some(table);
    Ok(counts)
}

/// Runs a request on the table that opened last.
fn run_asked<A: Allocator + Copy>(
    given: Given<'_>,
    other: A,
    opened: &mut Option<Opened<A>>,
    request: &str,
    wanted: &str,
) -> Result<Counts, Stop> {
    let wanted = expanded(given.alloc, wanted)?;
    match opened {
        Some(opened) => run_request(given, other, opened, request, wanted.as_str()),
        None => Err(Stop::Unread(Part::Asked)),
    }
}

/// A request, in words, and the table that replies to it.
#[derive(Drop)]
struct Asked<'t, A: Allocator + Copy> {
    table: &'t Table<A>,
    other: A,
    request: &'t str,
}

impl<'t, 'a, A: Allocator + Copy> Trial<'a> for Asked<'t, A> {
    fn answer(&self, given: Given<'a>, _octets: &[u8]) -> Result<String, Stop> {
        replied(given.alloc, self.other, self.table, self.request)
    }
}

/// A reply in words.
fn in_words<A: Allocator>(alloc: Global, reply: &Reply<A>) -> Result<String, Stop> {
    Ok(format!(in alloc; "{}", Words(reply))?)
}

/// What a table replies to a request, both in words. The request lies in other memory.
pub(crate) fn replied<A: Allocator + Copy>(
    alloc: Global,
    other: A,
    table: &Table<A>,
    request: &str,
) -> Result<String, Stop> {
    let request = request_in(other, request)?;
    in_words(alloc, &table.reply(&request)?)
}

/// What a table replies to a request that it does, in words. The memory that the request lies in is
/// refused meanwhile.
fn applied<A: Allocator + Copy>(
    given: Given<'_>,
    other: A,
    table: &mut Table<A>,
    request: &str,
) -> Result<String, Stop> {
    let request = request_in(other, request)?;
    given.other.refuse_all();
    let reply = table.apply(&request);
    given.other.refuse_only(0);
    in_words(given.alloc, &reply?)
}

/// A request and its reply, in words, and what reads all of the table.
#[derive(Clone, Copy)]
struct Done<'w> {
    request: &'w str,
    wanted: &'w str,
    everything: &'w str,
}

/// Does a request on a table.
///
/// # Errors
/// `Differs` where it is not the wanted reply that comes.
fn apply<A: Allocator + Copy>(
    given: Given<'_>,
    other: A,
    table: &mut Table<A>,
    done: Done<'_>,
) -> Result<(), Stop> {
    compare(applied(given, other, table, done.request)?, done.wanted)
}

/// Runs a request: its reply is foretold and given, each of their allocations is refused in turn,
/// and what only reads, or fails, changes nothing.
fn run_request<A: Allocator + Copy>(
    given: Given<'_>,
    other: A,
    opened: &mut Opened<A>,
    request: &str,
    wanted: &str,
) -> Result<Counts, Stop> {
    let Opened { table, everything } = opened;
    let done = Done {
        request,
        wanted,
        everything: everything.as_str(),
    };
    let before = replied(given.alloc, other, table, done.everything)?;
    let counts = foretell(given, other, table, done, before.as_str())?;
    change(given, other, table, done, before.as_str())?;
    Ok(counts)
}

/// A request's reply is foretold, and each allocation is refused in turn, the table's on copies of it.
fn foretell<A: Allocator + Copy>(
    given: Given<'_>,
    other: A,
    table: &Table<A>,
    done: Done<'_>,
    before: &str,
) -> Result<Counts, Stop> {
    let asked = Asked {
        table,
        other,
        request: done.request,
    };
    let counts = try_row(given, &asked, &[], done.wanted)?;
    let refused = refused_in_turn(given, other, table, done, before)?;
    Ok(with_refused(counts, refused))
}

/// A request is done, and leaves what it leaves of a copy; what only reads, or fails, changes nothing.
fn change<A: Allocator + Copy>(
    given: Given<'_>,
    other: A,
    table: &mut Table<A>,
    done: Done<'_>,
    before: &str,
) -> Result<(), Stop> {
    let alone = left_by_copy(given, other, table, done)?;
    if changes_nothing(done.request, done.wanted) && alone.as_str() != before {
        return Err(differs(given.alloc, "a change by a request that makes none"));
    }
    apply(given, other, table, done)?;
    reads(given.alloc, other, table, done.everything, alone.as_str())
}

/// All of a table reads so.
///
/// # Errors
/// `Differs` where it doesn't.
fn reads<A: Allocator + Copy>(
    alloc: Global,
    other: A,
    table: &Table<A>,
    everything: &str,
    wanted: &str,
) -> Result<(), Stop> {
    if replied(alloc, other, table, everything)?.as_str() == wanted {
        return Ok(());
    }
    Err(differs(alloc, "another change than that of the row"))
}

/// How many allocations of a request are refused in turn, each on a copy of the table.
fn refused_in_turn<A: Allocator + Copy>(
    given: Given<'_>,
    other: A,
    table: &Table<A>,
    done: Done<'_>,
    before: &str,
) -> Result<u64, Stop> {
    let mut n = 1u64;
    for refused in 0..MANY {
        let mut copy = table.copy()?;
        if !is_refused(given, other, &mut copy, done, (n, before))? {
            return Ok(refused);
        }
        // Behind the 32nd allocation not each one.
        n = n.saturating_add(1 + n / 32);
    }
    Err(differs(given.alloc, "a call that is refused memory again and again"))
}

/// Whether a request on a table is refused its `n`th allocation; what is read is then as it was
/// before, and the request made again gives its reply.
fn is_refused<A: Allocator + Copy>(
    given: Given<'_>,
    other: A,
    table: &mut Table<A>,
    done: Done<'_>,
    (n, before): (u64, &str),
) -> Result<bool, Stop> {
    if !meets_refusal(given, other, table, done.request, n)? {
        return Ok(false);
    }
    reads(given.alloc, other, table, done.everything, before)?;
    apply(given, other, table, done)?;
    Ok(true)
}

/// Whether a request is refused its `n`th allocation.
fn meets_refusal<A: Allocator + Copy>(
    given: Given<'_>,
    other: A,
    table: &mut Table<A>,
    request: &str,
    n: u64,
) -> Result<bool, Stop> {
    let request = request_in(other, request)?;
    given.memory.refuse_only(n);
    let is_refused = table.apply(&request).is_err();
    let is_waiting = given.memory.is_waiting();
    given.memory.refuse_only(0);
    if is_refused == is_waiting {
        return Err(differs(given.alloc, "want of memory for another cause"));
    }
    Ok(is_refused)
}

/// What a copy of a table reads behind a request, in words. The table stays as it was.
fn left_by_copy<A: Allocator + Copy>(
    given: Given<'_>,
    other: A,
    table: &Table<A>,
    done: Done<'_>,
) -> Result<String, Stop> {
    let mut table = table.copy()?;
    apply(given, other, &mut table, done)?;
    replied(given.alloc, other, &table, done.everything)
}

/// Whether a request with this reply leaves the table as it was: one that only reads, and one that
/// failed at its first write.
fn changes_nothing(request: &str, reply: &str) -> bool {
    let (verb, rest) = two_words(request);
    match verb {
        "read" | "many" => true,
        "write" => reply != "done",
        _ => reply != "done" && !rest.contains(';'),
    }
}
