//! Sites that open: `open four -> opened`, with each allocation refused in turn, and so the copies of a
//! site and of its table.

use crate::sites::Described;
use crate::tables::{Opened, replied};
use objects::{SiteObjects, Table};
use sheets::{Counts, Given, Part, Stop, Trial, refusal, try_row};
use std::alloc::{Allocator, Global};

/// A site that opens, or not.
#[derive(Clone, Copy)]
struct Opening<'r>(Described<'r>);

impl<'r, 'a> Trial<'a> for Opening<'r> {
    fn answer(&self, given: Given<'a>, _octets: &[u8]) -> Result<String, Stop> {
        try_opening(given.alloc, given.memory, self.0.site(given.other)?)
    }
}

/// What comes of opening a site.
fn try_opening<A: Allocator + Copy>(
    alloc: Global,
    memory: A,
    site: SiteObjects<A>,
) -> Result<String, Stop> {
    match Table::new(memory, site) {
        Ok(_) => Ok(String::from_str(alloc, "opened")?),
        Err(fault) => refusal(alloc, fault),
    }
}

/// A site that is copied. It lies in memory of its own, which is refused during the copy.
#[derive(Clone, Copy)]
struct CopiedSite<'r>(Described<'r>);

impl<'r, 'a> Trial<'a> for CopiedSite<'r> {
    fn answer(&self, given: Given<'a>, _octets: &[u8]) -> Result<String, Stop> {
        let is_equal = is_site_copied(given, given.other, given.memory, self.0)?;
        equality(given.alloc, is_equal)
    }
}

/// Whether a copy is equal, in words.
fn equality(alloc: Global, is_equal: bool) -> Result<String, Stop> {
    let found = if is_equal { "equal" } else { "not equal" };
    Ok(String::from_str(alloc, found)?)
}

/// Whether the copy of a site is equal.
fn is_site_copied<A: Allocator + Copy>(
    given: Given<'_>,
    from: A,
    to: A,
    described: Described<'_>,
) -> Result<bool, Stop> {
    let site = described.site(from)?;
    given.other.refuse_all();
    let copy = site.copy(to);
    given.other.refuse_only(0);
    Ok(copy? == site)
}

/// A table that is copied.
#[derive(Drop)]
struct CopiedTable<'t, A: Allocator + Copy> {
    opened: &'t Opened<A>,
    other: A,
}

impl<'t, 'a, A: Allocator + Copy> Trial<'a> for CopiedTable<'t, A> {
    fn answer(&self, given: Given<'a>, _octets: &[u8]) -> Result<String, Stop> {
        let is_equal = is_table_copied(given.alloc, self.other, self.opened)?;
        equality(given.alloc, is_equal)
    }
}

/// Whether the copy of a table replies the same where all of it is read.
fn is_table_copied<A: Allocator + Copy>(
    alloc: Global,
    other: A,
    opened: &Opened<A>,
) -> Result<bool, Stop> {
    let copy = opened.table.copy()?;
    let wanted = replied(alloc, other, &opened.table, opened.everything.as_str())?;
    Ok(replied(alloc, other, &copy, opened.everything.as_str())? == wanted)
}

/// Opens a site as its row says, and copies it.
pub(crate) fn try_site(
    given: Given<'_>,
    described: Described<'_>,
    wanted: &str,
) -> Result<Counts, Stop> {
    let opening = try_row(given, &Opening(described), &[], wanted)?;
    let copies = try_row(given, &CopiedSite(described), &[], "equal")?;
    Ok(with_refused(opening, copies.refused))
}

/// Copies a table, and adds to the counts what was refused.
pub(crate) fn try_copies<A: Allocator + Copy>(
    given: Given<'_>,
    other: A,
    opened: &Opened<A>,
    counts: Counts,
) -> Result<Counts, Stop> {
    let copies = try_row(given, &CopiedTable { opened, other }, &[], "equal")?;
    Ok(with_refused(counts, copies.refused))
}

/// The counts of a row, and allocations that were refused besides.
pub(crate) fn with_refused(counts: Counts, refused: u64) -> Counts {
    Counts {
        refused: counts.refused.saturating_add(refused),
        ..counts
    }
}

/// The table of a site, which lies in the first memory, and the request that reads all of it. The site lies in the
/// second.
pub(crate) fn open_table<A: Allocator + Copy>(
    alloc: Global,
    (memory, other): (A, A),
    described: Described<'_>,
) -> Result<Opened<A>, Stop> {
    let site = described.site(other)?;
    let instance = site.instance;
    let table = Table::new(memory, site)?;
    let everything = everything(alloc, other, &table, instance)?;
    Ok(Opened { table, everything })
}

/// The request that reads all properties of all objects of a device, in words.
fn everything<A: Allocator + Copy>(
    alloc: Global,
    other: A,
    table: &Table<A>,
    instance: u32,
) -> Result<String, Stop> {
    let asked = format!(in alloc; "read 8:{instance} 76")?;
    let list = replied(alloc, other, table, asked.as_str())?;
    match list.strip_prefix("values ") {
        Some(list) => many_in(alloc, list),
        None => Err(Stop::Unread(Part::Wanted)),
    }
}

/// The request for all properties of the objects in this list.
fn many_in(alloc: Global, list: &str) -> Result<String, Stop> {
    let mut words = String::from_str(alloc, "many")?;
    for value in list.split(", ") {
        push_object(value, &mut words)?;
    }
    Ok(words)
}

/// Appends an object, all properties of which are asked for.
fn push_object(value: &str, words: &mut String) -> Result<(), Stop> {
    match value.strip_prefix("object ") {
        Some(object) => Ok(write!(words, " {object} 8")?),
        None => Err(Stop::Unread(Part::Wanted)),
    }
}
