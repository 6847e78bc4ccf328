//! Entries of a history in words, and the devices that they are of.

use history::{End, Entry};
use judge::{DeviceEnd, HistoryEntry};
use npdu::{Mac, Station};
use objects::Table;
use sheets::{Part, Stop, number, reply_in, request_in, small, two_words};
use std::alloc::Allocator;

/// What parts entries.
const MARK: &str = " | ";

/// The client of all entries.
const CLIENT: Station = Station {
    net: 1,
    mac: Mac::Six([127, 0, 0, 1, 0xBA, 0xC2]),
};

/// The moment of all entries: the judge doesn't look at it.
const MOMENT: u64 = 0;

/// The entries that words say. `left INSTANCE REQUEST` is none.
///
/// # Errors
/// `Unread` for other words; want of memory.
pub(crate) fn entries<A: Allocator + Copy>(
    alloc: A,
    words: &str,
) -> Result<Vec<HistoryEntry<A>, A>, Stop> {
    let mut all = Vec::new(alloc);
    for words in words.split(MARK) {
        if !words.starts_with("left ") {
            all.push(entry_in(alloc, words)?)?;
        }
    }
    Ok(all)
}

/// The entry that words say.
fn entry_in<A: Allocator + Copy>(alloc: A, words: &str) -> Result<HistoryEntry<A>, Stop> {
    let (word, rest) = two_words(words);
    match word {
        "issue" => issue_in(alloc, rest),
        "executed" => {
            let (issue, reply) = two_words(rest);
            Ok(Entry::Executed {
                number: u64::from(number(issue)?),
                reply: reply_in(alloc, reply)?,
                moment: MOMENT,
            })
        }
        "answered" => {
            let (issue, reply) = two_words(rest);
            Ok(Entry::Answered {
                number: u64::from(number(issue)?),
                reply: reply_in(alloc, reply)?,
                moment: MOMENT,
            })
        }
        "ended" => {
            let (issue, why) = two_words(rest);
            Ok(Entry::Ended {
                number: u64::from(number(issue)?),
                why: end_in(why)?,
                moment: MOMENT,
            })
        }
        "restarted" => Ok(Entry::Restarted {
            instance: number(rest)?,
            moment: MOMENT,
        }),
        _ => Err(Stop::Unread(Part::Asked)),
    }
}

/// The issue that words say: `NUMBER INSTANCE REQUEST`.
fn issue_in<A: Allocator + Copy>(alloc: A, words: &str) -> Result<HistoryEntry<A>, Stop> {
    let (issue, rest) = two_words(words);
    let (instance, request) = two_words(rest);
    Ok(Entry::Issue {
        number: u64::from(number(issue)?),
        client: CLIENT,
        instance: number(instance)?,
        request: request_in(alloc, request)?,
        moment: MOMENT,
    })
}

/// Why a request ended, as words say it.
fn end_in(words: &str) -> Result<End, Stop> {
    let (word, reason) = two_words(words);
    match word {
        "timedout" => Ok(End::TimedOut),
        "aborted" => Ok(End::Aborted {
            reason: small(reason)?,
        }),
        "rejected" => Ok(End::Rejected {
            reason: small(reason)?,
        }),
        _ => Err(Stop::Unread(Part::Asked)),
    }
}

/// The tables of devices at the end, each as it opens, but for the requests of these words that are left there.
///
/// # Errors
/// `Unread` for other words; want of memory.
pub(crate) fn tables<A: Allocator + Copy>(
    alloc: A,
    stations: &[site_parts::Station<A>],
    words: &str,
) -> Result<Vec<Table<A>, A>, Stop> {
    let mut tables = Vec::new(alloc);
    for station in stations {
        if let Some(opening) = station.role.objects() {
            let mut table = Table::new(alloc, opening.copy(alloc)?)?;
            leave(alloc, opening.instance, &mut table, words)?;
            tables.push(table)?;
        }
    }
    Ok(tables)
}

/// Writes to a device what words say is left there.
fn leave<A: Allocator + Copy>(
    alloc: A,
    device: u32,
    table: &mut Table<A>,
    words: &str,
) -> Result<(), Stop> {
    for words in words.split(MARK) {
        if let Some(rest) = words.strip_prefix("left ") {
            let (instance, request) = two_words(rest);
            if number(instance)? == device {
                let _ = table.apply(&request_in(alloc, request)?)?;
            }
        }
    }
    Ok(())
}

/// The devices of a site, each with its table at the end.
///
/// # Errors
/// Want of memory.
pub(crate) fn devices<'t, A: Allocator + Copy>(
    alloc: A,
    stations: &'t [site_parts::Station<A>],
    tables: &'t [Table<A>],
) -> Result<Vec<DeviceEnd<'t, A>, A>, Stop> {
    let mut devices = Vec::new(alloc);
    let mut left = tables;
    for station in stations {
        if let (Some(opening), [table, rest @ ..]) = (station.role.objects(), left) {
            devices.push(DeviceEnd { opening, table })?;
            left = rest;
        }
    }
    Ok(devices)
}
