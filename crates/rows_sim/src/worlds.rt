//! Worlds of a site: how they open, and whether two of them are told apart.

use history::{End, Entry};
use sheets::{Stop, request_in};
use simulator::{Event, World, WorldEntry};
use site_text::site_of;
use std::alloc::{AllocError, Allocator, Global};
use words::Words;

/// The world of a site's text as it opens, in this memory.
///
/// # Errors
/// `Unread` for a text that is no site; want of memory.
pub(crate) fn opened<A: Allocator + Copy>(
    reading: Global,
    memory: A,
    site: &[u8],
) -> Result<World<A>, Stop> {
    let site = site_of(reading, memory, site)?;
    let world = World::new(memory, site)?;
    Ok(world)
}

/// Appends an entry of a history in words.
fn push_entry<A: Allocator>(entry: &WorldEntry<A>, out: &mut String) -> Result<(), AllocError> {
    match entry {
        Entry::Issue {
            number,
            client,
            instance,
            request,
            moment,
        } => write!(
            out,
            "{moment} issue {number} {client:?} {instance} {}",
            Words(request)
        ),
        Entry::Executed {
            number,
            reply,
            moment,
        } => write!(out, "{moment} executed {number} {}", Words(reply)),
        Entry::Answered {
            number,
            reply,
            moment,
        } => write!(out, "{moment} answered {number} {}", Words(reply)),
        Entry::Ended {
            number,
            why,
            moment,
        } => {
            write!(out, "{moment} ended {number} ")?;
            push_end(why, out)
        }
        Entry::Restarted { instance, moment } => write!(out, "{moment} restarted {instance}"),
    }
}

/// Appends why a request ended.
fn push_end(why: &End, out: &mut String) -> Result<(), AllocError> {
    match why {
        End::TimedOut => out.push_str("timed out"),
        End::Aborted { reason } => write!(out, "aborted {reason}"),
        End::Rejected { reason } => write!(out, "rejected {reason}"),
    }
}

/// What happened in a world behind so many entries, in words.
///
/// # Errors
/// Want of memory.
pub(crate) fn history_from<A: Allocator + Copy>(
    alloc: Global,
    world: &World<A>,
    count: usize,
) -> Result<String, AllocError> {
    let mut out = String::new(alloc);
    for entry in world.history().get(count..).unwrap_or(&[]) {
        push_entry(entry, &mut out)?;
        out.push('\n')?;
    }
    Ok(out)
}

/// Whether two worlds are at one moment, with the same items, the same that was said, and as many entries.
pub(crate) fn is_same_run<A: Allocator + Copy>(a: &World<A>, b: &World<A>) -> bool {
    a.moment() == b.moment()
        && a.items() == b.items()
        && a.said() == b.said()
        && a.history().len() == b.history().len()
}

/// All properties of all objects of the sites' devices, and of some that one or the other has not (15.7).
const ALL: &str =
    "many 8:10 8 8:20 8 5:1 8 45:1 8 40:1 8 40:2 8 40:3 8 40:4 8 40:5 8 40:6 8 40:7 8 40:8 8 40:9 8 40:10 8 \
    40:11 8 40:12 8 40:13 8 40:14 8";

/// What the devices of a world read like, in words.
///
/// # Errors
/// Want of memory.
pub(crate) fn tables<A: Allocator + Copy>(
    alloc: Global,
    memory: A,
    world: &World<A>,
) -> Result<String, Stop> {
    let all = request_in(memory, ALL)?;
    let mut out = String::new(alloc);
    for station in world.site().stations() {
        if let Some(table) = world.table(station.name.as_slice()) {
            let reply = table.reply(&all)?;
            writeln!(out, "{}", Words(&reply))?;
        }
    }
    Ok(out)
}
