//! Sites: `site NAME`, and behind it `network NUMBER ip` or `mstp`, `manager NAME PLACE`, `router NAME PLACE PLACE ..`,
//! `device NAME PLACE INSTANCE OBJECT ..`, `client NAME PLACE` and `whole NAME PLACE`, a client that takes no segments.

use crate::devices::device;
use crate::places::{link, place, text};
use profile::LinkKind;
use sheets::{Part, Row, Stop, two_words};
use site_parts::{Network, Parts, Role, Station};
use std::alloc::Allocator;
use tags::Items;
use words::parse_number;

/// A site in words: the rows of its file, and `NAME` or `NAME with PART`, a part that stands behind those of its kind,
/// or `NAME then PART`, one that stands at the end.
#[derive(Clone, Copy)]
pub(crate) struct Described<'r> {
    pub(crate) rows: &'r [Row<'r>],
    pub(crate) words: &'r str,
}

impl<'r> Described<'r> {
    /// The parts of the site, in memory of an allocator.
    ///
    /// # Errors
    /// `Unread` where no row describes it, and `Memory`.
    pub(crate) fn parts<A: Allocator + Copy>(self, memory: A) -> Result<Parts<A>, Stop> {
        let (name, change) = two_words(self.words);
        let (how, part) = two_words(change);
        let mut parts = Parts {
            networks: Items::new(memory),
            stations: Items::new(memory),
        };
        add_rows(memory, &mut parts, self.rows, (name, how, part))?;
        if parts.networks.is_empty() && parts.stations.is_empty() && name != "empty" {
            return Err(Stop::Unread(Part::Asked));
        }
        Ok(parts)
    }
}

/// Adds what the rows of this name say, and a part behind those of its kind or at the end.
fn add_rows<A: Allocator + Copy>(
    memory: A,
    parts: &mut Parts<A>,
    rows: &[Row<'_>],
    (name, how, part): (&str, &str, &str),
) -> Result<(), Stop> {
    let mut is_named = false;
    let mut is_added = how.is_empty();
    for row in rows {
        if let Some(site_name) = row.asked.strip_prefix("site ") {
            is_named = site_name == name;
        } else if is_named && row.wanted.is_none() {
            if !is_added && how == "with" && rank(part) < rank(row.asked) {
                add(memory, parts, part)?;
                is_added = true;
            }
            add(memory, parts, row.asked)?;
        }
    }
    if !is_added {
        add(memory, parts, part)?;
    }
    Ok(())
}

/// Which parts stand before which.
fn rank(words: &str) -> u8 {
    let (word, _) = two_words(words);
    match word {
        "network" => 0,
        "manager" => 1,
        "router" => 2,
        "device" => 3,
        _ => 4,
    }
}

/// Adds a part.
fn add<A: Allocator + Copy>(memory: A, parts: &mut Parts<A>, words: &str) -> Result<(), Stop> {
    let (word, rest) = two_words(words);
    if word == "network" {
        parts.networks.push(network(rest)?)?;
        return Ok(());
    }
    let (name, rest) = two_words(rest);
    let role = role(memory, word, name, rest)?;
    let name = text(memory, name)?;
    parts.stations.push(Station { name, role })?;
    Ok(())
}

/// A network.
fn network(words: &str) -> Result<Network, Stop> {
    let (number, kind) = two_words(words);
    let number = parse_number(number)?;
    match kind {
        "ip" => Ok(Network {
            number,
            link_kind: LinkKind::BacnetIp,
        }),
        "mstp" => Ok(Network {
            number,
            link_kind: LinkKind::MsTp,
        }),
        _ => Err(Stop::Unread(Part::Asked)),
    }
}

/// What a station is.
fn role<A: Allocator + Copy>(
    memory: A,
    word: &str,
    name: &str,
    words: &str,
) -> Result<Role<A>, Stop> {
    match word {
        "manager" => Ok(Role::Manager(link(words)?)),
        "router" => router(memory, words),
        "device" => device(memory, name, words),
        "client" => client(memory, words, true),
        "whole" => client(memory, words, false),
        _ => Err(Stop::Unread(Part::Asked)),
    }
}

/// A client.
fn client<A: Allocator + Copy>(memory: A, words: &str, segmented: bool) -> Result<Role<A>, Stop> {
    let place = place(memory, words)?;
    Ok(Role::Client { place, segmented })
}

/// A router.
fn router<A: Allocator + Copy>(memory: A, words: &str) -> Result<Role<A>, Stop> {
    let mut ports = Items::new(memory);
    for word in words.split(' ') {
        ports.push(link(word)?)?;
    }
    Ok(Role::Router(ports))
}
