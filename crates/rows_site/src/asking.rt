//! What a site is asked: `members row19 1/1 -> 47808 47810`, `managers row19 1`, `macs Q 2`, `addresses Q`,
//! `foreigns row19`, `named P d -> d`, `at P 1/1/47811 -> d`, with each allocation refused in turn.

use crate::described::Described;
use crate::places::{cut, link};
use bvll::Address;
use sheets::{Counts, Given, Part, Row, Stop, Trial, octets_in_words, try_row, two_words};
use site::SubnetId;
use site_parts::{Parts, Station};
use site_views::{
    addresses, at_address, foreign_stations, macs, managers, members, named, opening_objects,
};
use std::alloc::{Allocator, Global};
use words::parse_number;

/// A site that is asked, and for what.
#[derive(Drop)]
struct Asked<'p, A: Allocator + Copy> {
    parts: &'p Parts<A>,
    memory: A,
    question: &'p str,
    words: &'p str,
}

impl<'p, 'a, A: Allocator + Copy> Trial<'a> for Asked<'p, A> {
    fn answer(&self, given: Given<'a>, _octets: &[u8]) -> Result<String, Stop> {
        let stations = self.parts.stations.as_slice();
        match self.question {
            "members" | "managers" => {
                asked_addresses(
                    given.alloc,
                    self.memory,
                    stations,
                    self.question,
                    self.words,
                )
            }
            "macs" => asked_macs(given.alloc, self.memory, stations, self.words),
            "addresses" => asked_stations(given.alloc, self.memory, stations),
            "foreigns" => asked_foreigns(given.alloc, self.memory, stations),
            "objects" => asked_objects(given.alloc, self.memory, stations, self.words),
            "named" => in_words(given.alloc, named(self.words.as_bytes(), stations)),
            "at" => asked_at(given.alloc, stations, self.words),
            _ => Err(Stop::Unread(Part::Asked)),
        }
    }
}

/// Runs a row.
pub(crate) fn run(
    given: Given<'_>,
    rows: &[Row<'_>],
    asked: &str,
    wanted: &str,
) -> Result<Counts, Stop> {
    run_within(given, (given.memory, given.other), rows, asked, wanted)
}

/// Runs a row on a site that lies in the second memory.
fn run_within<A: Allocator + Copy>(
    given: Given<'_>,
    (memory, other): (A, A),
    rows: &[Row<'_>],
    asked: &str,
    wanted: &str,
) -> Result<Counts, Stop> {
    let (question, rest) = two_words(asked);
    let (name, words) = two_words(rest);
    let parts = Described { rows, words: name }.parts(other)?;
    let asked = Asked {
        parts: &parts,
        memory,
        question,
        words,
    };
    try_row(given, &asked, &[], wanted)
}

/// Adds a word behind others.
fn push_word(out: &mut String, word: &str) -> Result<(), Stop> {
    if !out.as_str().is_empty() {
        out.push(' ')?;
    }
    out.push_str(word)?;
    Ok(())
}

fn push_ports(alloc: Global, all: &[Address]) -> Result<String, Stop> {
    let mut out = String::new(alloc);
    for address in all {
        let word = format!(in alloc; "{}", address.port)?;
        push_word(&mut out, word.as_str())?;
    }
    Ok(out)
}

fn asked_addresses<A: Allocator + Copy>(
    alloc: Global,
    memory: A,
    stations: &[Station<A>],
    question: &str,
    words: &str,
) -> Result<String, Stop> {
    if question == "managers" {
        let all = managers(memory, parse_number(words)?, stations)?;
        return push_ports(alloc, all.as_slice());
    }
    let (network, number) = cut(words, '/');
    let network = parse_number(network)?;
    let number = parse_number(number)?;
    let all = members(memory, SubnetId { network, number }, stations)?;
    push_ports(alloc, all.as_slice())
}

fn asked_macs<A: Allocator + Copy>(
    alloc: Global,
    memory: A,
    stations: &[Station<A>],
    words: &str,
) -> Result<String, Stop> {
    let all = macs(memory, parse_number(words)?, stations)?;
    let mut out = String::new(alloc);
    for mac in all.as_slice() {
        let word = format!(in alloc; "{mac}")?;
        push_word(&mut out, word.as_str())?;
    }
    Ok(out)
}

fn asked_stations<A: Allocator + Copy>(
    alloc: Global,
    memory: A,
    stations: &[Station<A>],
) -> Result<String, Stop> {
    let all = addresses(memory, stations)?;
    let mut out = String::new(alloc);
    for station in all.as_slice() {
        let mac = octets_in_words(alloc, station.mac.as_octets())?;
        let word = format!(in alloc; "{}:{}", station.net, mac.as_str())?;
        push_word(&mut out, word.as_str())?;
    }
    Ok(out)
}

fn asked_foreigns<A: Allocator + Copy>(
    alloc: Global,
    memory: A,
    stations: &[Station<A>],
) -> Result<String, Stop> {
    let all = foreign_stations(memory, stations)?;
    let mut out = String::new(alloc);
    for foreign in all.as_slice() {
        let word = format!(in alloc;
            "{}/{}/{}",
            foreign.address.port, foreign.manager.port, foreign.seconds_to_live
        )?;
        push_word(&mut out, word.as_str())?;
    }
    Ok(out)
}

/// How many objects a station opens with beside its Device object.
fn asked_objects<A: Allocator + Copy>(
    alloc: Global,
    memory: A,
    stations: &[Station<A>],
    words: &str,
) -> Result<String, Stop> {
    let Some(station) = named(words.as_bytes(), stations) else {
        return Err(Stop::Unread(Part::Asked));
    };
    match opening_objects(memory, station)? {
        Some(objects) => Ok(format!(in alloc; "{} {}", objects.instance, objects.objects.len())?),
        None => Ok(String::from_str(alloc, "none")?),
    }
}

fn asked_at<A: Allocator + Copy>(
    alloc: Global,
    stations: &[Station<A>],
    words: &str,
) -> Result<String, Stop> {
    let at = link(words)?.station();
    in_words(alloc, at_address(at, stations))
}

/// The name of a station.
fn in_words<A: Allocator>(alloc: Global, station: Option<&Station<A>>) -> Result<String, Stop> {
    match station {
        Some(station) => match std::str::from_utf8(station.name.as_slice()) {
            Ok(name) => Ok(String::from_str(alloc, name)?),
            Err(_) => Err(Stop::Unread(Part::Asked)),
        },
        None => Ok(String::from_str(alloc, "nobody")?),
    }
}
