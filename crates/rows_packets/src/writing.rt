//! What is written: `write 2 3; name 7F000001 c; datagram 7F000001BAC1 7F000001BAC0 810A00.. @5; frame 0 55FF.. @7 ~c
//! to d -> FILE`, the networks of the buses first (`-` for none), then the name of an address, a datagram with its ends
//! and its moment, or a frame on the bus at a place, either with a comment or without; and `back .. -> ..`, what is
//! read of that again, as rows of `reading` have it.
//!
//! Each row runs again with each allocation refused in turn: the buffer is then as it was.

use crate::pieces::octets_of;
use crate::reading::Reading;
use bvll::{ADDRESS_OCTETS, Address};
use captures::{Datagram, write_datagram, write_frame, write_name, write_start};
use sheets::{
    Counts, Given, Part, Row, Stop, Trial, differs, octets, octets_in_words, refusal, run_text,
    try_row, two_words,
};
use std::alloc::{Allocator, Global};
use tags::{Fault, Octets};
use words::{parse_number, parse_u16};

/// Runs a row, and compares octets with octets.
pub(crate) fn run(
    given: Given<'_>,
    rows: &[Row<'_>],
    steps: &str,
    wanted: &str,
) -> Result<Counts, Stop> {
    if wanted.starts_with("refused ") {
        return try_row(given, &Writing { steps }, &[], wanted);
    }
    let file = octets_of(given.alloc, rows, wanted)?;
    let wanted = octets_in_words(given.alloc, file.as_slice())?;
    try_row(given, &Writing { steps }, &[], wanted.as_str())
}

/// Runs a row whose file is read again.
pub(crate) fn run_back(
    given: Given<'_>,
    _rows: &[Row<'_>],
    steps: &str,
    wanted: &str,
) -> Result<Counts, Stop> {
    let mut file = Vec::new(given.alloc);
    write_all(given.alloc, steps, &mut file)?;
    let reading = Reading { wanted: None };
    run_text(reading.answer(given, file.as_slice())?, wanted)
}

/// What the steps of a row write.
#[derive(Clone, Copy)]
struct Writing<'s> {
    steps: &'s str,
}

impl<'a> Trial<'a> for Writing<'_> {
    fn answer(&self, given: Given<'a>, _octets: &[u8]) -> Result<String, Stop> {
        let mut file = Vec::new(given.memory);
        match write_all(given.alloc, self.steps, &mut file) {
            Ok(()) => Ok(octets_in_words(given.alloc, file.as_slice())?),
            Err(Refused::Fault(fault)) => refusal(given.alloc, fault),
            Err(Refused::Stop(stop)) => Err(stop),
        }
    }
}

/// Why steps end before their time.
#[derive(Drop)]
enum Refused {
    /// A call is refused.
    Fault(Fault),
    /// The row can't be read, or the buffer has changed.
    Stop(Stop),
}

impl From<Stop> for Refused {
    fn from(stop: Stop) -> Refused {
        Refused::Stop(stop)
    }
}

impl From<Refused> for Stop {
    fn from(refused: Refused) -> Stop {
        match refused {
            Refused::Fault(fault) => Stop::from(fault),
            Refused::Stop(stop) => stop,
        }
    }
}

/// Appends what the steps of a row write, the start of a file first.
fn write_all<B: Allocator>(
    alloc: Global,
    steps: &str,
    file: &mut Vec<u8, B>,
) -> Result<(), Refused> {
    let mut is_start = true;
    for step in steps.split("; ") {
        let before = copy_of(alloc, file.as_slice())?;
        let came = if is_start {
            start(alloc, step, file)?
        } else {
            write_one(alloc, step, file)?
        };
        is_start = false;
        if let Err(fault) = came {
            return Err(refused_by(alloc, fault, before.as_slice(), file.as_slice()));
        }
    }
    Ok(())
}

/// Octets in memory of their own.
fn copy_of(alloc: Global, octets: &[u8]) -> Result<Vec<u8>, Stop> {
    Ok(Vec::from_slice(alloc, octets)?)
}

/// Why a call stopped, where the buffer is as it was.
fn refused_by(alloc: Global, fault: Fault, before: &[u8], now: &[u8]) -> Refused {
    if before != now {
        return Refused::Stop(differs(alloc, "a change where a call was refused"));
    }
    Refused::Fault(fault)
}

/// Appends the start of a file with the buses of these networks.
fn start<B: Allocator>(
    alloc: Global,
    words: &str,
    file: &mut Vec<u8, B>,
) -> Result<Result<(), Fault>, Stop> {
    let mut buses = Vec::new(alloc);
    if words != "-" {
        for word in words.split(' ') {
            buses.push(parse_u16(word)?)?;
        }
    }
    Ok(write_start(buses.as_slice(), file))
}

/// Appends a datagram or a frame.
fn write_one<B: Allocator>(
    alloc: Global,
    step: &str,
    file: &mut Vec<u8, B>,
) -> Result<Result<(), Fault>, Stop> {
    if let Some(words) = step.strip_prefix("name ") {
        return write_host(alloc, words, file);
    }
    let Some((words, moment)) = step.split_once(" @") else {
        return Err(Stop::Unread(Part::Asked));
    };
    let (moment, comment) = moment.split_once(" ~").unwrap_or((moment, ""));
    let moment: u64 = parse_number(moment)?;
    let comment = comment.as_bytes();
    let (word, words) = two_words(words);
    let (first, words) = two_words(words);
    match word {
        "datagram" => {
            let (to, words) = two_words(words);
            let octets = octets(alloc, words)?;
            let datagram = Datagram {
                from: address(alloc, first)?,
                to: address(alloc, to)?,
                octets: octets.as_slice(),
            };
            Ok(write_datagram(&datagram, moment, comment, file))
        }
        "frame" => {
            let octets: Octets<Global> = octets(alloc, words)?;
            Ok(write_frame(parse_u16(first)?, octets.as_slice(), moment, comment, file))
        }
        _ => Err(Stop::Unread(Part::Asked)),
    }
}

/// Appends the name of an address, or one of so many letters, as `x*256`.
fn write_host<B: Allocator>(
    alloc: Global,
    words: &str,
    file: &mut Vec<u8, B>,
) -> Result<Result<(), Fault>, Stop> {
    let (ip, name) = two_words(words);
    let ip: Octets<Global> = octets(alloc, ip)?;
    let [a, b, c, d] = ip.as_slice() else {
        return Err(Stop::Unread(Part::Octets));
    };
    let address = [*a, *b, *c, *d];
    let Some((letter, count)) = name.split_once('*') else {
        return Ok(write_name(address, name.as_bytes(), file));
    };
    let count: u16 = parse_u16(count)?;
    let mut letters = Vec::new(alloc);
    for _ in 0..count {
        letters.extend_from_slice(letter.as_bytes())?;
    }
    Ok(write_name(address, letters.as_slice(), file))
}

/// The address of six octets.
fn address(alloc: Global, word: &str) -> Result<Address, Stop> {
    let octets: Octets<Global> = octets(alloc, word)?;
    if octets.len() < ADDRESS_OCTETS {
        return Err(Stop::Unread(Part::Octets));
    }
    Ok(Address::from_octets(octets.as_slice()))
}
