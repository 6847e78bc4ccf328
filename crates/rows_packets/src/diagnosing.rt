//! What a capture shows: `summary STEPS -> LINES`, and the same of `transactions` and `stations`, the tables, of
//! `found`, the findings as they come about, each without what it means, and of `told`, the findings with that. Steps
//! are packets of a capture: `FROM TO WORDS @MS`, a datagram with its ends, or `frame WORDS @MS`, a frame on the bus of
//! network 2, each in octets or names of pieces; `A & B @MS` are two at a moment, and `.. @MS x5+10` stands for five
//! steps, 10 ms apart. `raw WORDS` alone is a file in itself. Tables hold 16 entries, and 16 findings of a name are
//! kept; in rows of `summary few ..` two. Before the steps stands what is asked for, as on a command line:
//! `--json`, `--between A B`, `--instance N`, `--from MS`, `--to MS`.
//!
//! Each row runs with the file in reads of 16 octets, also with each allocation refused in turn; those of tables and of
//! the summary in reads of each size from 1, and those of transactions cut at each octet and with each octet changed,
//! where they come to an end.

use crate::asking::{Asking, asking_in};
use crate::pieces::octets_of;
use bvll::{ADDRESS_OCTETS, Address};
use captures::{Datagram, write_datagram, write_frame, write_start};
use diagnosis::Settings;
use diagnosis_reading::{
    Diagnosed, Form, Request, Telling, diagnose, print_counted, print_found, print_requests,
    print_senders,
};
use packet_choice::{Excerpt, Failure};
use sheets::{
    Counts, Given, Part, Row, Said, Stop, Trial, change_octets, compare, differs, try_row,
    two_words,
};
use std::alloc::{Allocator, Global};
use std::io;
use std::io::{ErrorKind, Read};
use std::num::NonZeroUsize;
use words::parse_number;

/// The network of the bus.
const BUS: u16 = 2;

/// The greatest size of reads.
const MOST: usize = 16;

/// What is printed of a capture.
#[derive(Clone, Copy)]
pub(crate) enum Printed {
    Summary,
    Transactions,
    Stations,
    /// The findings as they come about, the first line of each.
    Found,
    /// The findings that are kept.
    Told,
}

impl Printed {
    /// The least size of reads.
    fn least(self) -> usize {
        match self {
            Printed::Summary | Printed::Transactions | Printed::Stations => 1,
            Printed::Found | Printed::Told => MOST,
        }
    }
}

/// A port of UDP where malformed datagrams are found too.
const MORE_PORT: u16 = 50_000;

/// More broadcasts within a second are a storm.
const MOST_BROADCASTS: u64 = 8;

/// The most entries of each table, where a row doesn't ask for few.
const MANY: usize = 16;

/// .. and where it does.
const FEW: usize = 2;

/// Runs a row, with few entries in tables where it asks for that.
pub(crate) fn run_printed(
    given: Given<'_>,
    printed: Printed,
    rows: &[Row<'_>],
    words: &str,
    wanted: &str,
) -> Result<Counts, Stop> {
    let (most, words) = match words.strip_prefix("few ") {
        Some(words) => (FEW, words),
        None => (MANY, words),
    };
    let (asking, steps) = asking_in(words)?;
    let file = file_of(given.alloc, rows, steps)?;
    let diagnosing = Diagnosing {
        printed,
        most,
        size: MOST,
        asking,
    };
    run(given, diagnosing, file.as_slice(), wanted)
}

/// Runs a row, which asks this of a file.
fn run(
    given: Given<'_>,
    diagnosing: Diagnosing<'_>,
    file: &[u8],
    wanted: &str,
) -> Result<Counts, Stop> {
    for size in diagnosing.printed.least()..MOST {
        let trial = Diagnosing { size, ..diagnosing };
        compare(trial.answer(given, file)?, wanted)?;
    }
    let counts = try_row(given, &diagnosing, file, wanted)?;
    let changed = match diagnosing.printed {
        Printed::Transactions => change_octets(given, &diagnosing, file)?,
        Printed::Summary | Printed::Stations | Printed::Found | Printed::Told => 0,
    };
    Ok(Counts { changed, ..counts })
}

/// The file that the steps of a row stand for.
fn file_of(alloc: Global, rows: &[Row<'_>], steps: &str) -> Result<Vec<u8>, Stop> {
    if let Some(words) = steps.strip_prefix("raw ") {
        return octets_of(alloc, rows, words);
    }
    let mut file = Vec::new(alloc);
    write_start(&[BUS], &mut file)?;
    if steps != "-" {
        for step in steps.split("; ") {
            write_step(alloc, rows, step, &mut file)?;
        }
    }
    Ok(file)
}

/// Appends the packets of a step.
fn write_step(alloc: Global, rows: &[Row<'_>], step: &str, file: &mut Vec<u8>) -> Result<(), Stop> {
    let Some((words, moment)) = step.split_once(" @") else {
        return Err(Stop::Unread(Part::Asked));
    };
    let Some((moment, times)) = moment.split_once(" x") else {
        return write_packets(alloc, rows, words, parse_number(moment)?, file);
    };
    let Some((count, apart)) = times.split_once('+') else {
        return Err(Stop::Unread(Part::Asked));
    };
    let mut moment: u64 = parse_number(moment)?;
    let count: u64 = parse_number(count)?;
    let apart: u64 = parse_number(apart)?;
    for _ in 0..count {
        write_packets(alloc, rows, words, moment, file)?;
        moment = moment.saturating_add(apart);
    }
    Ok(())
}

/// Appends the packets that are captured at a moment.
fn write_packets(
    alloc: Global,
    rows: &[Row<'_>],
    words: &str,
    moment: u64,
    file: &mut Vec<u8>,
) -> Result<(), Stop> {
    for packet in words.split(" & ") {
        write_packet(alloc, rows, packet, moment, file)?;
    }
    Ok(())
}

/// Appends a packet that is captured at a moment.
fn write_packet(
    alloc: Global,
    rows: &[Row<'_>],
    words: &str,
    moment: u64,
    file: &mut Vec<u8>,
) -> Result<(), Stop> {
    let (first, words) = two_words(words);
    if first == "frame" {
        let octets = octets_of(alloc, rows, words)?;
        write_frame(0, octets.as_slice(), moment, &[], file)?;
        return Ok(());
    }
    let (second, words) = two_words(words);
    let octets = octets_of(alloc, rows, words)?;
    let datagram = Datagram {
        from: address(alloc, rows, first)?,
        to: address(alloc, rows, second)?,
        octets: octets.as_slice(),
    };
    write_datagram(&datagram, moment, &[], file)?;
    Ok(())
}

/// The address of six octets.
fn address(alloc: Global, rows: &[Row<'_>], word: &str) -> Result<Address, Stop> {
    let octets = octets_of(alloc, rows, word)?;
    if octets.len() < ADDRESS_OCTETS {
        return Err(Stop::Unread(Part::Octets));
    }
    Ok(Address::from_octets(octets.as_slice()))
}

/// A capture that is read, of which so much is known at a time, in reads of this size.
#[derive(Clone, Copy)]
struct Diagnosing<'q> {
    printed: Printed,
    most: usize,
    size: usize,
    asking: Asking<'q>,
}

impl<'a> Trial<'a> for Diagnosing<'_> {
    fn answer(&self, given: Given<'a>, octets: &[u8]) -> Result<String, Stop> {
        let mut said = Said {
            status: 0,
            out: Vec::new(given.alloc),
            err: Vec::new(given.alloc),
        };
        match self.tell(given, octets, &mut said.out) {
            Ok(true) => {}
            Ok(false) => said.status = 1,
            Err(Failure::Reading(error) | Failure::Writing(error)) => {
                return Err(stop(given.alloc, &error));
            }
        }
        if let Printed::Found = self.printed {
            said.out = first_lines(given.alloc, said.out.as_slice())?;
        }
        said.in_words(given.alloc)
    }
}

/// What was printed, without the lines that are indented.
fn first_lines(alloc: Global, printed: &[u8]) -> Result<Vec<u8>, Stop> {
    let mut lines = Vec::new(alloc);
    for line in printed.split_inclusive(|octet| *octet == b'\n') {
        if !line.starts_with(b"  ") {
            lines.extend_from_slice(line)?;
        }
    }
    Ok(lines)
}

impl Diagnosing<'_> {
    /// Prints what is asked for of a file. Returns `false` where it is no capture.
    fn tell(&self, given: Given<'_>, octets: &[u8], out: &mut Vec<u8>) -> Result<bool, Failure> {
        let choice = self.asking.choice(given.memory, &mut self.pieces(octets))?;
        self.tell_of(given.memory, choice.excerpt(), octets, out)
    }

    /// Prints what is asked for of these packets of a file. Returns `false` where it is no capture.
    fn tell_of<A: Allocator + Copy>(
        &self,
        alloc: A,
        excerpt: Excerpt<'_>,
        octets: &[u8],
        out: &mut Vec<u8>,
    ) -> Result<bool, Failure> {
        let Some(diagnosed) = self.diagnosed(alloc, excerpt, octets, &mut *out)? else {
            return Ok(false);
        };
        match self.print(alloc, &diagnosed, out) {
            Ok(()) => Ok(true),
            Err(error) => Err(Failure::Writing(error)),
        }
    }

    /// What these packets of a file show; what is found at once is printed.
    fn diagnosed<A: Allocator + Copy>(
        &self,
        alloc: A,
        excerpt: Excerpt<'_>,
        octets: &[u8],
        out: &mut Vec<u8>,
    ) -> Result<Option<Diagnosed<A>>, Failure> {
        let telling = match self.printed {
            Printed::Found => Telling::AtOnce,
            Printed::Summary | Printed::Transactions | Printed::Stations | Printed::Told => {
                Telling::Later
            }
        };
        let request = Request {
            settings: settings(self.most),
            excerpt,
            telling,
            form: self.asking.form,
        };
        diagnose(alloc, request, &mut self.pieces(octets), out)
    }

    /// A file that is read in pieces.
    fn pieces<'o>(&self, octets: &'o [u8]) -> Pieces<'o> {
        Pieces {
            left: octets,
            size: self.size,
        }
    }

    /// Prints what is asked for.
    fn print<A: Allocator + Copy>(
        &self,
        alloc: A,
        diagnosed: &Diagnosed<A>,
        out: &mut Vec<u8>,
    ) -> io::Result<()> {
        let form = self.asking.form;
        match self.printed {
            Printed::Summary => print_counted(alloc, form, diagnosed, out),
            Printed::Transactions => print_requests(alloc, form, diagnosed, out),
            Printed::Stations => print_senders(alloc, form, diagnosed, out),
            Printed::Found => Ok(()),
            Printed::Told => print_found(alloc, form, diagnosed.findings(), out),
        }
    }
}

/// Why a row stops where a capture isn't read, or what it shows not printed.
fn stop(alloc: Global, error: &io::Error) -> Stop {
    if error.kind() == ErrorKind::OutOfMemory {
        Stop::Memory
    } else {
        differs(alloc, "a read that failed")
    }
}

/// Tables that hold so many entries.
fn settings(most: usize) -> Settings {
    let most_known = NonZeroUsize::new(most).unwrap_or(NonZeroUsize::MIN);
    Settings {
        timeout: 20_000,
        slow: 1000,
        port: Some(MORE_PORT),
        broadcasts: MOST_BROADCASTS,
        findings: most as u64,
        transactions: most_known,
        listed: most,
        stations: most_known,
        sightings: most_known,
    }
}

/// Octets that are read in pieces of a size.
#[derive(Drop)]
struct Pieces<'o> {
    left: &'o [u8],
    size: usize,
}

impl Read for Pieces<'_> {
    fn read(&mut self, buf: &mut [u8]) -> io::Result<usize> {
        let count = self.size.min(buf.len()).min(self.left.len());
        let (piece, left) = self.left.split_at(count);
        let (room, _) = buf.split_at_mut(count);
        room.copy_from_slice(piece);
        self.left = left;
        Ok(count)
    }
}
