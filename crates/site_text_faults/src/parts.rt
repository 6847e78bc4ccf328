//! What the parts of a site break, told where the text says them.

ghost use Rattle.std.specs.Prelude.{IfOk, Ok, not};
ghost use Rattle.site_check.specs.Judged.{IsSiteJudged};

use crate::judging::MOST;
use crate::keys::RowKind;
use crate::places::{Sought, find_all, in_order};
use messages::{Excerpt, Report, excerpt_at};
use site_faults::{Fault, Listener, Part, Subject, tell_faults};
use site_parts::{Parts, Role, Station};
use std::alloc::{AllocError, Allocator, Global};
use std::io;
use std::io::Write;

/// The faults of parts, those that are told at most.
#[derive(Drop)]
struct PartFaults<'p, A: Allocator> {
    alloc: Global,
    stations: &'p [Station<A>],
    sentences: Vec<String>,
    /// What each is about.
    subjects: Vec<Sought>,
    /// The first of the two parts that each is about; the document where there are not two.
    firsts: Vec<Sought>,
    /// Whether there are more.
    has_more: bool,
}

impl<A: Allocator> Listener for PartFaults<'_, A> {
    fn tell(&mut self, fault: Fault<'_>) -> io::Result<()> {
        self.put(fault)?;
        Ok(())
    }
}

impl<A: Allocator> PartFaults<'_, A> {
    /// Puts a fault behind others, unless there are too many.
    fn put(&mut self, fault: Fault<'_>) -> Result<(), AllocError> {
        if self.sentences.len() == MOST {
            self.has_more = true;
            return Ok(());
        }
        let subject = self.path(fault.subject)?;
        let first = match fault.first {
            Some(first) => self.path(first)?,
            None => String::new(self.alloc),
        };
        self.sentences.push(format!(in self.alloc; "{fault}")?)?;
        self.subjects.push(Sought::path(subject))?;
        self.firsts.push(Sought::path(first))?;
        Ok(())
    }

    /// The path of a part, or of its key.
    fn path(&self, subject: Subject) -> Result<String, AllocError> {
        let row = self.row(subject.part)?;
        match subject.key {
            Some(key) => format!(in self.alloc; "{row}.{key}"),
            None => Ok(row),
        }
    }

    /// The path of the row that says a part; that of the site is empty.
    fn row(&self, part: Part) -> Result<String, AllocError> {
        match part {
            Part::Site => Ok(String::new(self.alloc)),
            Part::Network(index) => format!(in self.alloc; "network[{index}]"),
            Part::Station(index) => self.station(index),
            Part::Link { station, link } => {
                let row = self.station(station)?;
                match self.kind(station) {
                    RowKind::Router => format!(in self.alloc; "{row}.port[{link}]"),
                    _ => Ok(row),
                }
            }
            Part::Object { device, object } => {
                let row = self.station(device)?;
                format!(in self.alloc; "{row}.object[{object}]")
            }
        }
    }

    /// The path of the row of the station at an index.
    fn station(&self, index: usize) -> Result<String, AllocError> {
        let kind = self.kind(index);
        let before = self.stations.iter().take(index);
        let number = before.filter(|other| kind_of(*other) == kind).count();
        format!(in self.alloc; "{}[{number}]", kind.array())
    }

    /// The kind of row of the station at an index.
    fn kind(&self, index: usize) -> RowKind {
        match self.stations.get(index) {
            Some(station) => kind_of(station),
            None => RowKind::Document,
        }
    }
}

/// The kind of row that says a station.
fn kind_of<A: Allocator>(station: &Station<A>) -> RowKind {
    match station.role {
        Role::Manager(_) => RowKind::Manager,
        Role::Router(_) => RowKind::Router,
        Role::Device { .. } => RowKind::Device,
        Role::Client { .. } => RowKind::Client,
    }
}

/// Whether parts have a fault; up to 20 are told at their places, in the order of the text.
pub(crate) fn tell_parts<A: Allocator + Copy, W: Write>(
    reading: Global,
    alloc: A,
    report: Report<'_>,
    text: &[u8],
    parts: &Parts<A>,
    out: &mut W,
) -> io::Result<bool>
    ensures { IfOk result (λ is_faulty. IsSiteJudged (Ok parts.now) (not is_faulty)) }
{
    let mut faults = PartFaults {
        alloc: reading,
        stations: parts.stations.as_slice(),
        sentences: Vec::new(reading),
        subjects: Vec::new(reading),
        firsts: Vec::new(reading),
        has_more: false,
    };
    let is_sound = tell_faults(alloc, parts, &mut faults)?;
    tell_placed(report, text, faults, out)?;
    Ok(!is_sound)
}

/// Tells faults at their places.
fn tell_placed<A: Allocator, W: Write>(
    report: Report<'_>,
    text: &[u8],
    faults: PartFaults<'_, A>,
    out: &mut W,
) -> io::Result<()> {
    let subjects = find_all(faults.alloc, text, faults.subjects)?;
    let firsts = find_all(faults.alloc, text, faults.firsts)?;
    let places = in_order(faults.alloc, subjects.as_slice())?;
    for (_, index) in places.as_slice() {
        if let Some(sentence) = faults.sentences.get(*index) {
            let subject = place_in(subjects.as_slice(), *index);
            let first = place_in(firsts.as_slice(), *index);
            tell_part(report, text, sentence.as_str(), subject, first, out)?;
        }
    }
    if faults.has_more {
        report.tell_whole(&format_args!("more than {MOST} faults"), out)?;
    }
    Ok(())
}

/// Tells a sentence, at the place of its subject if that isn't the document, and the line of the first of two parts.
fn tell_part<W: Write>(
    report: Report<'_>,
    text: &[u8],
    sentence: &str,
    subject: Option<usize>,
    first: Option<usize>,
    out: &mut W,
) -> io::Result<()> {
    let Some(at) = subject else {
        return report.tell_whole(&sentence, out);
    };
    let excerpt = excerpt_at(text, at);
    match first {
        Some(first) => {
            let Excerpt { number, .. } = excerpt_at(text, first);
            report.tell(
                &excerpt,
                &format_args!("{sentence}; the first is in line {number}"),
                out,
            )
        }
        None => report.tell(&excerpt, &sentence, out),
    }
}

/// Where the text says what is sought at an index; nowhere where that is the document.
fn place_in(all: &[Sought], index: usize) -> Option<usize> {
    match all.get(index) {
        Some(sought) if !sought.path.is_empty() => sought.at,
        _ => None,
    }
}
