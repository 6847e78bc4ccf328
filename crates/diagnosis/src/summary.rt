//! The summary of a capture.

use crate::diagnosis::Diagnosis;
use diagnosis_parts::{PacketCounts, RequestCounts};
use findings::{Findings, print_counts};
use std::alloc::Allocator;
use std::io::Write;
use std::{fmt, io};

/// A time in microseconds as it is printed: with three decimals, in thousands of its unit.
#[derive(Clone, Copy)]
pub(crate) struct Thousands(pub(crate) u64);

impl fmt::Display for Thousands {
    fn fmt<W: fmt::Write>(&self, f: &mut fmt::Formatter<W>) -> fmt::Result {
        write!(f, "{}.{:03}", self.0 / 1000, self.0 % 1000)
    }
}

/// What is said of requests that came again.
const REPEATED: &str = "whether it was executed again, the wire doesn't show";

/// Prints what is counted of a capture, a line each; counts of what is rare only where there is some, and those of
/// these findings last.
///
/// # Errors
/// Those of writing.
pub fn print_summary<A: Allocator + Copy, W: Write>(
    diagnosis: &Diagnosis<A>,
    findings: &Findings<A>,
    out: &mut W,
) -> io::Result<()> {
    print_packets(&diagnosis.packets(), diagnosis.duration(), out)?;
    writeln!(out, "stations {}", diagnosis.station_count())?;
    print_rare("stations forgotten", diagnosis.stations_left(), out)?;
    print_requests(&diagnosis.requests(), out)?;
    print_time("median answer time", diagnosis.percentile(50), out)?;
    print_time("99th percentile", diagnosis.percentile(99), out)?;
    print_counts(findings, out)
}

/// Prints what is counted of packets.
fn print_packets<W: Write>(counts: &PacketCounts, duration: u64, out: &mut W) -> io::Result<()> {
    writeln!(out, "packets {}", counts.packets)?;
    writeln!(out, "seconds {}", Thousands(duration / 1000))?;
    print_rare("BACnet/IP datagrams", counts.datagrams, out)?;
    print_rare("MS/TP frames", counts.frames, out)?;
    print_rare("captured twice", counts.twice, out)?;
    print_rare("passed over", counts.passed_over, out)?;
    print_rare("unread", counts.unread, out)
}

/// Prints what is counted of transactions.
fn print_requests<W: Write>(counts: &RequestCounts, out: &mut W) -> io::Result<()> {
    writeln!(out, "requests {}", counts.requests)?;
    writeln!(out, "answered {}", counts.answered)?;
    writeln!(out, "unanswered {}", counts.unanswered)?;
    print_rare("open at the end", counts.open, out)?;
    print_rare("requests forgotten", counts.left, out)?;
    print_rare("ended requests forgotten", counts.unlisted, out)?;
    writeln!(out, "repeats {}", counts.repeats)?;
    if counts.repeats_after_answer != 0 {
        let count = counts.repeats_after_answer;
        writeln!(out, "repeats after the answer {count}: {REPEATED}")?;
    }
    print_rare("answers without request", counts.strays, out)
}

/// Prints a count, if it isn't 0.
fn print_rare<W: Write>(name: &str, count: u64, out: &mut W) -> io::Result<()> {
    if count == 0 {
        return Ok(());
    }
    writeln!(out, "{name} {count}")
}

/// Prints a time in microseconds, if there is one.
fn print_time<W: Write>(name: &str, time: Option<u64>, out: &mut W) -> io::Result<()> {
    match time {
        Some(time) => writeln!(out, "{name} {} ms", Thousands(time)),
        None => Ok(()),
    }
}
