//! What is printed of a capture, as lines or as JSON.

use crate::diagnosed::Diagnosed;
use diagnosis::{print_stations, print_summary, print_transactions};
use findings::{Findings, print_kept};
use json_findings::{write_counts, write_finding, write_stations, write_transactions};
use std::alloc::Allocator;
use std::io;
use std::io::Write;

/// How something is printed.
#[derive(Clone, Copy, PartialEq, Eq)]
pub enum Form {
    /// As lines.
    Lines,
    /// As objects of JSON, one a line.
    Json,
}

/// Prints the findings that are kept.
///
/// # Errors
/// Those of writing, and want of memory.
pub fn print_found<A: Allocator + Copy, W: Write>(
    alloc: A,
    form: Form,
    findings: &Findings<A>,
    out: &mut W,
) -> io::Result<()> {
    match form {
        Form::Lines => print_kept(findings, out),
        Form::Json => write_findings(alloc, findings, out),
    }
}

/// Writes the findings that are kept as objects.
fn write_findings<A: Allocator + Copy, W: Write>(
    alloc: A,
    findings: &Findings<A>,
    out: &mut W,
) -> io::Result<()> {
    for finding in findings.kept() {
        write_finding(alloc, finding, out)?;
    }
    Ok(())
}

/// Prints what is counted, and how many packets are asked for, where that may not be all.
///
/// # Errors
/// Those of writing, and want of memory.
pub fn print_counted<A: Allocator + Copy, W: Write>(
    alloc: A,
    form: Form,
    diagnosed: &Diagnosed<A>,
    out: &mut W,
) -> io::Result<()> {
    let counted = diagnosed.counted();
    let findings = diagnosed.findings();
    match form {
        Form::Lines => {
            if let Some(asked) = diagnosed.asked() {
                writeln!(out, "packets asked for {asked}")?;
            }
            print_summary(counted, findings, out)
        }
        Form::Json => write_counts(alloc, counted, findings, diagnosed.asked(), out),
    }
}

/// Prints the table of the requests.
///
/// # Errors
/// Those of writing, and want of memory.
pub fn print_requests<A: Allocator + Copy, W: Write>(
    alloc: A,
    form: Form,
    diagnosed: &Diagnosed<A>,
    out: &mut W,
) -> io::Result<()> {
    match form {
        Form::Lines => print_transactions(alloc, diagnosed.counted(), out),
        Form::Json => write_transactions(alloc, diagnosed.counted(), out),
    }
}

/// Prints the table of the stations.
///
/// # Errors
/// Those of writing, and want of memory.
pub fn print_senders<A: Allocator + Copy, W: Write>(
    alloc: A,
    form: Form,
    diagnosed: &Diagnosed<A>,
    out: &mut W,
) -> io::Result<()> {
    match form {
        Form::Lines => print_stations(alloc, diagnosed.counted(), out),
        Form::Json => write_stations(alloc, diagnosed.counted(), out),
    }
}
