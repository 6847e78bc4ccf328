//! How the findings of a capture are printed.

use crate::findings::Findings;
use crate::name::NAMES;
use std::alloc::Allocator;
use std::io;
use std::io::Write;

/// Prints the findings that are kept, and what each means in a line below it, indented.
///
/// # Errors
/// Those of writing.
pub fn print_kept<A: Allocator, W: Write>(findings: &Findings<A>, out: &mut W) -> io::Result<()> {
    for finding in findings.kept() {
        writeln!(out, "{finding}")?;
        writeln!(out, "  {}", finding.meaning())?;
    }
    Ok(())
}

/// Prints how many findings of each name there are, a line each where there are some, and how many of them are kept
/// where that is fewer.
///
/// # Errors
/// Those of writing.
pub fn print_counts<A: Allocator, W: Write>(findings: &Findings<A>, out: &mut W) -> io::Result<()> {
    for name in NAMES {
        let count = findings.count(name);
        if count > findings.most() {
            writeln!(out, "found {name} {count}, {} shown", findings.most())?;
        } else if count != 0 {
            writeln!(out, "found {name} {count}")?;
        }
    }
    Ok(())
}
