//! What came of all that a script expects as a JUnit report in XML, for whoever runs scripts in CI.
//!
//! To the layer above it promises that it returns; what is written is shown by rows, and isn't proved.
#![tactic(auto)]

use ladder::Escaped;
use site_verdicts::{Verdict, Verdicts};
use std::alloc::{AllocError, Allocator};
use std::io;
use std::io::Write;

/// The report of a script: a test suite of its name, and in it a test case for each expectation, with a failure where
/// it didn't hold.
///
/// # Errors
/// Want of memory.
pub fn junit<A: Allocator + Copy>(
    alloc: A,
    script: &str,
    verdicts: &Verdicts<A>,
) -> Result<Vec<u8, A>, AllocError> {
    let mut report = Vec::new(alloc);
    match write_suite(script, verdicts.as_slice(), &mut report) {
        Ok(()) => Ok(report),
        Err(_) => Err(AllocError),
    }
}

/// Writes the suite.
fn write_suite<A: Allocator, W: Write>(
    script: &str,
    verdicts: &[Verdict<A>],
    out: &mut W,
) -> io::Result<()> {
    let name = Escaped::whole(script);
    let tests = verdicts.len();
    let failures = count_failures(verdicts);
    writeln!(out, "<?xml version=\"1.0\" encoding=\"UTF-8\"?>")?;
    writeln!(
        out,
        "<testsuite name=\"{name}\" tests=\"{tests}\" failures=\"{failures}\" errors=\"0\">"
    )?;
    for verdict in verdicts {
        write_case(name, verdict, out)?;
    }
    writeln!(out, "</testsuite>")
}

/// How many of them didn't hold.
fn count_failures<A: Allocator>(verdicts: &[Verdict<A>]) -> usize {
    let mut count = 0usize;
    for verdict in verdicts {
        if verdict.found.is_some() {
            count = count.saturating_add(1);
        }
    }
    count
}

/// Writes a case.
fn write_case<A: Allocator, W: Write>(
    suite: Escaped<'_>,
    verdict: &Verdict<A>,
    out: &mut W,
) -> io::Result<()> {
    let expected = Escaped::whole(verdict.expected.as_str());
    write!(out, "  <testcase classname=\"{suite}\" name=\"")?;
    if let Some(line) = verdict.line {
        write!(out, "line {line}: ")?;
    }
    match &verdict.found {
        None => writeln!(out, "{expected}\"/>"),
        Some(found) => {
            let found = Escaped::whole(found.as_str());
            writeln!(
                out,
                "{expected}\"><failure message=\"found {found}\"/></testcase>"
            )
        }
    }
}
