//! What a diagnosis finds in the capture of a run: only what its script makes. The program `rows_sim` prints it of each
//! example.
#![tactic(auto)]

use diagnosis::Settings;
use diagnosis_reading::{Form, Request, Telling, diagnose};
use findings::{Findings, NAMES};
use packet_choice::{Excerpt, Failure};
use refusing::Refusing;
use site_capture::capture;
use std::alloc::{AllocError, Allocator, Global};
use std::io;

/// The names of what is found in the capture of a run, with how often: `late-answer 1, unanswered 2`, or `nothing`.
///
/// # Errors
/// Those of reading, and want of memory.
pub fn found_in(alloc: Global, site: &[u8], script: &[u8]) -> io::Result<String> {
    let memory = Refusing::new(alloc);
    found_by(alloc, &memory, site, script)
}

/// The same, where what is captured and diagnosed is kept in `memory`.
fn found_by<A: Allocator + Copy>(
    alloc: Global,
    memory: A,
    site: &[u8],
    script: &[u8],
) -> io::Result<String> {
    let Ok(file) = capture(alloc, memory, site, script) else {
        return Ok(String::from_str(alloc, "no capture")?);
    };
    let request = Request {
        settings: Settings::usual(),
        excerpt: Excerpt::all(),
        telling: Telling::Later,
        form: Form::Lines,
    };
    let mut input = file.as_slice();
    let mut out = Vec::new(alloc);
    match diagnose(memory, request, &mut input, &mut out) {
        Ok(Some(diagnosed)) => Ok(names_of(alloc, diagnosed.findings())?),
        Ok(None) => Ok(String::from_str(alloc, "no capture")?),
        Err(Failure::Reading(error) | Failure::Writing(error)) => Err(error),
    }
}

/// The names of findings, with how often each was found.
fn names_of<A: Allocator>(alloc: Global, findings: &Findings<A>) -> Result<String, AllocError> {
    let mut names = String::new(alloc);
    for name in NAMES {
        let count = findings.count(name);
        if count != 0 {
            if !names.is_empty() {
                names.push_str(", ")?;
            }
            write!(names, "{name} {count}")?;
        }
    }
    if names.is_empty() {
        names.push_str("nothing")?;
    }
    Ok(names)
}
