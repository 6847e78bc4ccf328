//! The page that a command line asks for.

ghost use Rattle.std.specs.Prelude.{◌≤◌, IfErr};

use crate::diagnosing::say_failure;
use command_files::{Files, Use, are_safe, beginning, is_standard, put_in_place, say_file_fault};
use command_order::Diagnosing;
use diagnosis_names::{NamedOut, Names};
use diagnosis_reading::Diagnosed;
use diagnosis_report::write_report;
use packet_choice::{Excerpt, Failure};
use std::alloc::Global;
use std::io::Write;

/// Whether a page may be written, if one is asked for, which is told where it may not: of standard input none is, and
/// it is neither the capture nor the site.
pub(crate) fn may_report<F: Files, E: Write>(
    diagnosing: &Diagnosing,
    files: &F,
    in_colour: bool,
    err: &mut E,
) -> bool {
    let report = diagnosing.report.as_deref();
    if report.is_none() {
        return true;
    }
    if is_standard(Some(diagnosing.capture.as_str())) {
        let beginning = beginning(in_colour);
        let _ = writeln!(
            err,
            "{beginning} --report reads a file, and not standard input"
        );
        return false;
    }
    let capture = &diagnosing.capture;
    let site = diagnosing.site.as_ref().unwrap_or(capture);
    are_safe(files, site, capture, &[report], in_colour, err)
}

/// Writes the page of a capture, if one is asked for.
///
/// # Errors
/// The exit status where it can't be written, which is told.
pub(crate) fn report<F: Files, E: Write>(
    alloc: Global,
    diagnosing: &Diagnosing,
    names: Option<&Names<Global>>,
    diagnosed: &Diagnosed<Global>,
    excerpt: Excerpt<'_>,
    files: &F,
    in_colour: bool,
    err: &mut E,
) -> Result<(), u8>
    ensures { IfErr result (λ status. status ≤ 1) }
{
    let Some(report) = diagnosing.report.as_deref() else {
        return Ok(());
    };
    let page = match page_of(alloc, diagnosing, names, diagnosed, excerpt, files) {
        Ok(page) => page,
        Err(failure) => {
            let name = diagnosing.capture.as_str();
            return Err(say_failure(name, &failure, in_colour, err));
        }
    };
    match put_in_place(alloc, report, page.as_slice(), files) {
        Ok(()) => Ok(()),
        Err(error) => Err(say_file_fault(report, Use::Written, &error, in_colour, err)),
    }
}

/// The page of a capture, with these names.
fn page_of<F: Files>(
    alloc: Global,
    diagnosing: &Diagnosing,
    names: Option<&Names<Global>>,
    diagnosed: &Diagnosed<Global>,
    excerpt: Excerpt<'_>,
    files: &F,
) -> Result<Vec<u8>, Failure> {
    let mut page = Vec::new(alloc);
    match names {
        Some(names) => {
            let mut named = NamedOut::new(alloc, names, &mut page);
            write_page(alloc, diagnosing, diagnosed, excerpt, files, &mut named)?;
        }
        None => write_page(alloc, diagnosing, diagnosed, excerpt, files, &mut page)?,
    }
    Ok(page)
}

/// Writes the page, for which the capture is read once more.
fn write_page<F: Files, W: Write>(
    alloc: Global,
    diagnosing: &Diagnosing,
    diagnosed: &Diagnosed<Global>,
    excerpt: Excerpt<'_>,
    files: &F,
    out: &mut W,
) -> Result<(), Failure> {
    let name = diagnosing.capture.as_str();
    match files.open(name) {
        Ok(mut input) => write_report(alloc, name, diagnosed, excerpt, &mut input, out),
        Err(error) => Err(Failure::Reading(error)),
    }
}
