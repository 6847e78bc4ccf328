//! The faults of a script.

ghost use Rattle.std.specs.Prelude.{IfOk};
ghost use Rattle.script_faults.specs.Told.{IsTold, IsToldLive};

use crate::expected::Expected;
use crate::fault::Fault;
use crate::layout::layout_fault;
use crate::step::{offline_fault, step_fault};
use messages::{Excerpt, Nearest, Report, nearest_in};
use names::{object_types, properties};
use script::{BadScript, Event, Expectation, Step, script_of, step_of};
use std::alloc::{AllocError, Allocator};
use std::io;
use std::io::{ErrorKind, Write};
use words::Unread;

/// The most faults that are told of one script.
const MOST: usize = 20;

/// Whether a script has a faulty line. Up to 20 of them are told on `out`: `plant.script:12:22: `, what was expected at
/// this line and column, and what was found; then the line itself, and a caret under the column.
///
/// # Errors
/// A failed write, and want of memory (`OutOfMemory`).
pub fn tell_script_faults<A: Allocator + Copy, W: Write>(
    alloc: A,
    file: &str,
    text: &[u8],
    in_colour: bool,
    out: &mut W,
) -> io::Result<bool>
    ensures told { IfOk result (IsTold A text.now) }
{
    match script_of(alloc, text) {
        Ok(_) => Ok(false),
        Err(BadScript::Memory) => Err(ErrorKind::OutOfMemory.into()),
        Err(BadScript::Line { .. }) => {
            let report = Report { file, in_colour };
            tell_lines(alloc, report, Run::Simulated, text, out)?;
            Ok(true)
        }
    }
}

/// Whether a script has a line that a live run refuses: one that is faulty, or a step that such a run makes of itself.
/// They are told as `tell_script_faults` tells them.
///
/// # Errors
/// A failed write, and want of memory (`OutOfMemory`).
pub fn tell_live_faults<A: Allocator + Copy, W: Write>(
    alloc: A,
    file: &str,
    text: &[u8],
    in_colour: bool,
    out: &mut W,
) -> io::Result<bool>
    ensures told { IfOk result (IsToldLive A text.now) }
{
    match script_of(alloc, text) {
        Ok(steps) => {
            if are_live(steps.as_slice()) {
                return Ok(false);
            }
        }
        Err(BadScript::Memory) => return Err(ErrorKind::OutOfMemory.into()),
        Err(BadScript::Line { .. }) => {}
    }
    let report = Report { file, in_colour };
    tell_lines(alloc, report, Run::Live, text, out)?;
    Ok(true)
}

/// What a script is run by.
#[derive(Clone, Copy, PartialEq, Eq)]
enum Run {
    /// It is simulated, with each of its steps.
    Simulated,
    /// It runs over UDP, which delivers, hears and wakes of itself.
    Live,
}

/// Whether a live run takes each of the steps.
fn are_live<A: Allocator>(steps: &[Step<A>]) -> bool {
    for step in steps {
        if !is_live(step) {
            return false;
        }
    }
    true
}

/// Whether a live run takes a step.
fn is_live<A: Allocator>(step: &Step<A>) -> bool {
    match step {
        Step::Happens(Event::Wake(_) | Event::Deliver(_) | Event::Hear { .. }) => false,
        Step::Disturbs(_) | Step::Shows(_) | Step::Expects(Expectation::Reads { .. }) => false,
        Step::Expects(
            Expectation::Closed { .. } | Expectation::Executed { .. } | Expectation::NoneRefused,
        ) => true,
        Step::Happens(
            Event::Issue { .. }
            | Event::WhoIs { .. }
            | Event::Tick(_)
            | Event::Register(_)
            | Event::Restart(_),
        ) => true,
        Step::Flow(_) => true,
    }
}

/// Tells the faulty lines of a text.
fn tell_lines<A: Allocator + Copy, W: Write>(
    alloc: A,
    report: Report<'_>,
    run: Run,
    text: &[u8],
    out: &mut W,
) -> io::Result<()> {
    let mut told = 0usize;
    for (index, line) in text.split(|octet| *octet == b'\n').enumerate() {
        let line = without_return(line);
        let Some(fault) = line_fault(alloc, run, line)? else {
            continue;
        };
        if told == MOST {
            return report.tell_whole(&format_args!("more than {MOST} lines are faulty"), out);
        }
        let excerpt = Excerpt {
            number: index.saturating_add(1),
            line,
            at: fault.at(),
        };
        tell_fault(alloc, report, &excerpt, &fault, out)?;
        told = told.saturating_add(1);
    }
    Ok(())
}

/// Tells a fault, and the word that was meant, if one is near.
fn tell_fault<A: Allocator + Copy, W: Write>(
    alloc: A,
    report: Report<'_>,
    excerpt: &Excerpt<'_>,
    fault: &Fault<'_>,
    out: &mut W,
) -> io::Result<()> {
    match meant(alloc, fault) {
        Ok(Some(word)) => {
            report.tell(excerpt, &format_args!("{fault}; did you mean {word}?"), out)
        }
        Ok(None) => report.tell(excerpt, fault, out),
        Err(AllocError) => Err(ErrorKind::OutOfMemory.into()),
    }
}

/// What is wrong with a line; nothing where it is empty, a comment or a step that the run takes.
fn line_fault<A: Allocator + Copy>(
    alloc: A,
    run: Run,
    line: &[u8],
) -> io::Result<Option<Fault<'_>>> {
    if line.is_empty() || line[0] == b'#' {
        return Ok(None);
    }
    let words = match std::str::from_utf8(line) {
        Ok(words) => words,
        Err(error) => {
            return Ok(Some(Fault::Utf8 {
                at: error.valid_up_to(),
            }));
        }
    };
    match step_of(alloc, words) {
        Ok(step) if run == Run::Live && !is_live(&step) => Ok(Some(offline_fault(line))),
        Ok(_) => Ok(None),
        Err(Unread::Memory) => Err(ErrorKind::OutOfMemory.into()),
        Err(unread) => Ok(Some(first_fault(line, unread))),
    }
}

/// What shows first in a line that was refused for this cause: a space, a tab or a comment, or something else.
fn first_fault(line: &[u8], unread: Unread) -> Fault<'_> {
    let fault = step_fault(line, unread);
    let end = match fault {
        Fault::Word { found, .. } => found.end(),
        Fault::Layout { .. } | Fault::Utf8 { .. } | Fault::Unread(_) => line.len(),
    };
    match layout_fault(line) {
        Some(layout) if layout.at() <= end => layout,
        _ => fault,
    }
}

/// The word that was meant where another one was found, if one is near.
fn meant<A: Allocator + Copy>(
    alloc: A,
    fault: &Fault<'_>,
) -> Result<Option<&'static str>, AllocError> {
    let Fault::Word { expected, found } = fault else {
        return Ok(None);
    };
    let text = found.text();
    let mut nearest = Nearest::to(text);
    match expected {
        Expected::ObjectType => {
            for row in object_types() {
                nearest.look(alloc, row.name)?;
            }
            Ok(nearest.word())
        }
        Expected::Property => {
            for row in properties() {
                nearest.look(alloc, row.name)?;
            }
            Ok(nearest.word())
        }
        _ => nearest_in(alloc, text, expected.words()),
    }
}

/// A line without the carriage return that it may end with.
fn without_return(line: &[u8]) -> &[u8] {
    match line {
        [front @ .., b'\r'] => front,
        _ => line,
    }
}
