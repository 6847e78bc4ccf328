//! A step with each allocation refused in turn: `put 0; put 5; items forget 1003; item 0; item 1 -> blank; @5`. Nothing
//! has changed where an allocation is refused, but that some of several datagrams were put out, and the same step made
//! again gives what is wanted. Behind each row equal copies are made in the same way, and tell the same.

use crate::kept::Kept;
use crate::steps::{Step, step_of};
use sheets::{Counts, Given, Row, Stop, compare, differs, push_mark};
use std::alloc::Allocator;

/// How many allocations of a call are refused at most.
const MANY: u64 = 1000;

/// Whether a step may be made in part where memory is wanting: some of several datagrams are put out.
fn is_of_many(step: Step) -> bool {
    matches!(step, Step::Put { times, .. } if times > 1)
}

/// Makes a step with each allocation refused in turn, until none is.
fn make_refused<A: Allocator + Copy>(
    given: Given<'_>,
    kept: &mut Kept<A>,
    step: Step,
    counts: &mut Counts,
) -> Result<Option<String>, Stop> {
    if is_of_many(step) {
        return kept.make(given.alloc, step);
    }
    let before = kept.state(given.alloc)?;
    for refused in 0..MANY {
        given.memory.refuse_only(refused + 1);
        let came = kept.make(given.alloc, step);
        let is_met = !given.memory.is_waiting();
        given.memory.refuse_only(0);
        match came {
            Err(Stop::Memory) if is_met => {
                if kept.state(given.alloc)? != before {
                    return Err(differs(given.alloc, "a change where a call was refused"));
                }
                counts.refused = counts.refused.saturating_add(1);
            }
            // What forgets wants memory, and forgets nothing where there is none.
            Ok(_) if is_met && matches!(step, Step::ForgetIssues) => {
                if kept.state(given.alloc)? != before {
                    return Err(differs(given.alloc, "a change where nothing could be forgotten"));
                }
                counts.refused = counts.refused.saturating_add(1);
            }
            Ok(text) if !is_met => return Ok(text),
            Ok(_) => return Err(differs(given.alloc, "no want of memory where it was refused")),
            Err(stop) => return Err(stop),
        }
    }
    Err(differs(given.alloc, "a call that is refused memory again and again"))
}

/// Makes copies with each allocation refused in turn, until none is.
fn copy_refused<A: Allocator + Copy>(
    given: Given<'_>,
    kept: &Kept<A>,
    counts: &mut Counts,
) -> Result<(), Stop> {
    for refused in 0..MANY {
        given.memory.refuse_only(refused + 1);
        let came = kept.is_copied(given.alloc);
        let is_met = !given.memory.is_waiting();
        given.memory.refuse_only(0);
        match came {
            Err(Stop::Memory) if is_met => counts.refused = counts.refused.saturating_add(1),
            Ok(true) if !is_met => return Ok(()),
            Ok(_) => return Err(differs(given.alloc, "a copy that tells something else")),
            Err(stop) => return Err(stop),
        }
    }
    Err(differs(given.alloc, "a copy that is refused memory again and again"))
}

/// Runs a row in this memory, that of `given`.
///
/// # Errors
/// `Differs` where it does not hold, `Unread`, `Memory`.
pub(crate) fn run<A: Allocator + Copy>(
    given: Given<'_>,
    memory: A,
    row: &Row<'_>,
) -> Result<Counts, Stop> {
    let mut counts = Counts {
        rows: 1,
        refused: 0,
        changed: 0,
    };
    let mut kept = Kept::new(given.alloc, memory);
    let mut out = String::new(given.alloc);
    for words in row.asked.split("; ") {
        let step = step_of(words)?;
        if let Some(text) = make_refused(given, &mut kept, step, &mut counts)? {
            push_mark("; ", &mut out)?;
            out.push_str(text.as_str())?;
        }
    }
    copy_refused(given, &kept, &mut counts)?;
    compare(out, row.wanted()?)?;
    Ok(counts)
}
