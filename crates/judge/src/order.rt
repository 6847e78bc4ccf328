//! Which entries of a history stand behind which (5.4): no memory is taken, and no object looked at.

use crate::illegal::Illegal;
use history::Entry;
use npdu::Station;
use primitives::{Reply, Request};
use std::alloc::Allocator;

/// An entry of a history.
pub type HistoryEntry<A> = Entry<Station, Request<A>, Reply<A>>;

/// Judges the order of a history: issues are numbered 0, 1, .. in order, and each other entry of an issue stands
/// behind it; an issue is executed at most once; an answer stands behind an execution with the same reply; an issue
/// is answered or ends at most once.
///
/// # Errors
/// The first entry that breaks this, and how.
pub fn judge_order<A: Allocator>(history: &[HistoryEntry<A>]) -> Result<(), Illegal> {
    for (place, entry) in history.iter().enumerate() {
        judge_entry(before(history, place), entry, place)?;
    }
    Ok(())
}

/// The entries before a place.
pub(crate) fn before<A: Allocator>(
    history: &[HistoryEntry<A>],
    place: usize,
) -> &[HistoryEntry<A>] {
    history.get(..place).unwrap_or(history)
}

/// Judges an entry at a place by those before it.
fn judge_entry<A: Allocator>(
    before: &[HistoryEntry<A>],
    entry: &HistoryEntry<A>,
    place: usize,
) -> Result<(), Illegal> {
    match entry {
        Entry::Issue { number, .. } => judge_number(before, *number, place),
        Entry::Executed { number, .. } => judge_executed(before, *number, place),
        Entry::Answered { number, reply, .. } => {
            judge_over(before, *number, place)?;
            judge_answer(before, *number, reply, place)
        }
        Entry::Ended { number, .. } => judge_over(before, *number, place),
        Entry::Restarted { .. } => Ok(()),
    }
}

/// Judges the number of an issue: as many issues stand before it.
fn judge_number<A: Allocator>(
    before: &[HistoryEntry<A>],
    number: u64,
    place: usize,
) -> Result<(), Illegal> {
    if before.iter().filter(|entry| is_issue(entry)).count() as u64 == number {
        Ok(())
    } else {
        Err(Illegal::OtherNumber { place })
    }
}

/// Judges an execution: the issue stands before it, and no other execution of it does.
fn judge_executed<A: Allocator>(
    before: &[HistoryEntry<A>],
    number: u64,
    place: usize,
) -> Result<(), Illegal> {
    if !before.iter().any(|entry| issues(entry, number)) {
        return Err(Illegal::NotIssued { place });
    }
    if before.iter().any(|entry| executes(entry, number)) {
        return Err(Illegal::ExecutedAgain { place });
    }
    Ok(())
}

/// Judges an answer or an end: the issue stands before it, and no answer or end of it does.
fn judge_over<A: Allocator>(
    before: &[HistoryEntry<A>],
    number: u64,
    place: usize,
) -> Result<(), Illegal> {
    if !before.iter().any(|entry| issues(entry, number)) {
        return Err(Illegal::NotIssued { place });
    }
    if before.iter().any(|entry| ends(entry, number)) {
        return Err(Illegal::OverAgain { place });
    }
    Ok(())
}

/// Judges an answer: an execution of the issue with the same reply stands before it.
fn judge_answer<A: Allocator>(
    before: &[HistoryEntry<A>],
    number: u64,
    reply: &Reply<A>,
    place: usize,
) -> Result<(), Illegal> {
    if before.iter().any(|entry| executes_so(entry, number, reply)) {
        Ok(())
    } else {
        Err(Illegal::NotExecuted { place })
    }
}

/// Whether an entry is an issue.
fn is_issue<A: Allocator>(entry: &HistoryEntry<A>) -> bool {
    match entry {
        Entry::Issue { .. } => true,
        Entry::Executed { .. }
        | Entry::Answered { .. }
        | Entry::Ended { .. }
        | Entry::Restarted { .. } => false,
    }
}

/// Whether an entry is the issue of a number.
fn issues<A: Allocator>(entry: &HistoryEntry<A>, issue: u64) -> bool {
    match entry {
        Entry::Issue { number, .. } => *number == issue,
        Entry::Executed { .. }
        | Entry::Answered { .. }
        | Entry::Ended { .. }
        | Entry::Restarted { .. } => false,
    }
}

/// Whether an entry is an execution of the issue of a number.
fn executes<A: Allocator>(entry: &HistoryEntry<A>, issue: u64) -> bool {
    match entry {
        Entry::Executed { number, .. } => *number == issue,
        Entry::Issue { .. }
        | Entry::Answered { .. }
        | Entry::Ended { .. }
        | Entry::Restarted { .. } => false,
    }
}

/// Whether an entry is an execution of the issue of a number with this reply.
fn executes_so<A: Allocator>(entry: &HistoryEntry<A>, issue: u64, wanted: &Reply<A>) -> bool {
    match entry {
        Entry::Executed { number, reply, .. } => *number == issue && reply == wanted,
        Entry::Issue { .. }
        | Entry::Answered { .. }
        | Entry::Ended { .. }
        | Entry::Restarted { .. } => false,
    }
}

/// Whether an entry is an answer or an end of the issue of a number.
fn ends<A: Allocator>(entry: &HistoryEntry<A>, issue: u64) -> bool {
    match entry {
        Entry::Answered { number, .. } | Entry::Ended { number, .. } => *number == issue,
        Entry::Issue { .. } | Entry::Executed { .. } | Entry::Restarted { .. } => false,
    }
}
