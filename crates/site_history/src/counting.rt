//! What the last line counts.

ghost use Rattle.std.specs.Prelude.{◌≡◌, IfSome};
ghost use Rattle.site_history.specs.Counting as spec;

use faulty_flow::WorldEntry;
use history::Entry;
use std::alloc::Allocator;

/// The kinds of entries that are counted.
#[derive(Clone, Copy, Debug, PartialEq, Eq)]
enum Kind {
    Issue,
    Executed,
    Answered,
    Ended,
}

/// How many entries of each kind a history has.
#[derive(Clone, Copy, Debug, PartialEq, Eq)]
pub struct Counts {
    pub issued: usize,
    pub executed: usize,
    pub answered: usize,
    pub ended: usize,
}

impl Counts {
    /// Returns the counts of no entry.
    pub fn none() -> Self
        ensures { result ≡ spec.none_counted }
    {
        Counts {
            issued: 0,
            executed: 0,
            answered: 0,
            ended: 0,
        }
    }

    /// Returns these counts with those of more entries, or none where there are too many to be counted.
    pub fn with<A: Allocator>(self, more: &[WorldEntry<A>]) -> Option<Self>
        ensures { IfSome result (λ counts. counts ≡ spec.counted_on self more.now) }
    {
        let more = counted(more);
        Some(Counts {
            issued: self.issued.checked_add(more.issued)?,
            executed: self.executed.checked_add(more.executed)?,
            answered: self.answered.checked_add(more.answered)?,
            ended: self.ended.checked_add(more.ended)?,
        })
    }
}

/// How many entries of each kind these are.
pub fn counted<A: Allocator>(history: &[WorldEntry<A>]) -> Counts
    ensures { result ≡ spec.counts_of history.now }
{
    Counts {
        issued: count(Kind::Issue, history),
        executed: count(Kind::Executed, history),
        answered: count(Kind::Answered, history),
        ended: count(Kind::Ended, history),
    }
}

/// How many of these entries are of a kind.
fn count<A: Allocator>(kind: Kind, history: &[WorldEntry<A>]) -> usize
    ensures { result ≡ spec.count kind history.now }
{
    let mut number = 0;
    for entry in history {
        if is_of(kind, entry) {
            number += 1;
        }
    }
    number
}

/// Whether an entry is of a kind.
fn is_of<A: Allocator>(kind: Kind, entry: &WorldEntry<A>) -> bool
    ensures { result ≡ spec.is_of kind entry.now }
{
    match entry {
        Entry::Issue { .. } => kind == Kind::Issue,
        Entry::Executed { .. } => kind == Kind::Executed,
        Entry::Answered { .. } => kind == Kind::Answered,
        Entry::Ended { .. } => kind == Kind::Ended,
        Entry::Restarted { .. } => false,
    }
}
