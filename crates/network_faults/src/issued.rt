//! Which issue of a history is meant.

ghost use Rattle.std.specs.Prelude.{◌≡◌};
ghost use Rattle.history.specs.Lists.{first_of};
ghost use Rattle.network_faults.specs.Issued as spec;

use crate::fault::IssueRef;
use history::Entry;

/// The number of the issue that is meant in a history; `None` where the latest one is meant, and there is none yet.
pub fn issue_number<S, Q, R>(issue: IssueRef, history: &[Entry<S, Q, R>]) -> Option<u64>
    ensures { result ≡ spec.issue_number issue history.now }
{
    match issue {
        IssueRef::Number(number) => Some(number),
        IssueRef::Last => latest_issue(history),
    }
}

/// The number of the latest issue, if there is one.
#[tactic(auto, using(crate::proofs::IssuedLaws::latest_laws))]
fn latest_issue<S, Q, R>(history: &[Entry<S, Q, R>]) -> Option<u64>
    ensures { result ≡ spec.latest_issue history.now }
{
    let mut latest = None;
    let mut left = history;
    while let [first, rest @ ..] = left {
        latest = number_after(latest, first);
        left = rest;
    }
    latest
}

/// The number of the latest issue behind an entry, where this is the one before it.
fn number_after<S, Q, R>(latest: Option<u64>, entry: &Entry<S, Q, R>) -> Option<u64>
    ensures { result ≡ first_of (spec.issue_in entry.now) latest }
{
    match entry {
        Entry::Issue { number, .. } => Some(*number),
        Entry::Executed { .. }
        | Entry::Answered { .. }
        | Entry::Ended { .. }
        | Entry::Restarted { .. } => latest,
    }
}
