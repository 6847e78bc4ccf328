//! Whether a request came to its end as expected.

ghost use Rattle.std.specs.Prelude.{◌≡◌, ◌↔◌, IsTrue};
ghost use Rattle.verdicts.specs.Verdicts.{IsCause, IsEnd, IsOutcome, IsReason, IsReply, IsTimely};
ghost use Rattle.verdicts.specs.Verdicts as spec;

use crate::same::Same;
use expectations::{ExpectedEnd, Outcome};
use history::{End, Entry};
use primitives::Reply;
use std::alloc::Allocator;

/// Whether an entry says that a request, issued at that moment, ended as expected, and as soon.
pub(crate) fn is_outcome<S, Q, A: Allocator>(
    outcome: &Outcome<A>,
    within: Option<u64>,
    issued: Option<u64>,
    entry: &Entry<S, Q, Reply<A>>,
) -> bool
    ensures { IsTrue result ↔ IsOutcome outcome.now within issued entry.now }
{
    match (outcome, entry) {
        (
            Outcome::Answered(expected),
            Entry::Answered {
                reply: given,
                moment,
                ..
            },
        ) => is_reply(expected, given) && is_timely(within, issued, *moment),
        (Outcome::Ended(expected), Entry::Ended { why, moment, .. }) => {
            is_end(*expected, why) && is_timely(within, issued, *moment)
        }
        (Outcome::Answered(_) | Outcome::Ended(_), _) => false,
    }
}

/// Whether a reply is this one, or any where none is expected.
fn is_reply<A: Allocator>(expected: &Option<Reply<A>>, given: &Reply<A>) -> bool
    ensures { IsTrue result ↔ IsReply expected.now given.now }
{
    match expected {
        None => true,
        Some(reply) => given.is_same(reply),
    }
}

/// Whether a cause is this one, or any where none is expected.
fn is_end(expected: Option<ExpectedEnd>, given: &End) -> bool
    ensures { IsTrue result ↔ IsEnd expected given.now }
{
    match expected {
        None => true,
        Some(end) => is_cause(end, given),
    }
}

/// Whether a cause is this one (20.1.8, 20.1.9).
fn is_cause(expected: ExpectedEnd, given: &End) -> bool
    ensures { IsTrue result ↔ IsCause expected given.now }
{
    match (expected, given) {
        (ExpectedEnd::TimedOut, End::TimedOut) => true,
        (ExpectedEnd::Rejected(expected), End::Rejected { reason }) => is_reason(expected, *reason),
        (ExpectedEnd::Aborted(expected), End::Aborted { reason }) => is_reason(expected, *reason),
        (ExpectedEnd::TimedOut | ExpectedEnd::Rejected(_) | ExpectedEnd::Aborted(_), _) => false,
    }
}

/// Whether a reason is this one, or any where none is expected.
fn is_reason(expected: Option<u8>, given: u8) -> bool
    ensures { IsTrue result ↔ IsReason expected given }
{
    match expected {
        None => true,
        Some(reason) => given == reason,
    }
}

/// Whether a moment is at most so many milliseconds behind that of the issue, where that is expected.
fn is_timely(within: Option<u64>, issued: Option<u64>, moment: u64) -> bool
    ensures { IsTrue result ↔ IsTimely within issued moment }
{
    match (within, issued) {
        (None, _) => true,
        (Some(_), None) => false,
        (Some(ms), Some(at)) => moment.saturating_sub(at) <= ms,
    }
}

/// The moment at which the request of a number was issued, if it was.
#[tactic(auto, using(crate::proofs::SomeLaws::first_laws))]
pub(crate) fn issued_at<S, Q, R>(number: u64, history: &[Entry<S, Q, R>]) -> Option<u64>
    ensures { result ≡ spec.issued_at number history.now }
{
    let mut left = history;
    while let [first, rest @ ..] = left {
        if let Some(moment) = issued_in(number, first) {
            return Some(moment);
        }
        left = rest;
    }
    None
}

/// The moment of an entry, if it issues the request of this number.
fn issued_in<S, Q, R>(number: u64, entry: &Entry<S, Q, R>) -> Option<u64>
    ensures { result ≡ spec.issued_in number entry.now }
{
    match entry {
        Entry::Issue {
            number: other,
            moment,
            ..
        } if *other == number => Some(*moment),
        Entry::Issue { .. }
        | Entry::Executed { .. }
        | Entry::Answered { .. }
        | Entry::Ended { .. }
        | Entry::Restarted { .. } => None,
    }
}
