//! Whether an expectation holds.

ghost use Rattle.std.specs.Prelude.{◌≡◌, ◌↔◌, IsSomeAnd, IsTrue, option_map};
ghost use Rattle.history.specs.Legal.{executes};
ghost use Rattle.history.specs.Lists.{count};
ghost use Rattle.network_faults.specs.Issued as issued;
ghost use Rattle.verdicts.specs.Verdicts.{Holds, IsOutcome, IsSoOften};
ghost use Rattle.verdicts.specs.Verdicts as spec;

use crate::closing::{is_outcome, issued_at};
use crate::counting::count_executed;
use crate::reading::is_read;
use crate::told::closing_of;
use expectations::{Expectation, IssueRef, Outcome, Times, issue_number};
use history::Entry;
use primitives::Reply;
use std::alloc::Allocator;

/// Whether what is expected holds, of this history, where so many events were refused. `read` is what the property that
/// an expectation asks for reads now at its device, if there is one.
pub fn holds<S, Q, A: Allocator>(
    expected: &Expectation<A>,
    history: &[Entry<S, Q, Reply<A>>],
    refused: u64,
    read: Option<&Reply<A>>,
) -> bool
    ensures { IsTrue result ↔ Holds expected.now history.now refused (option_map (λ r. r.now) read.entry) }
{
    match expected {
        Expectation::Closed {
            issue,
            outcome,
            within,
        } => is_closed(*issue, outcome, *within, history),
        Expectation::Executed { issue, times } => is_executed(*issue, *times, history),
        Expectation::Reads { value, .. } => is_read(value, read),
        Expectation::NoneRefused => refused == 0,
    }
}

/// Whether a request ended so, within so many milliseconds if that is said.
#[tactic(auto, using(crate::proofs::SomeLaws::some_laws))]
fn is_closed<S, Q, A: Allocator>(
    issue: IssueRef,
    outcome: &Outcome<A>,
    within: Option<u64>,
    history: &[Entry<S, Q, Reply<A>>],
) -> bool
    ensures { IsTrue result ↔ IsSomeAnd (issued.issue_number issue history.now)
        (λ n. IsSomeAnd (spec.closing_of n history.now)
        (IsOutcome outcome.now within (spec.issued_at n history.now))) }
{
    match issue_number(issue, history) {
        Some(number) => is_closed_so(number, outcome, within, history),
        None => false,
    }
}

/// Whether the request of this number did.
#[tactic(auto, using(crate::proofs::SomeLaws::some_laws))]
fn is_closed_so<S, Q, A: Allocator>(
    number: u64,
    outcome: &Outcome<A>,
    within: Option<u64>,
    history: &[Entry<S, Q, Reply<A>>],
) -> bool
    ensures { IsTrue result ↔ IsSomeAnd (spec.closing_of number history.now)
        (IsOutcome outcome.now within (spec.issued_at number history.now)) }
{
    let issued = issued_at(number, history);
    match closing_of(number, history) {
        Some(entry) => is_outcome(outcome, within, issued, entry),
        None => false,
    }
}

/// Whether a request was executed so often.
#[tactic(auto, using(crate::proofs::SomeLaws::some_laws))]
fn is_executed<S, Q, A: Allocator>(
    issue: IssueRef,
    times: Times,
    history: &[Entry<S, Q, Reply<A>>],
) -> bool
    ensures { IsTrue result ↔ IsSomeAnd (issued.issue_number issue history.now)
        (λ n. IsSoOften times (count (executes n) history.now)) }
{
    match issue_number(issue, history) {
        Some(number) => is_so_often(times, count_executed(number, history)),
        None => false,
    }
}

/// Whether so many times are as expected.
fn is_so_often(expected: Times, times: usize) -> bool
    ensures { IsTrue result ↔ IsSoOften expected times }
{
    match expected {
        Times::Once => times == 1,
        Times::Never => times == 0,
    }
}
