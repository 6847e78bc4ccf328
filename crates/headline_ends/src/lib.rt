//! Each request comes to its end, over every list of honest happenings (ANSI/ASHRAE 135, clause 5.4.4).
//!
//! It stands on the same clients and devices as the promise, and says the other half: no issue is forgotten. It has no
//! code. Each function is a law: its contract. In `specs/`:
//!
//! - `Ends`: an issue that is closed or open, and a transaction that is of an open issue.
#![tactic(auto)]

ghost use Rattle.headline.specs.Promised.{Always};
ghost use Rattle.headline_ends.specs.Ends.{IssuesAreAccountedFor, OpenAreUnclosed};

use headline::HasProtocol;

/// Each issue has its one closing entry, or its transaction is open at its client under the last issue of its invoke
/// ID, with its request and its moment; and no transaction is open whose issue has a closing entry.
pub fn each_issue_is_accounted_for<P: HasProtocol<S, Q, R, T>, S, Q, R, T>()
    ensures issues { Always P.protocol (λ s w. IssuesAreAccountedFor P.protocol w) }
    ensures unclosed { Always P.protocol (λ s w. OpenAreUnclosed P.protocol w) }
{}
