//! The history: what was executed for whom, and what came of requests.

ghost use Rattle.std.specs.Prelude.{◌≡◌, ◌≤◌, ◌<◌, ◌+◌, length};
ghost use Rattle.std.specs.Vec.{vec_capacity, vec_len};
ghost use Rattle.carry_ends.specs.carry_world.PlainWorld.{executed_told, outcomes_told};
ghost use Rattle.carry_ends.specs.carry_world.headline.Happenings as core;
ghost use Rattle.carry_ends.specs.carry_world.headline.Happenings.{closing};
ghost use Rattle.carry_ends.specs.carry_world.headline_client.Told.{outcome_of};

use crate::keeping::push_reserved;
use crate::last_issues::LastIssues;
use crate::log::WorldEntry;
use history::{End, Entry};
use node_laws::{Executed, Outcome, TransactionOutcome};
use npdu::Station;
use std::alloc::Allocator;
use tags::Items;

/// The entry that closes the issue of this number.
fn closing_entry<A: Allocator>(number: usize, outcome: Outcome<A>, now: u64) -> WorldEntry<A>
    ensures { result ≡ closing (outcome_of outcome) now number }
{
    let number = number as u64;
    match outcome {
        Outcome::Answered(reply) => Entry::Answered {
            number,
            reply,
            moment: now,
        },
        Outcome::Aborted(reason) => Entry::Ended {
            number,
            why: End::Aborted {
                reason: u8::from(reason),
            },
            moment: now,
        },
        Outcome::Rejected(reason) => Entry::Ended {
            number,
            why: End::Rejected {
                reason: u8::from(reason),
            },
            moment: now,
        },
        Outcome::TimedOut => Entry::Ended {
            number,
            why: End::TimedOut,
            moment: now,
        },
    }
}

/// Puts an entry behind a history, where there is an issue that it is of.
fn tell_outcome<A: Allocator>(
    history: &mut Vec<WorldEntry<A>, A>,
    issue: Option<usize>,
    outcome: Outcome<A>,
    now: u64,
)
    requires { vec_len history.old < vec_capacity history.old }
    ensures items { history.new.items ≡ core.told (closing (outcome_of outcome) now) issue history.old.items }
    ensures len { vec_len history.new ≤ vec_len history.old + 1 }
    ensures room { vec_capacity history.old ≤ vec_capacity history.new }
{
    if let Some(number) = issue {
        push_reserved(history, closing_entry(number, outcome, now));
    }
}

/// Puts what came of a client's transactions behind a history, where there is room (5.4.4).
pub(crate) fn tell_outcomes<A: Allocator + Copy>(
    history: &mut Vec<WorldEntry<A>, A>,
    keys: &LastIssues<A>,
    client: Station,
    outcomes: Items<TransactionOutcome<A>, A>,
    now: u64,
)
    requires { vec_len history.old + length outcomes ≤ vec_capacity history.old }
    ensures { history.new.items ≡ outcomes_told client now keys.now.keys outcomes history.old.items }
{
    for told in outcomes.into_vec() {
        let issue = keys.last(client, told.invoke_id);
        tell_outcome(history, issue, told.outcome, now);
    }
}

/// Puts what a device executed behind a history, where there is room (5.4.5).
pub(crate) fn tell_executed<A: Allocator + Copy>(
    history: &mut Vec<WorldEntry<A>, A>,
    keys: &LastIssues<A>,
    executed: Option<Executed<A>>,
    now: u64,
)
    requires { vec_len history.old < vec_capacity history.old }
    ensures items { history.new.items ≡ executed_told now executed keys.now.keys history.old.items }
    ensures len { vec_len history.new ≤ vec_len history.old + 1 }
    ensures room { vec_capacity history.old ≤ vec_capacity history.new }
{
    if let Some(executed) = executed {
        let asker = executed.asker();
        let issue = keys.last(asker.station, asker.invoke_id);
        if let Some(number) = issue {
            push_reserved(
                history,
                Entry::Executed {
                    number: number as u64,
                    reply: executed.into_reply(),
                    moment: now,
                },
            );
        }
    }
}
