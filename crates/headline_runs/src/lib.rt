//! The headline at a small protocol, and worked examples: that its definitions say what they should, and that there are
//! honest happenings of which it speaks. For tests alone; nothing stands on it.
//!
//! - `specs/Small`: numbers as stations, requests, replies and tables.
//! - `proofs/`: runs that compute, each an honest one (`Repeats`, `Silence`, `Parts`); histories that keep or break a
//!   rule (`Histories`); runs that aren't honest, and what of the promise each breaks (`Premises`).
#![tactic(auto)]

ghost use Rattle.history.specs.Legal.{AreNumbered, StandAfterIssue, AreExecutedOnce, AnswersWereExecuted};
ghost use Rattle.history.specs.Legal.{AreClosedOnce};
ghost use Rattle.headline.specs.Promised.{Always, AreWhatExecutionsLeave, ExecutesWhatIsIssued};
ghost use Rattle.headline.specs.Promised.{TransactionsAreOfIssues, OutcomesAreOfIssues, RequestsAreWhole};
ghost use Rattle.headline.specs.Promised.{AnswersAreWhole, SaidStaysSaid, RunsCompose, HonestRunsCompose};
ghost use Rattle.headline_runs.specs.Small.{small};

use headline::HasProtocol;

/// Numbers, each spelled by three octets.
#[derive(Clone, Copy)]
pub struct Small;

impl HasProtocol<u8, u8, u8, u8> for Small {
    ghost use Rattle.headline_runs.specs.Small.{small, small_laws};

    ghost protocol = { small };

    fn has_protocol(&self) -> bool {
        true
    }

    ghost lawful = { small_laws };
}

/// The laws, at the small protocol.
pub fn small_keeps_the_promise()
    ensures numbered { Always small (λ s w. AreNumbered w.book.history) }
    ensures after_issue { Always small (λ s w. StandAfterIssue w.book.history) }
    ensures closed { Always small (λ s w. AreClosedOnce w.book.history) }
    ensures executed { Always small (λ s w. AreExecutedOnce w.book.history) }
    ensures answered { Always small (λ s w. AnswersWereExecuted w.book.history) }
    ensures tables { Always small (λ s w. AreWhatExecutionsLeave small s w) }
    ensures heard { Always small (λ s w. ExecutesWhatIsIssued small s w) }
    ensures transactions { Always small (λ s w. TransactionsAreOfIssues small s w) }
    ensures outcomes { Always small (λ s w. OutcomesAreOfIssues small s w) }
    ensures said { SaidStaysSaid small }
    ensures requests { Always small (λ s w. RequestsAreWhole small s w) }
    ensures answers { Always small (λ s w. AnswersAreWhole small s w) }
    ensures one { RunsCompose small }
    ensures honest { HonestRunsCompose small }
{
    headline::numbered_and_closed_once::<Small, u8, u8, u8, u8>();
    headline::executed_at_most_once::<Small, u8, u8, u8, u8>();
    headline::answers_were_executed::<Small, u8, u8, u8, u8>();
    headline::tables_are_what_executions_leave::<Small, u8, u8, u8, u8>();
    headline::heard_is_the_last_issue::<Small, u8, u8, u8, u8>();
    headline::outcomes_are_of_an_issue::<Small, u8, u8, u8, u8>();
    headline::said_stays_said::<Small, u8, u8, u8, u8>();
    headline::whole_bodies::<Small, u8, u8, u8, u8>();
    headline::runs_compose::<Small, u8, u8, u8, u8>();
}
