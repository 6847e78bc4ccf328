//! The promise over clients and devices that hear only what was said, at most LIFE_MS ago, whatever network lies
//! between.
//!
//! Each function's contract is a theorem over every site, every honest list of happenings from the start, and any
//! stations, requests, replies and tables of which a protocol is known; none has code. A layer above that shows what
//! its stations do to be such a list has these theorems of them. In `specs/`, from below:
//!
//! - `Protocol`: what is known of stations, requests, replies, tables and the site.
//! - `Stations`: what a client and a device keep, as far as safety sees it.
//! - `Happenings`: the smallest moves, and what comes of them; `Honest`: which of them may be.
//! - `Promised`: what the theorems say, beside the words for histories; `Records`: words for the newest record.
#![tactic(auto)]

ghost use Rattle.history.specs.Legal.{AreNumbered, StandAfterIssue, AreExecutedOnce, AnswersWereExecuted};
ghost use Rattle.history.specs.Legal.{AreClosedOnce};
ghost use Rattle.headline.specs.Promised.{Always, AreWhatExecutionsLeave, ExecutesWhatIsIssued};
ghost use Rattle.headline.specs.Promised.{TransactionsAreOfIssues, OutcomesAreOfIssues, RequestsAreWhole};
ghost use Rattle.headline.specs.Promised.{AnswersAreWhole, SaidStaysSaid, RunsCompose, HonestRunsCompose};

/// What the promise knows of stations S, requests Q, replies R and tables T, with its laws.
pub trait HasProtocol<S, Q, R, T> {
    ghost use Rattle.headline.specs.Protocol.{Protocol, IsLawful};

    ghost protocol: { Protocol S Q R T };

    /// Any answer will do: a trait has a function.
    fn has_protocol(&self) -> bool;

    ghost lawful: { IsLawful protocol };
}

/// Issues are numbered in order, each other entry stands after its issue, and no issue is answered or ended twice.
pub fn numbered_and_closed_once<P: HasProtocol<S, Q, R, T>, S, Q, R, T>()
    ensures numbered { Always P.protocol (λ s w. AreNumbered w.book.history) }
    ensures after_issue { Always P.protocol (λ s w. StandAfterIssue w.book.history) }
    ensures closed { Always P.protocol (λ s w. AreClosedOnce w.book.history) }
{}

/// No issue is executed twice.
pub fn executed_at_most_once<P: HasProtocol<S, Q, R, T>, S, Q, R, T>()
    ensures { Always P.protocol (λ s w. AreExecutedOnce w.book.history) }
{}

/// Each answer has the reply of an earlier execution of that very issue.
pub fn answers_were_executed<P: HasProtocol<S, Q, R, T>, S, Q, R, T>()
    ensures { Always P.protocol (λ s w. AnswersWereExecuted w.book.history) }
{}

/// The replies and the table of each device are those of the object machine, over the executed requests whose issue
/// names its instance, in their order, from its opening table, and anew from there after each restart.
pub fn tables_are_what_executions_leave<P: HasProtocol<S, Q, R, T>, S, Q, R, T>()
    ensures { Always P.protocol (λ s w. AreWhatExecutionsLeave P.protocol s w) }
{}

/// What a device executes is the request of the last issue of the client that asks, under the invoke ID by which it
/// asks, and that issue names the instance of the device.
pub fn heard_is_the_last_issue<P: HasProtocol<S, Q, R, T>, S, Q, R, T>()
    ensures { Always P.protocol (λ s w. ExecutesWhatIsIssued P.protocol s w) }
{}

/// Each open transaction, and each outcome, is of the last issue of its client under its invoke ID, which has its
/// request and names the instance of the station addressed. A reply that is given is that of an execution of it.
pub fn outcomes_are_of_an_issue<P: HasProtocol<S, Q, R, T>, S, Q, R, T>()
    ensures opened { Always P.protocol (λ s w. TransactionsAreOfIssues P.protocol s w) }
    ensures closed { Always P.protocol (λ s w. OutcomesAreOfIssues P.protocol s w) }
{}

/// Nothing that was said is taken back.
pub fn said_stays_said<P: HasProtocol<S, Q, R, T>, S, Q, R, T>()
    ensures { SaidStaysSaid P.protocol }
{}

/// Each request that was gathered is the whole body of one issue, each gathered answer the whole of one execution's.
pub fn whole_bodies<P: HasProtocol<S, Q, R, T>, S, Q, R, T>()
    ensures requests { Always P.protocol (λ s w. RequestsAreWhole P.protocol s w) }
    ensures answers { Always P.protocol (λ s w. AnswersAreWhole P.protocol s w) }
{}

/// Lists of happenings one after another are one list, and an honest one if each is.
pub fn runs_compose<P: HasProtocol<S, Q, R, T>, S, Q, R, T>()
    ensures one { RunsCompose P.protocol }
    ensures honest { HonestRunsCompose P.protocol }
{}
