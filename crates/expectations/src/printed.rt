//! The words of an expectation, as a script has them, with the standard's names.

ghost use Rattle.std.specs.Prelude.{Some, map};
ghost use Rattle.std.specs.Fmt.{WritesOnOk};
ghost use Rattle.expectations.specs.Printed.{cause_text, end_part, expectation_text, outcome_text, reason_part};
ghost use Rattle.expectations.specs.Printed.{reply_part, value_text, within_part};
ghost use Rattle.names.specs.Tables.{row_of};

use crate::expectation::{Expectation, ExpectedEnd, ExpectedValue, Outcome, Times};
use names::Row;
use network_faults::{IssueRef, StationName};
use primitives::Reply;
use std::alloc::Allocator;
use std::fmt;
use words::{Named, Spelled, Spelling, Words, abort_reasons, reject_reasons};

impl<A: Allocator> fmt::Display for Expectation<A> {
    ghost output = { λ e. Some (expectation_text e) };

    #[tactic(auto, unfolding(crate::specs::Printed::expectation_text))]
    fn fmt<W: fmt::Write>(&self, f: &mut fmt::Formatter<W>) -> fmt::Result {
        match self {
            Expectation::Closed {
                issue,
                outcome,
                within,
            } => {
                f.write_str("expect ")?;
                fmt_outcome(*issue, outcome, f)?;
                fmt_within(*within, f)
            }
            Expectation::Executed { issue, times } => {
                let times = match times {
                    Times::Once => "once",
                    Times::Never => "never",
                };
                write!(f, "expect executed {issue} {times}")
            }
            Expectation::Reads {
                station,
                object,
                property,
                value,
            } => {
                let station = StationName(station.as_slice());
                let object = Spelled {
                    spelling: Spelling::Names,
                    what: object,
                };
                let property = Spelled {
                    spelling: Spelling::Names,
                    what: property,
                };
                write!(f, "expect value {station} {object} {property} = {value}")
            }
            Expectation::NoneRefused => f.write_str("expect none refused"),
        }
    }
}

/// Prints how a request ends.
#[tactic(auto, unfolding(crate::specs::Printed::outcome_text))]
fn fmt_outcome<A: Allocator, W: fmt::Write>(
    issue: IssueRef,
    outcome: &Outcome<A>,
    f: &mut fmt::Formatter<W>,
) -> fmt::Result
    ensures { WritesOnOk W.write_str_gives f.old result (outcome_text issue outcome.now) f.new }
{
    match outcome {
        Outcome::Answered(reply) => {
            write!(f, "answered {issue}")?;
            fmt_reply(reply, f)
        }
        Outcome::Ended(end) => {
            write!(f, "ended {issue}")?;
            fmt_end(*end, f)
        }
    }
}

/// Prints an answer behind a space, where there is one.
#[tactic(auto, unfolding(crate::specs::Printed::reply_part))]
fn fmt_reply<A: Allocator, W: fmt::Write>(
    reply: &Option<Reply<A>>,
    f: &mut fmt::Formatter<W>,
) -> fmt::Result
    ensures { WritesOnOk W.write_str_gives f.old result (reply_part reply.now) f.new }
{
    match reply {
        Some(reply) => {
            let reply = Spelled {
                spelling: Spelling::Names,
                what: reply,
            };
            write!(f, " {reply}")
        }
        None => Ok(()),
    }
}

/// Prints why a request has no answer behind a space, where that is said.
#[tactic(auto, unfolding(crate::specs::Printed::end_part))]
fn fmt_end<W: fmt::Write>(end: Option<ExpectedEnd>, f: &mut fmt::Formatter<W>) -> fmt::Result
    ensures { WritesOnOk W.write_str_gives f.old result (end_part end) f.new }
{
    match end {
        Some(end) => {
            f.write_str(" ")?;
            fmt_cause(end, f)
        }
        None => Ok(()),
    }
}

/// Prints why a request has no answer.
#[tactic(auto, unfolding(crate::specs::Printed::cause_text))]
fn fmt_cause<W: fmt::Write>(end: ExpectedEnd, f: &mut fmt::Formatter<W>) -> fmt::Result
    ensures { WritesOnOk W.write_str_gives f.old result (cause_text end) f.new }
{
    match end {
        ExpectedEnd::TimedOut => f.write_str("timedout"),
        ExpectedEnd::Rejected(reason) => {
            f.write_str("rejected")?;
            fmt_reason(reject_reasons(), reason, f)
        }
        ExpectedEnd::Aborted(reason) => {
            f.write_str("aborted")?;
            fmt_reason(abort_reasons(), reason, f)
        }
    }
}

/// Prints a reason behind a space, where there is one.
#[tactic(auto, unfolding(crate::specs::Printed::reason_part))]
fn fmt_reason<W: fmt::Write>(
    table: &[Row],
    reason: Option<u8>,
    f: &mut fmt::Formatter<W>,
) -> fmt::Result
    ensures { WritesOnOk W.write_str_gives f.old result (reason_part (map row_of table.now) reason) f.new }
{
    match reason {
        Some(reason) => {
            let reason = Named {
                spelling: Spelling::Names,
                table,
                number: u32::from(reason),
            };
            write!(f, " {reason}")
        }
        None => Ok(()),
    }
}

/// Prints within how many milliseconds a request ends, where that is said.
#[tactic(auto, unfolding(crate::specs::Printed::within_part))]
fn fmt_within<W: fmt::Write>(within: Option<u64>, f: &mut fmt::Formatter<W>) -> fmt::Result
    ensures { WritesOnOk W.write_str_gives f.old result (within_part within) f.new }
{
    match within {
        Some(ms) => write!(f, " within {ms}"),
        None => Ok(()),
    }
}

impl<A: Allocator> fmt::Display for ExpectedValue<A> {
    ghost output = { λ v. Some (value_text v) };

    #[tactic(auto, unfolding(crate::specs::Printed::value_text))]
    fn fmt<W: fmt::Write>(&self, f: &mut fmt::Formatter<W>) -> fmt::Result {
        match self {
            ExpectedValue::Number(number) => write!(f, "{number}"),
            ExpectedValue::Values(values) => write!(f, "{}", Words(values)),
        }
    }
}
