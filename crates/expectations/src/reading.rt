//! An expectation in words, which are parted by single spaces; texts may stand in quotes.

ghost use Rattle.std.specs.Prelude.{◌≡◌, ◌⊎◌, IfErr, IfOk, OnOk, option_map};
ghost use Rattle.expectations.specs.Says.{IsRefused, SaysAnswered, SaysEnded, SaysExecuted, SaysExpectation, SaysPlain};
ghost use Rattle.expectations.specs.Says.{SaysTimes, SaysWithin};
ghost use Rattle.expectations.specs.Unsaid.{IsNoRefused, IsNoTimes, NoAnswered, NoEnded, NoExecuted, NoExpectation};
ghost use Rattle.expectations.specs.Unsaid.{NoPlain, NoWithin};

use crate::expectation::{Expectation, ExpectedEnd, Outcome, Times};
use crate::outcome::{parse_end_if_any, parse_reply_if_any};
use crate::parts::cut_first;
use crate::value::parse_reads;
use network_faults::{IssueRef, parse_issue};
use primitives::Reply;
use std::alloc::Allocator;
use words::{Unread, parse_u64, unquoted};

/// What words expect, as `answered 3 done`, `answered last values text "on" within 2000`, `ended 3 timedout`,
/// `executed 3 once`, `value ahu1 45:1 85 = 21` or `none refused`.
///
/// # Errors
/// `Memory`, or what is missing of the words.
#[tactic(auto, using(crate::proofs::QuotedLaws::quoted_laws))]
pub fn parse_expectation<A: Allocator + Copy>(
    alloc: A,
    words: &str,
) -> Result<Expectation<A>, Unread>
    ensures read { IfOk result (SaysExpectation words.now) }
    ensures refused { IfErr result (λ e. (e ≡ Unread.Memory) ⊎ NoExpectation A words.now) }
{
    let Some(plain) = unquoted(alloc, words)? else {
        return Err(Unread::Step);
    };
    let Ok(plain) = std::str::from_utf8(plain.as_slice()) else {
        return Err(Unread::Step);
    };
    parse_plain(alloc, plain)
}

/// What words without quotes expect.
#[tactic(auto, using(crate::proofs::KindLaws::kind_laws))]
fn parse_plain<A: Allocator + Copy>(alloc: A, words: &str) -> Result<Expectation<A>, Unread>
    ensures read { IfOk result (SaysPlain words.now) }
    ensures refused { IfErr result (λ e. (e ≡ Unread.Memory) ⊎ NoPlain A words.now) }
{
    let Some((kind, rest)) = words.split_once(' ') else {
        return Err(Unread::Step);
    };
    match kind {
        "answered" => {
            let (issue, reply, within) = parse_answered(alloc, rest)?;
            let outcome = Outcome::Answered(reply);
            Ok(Expectation::Closed {
                issue,
                outcome,
                within,
            })
        }
        "ended" => {
            let (issue, end, within) = parse_ended(rest)?;
            let outcome = Outcome::Ended(end);
            Ok(Expectation::Closed {
                issue,
                outcome,
                within,
            })
        }
        "executed" => {
            let (issue, times) = parse_executed(rest)?;
            Ok(Expectation::Executed { issue, times })
        }
        "value" => {
            let (station, object, property, value) = parse_reads(alloc, rest)?;
            Ok(Expectation::Reads {
                station,
                object,
                property,
                value,
            })
        }
        "none" => {
            parse_refused(rest)?;
            Ok(Expectation::NoneRefused)
        }
        _ => Err(Unread::Step),
    }
}

/// A request, its answer if that is said, and within how many milliseconds it comes, as `3 done within 2000`.
#[tactic(auto, using(crate::proofs::SaysLaws::answered_laws))]
fn parse_answered<A: Allocator + Copy>(
    alloc: A,
    words: &str,
) -> Result<(IssueRef, Option<Reply<A>>, Option<u64>), Unread>
    ensures read { IfOk result (λ x. SaysAnswered words.now x.0 x.1 x.2) }
    ensures refused { IfErr result (λ e. (e ≡ Unread.Memory) ⊎ NoAnswered A words.now) }
{
    let (front, time) = cut_first(words, " within ");
    let within = parse_within(time)?;
    let (issue, reply) = cut_first(front, " ");
    let issue = parse_issue(issue)?;
    let reply = parse_reply_if_any(alloc, reply)?;
    Ok((issue, reply, within))
}

/// A request, why it has no answer if that is said, and within how many milliseconds it ends, as
/// `3 timedout within 12000`.
#[tactic(auto, using(crate::proofs::SaysLaws::ended_laws))]
fn parse_ended(words: &str) -> Result<(IssueRef, Option<ExpectedEnd>, Option<u64>), Unread>
    ensures read { IfOk result (λ x. SaysEnded words.now x.0 x.1 x.2) }
    ensures refused { IfErr result (λ e. NoEnded words.now) }
{
    let (front, time) = cut_first(words, " within ");
    let within = parse_within(time)?;
    let (issue, end) = cut_first(front, " ");
    let issue = parse_issue(issue)?;
    let end = parse_end_if_any(end)?;
    Ok((issue, end, within))
}

/// The number of milliseconds that a word says, if there is one.
#[tactic(auto, using(crate::proofs::SaysLaws::within_laws))]
fn parse_within(time: Option<&str>) -> Result<Option<u64>, Unread>
    ensures read { IfOk result (SaysWithin (option_map (λ w. w.now) time.entry)) }
    ensures refused { IfErr result (λ e. NoWithin (option_map (λ w. w.now) time.entry)) }
{
    match time {
        Some(word) => Ok(Some(parse_u64(word)?)),
        None => Ok(None),
    }
}

/// A request, and how often it is executed, as `3 once`.
#[tactic(auto, using(crate::proofs::SaysLaws::executed_laws))]
fn parse_executed(words: &str) -> Result<(IssueRef, Times), Unread>
    ensures read { IfOk result (λ x. SaysExecuted words.now x.0 x.1) }
    ensures refused { IfErr result (λ e. NoExecuted words.now) }
{
    let Some((issue, times)) = words.split_once(' ') else {
        return Err(Unread::Step);
    };
    let issue = parse_issue(issue)?;
    let times = parse_times(times)?;
    Ok((issue, times))
}

/// `once` or `never`.
#[tactic(auto, using(crate::proofs::SaysLaws::times_laws))]
fn parse_times(word: &str) -> Result<Times, Unread>
    ensures read { IfOk result (SaysTimes word.now) }
    ensures refused { IfErr result (λ e. IsNoTimes word.now) }
{
    match word {
        "once" => Ok(Times::Once),
        "never" => Ok(Times::Never),
        _ => Err(Unread::Step),
    }
}

/// `refused`, behind `none`.
#[tactic(auto, using(crate::proofs::SaysLaws::refused_laws))]
fn parse_refused(word: &str) -> Result<(), Unread>
    ensures read { OnOk result (IsRefused word.now) }
    ensures refused { IfErr result (λ e. IsNoRefused word.now) }
{
    if word != "refused" {
        return Err(Unread::Step);
    }
    Ok(())
}
