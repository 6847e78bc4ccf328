//! How a request is expected to end: an answer, as `done` or `error property write-access-denied`; or why there is
//! none, as `timedout`, `rejected 9` or `aborted buffer-overflow`.

ghost use Rattle.std.specs.Prelude.{◌≡◌, ◌⊎◌, IfErr, IfOk, map, option_map};
ghost use Rattle.expectations.specs.Outcomes.{NoCause, NoEnd, NoEndIfAny, NoExpectedReply, NoReason, NoReasonIfAny};
ghost use Rattle.expectations.specs.Outcomes.{NoReplyIfAny, NoReplyNames, SaysCause, SaysEnd, SaysEndIfAny};
ghost use Rattle.expectations.specs.Outcomes.{SaysExpectedReply, SaysReason, SaysReasonIfAny, SaysReplyIfAny};
ghost use Rattle.expectations.specs.Outcomes.{SaysReplyNames};
ghost use Rattle.names.specs.Tables.{row_of};
ghost use Rattle.words.specs.Says.{SaysUnsigned};
ghost use Rattle.words.specs.Unsaid.{NoUnsigned};

use crate::error::parse_error_names;
use crate::expectation::ExpectedEnd;
use crate::parts::cut_first;
use names::{Row, number_in};
use primitives::Reply;
use std::alloc::Allocator;
use words::{Unread, abort_reasons, parse_any_reply, parse_number, reject_reasons};

/// The answer that words say, if there are words.
#[tactic(auto, using(crate::proofs::OutcomeLaws::reply_if_any_laws))]
pub(crate) fn parse_reply_if_any<A: Allocator + Copy>(
    alloc: A,
    words: Option<&str>,
) -> Result<Option<Reply<A>>, Unread>
    ensures read { IfOk result (SaysReplyIfAny (option_map (λ w. w.now) words.entry)) }
    ensures refused { IfErr result (λ e. (e ≡ Unread.Memory) ⊎ NoReplyIfAny A (option_map (λ w. w.now) words.entry)) }
{
    match words {
        None => Ok(None),
        Some(words) => {
            let reply = parse_reply(alloc, words)?;
            Ok(Some(reply))
        }
    }
}

/// The answer that words say, an error by its numbers or its names.
#[tactic(auto, using(crate::proofs::OutcomeLaws::reply_laws))]
fn parse_reply<A: Allocator + Copy>(alloc: A, words: &str) -> Result<Reply<A>, Unread>
    ensures read { IfOk result (SaysExpectedReply words.now) }
    ensures refused { IfErr result (λ e. (e ≡ Unread.Memory) ⊎ NoExpectedReply A words.now) }
{
    match parse_reply_names(words) {
        Ok(reply) => Ok(reply),
        Err(_) => {
            let reply = parse_any_reply(alloc, words)?;
            Ok(reply)
        }
    }
}

/// An error by its names, as `error property write-access-denied`.
#[tactic(auto, using(crate::proofs::OutcomeLaws::reply_names_laws))]
fn parse_reply_names<A: Allocator>(words: &str) -> Result<Reply<A>, Unread>
    ensures read { IfOk result (SaysReplyNames words.now) }
    ensures refused { IfErr result (λ e. NoReplyNames A words.now) }
{
    let Some((kind, rest)) = words.split_once(' ') else {
        return Err(Unread::Reply);
    };
    if kind != "error" {
        return Err(Unread::Reply);
    }
    let reply = parse_error_names(rest)?;
    Ok(reply)
}

/// The cause that words say, if there are words.
#[tactic(auto, using(crate::proofs::OutcomeLaws::end_if_any_laws))]
pub(crate) fn parse_end_if_any(words: Option<&str>) -> Result<Option<ExpectedEnd>, Unread>
    ensures read { IfOk result (SaysEndIfAny (option_map (λ w. w.now) words.entry)) }
    ensures refused { IfErr result (λ e. NoEndIfAny (option_map (λ w. w.now) words.entry)) }
{
    match words {
        None => Ok(None),
        Some(words) => {
            let end = parse_end(words)?;
            Ok(Some(end))
        }
    }
}

/// Why a request ends with no answer, as `timedout`, `rejected` or `aborted 4`.
#[tactic(auto, using(crate::proofs::OutcomeLaws::end_laws))]
fn parse_end(words: &str) -> Result<ExpectedEnd, Unread>
    ensures read { IfOk result (SaysEnd words.now) }
    ensures refused { IfErr result (λ e. NoEnd words.now) }
{
    let (word, reason) = cut_first(words, " ");
    parse_cause(word, reason)
}

/// The cause of a word, and the reason that may stand behind it.
#[tactic(auto, using(crate::proofs::OutcomeLaws::cause_laws))]
fn parse_cause(word: &str, reason: Option<&str>) -> Result<ExpectedEnd, Unread>
    ensures read { IfOk result (SaysCause word.now (option_map (λ w. w.now) reason.entry)) }
    ensures refused { IfErr result (λ e. NoCause word.now (option_map (λ w. w.now) reason.entry)) }
{
    match word {
        "timedout" => match reason {
            None => Ok(ExpectedEnd::TimedOut),
            Some(_) => Err(Unread::Step),
        },
        "rejected" => {
            let reason = parse_reason_if_any(reject_reasons(), reason)?;
            Ok(ExpectedEnd::Rejected(reason))
        }
        "aborted" => {
            let reason = parse_reason_if_any(abort_reasons(), reason)?;
            Ok(ExpectedEnd::Aborted(reason))
        }
        _ => Err(Unread::Step),
    }
}

/// The reason that a word says, if there is one.
#[tactic(auto, using(crate::proofs::OutcomeLaws::reason_if_any_laws))]
fn parse_reason_if_any(table: &[Row], word: Option<&str>) -> Result<Option<u8>, Unread>
    ensures read { IfOk result (SaysReasonIfAny (map row_of table.now) (option_map (λ w. w.now) word.entry)) }
    ensures refused { IfErr result (λ e. NoReasonIfAny (map row_of table.now) (option_map (λ w. w.now) word.entry)) }
{
    match word {
        None => Ok(None),
        Some(word) => {
            let reason = parse_reason(table, word)?;
            Ok(Some(reason))
        }
    }
}

/// A reason by its number, or by its name in a table.
#[tactic(auto, using(crate::proofs::OutcomeLaws::reason_laws))]
fn parse_reason(table: &[Row], word: &str) -> Result<u8, Unread>
    ensures read { IfOk result (SaysReason (map row_of table.now) word.now) }
    ensures refused { IfErr result (λ e. NoReason (map row_of table.now) word.now) }
{
    if let Ok(reason) = parse_u8(word) {
        return Ok(reason);
    }
    let Some(number) = number_in(table, word) else {
        return Err(Unread::Number);
    };
    match u8::try_from(number) {
        Ok(reason) => Ok(reason),
        Err(_) => Err(Unread::Number),
    }
}

/// A number of 8 bits.
fn parse_u8(word: &str) -> Result<u8, Unread>
    ensures read { IfOk result (SaysUnsigned 8 word.now) }
    ensures refused { IfErr result (λ e. (e ≡ Unread.Number) × NoUnsigned 8 word.now) }
{
    parse_number(word)
}
