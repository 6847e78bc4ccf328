//! A fault in words, which are parted by single spaces.

ghost use Rattle.std.specs.Prelude.{◌≡◌, ◌⊎◌, IfErr, IfOk};
ghost use Rattle.network_faults.specs.Says.{SaysDelay, SaysFor, SaysIssue, SaysLose, SaysMessage, SaysOn, SaysSeveral};
ghost use Rattle.network_faults.specs.Says.{SaysSome, SaysStation, SaysTo, which_word};
ghost use Rattle.network_faults.specs.Unsaid.{IsNoWhich, NoDelay, NoFor, NoIssue, NoLose, NoMessage, NoOn, NoSeveral};
ghost use Rattle.network_faults.specs.Unsaid.{NoSome, NoStation, NoTo};

use crate::fault::{FaultyMessage, IssueRef, NetworkFault};
use last_hop::RequestOrAnswer;
use profile::LIFE_MS;
use site_parts::is_name;
use std::alloc::Allocator;
use tags::{Items, Octets};
use words::{Unread, parse_u16, parse_u64};

/// The message that words name, as `request 3`, `answer 0` or `answer last`.
///
/// # Errors
/// What is missing of the words.
#[tactic(auto, using(crate::proofs::SaysLaws::message_laws))]
pub fn parse_message(words: &str) -> Result<FaultyMessage, Unread>
    ensures read { IfOk result (SaysMessage words.now) }
    ensures refused { IfErr result (λ e. NoMessage words.now) }
{
    let Some((which, issue)) = words.split_once(' ') else {
        return Err(Unread::Step);
    };
    let which = parse_which(which)?;
    let issue = parse_issue(issue)?;
    Ok(FaultyMessage { which, issue })
}

/// `request` or `answer`.
#[tactic(auto, using(crate::proofs::SaysLaws::which_laws))]
fn parse_which(word: &str) -> Result<RequestOrAnswer, Unread>
    ensures read { IfOk result (λ which. word.now ≡ which_word which) }
    ensures refused { IfErr result (λ e. IsNoWhich word.now) }
{
    match word {
        "request" => Ok(RequestOrAnswer::Request),
        "answer" => Ok(RequestOrAnswer::Answer),
        _ => Err(Unread::Step),
    }
}

/// The issue that a word names: its number in the history, or `last`.
///
/// # Errors
/// `Number` for any other word.
#[tactic(auto, using(crate::proofs::SaysLaws::issue_laws))]
pub fn parse_issue(word: &str) -> Result<IssueRef, Unread>
    ensures read { IfOk result (SaysIssue word.now) }
    ensures refused { IfErr result (λ e. NoIssue word.now) }
{
    if word == "last" {
        return Ok(IssueRef::Last);
    }
    let number = parse_u64(word)?;
    Ok(IssueRef::Number(number))
}

/// A number that isn't 0.
#[tactic(auto, using(crate::proofs::SaysLaws::some_laws))]
fn parse_some(word: &str) -> Result<u64, Unread>
    ensures read { IfOk result (SaysSome word.now) }
    ensures refused { IfErr result (λ e. NoSome word.now) }
{
    let number = parse_u64(word)?;
    if number == 0 {
        return Err(Unread::Number);
    }
    Ok(number)
}

/// What comes late, and by how many milliseconds, as `answer 3 700`.
///
/// # Errors
/// What is missing of the words.
#[tactic(auto, using(crate::proofs::SaysLaws::delay_laws))]
pub fn parse_delay(words: &str) -> Result<(FaultyMessage, u64), Unread>
    ensures read { IfOk result (λ x. SaysDelay words.now x.0 x.1) }
    ensures refused { IfErr result (λ e. NoDelay words.now) }
{
    let Some((which, rest)) = words.split_once(' ') else {
        return Err(Unread::Step);
    };
    let Some((issue, ms)) = rest.split_once(' ') else {
        return Err(Unread::Step);
    };
    let which = parse_which(which)?;
    let issue = parse_issue(issue)?;
    let ms = parse_some(ms)?;
    if ms > LIFE_MS {
        return Err(Unread::Number);
    }
    Ok((FaultyMessage { which, issue }, ms))
}

/// How many sendings of which message, as `3 answer 1`.
#[tactic(auto, using(crate::proofs::SaysLaws::several_laws))]
fn parse_several(words: &str) -> Result<(u64, FaultyMessage), Unread>
    ensures read { IfOk result (λ x. SaysSeveral words.now x.0 x.1) }
    ensures refused { IfErr result (λ e. NoSeveral words.now) }
{
    let Some((count, message)) = words.split_once(' ') else {
        return Err(Unread::Step);
    };
    let count = parse_some(count)?;
    let message = parse_message(message)?;
    Ok((count, message))
}

/// For how many milliseconds, as `for 2000`.
#[tactic(auto, using(crate::proofs::SaysLaws::for_laws))]
fn parse_for(words: &str) -> Result<u64, Unread>
    ensures read { IfOk result (SaysFor words.now) }
    ensures refused { IfErr result (λ e. NoFor words.now) }
{
    let Some((word, ms)) = words.split_once(' ') else {
        return Err(Unread::Step);
    };
    if word != "for" {
        return Err(Unread::Step);
    }
    let ms = parse_some(ms)?;
    Ok(ms)
}

/// The name of a station that a word is: 1 to 32 letters and digits.
///
/// # Errors
/// `Memory`, or `Name` for any other word.
#[tactic(auto, using(crate::proofs::SaysLaws::station_laws))]
pub fn parse_station<A: Allocator + Copy>(alloc: A, word: &str) -> Result<Octets<A>, Unread>
    ensures read { IfOk result (SaysStation word.now) }
    ensures refused { IfErr result (λ e. (e ≡ Unread.Memory) ⊎ NoStation word.now) }
{
    if !is_name(word.as_bytes()) {
        return Err(Unread::Name);
    }
    let name = Items::from_slice(alloc, word.as_bytes())?;
    Ok(name)
}

/// A station and for how many milliseconds, as `to ahu1 for 2000`.
#[tactic(auto, using(crate::proofs::SaysLaws::to_laws))]
fn parse_to<A: Allocator + Copy>(alloc: A, words: &str) -> Result<(Octets<A>, u64), Unread>
    ensures read { IfOk result (λ x. SaysTo words.now x.0 x.1) }
    ensures refused { IfErr result (λ e. (e ≡ Unread.Memory) ⊎ NoTo words.now) }
{
    let Some((word, rest)) = words.split_once(' ') else {
        return Err(Unread::Step);
    };
    if word != "to" {
        return Err(Unread::Step);
    }
    let Some((station, time)) = rest.split_once(' ') else {
        return Err(Unread::Step);
    };
    let ms = parse_for(time)?;
    let station = parse_station(alloc, station)?;
    Ok((station, ms))
}

/// A network and for how many milliseconds, as `on 5 for 2000`.
#[tactic(auto, using(crate::proofs::SaysLaws::on_laws))]
fn parse_on(words: &str) -> Result<(u16, u64), Unread>
    ensures read { IfOk result (λ x. SaysOn words.now x.0 x.1) }
    ensures refused { IfErr result (λ e. NoOn words.now) }
{
    let Some((word, rest)) = words.split_once(' ') else {
        return Err(Unread::Step);
    };
    if word != "on" {
        return Err(Unread::Step);
    }
    let Some((network, time)) = rest.split_once(' ') else {
        return Err(Unread::Step);
    };
    let network = parse_u16(network)?;
    let ms = parse_for(time)?;
    Ok((network, ms))
}

/// What is lost, as `answer 3`, `3 answer 1`, `to ahu1 for 2000` or `on 5 for 2000`.
///
/// # Errors
/// `Memory`, or what is missing of the words.
#[tactic(auto, using(crate::proofs::SaysLaws::lose_laws))]
pub fn parse_lose<A: Allocator + Copy>(alloc: A, words: &str) -> Result<NetworkFault<A>, Unread>
    ensures read { IfOk result (SaysLose words.now) }
    ensures refused { IfErr result (λ e. (e ≡ Unread.Memory) ⊎ NoLose A words.now) }
{
    if let Ok(message) = parse_message(words) {
        return Ok(NetworkFault::Lose { count: 1, message });
    }
    if let Ok((count, message)) = parse_several(words) {
        return Ok(NetworkFault::Lose { count, message });
    }
    if let Ok((network, ms)) = parse_on(words) {
        return Ok(NetworkFault::LoseOn { network, ms });
    }
    let (station, ms) = parse_to(alloc, words)?;
    Ok(NetworkFault::LoseTo { station, ms })
}
