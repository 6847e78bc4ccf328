//! A line of a script in words, which are parted by single spaces.

ghost use Rattle.std.specs.Prelude.{◌≡◌, ◌⊎◌, IfErr, IfOk};
ghost use Rattle.words.specs.Quoted.{NoQuoted, SaysQuoted};
ghost use Rattle.script.specs.Steps.{IsFit, IsFitStep, SaysHear, SaysHeard, SaysIssue, SaysLimits, SaysName, SaysStep};
ghost use Rattle.script.specs.Steps.{SaysWhoIs};
ghost use Rattle.script.specs.NoSteps.{IsRefused, NoHear, NoHeard, NoIssue, NoLimits, NoName, NoWhoIs, SaysUnfit};
ghost use Rattle.script.specs.NoSteps.{SaysUnfitIssue};

use crate::step::Step;
use apdu::Limits;
use expectations::parse_expectation;
use network_faults::{NetworkFault, parse_delay, parse_lose, parse_message};
use primitives::Request;
use site_events::Event;
use site_parts::is_name;
use std::alloc::Allocator;
use tags::{Items, Octets};
use words::{Unread, parse_hex, parse_quoted_request, parse_u16, parse_u32, parse_u64};

/// The step that a line asks for, as `issue c 10 read 5:1 85`,
/// `issue c 10 write binary-value,1 present-value active`, `whois c`, `whois c 5 20`, `tick 1000`, `wake c`,
/// `deliver 2`, `hear 2 r 55 FF 00 10 05`, `hear 2 r -`, `register f`, `restart d`, `flow 50`, `lose answer 3`,
/// `repeat answer 3`, `delay answer 3 700`, `damage answer 3`, `expect answered 3 done within 2000`,
/// `expect value ahu1 integer-value,1 present-value = 21` or `state ahu1`.
///
/// # Errors
/// `Memory`, `Value` for a write of no value or of several, `Sound` for a request without a spelling, or what is
/// missing of the words.
#[tactic(auto, using(crate::proofs::StepLaws::step_laws))]
pub fn step_of<A: Allocator + Copy>(alloc: A, line: &str) -> Result<Step<A>, Unread>
    ensures read { IfOk result (SaysStep line.now) }
    ensures fit { IfOk result IsFitStep }
    ensures refused { IfErr result (IsRefused A line.now) }
{
    let Some((order, words)) = line.split_once(' ') else {
        return Err(Unread::Step);
    };
    let event = match order {
        "flow" => return Ok(Step::Flow(parse_u64(words)?)),
        "issue" => {
            let (client, instance, request) = issue(alloc, words)?;
            Event::Issue {
                client,
                instance,
                request,
            }
        }
        "whois" => {
            let (client, limits) = who_is(alloc, words)?;
            Event::WhoIs { client, limits }
        }
        "hear" => {
            let (network, station, octets) = hear(alloc, words)?;
            Event::Hear {
                network,
                station,
                octets,
            }
        }
        "tick" => Event::Tick(parse_u64(words)?),
        "deliver" => Event::Deliver(parse_u64(words)?),
        "wake" => Event::Wake(name(alloc, words)?),
        "register" => Event::Register(name(alloc, words)?),
        "restart" => Event::Restart(name(alloc, words)?),
        "lose" => return Ok(Step::Disturbs(parse_lose(alloc, words)?)),
        "repeat" => return Ok(Step::Disturbs(NetworkFault::Repeat(parse_message(words)?))),
        "delay" => {
            let (message, ms) = parse_delay(words)?;
            return Ok(Step::Disturbs(NetworkFault::Delay { message, ms }));
        }
        "damage" => return Ok(Step::Disturbs(NetworkFault::Damage(parse_message(words)?))),
        "expect" => return Ok(Step::Expects(parse_expectation(alloc, words)?)),
        "state" => return Ok(Step::Shows(name(alloc, words)?)),
        _ => return Err(Unread::Step),
    };
    Ok(Step::Happens(event))
}

/// A client, an instance and a request, as `c 10 read 5:1 85`.
#[tactic(auto, using(crate::proofs::StepLaws::issue_laws))]
fn issue<A: Allocator + Copy>(alloc: A, words: &str) -> Result<(Octets<A>, u32, Request<A>), Unread>
    ensures read { IfOk result (λ x. SaysIssue words.now x.0 x.1 x.2) }
    ensures fit { IfOk result (λ x. IsFit x.2) }
    ensures refused { IfErr result (λ e. (e ≡ Unread.Memory) ⊎ NoIssue A words.now ⊎
        SaysUnfitIssue A words.now) }
{
    let Some((client, rest)) = words.split_once(' ') else {
        return Err(Unread::Step);
    };
    let Some((instance, request)) = rest.split_once(' ') else {
        return Err(Unread::Step);
    };
    let client = name(alloc, client)?;
    let instance = parse_u32(instance)?;
    let request = fit_request(alloc, request)?;
    Ok((client, instance, request))
}

/// A request with a spelling, and with one value for each write.
#[tactic(auto, using(crate::proofs::StepLaws::request_laws))]
fn fit_request<A: Allocator + Copy>(alloc: A, words: &str) -> Result<Request<A>, Unread>
    ensures read { IfOk result (SaysQuoted words.now) }
    ensures fit { IfOk result IsFit }
    ensures refused { IfErr result (λ e. (e ≡ Unread.Memory) ⊎ NoQuoted A words.now ⊎ SaysUnfit A words.now) }
{
    parse_quoted_request(alloc, words)
}

/// A client, or a client and limits, as `c 5 20`.
#[tactic(auto, using(crate::proofs::StepLaws::who_is_laws))]
fn who_is<A: Allocator + Copy>(alloc: A, words: &str) -> Result<(Octets<A>, Option<Limits>), Unread>
    ensures read { IfOk result (λ x. SaysWhoIs words.now x.0 x.1) }
    ensures refused { IfErr result (λ e. (e ≡ Unread.Memory) ⊎ NoWhoIs words.now) }
{
    let Some((client, rest)) = words.split_once(' ') else {
        let client = name(alloc, words)?;
        return Ok((client, None));
    };
    let client = name(alloc, client)?;
    let limits = limits(rest)?;
    Ok((client, Some(limits)))
}

/// The least instance and the greatest, as `5 20`.
#[tactic(auto, using(crate::proofs::StepLaws::limits_laws))]
fn limits(words: &str) -> Result<Limits, Unread>
    ensures read { IfOk result (SaysLimits words.now) }
    ensures refused { IfErr result (λ e. NoLimits words.now) }
{
    let Some((low, high)) = words.split_once(' ') else {
        return Err(Unread::Step);
    };
    let low = parse_u32(low)?;
    let high = parse_u32(high)?;
    Ok(Limits { low, high })
}

/// A network, a station and what it hears there, as `2 r 55 FF 00 10 05`.
#[tactic(auto, using(crate::proofs::StepLaws::hear_laws))]
fn hear<A: Allocator + Copy>(alloc: A, words: &str) -> Result<(u16, Octets<A>, Octets<A>), Unread>
    ensures read { IfOk result (λ x. SaysHear words.now x.0 x.1 x.2) }
    ensures refused { IfErr result (λ e. (e ≡ Unread.Memory) ⊎ NoHear words.now) }
{
    let Some((network, rest)) = words.split_once(' ') else {
        return Err(Unread::Step);
    };
    let Some((station, heard)) = rest.split_once(' ') else {
        return Err(Unread::Step);
    };
    let network = parse_u16(network)?;
    let station = name(alloc, station)?;
    let octets = octets(alloc, heard)?;
    Ok((network, station, octets))
}

/// Octets as pairs of hexadecimal digits, or `-` for a silence.
#[tactic(auto, using(crate::proofs::StepLaws::heard_laws))]
fn octets<A: Allocator + Copy>(alloc: A, words: &str) -> Result<Octets<A>, Unread>
    ensures read { IfOk result (SaysHeard words.now) }
    ensures refused { IfErr result (λ e. (e ≡ Unread.Memory) ⊎ NoHeard words.now) }
{
    if words == "-" {
        return Ok(Items::new(alloc));
    }
    let octets = parse_hex(alloc, words.as_bytes())?;
    Ok(octets)
}

/// The name of a station: 1 to 32 letters and digits.
#[tactic(auto, using(crate::proofs::StepLaws::name_laws))]
fn name<A: Allocator + Copy>(alloc: A, word: &str) -> Result<Octets<A>, Unread>
    ensures read { IfOk result (SaysName word.now) }
    ensures refused { IfErr result (λ e. (e ≡ Unread.Memory) ⊎ NoName word.now) }
{
    if !is_name(word.as_bytes()) {
        return Err(Unread::Name);
    }
    let name = Items::from_slice(alloc, word.as_bytes())?;
    Ok(name)
}
