//! What a property is expected to read, as `ahu1 45:1 85 = 21` or `ahu1 5:1 85 = enum active`.

ghost use Rattle.std.specs.Prelude.{◌≡◌, ◌⊎◌, IfErr, IfOk};
ghost use Rattle.expectations.specs.Values.{NoExpectedValue, NoReads, NoWhole, SaysExpectedValue, SaysReads, SaysWhole};

use crate::error::parse_place;
use crate::expectation::ExpectedValue;
use crate::parts::cut_first;
use network_faults::parse_station;
use primitives::PropertyReference;
use std::alloc::Allocator;
use tags::{ObjectId, Octets};
use words::{Unread, parse_number, parse_values};

/// The name of a device, a property of an object of it, and what that reads.
#[tactic(auto, using(crate::proofs::ValueLaws::reads_laws))]
pub(crate) fn parse_reads<A: Allocator + Copy>(
    alloc: A,
    words: &str,
) -> Result<(Octets<A>, ObjectId, PropertyReference, ExpectedValue<A>), Unread>
    ensures read { IfOk result (λ x. SaysReads words.now x.0 x.1 x.2 x.3) }
    ensures refused { IfErr result (λ e. (e ≡ Unread.Memory) ⊎ NoReads A words.now) }
{
    let (front, given) = cut_first(words, " = ");
    let Some(given) = given else {
        return Err(Unread::Step);
    };
    let Some((station, place)) = front.split_once(' ') else {
        return Err(Unread::Step);
    };
    let (object, property) = parse_place(place)?;
    let station = parse_station(alloc, station)?;
    let value = parse_value(alloc, given)?;
    Ok((station, object, property, value))
}

/// A number by itself, or values, one at least.
#[tactic(auto, using(crate::proofs::ValueLaws::value_laws))]
fn parse_value<A: Allocator + Copy>(alloc: A, words: &str) -> Result<ExpectedValue<A>, Unread>
    ensures read { IfOk result (SaysExpectedValue words.now) }
    ensures refused { IfErr result (λ e. (e ≡ Unread.Memory) ⊎ NoExpectedValue A words.now) }
{
    if words.is_empty() {
        return Err(Unread::Value);
    }
    match parse_whole(words) {
        Ok(number) => Ok(ExpectedValue::Number(number)),
        Err(_) => {
            let values = parse_values(alloc, words)?;
            Ok(ExpectedValue::Values(values))
        }
    }
}

/// A whole number, behind a `-` or not.
fn parse_whole(word: &str) -> Result<i64, Unread>
    ensures read { IfOk result (SaysWhole word.now) }
    ensures refused { IfErr result (λ e. (e ≡ Unread.Number) × NoWhole word.now) }
{
    parse_number(word)
}
