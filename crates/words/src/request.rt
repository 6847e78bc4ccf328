//! Requests: `read 5:1 85`, `write 45:1 85 signed 20 at 8`, `many 5:1 85,87/17 8:99 76`,
//! `batch 45:1 85 signed 20 at 8; 45:1 28 text -; 5:1 85 null`.

ghost use Rattle.std.specs.Prelude.{◌≡◌, ◌∷◌, ◌++◌, ◌⊎◌, ◌↔◌, [], IfOk, IfErr, OnOk, IsTrue};
ghost use Rattle.std.specs.Prelude.{length, option_map};
ghost use Rattle.std.specs.Bool.{MatchBool};
ghost use Rattle.tags.specs.declared.object_id.ObjectId.{ObjectId};
ghost use Rattle.primitives.specs.Sound.{IsSoundRequest};
ghost use Rattle.words.specs.Requests.{AreGrouped, EndsElsewhere, EndsWith, SaysBatch, SaysObjectWrite, SaysPlace};
ghost use Rattle.words.specs.Requests.{SaysPriority, SaysMany, SaysReferences, SaysRefs, SaysRequest, SaysWrite};
ghost use Rattle.words.specs.Requests.{all_writes, other_refs};
ghost use Rattle.words.specs.NoRequests.{HasSingleValues, HaveSingleValues, AreSingle, NoBatch, NoMany, NoObjectWrite};
ghost use Rattle.words.specs.NoRequests.{NoPlace, NoPriority, NoReferences, NoRefs, NoRequest, NoWrite, SaysSeveral};
ghost use Rattle.words.specs.NoRequests.{SaysUnspelled};

use crate::octets::parse_u8;
use crate::parts::{cut_at, cut_first, cut_last};
use crate::reference::{parse_object, parse_reference};
use crate::unread::Unread;
use crate::value::given_values;
use primitives::{ObjectRefs, ObjectWrites, PropertyReference, PropertyWrite, Request, Values};
use std::alloc::{AllocError, Allocator};
use tags::{Items, ObjectId};

/// The request that words say: each write has one value, neighbouring writes to one object in a
/// `batch` are one group, and the request has a spelling.
///
/// # Errors
/// `Memory`, `Sound` for a request without a spelling, `Value` for a write of no value or of
/// several, or what is missing of the words.
pub fn parse_request<A: Allocator + Copy>(alloc: A, words: &str) -> Result<Request<A>, Unread>
    ensures read { IfOk result (SaysRequest words.now) }
    ensures single { IfOk result HasSingleValues }
    ensures sound { IfOk result IsSoundRequest }
    ensures refused { IfErr result (λ e. (e ≡ Unread.Memory) ⊎ NoRequest A words.now ⊎
        ((e ≡ Unread.Value) × SaysSeveral A words.now) ⊎ ((e ≡ Unread.Sound) × SaysUnspelled A words.now)) }
{
    let request = parse_any_request(alloc, words)?;
    if !has_single_values(&request) {
        return Err(Unread::Value);
    }
    if !request.is_sound() {
        return Err(Unread::Sound);
    }
    Ok(request)
}

/// The request that words say, with a spelling or without, whose writes may have no value, or
/// several that are parted by `, `: for tests of what a device makes of it.
///
/// # Errors
/// `Memory`, or what is missing of the words.
#[tactic(auto, using(crate::proofs::Requests::request_laws))]
pub fn parse_any_request<A: Allocator + Copy>(alloc: A, words: &str) -> Result<Request<A>, Unread>
    ensures read { IfOk result (SaysRequest words.now) }
    ensures refused { IfErr result (λ e. (e ≡ Unread.Memory) ⊎ NoRequest A words.now) }
{
    let Some((verb, rest)) = cut_at(words, ' ') else {
        return Err(Unread::Request);
    };
    match verb {
        "read" => {
            let (object, reference) = place(rest)?;
            Ok(Request::Read {
                object,
                property: reference.property,
                index: reference.index,
            })
        }
        "write" => {
            let (object, write) = object_write(alloc, rest)?;
            Ok(one_write(object, write))
        }
        "many" => Ok(Request::ReadMany(many(alloc, rest)?)),
        "batch" => Ok(Request::WriteMany(batch(alloc, rest)?)),
        _ => Err(Unread::Request),
    }
}

/// Whether each write has one value.
fn has_single_values<A: Allocator>(request: &Request<A>) -> bool
    ensures { IsTrue result ↔ HasSingleValues request.now }
{
    match request {
        Request::Read { .. } | Request::ReadMany(_) => true,
        Request::Write { values, .. } => values.len() == 1,
        Request::WriteMany(groups) => have_single_values(groups.as_slice()),
    }
}

/// Whether each write of the groups has one value.
fn have_single_values<A: Allocator>(groups: &[ObjectWrites<A>]) -> bool
    ensures { IsTrue result ↔ HaveSingleValues groups.now }
{
    let mut left = groups;
    while let [first, rest @ ..] = left {
        if !are_single(first.writes.as_slice()) {
            return false;
        }
        left = rest;
    }
    true
}

/// Whether each of the writes has one value.
fn are_single<A: Allocator>(writes: &[PropertyWrite<A>]) -> bool
    ensures { IsTrue result ↔ AreSingle writes.now }
{
    let mut left = writes;
    while let [first, rest @ ..] = left {
        if first.values.len() != 1 {
            return false;
        }
        left = rest;
    }
    true
}

/// An object, and a property of it or an element of one.
#[tactic(auto, using(crate::proofs::Requests::place_laws))]
fn place(words: &str) -> Result<(ObjectId, PropertyReference), Unread>
    ensures read { IfOk result (λ x. SaysPlace words.now x.0 x.1.property x.1.index) }
    ensures refused { IfErr result (λ e. NoPlace words.now) }
{
    let Some((id, place)) = cut_at(words, ' ') else {
        return Err(Unread::Request);
    };
    Ok((parse_object(id)?, parse_reference(place)?))
}

/// A write without its object, as `85 signed 20 at 8`, `85 at 8` or `85`.
#[tactic(auto, using(crate::proofs::Requests::write_laws))]
fn property_write<A: Allocator + Copy>(alloc: A, words: &str) -> Result<PropertyWrite<A>, Unread>
    ensures read { IfOk result (SaysWrite words.now) }
    ensures refused { IfErr result (λ e. (e ≡ Unread.Memory) ⊎ NoWrite A words.now) }
{
    let (front, level) = cut_last(words, " at ");
    let priority = priority_of(level)?;
    let (place, given) = cut_first(front, " ");
    if let Some("") = given {
        return Err(Unread::Value);
    }
    let PropertyReference { property, index } = parse_reference(place)?;
    Ok(PropertyWrite {
        property,
        index,
        values: given_values(alloc, given)?,
        priority,
    })
}

/// The priority that a word says, if there is a word.
fn priority_of(level: Option<&str>) -> Result<Option<u8>, Unread>
    ensures read { IfOk result (SaysPriority (option_map (λ w. w.now) level.entry)) }
    ensures refused { IfErr result (λ e. NoPriority (option_map (λ w. w.now) level.entry)) }
{
    match level {
        Some(word) => Ok(Some(parse_u8(word)?)),
        None => Ok(None),
    }
}

/// An object, and a write to it.
#[tactic(auto, using(crate::proofs::Requests::object_laws))]
fn object_write<A: Allocator + Copy>(
    alloc: A,
    words: &str,
) -> Result<(ObjectId, PropertyWrite<A>), Unread>
    ensures read { IfOk result (SaysObjectWrite words.now) }
    ensures refused { IfErr result (λ e. (e ≡ Unread.Memory) ⊎ NoObjectWrite A words.now) }
{
    let Some((id, rest)) = cut_at(words, ' ') else {
        return Err(Unread::Request);
    };
    Ok((parse_object(id)?, property_write(alloc, rest)?))
}

/// A WriteProperty.
fn one_write<A: Allocator>(object: ObjectId, write: PropertyWrite<A>) -> Request<A>
    ensures { result ≡ Request.Write object write.property write.index write.values write.priority }
{
    let PropertyWrite {
        property,
        index,
        values,
        priority,
    } = write;
    Request::Write {
        object,
        property,
        index,
        values,
        priority,
    }
}

/// References to properties of an object, parted by commas.
#[tactic(auto, using(crate::proofs::Lists::list_laws))]
fn references<A: Allocator + Copy>(
    alloc: A,
    words: &str,
) -> Result<Items<PropertyReference, A>, Unread>
    ensures read { IfOk result (SaysReferences words.now) }
    ensures refused { IfErr result (λ e. (e ≡ Unread.Memory) ⊎ NoReferences words.now) }
{
    let mut refs = Items::new(alloc);
    let mut rest = Some(words);
    while let Some(here) = rest {
        let (one, others) = cut_first(here, ",");
        refs.push(parse_reference(one)?)?;
        rest = others;
    }
    Ok(refs)
}

/// An object and references to its properties, and what stands behind them.
#[tactic(auto, using(crate::proofs::Requests::refs_laws))]
fn object_refs<A: Allocator + Copy>(
    alloc: A,
    words: &str,
) -> Result<(ObjectRefs<A>, Option<&str>), Unread>
    ensures read { IfOk result (λ x. SaysRefs words.entry.now x.0) }
    ensures rest { IfOk result (λ x. option_map (λ w. w.now) x.1 ≡ other_refs words.entry.now) }
    ensures refused { IfErr result (λ e. (e ≡ Unread.Memory) ⊎ NoRefs A words.entry.now) }
{
    let Some((id, behind)) = cut_at(words, ' ') else {
        parse_object(words)?;
        return Err(Unread::Reference);
    };
    let object = parse_object(id)?;
    let (places, rest) = cut_first(behind, " ");
    let refs = references(alloc, places)?;
    Ok((ObjectRefs { object, refs }, rest))
}

/// The objects and references of a ReadPropertyMultiple.
#[tactic(auto, using(crate::proofs::Lists::list_laws))]
fn many<A: Allocator + Copy>(alloc: A, words: &str) -> Result<Items<ObjectRefs<A>, A>, Unread>
    ensures read { IfOk result (SaysMany words.now) }
    ensures refused { IfErr result (λ e. (e ≡ Unread.Memory) ⊎ NoMany A words.now) }
{
    let mut groups = Items::new(alloc);
    let mut rest = Some(words);
    while let Some(here) = rest {
        let (group, others) = object_refs(alloc, here)?;
        groups.push(group)?;
        rest = others;
    }
    Ok(groups)
}

/// The writes of a WritePropertyMultiple.
#[tactic(auto, using(crate::proofs::Lists::write_list_laws))]
fn batch<A: Allocator + Copy>(alloc: A, words: &str) -> Result<Items<ObjectWrites<A>, A>, Unread>
    ensures read { IfOk result (SaysBatch words.now) }
    ensures refused { IfErr result (λ e. (e ≡ Unread.Memory) ⊎ NoBatch A words.now) }
{
    let mut groups: Vec<ObjectWrites<A>, A> = Vec::new(alloc);
    let mut rest = Some(words);
    while let Some(here) = rest {
        let (one, others) = cut_first(here, "; ");
        let (object, write) = object_write(alloc, one)?;
        add_write(alloc, &mut groups, object, write)?;
        rest = others;
    }
    Ok(Items::from_vec(groups))
}

/// Adds a write to the last group where that is of its object, and as a new group otherwise.
fn add_write<A: Allocator + Copy>(
    alloc: A,
    groups: &mut Vec<ObjectWrites<A>, A>,
    object: ObjectId,
    write: PropertyWrite<A>,
) -> Result<(), AllocError>
    ensures added { OnOk result (all_writes groups.new.items ≡ all_writes groups.old.items ++ (object, write) ∷ []) }
    ensures grouped { OnOk result (AreGrouped groups.old.items → AreGrouped groups.new.items) }
{
    if ends_with_object(groups.as_slice(), object) {
        add_to_last(groups.as_mut_slice(), write)
    } else {
        groups.push(first_write(alloc, object, write)?)?;
        Ok(())
    }
}

/// Whether the last group is to the object.
#[tactic(auto, using(crate::proofs::Groups::end_laws))]
fn ends_with_object<A: Allocator>(groups: &[ObjectWrites<A>], object: ObjectId) -> bool
    ensures { MatchBool result (EndsWith object groups.now) (EndsElsewhere object groups.now) }
{
    match groups {
        [.., last] => last.object == object,
        [] => false,
    }
}

/// Adds a write to the last group, if there is one.
fn add_to_last<A: Allocator>(
    groups: &mut [ObjectWrites<A>],
    write: PropertyWrite<A>,
) -> Result<(), AllocError>
    ensures added { OnOk result ((object : ObjectId) → EndsWith object groups.old →
        all_writes groups.new ≡ all_writes groups.old ++ (object, write) ∷ []) }
    ensures grouped { OnOk result (AreGrouped groups.old → AreGrouped groups.new) }
    ensures kept { length groups.new ≡ length groups.old }
{
    if let [.., last] = groups {
        last.writes.push(write)?;
    }
    Ok(())
}

/// A write to an object, as the first of its group.
fn first_write<A: Allocator>(
    alloc: A,
    object: ObjectId,
    write: PropertyWrite<A>,
) -> Result<ObjectWrites<A>, AllocError>
    ensures { IfOk result (λ group. (group.object ≡ object) × (group.writes ≡ write ∷ [])) }
{
    let mut writes = Items::new(alloc);
    writes.push(write)?;
    Ok(ObjectWrites { object, writes })
}
