//! The replies to requests, both ways (clauses 15.5, 15.7, 15.9, 15.10, 20.1.4, 20.1.5 and 20.1.7).

ghost use Rattle.services.specs.Reply.{SpellsAck, SpellsAnswer, SpellsReply, OnlyReply, NoReply, IsSoundAnswer};
ghost use Rattle.services.specs.Reply.{HasServiceData};
ghost use Rattle.answers.specs.Answer.{SpellsFailure};
ghost use Rattle.std.specs.Prelude.{◌≡◌, ◌<◌, ◌^◌, ◌⊎◌, IfOk, IfErr, IsOk, IfSome, IfNone, length, ◌++◌, OnOk, OnErr};
ghost use Rattle.primitives.specs.Sound.{IsSoundReply, IsSoundRequest};
ghost use Rattle.services.specs.ReplySteps.{NoAck, NoAnswer};
ghost use Rattle.answers.specs.Stop.{StopsFor};
ghost use Rattle.tags.specs.Canonical.{Extends};
ghost use Rattle.primitives.specs.Answers.{IsAnswerTo};
ghost use Rattle.services.specs.CanonicalReply.{canonical_reply};

use crate::acknowledgement::{read_ack, read_many_ack};
use crate::request::put_read;
use crate::spelled::put_each;
use crate::values::put_values;
use answers::{Answer, Stop, is_answer_to};
use apdu::{RejectReason, ServiceError};
use primitives::{Reply, Request};
use std::alloc::{AllocError, Allocator};
use tags::{Fault, Reader, all_or_none};

/// The reply that the contents of an Error are (20.1.7).
fn failure_of<A: Allocator>(error: ServiceError) -> Reply<A>
    ensures spelled { SpellsFailure error result }
    ensures sound { IsSoundAnswer (Answer.Error error) → IsSoundReply result }
{
    match error.first_failed {
        None => Reply::Error(error.class, error.code),
        Some(reference) => Reply::ErrorAt {
            class: error.class,
            code: error.code,
            object: reference.object,
            property: reference.property,
            index: reference.index,
        },
    }
}

/// The reply that the service data of a ComplexACK spell (20.1.5).
fn ack_of<A: Allocator + Copy>(
    alloc: A,
    request: &Request<A>,
    reader: &mut Reader<'_>,
) -> Result<Reply<A>, Stop>
    ensures read { IfOk result (λ reply. SpellsAck request.now reader.old reply) }
    ensures sound { IfOk result (λ reply. length reader.old < 2 ^ 31 → IsSoundReply reply) }
    ensures none { IfErr result (λ stop. StopsFor (λ reason. NoAck request.now reader.old) stop) }
{
    match request {
        Request::Read {
            object,
            property,
            index,
        } => {
            let values = read_ack(alloc, reader, *object, *property, *index)?;
            Ok(Reply::Values(values))
        }
        Request::ReadMany(_) => {
            let all = read_many_ack(alloc, reader)?;
            Ok(Reply::Many(all))
        }
        Request::Write { .. } | Request::WriteMany(_) => {
            Err(Stop::Reject(RejectReason::TooManyArguments))
        }
    }
}

/// The reply that an answer spells, be it one to the request or not.
fn spelled_by<A: Allocator + Copy>(
    alloc: A,
    request: &Request<A>,
    answer: &Answer<'_>,
) -> Result<Reply<A>, Stop>
    ensures read { IfOk result (λ reply. SpellsAnswer request.now answer.now reply) }
    ensures sound { IfOk result (λ reply. IsSoundAnswer answer.now → IsSoundReply reply) }
    ensures none { IfErr result (λ stop. StopsFor (λ reason. NoAnswer request.now answer.now) stop) }
    ensures memory { HasServiceData answer.now ⊎ IsOk result }
{
    match answer {
        Answer::Simple => Ok(Reply::Done),
        Answer::Complex(octets) => ack_of(alloc, request, &mut Reader::new(octets)),
        Answer::Error(error) => Ok(failure_of(*error)),
    }
}

/// The reply to a request that an answer spells, or `None` where it spells none: a SimpleACK
/// answers writes alone, a ReadProperty-ACK is that of the object, property and index asked, a
/// ReadPropertyMultiple-ACK has the objects asked in their order, and their properties too where
/// each reference names one; an Error of WritePropertyMultiple names the write that failed (15.5,
/// 15.7, 15.9, 15.10). Its lists are in memory of `alloc`.
///
/// # Errors
/// Want of memory; a SimpleACK and an Error take none.
#[tactic(auto, using(crate::proofs::OneAnswer::reply_laws))]
pub fn decode_reply<A: Allocator + Copy>(
    alloc: A,
    request: &Request<A>,
    answer: &Answer<'_>,
) -> Result<Option<Reply<A>>, AllocError>
    ensures read { IfOk result (λ found. IfSome found (λ reply. SpellsReply request.now answer.now reply)) }
    ensures only { IfOk result (λ found. IfSome found (λ reply. OnlyReply request.now answer.now reply)) }
    ensures sound { IfOk result (λ found. IfSome found (λ reply. IsSoundAnswer answer.now → IsSoundReply reply)) }
    ensures none { IfOk result (λ found. IfNone found (NoReply request.now answer.now)) }
    ensures memory { HasServiceData answer.now ⊎ IsOk result }
{
    match spelled_by(alloc, request, answer) {
        Ok(reply) => {
            if !is_answer_to(request, &reply) {
                return Ok(None);
            }
            Ok(Some(reply))
        }
        Err(Stop::Reject(_)) => Ok(None),
        Err(Stop::Memory) => Err(AllocError),
    }
}

/// Appends a reply behind the header of its ComplexACK.
fn put_reply<A: Allocator, B: Allocator>(
    request: &Request<A>,
    reply: &Reply<A>,
    out: &mut Vec<u8, B>,
) -> Result<(), Fault>
    requires asked { IsSoundRequest request.now }
    requires sound { IsSoundReply reply.now }
    requires answers { IsAnswerTo request.now reply.now }
    ensures put { OnOk result (out.new.items ≡ out.old.items ++ canonical_reply request.now reply.now) }
    ensures memory { IfErr result (λ fault. fault ≡ Fault.Memory) }
    ensures err { OnErr result (Extends out.old.items out.new.items) }
{
    match (request, reply) {
        (
            Request::Read {
                object,
                property,
                index,
            },
            Reply::Values(values),
        ) => {
            put_read(*object, *property, *index, out)?;
            put_values(3, values.as_slice(), out)
        }
        (Request::ReadMany(_), Reply::Many(results)) => put_each(results.as_slice(), out),
        _ => Ok(()),
    }
}

/// Appends the service data of the ComplexACK that a reply to this request is, in its shortest
/// form: nothing where it goes in a SimpleACK or an Error (15.5, 15.7).
///
/// # Errors
/// `Memory` alone. The buffer is then as it was.
pub fn encode_reply<A: Allocator, B: Allocator>(
    request: &Request<A>,
    reply: &Reply<A>,
    out: &mut Vec<u8, B>,
) -> Result<(), Fault>
    requires asked { IsSoundRequest request.now }
    requires sound { IsSoundReply reply.now }
    requires answers { IsAnswerTo request.now reply.now }
    ensures written { OnOk result (out.new.items ≡ out.old.items ++ canonical_reply request.now reply.now) }
    ensures memory { IfErr result (λ fault. fault ≡ Fault.Memory) }
    ensures unchanged { OnErr result (out.new.items ≡ out.old.items) }
{
    let start = out.len();
    let put = put_reply(request, reply, out);
    all_or_none(put, start, out)
}
