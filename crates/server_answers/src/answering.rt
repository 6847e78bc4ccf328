//! What a server answers to a request, what it remembers of the answer, and how it says it (5.4.5).

ghost use Rattle.std.specs.Prelude.{◌≡◌, ◌++◌, None, IfOk, OnOk, option_copied};
ghost use Rattle.apdu.specs.ApduWriting.{CanBeNamed, error_octets};
ghost use Rattle.primitives.specs.Answers.{IsAnswerTo};
ghost use Rattle.primitives.specs.Errors.{class_number, code_number};
ghost use Rattle.primitives.specs.Sound.{IsSoundReply, IsSoundRequest};
ghost use Rattle.remembered.specs.Records.{said_on};
ghost use Rattle.segments.specs.Pieces.{piece_of};
ghost use Rattle.services.specs.CanonicalReply.{canonical_reply};
ghost use Rattle.server_answers.specs.Answering.{answer_if_whole, answer_of, answer_segment, answered_by};
ghost use Rattle.server_answers.specs.Answering.{data_of, recorded, whole_answer};

use crate::asked::Asked;
use crate::limits::begun;
use crate::said::ServerSaid;
use apdu::{Segment, ServiceError};
use npdu::Way;
use primitives::{Reply, Request};
use profile::WINDOW_SIZE;
use remembered::{Record, RememberedAnswer};
use segments::{Piece, Sender};
use services::{ReplyPdu, encode_reply, pdu_of, service_of};
use std::alloc::{AllocError, Allocator};
use tags::{Items, Octets};

/// How many octets the service data of an answer take at first: so they don't grow for a short one.
const SHORT_ANSWER: usize = 32;

/// The contents of an Error.
fn contents_of<A: Allocator + Copy>(alloc: A, error: ServiceError) -> Result<Octets<A>, AllocError>
    requires { CanBeNamed error.first_failed }
    ensures { IfOk result (λ contents. contents ≡
        error_octets (class_number error.class) (code_number error.code) error.first_failed) }
{
    let mut out = Vec::new(alloc);
    if error.write(&mut out).is_err() {
        return Err(AllocError);
    }
    Ok(Octets::from_vec(out))
}

/// The service data of a reply to a request (20.1.5).
fn service_data<A: Allocator + Copy>(
    alloc: A,
    request: &Request<A>,
    reply: &Reply<A>,
) -> Result<Octets<A>, AllocError>
    requires asked { IsSoundRequest request.now }
    requires sound { IsSoundReply reply.now }
    requires answers { IsAnswerTo request.now reply.now }
    ensures { IfOk result (λ octets. octets ≡ canonical_reply request.now reply.now) }
{
    let mut out = Vec::with_capacity(alloc, SHORT_ANSWER)?;
    if encode_reply(request, reply, &mut out).is_err() {
        return Err(AllocError);
    }
    Ok(Octets::from_vec(out))
}

/// The answer with this reply, before it is known how it goes.
///
/// # Errors
/// Want of memory.
#[tactic(auto, unfolding(crate::specs::Answering::answer_of))]
pub fn kept_answer<A: Allocator + Copy>(
    alloc: A,
    request: &Request<A>,
    reply: &Reply<A>,
) -> Result<RememberedAnswer<A>, AllocError>
    requires asked { IsSoundRequest request.now }
    requires sound { IsSoundReply reply.now }
    requires answers { IsAnswerTo request.now reply.now }
    ensures { IfOk result (λ answer. answer ≡ answer_of request.now reply.now) }
{
    match pdu_of(reply) {
        ReplyPdu::SimpleAck => Ok(RememberedAnswer::Simple),
        ReplyPdu::ComplexAck => {
            let octets = service_data(alloc, request, reply)?;
            Ok(RememberedAnswer::Complex(octets))
        }
        ReplyPdu::Error(error) => {
            let contents = contents_of(alloc, error)?;
            Ok(RememberedAnswer::Error(contents))
        }
    }
}

/// An answer that is remembered from the moment `now`, in milliseconds, on, and said from its beginning.
pub fn recorded<A: Allocator>(
    now: u64,
    chunk: usize,
    asked: &Asked,
    request: &Request<A>,
    answer: RememberedAnswer<A>,
) -> Record<A>
    ensures { result ≡ recorded now chunk asked.now request.now answer }
{
    let sending = begun(now, chunk, &answer);
    Record {
        asker: asked.asker,
        service: service_of(request),
        answer,
        chunk,
        at: now,
        way: asked.way,
        sending,
    }
}

/// The service data of an answer, where it has some.
fn data_of<A: Allocator>(answer: &RememberedAnswer<A>) -> &[u8]
    ensures { result.now ≡ data_of answer.now }
{
    match answer {
        RememberedAnswer::Complex(octets) => octets.as_slice(),
        _ => &[],
    }
}

/// A remembered answer whole, on this way.
fn whole_answer<A: Allocator + Copy>(
    alloc: A,
    way: Way,
    entry: &Record<A>,
) -> Result<ServerSaid<A>, AllocError>
    ensures { IfOk result (λ said. said ≡ whole_answer (said_on way None entry.now)) }
{
    Ok(ServerSaid::Answer {
        way,
        invoke_id: entry.asker.invoke_id,
        service: entry.service,
        answer: entry.answer.copy(alloc)?,
    })
}

/// A piece of a remembered answer in a segment, on this way.
fn answer_segment<A: Allocator + Copy>(
    alloc: A,
    way: Way,
    entry: &Record<A>,
    piece: &Piece<'_>,
) -> Result<ServerSaid<A>, AllocError>
    ensures { IfOk result (λ said. said ≡ answer_segment (said_on way None entry.now) (piece_of piece.now)) }
{
    let segment = Segment {
        more_follows: piece.has_more,
        sequence_number: piece.number,
        window: WINDOW_SIZE,
    };
    Ok(ServerSaid::Segment {
        way,
        invoke_id: entry.asker.invoke_id,
        service: entry.service,
        segment,
        data: Octets::from_slice(alloc, piece.octets)?,
    })
}

/// Appends a remembered answer whole, or the window of what goes on sending it, on this way.
///
/// # Errors
/// Want of memory.
pub fn push_answer<A: Allocator + Copy>(
    alloc: A,
    sending: &Option<Sender>,
    way: Way,
    entry: &Record<A>,
    said: &mut Items<ServerSaid<A>, A>,
) -> Result<(), AllocError>
    ensures { OnOk result (said.new ≡ said.old ++ answered_by sending.now (said_on way sending.now entry.now)) }
{
    let Some(sender) = sending else {
        return said.push(whole_answer(alloc, way, entry)?);
    };
    for piece in sender.window(data_of(&entry.answer)) {
        said.push(answer_segment(alloc, way, entry, &piece)?)?;
    }
    Ok(())
}

/// Appends the first window of an answer that is said from its beginning in segments; nothing of one that goes whole,
/// which is said from what is remembered of it.
///
/// # Errors
/// Want of memory.
pub fn push_window<A: Allocator + Copy>(
    alloc: A,
    entry: &Record<A>,
    said: &mut Items<ServerSaid<A>, A>,
) -> Result<(), AllocError>
    ensures { OnOk result (said.new ++ answer_if_whole entry.now.sending entry.now ≡
        said.old ++ answered_by entry.now.sending entry.now) }
{
    match &entry.sending {
        None => Ok(()),
        Some(_) => push_answer(alloc, &entry.sending, entry.way, entry, said),
    }
}

/// Appends a remembered answer that goes whole; nothing of one that is said in segments.
///
/// # Errors
/// Want of memory.
pub fn push_whole<A: Allocator + Copy>(
    alloc: A,
    entry: &Record<A>,
    said: &mut Items<ServerSaid<A>, A>,
) -> Result<(), AllocError>
    ensures { OnOk result (said.new ≡ said.old ++ answer_if_whole entry.now.sending entry.now) }
{
    match entry.sending {
        None => said.push(whole_answer(alloc, entry.way, entry)?),
        Some(_) => Ok(()),
    }
}
