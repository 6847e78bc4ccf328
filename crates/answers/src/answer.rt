//! In which PDU a reply goes (15.5, 15.7, 15.9, 15.10, 20.1.4, 20.1.5 and 20.1.7).

ghost use Rattle.std.specs.Prelude.{◌≡◌, ◌↔◌, IsTrue};
ghost use Rattle.answers.specs.Answer.{GoesIn, GoesInPdu};

use apdu::{ObjectPropertyReference, ServiceError};
use objects::primitives::Reply;
use std::alloc::Allocator;

/// What an answer has behind its header (20.1.4, 20.1.5, 20.1.7).
#[derive(Clone, Copy, Debug, PartialEq, Eq)]
pub enum Answer<'a> {
    /// A SimpleACK.
    Simple,
    /// The service data of a ComplexACK.
    Complex(&'a [u8]),
    /// The contents of an Error.
    Error(ServiceError),
}

/// A PDU in which a reply goes, without its service data.
#[derive(Clone, Copy, Debug, PartialEq, Eq)]
pub enum ReplyPdu {
    /// A SimpleACK (20.1.4).
    SimpleAck,
    /// A ComplexACK (20.1.5).
    ComplexAck,
    /// An Error with these contents (20.1.7).
    Error(ServiceError),
}

/// In which PDU a reply goes: a SimpleACK where all was written, a ComplexACK for what was read, an Error where the
/// request was not done (20.1).
pub fn pdu_of<A: Allocator>(reply: &Reply<A>) -> ReplyPdu
    ensures { GoesInPdu reply.now result }
{
    match reply {
        Reply::Done => ReplyPdu::SimpleAck,
        Reply::Values(_) | Reply::Many(_) => ReplyPdu::ComplexAck,
        Reply::Error(class, code) => ReplyPdu::Error(ServiceError {
            class: *class,
            code: *code,
            first_failed: None,
        }),
        Reply::ErrorAt {
            class,
            code,
            object,
            property,
            index,
        } => ReplyPdu::Error(ServiceError {
            class: *class,
            code: *code,
            first_failed: Some(ObjectPropertyReference {
                object: *object,
                property: *property,
                index: *index,
            }),
        }),
    }
}

/// The answer in which a reply goes, with its service data where it has some (20.1).
pub fn answer_of<'a, A: Allocator>(reply: &Reply<A>, body: &'a [u8]) -> Answer<'a>
    ensures { GoesIn reply.now body.entry.now result }
{
    match pdu_of(reply) {
        ReplyPdu::SimpleAck => Answer::Simple,
        ReplyPdu::ComplexAck => Answer::Complex(body),
        ReplyPdu::Error(error) => Answer::Error(error),
    }
}

/// Whether what was read is about the property asked, or about the same element of it (15.5.1).
pub fn is_about(read: ObjectPropertyReference, asked: ObjectPropertyReference) -> bool
    ensures { IsTrue result ↔ ((read.object ≡ asked.object) × (read.property ≡ asked.property) ×
        (read.index ≡ asked.index)) }
{
    read == asked
}
