//! What a server says, and to whom.

ghost use Rattle.std.specs.Prelude.{◌≡◌, ◌++◌, ◌∷◌, ◌*◌, Some, true, OnOk, OnErr, IfErr};
ghost use Rattle.apdu.specs.Apdu.{abort_pdu, complex_ack, segment_ack};
ghost use Rattle.apdu.specs.ApduWriting.{canonical};
ghost use Rattle.apdu.specs.Numbers.{abort_number};
ghost use Rattle.apdu.specs.PduType.{type_number};
ghost use Rattle.server_answers.specs.Answering.{whole_answer};
ghost use Rattle.server_answers.specs.Said.{answer_octets, said_octets};
ghost use Rattle.tags.specs.Canonical.{Extends};

use apdu::{AbortReason, Apdu, ConfirmedService, PduType, RejectReason, Segment};
use npdu::Way;
use remembered::{Record, RememberedAnswer};
use std::alloc::Allocator;
use tags::{Fault, Octets, all_or_none};

/// What a server says.
#[derive(Drop)]
pub enum ServerSaid<A: Allocator> {
    /// An answer, whole (20.1.4, 20.1.5, 20.1.7, 20.1.9).
    Answer {
        way: Way,
        invoke_id: u8,
        service: ConfirmedService,
        answer: RememberedAnswer<A>,
    },
    /// A segment of an answer (20.1.5).
    Segment {
        way: Way,
        invoke_id: u8,
        service: ConfirmedService,
        segment: Segment,
        data: Octets<A>,
    },
    /// That segments of the request came, or are lacking (20.1.6).
    SegmentAck {
        way: Way,
        negative: bool,
        invoke_id: u8,
        sequence_number: u8,
        window: u8,
    },
    /// That the request was not understood (20.1.8).
    Reject {
        way: Way,
        invoke_id: u8,
        reason: RejectReason,
    },
    /// That the request is given up (20.1.9).
    Abort {
        way: Way,
        invoke_id: u8,
        reason: AbortReason,
    },
}

/// Appends the octets of an answer whole.
fn write_answer<A: Allocator, B: Allocator>(
    invoke_id: u8,
    service: u8,
    answer: &RememberedAnswer<A>,
    out: &mut Vec<u8, B>,
) -> Result<(), Fault>
    ensures written { OnOk result (out.new.items ≡ out.old.items ++ answer_octets invoke_id service answer.now) }
    ensures memory { IfErr result (λ fault. fault ≡ Fault.Memory) }
    ensures unchanged { OnErr result (out.new.items ≡ out.old.items) }
{
    match answer {
        RememberedAnswer::Simple => Apdu::SimpleAck { invoke_id, service }.write(out),
        RememberedAnswer::Complex(data) => {
            let apdu = Apdu::ComplexAck {
                segment: None,
                invoke_id,
                service,
                data: data.as_slice(),
            };
            apdu.write(out)
        }
        RememberedAnswer::Error(contents) => {
            let start = out.len();
            let put = put_error(invoke_id, service, contents.as_slice(), out);
            all_or_none(put, start, out)
        }
        RememberedAnswer::Abort(reason) => write_abort(invoke_id, *reason, out),
    }
}

/// Appends the octets of a remembered answer whole.
///
/// # Errors
/// `Memory` alone. The buffer is then as it was.
#[tactic(auto, unfolding(crate::specs::Said::said_octets))]
pub fn write_whole<A: Allocator, B: Allocator>(
    entry: &Record<A>,
    out: &mut Vec<u8, B>,
) -> Result<(), Fault>
    ensures written { OnOk result (out.new.items ≡ out.old.items ++ said_octets (whole_answer entry.now)) }
    ensures memory { IfErr result (λ fault. fault ≡ Fault.Memory) }
    ensures unchanged { OnErr result (out.new.items ≡ out.old.items) }
{
    let service = u8::from(entry.service);
    write_answer(entry.asker.invoke_id, service, &entry.answer, out)
}

/// Appends the octets of an Error with these contents.
fn put_error<B: Allocator>(
    invoke_id: u8,
    service: u8,
    contents: &[u8],
    out: &mut Vec<u8, B>,
) -> Result<(), Fault>
    ensures put { OnOk result (out.new.items ≡ out.old.items ++
        16 * type_number PduType.Error ∷ (invoke_id ∷ (service ∷ contents.now))) }
    ensures memory { IfErr result (λ fault. fault ≡ Fault.Memory) }
    ensures err { OnErr result (Extends out.old.items out.new.items) }
{
    out.extend_from_slice(&[16 * u8::from(PduType::Error), invoke_id, service])?;
    out.extend_from_slice(contents)?;
    Ok(())
}

/// Appends the octets of a device's Abort.
fn write_abort<B: Allocator>(
    invoke_id: u8,
    reason: AbortReason,
    out: &mut Vec<u8, B>,
) -> Result<(), Fault>
    ensures written { OnOk result (out.new.items ≡
        out.old.items ++ canonical (abort_pdu true invoke_id (abort_number reason))) }
    ensures memory { IfErr result (λ fault. fault ≡ Fault.Memory) }
    ensures unchanged { OnErr result (out.new.items ≡ out.old.items) }
{
    let apdu = Apdu::Abort {
        server: true,
        invoke_id,
        reason,
    };
    apdu.write(out)
}

/// Appends the octets of a segment of an answer.
fn write_segment<B: Allocator>(
    invoke_id: u8,
    service: u8,
    segment: Segment,
    octets: &[u8],
    out: &mut Vec<u8, B>,
) -> Result<(), Fault>
    ensures written { OnOk result (out.new.items ≡
        out.old.items ++ canonical (complex_ack (Some segment) invoke_id service octets.now)) }
    ensures memory { IfErr result (λ fault. fault ≡ Fault.Memory) }
    ensures unchanged { OnErr result (out.new.items ≡ out.old.items) }
{
    let apdu = Apdu::ComplexAck {
        segment: Some(segment),
        invoke_id,
        service,
        data: octets,
    };
    apdu.write(out)
}

/// Appends the octets of a device's SegmentACK.
fn write_ack<B: Allocator>(
    negative: bool,
    invoke_id: u8,
    sequence_number: u8,
    window: u8,
    out: &mut Vec<u8, B>,
) -> Result<(), Fault>
    ensures written { OnOk result (out.new.items ≡
        out.old.items ++ canonical (segment_ack negative true invoke_id sequence_number window)) }
    ensures memory { IfErr result (λ fault. fault ≡ Fault.Memory) }
    ensures unchanged { OnErr result (out.new.items ≡ out.old.items) }
{
    let apdu = Apdu::SegmentAck {
        negative,
        server: true,
        invoke_id,
        sequence_number,
        window,
    };
    apdu.write(out)
}

impl<A: Allocator> ServerSaid<A> {
    ghost use Rattle.std.specs.Prelude.{◌≡◌, ◌++◌, OnOk, OnErr, IfErr};
    ghost use Rattle.server_answers.specs.Said.{said_octets, said_way};

    /// Where it goes.
    pub fn way(&self) -> Way
        ensures { result ≡ said_way self.now }
    {
        match self {
            ServerSaid::Answer { way, .. }
            | ServerSaid::Segment { way, .. }
            | ServerSaid::SegmentAck { way, .. }
            | ServerSaid::Reject { way, .. }
            | ServerSaid::Abort { way, .. } => *way,
        }
    }

    /// Appends the octets of the APDU, all bits that are not looked at being 0.
    ///
    /// # Errors
    /// `Memory` alone. The buffer is then as it was.
    #[tactic(auto, unfolding(crate::specs::Said::said_octets))]
    pub fn write<B: Allocator>(&self, out: &mut Vec<u8, B>) -> Result<(), Fault>
        ensures written { OnOk result (out.new.items ≡ out.old.items ++ said_octets self.now) }
        ensures memory { IfErr result (λ fault. fault ≡ Fault.Memory) }
        ensures unchanged { OnErr result (out.new.items ≡ out.old.items) }
    {
        match self {
            ServerSaid::Answer {
                invoke_id,
                service,
                answer,
                ..
            } => write_answer(*invoke_id, u8::from(*service), answer, out),
            ServerSaid::Segment {
                invoke_id,
                service,
                segment,
                data,
                ..
            } => write_segment(
                *invoke_id,
                u8::from(*service),
                *segment,
                data.as_slice(),
                out,
            ),
            ServerSaid::SegmentAck {
                negative,
                invoke_id,
                sequence_number,
                window,
                ..
            } => write_ack(*negative, *invoke_id, *sequence_number, *window, out),
            ServerSaid::Reject {
                invoke_id,
                reason,
                ..
            } => {
                let apdu = Apdu::Reject {
                    invoke_id: *invoke_id,
                    reason: *reason,
                };
                apdu.write(out)
            }
            ServerSaid::Abort {
                invoke_id,
                reason,
                ..
            } => write_abort(*invoke_id, *reason, out),
        }
    }
}
