//! APDUs: what the network layer carries between two applications, both ways (20.1).

ghost use Rattle.std.specs.Prelude.{◌≡◌, ◌∷◌, ◌++◌, ◌+◌, ◌*◌, ◌/◌, ◌%◌, ◌<◌, [], length, IfOk, IfErr, OnOk, OnErr};
ghost use Rattle.apdu.specs.Apdu.{apdu_of, segment_octets, HasNamedNumbers, IsSegmented, SpellsBehind};
ghost use Rattle.apdu.specs.ApduRefusal.{RefusesBehind};
ghost use Rattle.apdu.specs.ApduWriting.{canonical, flag_bits, segment_bits, field_octets, CanBeWritten, HasNumbers};
ghost use Rattle.apdu.specs.Sizes.{segments_code, apdu_code};
ghost use Rattle.tags.specs.Canonical.{Extends};

use crate::numbers::{AbortReason, RejectReason};
use crate::pdu_type::PduType;
use crate::service_error::ServiceError;
use crate::sizes::{MaxApdu, MaxSegments};
use apdu_fields::says_segment;
use std::alloc::{AllocError, Allocator};
use tags::{Fault, all_or_none};

/// What a segment says of itself (20.1.2.1, 20.1.2.2, 20.1.2.7, 20.1.2.8).
#[derive(Clone, Copy, Debug, PartialEq, Eq)]
pub struct Segment {
    /// Whether another segment follows.
    pub more_follows: bool,
    /// The segment's number, modulo 256.
    pub sequence_number: u8,
    /// The window size that the sender proposes, in segments.
    pub window: u8,
}

/// An APDU (20.1). Its data are the named slice of the octets that were read.
#[derive(Clone, Copy, Debug, PartialEq, Eq)]
pub enum Apdu<'a> {
    /// A request that is to be answered, or a segment of one (20.1.2).
    ConfirmedRequest {
        segment: Option<Segment>,
        segmented_response_accepted: bool,
        max_segments: MaxSegments,
        max_apdu: MaxApdu,
        invoke_id: u8,
        service: u8,
        data: &'a [u8],
    },
    /// A request that is not answered (20.1.3).
    UnconfirmedRequest {
        service: u8,
        data: &'a [u8],
    },
    /// The request was done, and there is nothing to say of it (20.1.4).
    SimpleAck {
        invoke_id: u8,
        service: u8,
    },
    /// The request was done, and this is the answer or a segment of it (20.1.5).
    ComplexAck {
        segment: Option<Segment>,
        invoke_id: u8,
        service: u8,
        data: &'a [u8],
    },
    /// Segments came up to this sequence number, or are lacking behind it (20.1.6).
    SegmentAck {
        negative: bool,
        server: bool,
        invoke_id: u8,
        sequence_number: u8,
        window: u8,
    },
    /// The request was not done (20.1.7).
    Error {
        invoke_id: u8,
        service: u8,
        error: ServiceError,
    },
    /// The request was not understood (20.1.8).
    Reject {
        invoke_id: u8,
        reason: RejectReason,
    },
    /// The transaction is over (20.1.9).
    Abort {
        server: bool,
        invoke_id: u8,
        reason: AbortReason,
    },
}

impl Apdu<'_> {
    ghost use Rattle.std.specs.Prelude.{◌≡◌};
    ghost use Rattle.apdu.specs.Apdu.{apdu_of, invoke_id_of, type_of};

    /// The type of the APDU.
    pub fn pdu_type(&self) -> PduType
        ensures { result ≡ type_of (apdu_of self.now) }
    {
        match self {
            Apdu::ConfirmedRequest { .. } => PduType::ConfirmedRequest,
            Apdu::UnconfirmedRequest { .. } => PduType::UnconfirmedRequest,
            Apdu::SimpleAck { .. } => PduType::SimpleAck,
            Apdu::ComplexAck { .. } => PduType::ComplexAck,
            Apdu::SegmentAck { .. } => PduType::SegmentAck,
            Apdu::Error { .. } => PduType::Error,
            Apdu::Reject { .. } => PduType::Reject,
            Apdu::Abort { .. } => PduType::Abort,
        }
    }

    /// Its invoke ID: all but an Unconfirmed-Request have one (20.1.2.6).
    pub fn invoke_id(&self) -> Option<u8>
        ensures { result ≡ invoke_id_of (apdu_of self.now) }
    {
        match self {
            Apdu::UnconfirmedRequest { .. } => None,
            Apdu::ConfirmedRequest { invoke_id, .. }
            | Apdu::SimpleAck { invoke_id, .. }
            | Apdu::ComplexAck { invoke_id, .. }
            | Apdu::SegmentAck { invoke_id, .. }
            | Apdu::Error { invoke_id, .. }
            | Apdu::Reject { invoke_id, .. }
            | Apdu::Abort { invoke_id, .. } => Some(*invoke_id),
        }
    }
}

impl<'a> Apdu<'a> {
    ghost use Rattle.std.specs.Prelude.{IfOk, IfErr, OnErr};
    ghost use Rattle.apdu.specs.Apdu.{apdu_of, HasNamedNumbers, Spells, OnlyApdu, NoApdu};
    ghost use Rattle.apdu.specs.ApduRefusal.{Refuses};

    /// The APDU that the octets spell, all of them. Takes no memory.
    ///
    /// # Errors
    ///
    /// `Short` where the header is cut, `BadTag` for a type over 7, or an Error whose contents are
    /// not those of its service, also where they are cut, `BadLength` for octets left over behind a
    /// SimpleACK, SegmentACK, Reject or Abort.
    #[inline(always)]
    pub fn read(octets: &'a [u8]) -> Result<Apdu<'a>, Fault>
        ensures read { IfOk result (λ a. Spells octets.entry.now (apdu_of a)) }
        ensures only { IfOk result (λ a. OnlyApdu octets.entry.now (apdu_of a)) }
        ensures named { IfOk result HasNamedNumbers }
        ensures refused { OnErr result (NoApdu octets.entry.now) }
        ensures fault { IfErr result (λ e. Refuses e octets.entry.now) }
    {
        let [first, rest @ ..] = octets else {
            return Err(Fault::Short);
        };
        let kind = PduType::try_from(*first >> 4)?;
        apdu_behind(kind, *first, rest)
    }
}

/// The APDU of this type that stands behind its first octet. A request that is no segment is told at once.
#[inline(always)]
fn apdu_behind(kind: PduType, first: u8, rest: &[u8]) -> Result<Apdu<'_>, Fault>
    ensures read { IfOk result (λ a. SpellsBehind kind first rest.now (apdu_of a)) }
    ensures named { IfOk result HasNamedNumbers }
    ensures fault { IfErr result (λ e. RefusesBehind e kind first rest.now) }
{
    if kind != PduType::ConfirmedRequest || says_segment(first) {
        return apdu_from(kind, first, rest);
    }
    let [sizes, invoke_id, service, data @ ..] = rest else {
        return apdu_from(kind, first, rest);
    };
    Ok(Apdu::ConfirmedRequest {
        segment: None,
        segmented_response_accepted: (first >> 1) & 1 == 1,
        max_segments: MaxSegments::try_from((*sizes >> 4) & 7).unwrap(),
        max_apdu: MaxApdu::from(*sizes & 15),
        invoke_id: *invoke_id,
        service: *service,
        data,
    })
}

/// The APDU of this type, whichever it is, that stands behind its first octet.
#[inline(never)]
fn apdu_from(kind: PduType, first: u8, rest: &[u8]) -> Result<Apdu<'_>, Fault>
    ensures read { IfOk result (λ a. SpellsBehind kind first rest.now (apdu_of a)) }
    ensures named { IfOk result HasNamedNumbers }
    ensures fault { IfErr result (λ e. RefusesBehind e kind first rest.now) }
{
    match kind {
        PduType::ConfirmedRequest => confirmed_request_from(first, rest),
        PduType::UnconfirmedRequest => unconfirmed_request_from(first, rest),
        PduType::SimpleAck => simple_ack_from(first, rest),
        PduType::ComplexAck => complex_ack_from(first, rest),
        PduType::SegmentAck => segment_ack_from(first, rest),
        PduType::Error => error_from(first, rest),
        PduType::Reject => reject_from(first, rest),
        PduType::Abort => abort_from(first, rest),
    }
}

/// Sequence number and window, where the first octet says a segment.
fn segment_from(first: u8, octets: &[u8]) -> Result<(Option<Segment>, &[u8]), Fault>
    ensures flags { IfOk result (λ x. IsSegmented first x.0) }
    ensures parts { IfOk result (λ x. octets.now ≡ segment_octets x.0 ++ x.1.now) }
    ensures left { IfOk result (λ x. length octets.now ≡ 2 * (first / 8 % 2) + length x.1.now) }
    ensures fault { IfErr result (λ e. (e ≡ Fault.Short) × (length octets.now < 2 * (first / 8 % 2))) }
{
    if !says_segment(first) {
        return Ok((None, octets));
    }
    let [sequence_number, window, rest @ ..] = octets else {
        return Err(Fault::Short);
    };
    let segment = Segment {
        more_follows: (first >> 2) & 1 == 1,
        sequence_number: *sequence_number,
        window: *window,
    };
    Ok((Some(segment), rest))
}

fn confirmed_request_from(first: u8, rest: &[u8]) -> Result<Apdu<'_>, Fault>
    ensures read { IfOk result (λ a. SpellsBehind PduType.ConfirmedRequest first rest.now (apdu_of a)) }
    ensures named { IfOk result HasNamedNumbers }
    ensures fault { IfErr result (λ e. RefusesBehind e PduType.ConfirmedRequest first rest.now) }
{
    let [sizes, invoke_id, rest @ ..] = rest else {
        return Err(Fault::Short);
    };
    let (segment, rest) = segment_from(first, rest)?;
    let [service, data @ ..] = rest else {
        return Err(Fault::Short);
    };
    Ok(Apdu::ConfirmedRequest {
        segment,
        segmented_response_accepted: (first >> 1) & 1 == 1,
        max_segments: MaxSegments::try_from((*sizes >> 4) & 7).unwrap(),
        max_apdu: MaxApdu::from(*sizes & 15),
        invoke_id: *invoke_id,
        service: *service,
        data,
    })
}

fn unconfirmed_request_from(first: u8, rest: &[u8]) -> Result<Apdu<'_>, Fault>
    ensures read { IfOk result (λ a. SpellsBehind PduType.UnconfirmedRequest first rest.now (apdu_of a)) }
    ensures named { IfOk result HasNamedNumbers }
    ensures fault { IfErr result (λ e. RefusesBehind e PduType.UnconfirmedRequest first rest.now) }
{
    match rest {
        [service, data @ ..] => Ok(Apdu::UnconfirmedRequest {
            service: *service,
            data,
        }),
        [] => Err(Fault::Short),
    }
}

fn simple_ack_from(first: u8, rest: &[u8]) -> Result<Apdu<'_>, Fault>
    ensures read { IfOk result (λ a. SpellsBehind PduType.SimpleAck first rest.now (apdu_of a)) }
    ensures named { IfOk result HasNamedNumbers }
    ensures fault { IfErr result (λ e. RefusesBehind e PduType.SimpleAck first rest.now) }
{
    match rest {
        [invoke_id, service] => Ok(Apdu::SimpleAck {
            invoke_id: *invoke_id,
            service: *service,
        }),
        [] | [_] => Err(Fault::Short),
        _ => Err(Fault::BadLength),
    }
}

fn complex_ack_from(first: u8, rest: &[u8]) -> Result<Apdu<'_>, Fault>
    ensures read { IfOk result (λ a. SpellsBehind PduType.ComplexAck first rest.now (apdu_of a)) }
    ensures named { IfOk result HasNamedNumbers }
    ensures fault { IfErr result (λ e. RefusesBehind e PduType.ComplexAck first rest.now) }
{
    let [invoke_id, rest @ ..] = rest else {
        return Err(Fault::Short);
    };
    let (segment, rest) = segment_from(first, rest)?;
    let [service, data @ ..] = rest else {
        return Err(Fault::Short);
    };
    Ok(Apdu::ComplexAck {
        segment,
        invoke_id: *invoke_id,
        service: *service,
        data,
    })
}

fn segment_ack_from(first: u8, rest: &[u8]) -> Result<Apdu<'_>, Fault>
    ensures read { IfOk result (λ a. SpellsBehind PduType.SegmentAck first rest.now (apdu_of a)) }
    ensures named { IfOk result HasNamedNumbers }
    ensures fault { IfErr result (λ e. RefusesBehind e PduType.SegmentAck first rest.now) }
{
    match rest {
        [invoke_id, sequence_number, window] => Ok(Apdu::SegmentAck {
            negative: (first >> 1) & 1 == 1,
            server: first & 1 == 1,
            invoke_id: *invoke_id,
            sequence_number: *sequence_number,
            window: *window,
        }),
        [] | [_] | [_, _] => Err(Fault::Short),
        _ => Err(Fault::BadLength),
    }
}

fn error_from(first: u8, rest: &[u8]) -> Result<Apdu<'_>, Fault>
    ensures read { IfOk result (λ a. SpellsBehind PduType.Error first rest.now (apdu_of a)) }
    ensures named { IfOk result HasNamedNumbers }
    ensures fault { IfErr result (λ e. RefusesBehind e PduType.Error first rest.now) }
{
    let [invoke_id, service, contents @ ..] = rest else {
        return Err(Fault::Short);
    };
    match ServiceError::from_contents(*service, contents) {
        Some(error) => Ok(Apdu::Error {
            invoke_id: *invoke_id,
            service: *service,
            error,
        }),
        None => Err(Fault::BadTag),
    }
}

fn reject_from(first: u8, rest: &[u8]) -> Result<Apdu<'_>, Fault>
    ensures read { IfOk result (λ a. SpellsBehind PduType.Reject first rest.now (apdu_of a)) }
    ensures named { IfOk result HasNamedNumbers }
    ensures fault { IfErr result (λ e. RefusesBehind e PduType.Reject first rest.now) }
{
    match rest {
        [invoke_id, reason] => Ok(Apdu::Reject {
            invoke_id: *invoke_id,
            reason: RejectReason::from(*reason),
        }),
        [] | [_] => Err(Fault::Short),
        _ => Err(Fault::BadLength),
    }
}

fn abort_from(first: u8, rest: &[u8]) -> Result<Apdu<'_>, Fault>
    ensures read { IfOk result (λ a. SpellsBehind PduType.Abort first rest.now (apdu_of a)) }
    ensures named { IfOk result HasNamedNumbers }
    ensures fault { IfErr result (λ e. RefusesBehind e PduType.Abort first rest.now) }
{
    match rest {
        [invoke_id, reason] => Ok(Apdu::Abort {
            server: first & 1 == 1,
            invoke_id: *invoke_id,
            reason: AbortReason::from(*reason),
        }),
        [] | [_] => Err(Fault::Short),
        _ => Err(Fault::BadLength),
    }
}

impl Apdu<'_> {
    ghost use Rattle.std.specs.Prelude.{◌≡◌, ◌↔◌, ◌++◌, IsTrue, OnOk, OnErr, IfErr};
    ghost use Rattle.apdu.specs.Apdu.{apdu_of, Spells};
    ghost use Rattle.apdu.specs.ApduWriting.{canonical, CanBeWritten, HasNumbers};
    ghost use Rattle.tags.specs.Canonical.{Extends};

    /// Whether the APDU has a spelling: a size code below 16, and in an Error the contents of its
    /// service, with an object that has a spelling.
    pub fn is_sound(&self) -> bool
        ensures { IsTrue result ↔ CanBeWritten (apdu_of self.now) }
    {
        match self {
            Apdu::ConfirmedRequest { max_apdu, .. } => u8::from(*max_apdu) < 16,
            Apdu::Error { service, error, .. } => error.is_sound(*service),
            Apdu::UnconfirmedRequest { .. }
            | Apdu::SimpleAck { .. }
            | Apdu::ComplexAck { .. }
            | Apdu::SegmentAck { .. }
            | Apdu::Reject { .. }
            | Apdu::Abort { .. } => true,
        }
    }

    /// Appends the APDU's shortest octets, all bits that are not looked at being 0.
    ///
    /// # Errors
    ///
    /// `Memory` alone. The buffer is then as it was.
    #[tactic(auto, using(crate::proofs::CanonicalLaws::canonical_spells))]
    pub fn write<B: Allocator>(&self, out: &mut Vec<u8, B>) -> Result<(), Fault>
        requires { CanBeWritten (apdu_of self.now) }
        ensures written { OnOk result (out.new.items ≡ out.old.items ++ canonical (apdu_of self.now)) }
        ensures spelled { OnOk result (Spells (canonical (apdu_of self.now)) (apdu_of self.now)) }
        ensures memory { IfErr result (λ e. e ≡ Fault.Memory) }
        ensures unchanged { OnErr result (out.new.items ≡ out.old.items) }
    {
        let start = out.len();
        let put = self.put(out);
        all_or_none(put, start, out)
    }

    fn put<B: Allocator>(&self, out: &mut Vec<u8, B>) -> Result<(), Fault>
        requires { CanBeWritten (apdu_of self.now) }
        ensures put { OnOk result (out.new.items ≡ out.old.items ++ canonical (apdu_of self.now)) }
        ensures numbers { OnOk result (HasNumbers (apdu_of self.now)) }
        ensures err { OnErr result (Extends out.old.items out.new.items) }
    {
        out.push(16 * u8::from(self.pdu_type()) + flags_of(self))?;
        put_fields(self, out)
    }
}

fn segment_flags(segment: &Option<Segment>) -> u8
    ensures value { result ≡ segment_bits segment.now }
    ensures few { result < 13 }
{
    match segment {
        Some(segment) => 8 + 4 * u8::from(segment.more_follows),
        None => 0,
    }
}

/// The low four bits of the first octet.
fn flags_of(apdu: &Apdu<'_>) -> u8
    ensures value { result ≡ flag_bits (apdu_of apdu.now) }
    ensures few { result < 16 }
{
    match apdu {
        Apdu::ConfirmedRequest {
            segment,
            segmented_response_accepted,
            ..
        } => segment_flags(segment) + 2 * u8::from(*segmented_response_accepted),
        Apdu::ComplexAck { segment, .. } => segment_flags(segment),
        Apdu::SegmentAck {
            negative,
            server,
            ..
        } => 2 * u8::from(*negative) + u8::from(*server),
        Apdu::Abort { server, .. } => u8::from(*server),
        Apdu::UnconfirmedRequest { .. }
        | Apdu::SimpleAck { .. }
        | Apdu::Error { .. }
        | Apdu::Reject { .. } => 0,
    }
}

/// What stands behind the first octet.
fn put_fields<B: Allocator>(apdu: &Apdu<'_>, out: &mut Vec<u8, B>) -> Result<(), Fault>
    requires { CanBeWritten (apdu_of apdu.now) }
    ensures put { OnOk result (out.new.items ≡ out.old.items ++ field_octets (apdu_of apdu.now)) }
    ensures numbers { OnOk result (HasNumbers (apdu_of apdu.now)) }
    ensures err { OnErr result (Extends out.old.items out.new.items) }
{
    match apdu {
        Apdu::ConfirmedRequest {
            segment,
            max_segments,
            max_apdu,
            invoke_id,
            service,
            data,
            ..
        } => {
            put_sizes(*max_segments, *max_apdu, out)?;
            put_segmented(*invoke_id, segment, *service, data, out)?;
        }
        Apdu::UnconfirmedRequest { service, data } => put_data(*service, data, out)?,
        Apdu::SimpleAck { invoke_id, service } => out.extend_from_slice(&[*invoke_id, *service])?,
        Apdu::ComplexAck {
            segment,
            invoke_id,
            service,
            data,
        } => put_segmented(*invoke_id, segment, *service, data, out)?,
        Apdu::SegmentAck {
            invoke_id,
            sequence_number,
            window,
            ..
        } => out.extend_from_slice(&[*invoke_id, *sequence_number, *window])?,
        Apdu::Error {
            invoke_id,
            service,
            error,
        } => {
            out.extend_from_slice(&[*invoke_id, *service])?;
            error.put(out)?;
        }
        Apdu::Reject { invoke_id, reason } => {
            out.extend_from_slice(&[*invoke_id, u8::from(*reason)])?;
        }
        Apdu::Abort {
            invoke_id,
            reason,
            ..
        } => out.extend_from_slice(&[*invoke_id, u8::from(*reason)])?,
    }
    Ok(())
}

fn put_sizes<B: Allocator>(
    max_segments: MaxSegments,
    max_apdu: MaxApdu,
    out: &mut Vec<u8, B>,
) -> Result<(), AllocError>
    requires { apdu_code max_apdu < 16 }
    ensures put { OnOk result (out.new.items ≡ out.old.items ++
        (16 * segments_code max_segments + apdu_code max_apdu) ∷ []) }
    ensures err { OnErr result (out.new.items ≡ out.old.items) }
{
    let sizes = 16 * u8::from(max_segments) + u8::from(max_apdu);
    out.push(sizes)?;
    Ok(())
}

/// Service and data.
fn put_data<B: Allocator>(service: u8, data: &[u8], out: &mut Vec<u8, B>) -> Result<(), AllocError>
    ensures put { OnOk result (out.new.items ≡ out.old.items ++ service ∷ data.now) }
    ensures err { OnErr result (Extends out.old.items out.new.items) }
{
    out.push(service)?;
    out.extend_from_slice(data)
}

/// Invoke ID, the segment's numbers, service and data.
#[inline(always)]
fn put_segmented<B: Allocator>(
    invoke_id: u8,
    segment: &Option<Segment>,
    service: u8,
    data: &[u8],
    out: &mut Vec<u8, B>,
) -> Result<(), AllocError>
    ensures put { OnOk result (out.new.items ≡ out.old.items ++
        invoke_id ∷ (segment_octets segment.now ++ (service ∷ data.now))) }
    ensures err { OnErr result (Extends out.old.items out.new.items) }
{
    out.push(invoke_id)?;
    if let Some(segment) = segment {
        out.extend_from_slice(&[segment.sequence_number, segment.window])?;
    }
    put_data(service, data, out)
}
