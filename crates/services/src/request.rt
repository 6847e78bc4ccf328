//! The requests of the confirmed services, both ways (clauses 15.5, 15.7, 15.9 and 15.10).

ghost use Rattle.std.specs.Prelude.{◌≡◌, ◌<◌, ◌^◌, ◌≢◌, [], IfOk, IfErr, IsOk, OnErr, length, ◌++◌, OnOk};
ghost use Rattle.primitives.specs.Sound.{IsSoundId, IsSoundIndex, IsSoundPriority, IsSoundRequest, AreSound};
ghost use Rattle.apdu.specs.Numbers.{service_number, NoService};
ghost use Rattle.services.specs.Request.{SpellsRequest, OnlyRequest, NoRequest, RejectsRequest, request_service};
ghost use Rattle.services.specs.Requests.{TakesProperty, RejectsProperty, SpellsReadProperty, RejectsReadProperty};
ghost use Rattle.services.specs.Requests.{TakesWrite, RejectsWrite, RejectsTail, RejectsWriteProperty};
ghost use Rattle.services.specs.Fields.{TakesLast};
ghost use Rattle.answers.specs.Stop.{StopsFor};
ghost use Rattle.tags.specs.Canonical.{Extends};
ghost use Rattle.services.specs.CanonicalRequest.{read_octets, canonical_request};

use crate::fields::{
    priority_of, put_option, put_priority, read_end, read_last, read_number, read_object,
    read_opening_behind,
};
use crate::multiple::{read_many, read_write_many};
use crate::spelled::put_each;
use crate::values::{put_values, read_values};
use answers::{Stop, reject_reason};
use apdu::{ConfirmedService, RejectReason};
use primitives::{Request, Values};
use std::alloc::{AllocError, Allocator};
use tags::{Class, Fault, ObjectId, Reader, all_or_none, write_object, write_unsigned};

/// The parameters of ReadProperty (15.5.1).
#[derive(Clone, Copy)]
struct ReadParameters {
    object: ObjectId,
    property: u32,
    index: Option<u32>,
}

/// The parameters of WriteProperty (15.9.1), up to the priority.
#[derive(Drop)]
pub(crate) struct WriteParameters<A: Allocator> {
    pub(crate) object: ObjectId,
    pub(crate) property: u32,
    pub(crate) index: Option<u32>,
    pub(crate) values: Values<A>,
}

/// The object and the property with which ReadProperty and WriteProperty begin (15.5.1, 15.9.1).
#[inline(always)]
fn read_property(reader: &mut Reader<'_>) -> Result<(ObjectId, u32), RejectReason>
    ensures read { IfOk result (λ x. TakesProperty reader.old x.0 x.1 reader.new) }
    ensures sound { IfOk result (λ x. IsSoundId x.0) }
    ensures rejected { IfErr result (λ reason. RejectsProperty reason reader.old) }
{
    let object = read_object(reader, 0)?;
    let property = read_number(reader, 1)?;
    Ok((object, property))
}

/// The parameters of ReadProperty (15.5.1).
fn parameters_to_read(reader: &mut Reader<'_>) -> Result<ReadParameters, RejectReason>
    ensures read { IfOk result (λ r. SpellsReadProperty reader.old r.object r.property r.index) }
    ensures sound { IfOk result (λ r. IsSoundId r.object × IsSoundIndex r.index) }
    ensures rejected { IfErr result (λ reason. RejectsReadProperty reason reader.old) }
{
    let (object, property) = read_property(reader)?;
    let index = read_last(reader, 2)?;
    read_end(reader)?;
    Ok(ReadParameters {
        object,
        property,
        index,
    })
}

/// The parameters of WriteProperty (15.9.1), up to the priority. A ReadProperty-ACK has the same
/// (15.5.1).
pub(crate) fn parameters_to_write<A: Allocator + Copy>(
    alloc: A,
    reader: &mut Reader<'_>,
) -> Result<WriteParameters<A>, Stop>
    ensures read { IfOk result (λ w. TakesWrite reader.old w.object w.property w.index w.values reader.new) }
    ensures sound { IfOk result (λ w. IsSoundId w.object × IsSoundIndex w.index ×
        (length reader.old < 2 ^ 31 → AreSound w.values)) }
    ensures rejected { IfErr result (λ stop. StopsFor (λ reason. RejectsWrite A reason reader.old) stop) }
{
    let (object, property) = read_property(reader)?;
    let index = read_opening_behind(reader, 2, 3)?;
    let values = read_values(alloc, reader, 3)?;
    Ok(WriteParameters {
        object,
        property,
        index,
        values,
    })
}

/// The priority that may stand last in WriteProperty (15.9.1.1.5).
fn read_tail(reader: &mut Reader<'_>) -> Result<Option<u8>, RejectReason>
    ensures read { IfOk result (λ priority. TakesLast reader.old 4 priority [] × IsSoundPriority priority) }
    ensures rejected { IfErr result (λ reason. RejectsTail reason reader.old) }
{
    let number = read_last(reader, 4)?;
    let priority = priority_of(number)?;
    read_end(reader)?;
    Ok(priority)
}

/// A ReadProperty request (15.5.1). It takes no memory.
fn request_to_read<A: Allocator>(reader: &mut Reader<'_>) -> Result<Request<A>, RejectReason>
    ensures read { IfOk result (λ request. SpellsRequest 12 reader.old request) }
    ensures sound { IfOk result (λ request. IsSoundRequest request) }
    ensures rejected { IfErr result (λ reason. RejectsReadProperty reason reader.old) }
{
    let parameters = parameters_to_read(reader)?;
    Ok(Request::Read {
        object: parameters.object,
        property: parameters.property,
        index: parameters.index,
    })
}

/// A WriteProperty request (15.9.1).
fn request_to_write<A: Allocator + Copy>(
    alloc: A,
    reader: &mut Reader<'_>,
) -> Result<Request<A>, Stop>
    ensures read { IfOk result (λ request. SpellsRequest 15 reader.old request) }
    ensures sound { IfOk result (λ request. length reader.old < 2 ^ 31 → IsSoundRequest request) }
    ensures rejected { IfErr result (λ stop. StopsFor (λ reason. RejectsWriteProperty A reason reader.old) stop) }
{
    let WriteParameters {
        object,
        property,
        index,
        values,
    } = parameters_to_write(alloc, reader)?;
    let priority = read_tail(reader)?;
    Ok(Request::Write {
        object,
        property,
        index,
        values,
        priority,
    })
}

/// The body of a service behind its number.
fn body_of<A: Allocator + Copy>(
    alloc: A,
    service: ConfirmedService,
    reader: &mut Reader<'_>,
) -> Result<Request<A>, Stop>
    ensures read { IfOk result (λ request. SpellsRequest (service_number service) reader.old request) }
    ensures sound { IfOk result (λ request. length reader.old < 2 ^ 31 → IsSoundRequest request) }
    ensures rejected { IfErr result (λ stop. StopsFor (λ reason. RejectsRequest A reason
        (service_number service) reader.old) stop) }
    ensures memory { service ≡ ConfirmedService.ReadProperty → IfErr result (λ stop. stop ≢ Stop.Memory) }
{
    match service {
        ConfirmedService::ReadProperty => {
            let request = request_to_read(reader)?;
            Ok(request)
        }
        ConfirmedService::ReadPropertyMultiple => {
            let asked = read_many(alloc, reader)?;
            Ok(Request::ReadMany(asked))
        }
        ConfirmedService::WriteProperty => request_to_write(alloc, reader),
        ConfirmedService::WritePropertyMultiple => {
            let asked = read_write_many(alloc, reader)?;
            Ok(Request::WriteMany(asked))
        }
    }
}

/// The request that a confirmed service and the octets behind it spell (15.5, 15.7, 15.9, 15.10).
/// Numbers and lengths are read in longer forms too. Its lists are in memory of `alloc`;
/// ReadProperty takes none.
///
/// # Errors
/// Want of memory; within, the reason of the Reject with which the body is answered (18.9).
#[tactic(auto, using(crate::proofs::NoRequest::request_laws))]
pub fn decode_request<A: Allocator + Copy>(
    alloc: A,
    service: u8,
    body: &[u8],
) -> Result<Result<Request<A>, RejectReason>, AllocError>
    ensures read { IfOk result (λ found. IfOk found (λ request. SpellsRequest service body.now request)) }
    ensures only { IfOk result (λ found. IfOk found (λ request. OnlyRequest service body.now request)) }
    ensures sound { IfOk result (λ found. IfOk found (λ request. length body.now < 2 ^ 31 → IsSoundRequest request)) }
    ensures rejected { IfOk result (λ found. IfErr found (λ reason. RejectsRequest A reason service body.now)) }
    ensures refused { IfOk result (λ found. OnErr found (NoRequest A service body.now)) }
    ensures memory { service ≡ 12 → IsOk result }
    ensures unknown { NoService service → result ≡ Ok (Err RejectReason.UnrecognizedService) }
{
    let Ok(service) = ConfirmedService::try_from(service) else {
        return Ok(Err(RejectReason::UnrecognizedService));
    };
    let mut reader = Reader::new(body);
    match body_of(alloc, service, &mut reader) {
        Ok(request) => Ok(Ok(request)),
        Err(stop) => {
            let reason = reject_reason(stop)?;
            Ok(Err(reason))
        }
    }
}

/// The service that a request asks for (15).
pub fn service_of<A: Allocator>(request: &Request<A>) -> ConfirmedService
    ensures { result ≡ request_service request.now }
{
    match request {
        Request::Read { .. } => ConfirmedService::ReadProperty,
        Request::ReadMany(_) => ConfirmedService::ReadPropertyMultiple,
        Request::Write { .. } => ConfirmedService::WriteProperty,
        Request::WriteMany(_) => ConfirmedService::WritePropertyMultiple,
    }
}

/// Appends a ReadProperty request (15.5.1).
pub(crate) fn put_read<B: Allocator>(
    object: ObjectId,
    property: u32,
    index: Option<u32>,
    out: &mut Vec<u8, B>,
) -> Result<(), Fault>
    requires { IsSoundId object }
    ensures put { OnOk result (out.new.items ≡ out.old.items ++ read_octets object property index) }
    ensures memory { IfErr result (λ fault. fault ≡ Fault.Memory) }
    ensures err { OnErr result (Extends out.old.items out.new.items) }
{
    write_object(Class::Context, 0, object, out)?;
    write_unsigned(Class::Context, 1, property, out)?;
    put_option(2, index, out)
}

/// Appends a request behind its service.
fn put_request<A: Allocator, B: Allocator>(
    request: &Request<A>,
    out: &mut Vec<u8, B>,
) -> Result<(), Fault>
    requires { IsSoundRequest request.now }
    ensures put { OnOk result (out.new.items ≡ out.old.items ++ canonical_request request.now) }
    ensures memory { IfErr result (λ fault. fault ≡ Fault.Memory) }
    ensures err { OnErr result (Extends out.old.items out.new.items) }
{
    match request {
        Request::Read {
            object,
            property,
            index,
        } => put_read(*object, *property, *index, out),
        Request::ReadMany(asked) => put_each(asked.as_slice(), out),
        Request::Write {
            object,
            property,
            index,
            values,
            priority,
        } => {
            put_read(*object, *property, *index, out)?;
            put_values(3, values.as_slice(), out)?;
            put_priority(4, *priority, out)
        }
        Request::WriteMany(asked) => put_each(asked.as_slice(), out),
    }
}

/// Appends the octets of a request behind its service, in their shortest form (15.5, 15.7, 15.9,
/// 15.10).
///
/// # Errors
/// `Memory` alone. The buffer is then as it was.
pub fn encode_request<A: Allocator, B: Allocator>(
    request: &Request<A>,
    out: &mut Vec<u8, B>,
) -> Result<(), Fault>
    requires { IsSoundRequest request.now }
    ensures written { OnOk result (out.new.items ≡ out.old.items ++ canonical_request request.now) }
    ensures memory { IfErr result (λ fault. fault ≡ Fault.Memory) }
    ensures unchanged { OnErr result (out.new.items ≡ out.old.items) }
{
    let start = out.len();
    let put = put_request(request, out);
    all_or_none(put, start, out)
}
