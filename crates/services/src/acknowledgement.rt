//! The service data of the ComplexACKs of ReadProperty and ReadPropertyMultiple, both ways (clauses
//! 15.5 and 15.7). Where they are none, the reason of a Reject is not looked at: an answer is dropped.

ghost use Rattle.std.specs.Prelude.{◌≡◌, ◌<◌, ◌^◌, [], IfOk, IfErr, IfSome, IfNone, OnErr, length, ◌++◌, OnOk};
ghost use Rattle.std.specs.List.{AllByRecursion};
ghost use Rattle.tags.specs.Tag.{plain_tag};
ghost use Rattle.primitives.specs.Sound.{AreSound, IsSoundError, IsSoundIndex, IsSoundReading, IsSoundResult};
ghost use Rattle.primitives.specs.Sound.{IsSoundResults};
ghost use Rattle.services.specs.Fields.{TakesClosing, TakesEach};
ghost use Rattle.services.specs.Reply.{TakesErrorInside, TakesIndexed, TakesResult, TakesResultList, TakesResults};
ghost use Rattle.services.specs.ReplySteps.{NoReadAck, NoErrorInside, ReadingUnder, NoReadingUnder, NoIndexed};
ghost use Rattle.services.specs.ReplySteps.{TakesNextResult, NoNextResult, NoResult, NoResultList, NoResults};
ghost use Rattle.services.specs.ReplySteps.{NoManyAck};
ghost use Rattle.services.specs.Requests.{TakesWrite};
ghost use Rattle.answers.specs.Stop.{StopsFor};
ghost use Rattle.tags.specs.Canonical.{Extends};
ghost use Rattle.primitives.specs.Errors.{class_number, code_number};
ghost use Rattle.apdu.specs.ApduWriting.{class_and_code_octets};
ghost use Rattle.apdu.specs.ParameterWriting.{opening_octets, closing_octets};
ghost use Rattle.services.specs.CanonicalReply.{reading_octets};

use crate::fields::{
    contents_under, is_closing, is_opening, number_of, put_option, read_closing, read_end, read_tag,
};
use crate::multiple::open_list;
use crate::request::{WriteParameters, parameters_to_write};
use crate::spelled::{Spelled, put_each};
use crate::values::{put_values, read_values};
use answers::{Stop, is_about};
use apdu::{ObjectPropertyReference, RejectReason, class_and_code_from, write_class_and_code};
use primitives::{ErrorClass, ErrorCode, ObjectResults, PropertyResult, Values};
use std::alloc::Allocator;
use tags::{Class, Fault, Items, ObjectId, Reader, Tag, write_object, write_tag, write_unsigned};

/// What was read of a property: its values, or the class and code of an error.
type Reading<A> = Result<Values<A>, (ErrorClass, ErrorCode)>;

/// The values in a ReadProperty-ACK of this object, property and index (15.5.1).
pub(crate) fn read_ack<A: Allocator + Copy>(
    alloc: A,
    reader: &mut Reader<'_>,
    object: ObjectId,
    property: u32,
    index: Option<u32>,
) -> Result<Values<A>, Stop>
    ensures read { IfOk result (λ values. TakesWrite reader.old object property index values []) }
    ensures sound { IfOk result (λ values. length reader.old < 2 ^ 31 → AreSound values) }
    ensures none { IfErr result (λ stop. StopsFor (λ reason. NoReadAck A reader.old object property index) stop) }
{
    let read = parameters_to_write(alloc, reader)?;
    let found = ObjectPropertyReference {
        object: read.object,
        property: read.property,
        index: read.index,
    };
    let asked = ObjectPropertyReference {
        object,
        property,
        index,
    };
    if !is_about(found, asked) {
        return Err(Stop::Reject(RejectReason::InvalidTag));
    }
    read_end(reader)?;
    Ok(read.values)
}

/// Class and code, up to the closing tag 5 (15.7.3.2).
fn read_error(reader: &mut Reader<'_>) -> Result<(ErrorClass, ErrorCode), RejectReason>
    ensures read { IfOk result (λ e. TakesErrorInside reader.old e.0 e.1 reader.new) }
    ensures sound { IfOk result (λ e. IsSoundError e.0 e.1) }
    ensures none { OnErr result (NoErrorInside reader.old) }
{
    let Some(error) = class_and_code_from(reader) else {
        return Err(RejectReason::InvalidTag);
    };
    read_closing(reader, 5)?;
    Ok(error)
}

/// What was read, where this tag opens it (15.7.3.2).
fn read_under<A: Allocator + Copy>(
    alloc: A,
    tag: Tag<'_>,
    reader: &mut Reader<'_>,
) -> Result<Reading<A>, Stop>
    ensures read { IfOk result (λ r. ReadingUnder (plain_tag tag.entry) reader.old r reader.new) }
    ensures sound { IfOk result (λ r. length reader.old < 2 ^ 31 → IsSoundReading r) }
    ensures none { IfErr result (λ stop. StopsFor (λ reason. NoReadingUnder A (plain_tag tag.entry) reader.old) stop) }
{
    if is_opening(tag, 4) {
        let values = read_values(alloc, reader, 4)?;
        return Ok(Ok(values));
    }
    if is_opening(tag, 5) {
        let error = read_error(reader)?;
        return Ok(Err(error));
    }
    Err(Stop::Reject(RejectReason::InvalidTag))
}

/// The index of a property, and what was read of it (15.7.3.2).
fn read_indexed<A: Allocator + Copy>(
    alloc: A,
    reader: &mut Reader<'_>,
) -> Result<(Option<u32>, Reading<A>), Stop>
    ensures read { IfOk result (λ x. TakesIndexed reader.old x.0 x.1 reader.new) }
    ensures fits { IfOk result (λ x. IsSoundIndex x.0) }
    ensures sound { IfOk result (λ x. length reader.old < 2 ^ 31 → IsSoundReading x.1) }
    ensures none { IfErr result (λ stop. StopsFor (λ reason. NoIndexed A reader.old) stop) }
{
    let tag = read_tag(reader)?;
    let Some(octets) = contents_under(tag, 3) else {
        let reading = read_under(alloc, tag, reader)?;
        return Ok((None, reading));
    };
    let index = number_of(octets)?;
    let tag = read_tag(reader)?;
    let reading = read_under(alloc, tag, reader)?;
    Ok((Some(index), reading))
}

/// A further property, or the end of the list.
fn next_property(reader: &mut Reader<'_>) -> Result<Option<u32>, RejectReason>
    ensures read { IfOk result (λ next. TakesNextResult reader.old next reader.new) }
    ensures none { OnErr result (NoNextResult reader.old) }
{
    let tag = read_tag(reader)?;
    if is_closing(tag, 1) {
        return Ok(None);
    }
    let Some(octets) = contents_under(tag, 2) else {
        return Err(RejectReason::InvalidTag);
    };
    let property = number_of(octets)?;
    Ok(Some(property))
}

/// A property and what was read of it, or `None` behind the closing tag of the list (15.7.3.2).
fn next_result<A: Allocator + Copy>(
    alloc: A,
    reader: &mut Reader<'_>,
) -> Result<Option<PropertyResult<A>>, Stop>
    ensures read { IfOk result (λ found. IfSome found (λ r. TakesResult reader.old r reader.new)) }
    ensures sound { IfOk result (λ found. IfSome found (λ r. length reader.old < 2 ^ 31 → IsSoundResult r)) }
    ensures closed { IfOk result (λ found. IfNone found (TakesClosing reader.old 1 reader.new)) }
    ensures none { IfErr result (λ stop. StopsFor (λ reason. NoResult A reader.old) stop) }
{
    let Some(property) = next_property(reader)? else {
        return Ok(None);
    };
    let (index, result) = read_indexed(alloc, reader)?;
    Ok(Some(PropertyResult {
        property,
        index,
        result,
    }))
}

/// What was read of properties, up to the closing tag of the list (15.7.3.2).
#[tactic(auto, using(crate::proofs::NoReply::list_laws))]
fn read_result_list<A: Allocator + Copy>(
    alloc: A,
    reader: &mut Reader<'_>,
) -> Result<Items<PropertyResult<A>, A>, Stop>
    ensures read { IfOk result (λ rs. TakesResultList reader.old rs reader.new) }
    ensures sound { IfOk result (λ rs. length reader.old < 2 ^ 31 → AllByRecursion IsSoundResult rs) }
    ensures none { IfErr result (λ stop. StopsFor (λ reason. NoResultList A reader.old) stop) }
{
    let mut results = Items::new(alloc);
    while let Some(result) = next_result(alloc, reader)? {
        results.push(result)?;
    }
    Ok(results)
}

/// An object and what was read of it (15.7.3.2, ReadAccessResult).
fn read_results<A: Allocator + Copy>(
    alloc: A,
    reader: &mut Reader<'_>,
) -> Result<ObjectResults<A>, Stop>
    ensures read { IfOk result (λ r. TakesResults reader.old r reader.new) }
    ensures sound { IfOk result (λ r. length reader.old < 2 ^ 31 → IsSoundResults r) }
    ensures none { IfErr result (λ stop. StopsFor (λ reason. NoResults A reader.old) stop) }
{
    let object = open_list(reader)?;
    let results = read_result_list(alloc, reader)?;
    Ok(ObjectResults { object, results })
}

/// What a ReadPropertyMultiple-ACK says of each object (15.7.3.2).
#[tactic(auto, using(crate::proofs::NoReply::many_laws))]
pub(crate) fn read_many_ack<A: Allocator + Copy>(
    alloc: A,
    reader: &mut Reader<'_>,
) -> Result<Items<ObjectResults<A>, A>, Stop>
    ensures read { IfOk result (λ rs. TakesEach TakesResults reader.old rs []) }
    ensures sound { IfOk result (λ rs. length reader.old < 2 ^ 31 → AllByRecursion IsSoundResults rs) }
    ensures none { IfErr result (λ stop. StopsFor (λ reason. NoManyAck A reader.old) stop) }
{
    let mut all = Items::new(alloc);
    while !reader.is_at_end() {
        all.push(read_results(alloc, reader)?)?;
    }
    Ok(all)
}

/// Appends class and code between the tags 5 (15.7.3.2).
fn put_error<B: Allocator>(
    class: ErrorClass,
    code: ErrorCode,
    out: &mut Vec<u8, B>,
) -> Result<(), Fault>
    ensures put { OnOk result (out.new.items ≡ out.old.items ++
        (opening_octets 5 ++ class_and_code_octets (class_number class) (code_number code) ++ closing_octets 5)) }
    ensures memory { IfErr result (λ fault. fault ≡ Fault.Memory) }
    ensures err { OnErr result (Extends out.old.items out.new.items) }
{
    write_tag(&Tag::opening(5), out)?;
    write_class_and_code(class, code, out)?;
    write_tag(&Tag::closing(5), out)
}

/// Appends what was read of a property (15.7.3.2).
fn put_reading<A: Allocator, B: Allocator>(
    reading: &Result<Values<A>, (ErrorClass, ErrorCode)>,
    out: &mut Vec<u8, B>,
) -> Result<(), Fault>
    requires { IsSoundReading reading.now }
    ensures put { OnOk result (out.new.items ≡ out.old.items ++ reading_octets reading.now) }
    ensures memory { IfErr result (λ fault. fault ≡ Fault.Memory) }
    ensures err { OnErr result (Extends out.old.items out.new.items) }
{
    match reading {
        Ok(values) => put_values(4, values.as_slice(), out),
        Err((class, code)) => put_error(*class, *code, out),
    }
}

impl<A: Allocator> Spelled for PropertyResult<A> {
    ghost use Rattle.primitives.specs.Sound.{IsSoundResult};
    ghost use Rattle.services.specs.CanonicalReply.{result_octets};

    ghost IsSound = { IsSoundResult };

    ghost octets = { result_octets };

    fn put<B: Allocator>(&self, out: &mut Vec<u8, B>) -> Result<(), Fault> {
        write_unsigned(Class::Context, 2, self.property, out)?;
        put_option(3, self.index, out)?;
        put_reading(&self.result, out)
    }
}

impl<A: Allocator> Spelled for ObjectResults<A> {
    ghost use Rattle.primitives.specs.Sound.{IsSoundResults};
    ghost use Rattle.services.specs.CanonicalReply.{results_octets};

    ghost IsSound = { IsSoundResults };

    ghost octets = { results_octets };

    fn put<B: Allocator>(&self, out: &mut Vec<u8, B>) -> Result<(), Fault> {
        write_object(Class::Context, 0, self.object, out)?;
        write_tag(&Tag::opening(1), out)?;
        put_each(self.results.as_slice(), out)?;
        write_tag(&Tag::closing(1), out)
    }
}
