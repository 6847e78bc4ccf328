//! The parts of the requests with several objects, ReadPropertyMultiple and WritePropertyMultiple,
//! both ways (clauses 15.7 and 15.10).

ghost use Rattle.std.specs.Prelude.{◌≡◌, ◌<◌, ◌^◌, [], ◌≢◌, IfOk, IfErr, IsTrue, ◌↔◌, length, ◌++◌};
ghost use Rattle.std.specs.List.{AllByRecursion};
ghost use Rattle.tags.specs.Tag.{plain_tag};
ghost use Rattle.primitives.specs.Sound.{IsSoundId, IsSoundIndex, IsSoundPriority, IsSoundReference, IsSoundRefs};
ghost use Rattle.primitives.specs.Sound.{IsSoundWrite, IsSoundWrites, AreSound};
ghost use Rattle.services.specs.Fields.{TakesNumber};
ghost use Rattle.services.specs.Multiple.{OpensList, RejectsList, RejectsFirst, RejectsNext, RejectsReferences};
ghost use Rattle.services.specs.Multiple.{TakesRefs, RejectsRefs, RejectsWriteList, TakesWrites, RejectsWrites};
ghost use Rattle.services.specs.Multiple.{SpellsWriteMultiple, RejectsWriteMultiple, MustStand, SpellsReadMultiple};
ghost use Rattle.services.specs.Multiple.{RejectsReadMultiple};
ghost use Rattle.services.specs.MultipleSteps.{TakesNext, IsNext, RejectsNextTag, GoesOn, RejectsGoing, References};
ghost use Rattle.services.specs.MultipleSteps.{TakesValuesBehind, RejectsValuesBehind, RejectsPriority, PropertyWrites};
ghost use Rattle.answers.specs.Stop.{StopsFor};

use crate::fields::{
    contents_under, is_closing, number_of, priority_of, put_option, put_priority, read_inner_tag,
    read_object, read_opening, read_opening_behind, read_tag,
};
use crate::spelled::{Spelled, put_each};
use crate::values::{put_values, read_values};
use answers::Stop;
use apdu::RejectReason;
use primitives::{ObjectRefs, ObjectWrites, PropertyReference, PropertyWrite, Values};
use std::alloc::Allocator;
use tags::{Class, Fault, Items, ObjectId, Reader, Tag, write_object, write_tag, write_unsigned};

/// An object, and the opening tag 1 of its list of properties.
pub(crate) fn open_list(reader: &mut Reader<'_>) -> Result<ObjectId, RejectReason>
    ensures read { IfOk result (λ object. OpensList reader.old object reader.new) }
    ensures sound { IfOk result (λ object. IsSoundId object) }
    ensures rejected { IfErr result (λ reason. RejectsList reason reader.old) }
{
    let object = read_object(reader, 0)?;
    read_opening(reader, 1)?;
    Ok(object)
}

/// The first property of a list, which must stand next.
#[tactic(auto, using(crate::proofs::MultipleLaws::first_laws))]
fn first_property(reader: &mut Reader<'_>) -> Result<u32, RejectReason>
    ensures read { IfOk result (λ p. TakesNumber reader.old 0 p reader.new) }
    ensures rejected { IfErr result (λ reason. RejectsFirst reason reader.old) }
{
    let tag = read_tag(reader)?;
    if is_closing(tag, 1) {
        return Err(RejectReason::MissingRequiredParameter);
    }
    let Some(octets) = contents_under(tag, 0) else {
        return Err(RejectReason::InvalidTag);
    };
    number_of(octets)
}

/// What a tag behind a property is: a further property, or the end of the list.
fn property_under(tag: Tag<'_>) -> Result<Option<u32>, RejectReason>
    ensures read { IfOk result (λ next. IsNext (plain_tag tag.entry) next) }
    ensures rejected { IfErr result (λ reason. RejectsNextTag reason (plain_tag tag.entry)) }
{
    if is_closing(tag, 1) {
        return Ok(None);
    }
    let Some(octets) = contents_under(tag, 0) else {
        return Err(RejectReason::InvalidTag);
    };
    let property = number_of(octets)?;
    Ok(Some(property))
}

/// A further property, or the end of the list.
#[tactic(auto, using(crate::proofs::MultipleLaws::next_laws))]
fn next_property(reader: &mut Reader<'_>) -> Result<Option<u32>, RejectReason>
    ensures read { IfOk result (λ next. TakesNext reader.old next reader.new) }
    ensures rejected { IfErr result (λ reason. RejectsNext reason reader.old) }
{
    let tag = read_inner_tag(reader)?;
    property_under(tag)
}

/// The number that may stand under the context tag of this number, and what goes on behind it.
#[tactic(auto, using(crate::proofs::MultipleLaws::next_laws))]
fn read_index_and_next(
    reader: &mut Reader<'_>,
    number: u8,
) -> Result<(Option<u32>, Option<u32>), RejectReason>
    ensures read { IfOk result (λ x. GoesOn reader.old number x.0 x.1 reader.new) }
    ensures fits { IfOk result (λ x. IsSoundIndex x.0) }
    ensures rejected { IfErr result (λ reason. RejectsGoing reason reader.old number) }
{
    let tag = read_inner_tag(reader)?;
    let Some(octets) = contents_under(tag, number) else {
        let next = property_under(tag)?;
        return Ok((None, next));
    };
    let index = number_of(octets)?;
    let next = next_property(reader)?;
    Ok((Some(index), next))
}

/// A reference to a property, or to one element of it.
fn reference_to(property: u32, index: Option<u32>) -> PropertyReference
    requires { IsSoundIndex index }
    ensures value { result ≡ record { property = property; index = index } }
    ensures sound { IsSoundReference result }
{
    PropertyReference { property, index }
}

/// References up to the closing tag 1, one at least.
fn read_references<A: Allocator + Copy>(
    alloc: A,
    reader: &mut Reader<'_>,
) -> Result<Items<PropertyReference, A>, Stop>
    ensures read { IfOk result (λ rs. References reader.old rs reader.new) }
    ensures sound { IfOk result (λ rs. AllByRecursion IsSoundReference rs) }
    ensures rejected { IfErr result (λ stop. StopsFor (λ reason. RejectsReferences reason reader.old) stop) }
{
    let mut references = Items::new(alloc);
    let mut next = Some(first_property(reader)?);
    while let Some(property) = next {
        let (index, behind) = read_index_and_next(reader, 1)?;
        references.push(reference_to(property, index))?;
        next = behind;
    }
    Ok(references)
}

/// An object and its references (15.7.3.1, ReadAccessSpecification).
fn read_refs<A: Allocator + Copy>(alloc: A, reader: &mut Reader<'_>) -> Result<ObjectRefs<A>, Stop>
    ensures read { IfOk result (λ r. TakesRefs reader.old r reader.new) }
    ensures sound { IfOk result (λ r. IsSoundRefs r) }
    ensures rejected { IfErr result (λ stop. StopsFor (λ reason. RejectsRefs reason reader.old) stop) }
{
    let object = open_list(reader)?;
    let refs = read_references(alloc, reader)?;
    Ok(ObjectRefs { object, refs })
}

/// Whether an object must stand next: the first one, or one more where the body goes on.
#[tactic(auto, using(crate::proofs::FieldLaws::tag_laws))]
fn must_stand<T, A: Allocator>(before: &Items<T, A>, reader: &Reader<'_>) -> bool
    ensures { IsTrue result ↔ MustStand before.now reader.now }
{
    before.is_empty() || !reader.is_at_end()
}

/// What a ReadPropertyMultiple request asks (15.7.3.1).
pub(crate) fn read_many<A: Allocator + Copy>(
    alloc: A,
    reader: &mut Reader<'_>,
) -> Result<Items<ObjectRefs<A>, A>, Stop>
    ensures read { IfOk result (λ asked. SpellsReadMultiple reader.old asked) }
    ensures sound { IfOk result (λ asked. AllByRecursion IsSoundRefs asked) }
    ensures rejected { IfErr result (λ stop. StopsFor (λ reason. RejectsReadMultiple A reason reader.old) stop) }
{
    let mut asked = Items::new(alloc);
    while must_stand(&asked, reader) {
        asked.push(read_refs(alloc, reader)?)?;
    }
    Ok(asked)
}

/// The array index of a write, and its values.
fn read_values_behind<A: Allocator + Copy>(
    alloc: A,
    reader: &mut Reader<'_>,
) -> Result<(Option<u32>, Values<A>), Stop>
    ensures read { IfOk result (λ x. TakesValuesBehind reader.old x.0 x.1 reader.new) }
    ensures fits { IfOk result (λ x. IsSoundIndex x.0) }
    ensures sound { IfOk result (λ x. length reader.old < 2 ^ 31 → AreSound x.1) }
    ensures rejected { IfErr result (λ stop. StopsFor (λ reason. RejectsValuesBehind A reason reader.old) stop) }
{
    let index = read_opening_behind(reader, 1, 2)?;
    let values = read_values(alloc, reader, 2)?;
    Ok((index, values))
}

/// The priority of a write, and what goes on behind it.
fn read_priority_and_next(
    reader: &mut Reader<'_>,
) -> Result<(Option<u8>, Option<u32>), RejectReason>
    ensures read { IfOk result (λ x. GoesOn reader.old 3 x.0 x.1 reader.new) }
    ensures sound { IfOk result (λ x. IsSoundPriority x.0) }
    ensures rejected { IfErr result (λ reason. RejectsPriority reason reader.old) }
{
    let tag = read_inner_tag(reader)?;
    let Some(octets) = contents_under(tag, 3) else {
        let next = property_under(tag)?;
        return Ok((None, next));
    };
    let number = number_of(octets)?;
    let priority = priority_of(Some(number))?;
    let next = next_property(reader)?;
    Ok((priority, next))
}

/// A write of values to a property, or to one element of it.
fn property_write<A: Allocator>(
    property: u32,
    index: Option<u32>,
    values: Values<A>,
    priority: Option<u8>,
) -> PropertyWrite<A>
    requires index_fits { IsSoundIndex index }
    requires in_range { IsSoundPriority priority }
    ensures value { result ≡ record { property = property; index = index; values = values; priority = priority } }
    ensures sound { AreSound values → IsSoundWrite result }
{
    PropertyWrite {
        property,
        index,
        values,
        priority,
    }
}

/// Writes up to the closing tag 1, one at least.
fn read_property_writes<A: Allocator + Copy>(
    alloc: A,
    reader: &mut Reader<'_>,
) -> Result<Items<PropertyWrite<A>, A>, Stop>
    ensures read { IfOk result (λ ws. PropertyWrites reader.old ws reader.new) }
    ensures sound { IfOk result (λ ws. length reader.old < 2 ^ 31 → AllByRecursion IsSoundWrite ws) }
    ensures rejected { IfErr result (λ stop. StopsFor (λ reason. RejectsWriteList A reason reader.old) stop) }
{
    let mut writes = Items::new(alloc);
    let mut next = Some(first_property(reader)?);
    while let Some(property) = next {
        let (index, values) = read_values_behind(alloc, reader)?;
        let (priority, behind) = read_priority_and_next(reader)?;
        writes.push(property_write(property, index, values, priority))?;
        next = behind;
    }
    Ok(writes)
}

/// An object and the writes to it (15.10.3.1, WriteAccessSpecification).
fn read_writes<A: Allocator + Copy>(
    alloc: A,
    reader: &mut Reader<'_>,
) -> Result<ObjectWrites<A>, Stop>
    ensures read { IfOk result (λ w. TakesWrites reader.old w reader.new) }
    ensures sound { IfOk result (λ w. length reader.old < 2 ^ 31 → IsSoundWrites w) }
    ensures rejected { IfErr result (λ stop. StopsFor (λ reason. RejectsWrites A reason reader.old) stop) }
{
    let object = open_list(reader)?;
    let writes = read_property_writes(alloc, reader)?;
    Ok(ObjectWrites { object, writes })
}

/// What a WritePropertyMultiple request asks (15.10.3.1).
pub(crate) fn read_write_many<A: Allocator + Copy>(
    alloc: A,
    reader: &mut Reader<'_>,
) -> Result<Items<ObjectWrites<A>, A>, Stop>
    ensures read { IfOk result (λ asked. SpellsWriteMultiple reader.old asked) }
    ensures sound { IfOk result (λ asked. length reader.old < 2 ^ 31 → AllByRecursion IsSoundWrites asked) }
    ensures rejected { IfErr result (λ stop. StopsFor (λ reason. RejectsWriteMultiple A reason reader.old) stop) }
{
    let mut asked = Items::new(alloc);
    while must_stand(&asked, reader) {
        asked.push(read_writes(alloc, reader)?)?;
    }
    Ok(asked)
}

impl Spelled for PropertyReference {
    ghost use Rattle.primitives.specs.Sound.{IsSoundReference};
    ghost use Rattle.services.specs.CanonicalRequest.{reference_octets};

    ghost IsSound = { IsSoundReference };

    ghost octets = { reference_octets };

    fn put<B: Allocator>(&self, out: &mut Vec<u8, B>) -> Result<(), Fault> {
        write_unsigned(Class::Context, 0, self.property, out)?;
        put_option(1, self.index, out)
    }
}

impl<A: Allocator> Spelled for ObjectRefs<A> {
    ghost use Rattle.primitives.specs.Sound.{IsSoundRefs};
    ghost use Rattle.services.specs.CanonicalRequest.{refs_octets};

    ghost IsSound = { IsSoundRefs };

    ghost octets = { refs_octets };

    fn put<B: Allocator>(&self, out: &mut Vec<u8, B>) -> Result<(), Fault> {
        write_object(Class::Context, 0, self.object, out)?;
        write_tag(&Tag::opening(1), out)?;
        put_each(self.refs.as_slice(), out)?;
        write_tag(&Tag::closing(1), out)
    }
}

impl<A: Allocator> Spelled for PropertyWrite<A> {
    ghost use Rattle.primitives.specs.Sound.{IsSoundWrite};
    ghost use Rattle.services.specs.CanonicalRequest.{write_octets};

    ghost IsSound = { IsSoundWrite };

    ghost octets = { write_octets };

    fn put<B: Allocator>(&self, out: &mut Vec<u8, B>) -> Result<(), Fault> {
        write_unsigned(Class::Context, 0, self.property, out)?;
        put_option(1, self.index, out)?;
        put_values(2, self.values.as_slice(), out)?;
        put_priority(3, self.priority, out)
    }
}

impl<A: Allocator> Spelled for ObjectWrites<A> {
    ghost use Rattle.primitives.specs.Sound.{IsSoundWrites};
    ghost use Rattle.services.specs.CanonicalRequest.{writes_octets};

    ghost IsSound = { IsSoundWrites };

    ghost octets = { writes_octets };

    fn put<B: Allocator>(&self, out: &mut Vec<u8, B>) -> Result<(), Fault> {
        write_object(Class::Context, 0, self.object, out)?;
        write_tag(&Tag::opening(1), out)?;
        put_each(self.writes.as_slice(), out)?;
        write_tag(&Tag::closing(1), out)
    }
}
