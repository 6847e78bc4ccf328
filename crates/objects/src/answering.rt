//! What a table replies to a request (15.5 to 15.10).

ghost use Rattle.std.specs.Prelude.{◌≡◌, None, Some};
ghost use Rattle.objects.specs.Machine.{written_reply};
ghost use Rattle.object_model.specs.Reading.{is_special, is_selected, locate_property};
ghost use Rattle.primitives.specs.Sound.{AreSound};
ghost use Rattle.object_model.specs.Writing.{place_refusal};

use crate::table::Table;
use object_model::Object;
use object_model::reading::{NOT_AN_ARRAY, Refusal, UNKNOWN_OBJECT, locate};
use object_model::tags::{Items, ObjectId, Value};
use object_model::writing::{access, level_of, write_refusal};
use primitives::{
    ALL_PROPERTIES, OPTIONAL_PROPERTIES, ObjectRefs, ObjectResults, ObjectWrites, Property,
    PropertyReference, PropertyResult, PropertyWrite, REQUIRED_PROPERTIES, Reply, Request,
};
use std::alloc::{AllocError, Allocator};

impl<A: Allocator + Copy> Table<A> {
    ghost use Rattle.std.specs.Prelude.{◌≡◌, ◌++◌, OnOk, IfOk, None, map, filter};
    ghost use Rattle.objects.specs.Failure.{first_failure};
    ghost use Rattle.objects.specs.Machine.{reply, reading_reply};
    ghost use Rattle.primitives.specs.Numbers.{property_number};
    ghost use Rattle.object_model.specs.Objects.{properties_of};
    ghost use Rattle.object_model.specs.Reading.{object_at, is_selected, entry, selected_entries, entries_in};
    ghost use Rattle.object_model.specs.Reading.{results_of, locate, read};
    ghost use Rattle.primitives.specs.Answers.{IsAnswerTo};
    ghost use Rattle.primitives.specs.Sound.{AreSound, IsSoundRequest, IsSoundReply};
    ghost use Rattle.object_model.specs.Writing.{place_refusal, in_order, writes_to};

    /// What the object machine replies to a request. The table stays as it is (15.5.2, 15.7.2,
    /// 15.9.2, 15.10.2). It answers the request, and has a spelling where the request has one.
    ///
    /// # Errors
    /// Want of memory.
    pub fn reply(&self, request: &Request<A>) -> Result<Reply<A>, AllocError>
        ensures machine { IfOk result (λ answer. answer ≡ reply self.now request.now) }
        ensures sound { IfOk result (λ answer. IsSoundRequest request.now → IsSoundReply answer) }
        ensures answers { IfOk result (λ answer. IsAnswerTo request.now answer) }
    {
        // They are read, since what holds of every table is then known to the prover.
        let _objects = &self.objects;
        let answer = self.answer(request)?;
        Ok(answer)
    }

    /// The reply of the object machine.
    fn answer(&self, request: &Request<A>) -> Result<Reply<A>, AllocError>
        ensures { IfOk result (λ answer. answer ≡ reply self.now request.now) }
    {
        match request {
            Request::Read {
                object,
                property,
                index,
            } => self.reply_read(*object, *property, *index),
            Request::ReadMany(asked) => Ok(Reply::Many(self.read_many(asked.as_slice())?)),
            Request::Write {
                object,
                property,
                index,
                values,
                priority,
            } => Ok(written(self.refusal(
                *object,
                *property,
                *index,
                values.as_slice(),
                *priority,
            ))),
            Request::WriteMany(asked) => Ok(self.first_failure(asked.as_slice())),
        }
    }

    /// The reply to a ReadProperty.
    fn reply_read(
        &self,
        id: ObjectId,
        number: u32,
        index: Option<u32>,
    ) -> Result<Reply<A>, AllocError>
        ensures { IfOk result (λ answer. answer ≡ reading_reply (read self.now id number index)) }
    {
        Ok(match self.read(id, number, index)? {
            Ok(values) => Reply::Values(values),
            Err((class, code)) => Reply::Error(class, code),
        })
    }

    /// The failure of the first write that is refused, else that all is done.
    fn first_failure(&self, asked: &[ObjectWrites<A>]) -> Reply<A>
        ensures { result ≡ first_failure self.now (in_order asked.now) }
    {
        for group in asked {
            let reply = self.first_failure_of(group.object, group.writes.as_slice());
            if !reply.is_done() {
                return reply;
            }
        }
        Reply::Done
    }

    /// The failure of the first write to an object that is refused, else that all is done.
    fn first_failure_of(&self, object: ObjectId, writes: &[PropertyWrite<A>]) -> Reply<A>
        ensures { result ≡ first_failure self.now (writes_to object writes.now) }
    {
        for write in writes {
            if let Some((class, code)) = self.refusal(
                object,
                write.property,
                write.index,
                write.values.as_slice(),
                write.priority,
            ) {
                return Reply::ErrorAt {
                    class,
                    code,
                    object,
                    property: write.property,
                    index: write.index,
                };
            }
        }
        Reply::Done
    }

    /// What is read of objects, one after another (15.7.2).
    pub(crate) fn read_many(
        &self,
        asked: &[ObjectRefs<A>],
    ) -> Result<Items<ObjectResults<A>, A>, AllocError>
        ensures { IfOk result (λ results. results ≡ map (results_of self.now) asked.now) }
    {
        let mut results = Items::new(self.alloc());
        for refs in asked {
            results.push(self.read_refs(refs)?)?;
        }
        Ok(results)
    }

    /// What is read of one object: the entries for its references in their order.
    fn read_refs(&self, asked: &ObjectRefs<A>) -> Result<ObjectResults<A>, AllocError>
        ensures { IfOk result (λ results. results ≡ results_of self.now asked.now) }
    {
        let mut results = Items::new(self.alloc());
        for reference in asked.refs.as_slice() {
            self.push_entries(asked.object, *reference, &mut results)?;
        }
        Ok(ObjectResults {
            object: asked.object,
            results,
        })
    }

    /// Puts the entries for one reference behind others.
    fn push_entries(
        &self,
        id: ObjectId,
        reference: PropertyReference,
        entries: &mut Items<PropertyResult<A>, A>,
    ) -> Result<(), AllocError>
        ensures { OnOk result (entries.new ≡ entries.old ++ entries_in self.now id (object_at self.now id) reference) }
    {
        match self.find(id) {
            Some(object) if is_special(reference.property) => {
                self.push_special(id, object, reference, entries)
            }
            _ => entries.push(self.entry(id, reference.property, reference.index)?),
        }
    }

    /// Puts the entries for all, the optional or the required properties of an object behind
    /// others. None of them is an array.
    fn push_special(
        &self,
        id: ObjectId,
        object: &Object<A>,
        reference: PropertyReference,
        entries: &mut Items<PropertyResult<A>, A>,
    ) -> Result<(), AllocError>
        ensures { OnOk result (entries.new ≡ entries.old ++
            selected_entries self.now id object.now reference.property reference.index) }
    {
        if reference.index.is_some() {
            return entries.push(PropertyResult {
                property: reference.property,
                index: reference.index,
                result: Err(NOT_AN_ARRAY),
            });
        }
        self.push_selected(id, object.properties(), reference.property, entries)
    }

    /// Puts an entry for each property that is selected behind others.
    fn push_selected(
        &self,
        id: ObjectId,
        properties: &[Property],
        number: u32,
        entries: &mut Items<PropertyResult<A>, A>,
    ) -> Result<(), AllocError>
        ensures { OnOk result (entries.new ≡ entries.old ++ map (λ p. entry self.now id (property_number p) None)
            (filter (is_selected number) properties.now)) }
    {
        for property in properties {
            if is_selected(*property, number) {
                entries.push(self.entry(id, u32::from(*property), None)?)?;
            }
        }
        Ok(())
    }

    /// One entry of a result: what is read of one property.
    fn entry(
        &self,
        id: ObjectId,
        number: u32,
        index: Option<u32>,
    ) -> Result<PropertyResult<A>, AllocError>
        ensures { IfOk result (λ result. result ≡ entry self.now id number index) }
    {
        Ok(PropertyResult {
            property: number,
            index,
            result: self.read(id, number, index)?,
        })
    }

    /// Why a write is refused, if it is (15.9.1.3).
    pub(crate) fn refusal(
        &self,
        id: ObjectId,
        number: u32,
        index: Option<u32>,
        values: &[Value<A>],
        priority: Option<u8>,
    ) -> Option<Refusal>
        ensures refused { result ≡ place_refusal (locate self.now id number index) values.now priority }
        ensures sound { result ≡ None → AreSound values.now }
    {
        let Some(object) = self.find(id) else {
            return Some(UNKNOWN_OBJECT);
        };
        refusal_at(&self.objects, object, number, index, values, priority)
    }
}

/// The reply to a WriteProperty that is refused or not.
fn written<A: Allocator>(refusal: Option<Refusal>) -> Reply<A>
    ensures { result ≡ written_reply refusal }
{
    match refusal {
        None => Reply::Done,
        Some((class, code)) => Reply::Error(class, code),
    }
}

/// Whether a number stands for several properties.
fn is_special(number: u32) -> bool
    ensures { result ≡ is_special number }
{
    number == ALL_PROPERTIES || number == OPTIONAL_PROPERTIES || number == REQUIRED_PROPERTIES
}

/// Whether a property is among those that a number stands for.
fn is_selected(property: Property, number: u32) -> bool
    ensures { result ≡ is_selected number property }
{
    if number == ALL_PROPERTIES {
        true
    } else if number == REQUIRED_PROPERTIES {
        property.is_required()
    } else {
        !property.is_required()
    }
}

/// Why a write to an object is refused, if it is.
fn refusal_at<A: Allocator>(
    objects: &[Object<A>],
    object: &Object<A>,
    number: u32,
    index: Option<u32>,
    values: &[Value<A>],
    priority: Option<u8>,
) -> Option<Refusal>
    ensures refused { result ≡ place_refusal (locate_property objects.now
        (Some object.now) number index) values.now priority }
    ensures sound { result ≡ None → AreSound values.now }
{
    match locate(objects, object, number, index) {
        Ok(property) => write_refusal(access(object, property), level_of(priority), values),
        Err(refusal) => Some(refusal),
    }
}
