//! What a request leaves of a table (15.9, 15.10).

ghost use Rattle.std.specs.Prelude.{◌≡◌, ◌<◌, IfOk, Some, length, slice_get, slice_set};
ghost use Rattle.object_model.specs.declared.object.Object.{Object};
ghost use Rattle.primitives.specs.declared.property.Property.{Property};
ghost use Rattle.object_model.specs.Reading.{property_at};
ghost use Rattle.object_model.specs.Writing.{put};

use crate::table::Table;
use object_model::Object;
use object_model::reading::Refusal;
use object_model::tags::{Items, ObjectId};
use object_model::writing::{level_of, put};
use primitives::{ObjectWrites, PropertyWrite, Reply, Request, Values, copy_all};
use std::alloc::{AllocError, Allocator};

impl<A: Allocator + Copy> Table<A> {
    ghost use Rattle.std.specs.Prelude.{◌≡◌, OnOk, OnErr, IfOk, IfErr, Ok, Err};
    ghost use Rattle.primitives.specs.Answers.{IsAnswerTo};
    ghost use Rattle.objects.specs.Machine.{reply, after, write_outcome};
    ghost use Rattle.primitives.specs.Sound.{IsSoundRequest, IsSoundReply};
    ghost use Rattle.object_model.specs.Writing.{write, write_all, writes_to, in_order};

    /// Does what a request asks, and answers what the object machine replies (15.5.2, 15.7.2,
    /// 15.9.2, 15.10.2): that answers the request, and has a spelling where the request has one.
    /// Memory for all values that it writes is there before the first change: an
    /// `Err` leaves the table as it was.
    ///
    /// # Errors
    /// Want of memory.
    pub fn apply(&mut self, request: &Request<A>) -> Result<Reply<A>, AllocError>
        ensures machine { IfOk result (λ answer. answer ≡ reply self.old request.now) }
        ensures sound { IfOk result (λ answer. IsSoundRequest request.now → IsSoundReply answer) }
        ensures answers { IfOk result (λ answer. IsAnswerTo request.now answer) }
        ensures after { OnOk result (self.new ≡ after self.old request.now) }
        ensures unchanged { OnErr result (self.new ≡ self.old) }
    {
        // They are read, since what holds of every table is then known to the prover.
        let _objects = &self.objects;
        let answer = self.carry_out(request)?;
        Ok(answer)
    }

    /// Does what a request asks, and answers what the object machine replies.
    fn carry_out(&mut self, request: &Request<A>) -> Result<Reply<A>, AllocError>
        ensures machine { IfOk result (λ answer. answer ≡ reply self.old request.now) }
        ensures after { OnOk result (self.new ≡ after self.old request.now) }
        ensures unchanged { OnErr result (self.new ≡ self.old) }
    {
        match request {
            Request::Read { .. } | Request::ReadMany(_) => self.reply(request),
            Request::Write {
                object,
                property,
                index,
                values,
                priority,
            } => {
                let write = PropertyWrite {
                    property: *property,
                    index: *index,
                    values: copy_all(self.alloc(), values.as_slice())?,
                    priority: *priority,
                };
                Ok(self.write_one(*object, write))
            }
            Request::WriteMany(asked) => {
                let asked = copy_all(self.alloc(), asked.as_slice())?;
                Ok(self.write_groups(asked))
            }
        }
    }

    /// Does the write of a WriteProperty.
    fn write_one(&mut self, id: ObjectId, asked: PropertyWrite<A>) -> Reply<A>
        ensures { write_outcome self.old (write self.old id asked) ≡ record { table = self.new; reply = result } }
    {
        match self.write(id, asked) {
            Ok(()) => Reply::Done,
            Err((class, code)) => Reply::Error(class, code),
        }
    }

    /// Does writes to objects in order, up to the first that fails (15.10.2).
    fn write_groups(&mut self, asked: Items<ObjectWrites<A>, A>) -> Reply<A>
        ensures { write_all self.old (in_order asked) ≡ record { table = self.new; reply = result } }
    {
        for group in asked.into_vec() {
            let reply = self.write_group(group.object, group.writes);
            if !reply.is_done() {
                return reply;
            }
        }
        Reply::Done
    }

    /// Does writes to one object in order, up to the first that fails.
    fn write_group(&mut self, object: ObjectId, writes: Items<PropertyWrite<A>, A>) -> Reply<A>
        ensures { write_all self.old (writes_to object writes) ≡ record { table = self.new; reply = result } }
    {
        for write in writes.into_vec() {
            let (property, index) = (write.property, write.index);
            if let Err((class, code)) = self.write(object, write) {
                return Reply::ErrorAt {
                    class,
                    code,
                    object,
                    property,
                    index,
                };
            }
        }
        Reply::Done
    }

    /// Does a write. An `Err` says which rule refuses it, and leaves the table as it was.
    fn write(&mut self, id: ObjectId, asked: PropertyWrite<A>) -> Result<(), Refusal>
        ensures done { OnOk result (write self.old id asked ≡ Ok self.new) }
        ensures refused { IfErr result (λ refusal. write self.old id asked ≡ Err refusal) }
        ensures unchanged { OnErr result (self.new ≡ self.old) }
    {
        if let Some(refusal) = self.refusal(
            id,
            asked.property,
            asked.index,
            asked.values.as_slice(),
            asked.priority,
        ) {
            return Err(refusal);
        }
        if let Some(place) = self.places.find(id) {
            put_at(
                &mut self.objects,
                place,
                asked.property,
                level_of(asked.priority),
                asked.values,
            );
        }
        Ok(())
    }
}

/// Puts the one value of a write into the property of this number of the object at a place.
fn put_at<A: Allocator>(
    objects: &mut Vec<Object<A>, A>,
    place: usize,
    number: u32,
    level: u8,
    values: Values<A>,
)
    requires { place < length objects.old.items }
    ensures { (o : Object A) (p : Property) → slice_get objects.old.items place ≡ Some o →
        property_at o number ≡ Some p → objects.new.items ≡ slice_set objects.old.items place (put p level values o) }
{
    if let Some(property) = objects[place].property(number) {
        put(&mut objects[place], property, level, values);
    }
}
