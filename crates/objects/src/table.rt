//! The table of a device: its objects, what it answers for them, and what a request leaves of
//! them (clause 15).

ghost use Rattle.std.specs.Prelude.{◌≡◌, ◌<◌, ◌^◌, Some, IfOk, length};
ghost use Rattle.object_model.specs.Reading.{read_place, locate_property};

use crate::opening::{is_site, open, places_of};
use object_model::reading::{self, Refusal, UNKNOWN_OBJECT, locate, object_at};
use object_model::tags::{Fault, ObjectId};
use object_model::{Object, Places, SiteObjects};
use primitives::{Values, copy_all};
use std::alloc::{AllocError, Allocator};
use std::marker::Model;

/// The objects of a device. A contract sees the object machine's table.
#[derive(Drop)]
pub struct Table<A: Allocator> {
    pub(crate) objects: Vec<Object<A>, A>,
    pub(crate) places: Places<A>,
}

impl<A: Allocator> Model for Table<A> {
    ghost use Rattle.std.specs.Prelude.{◌≡◌, map};
    ghost use Rattle.object_model.specs.Objects.{PlainTable, identifier};
    ghost use Rattle.object_model.specs.Site.{IsSoundTable};

    ghost Value = { PlainTable A };

    ghost view = { λ s. s.objects.items };

    ghost invariant = { λ s. (s.places ≡ map identifier s.objects.items) × IsSoundTable s.objects.items };
}

impl<A: Allocator + Copy> Table<A> {
    ghost use Rattle.std.specs.Prelude.{◌≡◌, ◌⊎◌, OnOk, IfOk, IfErr, MatchOption, option_copied, Ok, Err};
    ghost use Rattle.primitives.specs.Answers.{IsAnswerTo};
    ghost use Rattle.objects.specs.Machine.{reply, after};
    ghost use Rattle.object_model.specs.Reading.{object_at, read};
    ghost use Rattle.object_model.specs.Site.{opening_table, IsSite, IsFaultySite};
    ghost use Rattle.primitives.specs.Sound.{IsSoundRequest, IsSoundReply};

    /// The table of a site's objects, as it opens (12).
    ///
    /// # Errors
    /// `BadSite` where an instance is over 4194302, there are over 512 value objects, two objects
    /// have one identifier or one name, a text is over 128 octets or no UTF-8, a Multi-state Value
    /// has no state, or a default is no value of its object; or `Memory`.
    pub fn new(alloc: A, site: SiteObjects<A>) -> Result<Self, Fault>
        ensures opened { IfOk result (λ table. table ≡ opening_table site) }
        ensures sound { OnOk result (IsSite site) }
        ensures refused { IfErr result (λ fault. (fault ≡ Fault.Memory) ⊎
            ((fault ≡ Fault.BadSite) × IsFaultySite site)) }
    {
        if !is_site(&site) {
            return Err(Fault::BadSite);
        }
        let objects = open(alloc, site)?;
        let places = places_of(alloc, &objects)?;
        Ok(Table { objects, places })
    }

    /// An equal table, in memory of the same allocator.
    ///
    /// # Errors
    /// Want of memory.
    pub fn copy(&self) -> Result<Self, AllocError>
        ensures { IfOk result (λ copy. copy ≡ self.now) }
    {
        let alloc = *self.objects.allocator();
        let objects = copy_all(alloc, &self.objects)?.into_vec();
        let places = places_of(alloc, &objects)?;
        Ok(Table { objects, places })
    }

    /// The allocator of the table's memory.
    pub(crate) fn alloc(&self) -> A {
        *self.objects.allocator()
    }

    /// The object of this identifier.
    pub(crate) fn find(&self, id: ObjectId) -> Option<&Object<A>>
        ensures { option_copied result ≡ object_at self.now id }
    {
        match self.places.find(id) {
            Some(place) => object_at(&self.objects, place),
            None => None,
        }
    }

    /// What is read of a property: its values, or why there are none (15.5.2).
    pub(crate) fn read(
        &self,
        id: ObjectId,
        number: u32,
        index: Option<u32>,
    ) -> Result<Result<Values<A>, Refusal>, AllocError>
        ensures { IfOk result (λ reading. reading ≡ read self.now id number index) }
    {
        let Some(object) = self.find(id) else {
            return Ok(Err(UNKNOWN_OBJECT));
        };
        read_found(self.alloc(), &self.objects, object, number, index)
    }
}

/// What is read of an object's property.
fn read_found<A: Allocator + Copy>(
    alloc: A,
    objects: &[Object<A>],
    object: &Object<A>,
    number: u32,
    index: Option<u32>,
) -> Result<Result<Values<A>, Refusal>, AllocError>
    requires { length objects.now < 2 ^ 31 }
    ensures { IfOk result (λ reading. reading ≡ read_place objects.now
        (locate_property objects.now (Some object.now) number index) index) }
{
    match locate(objects, object, number, index) {
        Ok(property) => Ok(Ok(reading::read(alloc, objects, object, property, index)?)),
        Err(refusal) => Ok(Err(refusal)),
    }
}
