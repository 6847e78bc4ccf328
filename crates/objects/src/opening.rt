//! The objects of a device as they open, and which a site may give it (clause 12).

ghost use Rattle.std.specs.Prelude.{◌≡◌, ◌∷◌, ◌↔◌, ◌≤◌, ◌+◌, ◌++◌, IsTrue, IfOk, OnOk, length, map};
ghost use Rattle.std.specs.List.{AllByRecursion};
ghost use Rattle.object_model.specs.tags.declared.object_id.ObjectId.{ObjectId};
ghost use Rattle.object_model.specs.declared.object.Object.TheVariants as object;
ghost use Rattle.object_model.specs.Objects.{identifier, name_of};
ghost use Rattle.object_model.specs.Site.{opening_value, opening_device, opening_table, IsText, IsSoundKind};
ghost use Rattle.object_model.specs.Site.{IsSoundObjectOf, IsOther, AllApart, IsSite};
ghost use Rattle.object_model.specs.profile.Limits.{MAX_OBJECTS};

use object_model::profile::MAX_OBJECTS;
use object_model::tags::{Items, ObjectId, Octets};
use object_model::writing::{text_refusal, value_refusal};
use object_model::{
    Commands, DeviceObject, Object, Places, SiteObject, SiteObjects, ValueKind, ValueObject,
};
use primitives::ObjectType;
use std::alloc::{AllocError, Allocator};

/// The least instance number that no object has.
const NO_INSTANCE: u32 = 4_194_303;

/// Whether a site may give a device these objects.
#[tactic(auto, using(crate::proofs::OpeningLaws::site_rules))]
pub fn is_site<A: Allocator>(site: &SiteObjects<A>) -> bool
    ensures { IsTrue result ↔ IsSite site.now }
{
    has_few_objects(site) && has_sound_objects(site) && has_objects_apart(site)
}

/// Whether there are at most 512 value objects beside the Device object.
#[tactic(auto, using(crate::proofs::OpeningLaws::opening_rules))]
fn has_few_objects<A: Allocator>(site: &SiteObjects<A>) -> bool
    ensures { IsTrue result ↔ (length (opening_table site.now) ≤ 1 + MAX_OBJECTS) }
{
    site.objects.len() <= MAX_OBJECTS
}

/// Whether each object is sound.
fn has_sound_objects<A: Allocator>(site: &SiteObjects<A>) -> bool
    ensures { IsTrue result ↔ AllByRecursion IsSoundObjectOf (opening_table site.now) }
{
    is_sound_device(site) && are_sound(site.objects.as_slice())
}

/// Whether no two objects have one identifier or one name.
fn has_objects_apart<A: Allocator>(site: &SiteObjects<A>) -> bool
    ensures { IsTrue result ↔ AllApart (opening_table site.now) }
{
    is_device_apart(site) && are_apart(site.objects.as_slice())
}

/// Whether no value object has the Device object's identifier or name.
fn is_device_apart<A: Allocator>(site: &SiteObjects<A>) -> bool
    ensures { IsTrue result ↔ AllByRecursion (IsOther (identifier (opening_device site.now))
        (name_of (opening_device site.now))) (map opening_value site.now.objects) }
{
    is_other(
        device_identifier(site),
        site.name.as_slice(),
        site.objects.as_slice(),
    )
}

/// The identifier of the Device object.
fn device_identifier<A: Allocator>(site: &SiteObjects<A>) -> ObjectId
    ensures { result ≡ identifier (opening_device site.now) }
{
    ObjectId {
        object_type: u16::from(ObjectType::Device),
        instance: site.instance,
    }
}

/// The identifier of a value object.
fn value_identifier<A: Allocator>(object: &SiteObject<A>) -> ObjectId
    ensures { result ≡ identifier (opening_value object.now) }
{
    ObjectId {
        object_type: u16::from(object.kind.object_type()),
        instance: object.instance,
    }
}

/// Whether the Device object's instance and texts are in range.
#[tactic(auto, using(crate::proofs::OpeningLaws::device_rules))]
fn is_sound_device<A: Allocator>(site: &SiteObjects<A>) -> bool
    ensures { IsTrue result ↔ IsSoundObjectOf (opening_device site.now) }
{
    // It is read, since its type's range is then known to the prover.
    let _vendor = site.vendor;
    site.instance < NO_INSTANCE && is_text(site.name.as_slice())
}

/// Whether each value object's instance, texts and default are in range.
fn are_sound<A: Allocator>(objects: &[SiteObject<A>]) -> bool
    ensures { IsTrue result ↔ AllByRecursion IsSoundObjectOf (map opening_value objects.now) }
{
    let mut left = objects;
    while let [first, rest @ ..] = left {
        if !is_sound(first) {
            return false;
        }
        left = rest;
    }
    true
}

/// Whether a value object's instance, texts and default are in range.
fn is_sound<A: Allocator>(object: &SiteObject<A>) -> bool
    ensures { IsTrue result ↔ IsSoundObjectOf (opening_value object.now) }
{
    is_sound_kind(object.kind)
        && object.instance < NO_INSTANCE
        && is_text(object.name.as_slice())
        && value_refusal(object.kind.datatype(), &object.default).is_none()
        && is_text(object.description.as_slice())
}

/// Whether a Multi-state Value has a state.
fn is_sound_kind(kind: ValueKind) -> bool
    ensures { IsTrue result ↔ IsSoundKind kind }
{
    match kind {
        ValueKind::MultiState { number_of_states } => 0 < number_of_states,
        ValueKind::Integer { units } => {
            // It is read, since its type's range is then known to the prover.
            let _units = units;
            true
        }
        ValueKind::Binary | ValueKind::CharacterString => true,
    }
}

/// Whether octets are a text of UTF-8 of at most 128 octets.
fn is_text(octets: &[u8]) -> bool
    ensures { IsTrue result ↔ IsText octets.now }
{
    text_refusal(0, octets).is_none()
}

/// Whether no two objects have one identifier or one name.
fn are_apart<A: Allocator>(objects: &[SiteObject<A>]) -> bool
    ensures { IsTrue result ↔ AllApart (map opening_value objects.now) }
{
    let mut left = objects;
    while let [first, rest @ ..] = left {
        if !is_apart(first, rest) {
            return false;
        }
        left = rest;
    }
    true
}

/// Whether none of the others has an object's identifier or name.
fn is_apart<A: Allocator>(object: &SiteObject<A>, others: &[SiteObject<A>]) -> bool
    ensures { IsTrue result ↔ AllByRecursion (IsOther (identifier (opening_value object.now))
        (name_of (opening_value object.now))) (map opening_value others.now) }
{
    is_other(value_identifier(object), object.name.as_slice(), others)
}

/// Whether none of the objects has this identifier or this name.
fn is_other<A: Allocator>(id: ObjectId, name: &[u8], objects: &[SiteObject<A>]) -> bool
    ensures { IsTrue result ↔ AllByRecursion (IsOther id name.now) (map opening_value objects.now) }
{
    let mut left = objects;
    while let [first, rest @ ..] = left {
        if !is_other_object(id, name, first) {
            return false;
        }
        left = rest;
    }
    true
}

/// Whether an object has neither this identifier nor this name.
fn is_other_object<A: Allocator>(id: ObjectId, name: &[u8], object: &SiteObject<A>) -> bool
    ensures { IsTrue result ↔ IsOther id name.now (opening_value object.now) }
{
    id != value_identifier(object) && name != object.name.as_slice()
}

/// The objects of a site as they open.
///
/// # Errors
/// Want of memory.
pub fn open<A: Allocator + Copy>(
    alloc: A,
    site: SiteObjects<A>,
) -> Result<Vec<Object<A>, A>, AllocError>
    ensures { IfOk result (λ objects. objects.items ≡ opening_table site) }
{
    let SiteObjects {
        name,
        instance,
        vendor,
        data_link,
        objects,
    } = site;
    let mut opened = Vec::new(alloc);
    opened.push(Object::Device(DeviceObject {
        instance,
        name,
        vendor,
        data_link,
        description: Octets::new(alloc),
    }))?;
    open_values(alloc, objects, &mut opened)?;
    Ok(opened)
}

/// Puts value objects behind others, as they open.
fn open_values<A: Allocator + Copy>(
    alloc: A,
    objects: Items<SiteObject<A>, A>,
    opened: &mut Vec<Object<A>, A>,
) -> Result<(), AllocError>
    ensures { OnOk result (opened.new.items ≡ opened.old.items ++ map opening_value objects) }
{
    for object in objects.into_vec() {
        opened.push(open_value(alloc, object)?)?;
    }
    Ok(())
}

/// A value object as it opens: its slots are empty, and it is in service.
fn open_value<A: Allocator + Copy>(alloc: A, object: SiteObject<A>) -> Result<Object<A>, AllocError>
    ensures { IfOk result (λ opened. opened ≡ opening_value object) }
{
    let SiteObject {
        kind,
        instance,
        name,
        default,
        description,
    } = object;
    Ok(Object::Value(ValueObject {
        kind,
        instance,
        name,
        slots: Commands::new(alloc)?,
        default,
        out_of_service: false,
        description,
    }))
}

/// The places of objects in their list.
///
/// # Errors
/// Want of memory.
pub fn places_of<A: Allocator + Copy>(
    alloc: A,
    objects: &[Object<A>],
) -> Result<Places<A>, AllocError>
    ensures { IfOk result (λ places. places ≡ map identifier objects.now) }
{
    let mut places = Places::new(alloc);
    for object in objects {
        places.push(object.identifier())?;
    }
    Ok(places)
}
