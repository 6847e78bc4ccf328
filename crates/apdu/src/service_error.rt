//! The contents of an Error PDU: why a service failed.

ghost use Rattle.std.specs.Prelude.{◌≡◌, ◌<◌, ◌^◌, Some, ◌↔◌, ◌++◌, IsTrue, IfSome, IfNone, IfErr, OnOk, OnErr};
ghost use Rattle.primitives.specs.Errors.{class_number, code_number};
ghost use Rattle.apdu.specs.ServiceError.{TakesReference, OnlyReference, NoReference, EndsReference, OnlyEnd, NoEnd};
ghost use Rattle.apdu.specs.ServiceError.{SpellsFailedWrite, OnlyFailedWrite, NoFailedWrite, SpellsError, OnlyError};
ghost use Rattle.apdu.specs.ServiceError.{NoError, HasNames};
ghost use Rattle.apdu.specs.ApduWriting.{class_and_code_octets, error_octets, CanBeNamed, FitsError, NamesWriteOf};
ghost use Rattle.tags.specs.Canonical.{Extends};

use crate::numbers::ConfirmedService;
use apdu_fields::{
    class_and_code_from, closing_from, contents_of, number_from, object_from, opening_from,
};
use primitives::{ErrorClass, ErrorCode};
use std::alloc::Allocator;
use tags::{
    Class, Fault, ObjectId, Reader, Tag, all_or_none, unsigned_from_contents, write_object,
    write_tag, write_unsigned,
};

/// An element or a whole property of an object (21, BACnetObjectPropertyReference).
#[derive(Clone, Copy, Debug, PartialEq, Eq)]
pub struct ObjectPropertyReference {
    /// The object.
    pub object: ObjectId,
    /// The property's number.
    pub property: u32,
    /// The index of the element, 0 for the length of an array.
    pub index: Option<u32>,
}

/// Why a service failed: class and code (18), and for WritePropertyMultiple the first write that
/// failed (15.10.1.3).
#[derive(Clone, Copy, Debug, PartialEq, Eq)]
pub struct ServiceError {
    /// The class.
    pub class: ErrorClass,
    /// The code.
    pub code: ErrorCode,
    /// The first write that failed, of WritePropertyMultiple alone.
    pub first_failed: Option<ObjectPropertyReference>,
}

impl ServiceError {
    /// The error that the octets spell, all of them, as the contents of an Error of this service.
    #[tactic(auto, using(crate::proofs::ServiceErrors::error_rules))]
    pub(crate) fn from_contents(service: u8, contents: &[u8]) -> Option<ServiceError>
        ensures read { IfSome result (λ e. SpellsError service contents.now (class_number e.class)
            (code_number e.code) e.first_failed) }
        ensures only { IfSome result (λ e. OnlyError service contents.now (class_number e.class)
            (code_number e.code) e.first_failed) }
        ensures named { IfSome result HasNames }
        ensures refused { IfNone result (NoError service contents.now) }
    {
        let mut reader = Reader::new(contents);
        if service == u8::from(ConfirmedService::WritePropertyMultiple) {
            let error = failed_write_from(&mut reader)?;
            return Some(error);
        }
        let (class, code) = class_and_code_from(&mut reader)?;
        if !reader.is_at_end() {
            return None;
        }
        Some(ServiceError {
            class,
            code,
            first_failed: None,
        })
    }

    /// Whether the contents are those of this service, and have a spelling.
    pub(crate) fn is_sound(&self, service: u8) -> bool
        ensures { IsTrue result ↔ (NamesWriteOf service self.now.first_failed × CanBeNamed self.now.first_failed) }
    {
        let names_write = service == u8::from(ConfirmedService::WritePropertyMultiple);
        match self.first_failed {
            Some(reference) => names_write && reference.object.is_sound(),
            None => !names_write,
        }
    }

    /// Appends the shortest contents of an Error (20.1.7), for an object that has a spelling.
    ///
    /// # Errors
    /// `Memory` alone. The buffer is then as it was.
    pub fn write<B: Allocator>(&self, out: &mut Vec<u8, B>) -> Result<(), Fault>
        requires { CanBeNamed self.now.first_failed }
        ensures written { OnOk result (out.new.items ≡ out.old.items ++ error_octets (class_number self.now.class)
            (code_number self.now.code) self.now.first_failed) }
        ensures memory { IfErr result (λ e. e ≡ Fault.Memory) }
        ensures unchanged { OnErr result (out.new.items ≡ out.old.items) }
    {
        let start = out.len();
        let put = self.put(out);
        all_or_none(put, start, out)
    }

    /// Appends the shortest contents of an Error.
    pub(crate) fn put<B: Allocator>(&self, out: &mut Vec<u8, B>) -> Result<(), Fault>
        requires { CanBeNamed self.now.first_failed }
        ensures put { OnOk result (out.new.items ≡ out.old.items ++ error_octets (class_number self.now.class)
            (code_number self.now.code) self.now.first_failed) }
        ensures fits { OnOk result (FitsError (class_number self.now.class)
            (code_number self.now.code) self.now.first_failed) }
        ensures err { OnErr result (Extends out.old.items out.new.items) }
    {
        let Some(reference) = self.first_failed else {
            return write_class_and_code(self.class, self.code, out);
        };
        write_tag(&Tag::opening(0), out)?;
        write_class_and_code(self.class, self.code, out)?;
        write_tag(&Tag::closing(0), out)?;
        write_tag(&Tag::opening(1), out)?;
        reference.put(out)?;
        write_tag(&Tag::closing(1), out)
    }
}

impl ObjectPropertyReference {
    ghost use Rattle.std.specs.Prelude.{◌≡◌, ◌<◌, ◌^◌, ◌++◌, IfSome, OnOk, OnErr};
    ghost use Rattle.apdu.specs.ApduWriting.{reference_octets};
    ghost use Rattle.tags.specs.Canonical.{Extends};
    ghost use Rattle.tags.specs.Number.{IsSoundObject};

    /// Appends object, property and index.
    fn put<B: Allocator>(&self, out: &mut Vec<u8, B>) -> Result<(), Fault>
        requires { IsSoundObject self.now.object.object_type self.now.object.instance }
        ensures put { OnOk result (out.new.items ≡ out.old.items ++ reference_octets self.now) }
        ensures fits { OnOk result ((self.now.property < 2 ^ 32) × IfSome self.now.index (λ n. n < 2 ^ 32)) }
        ensures err { OnErr result (Extends out.old.items out.new.items) }
    {
        write_object(Class::Context, 0, self.object, out)?;
        write_unsigned(Class::Context, 1, self.property, out)?;
        if let Some(index) = self.index {
            write_unsigned(Class::Context, 2, index, out)?;
        }
        Ok(())
    }
}

/// Appends class and code, both Enumerated, in their shortest octets (21, Error).
///
/// # Errors
///
/// `Memory` alone. The buffer is then as it was.
pub fn write_class_and_code<B: Allocator>(
    class: ErrorClass,
    code: ErrorCode,
    out: &mut Vec<u8, B>,
) -> Result<(), Fault>
    ensures written { OnOk result (out.new.items ≡ out.old.items ++ class_and_code_octets (class_number class)
        (code_number code)) }
    ensures fits { OnOk result ((class_number class < 2 ^ 32) × (code_number code < 2 ^ 32)) }
    ensures memory { IfErr result (λ e. e ≡ Fault.Memory) }
    ensures unchanged { OnErr result (out.new.items ≡ out.old.items) }
{
    let start = out.len();
    write_unsigned(Class::Application, 9, u32::from(class), out)?;
    let put = write_unsigned(Class::Application, 9, u32::from(code), out);
    all_or_none(put, start, out)
}

/// The contents of an Error of WritePropertyMultiple (21, WritePropertyMultiple-Error).
#[tactic(auto, using(crate::proofs::ServiceErrors::failed_write_rules))]
fn failed_write_from(reader: &mut Reader<'_>) -> Option<ServiceError>
    ensures read { IfSome result (λ e. SpellsFailedWrite reader.old (class_number e.class)
        (code_number e.code) e.first_failed) }
    ensures only { IfSome result (λ e. OnlyFailedWrite reader.old (class_number e.class)
        (code_number e.code) e.first_failed) }
    ensures named { IfSome result HasNames }
    ensures refused { IfNone result (NoFailedWrite reader.old) }
{
    opening_from(0, reader)?;
    let (class, code) = class_and_code_from(reader)?;
    closing_from(0, reader)?;
    opening_from(1, reader)?;
    let reference = reference_from(reader)?;
    Some(ServiceError {
        class,
        code,
        first_failed: Some(reference),
    })
}

/// Object, property and index, up to the closing tag and the end.
#[tactic(auto, using(crate::proofs::ServiceErrors::reference_rules))]
fn reference_from(reader: &mut Reader<'_>) -> Option<ObjectPropertyReference>
    ensures read { IfSome result (λ r. TakesReference reader.old r) }
    ensures only { IfSome result (λ r. OnlyReference reader.old r) }
    ensures refused { IfNone result (NoReference reader.old) }
{
    let object = object_from(Class::Context, 0, reader)?;
    let property = number_from(Class::Context, 1, reader)?;
    let index = index_from(reader)?;
    Some(ObjectPropertyReference {
        object,
        property,
        index,
    })
}

/// The index, where there is one, then the closing tag and the end.
#[tactic(auto, using(crate::proofs::ServiceErrors::index_rules))]
fn index_from(reader: &mut Reader<'_>) -> Option<Option<u32>>
    ensures read { IfSome result (λ index. EndsReference reader.old index) }
    ensures only { IfSome result (λ index. OnlyEnd reader.old index) }
    ensures refused { IfNone result (NoEnd reader.old) }
{
    let Ok(Some(tag)) = reader.next() else {
        return None;
    };
    if tag == Tag::closing(1) {
        return if reader.is_at_end() { Some(None) } else { None };
    }
    let contents = contents_of(tag, Class::Context, 2)?;
    let index = unsigned_from_contents(contents).ok()?;
    closing_from(1, reader)?;
    if !reader.is_at_end() {
        return None;
    }
    Some(Some(index))
}
