//! One parameter of a service: a tag of the class and number that must stand there (20.2.15). Where a function answers
//! `None`, the reader stands where it stood or behind the tag that it read: who goes on reads ahead with another.

ghost use Rattle.std.specs.Prelude.{◌≡◌, IfSome, IfNone};
ghost use Rattle.tags.specs.Number.{SpellsUnsigned};
ghost use Rattle.tags.specs.Tag.{plain_tag, TakesTag, OnlyTag};
ghost use Rattle.apdu_fields.specs.Parameter.{carrying, opening_tag, closing_tag, IsObject, Takes, Only, Lacks};
ghost use Rattle.apdu_fields.specs.Parameter.{CarriesOther, NoContents, NoBracket};

use tags::{Class, Content, ObjectId, Reader, Tag, unsigned_from_contents};

/// The contents of a tag, where it is of this class and number (20.2.1).
pub fn contents_of<'a>(tag: Tag<'a>, class: Class, number: u8) -> Option<&'a [u8]>
    ensures some { IfSome result (λ inner. plain_tag tag.entry ≡ carrying class number inner.now) }
    ensures none { IfNone result (CarriesOther class number (plain_tag tag.entry)) }
{
    if tag.class != class || tag.number != number {
        return None;
    }
    match tag.content {
        Content::Octets(contents) => Some(contents),
        _ => None,
    }
}

/// The contents of the next tag, where it is of this class and number.
#[tactic(auto, using(crate::proofs::Parameters::contents_rules))]
pub fn contents_from<'a>(class: Class, number: u8, reader: &mut Reader<'a>) -> Option<&'a [u8]>
    ensures read { IfSome result (λ inner. TakesTag reader.old (carrying class number inner.now) reader.new) }
    ensures only { IfSome result (λ inner. OnlyTag reader.old (carrying class number inner.now) reader.new) }
    ensures refused { IfNone result (NoContents class number reader.old) }
{
    match reader.next() {
        Ok(Some(tag)) => contents_of(tag, class, number),
        Ok(None) => None,
        Err(_) => None,
    }
}

/// The Unsigned or Enumerated of the next tag, where it is of this class and number.
#[tactic(auto, using(crate::proofs::Parameters::parameter_rules))]
pub fn number_from(class: Class, number: u8, reader: &mut Reader<'_>) -> Option<u32>
    ensures read { IfSome result (λ n. Takes SpellsUnsigned class number reader.old n reader.new) }
    ensures only { IfSome result (λ n. Only SpellsUnsigned class number reader.old n reader.new) }
    ensures refused { IfNone result (Lacks SpellsUnsigned class number reader.old) }
{
    let contents = contents_from(class, number, reader)?;
    unsigned_from_contents(contents).ok()
}

/// The Object Identifier of the next tag, where it is of this class and number.
#[tactic(auto, using(crate::proofs::Parameters::parameter_rules))]
pub fn object_from(class: Class, number: u8, reader: &mut Reader<'_>) -> Option<ObjectId>
    ensures read { IfSome result (λ object. Takes IsObject class number reader.old object reader.new) }
    ensures only { IfSome result (λ object. Only IsObject class number reader.old object reader.new) }
    ensures refused { IfNone result (Lacks IsObject class number reader.old) }
{
    let contents = contents_from(class, number, reader)?;
    ObjectId::from_contents(contents).ok()
}

/// The next tag, where it is the opening one of this number.
pub fn opening_from(number: u8, reader: &mut Reader<'_>) -> Option<()>
    ensures read { IfSome result (λ u. TakesTag reader.old (opening_tag number) reader.new) }
    ensures only { IfSome result (λ u. OnlyTag reader.old (opening_tag number) reader.new) }
    ensures refused { IfNone result (NoBracket (opening_tag number) reader.old) }
{
    match reader.next() {
        Ok(Some(tag)) if tag == Tag::opening(number) => Some(()),
        _ => None,
    }
}

/// The next tag, where it is the closing one of this number.
pub fn closing_from(number: u8, reader: &mut Reader<'_>) -> Option<()>
    ensures read { IfSome result (λ u. TakesTag reader.old (closing_tag number) reader.new) }
    ensures only { IfSome result (λ u. OnlyTag reader.old (closing_tag number) reader.new) }
    ensures refused { IfNone result (NoBracket (closing_tag number) reader.old) }
{
    match reader.next() {
        Ok(Some(tag)) if tag == Tag::closing(number) => Some(()),
        _ => None,
    }
}
