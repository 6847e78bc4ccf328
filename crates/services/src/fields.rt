//! Context-tagged fields of service bodies, each read with the reason of its Reject (clauses 15,
//! 18.9 and 20.2.15).

ghost use Rattle.std.specs.Prelude.{◌≡◌, [], IfOk, IfErr, IfSome, IfNone, IsTrue, ◌↔◌, ◌<◌, ◌++◌, OnOk, OnErr};
ghost use Rattle.tags.specs.Tag.{contents, opening, closing, plain_tag, TakesTag, NoTag};
ghost use Rattle.tags.specs.Element.{context};
ghost use Rattle.tags.specs.Number.{SpellsUnsigned};
ghost use Rattle.tags.specs.Refusal.{IsBadNumber};
ghost use Rattle.primitives.specs.Sound.{IsSoundIndex, IsSoundPriority};
ghost use Rattle.services.specs.Fields.{TakesObject, TakesNumber, TakesOpening, TakesClosing, NoClosing, OpensBehind};
ghost use Rattle.services.specs.Fields.{TakesLast, IsOtherTag, RejectsTag, RejectsContents, RejectsObject};
ghost use Rattle.services.specs.Fields.{RejectsNumber, RejectsOpening, RejectsBehind, RejectsLast, RejectsEnd};
ghost use Rattle.services.specs.Fields.{RejectsRange};
ghost use Rattle.tags.specs.Canonical.{Extends};
ghost use Rattle.apdu.specs.ParameterWriting.{option_field};

use apdu::{RejectReason, contents_of};
use std::alloc::Allocator;
use tags::{Class, Content, Fault, ObjectId, Reader, Tag, unsigned_from_contents, write_unsigned};

/// The tag that must stand next (20.2.1).
///
/// # Errors
/// `MissingRequiredParameter` at the end of the body, `InvalidTag` for a tag that is not well
/// formed.
#[tactic(auto, using(crate::proofs::FieldLaws::tag_laws))]
pub(crate) fn read_tag<'a>(reader: &mut Reader<'a>) -> Result<Tag<'a>, RejectReason>
    ensures read { IfOk result (λ tag. TakesTag reader.old (plain_tag tag) reader.new) }
    ensures rejected { IfErr result (λ reason. RejectsTag reason reader.old) }
{
    match reader.next() {
        Ok(Some(tag)) => Ok(tag),
        Ok(None) => Err(RejectReason::MissingRequiredParameter),
        Err(_) => Err(RejectReason::InvalidTag),
    }
}

/// The tag that must stand next within a list, whose end is still to come (20.2.1.3.2).
///
/// # Errors
/// `InvalidTag` at the end of the body, and for a tag that is not well formed.
#[tactic(auto, using(crate::proofs::FieldLaws::inner_laws))]
pub(crate) fn read_inner_tag<'a>(reader: &mut Reader<'a>) -> Result<Tag<'a>, RejectReason>
    ensures read { IfOk result (λ tag. TakesTag reader.old (plain_tag tag) reader.new) }
    ensures rejected { IfErr result (λ reason. (reason ≡ RejectReason.InvalidTag) × NoTag reader.old) }
{
    match read_tag(reader) {
        Ok(tag) => Ok(tag),
        Err(_) => Err(RejectReason::InvalidTag),
    }
}

/// The contents of a tag, if it is the context tag of this number.
pub(crate) fn contents_under<'a>(tag: Tag<'a>, number: u8) -> Option<&'a [u8]>
    ensures read { IfSome result (λ inner. plain_tag tag.entry ≡ context number (contents inner.now)) }
    ensures other { IfNone result (IsOtherTag (plain_tag tag.entry) number) }
{
    contents_of(tag, Class::Context, number)
}

/// The contents of the context tag of this number, which must stand next (20.2.15).
///
/// # Errors
/// `MissingRequiredParameter` at the end of the body, `InvalidTag` for no tag or another one.
#[tactic(auto, using(crate::proofs::FieldLaws::contents_laws))]
fn read_contents<'a>(reader: &mut Reader<'a>, number: u8) -> Result<&'a [u8], RejectReason>
    ensures read { IfOk result (λ inner. TakesTag reader.old (context number (contents inner.now)) reader.new) }
    ensures rejected { IfErr result (λ reason. RejectsContents reason reader.old number) }
{
    let tag = read_tag(reader)?;
    match contents_under(tag, number) {
        Some(octets) => Ok(octets),
        None => Err(RejectReason::InvalidTag),
    }
}

/// The object identifier under the context tag of this number, which must stand next (20.2.14).
///
/// # Errors
/// `MissingRequiredParameter` at the end of the body, `InvalidTag` for no tag or another one,
/// `InvalidParameterDataType` for contents of another length than four octets.
pub(crate) fn read_object(reader: &mut Reader<'_>, number: u8) -> Result<ObjectId, RejectReason>
    ensures read { IfOk result (λ object. TakesObject reader.old number object reader.new) }
    ensures rejected { IfErr result (λ reason. RejectsObject reason reader.old number) }
{
    let octets = read_contents(reader, number)?;
    match ObjectId::from_contents(octets) {
        Ok(object) => Ok(object),
        Err(_) => Err(RejectReason::InvalidParameterDataType),
    }
}

/// The number that contents are (20.2.4, 20.2.11).
///
/// # Errors
/// `InvalidParameterDataType` for no octet, or more than four.
#[tactic(auto, using(crate::proofs::FieldLaws::number_laws))]
pub(crate) fn number_of(octets: &[u8]) -> Result<u32, RejectReason>
    ensures read { IfOk result (λ n. SpellsUnsigned octets.now n) }
    ensures rejected { IfErr result (λ reason. (reason ≡ RejectReason.InvalidParameterDataType) ×
        IsBadNumber octets.now) }
{
    match unsigned_from_contents(octets) {
        Ok(number) => Ok(number),
        Err(_) => Err(RejectReason::InvalidParameterDataType),
    }
}

/// The number under the context tag of this number, which must stand next (20.2.4, 20.2.11).
///
/// # Errors
/// `MissingRequiredParameter` at the end of the body, `InvalidTag` for no tag or another one,
/// `InvalidParameterDataType` for contents of no octet, or more than four.
pub(crate) fn read_number(reader: &mut Reader<'_>, number: u8) -> Result<u32, RejectReason>
    ensures read { IfOk result (λ n. TakesNumber reader.old number n reader.new) }
    ensures rejected { IfErr result (λ reason. RejectsNumber reason reader.old number) }
{
    let octets = read_contents(reader, number)?;
    number_of(octets)
}

/// Whether a tag is the opening tag of this number.
pub(crate) fn is_opening(tag: Tag<'_>, number: u8) -> bool
    ensures { IsTrue result ↔ (plain_tag tag.entry ≡ context number opening) }
{
    matches!((tag.class, tag.content), (Class::Context, Content::Opening)) && tag.number == number
}

/// Whether a tag is the closing tag of this number.
pub(crate) fn is_closing(tag: Tag<'_>, number: u8) -> bool
    ensures { IsTrue result ↔ (plain_tag tag.entry ≡ context number closing) }
{
    matches!((tag.class, tag.content), (Class::Context, Content::Closing)) && tag.number == number
}

/// The opening tag of this number, which must stand next (20.2.1.3.2).
///
/// # Errors
/// `MissingRequiredParameter` at the end of the body, `InvalidTag` for no tag or another one.
#[tactic(auto, using(crate::proofs::FieldLaws::opening_laws))]
pub(crate) fn read_opening(reader: &mut Reader<'_>, number: u8) -> Result<(), RejectReason>
    ensures read { IfOk result (λ _. TakesOpening reader.old number reader.new) }
    ensures rejected { IfErr result (λ reason. RejectsOpening reason reader.old number) }
{
    let tag = read_tag(reader)?;
    if !is_opening(tag, number) {
        return Err(RejectReason::InvalidTag);
    }
    Ok(())
}

/// The closing tag of this number, which must stand next (20.2.1.3.2).
///
/// # Errors
/// `InvalidTag` at the end of the body, for no tag or another one.
#[tactic(auto, using(crate::proofs::FieldLaws::closing_laws))]
pub(crate) fn read_closing(reader: &mut Reader<'_>, number: u8) -> Result<(), RejectReason>
    ensures read { IfOk result (λ _. TakesClosing reader.old number reader.new) }
    ensures rejected { IfErr result (λ reason. (reason ≡ RejectReason.InvalidTag) × NoClosing reader.old number) }
{
    match read_tag(reader) {
        Ok(tag) if is_closing(tag, number) => Ok(()),
        _ => Err(RejectReason::InvalidTag),
    }
}

/// The number that may stand under the context tag of this number, and the opening tag of a list,
/// which must stand behind it (20.2.15).
///
/// # Errors
/// `MissingRequiredParameter` at the end of the body, `InvalidTag` for no tag or another one,
/// `InvalidParameterDataType` for contents of no octet, or more than four.
#[tactic(auto, using(crate::proofs::FieldLaws::behind_laws))]
pub(crate) fn read_opening_behind(
    reader: &mut Reader<'_>,
    number: u8,
    list: u8,
) -> Result<Option<u32>, RejectReason>
    ensures read { IfOk result (λ n. OpensBehind reader.old number n list reader.new) }
    ensures fits { IfOk result (λ n. IsSoundIndex n) }
    ensures rejected { IfErr result (λ reason. RejectsBehind reason reader.old number list) }
{
    let tag = read_tag(reader)?;
    let Some(octets) = contents_under(tag, number) else {
        if !is_opening(tag, list) {
            return Err(RejectReason::InvalidTag);
        }
        return Ok(None);
    };
    let n = number_of(octets)?;
    read_opening(reader, list)?;
    Ok(Some(n))
}

/// The number that may stand last under the context tag of this number (20.2.15).
///
/// # Errors
/// `InvalidTag` for a tag that is not well formed, `TooManyArguments` for another one,
/// `InvalidParameterDataType` for contents of no octet, or more than four.
#[tactic(auto, using(crate::proofs::FieldLaws::last_laws))]
pub(crate) fn read_last(reader: &mut Reader<'_>, number: u8) -> Result<Option<u32>, RejectReason>
    ensures read { IfOk result (λ n. TakesLast reader.old number n reader.new) }
    ensures fits { IfOk result (λ n. IsSoundIndex n) }
    ensures rejected { IfErr result (λ reason. RejectsLast reason reader.old number) }
{
    let tag = match reader.next() {
        Ok(Some(tag)) => tag,
        Ok(None) => return Ok(None),
        Err(_) => return Err(RejectReason::InvalidTag),
    };
    let Some(octets) = contents_under(tag, number) else {
        return Err(RejectReason::TooManyArguments);
    };
    let n = number_of(octets)?;
    Ok(Some(n))
}

/// The end of the body (18.9).
///
/// # Errors
/// `TooManyArguments` where an octet is left.
#[tactic(auto, using(crate::proofs::FieldLaws::tag_laws))]
pub(crate) fn read_end(reader: &Reader<'_>) -> Result<(), RejectReason>
    ensures read { IfOk result (λ _. reader.now ≡ []) }
    ensures rejected { IfErr result (λ reason. RejectsEnd reason reader.now) }
{
    if !reader.is_at_end() {
        return Err(RejectReason::TooManyArguments);
    }
    Ok(())
}

/// A number as a priority (15.9.1.1.5).
///
/// # Errors
/// `ParameterOutOfRange` for another number than 1 to 16.
pub(crate) fn priority_of(number: Option<u32>) -> Result<Option<u8>, RejectReason>
    ensures read { IfOk result (λ priority. (priority ≡ number) × IsSoundPriority number) }
    ensures rejected { IfErr result (λ reason. RejectsRange reason number) }
{
    match number {
        None => Ok(None),
        Some(n) => {
            if n < 1 || n > 16 {
                return Err(RejectReason::ParameterOutOfRange);
            }
            Ok(Some(n as u8))
        }
    }
}

/// Appends an optional number under the context tag of this number (20.2.15).
pub(crate) fn put_option<B: Allocator>(
    number: u8,
    option: Option<u32>,
    out: &mut Vec<u8, B>,
) -> Result<(), Fault>
    requires { number < 255 }
    ensures put { OnOk result (out.new.items ≡ out.old.items ++ option_field number option) }
    ensures memory { IfErr result (λ fault. fault ≡ Fault.Memory) }
    ensures err { OnErr result (Extends out.old.items out.new.items) }
{
    match option {
        Some(n) => write_unsigned(Class::Context, number, n, out),
        None => Ok(()),
    }
}

/// Appends an optional priority under the context tag of this number (15.9.1.1.5).
pub(crate) fn put_priority<B: Allocator>(
    number: u8,
    priority: Option<u8>,
    out: &mut Vec<u8, B>,
) -> Result<(), Fault>
    requires { number < 255 }
    ensures put { OnOk result (out.new.items ≡ out.old.items ++ option_field number priority) }
    ensures memory { IfErr result (λ fault. fault ≡ Fault.Memory) }
    ensures err { OnErr result (Extends out.old.items out.new.items) }
{
    match priority {
        Some(priority) => write_unsigned(Class::Context, number, u32::from(priority), out),
        None => Ok(()),
    }
}
