//! Lists of values between an opening and a closing tag, both ways (clause 20.2.1.3.2).

ghost use Rattle.std.specs.Prelude.{◌≡◌, ◌<◌, ◌^◌, IfOk, IfErr, IfSome, IfNone, length, ◌++◌, OnOk, OnErr};
ghost use Rattle.tags.specs.Value.{IsSound, TakesValue};
ghost use Rattle.primitives.specs.Sound.{AreSound};
ghost use Rattle.services.specs.Fields.{TakesClosing, TakesInside, RejectsValue, RejectsInside};
ghost use Rattle.answers.specs.Stop.{StopsFor};
ghost use Rattle.tags.specs.Canonical.{canonicals, Extends};
ghost use Rattle.services.specs.CanonicalRequest.{values_field};

use crate::fields::read_closing;
use answers::Stop;
use apdu::RejectReason;
use primitives::Values;
use std::alloc::Allocator;
use tags::{Fault, Items, Reader, Tag, Value, read_value, write_tag, write_value};

/// The values up to the closing tag of this number, which is read too (20.2.1.3.2).
///
/// # Errors
/// `InvalidTag` where a tag is cut or not well formed, or closes another list,
/// `InvalidParameterDataType` for contents that are no value of their tag; want of memory.
#[tactic(auto, using(crate::proofs::ValueLists::list_laws))]
pub(crate) fn read_values<A: Allocator + Copy>(
    alloc: A,
    reader: &mut Reader<'_>,
    number: u8,
) -> Result<Values<A>, Stop>
    ensures read { IfOk result (λ values. TakesInside reader.old number values reader.new) }
    ensures sound { IfOk result (λ values. length reader.old < 2 ^ 31 → AreSound values) }
    ensures rejected { IfErr result (λ stop. StopsFor (λ reason. RejectsInside A reason reader.old number) stop) }
{
    let mut values = Items::new(alloc);
    while let Some(value) = next_value(alloc, reader, number)? {
        values.push(value)?;
    }
    Ok(values)
}

/// The value that stands next, or `None` behind the closing tag of this number.
fn next_value<A: Allocator + Copy>(
    alloc: A,
    reader: &mut Reader<'_>,
    number: u8,
) -> Result<Option<Value<A>>, Stop>
    ensures read { IfOk result (λ found. IfSome found (λ v. TakesValue reader.old v reader.new)) }
    ensures sound { IfOk result (λ found. IfSome found (λ v. length reader.old < 2 ^ 31 → IsSound v)) }
    ensures closed { IfOk result (λ found. IfNone found (TakesClosing reader.old number reader.new)) }
    ensures rejected { IfErr result (λ stop. StopsFor (λ reason. RejectsValue reason reader.old number) stop) }
{
    match read_value(alloc, reader) {
        Ok(value) => Ok(Some(value)),
        Err(Fault::Memory) => Err(Stop::Memory),
        Err(Fault::BadLength) => Err(Stop::Reject(RejectReason::InvalidParameterDataType)),
        Err(_) => {
            read_closing(reader, number)?;
            Ok(None)
        }
    }
}

/// Appends values one after another.
#[tactic(auto, using(crate::proofs::RequestOctets::extends_laws))]
fn put_each_value<A: Allocator, B: Allocator>(
    values: &[Value<A>],
    out: &mut Vec<u8, B>,
) -> Result<(), Fault>
    requires { AreSound values.now }
    ensures put { OnOk result (out.new.items ≡ out.old.items ++ canonicals values.now) }
    ensures memory { IfErr result (λ fault. fault ≡ Fault.Memory) }
    ensures err { OnErr result (Extends out.old.items out.new.items) }
{
    for value in values {
        write_value(value, out)?;
    }
    Ok(())
}

/// Appends values between the opening and the closing tag of this number.
pub(crate) fn put_values<A: Allocator, B: Allocator>(
    number: u8,
    values: &[Value<A>],
    out: &mut Vec<u8, B>,
) -> Result<(), Fault>
    requires number_fits { number < 255 }
    requires sound { AreSound values.now }
    ensures put { OnOk result (out.new.items ≡ out.old.items ++ values_field number values.now) }
    ensures memory { IfErr result (λ fault. fault ≡ Fault.Memory) }
    ensures err { OnErr result (Extends out.old.items out.new.items) }
{
    write_tag(&Tag::opening(number), out)?;
    put_each_value(values, out)?;
    write_tag(&Tag::closing(number), out)
}
