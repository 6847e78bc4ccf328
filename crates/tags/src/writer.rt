//! Writing tags and values at the end of a buffer, in their shortest form (20.2).

ghost use Rattle.std.specs.Prelude.{◌≡◌, ◌<◌, ◌≤◌, ◌^◌, ◌++◌, ◌∷◌, [], OnOk, OnErr, IfErr, IsOk, IsErr, length, take};
ghost use Rattle.byteorder.specs.Endian.{big_bytes};
ghost use Rattle.tags.specs.Tag.{initial_octets, plain_content, HasContents};
ghost use Rattle.tags.specs.Number.{unsigned_octets, signed_octets, object_octets, IsSoundObject};
ghost use Rattle.tags.specs.Value.{IsSound};
ghost use Rattle.tags.specs.Canonical.{shortest, tag_front, tagged, canonical_tag, IsSoundTag, canonical, Extends};

use crate::fault::Fault;
use crate::object_id::ObjectId;
use crate::tag::{Class, Content, Tag};
use crate::value::Value;
use contents_octets::{signed_width_of, whole_or_none, width_of};
use std::alloc::{AllocError, Allocator};

/// What was put behind `start` stays where all of it was put, and else is taken away again.
///
/// # Errors
/// `Memory` alone, where not all was put.
pub fn all_or_none<E: Drop, B: Allocator>(
    put: Result<(), E>,
    start: usize,
    out: &mut Vec<u8, B>,
) -> Result<(), Fault>
    ensures all { OnOk result (IsOk put × (out.new.items ≡ out.old.items)) }
    ensures memory { IfErr result (λ fault. fault ≡ Fault.Memory) }
    ensures none { OnErr result (IsErr put × (out.new.items ≡ take start out.old.items)) }
{
    Ok(whole_or_none(put, start, out)?)
}

/// Appends the shortest octets of a value (20.2).
///
/// # Errors
/// `Memory` alone. The buffer is then as it was.
pub fn write_value<A: Allocator, B: Allocator>(
    value: &Value<A>,
    out: &mut Vec<u8, B>,
) -> Result<(), Fault>
    requires { IsSound value.now }
    ensures written { OnOk result (out.new.items ≡ out.old.items ++ canonical value.now) }
    ensures memory { IfErr result (λ fault. fault ≡ Fault.Memory) }
    ensures unchanged { OnErr result (out.new.items ≡ out.old.items) }
{
    let start = out.len();
    let put = put_value(value, out);
    all_or_none(put, start, out)
}

/// Appends the shortest octets of a tag with its contents (20.2.1).
///
/// # Errors
/// `Memory` alone. The buffer is then as it was.
#[inline(always)]
pub fn write_tag<B: Allocator>(tag: &Tag<'_>, out: &mut Vec<u8, B>) -> Result<(), Fault>
    requires { IsSoundTag tag.now.class tag.now.number (plain_content tag.now.content) }
    ensures written { OnOk result (out.new.items ≡ out.old.items ++
        canonical_tag tag.now.class tag.now.number (plain_content tag.now.content)) }
    ensures memory { IfErr result (λ fault. fault ≡ Fault.Memory) }
    ensures unchanged { OnErr result (out.new.items ≡ out.old.items) }
{
    let start = out.len();
    let put = put_tag(tag, out);
    all_or_none(put, start, out)
}

/// Appends a number under a tag of this class and number (20.2.4, 20.2.11, 20.2.15).
///
/// # Errors
/// `Memory` alone. The buffer is then as it was.
pub fn write_unsigned<B: Allocator>(
    class: Class,
    number: u8,
    n: u32,
    out: &mut Vec<u8, B>,
) -> Result<(), Fault>
    requires may { HasContents class number }
    requires number_fits { number < 255 }
    ensures written { OnOk result (out.new.items ≡ out.old.items ++ tagged class number (unsigned_octets n)) }
    ensures memory { IfErr result (λ fault. fault ≡ Fault.Memory) }
    ensures unchanged { OnErr result (out.new.items ≡ out.old.items) }
{
    let start = out.len();
    let put = put_unsigned(class, number, n, out);
    all_or_none(put, start, out)
}

/// Appends an object identifier under a tag of this class and number (20.2.14, 20.2.15).
///
/// # Errors
/// `Memory` alone. The buffer is then as it was.
#[inline(always)]
pub fn write_object<B: Allocator>(
    class: Class,
    number: u8,
    object: ObjectId,
    out: &mut Vec<u8, B>,
) -> Result<(), Fault>
    requires may { HasContents class number }
    requires number_fits { number < 255 }
    requires sound { IsSoundObject object.object_type object.instance }
    ensures written { OnOk result (out.new.items ≡ out.old.items ++
        tagged class number (object_octets object.object_type object.instance)) }
    ensures memory { IfErr result (λ fault. fault ≡ Fault.Memory) }
    ensures unchanged { OnErr result (out.new.items ≡ out.old.items) }
{
    let start = out.len();
    let put = put_object(class, number, object, out);
    all_or_none(put, start, out)
}

/// Appends an octet.
#[inline(always)]
fn put_octet<B: Allocator>(octet: u8, out: &mut Vec<u8, B>) -> Result<(), AllocError>
    ensures put { OnOk result (out.new.items ≡ out.old.items ++ octet ∷ []) }
    ensures err { OnErr result (out.new.items ≡ out.old.items) }
{
    Ok(out.push(octet)?)
}

fn put_value<A: Allocator, B: Allocator>(
    value: &Value<A>,
    out: &mut Vec<u8, B>,
) -> Result<(), AllocError>
    requires { IsSound value.now }
    ensures put { OnOk result (out.new.items ≡ out.old.items ++ canonical value.now) }
    ensures err { OnErr result (Extends out.old.items out.new.items) }
{
    let class = Class::Application;
    match value {
        Value::Null => put_octet(0, out),
        Value::Bool(value) => put_octet(if *value { 17 } else { 16 }, out),
        Value::Unsigned(number) => put_unsigned(class, 2, *number, out),
        Value::Signed(number) => put_signed(*number, out),
        Value::Text { set, octets } => put_behind(7, *set, octets.as_slice(), out),
        Value::Bits { unused, octets } => put_behind(8, *unused, octets.as_slice(), out),
        Value::Enum(number) => put_unsigned(class, 9, *number, out),
        Value::Object(object) => put_object(class, 12, *object, out),
        Value::Other { tag, octets } => put_tagged(class, *tag, octets.as_slice(), out),
        Value::Built(octets) => out.extend_from_slice(octets.as_slice()),
    }
}

fn put_tag<B: Allocator>(tag: &Tag<'_>, out: &mut Vec<u8, B>) -> Result<(), AllocError>
    requires { IsSoundTag tag.now.class tag.now.number (plain_content tag.now.content) }
    ensures put { OnOk result (out.new.items ≡ out.old.items ++
        canonical_tag tag.now.class tag.now.number (plain_content tag.now.content)) }
    ensures err { OnErr result (Extends out.old.items out.new.items) }
{
    match tag.content {
        Content::Null => put_octet(0, out),
        Content::Boolean(value) => put_octet(if value { 17 } else { 16 }, out),
        Content::Octets(octets) => put_tagged(tag.class, tag.number, octets, out),
        Content::Opening => put_initial(Class::Context, tag.number, 6, out),
        Content::Closing => put_initial(Class::Context, tag.number, 7, out),
    }
}

#[inline(always)]
fn put_initial<B: Allocator>(
    class: Class,
    number: u8,
    low: u8,
    out: &mut Vec<u8, B>,
) -> Result<(), AllocError>
    requires { low < 8 }
    ensures put { OnOk result (out.new.items ≡ out.old.items ++ initial_octets class number low) }
    ensures err { OnErr result (Extends out.old.items out.new.items) }
{
    let bit = match class {
        Class::Application => 0,
        Class::Context => 8,
    };
    if number < 15 {
        return put_octet(16 * number + bit + low, out);
    }
    put_octet(16 * 15 + bit + low, out)?;
    put_octet(number, out)
}

#[tactic(auto, unfolding(crate::specs::Canonical::shortest))]
#[inline(always)]
fn put_front<B: Allocator>(
    class: Class,
    number: u8,
    len: usize,
    out: &mut Vec<u8, B>,
) -> Result<(), AllocError>
    requires { len < 2 ^ 32 }
    ensures put { OnOk result (out.new.items ≡ out.old.items ++ tag_front class number len) }
    ensures err { OnErr result (Extends out.old.items out.new.items) }
{
    if len < 5 {
        return put_initial(class, number, len as u8, out);
    }
    put_initial(class, number, 5, out)?;
    if len < 254 {
        return put_octet(len as u8, out);
    }
    if len < 65536 {
        put_octet(254, out)?;
        return out.extend_from_slice(&(len as u16).to_be_bytes());
    }
    put_octet(255, out)?;
    out.extend_from_slice(&(len as u32).to_be_bytes())
}

fn put_tagged<B: Allocator>(
    class: Class,
    number: u8,
    octets: &[u8],
    out: &mut Vec<u8, B>,
) -> Result<(), AllocError>
    requires { length octets.now < 2 ^ 32 }
    ensures put { OnOk result (out.new.items ≡ out.old.items ++ tagged class number octets.now) }
    ensures err { OnErr result (Extends out.old.items out.new.items) }
{
    put_front(class, number, octets.len(), out)?;
    out.extend_from_slice(octets)
}

/// One octet and then these, as the contents of an application tag.
fn put_behind<B: Allocator>(
    number: u8,
    first: u8,
    octets: &[u8],
    out: &mut Vec<u8, B>,
) -> Result<(), AllocError>
    requires { length octets.now < 2 ^ 31 }
    ensures put { OnOk result (out.new.items ≡ out.old.items ++ tagged Class.Application number (first ∷ octets.now)) }
    ensures err { OnErr result (Extends out.old.items out.new.items) }
{
    put_front(Class::Application, number, octets.len() + 1, out)?;
    put_octet(first, out)?;
    out.extend_from_slice(octets)
}

/// The last octets of a number, as contents.
#[tactic(auto, using(crate::proofs::Numbers::last_octets))]
fn put_last<B: Allocator>(
    class: Class,
    number: u8,
    n: u32,
    count: usize,
    out: &mut Vec<u8, B>,
) -> Result<(), AllocError>
    requires { count ≤ 4 }
    ensures put { OnOk result (out.new.items ≡ out.old.items ++ tagged class number (big_bytes count n)) }
    ensures err { OnErr result (Extends out.old.items out.new.items) }
{
    let octets = n.to_be_bytes();
    let (_, last) = octets.split_at(4 - count);
    put_tagged(class, number, last, out)
}

fn put_unsigned<B: Allocator>(
    class: Class,
    number: u8,
    n: u32,
    out: &mut Vec<u8, B>,
) -> Result<(), AllocError>
    ensures put { OnOk result (out.new.items ≡ out.old.items ++ tagged class number (unsigned_octets n)) }
    ensures err { OnErr result (Extends out.old.items out.new.items) }
{
    put_last(class, number, n, width_of(n), out)
}

fn put_signed<B: Allocator>(number: i32, out: &mut Vec<u8, B>) -> Result<(), AllocError>
    ensures put { OnOk result (out.new.items ≡ out.old.items ++ tagged Class.Application 3 (signed_octets number)) }
    ensures err { OnErr result (Extends out.old.items out.new.items) }
{
    put_last(
        Class::Application,
        3,
        number.cast_unsigned(),
        signed_width_of(number),
        out,
    )
}

fn put_object<B: Allocator>(
    class: Class,
    number: u8,
    object: ObjectId,
    out: &mut Vec<u8, B>,
) -> Result<(), AllocError>
    requires { IsSoundObject object.object_type object.instance }
    ensures put { OnOk result (out.new.items ≡ out.old.items ++
        tagged class number (object_octets object.object_type object.instance)) }
    ensures err { OnErr result (Extends out.old.items out.new.items) }
{
    put_tagged(class, number, &object.to_contents(), out)
}
