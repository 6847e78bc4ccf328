//! The values that tags carry (20.2).

ghost use Rattle.std.specs.Prelude.{◌≡◌, ◌↔◌, ◌<◌, ◌^◌, IfOk, IsTrue, length};

use crate::element::is_element;
use crate::items::Octets;
use crate::object_id::ObjectId;
use std::alloc::{AllocError, Allocator};

/// A value: one of the primitive types of clause 20.2, or a context-tagged element as its octets.
#[derive(Drop)]
#[derive_where(PartialEq, Eq, Debug)]
pub enum Value<A: Allocator> {
    /// Null (20.2.2).
    Null,
    /// Boolean (20.2.3).
    Bool(bool),
    /// Unsigned Integer (20.2.4).
    Unsigned(u32),
    /// Signed Integer (20.2.5).
    Signed(i32),
    /// Character String: the number of its character set, 0 for UTF-8, and its octets (20.2.9).
    Text { set: u8, octets: Octets<A> },
    /// Bit String: the number of unused bits in the last octet, 0 to 7, and its octets (20.2.10).
    Bits { unused: u8, octets: Octets<A> },
    /// Enumerated (20.2.11).
    Enum(u32),
    /// Object Identifier (20.2.14).
    Object(ObjectId),
    /// Any other application tag: its number, 4 to 6, 10, 11 or 13 to 254, and its contents,
    /// which are not looked into.
    Other { tag: u8, octets: Octets<A> },
    /// One context-tagged element as it stands: a primitive, or all from an opening tag to the
    /// closing tag that balances it.
    Built(Octets<A>),
}

impl<A: Allocator + Copy> Value<A> {
    /// An equal value, in memory of `alloc`.
    ///
    /// # Errors
    /// Want of memory.
    #[inline(always)]
    pub fn copy(&self, alloc: A) -> Result<Self, AllocError>
        ensures { IfOk result (λ copy. copy ≡ self.now) }
    {
        Ok(match self {
            Value::Null => Value::Null,
            Value::Bool(value) => Value::Bool(*value),
            Value::Unsigned(number) => Value::Unsigned(*number),
            Value::Signed(number) => Value::Signed(*number),
            Value::Text { set, octets } => Value::Text {
                set: *set,
                octets: octets.copy(alloc)?,
            },
            Value::Bits { unused, octets } => Value::Bits {
                unused: *unused,
                octets: octets.copy(alloc)?,
            },
            Value::Enum(number) => Value::Enum(*number),
            Value::Object(object) => Value::Object(*object),
            Value::Other { tag, octets } => Value::Other {
                tag: *tag,
                octets: octets.copy(alloc)?,
            },
            Value::Built(octets) => Value::Built(octets.copy(alloc)?),
        })
    }
}

impl<A: Allocator> Value<A> {
    ghost use Rattle.std.specs.Prelude.{◌↔◌, IsTrue};
    ghost use Rattle.tags.specs.Value.{IsSound};

    /// Whether the value has a spelling and fits any buffer (20.2): fewer than 2^31 octets, a Bit
    /// String's unused bits at most 7 and 0 where it has no octet, an object type below 1024 and
    /// an instance below 2^22, `Other` with a tag that no other variant has, `Built` exactly one
    /// context-tagged element. It takes no memory.
    pub fn is_sound(&self) -> bool
        ensures { IsTrue result ↔ IsSound self.now }
    {
        match self {
            Value::Null | Value::Bool(_) => true,
            // Each number is read, since its type's range is then known to the prover.
            Value::Unsigned(number) | Value::Enum(number) => {
                let _number = *number;
                true
            }
            Value::Signed(number) => {
                let _number = *number;
                true
            }
            Value::Text { set: _, octets } => is_short(octets),
            Value::Bits { unused, octets } => is_short(octets)
                && *unused < 8
                && (*unused == 0 || !octets.is_empty()),
            Value::Object(object) => object.is_sound(),
            Value::Other { tag, octets } => is_short(octets)
                && matches!(*tag, 4..=6 | 10 | 11 | 13..=254),
            Value::Built(octets) => is_short(octets) && is_element(octets.as_slice()),
        }
    }
}

/// Whether there are fewer than 2^31 octets.
fn is_short<A: Allocator>(octets: &Octets<A>) -> bool
    ensures { IsTrue result ↔ (length octets.now < 2 ^ 31) }
{
    octets.len() < 0x8000_0000
}
