//! Whether two replies, or two of what they are made of, are one.

ghost use Rattle.std.specs.Prelude.{◌≡◌, ◌↔◌, IsTrue};

use primitives::{ErrorClass, ErrorCode, ObjectResults, PropertyResult, Reply, Values};
use std::alloc::Allocator;
use tags::Value;

/// What can be told to be one with another.
pub(crate) trait Same {
    ghost use Rattle.std.specs.Prelude.{◌≡◌, ◌↔◌, IsTrue};

    /// Whether they are one.
    fn is_same(&self, other: &Self) -> bool
        ensures { IsTrue result ↔ (self.now ≡ other.now) };
}

/// Whether two lists are one.
#[tactic(auto, using(crate::proofs::SameLaws::list_laws))]
pub(crate) fn are_same<T: Same>(left: &[T], right: &[T]) -> bool
    ensures { IsTrue result ↔ (left.now ≡ right.now) }
{
    let mut these = left;
    let mut those = right;
    while let [first, rest @ ..] = these {
        let [other, others @ ..] = those else {
            return false;
        };
        if !first.is_same(other) {
            return false;
        }
        these = rest;
        those = others;
    }
    those.is_empty()
}

impl Same for u8 {
    fn is_same(&self, other: &u8) -> bool {
        *self == *other
    }
}

impl<A: Allocator> Same for Value<A> {
    fn is_same(&self, other: &Self) -> bool {
        match (self, other) {
            (Value::Null, Value::Null) => true,
            (Value::Bool(a), Value::Bool(b)) => *a == *b,
            (Value::Unsigned(a), Value::Unsigned(b)) => *a == *b,
            (Value::Signed(a), Value::Signed(b)) => *a == *b,
            (Value::Enum(a), Value::Enum(b)) => *a == *b,
            (Value::Object(a), Value::Object(b)) => *a == *b,
            (Value::Built(a), Value::Built(b)) => are_same(a.as_slice(), b.as_slice()),
            (Value::Text { set: a, octets: x }, Value::Text { set: b, octets: y }) => {
                *a == *b && are_same(x.as_slice(), y.as_slice())
            }
            (
                Value::Bits {
                    unused: a,
                    octets: x,
                },
                Value::Bits {
                    unused: b,
                    octets: y,
                },
            ) => *a == *b && are_same(x.as_slice(), y.as_slice()),
            (Value::Other { tag: a, octets: x }, Value::Other { tag: b, octets: y }) => {
                *a == *b && are_same(x.as_slice(), y.as_slice())
            }
            (
                Value::Null
                | Value::Bool(_)
                | Value::Unsigned(_)
                | Value::Signed(_)
                | Value::Enum(_)
                | Value::Object(_)
                | Value::Built(_)
                | Value::Text { .. }
                | Value::Bits { .. }
                | Value::Other { .. },
                _,
            ) => false,
        }
    }
}

impl<A: Allocator> Same for Reply<A> {
    fn is_same(&self, other: &Self) -> bool {
        match (self, other) {
            (Reply::Values(a), Reply::Values(b)) => are_same(a.as_slice(), b.as_slice()),
            (Reply::Many(a), Reply::Many(b)) => are_same(a.as_slice(), b.as_slice()),
            (Reply::Done, Reply::Done) => true,
            (Reply::Error(c, d), Reply::Error(e, f)) => {
                is_same_class(*c, *e) && is_same_code(*d, *f)
            }
            (
                Reply::ErrorAt {
                    class: c,
                    code: d,
                    object: o,
                    property: p,
                    index: i,
                },
                Reply::ErrorAt {
                    class: e,
                    code: f,
                    object: q,
                    property: r,
                    index: j,
                },
            ) => {
                is_same_class(*c, *e)
                    && is_same_code(*d, *f)
                    && *o == *q
                    && *p == *r
                    && is_same_index(*i, *j)
            }
            (
                Reply::Values(_)
                | Reply::Many(_)
                | Reply::Done
                | Reply::Error(..)
                | Reply::ErrorAt { .. },
                _,
            ) => false,
        }
    }
}

impl<A: Allocator> Same for ObjectResults<A> {
    #[tactic(auto, using(crate::proofs::SameLaws::object_laws))]
    fn is_same(&self, other: &Self) -> bool {
        self.object == other.object && are_same(self.results.as_slice(), other.results.as_slice())
    }
}

impl<A: Allocator> Same for PropertyResult<A> {
    #[tactic(auto, using(crate::proofs::SameLaws::result_laws))]
    fn is_same(&self, other: &Self) -> bool {
        self.property == other.property
            && is_same_index(self.index, other.index)
            && is_same_result(&self.result, &other.result)
    }
}

/// Whether two results of a property are one.
fn is_same_result<A: Allocator>(
    left: &Result<Values<A>, (ErrorClass, ErrorCode)>,
    right: &Result<Values<A>, (ErrorClass, ErrorCode)>,
) -> bool
    ensures { IsTrue result ↔ (left.now ≡ right.now) }
{
    match (left, right) {
        (Ok(a), Ok(b)) => are_same(a.as_slice(), b.as_slice()),
        (Err((c, d)), Err((e, f))) => is_same_class(*c, *e) && is_same_code(*d, *f),
        (Ok(_), Err(_)) | (Err(_), Ok(_)) => false,
    }
}

/// Whether two indices are one.
fn is_same_index(left: Option<u32>, right: Option<u32>) -> bool
    ensures { IsTrue result ↔ (left ≡ right) }
{
    match (left, right) {
        (None, None) => true,
        (Some(a), Some(b)) => a == b,
        (None, Some(_)) | (Some(_), None) => false,
    }
}

/// Whether two error classes are one.
fn is_same_class(left: ErrorClass, right: ErrorClass) -> bool
    ensures { IsTrue result ↔ (left ≡ right) }
{
    left == right
}

/// Whether two error codes are one.
fn is_same_code(left: ErrorCode, right: ErrorCode) -> bool
    ensures { IsTrue result ↔ (left ≡ right) }
{
    left == right
}
