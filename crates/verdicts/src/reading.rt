//! Whether a property reads as expected.

ghost use Rattle.std.specs.Prelude.{◌≡◌, ◌↔◌, IsTrue, option_map};
ghost use Rattle.verdicts.specs.Verdicts.{AreValues, IsNumber, IsRead};

use crate::same::are_same;
use expectations::ExpectedValue;
use primitives::Reply;
use std::alloc::Allocator;
use tags::Value;

/// Whether a device reads so, if there is one.
pub(crate) fn is_read<A: Allocator>(expected: &ExpectedValue<A>, read: Option<&Reply<A>>) -> bool
    ensures { IsTrue result ↔ IsRead expected.now (option_map (λ r. r.now) read.entry) }
{
    match read {
        Some(Reply::Values(values)) => are_values(expected, values.as_slice()),
        Some(Reply::Many(_) | Reply::Done | Reply::Error(..) | Reply::ErrorAt { .. }) | None =>
            false,
    }
}

/// Whether values are as expected.
fn are_values<A: Allocator>(expected: &ExpectedValue<A>, given: &[Value<A>]) -> bool
    ensures { IsTrue result ↔ AreValues expected.now given.now }
{
    match expected {
        ExpectedValue::Number(number) => match given {
            [value] => is_number(*number, value),
            [] | [_, _, ..] => false,
        },
        ExpectedValue::Values(values) => are_same(given, values.as_slice()),
    }
}

/// Whether a value is an Unsigned, a Signed or an Enumerated of this number.
fn is_number<A: Allocator>(number: i64, value: &Value<A>) -> bool
    ensures { IsTrue result ↔ IsNumber number value.now }
{
    match value {
        Value::Unsigned(other) | Value::Enum(other) => i64::from(*other) == number,
        Value::Signed(other) => i64::from(*other) == number,
        Value::Null
        | Value::Bool(_)
        | Value::Text { .. }
        | Value::Bits { .. }
        | Value::Object(_)
        | Value::Other { .. }
        | Value::Built(_) => false,
    }
}
