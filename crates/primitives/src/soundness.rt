//! Whether a request or a reply has a spelling (15.5 to 15.10, 18, 21).

ghost use Rattle.std.specs.Prelude.{◌↔◌, ◌<◌, ◌^◌, IsTrue};
ghost use Rattle.std.specs.List.{AllByRecursion};
ghost use Rattle.primitives.specs.Errors.{class_number, code_number, IsNamedClass, IsNamedCode};
ghost use Rattle.primitives.specs.Sound.{IsSoundIndex, IsSoundPriority, IsSoundError};

use crate::error::{ErrorClass, ErrorCode};
use crate::plain_data::{
    ObjectRefs, ObjectResults, ObjectWrites, PropertyReference, PropertyResult, PropertyWrite,
    Reply, Request,
};
use std::alloc::Allocator;
use tags::Value;

impl<A: Allocator> Request<A> {
    ghost use Rattle.std.specs.Prelude.{◌↔◌, IsTrue};
    ghost use Rattle.primitives.specs.Sound.{IsSoundRequest};

    /// Whether the request has a spelling (15.5 to 15.10): its objects have a type below 1024 and
    /// an instance below 2^22, each of its values has a spelling, its priorities are 1 to 16, and
    /// ReadPropertyMultiple and WritePropertyMultiple name an object, and for each object a
    /// property. It takes no memory.
    pub fn is_sound(&self) -> bool
        ensures { IsTrue result ↔ IsSoundRequest self.now }
    {
        match self {
            Request::Read {
                object,
                property,
                index,
            } => object.is_sound() && is_sound_number(*property) && is_sound_index(*index),
            Request::ReadMany(asked) => !asked.is_empty() && all_have_spelling(asked.as_slice()),
            Request::Write {
                object,
                property,
                index,
                values,
                priority,
            } => {
                object.is_sound()
                    && is_sound_number(*property)
                    && is_sound_index(*index)
                    && all_have_spelling(values.as_slice())
                    && is_sound_priority(*priority)
            }
            Request::WriteMany(asked) => !asked.is_empty() && all_have_spelling(asked.as_slice()),
        }
    }
}

impl<A: Allocator> Reply<A> {
    ghost use Rattle.std.specs.Prelude.{◌↔◌, IsTrue};
    ghost use Rattle.primitives.specs.Sound.{IsSoundReply};

    /// Whether the reply has a spelling (15.5 to 15.10, 18): its objects have a type below 1024
    /// and an instance below 2^22, each of its values has a spelling, and each class and code
    /// stands under its name where it has one. It takes no memory.
    pub fn is_sound(&self) -> bool
        ensures { IsTrue result ↔ IsSoundReply self.now }
    {
        match self {
            Reply::Values(values) => all_have_spelling(values.as_slice()),
            Reply::Many(results) => all_have_spelling(results.as_slice()),
            Reply::Done => true,
            Reply::Error(class, code) => is_sound_error(*class, *code),
            Reply::ErrorAt {
                class,
                code,
                object,
                property,
                index,
            } => {
                is_sound_error(*class, *code)
                    && object.is_sound()
                    && is_sound_number(*property)
                    && is_sound_index(*index)
            }
        }
    }
}

/// What requests and replies are made of, and what may lack a spelling.
pub(crate) trait HasSpelling {
    ghost use Rattle.std.specs.Prelude.{◌↔◌, IsTrue};

    ghost IsSound: { Self → Type 0 };

    /// Whether it has a spelling.
    fn has_spelling(&self) -> bool
        ensures { IsTrue result ↔ IsSound self.now };
}

/// Whether each has a spelling.
fn all_have_spelling<T: HasSpelling>(parts: &[T]) -> bool
    ensures { IsTrue result ↔ AllByRecursion T.IsSound parts.now }
{
    let mut left = parts;
    while let [first, rest @ ..] = left {
        if !first.has_spelling() {
            return false;
        }
        left = rest;
    }
    true
}

impl<A: Allocator> HasSpelling for Value<A> {
    ghost use Rattle.tags.specs.Value.{IsSound};

    ghost IsSound = { IsSound };

    fn has_spelling(&self) -> bool {
        self.is_sound()
    }
}

impl HasSpelling for PropertyReference {
    ghost use Rattle.primitives.specs.Sound.{IsSoundReference};

    ghost IsSound = { IsSoundReference };

    fn has_spelling(&self) -> bool {
        is_sound_number(self.property) && is_sound_index(self.index)
    }
}

impl<A: Allocator> HasSpelling for ObjectRefs<A> {
    ghost use Rattle.primitives.specs.Sound.{IsSoundRefs};

    ghost IsSound = { IsSoundRefs };

    fn has_spelling(&self) -> bool {
        self.object.is_sound() && !self.refs.is_empty() && all_have_spelling(self.refs.as_slice())
    }
}

impl<A: Allocator> HasSpelling for PropertyWrite<A> {
    ghost use Rattle.primitives.specs.Sound.{IsSoundWrite};

    ghost IsSound = { IsSoundWrite };

    fn has_spelling(&self) -> bool {
        is_sound_number(self.property)
            && is_sound_index(self.index)
            && all_have_spelling(self.values.as_slice())
            && is_sound_priority(self.priority)
    }
}

impl<A: Allocator> HasSpelling for ObjectWrites<A> {
    ghost use Rattle.primitives.specs.Sound.{IsSoundWrites};

    ghost IsSound = { IsSoundWrites };

    fn has_spelling(&self) -> bool {
        self.object.is_sound()
            && !self.writes.is_empty()
            && all_have_spelling(self.writes.as_slice())
    }
}

impl<A: Allocator> HasSpelling for PropertyResult<A> {
    ghost use Rattle.primitives.specs.Sound.{IsSoundResult};

    ghost IsSound = { IsSoundResult };

    fn has_spelling(&self) -> bool {
        let is_sound_reading = match &self.result {
            Ok(values) => all_have_spelling(values.as_slice()),
            Err((class, code)) => is_sound_error(*class, *code),
        };
        is_sound_number(self.property) && is_sound_index(self.index) && is_sound_reading
    }
}

impl<A: Allocator> HasSpelling for ObjectResults<A> {
    ghost use Rattle.primitives.specs.Sound.{IsSoundResults};

    ghost IsSound = { IsSoundResults };

    fn has_spelling(&self) -> bool {
        self.object.is_sound() && all_have_spelling(self.results.as_slice())
    }
}

/// Whether a class and a code stand each under its name where it has one.
fn is_sound_error(class: ErrorClass, code: ErrorCode) -> bool
    ensures { IsTrue result ↔ IsSoundError class code }
{
    is_named_class(class) && is_named_code(code)
}

/// Whether a class stands under its name where it has one.
fn is_named_class(class: ErrorClass) -> bool
    ensures { IsTrue result ↔ ((class_number class < 2 ^ 32) × IsNamedClass class) }
{
    ErrorClass::from(u32::from(class)) == class
}

/// Whether a code stands under its name where it has one.
fn is_named_code(code: ErrorCode) -> bool
    ensures { IsTrue result ↔ ((code_number code < 2 ^ 32) × IsNamedCode code) }
{
    ErrorCode::from(u32::from(code)) == code
}

/// Whether a number has 32 bits, which its type says.
fn is_sound_number(number: u32) -> bool
    ensures { IsTrue result ↔ (number < 2 ^ 32) }
{
    // It is read, since its type's range is then known to the prover.
    let _number = number;
    true
}

/// Whether an index, if there is one, has 32 bits, which its type says.
fn is_sound_index(index: Option<u32>) -> bool
    ensures { IsTrue result ↔ IsSoundIndex index }
{
    match index {
        None => true,
        Some(index) => is_sound_number(index),
    }
}

/// Whether a priority, if there is one, is 1 to 16.
fn is_sound_priority(priority: Option<u8>) -> bool
    ensures { IsTrue result ↔ IsSoundPriority priority }
{
    match priority {
        None => true,
        Some(priority) => 0 < priority && priority < 17,
    }
}
