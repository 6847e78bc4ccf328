//! Equal copies of requests, of replies and of what they are made of.

ghost use Rattle.std.specs.Prelude.{◌≡◌, IfOk};

use crate::plain_data::{
    ObjectRefs, ObjectResults, ObjectWrites, PropertyResult, PropertyWrite, Reply, Request,
};
use std::alloc::{AllocError, Allocator};
use tags::{Items, Value};

/// What has an equal copy, in memory of an allocator of the caller's.
pub trait CopyIn<A: Allocator>: Sized {
    ghost use Rattle.std.specs.Prelude.{◌≡◌, IfOk};

    /// An equal one, in memory of `alloc`.
    ///
    /// # Errors
    /// Want of memory.
    fn copy_in(&self, alloc: A) -> Result<Self, AllocError>
        ensures copied { IfOk result (λ copy. copy ≡ self.now) };
}

/// An equal list, in memory of `alloc`.
///
/// # Errors
/// Want of memory.
pub fn copy_all<T: CopyIn<A> + Drop, A: Allocator + Copy>(
    alloc: A,
    items: &[T],
) -> Result<Items<T, A>, AllocError>
    ensures { IfOk result (λ copy. copy ≡ items.now) }
{
    let mut all = Items::new(alloc);
    for item in items {
        all.push(item.copy_in(alloc)?)?;
    }
    Ok(all)
}

impl<A: Allocator + Copy> Request<A> {
    ghost use Rattle.std.specs.Prelude.{◌≡◌, IfOk};

    /// An equal request, in memory of `alloc`.
    ///
    /// # Errors
    /// Want of memory.
    pub fn copy(&self, alloc: A) -> Result<Self, AllocError>
        ensures { IfOk result (λ copy. copy ≡ self.now) }
    {
        Ok(match self {
            Request::Read {
                object,
                property,
                index,
            } => Request::Read {
                object: *object,
                property: *property,
                index: *index,
            },
            Request::ReadMany(asked) => Request::ReadMany(copy_all(alloc, asked.as_slice())?),
            Request::Write {
                object,
                property,
                index,
                values,
                priority,
            } => Request::Write {
                object: *object,
                property: *property,
                index: *index,
                values: copy_all(alloc, values.as_slice())?,
                priority: *priority,
            },
            Request::WriteMany(asked) => Request::WriteMany(copy_all(alloc, asked.as_slice())?),
        })
    }
}

impl<A: Allocator + Copy> Reply<A> {
    ghost use Rattle.std.specs.Prelude.{◌≡◌, IfOk};

    /// An equal reply, in memory of `alloc`.
    ///
    /// # Errors
    /// Want of memory.
    pub fn copy(&self, alloc: A) -> Result<Self, AllocError>
        ensures { IfOk result (λ copy. copy ≡ self.now) }
    {
        Ok(match self {
            Reply::Values(values) => Reply::Values(copy_all(alloc, values.as_slice())?),
            Reply::Many(results) => Reply::Many(copy_all(alloc, results.as_slice())?),
            Reply::Done => Reply::Done,
            Reply::Error(class, code) => Reply::Error(*class, *code),
            Reply::ErrorAt {
                class,
                code,
                object,
                property,
                index,
            } => Reply::ErrorAt {
                class: *class,
                code: *code,
                object: *object,
                property: *property,
                index: *index,
            },
        })
    }
}

impl<A: Allocator + Copy> CopyIn<A> for Value<A> {
    fn copy_in(&self, alloc: A) -> Result<Self, AllocError> {
        self.copy(alloc)
    }
}

impl<A: Allocator + Copy> CopyIn<A> for ObjectRefs<A> {
    fn copy_in(&self, alloc: A) -> Result<Self, AllocError> {
        Ok(ObjectRefs {
            object: self.object,
            refs: self.refs.copy(alloc)?,
        })
    }
}

impl<A: Allocator + Copy> CopyIn<A> for ObjectResults<A> {
    fn copy_in(&self, alloc: A) -> Result<Self, AllocError> {
        Ok(ObjectResults {
            object: self.object,
            results: copy_all(alloc, self.results.as_slice())?,
        })
    }
}

impl<A: Allocator + Copy> CopyIn<A> for PropertyResult<A> {
    fn copy_in(&self, alloc: A) -> Result<Self, AllocError> {
        let result = match &self.result {
            Ok(values) => Ok(copy_all(alloc, values.as_slice())?),
            Err(error) => Err(*error),
        };
        Ok(PropertyResult {
            property: self.property,
            index: self.index,
            result,
        })
    }
}

impl<A: Allocator + Copy> CopyIn<A> for ObjectWrites<A> {
    fn copy_in(&self, alloc: A) -> Result<Self, AllocError> {
        Ok(ObjectWrites {
            object: self.object,
            writes: copy_all(alloc, self.writes.as_slice())?,
        })
    }
}

impl<A: Allocator + Copy> CopyIn<A> for PropertyWrite<A> {
    fn copy_in(&self, alloc: A) -> Result<Self, AllocError> {
        Ok(PropertyWrite {
            property: self.property,
            index: self.index,
            values: copy_all(alloc, self.values.as_slice())?,
            priority: self.priority,
        })
    }
}
