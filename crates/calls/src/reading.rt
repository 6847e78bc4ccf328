//! A table replies to ReadProperty (ANSI/ASHRAE 135, clause 15.5).

use crate::opened::table;
use objects::Table;
use primitives::{ObjectType, Property, Reply, Request};
use std::alloc::{AllocError, Allocator};
use tags::{Fault, ObjectId};

/// A table of so many Binary Values, whose present values are read in turn.
#[derive(Drop)]
pub struct Reading<A: Allocator + Copy> {
    table: Table<A>,
    objects: u16,
    instance: u16,
}

impl<A: Allocator + Copy> Reading<A> {
    /// The table as it opens.
    ///
    /// # Errors
    /// `BadSite` for more than 512 objects, or `Memory`.
    pub fn new(alloc: A, objects: u16) -> Result<Self, Fault> {
        Ok(Reading {
            table: table(alloc, objects)?,
            objects,
            instance: 0,
        })
    }

    /// Reads so many times, and answers how many values came.
    ///
    /// # Errors
    /// Want of memory.
    pub fn go(&mut self, times: u64) -> Result<u64, AllocError> {
        let mut values = 0u64;
        for _ in 0..times {
            self.instance = self.instance.saturating_add(1);
            if self.instance > self.objects {
                self.instance = 1;
            }
            let request = Request::Read {
                object: ObjectId {
                    object_type: u16::from(ObjectType::BinaryValue),
                    instance: u32::from(self.instance),
                },
                property: u32::from(Property::PresentValue),
                index: None,
            };
            if let Reply::Values(found) = self.table.reply(&request)? {
                values = values.saturating_add(found.len() as u64);
            }
        }
        Ok(values)
    }
}
