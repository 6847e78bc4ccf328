//! Values, properties and building blocks as they are printed.

use crate::building_blocks::BuildingBlock;
use crate::names::property_name;
use object_model::writing::access;
use object_model::{Access, Object};
use primitives::Property;
use std::alloc::Allocator;
use std::fmt;
use tags::Value;

/// A value of the Device object that is a text or a number.
#[derive(Clone, Copy)]
pub(crate) struct Held<'a, A: Allocator>(pub(crate) &'a Value<A>);

impl<A: Allocator> fmt::Display for Held<'_, A> {
    fn fmt<W: fmt::Write>(&self, f: &mut fmt::Formatter<W>) -> fmt::Result {
        match self.0 {
            Value::Text { octets, .. } => match std::str::from_utf8(octets.as_slice()) {
                Ok(text) => f.write_str(text),
                Err(_) => Err(fmt::Error),
            },
            Value::Unsigned(number) | Value::Enum(number) => write!(f, "{number}"),
            Value::Null
            | Value::Bool(_)
            | Value::Signed(_)
            | Value::Bits { .. }
            | Value::Object(_)
            | Value::Other { .. }
            | Value::Built(_) => Err(fmt::Error),
        }
    }
}

/// The properties of an object, with what is special of each: `Description (optional, writable)`.
#[derive(Clone, Copy)]
pub(crate) struct Properties<'a, A: Allocator>(pub(crate) &'a Object<A>);

impl<A: Allocator> fmt::Display for Properties<'_, A> {
    fn fmt<W: fmt::Write>(&self, f: &mut fmt::Formatter<W>) -> fmt::Result {
        let mut mark = "";
        for property in self.0.properties() {
            f.write_str(mark)?;
            f.write_str(property_name(*property))?;
            f.write_str(remark(self.0, *property))?;
            mark = ", ";
        }
        Ok(())
    }
}

/// What is special of a property of an object: that an object of its type may lack it, and how it is written.
fn remark<A: Allocator>(object: &Object<A>, property: Property) -> &'static str {
    match (property.is_required(), access(object, property)) {
        (true, Access::ReadOnly) => "",
        (true, Access::Writable(_)) => " (writable)",
        (true, Access::Commandable(_)) => " (commandable)",
        (false, Access::ReadOnly) => " (optional)",
        (false, Access::Writable(_)) => " (optional, writable)",
        (false, Access::Commandable(_)) => " (optional, commandable)",
    }
}

/// Building blocks, one behind the other.
#[derive(Clone, Copy)]
pub(crate) struct Blocks<'a>(pub(crate) &'a [BuildingBlock]);

impl fmt::Display for Blocks<'_> {
    fn fmt<W: fmt::Write>(&self, f: &mut fmt::Formatter<W>) -> fmt::Result {
        let mut mark = "";
        for block in self.0 {
            f.write_str(mark)?;
            write!(f, "{block}")?;
            mark = ", ";
        }
        Ok(())
    }
}

/// The nearest device profile, of which these building blocks are lacking.
#[derive(Clone, Copy)]
pub(crate) struct Nearest<'a>(pub(crate) &'a [BuildingBlock]);

impl fmt::Display for Nearest<'_> {
    fn fmt<W: fmt::Write>(&self, f: &mut fmt::Formatter<W>) -> fmt::Result {
        f.write_str("B-SA (BACnet Smart Actuator)")?;
        if self.0.is_empty() {
            return Ok(());
        }
        write!(f, " but for {}, so it is not claimed", Blocks(self.0))
    }
}
