//! The objects of a device (12.8, 12.20, 12.37, 12.43).

use crate::row::{Range, Row, Stop, octets};
use crate::unread::KeyFault;
use object_model::{SiteObject, ValueKind};
use std::alloc::Allocator;
use tags::{Items, Value};

/// Numbers of instances (12.1.1).
pub const INSTANCE: Range = Range {
    least: 0,
    greatest: 4_194_302,
};

/// Numbers of states (12.20).
pub const STATES: Range = Range {
    least: 1,
    greatest: 65_535,
};

/// Units (12.43).
pub const UNITS: Range = Range {
    least: 0,
    greatest: 4_294_967_295,
};

/// No units (21, BACnetEngineeringUnits).
const NO_UNITS: u32 = 95;

/// Inactive and active (21, BACnetBinaryPV).
pub const BINARY: Range = Range {
    least: 0,
    greatest: 1,
};

/// Numbers of an Integer Value (20.2.5).
pub const INTEGER: Range = Range {
    least: -2_147_483_648,
    greatest: 2_147_483_647,
};

/// The objects of a device, in their order. Which of them a device may have together is asked of all of them.
pub(crate) fn objects<'t, A: Allocator + Copy>(
    alloc: A,
    device: Row<'t>,
) -> Result<Items<SiteObject<A>, A>, Stop<'t>> {
    let mut all = Items::new(alloc);
    for (index, value) in device.rows("object")?.iter().enumerate() {
        all.push(object(alloc, device.row("object", index, value)?)?)?;
    }
    Ok(all)
}

fn object<'t, A: Allocator + Copy>(alloc: A, row: Row<'t>) -> Result<SiteObject<A>, Stop<'t>> {
    row.only(&[
        "type",
        "instance",
        "name",
        "default",
        "description",
        "states",
        "units",
    ])?;
    let kind = kind(row)?;
    let instance = row.some_number("instance", INSTANCE)?;
    let name = octets(alloc, row.some_text("name")?)?;
    let default = default(alloc, row, kind)?;
    let description = octets(alloc, row.text("description")?.unwrap_or(""))?;
    Ok(SiteObject {
        kind,
        instance,
        name,
        default,
        description,
    })
}

/// The object's type; `states` and `units` stand only where the type has them.
fn kind(row: Row<'_>) -> Result<ValueKind, Stop<'_>> {
    let word = row.some_text("type")?;
    if word != "multi-state-value" {
        row.without("states")?;
    }
    if word != "integer-value" {
        row.without("units")?;
    }
    match word {
        "binary-value" => Ok(ValueKind::Binary),
        "multi-state-value" => Ok(ValueKind::MultiState {
            number_of_states: row.some_number("states", STATES)?,
        }),
        "character-string-value" => Ok(ValueKind::CharacterString),
        "integer-value" => Ok(ValueKind::Integer {
            units: row.number("units", UNITS)?.unwrap_or(NO_UNITS),
        }),
        _ => Err(row.refuse("type", KeyFault::NoKind)),
    }
}

/// The value in force while no command is, which the object's Present_Value may have.
fn default<'t, A: Allocator + Copy>(
    alloc: A,
    row: Row<'t>,
    kind: ValueKind,
) -> Result<Value<A>, Stop<'t>> {
    match kind {
        ValueKind::Binary => Ok(Value::Enum(row.some_number("default", BINARY)?)),
        ValueKind::MultiState { number_of_states } => {
            let states = Range {
                least: 1,
                greatest: i64::from(number_of_states),
            };
            Ok(Value::Unsigned(row.some_number("default", states)?))
        }
        ValueKind::Integer { .. } => Ok(Value::Signed(row.some_number("default", INTEGER)?)),
        ValueKind::CharacterString => Ok(Value::Text {
            set: 0,
            octets: octets(alloc, row.some_text("default")?)?,
        }),
    }
}
