//! The device of the rows: number 10 on network 1 at 127.0.0.1:47811 or at address 10 of a bus, with Binary Value 1,
//! Integer Value 1 at 7, and fourteen texts of 128 octets.

use endpoint::Device;
use npdu::{Mac, Station};
use objects::{SiteObject, SiteObjects, Table, ValueKind};
use profile::LinkKind;
use sheets::{Part, Stop};
use std::alloc::Allocator;
use tags::{Items, Octets, Value};

/// How many texts the device has.
const TEXTS: u32 = 14;

/// How many octets a text has.
const TEXT: usize = 128;

/// A text of the device.
fn text<A: Allocator + Copy>(alloc: A, instance: u32) -> Result<SiteObject<A>, Stop> {
    let name = [
        b't',
        b'0' + (instance / 10 % 10) as u8,
        b'0' + (instance % 10) as u8,
    ];
    Ok(SiteObject {
        kind: ValueKind::CharacterString,
        instance,
        name: Items::from_slice(alloc, name.as_slice())?,
        default: Value::Text {
            set: 0,
            octets: Octets::from_slice(alloc, [b'a'; TEXT].as_slice())?,
        },
        description: Items::new(alloc),
    })
}

/// An object that is no text.
fn number<A: Allocator + Copy>(
    alloc: A,
    kind: ValueKind,
    name: &[u8],
    default: Value<A>,
) -> Result<SiteObject<A>, Stop> {
    Ok(SiteObject {
        kind,
        instance: 1,
        name: Items::from_slice(alloc, name)?,
        default,
        description: Items::new(alloc),
    })
}

/// The objects of the device, on this link.
fn site<A: Allocator + Copy>(alloc: A, data_link: LinkKind) -> Result<SiteObjects<A>, Stop> {
    let mut objects = Items::new(alloc);
    objects.push(number(alloc, ValueKind::Binary, b"B1", Value::Enum(0))?)?;
    let integer = ValueKind::Integer { units: 95 };
    objects.push(number(alloc, integer, b"I1", Value::Signed(7))?)?;
    for instance in 1..=TEXTS {
        objects.push(text(alloc, instance)?)?;
    }
    Ok(SiteObjects {
        name: Items::from_slice(alloc, b"d")?,
        instance: 10,
        vendor: 0,
        data_link,
        objects,
    })
}

/// Its table as it opens, for a restart.
///
/// # Errors
/// Want of memory.
pub(crate) fn table<A: Allocator + Copy>(alloc: A) -> Result<Table<A>, Stop> {
    Ok(Table::new(alloc, site(alloc, LinkKind::BacnetIp)?)?)
}

/// The device on this link.
///
/// # Errors
/// `Unread` where the word is none of a link, `Memory`.
pub(crate) fn open<A: Allocator + Copy>(alloc: A, link: &str) -> Result<Device<A>, Stop> {
    let (data_link, mac) = match link {
        "bacnet-ip" => (LinkKind::BacnetIp, Mac::Six([127, 0, 0, 1, 0xBA, 0xC3])),
        "ms-tp" => (LinkKind::MsTp, Mac::One(10)),
        _ => return Err(Stop::Unread(Part::Asked)),
    };
    let address = Station { net: 1, mac };
    Ok(Device::new(alloc, site(alloc, data_link)?, address)?)
}
