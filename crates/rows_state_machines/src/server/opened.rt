//! The device of the rows: Binary Value 1, Integer Value 1 at 7, and fourteen texts of 128 octets.

use apdu::MaxApdu;
use objects::{SiteObject, SiteObjects, Table, ValueKind};
use profile::LinkKind;
use services::ObjectExecutor;
use sheets::{Part, Stop};
use std::alloc::{AllocError, Allocator};
use tags::{Items, Octets, Value};
use transactions::ServerTsm;

/// A server in memory of `A`.
pub(crate) type Served<A> = ServerTsm<ObjectExecutor<A>, A>;

/// How many texts the device has.
const TEXTS: u32 = 14;

/// How many octets a text has.
const TEXT: usize = 128;

/// An object without a description.
fn object<A: Allocator + Copy>(
    alloc: A,
    kind: ValueKind,
    instance: u32,
    name: &[u8],
    default: Value<A>,
) -> Result<SiteObject<A>, AllocError> {
    Ok(SiteObject {
        kind,
        instance,
        name: Items::from_slice(alloc, name)?,
        default,
        description: Items::new(alloc),
    })
}

/// A text of the device.
fn text<A: Allocator + Copy>(alloc: A, instance: u32) -> Result<SiteObject<A>, AllocError> {
    let name = [
        b't',
        b'0' + (instance / 10 % 10) as u8,
        b'0' + (instance % 10) as u8,
    ];
    let octets = Octets::from_slice(alloc, [b'a'; TEXT].as_slice())?;
    object(
        alloc,
        ValueKind::CharacterString,
        instance,
        name.as_slice(),
        Value::Text { set: 0, octets },
    )
}

/// An object of the device: the two numbers, and behind them the texts.
fn object_at<A: Allocator + Copy>(alloc: A, at: u32) -> Result<SiteObject<A>, AllocError> {
    match at {
        0 => object(alloc, ValueKind::Binary, 1, b"B1", Value::Enum(0)),
        1 => object(
            alloc,
            ValueKind::Integer { units: 95 },
            1,
            b"I1",
            Value::Signed(7),
        ),
        _ => text(alloc, at.saturating_sub(1)),
    }
}

/// The objects of the device.
fn objects<A: Allocator + Copy>(alloc: A) -> Result<Items<SiteObject<A>, A>, Stop> {
    let mut objects = Items::new(alloc);
    for at in 0..TEXTS + 2 {
        objects.push(object_at(alloc, at)?)?;
    }
    Ok(objects)
}

/// What executes on the device's objects, as they open.
///
/// # Errors
/// Want of memory.
pub(crate) fn executor<A: Allocator + Copy>(alloc: A) -> Result<ObjectExecutor<A>, Stop> {
    let site = SiteObjects {
        name: Items::from_slice(alloc, b"d")?,
        instance: 10,
        vendor: 0,
        data_link: LinkKind::BacnetIp,
        objects: objects(alloc)?,
    };
    Ok(ObjectExecutor {
        table: Table::new(alloc, site)?,
    })
}

/// A server of the device on this link.
///
/// # Errors
/// `Unread` where the word is none of a link, `Memory`.
pub(crate) fn open<A: Allocator + Copy>(alloc: A, link: &str) -> Result<Served<A>, Stop> {
    let max_apdu = match link {
        "bacnet-ip" => MaxApdu::UpTo1476,
        "ms-tp" => MaxApdu::UpTo480,
        _ => return Err(Stop::Unread(Part::Asked)),
    };
    Ok(ServerTsm::new(alloc, executor(alloc)?, max_apdu))
}
