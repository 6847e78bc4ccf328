//! What devices replied, and what is left of their objects (12, 15).

use crate::illegal::{Illegal, Objection};
use crate::order::{HistoryEntry, before, judge_order};
use history::Entry;
use object_model::{SiteObject, SiteObjects, ValueKind};
use objects::Table;
use primitives::{ALL_PROPERTIES, ObjectRefs, ObjectType, PropertyReference, Reply, Request};
use std::alloc::{AllocError, Allocator};
use tags::{Items, ObjectId};

/// A device of a site at the end of a history.
#[derive(Drop)]
pub struct DeviceEnd<'a, A: Allocator> {
    /// What the site gives it: its objects as they open, and its instance.
    pub opening: &'a SiteObjects<A>,
    /// Its objects at the end.
    pub table: &'a Table<A>,
}

/// Judges a history by the devices of its site, as they open and as they are at the end: its order, and the replies
/// and the objects of each device.
///
/// # Errors
/// The first thing that is wrong, or want of memory.
pub fn judge_history<A: Allocator + Copy>(
    alloc: A,
    devices: &[DeviceEnd<'_, A>],
    history: &[HistoryEntry<A>],
) -> Result<(), Objection> {
    judge_order(history)?;
    judge_replies(alloc, devices, history)
}

/// Judges what devices replied: each execution, and each restart, is of a device that is there; the replies of a
/// device are, in order, those of its objects, which run anew from their opening at each restart; and at the end its
/// objects are what that run leaves.
///
/// # Errors
/// The first thing that is wrong, or want of memory.
pub fn judge_replies<A: Allocator + Copy>(
    alloc: A,
    devices: &[DeviceEnd<'_, A>],
    history: &[HistoryEntry<A>],
) -> Result<(), Objection> {
    judge_names(devices, history)?;
    for device in devices {
        judge_device(alloc, device, history)?;
    }
    Ok(())
}

/// Judges that each execution and each restart is of a device that is there.
fn judge_names<A: Allocator>(
    devices: &[DeviceEnd<'_, A>],
    history: &[HistoryEntry<A>],
) -> Result<(), Illegal> {
    for (place, entry) in history.iter().enumerate() {
        if let Some(instance) = device_of(before(history, place), entry) {
            if !devices
                .iter()
                .any(|device| device.opening.instance == instance)
            {
                return Err(Illegal::NoDevice { place });
            }
        }
    }
    Ok(())
}

/// The instance of the device that an entry is of, where one is: of an execution that which its issue names.
fn device_of<A: Allocator>(before: &[HistoryEntry<A>], entry: &HistoryEntry<A>) -> Option<u32> {
    match entry {
        Entry::Executed { number, .. } => {
            let (instance, _) = issue_of(before, *number)?;
            Some(instance)
        }
        Entry::Restarted { instance, .. } => Some(*instance),
        Entry::Issue { .. } | Entry::Answered { .. } | Entry::Ended { .. } => None,
    }
}

/// The device that the issue of a number names, and the request, where it is one of these entries.
fn issue_of<'h, A: Allocator>(
    entries: &'h [HistoryEntry<A>],
    issue: u64,
) -> Option<(u32, &'h Request<A>)> {
    for entry in entries {
        if let Entry::Issue {
            number,
            instance,
            request,
            ..
        } = entry
        {
            if *number == issue {
                return Some((*instance, request));
            }
        }
    }
    None
}

/// Judges the replies of a device, and what is left of its objects.
fn judge_device<A: Allocator + Copy>(
    alloc: A,
    device: &DeviceEnd<'_, A>,
    history: &[HistoryEntry<A>],
) -> Result<(), Objection> {
    let mut table = opened(alloc, device.opening)?;
    for (place, entry) in history.iter().enumerate() {
        if restarts(entry, device.opening.instance) {
            table = opened(alloc, device.opening)?;
        }
        judge_reply(
            &mut table,
            device.opening.instance,
            before(history, place),
            entry,
            place,
        )?;
    }
    judge_objects(alloc, device, &table)
}

/// The objects of a device as they open.
fn opened<A: Allocator + Copy>(alloc: A, opening: &SiteObjects<A>) -> Result<Table<A>, Objection> {
    let table = Table::new(alloc, opening.copy(alloc)?)?;
    Ok(table)
}

/// Whether an entry is a restart of the device of an instance.
fn restarts<A: Allocator>(entry: &HistoryEntry<A>, device: u32) -> bool {
    match entry {
        Entry::Restarted { instance, .. } => *instance == device,
        Entry::Issue { .. }
        | Entry::Executed { .. }
        | Entry::Answered { .. }
        | Entry::Ended { .. } => false,
    }
}

/// Runs the objects of a device over an entry, and judges the reply where it is an execution there.
fn judge_reply<A: Allocator + Copy>(
    table: &mut Table<A>,
    device: u32,
    before: &[HistoryEntry<A>],
    entry: &HistoryEntry<A>,
    place: usize,
) -> Result<(), Objection> {
    let Entry::Executed { number, reply, .. } = entry else {
        return Ok(());
    };
    let Some((instance, request)) = issue_of(before, *number) else {
        return Ok(());
    };
    if instance == device && table.apply(request)? != *reply {
        return Err(Objection::Illegal(Illegal::OtherReply { place }));
    }
    Ok(())
}

/// Judges the objects of a device at the end, each property of each object, by those that its executions leave.
fn judge_objects<A: Allocator + Copy>(
    alloc: A,
    device: &DeviceEnd<'_, A>,
    left: &Table<A>,
) -> Result<(), Objection> {
    let all = all_of(alloc, device.opening)?;
    if device.table.reply(&all)? == left.reply(&all)? {
        Ok(())
    } else {
        Err(Objection::Illegal(Illegal::OtherObjects {
            instance: device.opening.instance,
        }))
    }
}

/// What reads each property of each object of a device (15.7).
fn all_of<A: Allocator + Copy>(
    alloc: A,
    opening: &SiteObjects<A>,
) -> Result<Request<A>, AllocError> {
    let mut all = Items::new(alloc);
    all.push(all_in(alloc, ObjectType::Device, opening.instance)?)?;
    for object in opening.objects.as_slice() {
        all.push(all_in(alloc, type_of(object), object.instance)?)?;
    }
    Ok(Request::ReadMany(all))
}

/// What reads each property of an object.
fn all_in<A: Allocator + Copy>(
    alloc: A,
    object_type: ObjectType,
    instance: u32,
) -> Result<ObjectRefs<A>, AllocError> {
    let reference = PropertyReference {
        property: ALL_PROPERTIES,
        index: None,
    };
    Ok(ObjectRefs {
        object: ObjectId {
            object_type: u16::from(object_type),
            instance,
        },
        refs: Items::from_slice(alloc, &[reference])?,
    })
}

/// The type of a value object.
fn type_of<A: Allocator>(object: &SiteObject<A>) -> ObjectType {
    match object.kind {
        ValueKind::Binary => ObjectType::BinaryValue,
        ValueKind::MultiState { .. } => ObjectType::MultiStateValue,
        ValueKind::CharacterString => ObjectType::CharacterStringValue,
        ValueKind::Integer { .. } => ObjectType::IntegerValue,
    }
}
