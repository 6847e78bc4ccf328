//! How many devices there are, and their objects.

ghost use Rattle.std.specs.Prelude.{◌↔◌, IfOk, IsTrue};
ghost use Rattle.site.specs.Devices.{AreDevices, AreFewDevices};
ghost use Rattle.site.specs.Sound.{HaveObjects};

use crate::part::Part;
use crate::shown::Named;
use crate::told::{Listener, Told};
use object_model::SiteObject;
use profile::{MAX_DEVICES, MAX_OBJECTS, MAX_TEXT_OCTETS};
use site::{are_devices, are_few_devices};
use site_parts::Station;
use std::alloc::Allocator;
use std::io;
use tags::Value;

/// Whether there are a few devices, with objects that a site may give them (12); what is wrong is told.
pub(crate) fn tell_devices<A: Allocator, L: Listener>(
    stations: &[Station<A>],
    out: &mut L,
) -> io::Result<bool>
    ensures { IfOk result (λ b. IsTrue b ↔ HaveObjects stations.now) }
{
    let few = tell_few(stations, out)?;
    let each = tell_each(stations, out)?;
    Ok(few && each)
}

fn tell_few<A: Allocator, L: Listener>(stations: &[Station<A>], out: &mut L) -> io::Result<bool>
    ensures { IfOk result (λ b. IsTrue b ↔ AreFewDevices stations.now) }
{
    let is_sound = are_few_devices(stations);
    if !is_sound {
        tell_many(stations, out)?;
    }
    Ok(is_sound)
}

/// Tells how many devices there are, of the first one too many.
fn tell_many<A: Allocator, L: Listener>(stations: &[Station<A>], out: &mut L) -> io::Result<()> {
    let mut count = 0usize;
    let mut too_many = Part::Site;
    for (index, station) in stations.iter().enumerate() {
        if station.role.objects().is_some() {
            if count == MAX_DEVICES {
                too_many = Part::Station(index);
            }
            count = count.saturating_add(1);
        }
    }
    out.tell(Told::ManyDevices(count).of(too_many.whole()))
}

fn tell_each<A: Allocator, L: Listener>(stations: &[Station<A>], out: &mut L) -> io::Result<bool>
    ensures { IfOk result (λ b. IsTrue b ↔ AreDevices stations.now) }
{
    let is_sound = are_devices(stations);
    if !is_sound {
        tell_faulty(stations, out)?;
    }
    Ok(is_sound)
}

/// Tells each device whose objects none may have.
fn tell_faulty<A: Allocator, L: Listener>(stations: &[Station<A>], out: &mut L) -> io::Result<()> {
    let mut left = stations;
    while let [station, rest @ ..] = left {
        if !are_devices(&left[..1]) {
            let index = stations.len().saturating_sub(left.len());
            tell_device(index, station, out)?;
        }
        left = rest;
    }
    Ok(())
}

fn tell_device<A: Allocator, L: Listener>(
    index: usize,
    station: &Station<A>,
    out: &mut L,
) -> io::Result<()> {
    let Some(objects) = station.role.objects() else {
        return Ok(());
    };
    let device = Named::at(index, station);
    let objects = objects.objects.as_slice();
    let count = objects.len();
    if count > MAX_OBJECTS {
        let first_too_many = device.object(MAX_OBJECTS);
        out.tell(Told::ManyObjects { device, count }.of(first_too_many.whole()))?;
    }
    let is_told = tell_objects(device, objects, out)?;
    if !is_told && count <= MAX_OBJECTS {
        out.tell(Told::NoDevice(device).of(device.part().whole()))?;
    }
    Ok(())
}

/// Tells what is wrong with objects, and whether something was.
fn tell_objects<A: Allocator, L: Listener>(
    device: Named<'_>,
    objects: &[SiteObject<A>],
    out: &mut L,
) -> io::Result<bool> {
    let mut is_told = false;
    for (at, object) in objects.iter().enumerate() {
        is_told |= tell_texts(device, at, object, out)?;
        is_told |= tell_same(device, &objects[..at], object, out)?;
    }
    Ok(is_told)
}

/// Tells which texts of an object are too long, and that it has the device's name, and whether something was told.
fn tell_texts<A: Allocator, L: Listener>(
    device: Named<'_>,
    at: usize,
    site_object: &SiteObject<A>,
    out: &mut L,
) -> io::Result<bool> {
    let part = device.object(at);
    let object = at.saturating_add(1);
    let mut is_told = false;
    for (text, octets) in texts_of(site_object) {
        if octets.len() > MAX_TEXT_OCTETS {
            let told = Told::LongText {
                device,
                object,
                text,
            };
            out.tell(told.of(part.key(text)))?;
            is_told = true;
        }
    }
    if site_object.name.as_slice() == device.name.as_bytes() {
        out.tell(Told::DeviceName { device, object }.of(part.key("name")))?;
        is_told = true;
    }
    Ok(is_told)
}

/// The texts of an object, and the keys that they stand under.
fn texts_of<A: Allocator>(object: &SiteObject<A>) -> [(&'static str, &[u8]); 3] {
    let default: &[u8] = match &object.default {
        Value::Text { octets, .. } => octets.as_slice(),
        _ => &[],
    };
    [
        ("name", object.name.as_slice()),
        ("default", default),
        ("description", object.description.as_slice()),
    ]
}

/// Tells the first of these objects that is the object, and the first that has its name, and whether something was
/// told.
fn tell_same<A: Allocator, L: Listener>(
    device: Named<'_>,
    before: &[SiteObject<A>],
    object: &SiteObject<A>,
    out: &mut L,
) -> io::Result<bool> {
    let part = device.object(before.len());
    let second = before.len().saturating_add(1);
    let twin = before.iter().position(|other| is_twin(other, object));
    if let Some(at) = twin {
        let told = Told::SameObject {
            device,
            first: at.saturating_add(1),
            second,
            kind: u16::from(object.kind.object_type()),
            instance: object.instance,
        };
        out.tell(told.of_both(device.object(at).key("instance"), part.key("instance")))?;
    }
    let namesake = before.iter().position(|other| is_namesake(other, object));
    if let Some(at) = namesake {
        let told = Told::SameObjectName {
            device,
            first: at.saturating_add(1),
            second,
        };
        out.tell(told.of_both(device.object(at).key("name"), part.key("name")))?;
    }
    Ok(twin.is_some() || namesake.is_some())
}

/// Whether two objects have one identifier (12.1.1).
fn is_twin<A: Allocator>(a: &SiteObject<A>, b: &SiteObject<A>) -> bool {
    a.kind.object_type() == b.kind.object_type() && a.instance == b.instance
}

/// Whether two objects have one name (12.11.2).
fn is_namesake<A: Allocator>(a: &SiteObject<A>, b: &SiteObject<A>) -> bool {
    a.name.as_slice() == b.name.as_slice()
}
