//! Devices in words: `NAME PLACE INSTANCE` and objects `TYPE:INSTANCE:NAME:DEFAULT`, or `N*` for as many Integer
//! Values.

use crate::places::{cut, place, text};
use object_model::{SiteObject, SiteObjects, ValueKind};
use sheets::{Part, Stop, two_words};
use site_parts::Role;
use std::alloc::Allocator;
use tags::{Items, Value};
use words::parse_number;

/// A device with the name of its station and the kind of link of its place.
pub(crate) fn device<A: Allocator + Copy>(
    memory: A,
    name: &str,
    words: &str,
) -> Result<Role<A>, Stop> {
    let (place_word, rest) = two_words(words);
    let (instance, objects) = two_words(rest);
    let place = place(memory, place_word)?;
    let mut site = SiteObjects {
        name: text(memory, name)?,
        instance: parse_number(instance)?,
        vendor: 260,
        data_link: place.link_kind(),
        objects: Items::new(memory),
    };
    add_objects(memory, &mut site, objects)?;
    Ok(Role::Device {
        place,
        objects: site,
    })
}

/// Adds objects to a device.
fn add_objects<A: Allocator + Copy>(
    memory: A,
    site: &mut SiteObjects<A>,
    words: &str,
) -> Result<(), Stop> {
    for word in words.split(' ') {
        add_word(memory, site, word)?;
    }
    Ok(())
}

/// Adds an object or many, or changes what the device says of itself: `named NAME`, `on KIND`.
fn add_word<A: Allocator + Copy>(
    memory: A,
    site: &mut SiteObjects<A>,
    word: &str,
) -> Result<(), Stop> {
    if word.is_empty() {
        return Ok(());
    }
    if let Some(name) = word.strip_prefix("named:") {
        site.name = text(memory, name)?;
        return Ok(());
    }
    match word.strip_suffix('*') {
        Some(count) => add_crowd(memory, site, parse_number(count)?),
        None => add_one(memory, site, word),
    }
}

/// Adds an object.
fn add_one<A: Allocator + Copy>(
    memory: A,
    site: &mut SiteObjects<A>,
    word: &str,
) -> Result<(), Stop> {
    site.objects.push(object(memory, word)?)?;
    Ok(())
}

/// An object of a device.
fn object<A: Allocator + Copy>(memory: A, word: &str) -> Result<SiteObject<A>, Stop> {
    let (kind_word, rest) = cut(word, ':');
    let (instance, rest) = cut(rest, ':');
    let (name, default) = cut(rest, ':');
    let kind = kind(kind_word)?;
    let instance = parse_number(instance)?;
    Ok(SiteObject {
        kind,
        instance,
        name: text(memory, name)?,
        default: default_of(memory, kind, default)?,
        description: Items::new(memory),
    })
}

/// A type of value object by its number, with its states or units.
fn kind(word: &str) -> Result<ValueKind, Stop> {
    match word.split_once('/') {
        Some(("19", states)) => Ok(ValueKind::MultiState {
            number_of_states: parse_number(states)?,
        }),
        Some(("45", units)) => Ok(ValueKind::Integer {
            units: parse_number(units)?,
        }),
        None if word == "5" => Ok(ValueKind::Binary),
        None if word == "40" => Ok(ValueKind::CharacterString),
        _ => Err(Stop::Unread(Part::Asked)),
    }
}

/// The value that an object of this type has where no command is in force; a text `N` has so many letters.
fn default_of<A: Allocator + Copy>(
    memory: A,
    kind: ValueKind,
    word: &str,
) -> Result<Value<A>, Stop> {
    match kind {
        ValueKind::Binary => Ok(Value::Enum(parse_number(word)?)),
        ValueKind::MultiState { .. } => Ok(Value::Unsigned(parse_number(word)?)),
        ValueKind::Integer { .. } => Ok(Value::Signed(parse_number(word)?)),
        ValueKind::CharacterString => letters(memory, parse_number(word)?),
    }
}

/// A text of so many letters.
fn letters<A: Allocator + Copy>(memory: A, count: u32) -> Result<Value<A>, Stop> {
    let mut octets = Items::new(memory);
    for _ in 0..count {
        octets.push(65)?;
    }
    Ok(Value::Text { set: 0, octets })
}

/// Adds this number of Integer Values without units, each named by its instance.
pub(crate) fn add_crowd<A: Allocator + Copy>(
    memory: A,
    site: &mut SiteObjects<A>,
    count: u32,
) -> Result<(), Stop> {
    for instance in 0..count {
        site.objects.push(one_of_crowd(memory, instance)?)?;
    }
    Ok(())
}

/// An Integer Value without units, named by its instance.
fn one_of_crowd<A: Allocator + Copy>(memory: A, instance: u32) -> Result<SiteObject<A>, Stop> {
    let name = format!(in memory; "{instance}")?;
    Ok(SiteObject {
        kind: ValueKind::Integer { units: 95 },
        instance,
        name: text(memory, name.as_str())?,
        default: Value::Signed(0),
        description: Items::new(memory),
    })
}
