//! Sites: `site NAME`, `device INSTANCE VENDOR LINK NAME`, and for each object
//! `object TYPE INSTANCE NAME DESCRIPTION DEFAULT`; `crowd N` are as many Integer Values.

use objects::{SiteObject, SiteObjects, ValueKind};
use profile::LinkKind;
use sheets::{Part, Row, Stop, two_words};
use std::alloc::Allocator;
use tags::{Items, Octets, Value};
use words::{parse_number, parse_octets, parse_value};

/// The words of a device that no row describes yet.
const NO_DEVICE: &str = "0 0 ip -";

/// A site in words: the rows of its file, and `NAME`, `NAME with OBJECT`, `NAME as INSTANCE NAME` or
/// `NAME on LINK`.
#[derive(Clone, Copy)]
pub(crate) struct Described<'r> {
    pub(crate) rows: &'r [Row<'r>],
    pub(crate) words: &'r str,
}

impl<'r> Described<'r> {
    /// The site, in memory of an allocator.
    ///
    /// # Errors
    /// `Unread` where no row describes it, and `Memory`.
    pub(crate) fn site<A: Allocator + Copy>(self, memory: A) -> Result<SiteObjects<A>, Stop> {
        let (name, change) = two_words(self.words);
        if !is_described(self.rows, name) {
            return Err(Stop::Unread(Part::Asked));
        }
        let mut site = device(memory, NO_DEVICE)?;
        add_rows(memory, &mut site, self.rows, name)?;
        if !change.is_empty() {
            add(memory, &mut site, change)?;
        }
        Ok(site)
    }
}

/// Adds what the rows of this name say to a site.
fn add_rows<A: Allocator + Copy>(
    memory: A,
    site: &mut SiteObjects<A>,
    rows: &[Row<'_>],
    name: &str,
) -> Result<(), Stop> {
    let mut is_named = false;
    for row in rows {
        match row.asked.strip_prefix("site ") {
            Some(site_name) => is_named = site_name == name,
            None if is_named && row.wanted.is_none() => add(memory, site, row.asked)?,
            None => {}
        }
    }
    Ok(())
}

/// Whether a row begins the site of this name.
fn is_described(rows: &[Row<'_>], name: &str) -> bool {
    for row in rows {
        if row.asked.strip_prefix("site ") == Some(name) {
            return true;
        }
    }
    false
}

/// Adds what words say to a site.
fn add<A: Allocator + Copy>(memory: A, site: &mut SiteObjects<A>, words: &str) -> Result<(), Stop> {
    let (word, rest) = two_words(words);
    match word {
        "device" => {
            *site = device(memory, rest)?;
            Ok(())
        }
        "object" | "with" => add_object(memory, site, rest),
        "crowd" => add_crowd(memory, site, parse_number(rest)?),
        "as" => rename(memory, site, rest),
        "on" => {
            site.data_link = data_link(rest)?;
            Ok(())
        }
        _ => Err(Stop::Unread(Part::Asked)),
    }
}

/// Adds a value object to a site.
fn add_object<A: Allocator + Copy>(
    memory: A,
    site: &mut SiteObjects<A>,
    words: &str,
) -> Result<(), Stop> {
    site.objects.push(object(memory, words)?)?;
    Ok(())
}

/// Gives a site another instance and name.
fn rename<A: Allocator + Copy>(
    memory: A,
    site: &mut SiteObjects<A>,
    words: &str,
) -> Result<(), Stop> {
    let (instance, name) = two_words(words);
    site.instance = parse_number(instance)?;
    site.name = parse_octets(memory, name)?;
    Ok(())
}

/// A data link.
fn data_link(word: &str) -> Result<LinkKind, Stop> {
    match word {
        "ip" => Ok(LinkKind::BacnetIp),
        "mstp" => Ok(LinkKind::MsTp),
        _ => Err(Stop::Unread(Part::Asked)),
    }
}

/// A device without objects: its instance, vendor, data link and name.
fn device<A: Allocator + Copy>(memory: A, words: &str) -> Result<SiteObjects<A>, Stop> {
    let (instance, rest) = two_words(words);
    let (vendor, rest) = two_words(rest);
    let (link, name) = two_words(rest);
    let instance = parse_number(instance)?;
    let vendor = parse_number(vendor)?;
    let data_link = data_link(link)?;
    Ok(SiteObjects {
        name: parse_octets(memory, name)?,
        instance,
        vendor,
        data_link,
        objects: Items::new(memory),
    })
}

/// A value object: its type, instance, name, description and default.
fn object<A: Allocator + Copy>(memory: A, words: &str) -> Result<SiteObject<A>, Stop> {
    let (type_word, rest) = two_words(words);
    let (instance, rest) = two_words(rest);
    let (name, rest) = two_words(rest);
    let kind = kind(type_word)?;
    let instance = parse_number(instance)?;
    let (default, description) = default_and_description(memory, rest)?;
    Ok(SiteObject {
        kind,
        instance,
        name: parse_octets(memory, name)?,
        default,
        description,
    })
}

/// The default and the description of a value object, which stands before it.
fn default_and_description<A: Allocator + Copy>(
    memory: A,
    words: &str,
) -> Result<(Value<A>, Octets<A>), Stop> {
    let (description, default) = two_words(words);
    Ok((
        parse_value(memory, default)?,
        parse_octets(memory, description)?,
    ))
}

/// A type of value object: `binary-value`, `multi-state-value/3`, `character-string-value` or
/// `integer-value/95`.
fn kind(word: &str) -> Result<ValueKind, Stop> {
    match word.split_once('/') {
        Some(("multi-state-value", states)) => Ok(ValueKind::MultiState {
            number_of_states: parse_number(states)?,
        }),
        Some(("integer-value", units)) => Ok(ValueKind::Integer {
            units: parse_number(units)?,
        }),
        None if word == "binary-value" => Ok(ValueKind::Binary),
        None if word == "character-string-value" => Ok(ValueKind::CharacterString),
        _ => Err(Stop::Unread(Part::Asked)),
    }
}

/// Adds this number of Integer Values without units, from instance 0, each named by its instance.
fn add_crowd<A: Allocator + Copy>(
    memory: A,
    site: &mut SiteObjects<A>,
    count: u32,
) -> Result<(), Stop> {
    for instance in 0..count {
        site.objects.push(one_of_crowd(memory, instance)?)?;
    }
    Ok(())
}

/// An Integer Value without units, named by its instance.
fn one_of_crowd<A: Allocator + Copy>(memory: A, instance: u32) -> Result<SiteObject<A>, Stop> {
    let name = format!(in memory; "{instance}")?;
    Ok(SiteObject {
        kind: ValueKind::Integer { units: 95 },
        instance,
        name: Items::from_slice(memory, name.as_bytes())?,
        default: Value::Signed(0),
        description: Items::new(memory),
    })
}
