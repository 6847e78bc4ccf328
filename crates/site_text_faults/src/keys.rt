//! The keys of each kind of row, and what may stand under them.

use messages::Choice;
use site_parts::is_name;
use site_text::{
    BINARY, INSTANCE, INTEGER, MAC, NETWORK, Range, SECONDS_TO_LIVE, STATES, SUBNET, UNITS, VENDOR,
    address_of,
};
use std::alloc::{AllocError, Global};
use std::fmt;
use toml::{Table, Value};

/// What may stand under a key.
#[derive(Clone, Copy)]
pub(crate) enum Kind {
    /// A number within a range.
    Number(Range),
    /// A text.
    Text,
    /// The name of a station.
    Name,
    /// A BACnet/IP address.
    Address,
    /// `true` or `false`.
    Flag,
    /// The kind of a network.
    NetworkKind,
    /// The type of an object.
    ObjectType,
    /// Rows.
    Tables,
    /// Any value.
    Any,
}

/// A key of a row.
#[derive(Clone, Copy)]
pub(crate) struct Key {
    pub(crate) name: &'static str,
    pub(crate) kind: Kind,
    pub(crate) is_needed: bool,
}

/// The kinds of rows.
#[derive(Clone, Copy, PartialEq, Eq)]
pub(crate) enum RowKind {
    Document,
    Network,
    Manager,
    Router,
    Port,
    Device,
    Object,
    Client,
}

impl RowKind {
    /// The array that rows of the kind stand in.
    pub(crate) fn array(self) -> &'static str {
        match self {
            RowKind::Document => "document",
            RowKind::Network => "network",
            RowKind::Manager => "bbmd",
            RowKind::Router => "router",
            RowKind::Port => "port",
            RowKind::Device => "device",
            RowKind::Object => "object",
            RowKind::Client => "client",
        }
    }

    /// The kind of the rows within one of this kind, if there are some.
    pub(crate) fn inner(self) -> Option<RowKind> {
        match self {
            RowKind::Router => Some(RowKind::Port),
            RowKind::Device => Some(RowKind::Object),
            RowKind::Document
            | RowKind::Network
            | RowKind::Manager
            | RowKind::Port
            | RowKind::Object
            | RowKind::Client => None,
        }
    }
}

/// The kinds of networks.
pub(crate) const NETWORK_KINDS: [&str; 2] = ["ip", "mstp"];

/// The types of objects.
pub(crate) const OBJECT_TYPES: [&str; 4] = [
    "binary-value",
    "multi-state-value",
    "character-string-value",
    "integer-value",
];

/// A key that a row needs.
fn needed(name: &'static str, kind: Kind) -> Key {
    Key {
        name,
        kind,
        is_needed: true,
    }
}

/// A key that a row may leave out.
fn optional(name: &'static str, kind: Kind) -> Key {
    Key {
        name,
        kind,
        is_needed: false,
    }
}

/// The keys that a row of a kind may have beside those that it has.
///
/// # Errors
/// Want of memory.
pub(crate) fn keys_of(alloc: Global, kind: RowKind, table: &Table) -> Result<Vec<Key>, AllocError> {
    let mut keys = Vec::new(alloc);
    put_own_keys(kind, &mut keys)?;
    put_place_keys(place_in(kind, table), &mut keys)?;
    if kind == RowKind::Object {
        put_object_keys(table, &mut keys)?;
    }
    Ok(keys)
}

/// Puts the keys that each row of a kind has behind others.
fn put_own_keys(kind: RowKind, keys: &mut Vec<Key>) -> Result<(), AllocError> {
    match kind {
        RowKind::Document => keys.extend_from_slice(&[
            needed("network", Kind::Tables),
            optional("bbmd", Kind::Tables),
            optional("router", Kind::Tables),
            optional("device", Kind::Tables),
            optional("client", Kind::Tables),
        ]),
        RowKind::Network => keys.extend_from_slice(&[
            needed("number", Kind::Number(NETWORK)),
            needed("kind", Kind::NetworkKind),
        ]),
        RowKind::Manager => keys.extend_from_slice(&[needed("name", Kind::Name)]),
        RowKind::Router => keys.extend_from_slice(&[
            needed("name", Kind::Name),
            needed("port", Kind::Tables),
        ]),
        RowKind::Port => Ok(()),
        RowKind::Device => keys.extend_from_slice(&[
            needed("name", Kind::Name),
            needed("instance", Kind::Number(INSTANCE)),
            optional("vendor", Kind::Number(VENDOR)),
            optional("object", Kind::Tables),
        ]),
        RowKind::Object => keys.extend_from_slice(&[
            needed("type", Kind::ObjectType),
            needed("instance", Kind::Number(INSTANCE)),
            needed("name", Kind::Text),
            optional("description", Kind::Text),
        ]),
        RowKind::Client => keys.extend_from_slice(&[
            needed("name", Kind::Name),
            optional("segmented", Kind::Flag),
        ]),
    }
}

/// Puts the keys that tell a place behind others.
fn put_place_keys(place: Place, keys: &mut Vec<Key>) -> Result<(), AllocError> {
    match place {
        Place::Nowhere => Ok(()),
        Place::Ip => keys.extend_from_slice(&[
            needed("network", Kind::Number(NETWORK)),
            needed("subnet", Kind::Number(SUBNET)),
            needed("address", Kind::Address),
        ]),
        Place::Bus => keys.extend_from_slice(&[
            needed("network", Kind::Number(NETWORK)),
            needed("mac", Kind::Number(MAC)),
        ]),
        Place::Beyond => keys.extend_from_slice(&[
            optional("network", Kind::Number(NETWORK)),
            needed("address", Kind::Address),
            needed("foreign", Kind::Name),
            needed("ttl", Kind::Number(SECONDS_TO_LIVE)),
        ]),
    }
}

/// Which place the keys of a row tell.
#[derive(Clone, Copy)]
pub(crate) enum Place {
    Nowhere,
    Ip,
    Bus,
    Beyond,
}

/// The place that the keys of a row tell.
pub(crate) fn place_in(kind: RowKind, table: &Table) -> Place {
    match kind {
        RowKind::Document | RowKind::Network | RowKind::Router | RowKind::Object => Place::Nowhere,
        RowKind::Manager => Place::Ip,
        RowKind::Port => link_in(table),
        RowKind::Device | RowKind::Client => {
            if table.get("foreign").is_some() {
                return Place::Beyond;
            }
            link_in(table)
        }
    }
}

/// The place on a network that the keys of a row tell.
fn link_in(table: &Table) -> Place {
    if table.get("mac").is_some() {
        Place::Bus
    } else {
        Place::Ip
    }
}

/// Puts the keys that the type of an object brings behind others.
fn put_object_keys(table: &Table, keys: &mut Vec<Key>) -> Result<(), AllocError> {
    let word = match table.get("type") {
        Some(Value::String(word)) => word.as_str(),
        _ => "",
    };
    match word {
        "binary-value" => keys.push(needed("default", Kind::Number(BINARY)))?,
        "multi-state-value" => {
            let greatest = match table.get("states") {
                Some(Value::Integer(states)) if STATES.least <= *states => *states,
                _ => STATES.greatest,
            };
            keys.push(needed("states", Kind::Number(STATES)))?;
            let states = Range { least: 1, greatest };
            keys.push(needed("default", Kind::Number(states)))?;
        }
        "integer-value" => {
            keys.push(needed("default", Kind::Number(INTEGER)))?;
            keys.push(optional("units", Kind::Number(UNITS)))?;
        }
        "character-string-value" => keys.push(needed("default", Kind::Text))?,
        // What stands under these keys can't be judged without a type.
        _ => {
            keys.push(optional("default", Kind::Any))?;
            keys.push(optional("states", Kind::Any))?;
            keys.push(optional("units", Kind::Any))?;
        }
    }
    Ok(())
}

impl Kind {
    /// Whether a value may stand there; the tables of an array are judged one by one.
    pub(crate) fn takes(self, value: &Value) -> bool {
        match (self, value) {
            (Kind::Any, _) => true,
            (Kind::Number(Range { least, greatest }), Value::Integer(number)) => {
                least <= *number && *number <= greatest
            }
            (Kind::Text, Value::String(_)) => true,
            (Kind::Name, Value::String(text)) => is_name(text.as_bytes()),
            (Kind::Address, Value::String(text)) => address_of(text.as_str()).is_some(),
            (Kind::Flag, Value::Boolean(_)) => true,
            (Kind::NetworkKind | Kind::ObjectType, Value::String(text)) => {
                self.words().contains(&text.as_str())
            }
            (Kind::Tables, Value::Array(_)) => true,
            _ => false,
        }
    }

    /// The words that may stand there, where they are few.
    pub(crate) fn words(&self) -> &[&'static str] {
        match self {
            Kind::NetworkKind => &NETWORK_KINDS,
            Kind::ObjectType => &OBJECT_TYPES,
            Kind::Number(_)
            | Kind::Text
            | Kind::Name
            | Kind::Address
            | Kind::Flag
            | Kind::Tables
            | Kind::Any => &[],
        }
    }
}

impl fmt::Display for Kind {
    fn fmt<W: fmt::Write>(&self, f: &mut fmt::Formatter<W>) -> fmt::Result {
        match self {
            Kind::Number(Range { least, greatest }) => write!(f, "a number, {least} to {greatest}"),
            Kind::Text => f.write_str("a text"),
            Kind::Name => f.write_str("a name, 1 to 32 letters and digits"),
            Kind::Address => f.write_str("an address, as 127.0.0.1:47808"),
            Kind::Flag => f.write_str("true or false"),
            Kind::NetworkKind | Kind::ObjectType => write!(f, "{}", Choice(self.words())),
            Kind::Tables => f.write_str("an array of tables"),
            Kind::Any => f.write_str("a value"),
        }
    }
}
