//! What is wrong with a key, in words.

use crate::keys::{Key, Place, RowKind, place_in};
use crate::row::{Row, RowPath};
use std::alloc::{AllocError, Global};
use std::fmt;
use toml::Value;

/// What is wrong with a key of a row.
#[derive(Clone, Copy)]
pub(crate) struct Fault<'t> {
    pub(crate) row: Row<'t>,
    pub(crate) what: What<'t>,
}

/// What is wrong.
#[derive(Clone, Copy)]
pub(crate) enum What<'t> {
    /// The row may not have this key.
    Unknown(&'t str),
    /// The row needs the key.
    Missing(Key),
    /// Something else should stand there.
    Other {
        key: Key,
        found: &'t Value,
    },
    /// The value of an array at an index is no table.
    NoTable {
        kind: RowKind,
        index: usize,
        found: &'t Value,
    },
}

impl Fault<'_> {
    /// The path of what is to be looked at: the key, the value of an array, or the row that lacks a key.
    ///
    /// # Errors
    /// Want of memory.
    pub(crate) fn path(&self, alloc: Global) -> Result<String, AllocError> {
        let row = RowPath(self.row);
        let point = if self.row.kind == RowKind::Document {
            ""
        } else {
            "."
        };
        match self.what {
            What::Unknown(key) => format!(in alloc; "{row}{point}{key}"),
            What::Other { key, .. } => format!(in alloc; "{row}{point}{}", key.name),
            What::NoTable { kind, index, .. } => {
                format!(in alloc; "{row}{point}{}[{index}]", kind.array())
            }
            What::Missing(_) => format!(in alloc; "{row}"),
        }
    }

    /// What of the row rules a key out that other rows of its kind may have.
    pub(crate) fn beside(&self, key: &str) -> Option<&'static str> {
        if self.row.kind == RowKind::Object {
            return match key {
                "states" | "units" => Some("at this type"),
                _ => None,
            };
        }
        match (place_in(self.row.kind, self.row.table), key) {
            (Place::Beyond, "subnet" | "mac") => Some("beside foreign"),
            (Place::Bus, "subnet" | "address") => Some("beside mac"),
            (Place::Bus | Place::Ip, "ttl") if self.may_be_foreign() => Some("without foreign"),
            _ => None,
        }
    }

    /// Whether its row may stand beyond all subnets.
    fn may_be_foreign(&self) -> bool {
        self.row.kind == RowKind::Device || self.row.kind == RowKind::Client
    }
}

impl fmt::Display for Fault<'_> {
    fn fmt<W: fmt::Write>(&self, f: &mut fmt::Formatter<W>) -> fmt::Result {
        let row = self.row;
        match self.what {
            What::Unknown(key) => write!(f, "{row}: {key} is unknown here"),
            What::Missing(Key { name, kind, .. }) => {
                write!(f, "{row}: {name} is missing; expected {kind}")
            }
            What::Other { key, found } => {
                let Key { name, kind, .. } = key;
                write!(f, "{row}: {name}: expected {kind}; found {}", Found(found))
            }
            What::NoTable { kind, found, .. } => {
                write!(
                    f,
                    "{row}: {}: expected a table; found {}",
                    kind.array(),
                    Found(found)
                )
            }
        }
    }
}

/// What was found, in words.
#[derive(Clone, Copy)]
struct Found<'t>(&'t Value);

impl fmt::Display for Found<'_> {
    fn fmt<W: fmt::Write>(&self, f: &mut fmt::Formatter<W>) -> fmt::Result {
        match self.0 {
            Value::String(text) => write!(f, "{:?}", text.as_str()),
            Value::Integer(number) => write!(f, "{number}"),
            Value::Boolean(flag) => write!(f, "{flag}"),
            Value::Float(_) => f.write_str("a number that isn't whole"),
            Value::Datetime(_) => f.write_str("a date or a time"),
            Value::Array(_) => f.write_str("an array"),
            Value::Table(_) => f.write_str("a table"),
        }
    }
}
