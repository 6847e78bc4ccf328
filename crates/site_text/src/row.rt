//! A row of a document, and what stands under its keys.

use crate::address::address_of;
use crate::unread::{BadKey, KeyFault};
use bvll::Address;
use site_parts::is_name;
use std::alloc::{AllocError, AllocFailed, Allocator};
use std::fmt;
use tags::{Items, Octets};
use toml::{Table, Value};

/// The numbers that may stand under a key.
#[derive(Clone, Copy)]
pub struct Range {
    pub least: i64,
    pub greatest: i64,
}

/// How a row is called.
#[derive(Clone, Copy)]
struct Heading<'t> {
    array: &'t str,
    number: usize,
    name: Option<&'t str>,
}

impl fmt::Display for Heading<'_> {
    fn fmt<W: fmt::Write>(&self, f: &mut fmt::Formatter<W>) -> fmt::Result {
        write!(f, "{} {}", self.array, self.number)?;
        match self.name {
            Some(name) => write!(f, " ({name})"),
            None => Ok(()),
        }
    }
}

/// A row of a document, or the document itself.
#[derive(Clone, Copy)]
pub(crate) struct Row<'t> {
    table: &'t Table,
    outer: Option<Heading<'t>>,
    heading: Option<Heading<'t>>,
}

/// Why a document has no parts of a site.
#[derive(Clone, Copy)]
pub(crate) enum Stop<'t> {
    /// Want of memory.
    Memory,
    /// What is wrong with a key.
    Key(Found<'t>),
}

/// What is wrong with a key of a row.
#[derive(Clone, Copy)]
pub(crate) struct Found<'t> {
    outer: Option<Heading<'t>>,
    heading: Option<Heading<'t>>,
    key: &'t str,
    fault: KeyFault,
}

impl<'t> From<AllocError> for Stop<'t> {
    fn from(_error: AllocError) -> Stop<'t> {
        Stop::Memory
    }
}

impl<'t, T: Drop> From<AllocFailed<T>> for Stop<'t> {
    fn from(_error: AllocFailed<T>) -> Stop<'t> {
        Stop::Memory
    }
}

impl<'t> Row<'t> {
    /// The document.
    pub(crate) fn document(table: &'t Table) -> Row<'t> {
        Row {
            table,
            outer: None,
            heading: None,
        }
    }

    /// What stands under a key, if anything does.
    fn value(self, key: &str) -> Option<&'t Value> {
        self.table.get(key)
    }

    /// The rows of an array of tables; none where it is missing.
    pub(crate) fn rows(self, key: &'t str) -> Result<&'t [Value], Stop<'t>> {
        match self.value(key) {
            Some(Value::Array(rows)) => Ok(rows.as_slice()),
            Some(_) => Err(self.refuse(key, KeyFault::OtherType)),
            None => Ok(&[]),
        }
    }

    /// The row of an array at an index, which is a table.
    pub(crate) fn row(
        self,
        array: &'t str,
        index: usize,
        value: &'t Value,
    ) -> Result<Row<'t>, Stop<'t>> {
        let Value::Table(table) = value else {
            return Err(self.refuse(array, KeyFault::OtherType));
        };
        let name = match Row::document(table).value("name") {
            Some(Value::String(name)) => Some(name.as_str()),
            _ => None,
        };
        Ok(Row {
            table,
            outer: self.heading,
            heading: Some(Heading {
                array,
                number: index.saturating_add(1),
                name,
            }),
        })
    }

    /// Refuses another key than these.
    pub(crate) fn only(self, keys: &[&str]) -> Result<(), Stop<'t>> {
        for key in self.table.keys() {
            if !(&*keys).contains(&key.as_str()) {
                return Err(self.refuse(key.as_str(), KeyFault::Unknown));
            }
        }
        Ok(())
    }

    /// Refuses a key that the others of this row rule out.
    pub(crate) fn without(self, key: &'t str) -> Result<(), Stop<'t>> {
        if self.has(key) {
            return Err(self.refuse(key, KeyFault::Unknown));
        }
        Ok(())
    }

    /// Whether a key is there.
    pub(crate) fn has(self, key: &str) -> bool {
        self.value(key).is_some()
    }

    /// A number within a range, if there is one.
    pub(crate) fn number<N: TryFrom<i64> + Drop>(
        self,
        key: &'t str,
        range: Range,
    ) -> Result<Option<N>, Stop<'t>>
    where
        N::Error: Drop,
    {
        let number = match self.value(key) {
            Some(Value::Integer(number)) => *number,
            Some(_) => return Err(self.refuse(key, KeyFault::OtherType)),
            None => return Ok(None),
        };
        let Range { least, greatest } = range;
        match N::try_from(number) {
            Ok(found) if least <= number && number <= greatest => Ok(Some(found)),
            _ => Err(self.refuse(key, KeyFault::OutOfRange { least, greatest })),
        }
    }

    /// A number within a range.
    pub(crate) fn some_number<N: TryFrom<i64> + Drop>(
        self,
        key: &'t str,
        range: Range,
    ) -> Result<N, Stop<'t>>
    where
        N::Error: Drop,
    {
        match self.number(key, range)? {
            Some(number) => Ok(number),
            None => Err(self.refuse(key, KeyFault::Missing)),
        }
    }

    /// A text, if there is one.
    pub(crate) fn text(self, key: &'t str) -> Result<Option<&'t str>, Stop<'t>> {
        match self.value(key) {
            Some(Value::String(text)) => Ok(Some(text.as_str())),
            Some(_) => Err(self.refuse(key, KeyFault::OtherType)),
            None => Ok(None),
        }
    }

    /// A text.
    pub(crate) fn some_text(self, key: &'t str) -> Result<&'t str, Stop<'t>> {
        match self.text(key)? {
            Some(text) => Ok(text),
            None => Err(self.refuse(key, KeyFault::Missing)),
        }
    }

    /// The name of a station.
    pub(crate) fn name(self, key: &'t str) -> Result<&'t str, Stop<'t>> {
        let text = self.some_text(key)?;
        if !is_name(text.as_bytes()) {
            return Err(self.refuse(key, KeyFault::NoName));
        }
        Ok(text)
    }

    /// A BACnet/IP address.
    pub(crate) fn address(self, key: &'t str) -> Result<Address, Stop<'t>> {
        match address_of(self.some_text(key)?) {
            Some(address) => Ok(address),
            None => Err(self.refuse(key, KeyFault::NoAddress)),
        }
    }

    /// A flag, if there is one.
    pub(crate) fn flag(self, key: &'t str) -> Result<Option<bool>, Stop<'t>> {
        match self.value(key) {
            Some(Value::Boolean(flag)) => Ok(Some(*flag)),
            Some(_) => Err(self.refuse(key, KeyFault::OtherType)),
            None => Ok(None),
        }
    }

    /// What is wrong with a key of the row.
    pub(crate) fn refuse(self, key: &'t str, fault: KeyFault) -> Stop<'t> {
        Stop::Key(Found {
            outer: self.outer,
            heading: self.heading,
            key,
            fault,
        })
    }
}

impl<'t> Found<'t> {
    /// The key with its row in words, in memory of an allocator.
    ///
    /// # Errors
    /// Want of memory.
    pub(crate) fn kept<A: Allocator + Copy>(self, alloc: A) -> Result<BadKey<A>, AllocError> {
        let row = match (self.outer, self.heading) {
            (Some(outer), Some(heading)) => format!(in alloc; "{outer}, {heading}")?,
            (None, Some(heading)) => format!(in alloc; "{heading}")?,
            (_, None) => String::from_str(alloc, "document")?,
        };
        Ok(BadKey {
            row,
            key: String::from_str(alloc, self.key)?,
            fault: self.fault,
        })
    }
}

/// Octets of a text, in memory of an allocator.
///
/// # Errors
/// Want of memory.
pub(crate) fn octets<A: Allocator + Copy>(alloc: A, text: &str) -> Result<Octets<A>, AllocError> {
    Items::from_slice(alloc, text.as_bytes())
}
