//! Why a text has no parts of a site.

use std::alloc::Allocator;
use std::fmt;
use thiserror::Error;

/// What is wrong with a key of a row.
#[derive(Clone, Copy, Debug, PartialEq, Eq, Error)]
pub enum KeyFault {
    /// No row of this kind has it, or none that has the other keys of this row.
    #[error("is unknown here")]
    Unknown,
    /// A row of this kind has it.
    #[error("is missing")]
    Missing,
    /// A value of another type stands there.
    #[error("is of another type")]
    OtherType,
    /// A number stands there that is not within this range.
    #[error("is not {least} to {greatest}")]
    OutOfRange { least: i64, greatest: i64 },
    /// No BACnet/IP address stands there, as `127.0.0.1:47808`.
    #[error("is no address")]
    NoAddress,
    /// No name of a station stands there: 1 to 32 letters and digits.
    #[error("is no name")]
    NoName,
    /// A word stands there that is none of those that may.
    #[error("is no kind that there is")]
    NoKind,
}

/// A key of a document that says no part of a site.
#[derive(Drop)]
#[derive_where(Debug)]
pub struct BadKey<A: Allocator> {
    /// The row in words, as `device 2 (d)` or `device 2 (d), object 1 (B1)`: the array that it stands in, its number
    /// there, the first one being 1, and its name in brackets, if it says one; `document` for the document itself.
    pub row: String<A>,
    /// The key.
    pub key: String<A>,
    /// What is wrong with it.
    pub fault: KeyFault,
}

impl<A: Allocator> fmt::Display for BadKey<A> {
    fn fmt<W: fmt::Write>(&self, f: &mut fmt::Formatter<W>) -> fmt::Result {
        write!(
            f,
            "{}: {} {}",
            self.row.as_str(),
            self.key.as_str(),
            self.fault
        )
    }
}

/// Why a text has no parts of a site.
#[derive(Drop)]
#[derive_where(Debug)]
pub enum NoParts<A: Allocator> {
    /// Want of memory.
    Memory,
    /// The text is no TOML document, for this cause.
    Document(toml::de::Error),
    /// The text is a TOML document with such a key.
    Key(BadKey<A>),
}
