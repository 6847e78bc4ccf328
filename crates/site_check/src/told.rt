//! What is told of scripts, and of texts without a fault, each on a line of its own.

use std::io::Write;
use std::{fmt, io};
use thiserror::Error;
use words::Unread;

/// What is told of a script, or of both texts.
#[derive(Clone, Copy, Debug, Error)]
pub(crate) enum Told<'a> {
    /// The first line that asks for nothing that a script may ask for.
    #[error("line {number}: {unread}")]
    BadLine { number: usize, unread: Unread },
    /// A line names a station that the site lacks.
    #[error("line {number}: no station {name}")]
    NoStation { number: usize, name: &'a str },
    /// A line names a network that the site lacks.
    #[error("line {number}: no network {network}")]
    NoNetwork { number: usize, network: u16 },
    /// Both texts have no fault.
    #[error("site: {networks}, {stations}")]
    Sound { networks: Count, stations: Count },
}

/// So many of a kind: `1 network`, `3 networks`.
#[derive(Clone, Copy, Debug)]
pub(crate) struct Count {
    pub(crate) number: usize,
    pub(crate) kind: &'static str,
}

impl fmt::Display for Count {
    fn fmt<W: fmt::Write>(&self, f: &mut fmt::Formatter<W>) -> fmt::Result {
        let end = if self.number == 1 { "" } else { "s" };
        write!(f, "{} {}{end}", self.number, self.kind)
    }
}

/// Prints on a line what is told.
pub(crate) fn tell<W: Write>(told: Told<'_>, out: &mut W) -> io::Result<()> {
    writeln!(out, "{told}")
}
