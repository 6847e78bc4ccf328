//! What is told, each on a line of its own.

use bvll::Address;
use std::io::Write;
use std::{fmt, io};
use thiserror::Error;

/// What is told of a site.
#[derive(Clone, Copy, Debug, Error)]
pub(crate) enum SiteNote<'a> {
    /// A station has an address that none can be reached at.
    #[error("{station} has the address {address}, {unfit}")]
    Address {
        station: &'a str,
        address: Shown,
        unfit: Unfit,
    },
}

/// Why no station is reached at an address.
#[derive(Clone, Copy, Debug, PartialEq, Eq, Error)]
pub(crate) enum Unfit {
    #[error("whose port is 0")]
    Port,
    #[error("which is the unspecified address")]
    Unspecified,
    #[error("which is a multicast address")]
    Multicast,
    #[error("which is the broadcast address")]
    Broadcast,
}

/// What is told of a line of a script.
#[derive(Clone, Copy, Debug, Error)]
pub(crate) enum LineNote<'a> {
    /// An instance that no device has.
    #[error("the site has no device with instance {0}")]
    NoDevice(u32),
    /// A station that is no client asks.
    #[error("{0} is not a client")]
    NoClient(&'a str),
    /// A time that may not pass at once.
    #[error("{0} ms: a step takes 1 to 60000 ms")]
    Milliseconds(u64),
    /// A station that is no device restarts.
    #[error("{0} is not a device, and does not restart")]
    NoRestart(&'a str),
    /// A station that isn't foreign registers.
    #[error("{0} is not foreign, and does not register")]
    NoRegister(&'a str),
    /// A station that is no device is expected to have objects.
    #[error("{0} is not a device, and has no properties")]
    NoValue(&'a str),
    /// A request to a device that nobody has asked for.
    #[error("no whois has asked for device {0} yet: the client may not know where it is")]
    Unasked(u32),
    /// A request over a bus at so many milliseconds.
    #[error("a request over MS/TP at {0} ms: the token starts to circulate after about 3000 ms")]
    NoToken(u64),
    /// A datagram that is to be damaged.
    #[error("on BACnet/IP datagrams come whole: damage is refused (13 NoSuch)")]
    Whole,
    /// A step that a live run doesn't have.
    #[error("bacsite run has no step {0}")]
    NotLive(&'static str),
}

/// An address in words, as `127.0.0.1:47808`.
#[derive(Clone, Copy, Debug)]
pub(crate) struct Shown(pub(crate) Address);

impl fmt::Display for Shown {
    fn fmt<W: fmt::Write>(&self, f: &mut fmt::Formatter<W>) -> fmt::Result {
        let Address {
            ip: [a, b, c, d],
            port,
        } = self.0;
        write!(f, "{a}.{b}.{c}.{d}:{port}")
    }
}

/// Prints on a line what is told of a site.
pub(crate) fn tell_site<W: Write>(note: SiteNote<'_>, out: &mut W) -> io::Result<()> {
    writeln!(out, "note: {note}")
}

/// Prints on a line what is told of a line.
pub(crate) fn tell_line<W: Write>(
    number: usize,
    note: LineNote<'_>,
    out: &mut W,
) -> io::Result<()> {
    writeln!(out, "note: line {number}: {note}")
}
