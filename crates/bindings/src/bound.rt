//! Where a device is, and what it takes (16.10).

use npdu::{Station, Way};

/// A device as a client knows it (16.10): where it is, and what it takes.
#[derive(Clone, Copy, Debug, PartialEq, Eq)]
pub struct Bound {
    /// Its network and its address there.
    pub station: Station,
    /// How a message goes to it.
    pub way: Way,
    /// How many octets an APDU to it has at most; fewer than 50 count as 50.
    pub max_apdu: u16,
}
