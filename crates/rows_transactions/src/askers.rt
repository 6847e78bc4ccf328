//! Who asks, in words: `1:C0A8010ABAC0/7` is the invoke ID 7 of the station with these octets of address on
//! network 1, and `1:05/0..63` are 64 of another's.

use npdu::{Mac, Station};
use remembered::Asker;
use sheets::{Part, Stop, first_and_last, octets, push_octets};
use std::alloc::{AllocError, Global};
use words::parse_number;

/// A station, and its invoke IDs from the first to the last.
#[derive(Clone, Copy)]
pub(crate) struct Askers {
    pub(crate) station: Station,
    pub(crate) first: u8,
    pub(crate) last: u8,
}

impl Askers {
    /// The asker of this invoke ID.
    pub(crate) fn with(self, invoke_id: u8) -> Asker {
        Asker {
            station: self.station,
            invoke_id,
        }
    }
}

/// Askers.
///
/// # Errors
/// `Unread` where the word is none of askers, `Memory`.
pub(crate) fn read_askers(alloc: Global, word: &str) -> Result<Askers, Stop> {
    let Some((station, numbers)) = word.split_once('/') else {
        return Err(Stop::Unread(Part::Asked));
    };
    let station = read_station(alloc, station)?;
    let (first, last) = first_and_last(numbers)?;
    Ok(Askers {
        station,
        first,
        last,
    })
}

/// A station: the number of its network, and the octets of its address there.
fn read_station(alloc: Global, word: &str) -> Result<Station, Stop> {
    let Some((net, mac)) = word.split_once(':') else {
        return Err(Stop::Unread(Part::Asked));
    };
    let net: u16 = parse_number(net)?;
    Ok(Station {
        net,
        mac: read_mac(alloc, mac)?,
    })
}

/// An address on a network.
///
/// # Errors
/// `Unread` where these are neither one octet nor six, `Memory`.
pub(crate) fn read_mac(alloc: Global, word: &str) -> Result<Mac, Stop> {
    let octets = octets(alloc, word)?;
    match Mac::from_octets(octets.as_slice()) {
        Some(mac) => Ok(mac),
        None => Err(Stop::Unread(Part::Octets)),
    }
}

/// Appends an asker in words.
///
/// # Errors
/// Want of memory.
pub(crate) fn push_asker(asker: Asker, out: &mut String) -> Result<(), AllocError> {
    write!(out, "{}:", asker.station.net)?;
    push_octets(asker.station.mac.as_octets(), out)?;
    write!(out, "/{}", asker.invoke_id)
}
