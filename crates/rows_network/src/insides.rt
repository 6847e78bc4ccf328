//! What is inside a message: `1 47810 > all 0120FFFF00FF1008 -> 1:47810 all 1008`, of octets that go on network 1 from
//! the address 47810 to all stations. Told is who says it, whom it is for and the octets of its APDU: `2:47811` is one
//! station, `net 2` all of a network, `all` all of all; `none` where there is nothing inside.
//!
//! The call takes no memory: it is made where each allocation is refused, with each prefix of the octets and with each
//! octet changed too.

use crate::addresses::{from_and_to, push_station};
use inside::{Reach, inside_of};
use npdu::{Mac, Parcel, Target};
use sheets::{Counts, Given, Memory, Stop, Trial, push_octets, run_octets, two_words};
use std::alloc::AllocError;
use tags::Items;
use words::parse_number;

/// On which network, from whom and to whom octets go.
#[derive(Drop)]
struct Insides {
    net: u16,
    from: Mac,
    to: Target,
}

/// Appends whom a message is for.
fn push_reach(reach: Reach, out: &mut String) -> Result<(), AllocError> {
    match reach {
        Reach::One(station) => push_station(station, out),
        Reach::Network(net) => write!(out, "net {net}"),
        Reach::All => out.push_str("all"),
    }
}

/// What is inside a parcel, in words.
fn inside_in_words<'a>(
    given: Given<'a>,
    net: u16,
    parcel: &Parcel<Memory<'a>>,
) -> Result<String, Stop> {
    given.other.refuse_all();
    let inside = inside_of(net, parcel);
    given.other.refuse_only(0);
    let mut out = String::new(given.alloc);
    match inside {
        None => out.push_str("none")?,
        Some(view) => {
            push_station(view.source, &mut out)?;
            out.push(' ')?;
            push_reach(view.reach, &mut out)?;
            out.push(' ')?;
            push_octets(view.apdu, &mut out)?;
        }
    }
    Ok(out)
}

impl<'a> Trial<'a> for Insides {
    fn answer(&self, given: Given<'a>, octets: &[u8]) -> Result<String, Stop> {
        let parcel = Parcel {
            from: self.from,
            to: self.to,
            npdu: Items::from_slice(given.other, octets)?,
            stamp: 0,
        };
        inside_in_words(given, self.net, &parcel)
    }
}

/// Runs a row.
pub(crate) fn run(given: Given<'_>, asked: &str, wanted: &str) -> Result<Counts, Stop> {
    let (net, rest) = two_words(asked);
    let (from, to, octets) = from_and_to(rest)?;
    let insides = Insides {
        net: parse_number(net)?,
        from,
        to,
    };
    run_octets(given, &insides, octets, wanted)
}
