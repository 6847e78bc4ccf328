//! Whom a row's client asks, and long words.
//!
//! - `1476 to 480`: a client that takes answers in segments, in APDUs of up to 1476 octets, and a device that takes
//!   up to 480; `whole 1476 to 480` one that takes no segments.
//! - `many 5:1 {85,*799}85`: what stands in braces stands as often as the number behind its last `*` says.

ghost use Rattle.std.specs.Prelude.{◌<◌, IfOk};
ghost use Rattle.apdu.specs.Sizes.{apdu_code};

use apdu::MaxApdu;
use npdu::{Mac, Station, Way};
use sheets::{Part, Stop, number};
use std::alloc::{Allocator, Global};
use transactions::{Bound, ClientTsm};
use words::parse_number;

/// The device that is asked: MAC 5 of network 2, behind a router.
const DEVICE: Station = Station {
    net: 2,
    mac: Mac::One(5),
};

/// Another station: MAC 5 of network 3.
pub(crate) const OTHER: Station = Station {
    net: 3,
    mac: Mac::One(5),
};

/// The device that is asked, which takes APDUs of up to this many octets.
fn device(max_apdu: u16) -> Bound {
    Bound {
        station: DEVICE,
        way: Way {
            to: Mac::Six([192, 168, 1, 10, 0xBA, 0xC0]),
            destination: Some(DEVICE),
        },
        max_apdu,
    }
}

/// A client in memory of an allocator, and the device that it asks.
///
/// # Errors
/// `Unread` where the words are none of these.
pub(crate) fn client_and_device<A: Allocator + Copy>(
    memory: A,
    words: &str,
) -> Result<(ClientTsm<A>, Bound), Stop> {
    let (words, segmented) = match words.strip_prefix("whole ") {
        Some(rest) => (rest, false),
        None => (words, true),
    };
    let Some((own, to)) = words.split_once(" to ") else {
        return Err(Stop::Unread(Part::Asked));
    };
    let to = device(parse_number(to)?);
    let own = max_apdu_of(own)?;
    Ok((ClientTsm::new(memory, segmented, own), to))
}

/// How many octets an APDU to a client may have.
fn max_apdu_of(word: &str) -> Result<MaxApdu, Stop>
    ensures { IfOk result (λ size. apdu_code size < 16) }
{
    match word {
        "50" => Ok(MaxApdu::UpTo50),
        "480" => Ok(MaxApdu::UpTo480),
        "1476" => Ok(MaxApdu::UpTo1476),
        _ => Err(Stop::Unread(Part::Asked)),
    }
}

/// Words with what stands in braces as often as its number says.
///
/// # Errors
/// `Unread` where the number is none, `Memory`.
pub(crate) fn unfolded(alloc: Global, words: &str) -> Result<String, Stop> {
    let Some((before, rest)) = words.split_once('{') else {
        return Ok(String::from_str(alloc, words)?);
    };
    let Some((folded, after)) = rest.split_once('}') else {
        return Err(Stop::Unread(Part::Asked));
    };
    let mut out = String::from_str(alloc, before)?;
    push_often(folded, &mut out)?;
    out.push_str(after)?;
    Ok(out)
}

/// Appends a text as often as the number behind its last `*` says.
fn push_often(folded: &str, out: &mut String) -> Result<(), Stop> {
    let Some((text, count)) = folded.rsplit_once('*') else {
        return Err(Stop::Unread(Part::Asked));
    };
    for _ in 0..number(count)? {
        out.push_str(text)?;
    }
    Ok(())
}
