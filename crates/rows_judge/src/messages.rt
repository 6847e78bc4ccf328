//! What was said and what was put out, in words.
//!
//! A station is the number of its network and its address, as `1:7F000001BAC2` and `2:05`. What was said is `STATION
//! to STATION APDU STAMP`, where it may be for `all` or for a network, as `net 2`; what was put out is `datagram
//! NETWORK FROM TO OCTETS STAMP` or `frame NETWORK OCTETS STAMP`.

use judge::{Destination, Message, Sent, judge_carry};
use npdu::{Mac, Station};
use sheets::{Part, Stop, number, octets, two_words};
use std::alloc::Global;
use tags::Octets;

/// What parts two of a list.
const MARK: &str = " | ";

/// What was said, in memory of its own.
#[derive(Drop)]
struct Said {
    source: Station,
    destination: Destination,
    apdu: Octets<Global>,
    stamp: u64,
}

/// What was put out, in memory of its own: without ends it is a frame.
#[derive(Drop)]
struct PutOut {
    network: u16,
    ends: Option<(Mac, Mac)>,
    octets: Octets<Global>,
    stamp: u64,
}

/// What the judge says of what was said and put out, in words.
///
/// # Errors
/// `Unread` for other words; want of memory.
pub(crate) fn carried(alloc: Global, words: &str) -> Result<String, Stop> {
    let Some((said, sent)) = words.split_once(" || ") else {
        return Err(Stop::Unread(Part::Asked));
    };
    let said = all_said(alloc, said)?;
    let sent = all_put_out(alloc, sent)?;
    let messages = messages(alloc, said.as_slice())?;
    let sent = all_sent(alloc, sent.as_slice())?;
    match judge_carry(messages.as_slice(), sent.as_slice()) {
        Ok(inside) => Ok(format!(in alloc; "{inside} inside")?),
        Err(unsaid) => Ok(format!(in alloc; "{unsaid}")?),
    }
}

/// All that was said, `-` where nothing was.
fn all_said(alloc: Global, words: &str) -> Result<Vec<Said>, Stop> {
    let mut all = Vec::new(alloc);
    if words == "-" {
        return Ok(all);
    }
    for words in words.split(MARK) {
        all.push(said_in(alloc, words)?)?;
    }
    Ok(all)
}

/// What words say was said.
fn said_in(alloc: Global, words: &str) -> Result<Said, Stop> {
    let Some((source, rest)) = words.split_once(" to ") else {
        return Err(Stop::Unread(Part::Asked));
    };
    let Some((rest, stamp)) = rest.rsplit_once(' ') else {
        return Err(Stop::Unread(Part::Asked));
    };
    let Some((destination, apdu)) = rest.rsplit_once(' ') else {
        return Err(Stop::Unread(Part::Asked));
    };
    Ok(Said {
        source: station_in(alloc, source)?,
        destination: destination_in(alloc, destination)?,
        apdu: octets(alloc, apdu)?,
        stamp: u64::from(number(stamp)?),
    })
}

/// The destination that words say.
fn destination_in(alloc: Global, words: &str) -> Result<Destination, Stop> {
    if words == "all" {
        return Ok(Destination::All);
    }
    match words.strip_prefix("net ") {
        Some(network) => Ok(Destination::Network(network_in(network)?)),
        None => Ok(Destination::Station(station_in(alloc, words)?)),
    }
}

/// The station that a word says.
fn station_in(alloc: Global, word: &str) -> Result<Station, Stop> {
    let Some((network, address)) = word.split_once(':') else {
        return Err(Stop::Unread(Part::Asked));
    };
    Ok(Station {
        net: network_in(network)?,
        mac: mac_in(alloc, address)?,
    })
}

/// The number of a network.
fn network_in(word: &str) -> Result<u16, Stop> {
    match u16::try_from(number(word)?) {
        Ok(network) => Ok(network),
        Err(_) => Err(Stop::Unread(Part::Number)),
    }
}

/// The address that a word says.
fn mac_in(alloc: Global, word: &str) -> Result<Mac, Stop> {
    match Mac::from_octets(octets(alloc, word)?.as_slice()) {
        Some(mac) => Ok(mac),
        None => Err(Stop::Unread(Part::Octets)),
    }
}

/// All that was put out.
fn all_put_out(alloc: Global, words: &str) -> Result<Vec<PutOut>, Stop> {
    let mut all = Vec::new(alloc);
    for words in words.split(MARK) {
        all.push(put_out_in(alloc, words)?)?;
    }
    Ok(all)
}

/// What words say was put out.
fn put_out_in(alloc: Global, words: &str) -> Result<PutOut, Stop> {
    let (kind, rest) = two_words(words);
    let (network, rest) = two_words(rest);
    let (ends, rest) = match kind {
        "datagram" => {
            let (from, rest) = two_words(rest);
            let (to, rest) = two_words(rest);
            (Some((mac_in(alloc, from)?, mac_in(alloc, to)?)), rest)
        }
        "frame" => (None, rest),
        _ => return Err(Stop::Unread(Part::Asked)),
    };
    let (sent, stamp) = two_words(rest);
    Ok(PutOut {
        network: network_in(network)?,
        ends,
        octets: octets(alloc, sent)?,
        stamp: u64::from(number(stamp)?),
    })
}

/// What was said, as the judge takes it.
fn messages(alloc: Global, said: &[Said]) -> Result<Vec<Message<'_>>, Stop> {
    let mut all = Vec::new(alloc);
    for one in said {
        all.push(Message {
            source: one.source,
            destination: one.destination,
            apdu: one.apdu.as_slice(),
            stamp: one.stamp,
        })?;
    }
    Ok(all)
}

/// What was put out, as the judge takes it.
fn all_sent(alloc: Global, sent: &[PutOut]) -> Result<Vec<Sent<'_>>, Stop> {
    let mut all = Vec::new(alloc);
    for one in sent {
        all.push(sent_of(one))?;
    }
    Ok(all)
}

/// What was put out, as the judge takes it.
fn sent_of(one: &PutOut) -> Sent<'_> {
    match one.ends {
        Some((from, to)) => Sent::Datagram {
            network: one.network,
            from,
            to,
            octets: one.octets.as_slice(),
            stamp: one.stamp,
        },
        None => Sent::Frame {
            network: one.network,
            octets: one.octets.as_slice(),
            stamp: one.stamp,
        },
    }
}
