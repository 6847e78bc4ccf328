//! Link addresses and parcels of the network layer: `mac 05 -> 05`, `mac 0506 -> none`,
//! `parcel 7F000001BAC0 05 01001008 13000` and its copy; and what a router says that it didn't pass on, written again:
//! `rejected 010002 -> NoRoute 2`.

use npdu::{Mac, Parcel, Rejected, Target};
use sheets::{
    Counts, Given, Part, Stop, Trial, buffer, differs, octets, push_octets, run_octets, try_row,
    with_written,
};
use std::alloc::Global;
use tags::Fault;
use words::parse_number;

/// Octets that are an address, or none.
struct Addresses;

impl<'a> Trial<'a> for Addresses {
    fn answer(&self, given: Given<'a>, octets: &[u8]) -> Result<String, Stop> {
        let mut text = String::new(given.alloc);
        match Mac::from_octets(octets) {
            Some(mac) => push_octets(mac.as_octets(), &mut text)?,
            None => text.push_str("none")?,
        }
        Ok(text)
    }
}

/// Octets that are the contents of a Reject-Message-To-Network, and that are written of them.
struct Refusals;

impl<'a> Trial<'a> for Refusals {
    fn answer(&self, given: Given<'a>, octets: &[u8]) -> Result<String, Stop> {
        let Some(rejected) = Rejected::read(octets) else {
            return Ok(String::from_str(given.alloc, "none")?);
        };
        let text = format!(in given.alloc; "{:?} {}", rejected.reason, rejected.net)?;
        let mut out = buffer(given)?;
        let came = rejected.write(&mut out).map_err(Fault::from);
        with_written(given, octets, came, out.as_slice(), text)
    }
}

/// A parcel that is copied.
#[derive(Clone, Copy)]
struct Copies<'w> {
    from: Mac,
    to: Target,
    npdu: &'w str,
    stamp: u64,
}

impl<'w, 'a> Trial<'a> for Copies<'w> {
    fn answer(&self, given: Given<'a>, _octets: &[u8]) -> Result<String, Stop> {
        let parcel = Parcel {
            from: self.from,
            to: self.to,
            npdu: octets(given.other, self.npdu)?,
            stamp: self.stamp,
        };
        given.other.refuse_all();
        let copy = parcel.copy(given.memory);
        given.other.refuse_only(0);
        let copy = copy?;
        if copy != parcel {
            return Err(differs(given.alloc, "another parcel"));
        }
        shown(given.alloc, &copy)
    }
}

/// A parcel in words.
fn shown(alloc: Global, parcel: &Parcel<sheets::Memory<'_>>) -> Result<String, Stop> {
    let mut text = String::from_str(alloc, "from ")?;
    push_octets(parcel.from.as_octets(), &mut text)?;
    text.push_str(" to ")?;
    match parcel.to {
        Target::One(mac) => push_octets(mac.as_octets(), &mut text)?,
        Target::All => text.push_str("all")?,
    }
    text.push_str(" npdu ")?;
    push_octets(parcel.npdu.as_slice(), &mut text)?;
    write!(text, " stamp {}", parcel.stamp)?;
    Ok(text)
}

/// The address whose octets a word says.
fn mac(alloc: Global, word: &str) -> Result<Mac, Stop> {
    match Mac::from_octets(octets(alloc, word)?.as_slice()) {
        Some(mac) => Ok(mac),
        None => Err(Stop::Unread(Part::Asked)),
    }
}

/// Runs a row of a parcel, behind its verb.
fn run_parcel(given: Given<'_>, rest: &str, wanted: &str) -> Result<Counts, Stop> {
    let words: Vec<&str> = rest.split(' ').collect(given.alloc)?;
    let [from, to, npdu, stamp] = words.as_slice() else {
        return Err(Stop::Unread(Part::Asked));
    };
    let to = match *to {
        "all" => Target::All,
        word => Target::One(mac(given.alloc, word)?),
    };
    let copies = Copies {
        from: mac(given.alloc, from)?,
        to,
        npdu,
        stamp: parse_number(stamp)?,
    };
    try_row(given, &copies, &[], wanted)
}

/// Runs a row.
pub(crate) fn run(given: Given<'_>, asked: &str, wanted: &str) -> Result<Counts, Stop> {
    match asked.split_once(' ') {
        Some(("mac", word)) => run_octets(given, &Addresses, word, wanted),
        Some(("rejected", word)) => run_octets(given, &Refusals, word, wanted),
        Some(("parcel", rest)) => run_parcel(given, rest, wanted),
        _ => Err(Stop::Unread(Part::Asked)),
    }
}
