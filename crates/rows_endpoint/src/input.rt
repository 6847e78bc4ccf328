//! What a station hears or does at a moment, in words, and what comes of it. `MOMENT one ADDRESS NPDU` is an NPDU that
//! was sent from this address to the station alone, `MOMENT all ADDRESS NPDU` one that was sent to all; `MOMENT wake`.
//! Of a client also `MOMENT issue INSTANCE REQUEST` and `MOMENT who-is`, or `MOMENT who-is LOW HIGH`. Each allocation
//! of an input is refused in turn: the same input then comes again.

use apdu::Limits;
use npdu::{Mac, Parcel, Target};
use primitives::Request;
use sheets::{
    Counts, Given, Part, Stop, differs, number, octets, request_in, run_refused, two_words,
};
use std::alloc::{AllocError, Allocator, Global};

/// How many runs have an allocation refused at most.
const MANY: u64 = 2000;

/// What a station hears, or does of itself.
#[derive(Drop)]
pub(crate) enum Input<A: Allocator> {
    Hears(Parcel<A>),
    Wakes,
    Issues(u32, Request<A>),
    AsksWho(Option<Limits>),
}

/// A station of the network that takes inputs: a device or a client.
pub(crate) trait TakesInputs<A: Allocator>: Drop + Sized {
    /// What comes of an input at the moment `now`, in words.
    ///
    /// # Errors
    /// Want of memory; `Unread` where such a station takes no such input, or not at that moment.
    fn take(&mut self, alloc: Global, now: u64, input: &Input<A>) -> Result<String, Stop>;

    /// An equal station.
    ///
    /// # Errors
    /// Want of memory.
    fn copied(&self) -> Result<Self, AllocError>;
}

/// An address of a station.
fn mac(alloc: Global, word: &str) -> Result<Mac, Stop> {
    match Mac::from_octets(octets(alloc, word)?.as_slice()) {
        Some(mac) => Ok(mac),
        None => Err(Stop::Unread(Part::Octets)),
    }
}

/// The parcel of an NPDU that stands behind the address from which it was sent.
fn parcel<A: Allocator + Copy>(
    alloc: Global,
    memory: A,
    to: Target,
    now: u64,
    words: &str,
) -> Result<Parcel<A>, Stop> {
    let (address, npdu) = two_words(words);
    Ok(Parcel {
        from: mac(alloc, address)?,
        to,
        npdu: octets(memory, npdu)?,
        stamp: now,
    })
}

/// The limits of a Who-Is, where it has some.
fn limits(words: &str) -> Result<Option<Limits>, Stop> {
    if words.is_empty() {
        return Ok(None);
    }
    let (low, high) = two_words(words);
    Ok(Some(Limits {
        low: number(low)?,
        high: number(high)?,
    }))
}

/// What stands behind the moment of an input to the station at this address.
///
/// # Errors
/// `Unread` where it is none, `Memory`.
pub(crate) fn read_input<A: Allocator + Copy>(
    alloc: Global,
    memory: A,
    own: Mac,
    now: u64,
    words: &str,
) -> Result<Input<A>, Stop> {
    let (verb, rest) = two_words(words);
    match verb {
        "wake" => Ok(Input::Wakes),
        "one" => Ok(Input::Hears(parcel(alloc, memory, Target::One(own), now, rest)?)),
        "all" => Ok(Input::Hears(parcel(alloc, memory, Target::All, now, rest)?)),
        "who-is" => Ok(Input::AsksWho(limits(rest)?)),
        "issue" => {
            let (instance, request) = two_words(rest);
            Ok(Input::Issues(number(instance)?, request_in(memory, request)?))
        }
        _ => Err(Stop::Unread(Part::Asked)),
    }
}

/// Runs an input of a station in the memory of `given` with each allocation refused in turn, until a run meets no
/// refusal.
///
/// # Errors
/// `Differs` where another thing comes of it than is wanted, or a refusal for another cause than want of memory.
pub(crate) fn try_input<A: Allocator, S: TakesInputs<A>>(
    given: Given<'_>,
    station: &mut S,
    now: u64,
    input: &Input<A>,
    wanted: &str,
) -> Result<Counts, Stop> {
    for refused in 0..MANY {
        given.memory.refuse_only(refused.saturating_add(1));
        let came = station.take(given.alloc, now, input);
        let is_waiting = given.memory.is_waiting();
        given.memory.refuse_only(0);
        match came {
            Err(Stop::Memory) if !is_waiting => {}
            Ok(found) if is_waiting => return run_refused(found, refused, wanted),
            Err(Stop::Differs(found)) => return Err(Stop::Differs(found)),
            Err(Stop::Unread(part)) => return Err(Stop::Unread(part)),
            _ => return Err(differs(given.alloc, "want of memory for another cause")),
        }
    }
    Err(differs(
        given.alloc,
        "an input that is refused memory again and again",
    ))
}

/// Goes on with a copy of a station in the memory of `given`, each allocation of which was refused in turn.
///
/// # Errors
/// `Differs` where it is refused for another cause than want of memory.
pub(crate) fn run_copy<A: Allocator, S: TakesInputs<A>>(
    given: Given<'_>,
    station: &mut S,
    wanted: &str,
) -> Result<Counts, Stop> {
    for refused in 0..MANY {
        given.memory.refuse_only(refused.saturating_add(1));
        let copy = station.copied();
        let is_waiting = given.memory.is_waiting();
        given.memory.refuse_only(0);
        match copy {
            Err(_) if !is_waiting => {}
            Ok(copy) if is_waiting => {
                *station = copy;
                let found = String::from_str(given.alloc, "copied")?;
                return run_refused(found, refused, wanted);
            }
            _ => return Err(differs(given.alloc, "want of memory for another cause")),
        }
    }
    Err(differs(given.alloc, "a copy that is refused memory again and again"))
}
