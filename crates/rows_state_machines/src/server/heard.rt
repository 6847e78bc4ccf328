//! What comes of an input. `MOMENT from ADDRESS APDU` is an APDU that a station of network 1 says, `ADDRESS/LINK` one
//! that another link address hands on; `MOMENT broadcast ..` came by a broadcast; `MOMENT wake`; `MOMENT restart`;
//! `MOMENT each PLACE FIRST..LAST from ..` are APDUs with these numbers at that place of their octets, of which it is
//! told how many were executed, and what came of the last. Besides `read REQUEST`, `moment`, `copy`, which goes on with
//! the copy. Each allocation of an input is refused in turn: the same input then comes again. Behind each wake there is
//! one more at the same moment, at which nothing may be due.

use crate::server::opened::{Served, executor};
use crate::server::told::push_told;
use apdu::Apdu;
use npdu::{Mac, Station, Way};
use primitives::Request;
use profile::MAX_MOMENT_MS;
use services::Executor;
use sheets::{
    Counts, Given, Part, Stop, differs, first_and_last, number, octets, request_in, run_number,
    run_refused, run_text, run_word, small, two_words,
};
use std::alloc::{Allocator, Global};
use transactions::{Origin, ServerTold};
use words::Words;

/// How many runs have an allocation refused at most.
const MANY: u64 = 1000;

/// An APDU that a station says.
#[derive(Drop)]
struct Saying {
    origin: Origin,
    octets: Vec<u8>,
}

/// What a server hears, that it wakes, or that a copy takes its place.
#[derive(Drop)]
enum Input {
    Says(Saying),
    Wakes,
    IsCopied,
}

/// An address of a station or a link.
fn mac(alloc: Global, word: &str) -> Result<Mac, Stop> {
    match Mac::from_octets(octets(alloc, word)?.as_slice()) {
        Some(mac) => Ok(mac),
        None => Err(Stop::Unread(Part::Octets)),
    }
}

/// Where an APDU comes from: the address of the station, and behind `/` that of the link.
fn origin(alloc: Global, address: &str, by_broadcast: bool) -> Result<Origin, Stop> {
    let (station, link) = match address.split_once('/') {
        Some(both) => both,
        None => (address, address),
    };
    let station = mac(alloc, station)?;
    let link = mac(alloc, link)?;
    Ok(Origin {
        station: Station {
            net: 1,
            mac: station,
        },
        way: Way {
            to: link,
            destination: None,
        },
        by_broadcast,
    })
}

/// An APDU that a station says.
fn read_saying(alloc: Global, words: &str) -> Result<Saying, Stop> {
    let (verb, rest) = two_words(words);
    let by_broadcast = match verb {
        "from" => false,
        "broadcast" => true,
        _ => return Err(Stop::Unread(Part::Asked)),
    };
    let (address, apdu) = two_words(rest);
    let origin = origin(alloc, address, by_broadcast)?;
    Ok(Saying {
        origin,
        octets: octets(alloc, apdu)?.into_vec(),
    })
}

/// What stands behind the moment of an input.
fn read_input(alloc: Global, words: &str) -> Result<Input, Stop> {
    match two_words(words) {
        ("wake", _) => Ok(Input::Wakes),
        _ => Ok(Input::Says(read_saying(alloc, words)?)),
    }
}

/// What comes of an APDU, or where there is none of it that the server wakes.
fn take<A: Allocator + Copy>(
    server: &mut Served<A>,
    now: u64,
    said: Option<&Saying>,
) -> Result<ServerTold<A>, Stop> {
    if now > MAX_MOMENT_MS || now < server.moment() {
        return Err(Stop::Unread(Part::Number));
    }
    let Some(saying) = said else {
        return Ok(server.on_tick(now)?);
    };
    let apdu = Apdu::read(saying.octets.as_slice())?;
    Ok(server.on_apdu(&saying.origin, &apdu, now)?)
}

/// Wakes once more at the moment of a wake, when nothing is due any more.
fn wake_again<A: Allocator + Copy>(
    alloc: Global,
    server: &mut Served<A>,
    now: u64,
) -> Result<(), Stop> {
    if now < server.moment() || !server.is_quiet(now) {
        return Err(differs(alloc, "something is still due"));
    }
    server.wake_quietly(now);
    Ok(())
}

/// Appends what comes of an APDU, or of it that the server wakes, and answers whether a request was executed.
fn push_taken<A: Allocator + Copy>(
    server: &mut Served<A>,
    now: u64,
    said: Option<&Saying>,
    out: &mut String,
) -> Result<bool, Stop> {
    let told = take(server, now, said)?;
    if said.is_none() {
        wake_again(*out.allocator(), server, now)?;
    }
    push_told(&told, out)?;
    Ok(told.executed.is_some())
}

/// Puts an equal server in the server's place, and appends that.
fn push_copied<A: Allocator + Copy>(
    server: &mut Served<A>,
    out: &mut String,
) -> Result<bool, Stop> {
    *server = server.copy()?;
    out.push_str("copied")?;
    Ok(false)
}

/// What comes of an input, in words.
fn tell<A: Allocator + Copy>(
    alloc: Global,
    server: &mut Served<A>,
    now: u64,
    input: &Input,
) -> Result<String, Stop> {
    let mut out = String::new(alloc);
    match input {
        Input::Says(saying) => push_taken(server, now, Some(saying), &mut out)?,
        Input::Wakes => push_taken(server, now, None, &mut out)?,
        Input::IsCopied => push_copied(server, &mut out)?,
    };
    Ok(out)
}

/// Runs an input with each allocation refused in turn, until a run meets no refusal.
fn try_input<A: Allocator + Copy>(
    given: Given<'_>,
    server: &mut Served<A>,
    now: u64,
    input: &Input,
    wanted: &str,
) -> Result<Counts, Stop> {
    for refused in 0..MANY {
        given.memory.refuse_only(refused.saturating_add(1));
        let came = tell(given.alloc, server, now, input);
        let is_waiting = given.memory.is_waiting();
        given.memory.refuse_only(0);
        match came {
            Err(Stop::Memory) if !is_waiting => {}
            Ok(found) if is_waiting => return run_refused(found, refused, wanted),
            Err(Stop::Differs(found)) => return Err(Stop::Differs(found)),
            Err(Stop::Unread(part)) => return Err(Stop::Unread(part)),
            _ => return Err(differs(given.alloc, "want of memory for another cause")),
        }
    }
    Err(differs(
        given.alloc,
        "an input that is refused memory again and again",
    ))
}

/// Hears an APDU with each of these numbers at a place of its octets, and tells how many were executed and what came
/// of the last.
fn tell_each<A: Allocator + Copy>(
    server: &mut Served<A>,
    now: u64,
    saying: &mut Saying,
    place: usize,
    numbers: (u8, u8),
    told: &mut String,
) -> Result<u32, Stop> {
    let mut executed = 0u32;
    for number in numbers.0..=numbers.1 {
        if place < saying.octets.len() {
            saying.octets[place] = number;
        }
        told.clear();
        let is_executed = push_taken(server, now, Some(saying), told)?;
        executed = executed.saturating_add(u32::from(is_executed));
    }
    Ok(executed)
}

/// Runs an input for each number, and tells how many were executed and what came of the last.
fn run_each<A: Allocator + Copy>(
    given: Given<'_>,
    server: &mut Served<A>,
    now: u64,
    words: &str,
    wanted: &str,
) -> Result<Counts, Stop> {
    let (place, rest) = two_words(words);
    let (range, rest) = two_words(rest);
    let place = small(place)? as usize;
    let numbers = first_and_last(range)?;
    let mut saying = read_saying(given.alloc, rest)?;
    let mut told = String::new(given.alloc);
    let executed = tell_each(server, now, &mut saying, place, numbers, &mut told)?;
    run_text(
        format!(in given.alloc; "{executed} executed, last {told}")?,
        wanted,
    )
}

/// Restarts the server, which takes no memory.
fn run_restart<A: Allocator + Copy>(
    given: Given<'_>,
    memory: A,
    server: &mut Served<A>,
    now: u64,
    wanted: &str,
) -> Result<Counts, Stop> {
    if now > MAX_MOMENT_MS || now < server.moment() {
        return Err(Stop::Unread(Part::Number));
    }
    let opening = executor(memory)?;
    given.memory.refuse_all();
    server.restart(opening, now);
    given.memory.refuse_only(0);
    run_word(given, "restarted", wanted)
}

/// What the objects reply to a request, in words.
fn replied<A: Allocator + Copy>(
    alloc: Global,
    server: &Served<A>,
    request: &Request<A>,
) -> Result<String, Stop> {
    let reply = server.executor().reply(request)?;
    Ok(format!(in alloc; "{}", Words(&reply))?)
}

/// Runs a row of what the objects reply to a request.
fn run_read<A: Allocator + Copy>(
    given: Given<'_>,
    memory: A,
    server: &Served<A>,
    request: &str,
    wanted: &str,
) -> Result<Counts, Stop> {
    let request = request_in(memory, request)?;
    run_text(replied(given.alloc, server, &request)?, wanted)
}

/// Runs a row of what happens to a server at this moment.
fn run_moment<A: Allocator + Copy>(
    given: Given<'_>,
    memory: A,
    server: &mut Served<A>,
    now: u64,
    words: &str,
    wanted: &str,
) -> Result<Counts, Stop> {
    match two_words(words) {
        ("restart", "") => run_restart(given, memory, server, now, wanted),
        ("each", rest) => run_each(given, server, now, rest, wanted),
        _ => try_input(given, server, now, &read_input(given.alloc, words)?, wanted),
    }
}

/// Runs a row.
pub(crate) fn run<A: Allocator + Copy>(
    given: Given<'_>,
    memory: A,
    server: &mut Served<A>,
    asked: &str,
    wanted: &str,
) -> Result<Counts, Stop> {
    let (first, rest) = two_words(asked);
    let now = server.moment();
    match first {
        "read" => run_read(given, memory, server, rest, wanted),
        "moment" => run_number(given, now, wanted),
        "copy" => try_input(given, server, now, &Input::IsCopied, wanted),
        _ => run_moment(
            given,
            memory,
            server,
            u64::from(number(first)?),
            rest,
            wanted,
        ),
    }
}
