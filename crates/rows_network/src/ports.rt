//! What a port of BACnet/IP puts out and hands up: `47810 with 47808 47811 @5/3: down 47810 > all 0120 ->
//! 47808 @3 810B00060120, 47811 @3 810B00060120`, the port at 47810 with the other members 47808 and 47811 of its
//! subnet, at the moment 5, on a parcel that was said at 3. `47824 under 47808 for 60` is a foreign device that
//! registers at 47808 for 60 seconds.
//!
//! - `down 47810 > all OCTETS`: a parcel is handed down. `heard 47811 OCTETS`: a datagram comes from there.
//! - `tick`, `octets 7`, `register`, `restart`: it wakes; so many octets are heard; it registers; it restarts.
//! - `due`: whether anything is due.
//!
//! Told is what is handed up, `47811 > 47810 @3 OCTETS`, or what is put out, `-` for nothing, or the refusal. Each call
//! is made to a copy, with each allocation refused in turn; a datagram is heard with each prefix of its octets and with
//! each octet changed.

use crate::addresses::{from_and_to, mac, push_mac, push_target};
use bvll::Address;
use link::{Change, Link, PortSent, Up};
use link_ip::{IpPort, Reach};
use npdu::{Mac, Parcel, Target};
use profile::MAX_MOMENT_MS;
use sheets::{
    Counts, Given, Part, Stop, Trial, differs, octets, push_mark, push_octets, refusal, run_trial,
    try_row, two_words,
};
use std::alloc::{AllocError, Allocator, Global};
use tags::{Fault, Items, Octets};
use words::parse_number;

/// A call of a link.
#[derive(Clone, Copy)]
pub(crate) enum Call {
    Down { from: Mac, to: Target },
    Heard { from: Mac },
    Tick,
    Octets(usize),
    Register,
    Restart,
}

/// What a row asks for.
#[derive(Clone, Copy)]
pub(crate) enum Question {
    Made(Call),
    Due,
}

/// When a call is made, and when what it is about was said.
#[derive(Clone, Copy)]
pub(crate) struct At {
    pub(crate) now: u64,
    pub(crate) stamp: u64,
}

/// A port in words, and what it is asked.
#[derive(Drop)]
struct Asked<'r, A: Allocator + Copy> {
    memory: A,
    other: A,
    place: &'r str,
    at: At,
    question: Question,
}

impl<'r, 'a, A: Allocator + Copy> Trial<'a> for Asked<'r, A> {
    fn answer(&self, given: Given<'a>, octets: &[u8]) -> Result<String, Stop> {
        let made = port_of(given.alloc, self.memory, self.other, self.place)?;
        let mut port = made.copy()?;
        match self.question {
            Question::Due => Ok(format!(in given.alloc; "{}", port.is_due(self.at.now))?),
            Question::Made(call) => answer(
                given.alloc,
                self.other,
                &mut port,
                call,
                octets,
                self.at,
            ),
        }
    }
}

/// Runs a row.
pub(crate) fn run(given: Given<'_>, asked: &str, wanted: &str) -> Result<Counts, Stop> {
    run_within(given, given.memory, given.other, asked, wanted)
}

/// Runs a row on a port in the first memory, made of what lies in the second.
fn run_within<A: Allocator + Copy>(
    given: Given<'_>,
    memory: A,
    other: A,
    asked: &str,
    wanted: &str,
) -> Result<Counts, Stop> {
    let Some((place, step)) = asked.split_once(": ") else {
        return Err(Stop::Unread(Part::Asked));
    };
    let (place, at) = moments(place)?;
    let (question, digits) = question_of(step)?;
    let asked = Asked {
        memory,
        other,
        place,
        at,
        question,
    };
    let octets = octets(given.alloc, digits)?;
    match question {
        Question::Made(Call::Heard { .. }) => run_trial(given, &asked, octets.as_slice(), wanted),
        _ => try_row(given, &asked, octets.as_slice(), wanted),
    }
}

/// What stands before `@5/3`, and the two moments.
fn moments(words: &str) -> Result<(&str, At), Stop> {
    let Some((place, at)) = words.split_once(" @") else {
        return Err(Stop::Unread(Part::Asked));
    };
    Ok((place, at_of(at)?))
}

/// The two moments `5/3`; `5` is both.
pub(crate) fn at_of(words: &str) -> Result<At, Stop> {
    let (now, stamp) = match words.split_once('/') {
        Some(both) => both,
        None => (words, words),
    };
    Ok(At {
        now: parse_number(now)?,
        stamp: parse_number(stamp)?,
    })
}

/// What is asked, and the octets that it is about.
pub(crate) fn question_of(step: &str) -> Result<(Question, &str), Stop> {
    let (word, rest) = two_words(step);
    let call = match word {
        "down" => {
            let (from, to, digits) = from_and_to(rest)?;
            return Ok((Question::Made(Call::Down { from, to }), digits));
        }
        "heard" => {
            let (from, digits) = two_words(rest);
            let call = Call::Heard { from: mac(from)? };
            return Ok((Question::Made(call), digits));
        }
        "tick" => Call::Tick,
        "octets" => Call::Octets(parse_number(rest)?),
        "register" => Call::Register,
        "restart" => Call::Restart,
        "due" => return Ok((Question::Due, "-")),
        _ => return Err(Stop::Unread(Part::Asked)),
    };
    Ok((Question::Made(call), "-"))
}

/// An address of this host.
fn address(word: &str) -> Result<Address, Stop> {
    Ok(Address {
        ip: [127, 0, 0, 1],
        port: parse_number(word)?,
    })
}

/// The port that words name, on network 1.
fn port_of<A: Allocator + Copy>(
    alloc: Global,
    memory: A,
    other: A,
    words: &str,
) -> Result<IpPort<A>, Stop> {
    let (own, rest) = two_words(words);
    let (word, rest) = two_words(rest);
    let reach = match word {
        "with" => Reach::Members(members(alloc, other, rest)?),
        "under" => foreign(rest)?,
        _ => return Err(Stop::Unread(Part::Asked)),
    };
    Ok(IpPort::new(memory, 1, address(own)?, reach))
}

/// The addresses of members.
fn members<A: Allocator + Copy>(
    alloc: Global,
    other: A,
    words: &str,
) -> Result<Items<Address, A>, Stop> {
    let mut all = Vec::new(alloc);
    for word in words.split(' ') {
        if !word.is_empty() {
            all.push(address(word)?)?;
        }
    }
    Ok(Items::from_slice(other, all.as_slice())?)
}

/// A manager, and for how many seconds its foreign device registers.
fn foreign<A: Allocator>(words: &str) -> Result<Reach<A>, Stop> {
    let Some((manager, seconds)) = words.split_once(" for ") else {
        return Err(Stop::Unread(Part::Asked));
    };
    Ok(Reach::Foreign {
        manager: address(manager)?,
        seconds_to_live: parse_number(seconds)?,
    })
}

/// What comes of a call of a link, in words. The link is then at its moment, or after a refusal at the one before.
///
/// # Errors
/// `Memory` where the call says so.
pub(crate) fn answer<A: Allocator + Copy, L: Link<A> + Drop>(
    alloc: Global,
    other: A,
    link: &mut L,
    call: Call,
    octets: &[u8],
    at: At,
) -> Result<String, Stop> {
    let before = link.moment();
    let came = make(other, link, call, octets, at)?;
    let moment = link.moment();
    match came {
        Ok(came) if moment == at.now => told(alloc, &came),
        Err(Fault::Memory) => Err(Stop::Memory),
        Err(fault) if moment == before => refusal(alloc, fault),
        _ => Err(differs(alloc, "a link at another moment")),
    }
}

/// What comes of a call: what is handed up, if anything is, and what is put out, in order.
#[derive(Drop)]
pub(crate) struct Came<A: Allocator> {
    pub(crate) up: Option<Parcel<A>>,
    pub(crate) out: Items<PortSent<A>, A>,
}

/// Makes a call of a link, which settles where the call isn't refused.
///
/// # Errors
/// `Unread` where its moments are none that a call may have.
pub(crate) fn make<A: Allocator + Copy, L: Link<A> + Drop>(
    other: A,
    link: &mut L,
    call: Call,
    octets: &[u8],
    At { now, stamp }: At,
) -> Result<Result<Came<A>, Fault>, Stop> {
    if now > MAX_MOMENT_MS || now < link.moment() || now < stamp {
        return Err(Stop::Unread(Part::Number));
    }
    let mut change = Change::Nothing;
    let mut out = Items::new(other);
    let came = match call {
        Call::Down { from, to } => {
            let npdu = Octets::from_slice(other, octets)?;
            let parcel = Parcel {
                from,
                to,
                npdu,
                stamp,
            };
            silent(link.down(&mut change, &parcel, 0, now, &mut out))
        }
        Call::Heard { from } => {
            let heard = link.heard(&mut change, from, octets, stamp, 0, now, &mut out);
            kept(other, heard)?
        }
        Call::Tick => silent(link.on_tick(&mut change, 0, now, &mut out)),
        Call::Octets(count) => silent(link.on_octets(&mut change, count, now)),
        Call::Register => silent(link.register(&mut change, 0, now, &mut out)),
        Call::Restart => {
            link.restart(now);
            Ok(None)
        }
    };
    match came {
        Ok(up) => {
            link.settle(change, now);
            Ok(Ok(Came { up, out }))
        }
        Err(fault) => Ok(Err(fault)),
    }
}

/// Nothing is handed up.
fn silent<A: Allocator>(called: Result<(), Fault>) -> Result<Option<Parcel<A>>, Fault> {
    match called {
        Ok(()) => Ok(None),
        Err(fault) => Err(fault),
    }
}

/// What is handed up, in memory of its own.
///
/// # Errors
/// Want of memory.
fn kept<A: Allocator>(
    other: A,
    called: Result<Option<Up<'_>>, Fault>,
) -> Result<Result<Option<Parcel<A>>, Fault>, AllocError> {
    match called {
        Ok(Some(up)) => Ok(Ok(Some(up.to_parcel(other)?))),
        Ok(None) => Ok(Ok(None)),
        Err(fault) => Ok(Err(fault)),
    }
}

/// What comes of a call, in words.
fn told<A: Allocator>(alloc: Global, came: &Came<A>) -> Result<String, Stop> {
    let mut out = String::new(alloc);
    if let Some(parcel) = &came.up {
        push_parcel(parcel, &mut out)?;
    }
    for PortSent { sent, .. } in came.out.as_slice() {
        push_mark(", ", &mut out)?;
        push_mac(sent.to, &mut out)?;
        write!(out, " @{} ", sent.stamp)?;
        push_octets(sent.octets.as_slice(), &mut out)?;
    }
    if out.is_empty() {
        out.push('-')?;
    }
    Ok(out)
}

/// Appends what is handed up.
///
/// # Errors
/// Want of memory.
pub(crate) fn push_parcel<A: Allocator>(
    parcel: &Parcel<A>,
    out: &mut String,
) -> Result<(), AllocError> {
    push_mac(parcel.from, out)?;
    out.push_str(" > ")?;
    push_target(parcel.to, out)?;
    write!(out, " @{} ", parcel.stamp)?;
    push_octets(parcel.npdu.as_slice(), out)
}
