//! The rows of a client: inputs, `often COUNT INSTANCE REQUEST` for as many issues, and `introduce FIRST LAST` for
//! I-Ams of all devices with an instance from the first to the last. Besides `binding INSTANCE`, `bindings`, which
//! tells their number, `moment`, `copy`, which goes on with the copy.

ghost use Rattle.std.specs.Prelude.{◌<◌};
ghost use Rattle.apdu.specs.Sizes.{apdu_code};

use crate::input::{Input, TakesInputs, read_input, run_copy, try_input};
use crate::told::{push_parcel, push_parcels, push_reply, told_or_nothing};
use apdu::Segmentation;
use endpoint::{Binding, Client, ClientTold};
use npdu::{Mac, Parcel, Station, Target};
use primitives::Request;
use profile::{LinkKind, MAX_MOMENT_MS};
use sheets::{
    Counts, Given, Part, Stop, differs, number, push_mark, push_octets, refusal, request_in,
    run_number, run_text, run_word, two_words,
};
use std::alloc::{AllocError, Allocator, Global};
use tags::{Fault, Octets};
use transactions::{Outcome, TransactionOutcome};

/// The address of the client, to which what is for it alone is sent.
const OWN: Mac = Mac::Six([127, 0, 0, 1, 0xBA, 0xC2]);

/// The address of a device of its network.
const DEVICE: Mac = Mac::Six([127, 0, 0, 1, 0xBA, 0xC3]);

/// An I-Am to all stations of all networks, up to the last two octets of its instance (16.10.3).
const I_AM_FRONT: [u8; 11] = [1, 0x20, 0xFF, 0xFF, 0, 0xFF, 0x10, 0, 0xC4, 2, 0];

/// What stands behind its instance: 1476 octets, segments both ways, vendor 0.
const I_AM_BACK: [u8; 7] = [0x22, 5, 0xC4, 0x91, 0, 0x21, 0];

/// A client on network 1 that takes answers in segments, or in none.
///
/// # Errors
/// `Unread` where the word is neither.
pub(crate) fn open<A: Allocator + Copy>(alloc: A, word: &str) -> Result<Client<A>, Stop> {
    let segmented = match word {
        "segmented" => true,
        "whole" => false,
        _ => return Err(Stop::Unread(Part::Asked)),
    };
    let address = Station { net: 1, mac: OWN };
    Ok(Client::new(alloc, address, segmented, LinkKind::BacnetIp))
}

/// Appends what came of a transaction: `tell 0 values enum 1`.
fn push_outcome<A: Allocator>(
    told: &TransactionOutcome<A>,
    out: &mut String,
) -> Result<(), AllocError> {
    push_mark(", ", out)?;
    write!(out, "tell {} ", told.invoke_id)?;
    match &told.outcome {
        Outcome::Answered(reply) => push_reply(reply, out),
        Outcome::Aborted(reason) => write!(out, "aborted {}", u8::from(*reason)),
        Outcome::Rejected(reason) => write!(out, "rejected {}", u8::from(*reason)),
        Outcome::TimedOut => out.push_str("timed out"),
    }
}

/// What a client says and tells of something, in words, or why it is refused.
fn in_words<A: Allocator>(
    alloc: Global,
    from: Mac,
    now: u64,
    came: Result<ClientTold<A>, Fault>,
) -> Result<String, Stop> {
    let told = match came {
        Ok(told) => told,
        Err(Fault::Memory) => return Err(Stop::Memory),
        Err(fault) => return refusal(alloc, fault),
    };
    let mut out = String::new(alloc);
    push_parcels(alloc, from, now, &told.said, &mut out)?;
    for one in told.outcomes.as_slice() {
        push_outcome(one, &mut out)?;
    }
    told_or_nothing(out)
}

/// What a client says where it wakes, in words. It wakes once more at the same moment, when nothing is due any more.
fn wake<A: Allocator + Copy>(
    client: &mut Client<A>,
    alloc: Global,
    now: u64,
) -> Result<String, Stop> {
    if now > MAX_MOMENT_MS || now < client.moment() {
        return Err(Stop::Unread(Part::Number));
    }
    let words = in_words(alloc, OWN, now, client.on_tick(now))?;
    if !client.is_quiet(now) {
        return Err(differs(alloc, "something is still due"));
    }
    client.wake_quietly(now);
    Ok(words)
}

/// What a client says of an issue, in words, or why it is refused.
fn issue<A: Allocator + Copy>(
    client: &mut Client<A>,
    alloc: Global,
    now: u64,
    instance: u32,
    request: &Request<A>,
) -> Result<String, Stop> {
    if !request.is_sound() || now > MAX_MOMENT_MS || now < client.moment() {
        return Err(Stop::Unread(Part::Asked));
    }
    let issued = match client.issue(instance, request, now) {
        Ok(issued) => issued,
        Err(Fault::Memory) => return Err(Stop::Memory),
        Err(fault) => return refusal(alloc, fault),
    };
    let mut out = format!(in alloc; "as {}", issued.invoke_id)?;
    push_parcels(alloc, OWN, now, &issued.said, &mut out)?;
    Ok(out)
}

/// What a client says of a Who-Is, in words.
fn ask_who<A: Allocator>(alloc: Global, now: u64, parcel: &Parcel<A>) -> Result<String, Stop> {
    let mut out = String::new(alloc);
    push_parcel(alloc, OWN, now, parcel, &mut out)?;
    Ok(out)
}

impl<A: Allocator + Copy> TakesInputs<A> for Client<A> {
    fn take(&mut self, alloc: Global, now: u64, input: &Input<A>) -> Result<String, Stop> {
        if now > MAX_MOMENT_MS || now < self.moment() {
            return Err(Stop::Unread(Part::Number));
        }
        match input {
            Input::Wakes => wake(self, alloc, now),
            Input::Hears(parcel) => in_words(alloc, OWN, now, self.on_parcel(parcel, now)),
            Input::Issues(instance, request) => issue(self, alloc, now, *instance, request),
            Input::AsksWho(limits) => ask_who(alloc, now, &self.who_is(*limits, now)?),
        }
    }

    fn copied(&self) -> Result<Self, AllocError> {
        self.copy()
    }
}

/// A binding in words: `network 1 7F000001BAC3 by 7F000001BAC3, 1476 octets, segments both`.
fn binding_in_words(alloc: Global, binding: Binding) -> Result<String, AllocError> {
    let bound = binding.bound;
    let mut out = format!(in alloc; "network {} ", bound.station.net)?;
    push_octets(bound.station.mac.as_octets(), &mut out)?;
    out.push_str(" by ")?;
    push_octets(bound.way.to.as_octets(), &mut out)?;
    let segments = match binding.segmentation {
        Segmentation::Both => "both ways",
        Segmentation::Transmit => "sent",
        Segmentation::Receive => "taken",
        Segmentation::NoSegmentation => "none",
    };
    write!(out, ", {} octets, segments {segments}", bound.max_apdu)?;
    if binding.refused {
        out.push_str(", no route")?;
    }
    Ok(out)
}

/// Tells a binding.
fn run_binding<A: Allocator + Copy>(
    given: Given<'_>,
    client: &Client<A>,
    instance: &str,
    wanted: &str,
) -> Result<Counts, Stop> {
    let words = match client.binding(number(instance)?) {
        Some(binding) => binding_in_words(given.alloc, binding)?,
        None => String::from_str(given.alloc, "none")?,
    };
    run_text(words, wanted)
}

/// The I-Am of a device with this instance, of at most 65535.
fn i_am<A: Allocator + Copy>(memory: A, instance: u32) -> Result<Parcel<A>, AllocError> {
    let mut npdu = Vec::from_slice(memory, I_AM_FRONT.as_slice())?;
    npdu.push((instance / 256 % 256) as u8)?;
    npdu.push((instance % 256) as u8)?;
    npdu.extend_from_slice(I_AM_BACK.as_slice())?;
    Ok(Parcel {
        from: DEVICE,
        to: Target::All,
        npdu: Octets::from_vec(npdu),
        stamp: 0,
    })
}

/// The client hears the I-Am of a device with this instance, at the moment of its last call.
fn hear_i_am<A: Allocator + Copy>(
    memory: A,
    client: &mut Client<A>,
    instance: u32,
) -> Result<(), Stop> {
    let now = client.moment();
    if now > MAX_MOMENT_MS {
        return Err(Stop::Unread(Part::Number));
    }
    client.on_parcel(&i_am(memory, instance)?, now)?;
    Ok(())
}

/// The client hears the I-Ams of devices with these instances.
fn introduce<A: Allocator + Copy>(
    memory: A,
    client: &mut Client<A>,
    words: &str,
) -> Result<(), Stop> {
    let (first, last) = two_words(words);
    for instance in number(first)?..=number(last)? {
        hear_i_am(memory, client, instance)?;
    }
    Ok(())
}

/// The client issues a request as often as the number before it says.
fn issue_often<A: Allocator + Copy>(
    alloc: Global,
    memory: A,
    client: &mut Client<A>,
    words: &str,
) -> Result<(), Stop> {
    let (count, rest) = two_words(words);
    let (instance, request) = two_words(rest);
    let instance = number(instance)?;
    let request = request_in(memory, request)?;
    let now = client.moment();
    for _ in 0..number(count)? {
        issue(client, alloc, now, instance, &request)?;
    }
    Ok(())
}

/// Runs a row of a client.
pub(crate) fn run<A: Allocator + Copy>(
    given: Given<'_>,
    memory: A,
    client: &mut Client<A>,
    asked: &str,
    wanted: &str,
) -> Result<Counts, Stop> {
    let (first, rest) = two_words(asked);
    match first {
        "binding" => run_binding(given, client, rest, wanted),
        "bindings" => run_number(given, client.bindings().len() as u64, wanted),
        "moment" => run_number(given, client.moment(), wanted),
        "copy" => run_copy(given, client, wanted),
        "often" => run_often(given, memory, client, rest, wanted),
        "introduce" => run_introduced(given, memory, client, rest, wanted),
        _ => run_input(
            given,
            memory,
            client,
            u64::from(number(first)?),
            rest,
            wanted,
        ),
    }
}

/// Runs a row of as many issues as it says.
fn run_often<A: Allocator + Copy>(
    given: Given<'_>,
    memory: A,
    client: &mut Client<A>,
    words: &str,
    wanted: &str,
) -> Result<Counts, Stop> {
    issue_often(given.alloc, memory, client, words)?;
    run_word(given, "issued", wanted)
}

/// Runs a row of the I-Ams of as many devices as it says.
fn run_introduced<A: Allocator + Copy>(
    given: Given<'_>,
    memory: A,
    client: &mut Client<A>,
    words: &str,
    wanted: &str,
) -> Result<Counts, Stop> {
    introduce(memory, client, words)?;
    run_word(given, "introduced", wanted)
}

/// Runs a row of what a client hears or does at this moment.
fn run_input<A: Allocator + Copy>(
    given: Given<'_>,
    memory: A,
    client: &mut Client<A>,
    now: u64,
    words: &str,
    wanted: &str,
) -> Result<Counts, Stop> {
    let input = read_input(given.alloc, memory, OWN, now, words)?;
    try_input(given, client, now, &input, wanted)
}
