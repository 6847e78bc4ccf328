//! The rows of a device: inputs, and `MOMENT restart`. Besides `read REQUEST`, `moment`, `copy`, which goes on with the
//! copy.

use crate::input::{Input, TakesInputs, read_input, run_copy, try_input};
use crate::opened::table;
use crate::told::{push_parcels, push_reply, told_or_nothing};
use endpoint::{Device, DeviceTold};
use npdu::Mac;
use primitives::Request;
use profile::MAX_MOMENT_MS;
use sheets::{
    Counts, Given, Part, Stop, differs, number, push_mark, request_in, run_number, run_text,
    run_word, two_words,
};
use std::alloc::{AllocError, Allocator, Global};

/// The address of the device on BACnet/IP, to which what is for it alone is sent.
const OWN: Mac = Mac::Six([127, 0, 0, 1, 0xBA, 0xC3]);

/// Wakes once more at the moment of a wake, when nothing is due any more.
fn wake_again<A: Allocator + Copy>(
    alloc: Global,
    device: &mut Device<A>,
    now: u64,
) -> Result<(), Stop> {
    if now < device.moment() || !device.is_quiet(now) {
        return Err(differs(alloc, "something is still due"));
    }
    device.wake_quietly(now);
    Ok(())
}

/// What a device says and executes of an input.
fn told<A: Allocator + Copy>(
    device: &mut Device<A>,
    now: u64,
    input: &Input<A>,
) -> Result<DeviceTold<A>, Stop> {
    if now > MAX_MOMENT_MS || now < device.moment() {
        return Err(Stop::Unread(Part::Number));
    }
    match input {
        Input::Wakes => Ok(device.on_tick(now)?),
        Input::Hears(parcel) => Ok(device.on_parcel(parcel, now)?),
        _ => Err(Stop::Unread(Part::Asked)),
    }
}

/// What a device says and executes, in words.
fn in_words<A: Allocator + Copy>(
    alloc: Global,
    from: Mac,
    now: u64,
    told: &DeviceTold<A>,
) -> Result<String, Stop> {
    let mut out = String::new(alloc);
    push_parcels(alloc, from, now, &told.said, &mut out)?;
    push_executed(told, &mut out)?;
    told_or_nothing(out)
}

/// Appends what was executed, if a request was.
fn push_executed<A: Allocator + Copy>(
    told: &DeviceTold<A>,
    out: &mut String,
) -> Result<(), AllocError> {
    let Some(executed) = &told.executed else {
        return Ok(());
    };
    push_mark(", ", out)?;
    out.push_str("executed ")?;
    push_reply(executed.reply(), out)
}

impl<A: Allocator + Copy> TakesInputs<A> for Device<A> {
    fn take(&mut self, alloc: Global, now: u64, input: &Input<A>) -> Result<String, Stop> {
        let from = self.mac();
        let told = told(self, now, input)?;
        if matches!(input, Input::Wakes) {
            wake_again(alloc, self, now)?;
        }
        in_words(alloc, from, now, &told)
    }

    fn copied(&self) -> Result<Self, AllocError> {
        self.copy()
    }
}

/// Restarts the device, which takes no memory.
fn run_restart<A: Allocator + Copy>(
    given: Given<'_>,
    memory: A,
    device: &mut Device<A>,
    now: u64,
    wanted: &str,
) -> Result<Counts, Stop> {
    if now > MAX_MOMENT_MS || now < device.moment() {
        return Err(Stop::Unread(Part::Number));
    }
    let opening = table(memory)?;
    given.memory.refuse_all();
    device.restart(opening, now);
    given.memory.refuse_only(0);
    run_word(given, "restarted", wanted)
}

/// What the objects reply to a request, in words.
fn replied<A: Allocator + Copy>(
    alloc: Global,
    device: &Device<A>,
    request: &Request<A>,
) -> Result<String, Stop> {
    let reply = device.table().reply(request)?;
    let mut out = String::new(alloc);
    push_reply(&reply, &mut out)?;
    Ok(out)
}

/// Runs a row of what the objects reply to a request.
fn run_read<A: Allocator + Copy>(
    given: Given<'_>,
    memory: A,
    device: &Device<A>,
    request: &str,
    wanted: &str,
) -> Result<Counts, Stop> {
    let request = request_in(memory, request)?;
    run_text(replied(given.alloc, device, &request)?, wanted)
}

/// Runs a row of a device.
pub(crate) fn run<A: Allocator + Copy>(
    given: Given<'_>,
    memory: A,
    device: &mut Device<A>,
    asked: &str,
    wanted: &str,
) -> Result<Counts, Stop> {
    let (first, rest) = two_words(asked);
    match first {
        "read" => run_read(given, memory, device, rest, wanted),
        "moment" => run_number(given, device.moment(), wanted),
        "copy" => run_copy(given, device, wanted),
        _ => run_input(
            given,
            memory,
            device,
            u64::from(number(first)?),
            rest,
            wanted,
        ),
    }
}

/// Runs a row of what a device hears or does at this moment.
fn run_input<A: Allocator + Copy>(
    given: Given<'_>,
    memory: A,
    device: &mut Device<A>,
    now: u64,
    words: &str,
    wanted: &str,
) -> Result<Counts, Stop> {
    if words == "restart" {
        return run_restart(given, memory, device, now, wanted);
    }
    let input = read_input(given.alloc, memory, OWN, now, words)?;
    try_input(given, device, now, &input, wanted)
}
