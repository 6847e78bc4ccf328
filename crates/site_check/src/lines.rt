//! A script, and the stations and networks that it names.

ghost use Rattle.std.specs.Prelude.{IfOk};
ghost use Rattle.site_check.specs.Judged.{AreStepsIfAny};

use crate::told::{Told, tell};
use script::{BadScript, Event, Expectation, NetworkFault, Step, script_of};
use site_parts::Parts;
use std::alloc::Allocator;
use std::io;
use std::io::{ErrorKind, Write};
use tags::Items;

/// The steps of a script; none where a line asks for no step, the first of which is told.
pub(crate) fn tell_script<A: Allocator + Copy, W: Write>(
    alloc: A,
    text: &[u8],
    out: &mut W,
) -> io::Result<Option<Items<Step<A>, A>>>
    ensures { IfOk result (AreStepsIfAny text.now) }
{
    match script_of(alloc, text) {
        Ok(steps) => Ok(Some(steps)),
        Err(BadScript::Memory) => Err(ErrorKind::OutOfMemory.into()),
        Err(BadScript::Line { number, unread }) => {
            tell(Told::BadLine { number, unread }, out)?;
            Ok(None)
        }
    }
}

/// Tells what the steps of a text name that parts lack, with the numbers of their lines.
pub(crate) fn tell_lacking<A: Allocator, W: Write>(
    text: &[u8],
    steps: &[Step<A>],
    parts: &Parts<A>,
    out: &mut W,
) -> io::Result<()> {
    let mut left = steps;
    let mut number = 1usize;
    let mut is_begun = true;
    for (at, octet) in text.iter().enumerate() {
        if is_begun && !is_skipped(&text[at..]) {
            if let [step, rest @ ..] = left {
                tell_step(number, step, parts, out)?;
                left = rest;
            }
        }
        is_begun = *octet == b'\n';
        if is_begun {
            number = number.saturating_add(1);
        }
    }
    Ok(())
}

/// Whether the first line of a text, with the carriage return that it may end with, is empty or a comment.
fn is_skipped(text: &[u8]) -> bool {
    match text {
        [] | [b'\n' | b'#', ..] | [b'\r'] | [b'\r', b'\n', ..] => true,
        [_, ..] => false,
    }
}

/// Tells what a step names that parts lack.
fn tell_step<A: Allocator, W: Write>(
    number: usize,
    step: &Step<A>,
    parts: &Parts<A>,
    out: &mut W,
) -> io::Result<()> {
    match step {
        Step::Happens(event) => tell_event(number, event, parts, out),
        Step::Flow(_) => Ok(()),
        Step::Disturbs(fault) => tell_fault(number, fault, parts, out),
        Step::Expects(expected) => tell_expected(number, expected, parts, out),
        Step::Shows(name) => tell_name(number, name.as_slice(), parts, out),
    }
}

/// Tells what an expectation names that parts lack.
fn tell_expected<A: Allocator, W: Write>(
    number: usize,
    expected: &Expectation<A>,
    parts: &Parts<A>,
    out: &mut W,
) -> io::Result<()> {
    match expected {
        Expectation::Reads { station, .. } => tell_name(number, station.as_slice(), parts, out),
        Expectation::Closed { .. } | Expectation::Executed { .. } | Expectation::NoneRefused => {
            Ok(())
        }
    }
}

/// Tells what a fault of the network names that parts lack.
fn tell_fault<A: Allocator, W: Write>(
    number: usize,
    fault: &NetworkFault<A>,
    parts: &Parts<A>,
    out: &mut W,
) -> io::Result<()> {
    match fault {
        NetworkFault::LoseTo { station, .. } => tell_name(number, station.as_slice(), parts, out),
        NetworkFault::LoseOn { network, .. } => tell_network(number, *network, parts, out),
        NetworkFault::Lose { .. }
        | NetworkFault::Repeat(_)
        | NetworkFault::Delay { .. }
        | NetworkFault::Damage(_) => Ok(()),
    }
}

/// Tells what an event names that parts lack.
fn tell_event<A: Allocator, W: Write>(
    number: usize,
    event: &Event<A>,
    parts: &Parts<A>,
    out: &mut W,
) -> io::Result<()> {
    let name = match event {
        Event::Issue { client, .. } | Event::WhoIs { client, .. } => client,
        Event::Wake(name) | Event::Register(name) | Event::Restart(name) => name,
        Event::Hear {
            network,
            station,
            ..
        } => {
            tell_network(number, *network, parts, out)?;
            station
        }
        Event::Tick(_) | Event::Deliver(_) => return Ok(()),
    };
    tell_name(number, name.as_slice(), parts, out)
}

fn tell_network<A: Allocator, W: Write>(
    number: usize,
    network: u16,
    parts: &Parts<A>,
    out: &mut W,
) -> io::Result<()> {
    let networks = parts.networks.as_slice();
    if networks.iter().any(|there| there.number == network) {
        return Ok(());
    }
    tell(Told::NoNetwork { number, network }, out)
}

fn tell_name<A: Allocator, W: Write>(
    number: usize,
    name: &[u8],
    parts: &Parts<A>,
    out: &mut W,
) -> io::Result<()> {
    let stations = parts.stations.as_slice();
    if stations
        .iter()
        .any(|station| station.name.as_slice() == name)
    {
        return Ok(());
    }
    let name = std::str::from_utf8(name).unwrap_or("?");
    tell(Told::NoStation { number, name }, out)
}
