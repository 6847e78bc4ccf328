//! Scripts: `script tick 5\nwake c -> tick 5; wake c`, the steps of a text in words, or its first bad line.

use crate::escaped::push_unescaped;
use apdu::Limits;
use script::{BadScript, Event, Step, script_of};
use sheets::{Counts, Given, Stop, Trial, run_trial};
use std::alloc::{Allocator, Global};
use words::{Hex, Words};

/// Runs a row, also on each prefix of the text and with each octet changed.
pub(crate) fn run(given: Given<'_>, words: &str, wanted: &str) -> Result<Counts, Stop> {
    let mut text = Vec::new(given.alloc);
    push_unescaped(words, &mut text)?;
    run_trial(given, &Script, text.as_slice(), wanted)
}

/// The steps of a text.
#[derive(Clone, Copy)]
struct Script;

impl<'a> Trial<'a> for Script {
    fn answer(&self, given: Given<'a>, octets: &[u8]) -> Result<String, Stop> {
        in_words(given.alloc, given.memory, octets)
    }
}

/// The steps of a text in words, or its first bad line.
fn in_words<A: Allocator + Copy>(alloc: Global, memory: A, text: &[u8]) -> Result<String, Stop> {
    match script_of(memory, text) {
        Ok(steps) => steps_in_words(alloc, steps.as_slice()),
        Err(BadScript::Memory) => Err(Stop::Memory),
        Err(BadScript::Line { number, unread }) => {
            Ok(format!(in alloc; "line {number}: {unread}")?)
        }
    }
}

fn steps_in_words<A: Allocator>(alloc: Global, steps: &[Step<A>]) -> Result<String, Stop> {
    let mut out = String::new(alloc);
    let mut before = "";
    for step in steps {
        out.push_str(before)?;
        push_step(step, &mut out)?;
        before = "; ";
    }
    Ok(out)
}

fn push_step<A: Allocator>(step: &Step<A>, out: &mut String) -> Result<(), Stop> {
    match step {
        Step::Happens(event) => push_event(event, out),
        Step::Flow(milliseconds) => Ok(write!(out, "flow {milliseconds}")?),
        Step::Disturbs(fault) => Ok(write!(out, "{fault}")?),
        Step::Expects(expected) => Ok(write!(out, "{expected}")?),
        Step::Shows(name) => push_named("state ", name.as_slice(), out),
    }
}

fn push_event<A: Allocator>(event: &Event<A>, out: &mut String) -> Result<(), Stop> {
    match event {
        Event::Issue {
            client,
            instance,
            request,
        } => {
            push_named("issue ", client.as_slice(), out)?;
            write!(out, " {instance} {}", Words(request))?;
        }
        Event::WhoIs { client, limits } => {
            push_named("whois ", client.as_slice(), out)?;
            push_limits(*limits, out)?;
        }
        Event::Tick(milliseconds) => write!(out, "tick {milliseconds}")?,
        Event::Wake(name) => push_named("wake ", name.as_slice(), out)?,
        Event::Deliver(item) => write!(out, "deliver {item}")?,
        Event::Hear {
            network,
            station,
            octets,
        } => {
            write!(out, "hear {network} ")?;
            push_named("", station.as_slice(), out)?;
            write!(out, " {}", Hex(octets.as_slice()))?;
        }
        Event::Register(name) => push_named("register ", name.as_slice(), out)?,
        Event::Restart(name) => push_named("restart ", name.as_slice(), out)?,
    }
    Ok(())
}

/// A word, and a name behind it.
fn push_named(word: &str, name: &[u8], out: &mut String) -> Result<(), Stop> {
    out.push_str(word)?;
    match std::str::from_utf8(name) {
        Ok(name) => out.push_str(name)?,
        Err(_) => write!(out, "{}", Hex(name))?,
    }
    Ok(())
}

fn push_limits(limits: Option<Limits>, out: &mut String) -> Result<(), Stop> {
    if let Some(Limits { low, high }) = limits {
        write!(out, " {low} {high}")?;
    }
    Ok(())
}
