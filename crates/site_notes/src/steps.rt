//! The steps of a script.

use crate::note::{LineNote, tell_line};
use crate::ways::is_over_bus;
use apdu::Limits;
use script::{Event, Expectation, FaultyMessage, IssueRef, NetworkFault, RequestOrAnswer, Step};
use site_parts::{Link, Parts, Role, Station};
use std::alloc::{AllocError, Allocator};
use std::io;
use std::io::{ErrorKind, Write};

/// How many milliseconds may pass in a step.
const MOST_MS: u64 = 60_000;

/// After how many milliseconds the token of a bus goes round.
const TOKEN_MS: u64 = 3_000;

/// What has been read of a script.
#[derive(Drop)]
pub(crate) struct Reader<'p, A: Allocator> {
    parts: &'p Parts<A>,
    /// All steps of the script.
    steps: &'p [Step<A>],
    /// How many of them that were read are issues.
    issued: u64,
    /// Whether it is judged for a live run.
    is_live: bool,
    /// How many milliseconds have passed.
    passed: u64,
    /// The instances that were asked for.
    asked: Vec<Limits, A>,
    /// Whether a request that nobody asked for was told.
    is_unasked_told: bool,
    /// Whether a request before the token was told.
    is_early_told: bool,
    /// Whether a note was told.
    pub(crate) is_told: bool,
}

impl<'p, A: Allocator + Copy> Reader<'p, A> {
    /// Before the first step.
    pub(crate) fn new(
        alloc: A,
        parts: &'p Parts<A>,
        steps: &'p [Step<A>],
        is_live: bool,
    ) -> Reader<'p, A> {
        Reader {
            parts,
            steps,
            issued: 0,
            is_live,
            passed: 0,
            asked: Vec::new(alloc),
            is_unasked_told: false,
            is_early_told: false,
            is_told: false,
        }
    }

    /// Tells what shows of a step at its turn.
    pub(crate) fn tell_step<W: Write>(
        &mut self,
        number: usize,
        step: &Step<A>,
        out: &mut W,
    ) -> io::Result<()> {
        let event = match step {
            Step::Happens(event) => event,
            Step::Flow(n) => return self.tell_milliseconds(number, *n, out),
            Step::Disturbs(fault) => return self.tell_fault(number, fault, out),
            Step::Expects(expected) => return self.tell_expected(number, expected, out),
            Step::Shows(_) => return self.tell_offline(number, "state", out),
        };
        match event {
            Event::Issue {
                client,
                instance,
                ..
            } => {
                self.issued = self.issued.saturating_add(1);
                self.tell_client(number, client.as_slice(), out)?;
                self.tell_issue(number, client.as_slice(), *instance, out)
            }
            Event::WhoIs { client, limits } => {
                self.tell_client(number, client.as_slice(), out)?;
                self.put_asked(*limits)
            }
            Event::Tick(n) => self.tell_milliseconds(number, *n, out),
            Event::Restart(name) => self.tell_restart(number, name.as_slice(), out),
            Event::Register(name) => self.tell_register(number, name.as_slice(), out),
            Event::Wake(_) => self.tell_offline(number, "wake", out),
            Event::Deliver(_) => self.tell_offline(number, "deliver", out),
            Event::Hear { .. } => self.tell_offline(number, "hear", out),
        }
    }

    /// Tells an expectation of a property, which a live run doesn't take, or of a station that is no device.
    fn tell_expected<W: Write>(
        &mut self,
        number: usize,
        expected: &Expectation<A>,
        out: &mut W,
    ) -> io::Result<()> {
        let Expectation::Reads { station, .. } = expected else {
            return Ok(());
        };
        self.tell_offline(number, "expect value", out)?;
        let name = station.as_slice();
        match station_named(self.parts, name) {
            Some(station) if station.role.objects().is_none() => {
                self.tell(number, LineNote::NoValue(text(name)), out)
            }
            _ => Ok(()),
        }
    }

    /// Tells a fault of the network that a live run doesn't take, or that is refused.
    fn tell_fault<W: Write>(
        &mut self,
        number: usize,
        fault: &NetworkFault<A>,
        out: &mut W,
    ) -> io::Result<()> {
        match fault {
            NetworkFault::Lose { .. } | NetworkFault::LoseTo { .. } | NetworkFault::LoseOn { .. } =>
                self.tell_offline(number, "lose", out),
            NetworkFault::Repeat(_) => self.tell_offline(number, "repeat", out),
            NetworkFault::Delay { .. } => self.tell_offline(number, "delay", out),
            NetworkFault::Damage(message) => {
                self.tell_offline(number, "damage", out)?;
                if self.is_datagram(*message) {
                    return self.tell(number, LineNote::Whole, out);
                }
                Ok(())
            }
        }
    }

    /// Whether a message comes to its addressee as a datagram, where none of the issues before is refused.
    fn is_datagram(&self, message: FaultyMessage) -> bool {
        let place = match message.issue {
            IssueRef::Number(number) => number,
            IssueRef::Last => self.issued.saturating_sub(1),
        };
        let Some((client, instance)) = issue_at(place, self.steps) else {
            return false;
        };
        let addressee = match message.which {
            RequestOrAnswer::Request => device_of(self.parts, instance),
            RequestOrAnswer::Answer => station_named(self.parts, client),
        };
        match addressee {
            Some(station) => is_on_ip(station),
            None => false,
        }
    }

    /// Tells a note of a line.
    fn tell<W: Write>(&mut self, number: usize, note: LineNote<'_>, out: &mut W) -> io::Result<()> {
        self.is_told = true;
        tell_line(number, note, out)
    }

    /// Tells a station that asks and is no client.
    fn tell_client<W: Write>(&mut self, number: usize, name: &[u8], out: &mut W) -> io::Result<()> {
        match station_named(self.parts, name) {
            Some(station) if !is_client(station) => {
                self.tell(number, LineNote::NoClient(text(name)), out)
            }
            _ => Ok(()),
        }
    }

    /// Tells a request to a device that isn't there, or that comes too early.
    fn tell_issue<W: Write>(
        &mut self,
        number: usize,
        client: &[u8],
        instance: u32,
        out: &mut W,
    ) -> io::Result<()> {
        let Some(device) = device_of(self.parts, instance) else {
            return self.tell(number, LineNote::NoDevice(instance), out);
        };
        if !self.is_unasked_told && !is_asked(self.asked.as_slice(), instance) {
            self.is_unasked_told = true;
            self.tell(number, LineNote::Unasked(instance), out)?;
        }
        if self.is_early_told || self.passed >= TOKEN_MS {
            return Ok(());
        }
        if let Some(client) = station_named(self.parts, client) {
            if is_over_bus(*self.asked.allocator(), self.parts, client, device)? {
                self.is_early_told = true;
                let passed = self.passed;
                self.tell(number, LineNote::NoToken(passed), out)?;
            }
        }
        Ok(())
    }

    /// Notes the instances that are asked for.
    fn put_asked(&mut self, limits: Option<Limits>) -> io::Result<()> {
        let all = Limits {
            low: 0,
            high: u32::MAX,
        };
        match self.asked.push(limits.unwrap_or(all)) {
            Ok(()) => Ok(()),
            Err(_) => Err(ErrorKind::OutOfMemory.into()),
        }
    }

    /// Tells a time that may not pass at once.
    fn tell_milliseconds<W: Write>(
        &mut self,
        number: usize,
        n: u64,
        out: &mut W,
    ) -> io::Result<()> {
        if n == 0 || n > MOST_MS {
            return self.tell(number, LineNote::Milliseconds(n), out);
        }
        self.passed = self.passed.saturating_add(n);
        Ok(())
    }

    /// Tells a station that restarts and is no device.
    fn tell_restart<W: Write>(
        &mut self,
        number: usize,
        name: &[u8],
        out: &mut W,
    ) -> io::Result<()> {
        match station_named(self.parts, name) {
            Some(station) if station.role.objects().is_none() => {
                self.tell(number, LineNote::NoRestart(text(name)), out)
            }
            _ => Ok(()),
        }
    }

    /// Tells a station that registers and isn't foreign.
    fn tell_register<W: Write>(
        &mut self,
        number: usize,
        name: &[u8],
        out: &mut W,
    ) -> io::Result<()> {
        match station_named(self.parts, name) {
            Some(station) if station.role.beyond().is_none() => {
                self.tell(number, LineNote::NoRegister(text(name)), out)
            }
            _ => Ok(()),
        }
    }

    /// Tells a step that a live run doesn't take.
    fn tell_offline<W: Write>(
        &mut self,
        number: usize,
        word: &'static str,
        out: &mut W,
    ) -> io::Result<()> {
        if !self.is_live {
            return Ok(());
        }
        self.tell(number, LineNote::NotLive(word), out)
    }
}

/// Whether an instance was asked for.
fn is_asked(asked: &[Limits], instance: u32) -> bool {
    asked
        .iter()
        .any(|limits| limits.low <= instance && instance <= limits.high)
}

/// A name as a text.
fn text(name: &[u8]) -> &str {
    std::str::from_utf8(name).unwrap_or("?")
}

/// The station of a name, if there is one.
fn station_named<'p, A: Allocator>(parts: &'p Parts<A>, name: &[u8]) -> Option<&'p Station<A>> {
    for station in parts.stations.as_slice() {
        if station.name.as_slice() == name {
            return Some(station);
        }
    }
    None
}

/// The device of an instance, if there is one.
fn device_of<A: Allocator>(parts: &Parts<A>, instance: u32) -> Option<&Station<A>> {
    for station in parts.stations.as_slice() {
        if let Some(objects) = station.role.objects() {
            if objects.instance == instance {
                return Some(station);
            }
        }
    }
    None
}

/// The client and the instance of the issue of a number among steps.
fn issue_at<A: Allocator>(number: u64, steps: &[Step<A>]) -> Option<(&[u8], u32)> {
    let mut before = number;
    for step in steps {
        if let Step::Happens(
            Event::Issue {
                client,
                instance,
                ..
            },
        ) = step
        {
            if before == 0 {
                return Some((client.as_slice(), *instance));
            }
            before = before.saturating_sub(1);
        }
    }
    None
}

/// Whether a station is on BACnet/IP.
fn is_on_ip<A: Allocator>(station: &Station<A>) -> bool {
    let is_linked = station
        .role
        .links()
        .iter()
        .any(|link| matches!(link, Link::Ip { .. }));
    is_linked || station.role.beyond().is_some()
}

/// Whether a station is a client.
fn is_client<A: Allocator>(station: &Station<A>) -> bool {
    match &station.role {
        Role::Client { .. } => true,
        Role::Manager(_) | Role::Router(_) | Role::Device { .. } => false,
    }
}
