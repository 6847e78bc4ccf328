//! A client, and the steps of a row: `1476 to 1476: issue read 5:1 85; @3000; wake -> as 0, say 0265000..; say 0265..`.
//!
//! - `@3000`: the moment of what follows, 0 as it begins.
//! - `issue REQUEST`: the device is asked; `as 0` is the invoke ID. `issues 256 REQUEST`: as often, told of the last.
//! - `hear APDU`, `other APDU`: the device, or another station, says this to the client. `parts 0..63`: the device
//!   says segments of these numbers, each without octets, of an answer to service 14; told of the last.
//! - `wake`: the client wakes, and once more at the same moment, at which nothing may be due.
//!
//! Before each step a copy takes the client's place. Each allocation of the client is refused in turn: the call is then
//! made again, and the row goes on as without.

use crate::client::asked::{OTHER, client_and_device, unfolded};
use crate::client::told::{push_client_told, push_issued};
use apdu::{Apdu, Segment};
use npdu::Station;
use primitives::Request;
use profile::{MAX_MOMENT_MS, WINDOW_SIZE};
use sheets::{
    Counts, Given, Part, Stop, Trial, compare, differs, number, octets, push_mark, refusal,
    request_in, small, try_row, two_words,
};
use std::alloc::{AllocError, Allocator, Global};
use tags::Fault;
use transactions::{Bound, ClientTsm, ClientTsmIssued, ClientTsmTold};

/// The steps of a row.
#[derive(Clone, Copy)]
struct Steps<'w> {
    head: &'w str,
    words: &'w str,
    wanted: &'w str,
}

/// A segment without octets of an answer to the first request, which asks for service 14.
fn part(sequence_number: u8) -> Apdu<'static> {
    Apdu::ComplexAck {
        segment: Some(Segment {
            more_follows: true,
            sequence_number,
            window: WINDOW_SIZE,
        }),
        invoke_id: 0,
        service: 14,
        data: &[],
    }
}

/// What a client hears from a station, or that it wakes.
#[derive(Clone, Copy)]
enum Input<'r> {
    Hears(Station, &'r Apdu<'r>),
    Wakes,
}

/// A client, whom it asks, and the moment.
#[derive(Drop)]
struct Scene<A: Allocator> {
    alloc: Global,
    other: A,
    client: ClientTsm<A>,
    to: Bound,
    now: u64,
    is_refused: bool,
}

impl<A: Allocator + Copy> Scene<A> {
    /// Takes the steps of a row, and answers what comes of them in words; where a call was refused memory, that it was,
    /// once what is wanted came.
    fn take_all(&mut self, steps: &Steps<'_>) -> Result<String, Stop> {
        let mut out = String::new(self.alloc);
        for step in steps.words.split("; ") {
            self.take(step, &mut out)?;
        }
        if !self.is_refused {
            return Ok(out);
        }
        compare(out, steps.wanted)?;
        Err(Stop::Memory)
    }

    /// Takes a step, and appends what comes of it in words; of a moment nothing.
    fn take(&mut self, step: &str, out: &mut String) -> Result<(), Stop> {
        if let Some(moment) = step.strip_prefix("@") {
            self.now = u64::from(number(moment)?);
            return Ok(());
        }
        self.copy()?;
        let mut words = String::new(self.alloc);
        self.push_step(step, &mut words)?;
        push_mark("; ", out)?;
        Ok(out.push_str(words.as_str())?)
    }

    /// Appends what comes of a step that is no moment.
    fn push_step(&mut self, step: &str, out: &mut String) -> Result<(), Stop> {
        let (verb, rest) = two_words(step);
        match verb {
            "issue" => self.push_issues(1, rest, out),
            "issues" => {
                let (count, words) = two_words(rest);
                self.push_issues(number(count)?, words, out)
            }
            "hear" => self.push_heard(self.to.station, rest, out),
            "other" => self.push_heard(OTHER, rest, out),
            "parts" => self.push_parts(rest, out),
            "wake" => self.push_input(Input::Wakes, out),
            _ => Err(Stop::Unread(Part::Asked)),
        }
    }

    /// Puts an equal client in the client's place, again where memory was refused.
    fn copy(&mut self) -> Result<(), Stop> {
        self.client = match self.client.copy() {
            Ok(copy) => copy,
            Err(AllocError) => {
                self.is_refused = true;
                self.client.copy()?
            }
        };
        Ok(())
    }

    /// Issues, again where memory was refused.
    fn issue(&mut self, request: &Request<A>) -> Result<Result<ClientTsmIssued<A>, Fault>, Stop> {
        if !request.is_sound() || self.now < self.client.moment() || self.now > MAX_MOMENT_MS {
            return Err(Stop::Unread(Part::Asked));
        }
        match self.client.issue(request, &self.to, self.now) {
            Err(Fault::Memory) => {
                self.is_refused = true;
                Ok(self.client.issue(request, &self.to, self.now))
            }
            came => Ok(came),
        }
    }

    /// Issues a request, and appends what comes of it.
    fn push_issued(&mut self, request: &Request<A>, out: &mut String) -> Result<(), Stop> {
        match self.issue(request)? {
            Ok(issued) => push_issued(&issued, self.to.way, out),
            Err(fault) => push_refusal(fault, out),
        }
    }

    /// Issues a request in words as often as this, and appends what comes of the last.
    fn push_issues(&mut self, count: u32, words: &str, out: &mut String) -> Result<(), Stop> {
        let words = unfolded(self.alloc, words)?;
        let request = request_in(self.other, words.as_str())?;
        self.push_last(count, &request, out)
    }

    /// Issues a request as often as this. Only what comes of the last stands in `out` then.
    fn push_last(
        &mut self,
        count: u32,
        request: &Request<A>,
        out: &mut String,
    ) -> Result<(), Stop> {
        for _ in 0..count {
            out.clear();
            self.push_issued(request, out)?;
        }
        Ok(())
    }

    /// Wakes, and once more at the same moment, when nothing is due any more.
    fn wake(&mut self) -> Result<ClientTsmTold<A>, Stop> {
        if self.now < self.client.moment() || self.now > MAX_MOMENT_MS {
            return Err(Stop::Unread(Part::Asked));
        }
        let told = self.client.on_tick(self.now)?;
        if !self.client.is_quiet(self.now) {
            return Err(differs(self.alloc, "something is still due"));
        }
        self.client.wake_quietly(self.now);
        Ok(told)
    }

    /// Takes an input.
    fn take_once(&mut self, input: Input<'_>) -> Result<ClientTsmTold<A>, Stop> {
        if self.now < self.client.moment() || self.now > MAX_MOMENT_MS {
            return Err(Stop::Unread(Part::Asked));
        }
        match input {
            Input::Hears(from, apdu) => Ok(self.client.on_apdu(from, apdu, self.now)?),
            Input::Wakes => self.wake(),
        }
    }

    /// Takes an input, again where memory was refused.
    fn take_input(&mut self, input: Input<'_>) -> Result<ClientTsmTold<A>, Stop> {
        match self.take_once(input) {
            Err(Stop::Memory) => {
                self.is_refused = true;
                self.take_once(input)
            }
            came => came,
        }
    }

    /// Takes an input, and appends what comes of it.
    fn push_input(&mut self, input: Input<'_>, out: &mut String) -> Result<(), Stop> {
        let told = self.take_input(input)?;
        push_client_told(&told, self.to.way, out)
    }

    /// Hears octets in words, and appends what comes of it.
    fn push_heard(&mut self, from: Station, word: &str, out: &mut String) -> Result<(), Stop> {
        let octets = octets(self.alloc, word)?;
        let apdu = Apdu::read(octets.as_slice())?;
        self.push_input(Input::Hears(from, &apdu), out)
    }

    /// Hears segments without octets. Only what comes of the last stands in `out` then.
    fn push_parts(&mut self, words: &str, out: &mut String) -> Result<(), Stop> {
        let Some((first, last)) = words.split_once("..") else {
            return Err(Stop::Unread(Part::Asked));
        };
        for sequence_number in small(first)?..=small(last)? {
            out.clear();
            self.push_input(Input::Hears(self.to.station, &part(sequence_number)), out)?;
        }
        Ok(())
    }
}

/// Appends a refusal.
fn push_refusal(fault: Fault, out: &mut String) -> Result<(), Stop> {
    let words = refusal(*out.allocator(), fault)?;
    Ok(out.push_str(words.as_str())?)
}

/// What comes of the steps of a row with a client in this memory, in words.
fn told<A: Allocator + Copy>(
    alloc: Global,
    memory: A,
    other: A,
    steps: &Steps<'_>,
) -> Result<String, Stop> {
    let (client, to) = client_and_device(memory, steps.head)?;
    let mut scene = Scene {
        alloc,
        other,
        client,
        to,
        now: 0,
        is_refused: false,
    };
    scene.take_all(steps)
}

impl<'w, 'a> Trial<'a> for Steps<'w> {
    fn answer(&self, given: Given<'a>, _octets: &[u8]) -> Result<String, Stop> {
        told(given.alloc, given.memory, given.other, self)
    }
}

/// Runs a row.
pub(crate) fn run(given: Given<'_>, asked: &str, wanted: &str) -> Result<Counts, Stop> {
    let Some((head, words)) = asked.split_once(": ") else {
        return Err(Stop::Unread(Part::Asked));
    };
    let steps = Steps {
        head,
        words,
        wanted,
    };
    try_row(given, &steps, &[], wanted)
}
