//! What a receiver of segments does: `join 4: 0 1 3 3 2 3. -> ack 0, -, nak 1, drop, -, ack 3, whole 00010203`,
//! which grants the window 4. A dot marks the last segment; `@2000` is the moment of what follows, `*475` how
//! many octets each segment has from there on, one as it begins; `1..63` are segments of which the step of
//! the last is told. Told are `ack` and `nak` with their numbers, `-` where a segment is taken and nothing is
//! due, `drop`, `full`, and at the end the whole. Each octet of a segment is its number.

use crate::asked::head_and_words;
use crate::devices::Run;
use segments::{Receiver, Step, granted_window};
use sheets::{
    Counts, Given, Stop, Trial, differs, first_and_last, number, push_mark, push_octets,
    refused_memory, run_number, small, try_row,
};
use std::alloc::{AllocError, Allocator, Global};

/// The segments of a row, and the memory of the receiver that takes them.
#[derive(Clone, Copy)]
struct Segments<'w, A> {
    memory: A,
    window: u8,
    words: &'w str,
}

/// A receiver, the moment, and how many octets a segment has.
#[derive(Drop)]
struct Bench<A: Allocator + Copy> {
    alloc: Global,
    receiver: Receiver<A>,
    now: u64,
    octets: u32,
}

/// The numbers of a word, and whether the last of them is the last segment: `1`, `3.`, `1..63`.
fn numbers(word: &str) -> Result<(u8, u8, bool), Stop> {
    let (word, is_last) = match word.strip_suffix(".") {
        Some(word) => (word, true),
        None => (word, false),
    };
    let (first, last) = first_and_last(word)?;
    Ok((first, last, is_last))
}

impl<A: Allocator + Copy> Bench<A> {
    /// Takes a word, and answers what the receiver does.
    fn take(&mut self, word: &str) -> Result<Option<Step>, Stop> {
        if let Some(moment) = word.strip_prefix("@") {
            self.now = u64::from(number(moment)?);
            return Ok(None);
        }
        if let Some(octets) = word.strip_prefix("*") {
            self.octets = number(octets)?;
            return Ok(None);
        }
        let (first, last, is_last) = numbers(word)?;
        let mut step = None;
        for number in first..=last {
            step = Some(self.take_segment(number, !is_last || number != last)?);
        }
        Ok(step)
    }

    /// Takes a segment. The receiver is as it was where memory was refused.
    fn take_segment(&mut self, number: u8, more: bool) -> Result<Step, Stop> {
        let octets = octets_of(self.alloc, number, self.octets)?;
        let before = Vec::from_slice(self.alloc, self.receiver.octets())?;
        self.take_octets(number, more, octets.as_slice(), before.as_slice())
    }

    /// Takes a segment of these octets where those `before` were taken.
    fn take_octets(
        &mut self,
        number: u8,
        more: bool,
        octets: &[u8],
        before: &[u8],
    ) -> Result<Step, Stop> {
        let foreseen = self.receiver.step(number, more, octets, self.now);
        match self.receiver.on_segment(number, more, octets, self.now) {
            Ok(step) if step == foreseen => Ok(step),
            Ok(_) => Err(differs(self.alloc, "a step that was not foreseen")),
            Err(AllocError) => Err(refused_memory(self.alloc, before, self.receiver.octets())),
        }
    }

    /// What the receiver does on words, and the whole, in words.
    fn join(&mut self, words: &str) -> Result<String, Stop> {
        let mut out = String::new(self.alloc);
        for word in words.split(' ') {
            if let Some(step) = self.take(word)? {
                push_step(step, &mut out)?;
            }
        }
        push_whole(&self.receiver, &mut out)?;
        Ok(out)
    }
}

/// So many octets, each of which is the number of their segment.
fn octets_of(alloc: Global, number: u8, count: u32) -> Result<Vec<u8>, AllocError> {
    let mut octets = Vec::new(alloc);
    for _ in 0..count {
        octets.push(number)?;
    }
    Ok(octets)
}

/// Appends what a receiver does in words.
fn push_step(step: Step, out: &mut String) -> Result<(), AllocError> {
    push_mark(", ", out)?;
    match step {
        Step::Taken(Some(number)) => write!(out, "ack {number}"),
        Step::Taken(None) => out.push('-'),
        Step::Nak(number) => write!(out, "nak {number}"),
        Step::Dropped => out.push_str("drop"),
        Step::Full => out.push_str("full"),
    }
}

/// Appends the whole in words, of a copy of the receiver, where there is one.
fn push_whole<A: Allocator + Copy>(
    receiver: &Receiver<A>,
    out: &mut String,
) -> Result<(), AllocError> {
    let copy = receiver.copy()?;
    match copy.whole() {
        Some(whole) => {
            out.push_str(", whole ")?;
            push_octets(whole, out)
        }
        None => Ok(()),
    }
}

impl<'w, 'a, A: Allocator + Copy> Trial<'a> for Segments<'w, A> {
    fn answer(&self, given: Given<'a>, _octets: &[u8]) -> Result<String, Stop> {
        let mut bench = Bench {
            alloc: given.alloc,
            receiver: Receiver::new(self.memory, self.window),
            now: 0,
            octets: 1,
        };
        bench.join(self.words)
    }
}

/// Runs a row.
pub(crate) fn run<A: Allocator + Copy>(
    run: &Run<'_, A>,
    asked: &str,
    wanted: &str,
) -> Result<Counts, Stop> {
    let (window, words) = head_and_words(asked)?;
    let segments = Segments {
        memory: run.own,
        window: small(window)?,
        words,
    };
    try_row(run.given, &segments, &[], wanted)
}

/// Runs a row of the window that is granted where one is proposed: `grant 7 -> 4`.
pub(crate) fn run_granted(given: Given<'_>, asked: &str, wanted: &str) -> Result<Counts, Stop> {
    run_number(given, u64::from(granted_window(small(asked)?)), wanted)
}
