//! What a sender of segments does: `send 5 1: tick 0/2 @2000 tick -> say 0, say 1 2, say 1 2`, a body of 5
//! octets in pieces of 1, which wakes and hears SegmentACKs. `3/4` is one of the number 3 and the window 4,
//! `3!4` a NAK, `@2000` the moment of what follows. Told are `wait`, `end`, or the numbers of the pieces that it
//! says, the last of the body with a dot. Of `?/4` each number is told that counts, with what is done on it,
//! and the sender is left as it is.

use crate::asked::{body, head_and_words, length};
use segments::{Sender, Turn};
use sheets::{Counts, Given, Part, Stop, number, push_mark, run_text, small, two_words};
use std::alloc::{AllocError, Global};

/// What a SegmentACK has beside its number.
#[derive(Clone, Copy)]
struct Ack {
    window: u8,
    nak: bool,
}

/// A SegmentACK: `3/4`, or as a NAK `3!4`; any number for `?`.
fn read_ack(word: &str) -> Result<(Option<u8>, Ack), Stop> {
    let (parts, nak) = match word.split_once('/') {
        Some(parts) => (Some(parts), false),
        None => (word.split_once('!'), true),
    };
    let Some((number, window)) = parts else {
        return Err(Stop::Unread(Part::Asked));
    };
    let window = small(window)?;
    let number = match number {
        "?" => None,
        number => Some(small(number)?),
    };
    Ok((number, Ack { window, nak }))
}

/// A sender, and the moment.
#[derive(Clone, Copy)]
struct Bench {
    sender: Sender,
    now: u64,
}

impl Bench {
    /// Takes a SegmentACK, and answers what the sender does.
    fn hear(&mut self, number: u8, ack: Ack) -> Turn {
        self.sender.on_ack(number, ack.window, ack.nak, self.now)
    }

    /// Appends what the sender of this body does in words.
    fn push_turn(&self, body: &[u8], turn: Turn, out: &mut String) -> Result<(), AllocError> {
        match turn {
            Turn::Waits => out.push_str("wait"),
            Turn::Ends => out.push_str("end"),
            Turn::Sends => self.push_window(body, out),
        }
    }

    /// Appends the numbers of the pieces that it says.
    fn push_window(&self, body: &[u8], out: &mut String) -> Result<(), AllocError> {
        out.push_str("say")?;
        for piece in self.sender.window(body) {
            let dot = if piece.has_more { "" } else { "." };
            write!(out, " {}{dot}", piece.number)?;
        }
        Ok(())
    }

    /// Appends each number of a SegmentACK that counts, and what is done on it.
    fn push_heard(&self, body: &[u8], ack: Ack, out: &mut String) -> Result<(), AllocError> {
        out.push_str("of")?;
        for number in 0..=255u8 {
            let mut other = *self;
            let turn = other.hear(number, ack);
            if turn != Turn::Waits {
                write!(out, " {number}: ")?;
                other.push_turn(body, turn, out)?;
            }
        }
        Ok(())
    }

    /// Takes a word, and appends what the sender does.
    fn take(&mut self, body: &[u8], word: &str, out: &mut String) -> Result<(), Stop> {
        push_mark(", ", out)?;
        if word == "tick" {
            let turn = self.sender.on_tick(self.now);
            return Ok(self.push_turn(body, turn, out)?);
        }
        let (number, ack) = read_ack(word)?;
        match number {
            None => Ok(self.push_heard(body, ack, out)?),
            Some(number) => {
                let turn = self.hear(number, ack);
                Ok(self.push_turn(body, turn, out)?)
            }
        }
    }
}

/// A sender of a body in pieces of `chunk` octets, at the moment 0.
fn sender_of(body: &[u8], chunk: usize) -> Result<Bench, Stop> {
    if chunk == 0 {
        return Err(Stop::Unread(Part::Number));
    }
    Ok(Bench {
        sender: Sender::new(body, chunk),
        now: 0,
    })
}

/// Runs a row.
pub(crate) fn run(given: Given<'_>, asked: &str, wanted: &str) -> Result<Counts, Stop> {
    let (head, words) = head_and_words(asked)?;
    let (size, chunk) = two_words(head);
    let chunk = length(chunk)?;
    let body = body(given.alloc, length(size)?)?;
    run_text(send(given.alloc, body.as_slice(), chunk, words)?, wanted)
}

/// What a sender of a body in pieces of `chunk` octets does on words, in words.
fn send(alloc: Global, body: &[u8], chunk: usize, words: &str) -> Result<String, Stop> {
    let mut bench = sender_of(body, chunk)?;
    let mut out = String::new(alloc);
    for word in words.split(' ') {
        match word.strip_prefix("@") {
            Some(moment) => bench.now = u64::from(number(moment)?),
            None => bench.take(body, word, &mut out)?,
        }
    }
    Ok(out)
}
