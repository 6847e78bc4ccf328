//! Frames in a stream of octets on a bus (9.3, 9.5.4, Annex G):
//!
//! - `55FF00100500008C -> Token to 16 from 5`: the frames that are heard, `-` where there is none, and behind `kept`
//!   the octets that are kept; the same however the stream is cut in two, octet by octet, and by copies.
//! - `pieces 55FF0010 . 0500008C -> -`: the same of these pieces; a dot is a silence.
//! - `silence 55FF00100500008C -> Token to 16 from 5`: octets cut by a silence at each of them, and then whole.
//! - `write 6 16 5 012230 -> 55FF061005..`: what is written of a frame, which is then heard again.
//! - `header 0010050000 -> 8C`, `data 012230 -> 10BD`: check octets, as they are sent.

use mstp_frame::{Deframer, Frame, FrameType, data_check, header_check, write_frame};
use sheets::{
    Counts, Given, Part, Stop, Trial, buffer, compare, differs, octets, octets_in_words, push_mark,
    push_octets, run_octets, run_text, small, two_words, written_octets,
};
use std::alloc::{AllocError, Global};

/// The octets of the longest stream that is cut at each place.
const LONGEST: usize = 300;

/// The frames heard so far, in words.
#[derive(Drop)]
struct Ear {
    alloc: Global,
    deframer: Deframer,
    text: String,
}

impl Ear {
    /// Hears nothing yet.
    fn new(alloc: Global) -> Ear {
        Ear {
            alloc,
            deframer: Deframer::new(),
            text: String::new(alloc),
        }
    }

    /// Feeds a piece, until all of it is used.
    fn hear(&mut self, piece: &[u8]) -> Result<(), Stop> {
        let mut rest = piece;
        for _ in 0..piece.len() {
            let fed = self.deframer.feed(rest);
            let (_, behind) = rest.split_at(fed.used);
            rest = behind;
            if let Some(frame) = fed.frame {
                push_frame(&frame, &mut self.text)?;
            }
            if rest.is_empty() {
                return Ok(());
            }
        }
        if !piece.is_empty() {
            return Err(differs(self.alloc, "octets are left"));
        }
        Ok(())
    }

    /// Feeds octets one by one, each to a copy.
    fn hear_each(&mut self, octets: &[u8]) -> Result<(), Stop> {
        for octet in octets {
            self.deframer = self.deframer.copy();
            self.hear(&[*octet])?;
        }
        Ok(())
    }

    /// What is heard, and kept.
    fn told(self) -> Result<String, AllocError> {
        let Ear {
            deframer,
            mut text,
            ..
        } = self;
        if text.is_empty() {
            text.push('-')?;
        }
        if !deframer.kept().is_empty() {
            text.push_str(" kept ")?;
            push_octets(deframer.kept(), &mut text)?;
        }
        Ok(text)
    }
}

/// Appends a frame in words.
fn push_frame(frame: &Frame<'_>, out: &mut String) -> Result<(), AllocError> {
    push_mark(", ", out)?;
    write!(
        out,
        "{:?} to {} from {}",
        frame.frame_type, frame.destination, frame.source
    )?;
    if frame.data.is_empty() {
        return Ok(());
    }
    out.push_str(" data ")?;
    push_octets(frame.data, out)
}

/// What is heard of octets in these pieces.
fn heard(alloc: Global, pieces: &[&[u8]]) -> Result<String, Stop> {
    let mut ear = Ear::new(alloc);
    for piece in pieces {
        ear.hear(piece)?;
    }
    Ok(ear.told()?)
}

/// A stream, cut in every way.
struct Streams;

impl<'a> Trial<'a> for Streams {
    fn answer(&self, given: Given<'a>, octets: &[u8]) -> Result<String, Stop> {
        let told = heard(given.alloc, &[octets])?;
        let mut each = Ear::new(given.alloc);
        each.hear_each(octets)?;
        compare(each.told()?, told.as_str())?;
        if octets.len() <= LONGEST {
            for at in 0..octets.len() {
                let (first, last) = octets.split_at(at);
                compare(heard(given.alloc, &[first, last])?, told.as_str())?;
            }
        }
        Ok(told)
    }
}

/// What is heard of pieces and silences.
fn pieces(alloc: Global, words: &str) -> Result<String, Stop> {
    let mut ear = Ear::new(alloc);
    for word in words.split(' ') {
        match word {
            "." => ear.deframer.silence(),
            _ => ear.hear(octets(alloc, word)?.as_slice())?,
        }
    }
    Ok(ear.told()?)
}

/// Runs a row of octets that a silence cuts at each place, and that come whole then.
fn run_silence(alloc: Global, word: &str, wanted: &str) -> Result<Counts, Stop> {
    let octets = octets(alloc, word)?;
    for at in 1..octets.as_slice().len() {
        let (first, last) = octets.as_slice().split_at(at);
        let mut ear = Ear::new(alloc);
        ear.hear(first)?;
        ear.deframer.silence();
        ear.hear(last)?;
        compare(ear.told()?, "-")?;
    }
    run_text(heard(alloc, &[octets.as_slice()])?, wanted)
}

/// A frame that is written, and heard again.
#[derive(Clone, Copy)]
struct Written {
    frame_type: FrameType,
    destination: u8,
    source: u8,
}

impl<'a> Trial<'a> for Written {
    fn answer(&self, given: Given<'a>, octets: &[u8]) -> Result<String, Stop> {
        if octets.len() > profile::MAX_FRAME_DATA_OCTETS {
            return Err(Stop::Unread(Part::Octets));
        }
        let frame = Frame {
            frame_type: self.frame_type,
            destination: self.destination,
            source: self.source,
            data: octets,
        };
        let mut out = buffer(given)?;
        let came = write_frame(&frame, &mut out);
        let written = written_octets(given, came, out.as_slice())?;
        hear_again(given.alloc, written, &frame)?;
        Ok(octets_in_words(given.alloc, written)?)
    }
}

/// Hears the octets of a frame: that frame, and nothing else.
fn hear_again(alloc: Global, octets: &[u8], frame: &Frame<'_>) -> Result<(), Stop> {
    let mut asked = String::new(alloc);
    push_frame(frame, &mut asked)?;
    compare(heard(alloc, &[octets])?, asked.as_str())
}

/// Runs a row of a frame that is written: its type, destination, source and data.
fn run_written(given: Given<'_>, words: &str, wanted: &str) -> Result<Counts, Stop> {
    let (frame_type, rest) = two_words(words);
    let (destination, rest) = two_words(rest);
    let (source, data) = two_words(rest);
    let written = Written {
        frame_type: FrameType::from(small(frame_type)?),
        destination: small(destination)?,
        source: small(source)?,
    };
    run_octets(given, &written, data, wanted)
}

/// The check of a header, or of data.
enum Checks {
    Header,
    Data,
}

impl<'a> Trial<'a> for Checks {
    fn answer(&self, given: Given<'a>, octets: &[u8]) -> Result<String, Stop> {
        Ok(match self {
            Checks::Header => octets_in_words(given.alloc, &[header_check(octets)])?,
            Checks::Data => octets_in_words(given.alloc, &data_check(octets).to_le_bytes())?,
        })
    }
}

/// Runs a row.
pub(crate) fn run(given: Given<'_>, asked: &str, wanted: &str) -> Result<Counts, Stop> {
    match asked.split_once(' ') {
        None => run_octets(given, &Streams, asked, wanted),
        Some(("pieces", words)) => run_text(pieces(given.alloc, words)?, wanted),
        Some(("silence", word)) => run_silence(given.alloc, word, wanted),
        Some(("write", words)) => run_written(given, words, wanted),
        Some(("header", word)) => run_octets(given, &Checks::Header, word, wanted),
        Some(("data", word)) => run_octets(given, &Checks::Data, word, wanted),
        _ => Err(Stop::Unread(Part::Asked)),
    }
}
