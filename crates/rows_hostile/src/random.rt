//! Random inputs, `COUNT SEED KIND FRONT`: so many of this seed, each a front and random octets behind it. One in
//! eight has up to 1400 of these, the others up to 63.
//!
//! - `octets 81`: as they are.
//! - `datagram 810A00000104`: with the length of the whole where a datagram of BACnet/IP has it.
//! - `frame 0104`: as the data of a frame of MS/TP with a random header, whose checks are right.
//! - `site network = [`, `script issue c 10 `: as a text, whose random octets have seven bits.

use crate::hearers::{Speaker, say_to_all};
use crate::texts::{Kind, read_text};
use crate::watched::{Hearer, Watched};
use bvll::HEADER_OCTETS;
use mstp_frame::{Frame, FrameType, write_frame};
use profile::MAX_FRAME_DATA_OCTETS;
use rand_core::{Rng, SeedableRng};
use rand_xoshiro::Xoshiro256PlusPlus;
use sheets::{Counts, Given, Part, Row, Stop, octets, two_words};
use std::alloc::{AllocError, Global};
use words::parse_number;

/// How random octets become an input.
#[derive(Clone, Copy)]
enum Shape {
    Octets,
    Datagram,
    Frame,
    Text(Kind),
}

/// The shape of this name.
fn shape_of(word: &str) -> Result<Shape, Stop> {
    match word {
        "octets" => Ok(Shape::Octets),
        "datagram" => Ok(Shape::Datagram),
        "frame" => Ok(Shape::Frame),
        "site" => Ok(Shape::Text(Kind::Site)),
        "script" => Ok(Shape::Text(Kind::Script)),
        _ => Err(Stop::Unread(Part::Asked)),
    }
}

/// Random inputs of a shape.
#[derive(Drop)]
struct Inputs {
    random: Xoshiro256PlusPlus,
    shape: Shape,
    front: Vec<u8>,
}

/// A row: how many inputs there are, and what they are made of.
#[derive(Clone, Copy)]
struct Seeded<'a, 'f> {
    given: Given<'a>,
    count: u64,
    seed: u64,
    shape: Shape,
    front: &'f [u8],
}

impl Seeded<'_, '_> {
    /// The inputs, from the first one on.
    fn inputs(&self) -> Result<Inputs, AllocError> {
        Ok(Inputs {
            random: Xoshiro256PlusPlus::seed_from_u64(self.seed),
            shape: self.shape,
            front: Vec::from_slice(self.given.alloc, self.front)?,
        })
    }
}

impl Speaker for Seeded<'_, '_> {
    fn say<H: Hearer>(&self, hearer: H) -> Result<(), Stop> {
        let alloc = self.given.alloc;
        let mut inputs = self.inputs()?;
        let mut watched = Watched::new(hearer)?;
        for _ in 0..self.count {
            watched.hear(alloc, inputs.next(alloc)?.as_slice())?;
        }
        watched.check(alloc)
    }
}

/// Runs a row.
///
/// # Errors
/// Those of an input, and `Unread` for a row that is none.
pub(crate) fn run(given: Given<'_>, row: &Row<'_>) -> Result<Counts, Stop> {
    let (count, rest) = two_words(row.asked);
    let (seed, rest) = two_words(rest);
    let (shape, words) = two_words(rest);
    let shape = shape_of(shape)?;
    let front = front_of(given.alloc, shape, words)?;
    let seeded = Seeded {
        given,
        count: parse_number(count)?,
        seed: parse_number(seed)?,
        shape,
        front: front.as_slice(),
    };
    match shape {
        Shape::Text(kind) => read_texts(&seeded, kind)?,
        Shape::Octets | Shape::Datagram | Shape::Frame => say_to_all(given, &seeded)?,
    }
    Ok(Counts {
        rows: 1,
        refused: 0,
        changed: seeded.count,
    })
}

/// The inputs are read as texts.
fn read_texts(seeded: &Seeded<'_, '_>, kind: Kind) -> Result<(), Stop> {
    let Given { alloc, memory, .. } = seeded.given;
    let mut inputs = seeded.inputs()?;
    for _ in 0..seeded.count {
        read_text(alloc, memory, kind, inputs.next(alloc)?.as_slice())?;
    }
    Ok(())
}

/// The octets of a front, `-` for none.
fn front_of(alloc: Global, shape: Shape, words: &str) -> Result<Vec<u8>, Stop> {
    match shape {
        Shape::Text(_) if words == "-" => Ok(Vec::new(alloc)),
        Shape::Text(_) => Ok(Vec::from_slice(alloc, words.as_bytes())?),
        Shape::Octets | Shape::Datagram | Shape::Frame => Ok(octets(alloc, words)?.into_vec()),
    }
}

impl Inputs {
    /// The next input.
    fn next(&mut self, alloc: Global) -> Result<Vec<u8>, Stop> {
        let mut input = Vec::from_slice(alloc, self.front.as_slice())?;
        match self.shape {
            Shape::Octets => push_random(&mut self.random, 0xFF, &mut input)?,
            Shape::Datagram => {
                push_random(&mut self.random, 0xFF, &mut input)?;
                put_length(&mut input);
            }
            Shape::Frame => {
                push_random(&mut self.random, 0xFF, &mut input)?;
                return framed(alloc, &mut self.random, input.as_slice());
            }
            Shape::Text(_) => push_random(&mut self.random, 0x7F, &mut input)?,
        }
        Ok(input)
    }
}

/// Appends random octets that have no other bits than these.
fn push_random(
    random: &mut Xoshiro256PlusPlus,
    bits: u8,
    out: &mut Vec<u8>,
) -> Result<(), AllocError> {
    let word = random.next_u32() as usize;
    let count = if word % 8 == 0 {
        word / 8 % 1400
    } else {
        word / 8 % 64
    };
    for at in 0..count / 8 + 1 {
        let many = if at < count / 8 { 8 } else { count % 8 };
        for octet in random.next_u64().to_be_bytes().iter().take(many) {
            out.push(*octet & bits)?;
        }
    }
    Ok(())
}

/// Puts the length of the whole where a datagram has it (J.2).
fn put_length(datagram: &mut Vec<u8>) {
    let length = datagram.len();
    if length >= HEADER_OCTETS {
        datagram[2] = (length / 256 % 256) as u8;
        datagram[3] = (length % 256) as u8;
    }
}

/// A frame with these data, or as many of them as a frame may have.
fn framed(alloc: Global, random: &mut Xoshiro256PlusPlus, data: &[u8]) -> Result<Vec<u8>, Stop> {
    let data = data.get(..MAX_FRAME_DATA_OCTETS).unwrap_or(data);
    if data.len() > MAX_FRAME_DATA_OCTETS {
        return Err(Stop::Unread(Part::Octets));
    }
    let [frame_type, destination, source, _] = random.next_u32().to_be_bytes();
    let frame = Frame {
        frame_type: FrameType::from(frame_type),
        destination,
        source,
        data,
    };
    let mut out = Vec::new(alloc);
    write_frame(&frame, &mut out)?;
    Ok(out)
}
