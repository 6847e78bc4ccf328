//! What is read of a file that comes in chunks: the same as of the whole, at each size of chunks from 1 to 16. With
//! those of 16 octets that holds also where an allocation is refused, as the call that says so is made again, and of
//! each prefix of the file, and with each of its octets changed.
//!
//! And when packets were captured: `when FILE -> 100.000001; -`, in seconds, `-` where the file doesn't say.

ghost use Rattle.std.specs.Prelude.{◌≡◌, ◌<◌, true, IfOk};

use crate::pieces::octets_of;
use crate::reading::{push_packet, text_of};
use captures::{ChunkReader, Packet};
use sheets::{Counts, Given, Row, Stop, Trial, change_octets, compare, push_mark, try_row};
use std::alloc::{AllocError, Allocator};

/// The greatest size of chunks.
const MOST: usize = 16;

/// Reads a file in chunks of each size.
pub(crate) fn run(given: Given<'_>, file: &[u8], wanted: &str) -> Result<Counts, Stop> {
    for size in 1..MOST {
        compare(Chunked { size }.answer(given, file)?, wanted)?;
    }
    let chunked = Chunked { size: MOST };
    let counts = try_row(given, &chunked, file, wanted)?;
    let changed = change_octets(given, &chunked, file)?;
    Ok(Counts {
        rows: 0,
        changed,
        ..counts
    })
}

/// Runs a row of when the packets of a file were captured.
pub(crate) fn run_moments(
    given: Given<'_>,
    rows: &[Row<'_>],
    words: &str,
    wanted: &str,
) -> Result<Counts, Stop> {
    let file = octets_of(given.alloc, rows, words)?;
    try_row(given, &Moments, file.as_slice(), wanted)
}

/// A file that comes in chunks of this size.
#[derive(Clone, Copy)]
struct Chunked {
    size: usize,
}

impl<'a> Trial<'a> for Chunked {
    fn answer(&self, given: Given<'a>, octets: &[u8]) -> Result<String, Stop> {
        let mut out = String::new(given.alloc);
        let is_refused = read_chunks(given, self.size, octets, Told::Packets, &mut out)?;
        let (whole, _) = text_of(given, given.other, octets)?;
        if out.as_str() != whole.as_str() {
            return Err(Stop::Differs(out));
        }
        if is_refused {
            return Err(Stop::Memory);
        }
        Ok(out)
    }
}

/// What is printed of a packet.
#[derive(Clone, Copy)]
enum Told {
    /// What it carries.
    Packets,
    /// When it was captured.
    Moments,
}

/// When the packets of a file were captured.
#[derive(Clone, Copy)]
struct Moments;

impl<'a> Trial<'a> for Moments {
    fn answer(&self, given: Given<'a>, octets: &[u8]) -> Result<String, Stop> {
        let mut out = String::new(given.alloc);
        if read_chunks(given, MOST, octets, Told::Moments, &mut out)? {
            return Err(Stop::Memory);
        }
        Ok(out)
    }
}

/// Appends when a packet was captured, in seconds.
fn push_moment(packet: Packet<'_>, out: &mut String) -> Result<(), AllocError> {
    push_mark("; ", out)?;
    match packet.microseconds {
        Some(moment) => write!(out, "{}.{:06}", moment / 1_000_000, moment % 1_000_000),
        None => out.push('-'),
    }
}

/// Appends what is printed of the packets of a file that comes in chunks of this size. Returns whether memory was
/// refused; then the call was made again.
fn read_chunks(
    given: Given<'_>,
    size: usize,
    octets: &[u8],
    told: Told,
    out: &mut String,
) -> Result<bool, Stop> {
    let mut reader = ChunkReader::new(given.memory);
    let mut is_refused = false;
    for chunk in octets.chunks(size.max(1)) {
        if reader.feed(chunk).is_err() {
            is_refused = true;
            reader.feed(chunk)?;
        }
        is_refused = push_packets(&mut reader, told, out)? || is_refused;
    }
    if reader.end() {
        push_lent(&reader, told, out)?;
    }
    if !reader.is_capture() {
        out.push_str("none")?;
    } else if out.is_empty() {
        out.push_str("nothing")?;
    }
    Ok(is_refused)
}

/// Appends what is printed of the packets that have come. Returns whether memory was refused.
fn push_packets<A: Allocator + Copy>(
    reader: &mut ChunkReader<A>,
    told: Told,
    out: &mut String,
) -> Result<bool, Stop> {
    let mut is_refused = false;
    while advance_again(reader, &mut is_refused)? {
        push_lent(reader, told, out)?;
    }
    Ok(is_refused)
}

/// Moves to the next packet. Where memory is refused, that is noted, and the call is made again.
fn advance_again<A: Allocator + Copy>(
    reader: &mut ChunkReader<A>,
    is_refused: &mut bool,
) -> Result<bool, AllocError>
    ensures { IfOk result (λ found. found ≡ true → reader.new < reader.old) }
{
    match reader.advance() {
        Ok(found) => Ok(found),
        Err(_) => {
            *is_refused = true;
            reader.advance()
        }
    }
}

/// Appends what is printed of the packet that is lent.
fn push_lent<A: Allocator + Copy>(
    reader: &ChunkReader<A>,
    told: Told,
    out: &mut String,
) -> Result<(), AllocError> {
    match reader.packet() {
        Some(packet) => match told {
            Told::Packets => push_packet(packet, out),
            Told::Moments => push_moment(packet, out),
        },
        None => out.push_str("no packet"),
    }
}
