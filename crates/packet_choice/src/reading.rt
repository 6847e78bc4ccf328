//! A capture that is read to its end, chunk by chunk.

use captures::{ChunkReader, Packet};
use std::alloc::{AllocError, AllocFailed, Allocator};
use std::io;
use std::io::{ErrorKind, Read};

/// The most octets that are read at a time.
const CHUNK_OCTETS: usize = 16_384;

/// Why a capture isn't read to its end.
#[derive(Debug, Drop)]
pub enum Failure {
    /// It can't be read, or memory is wanting.
    Reading(io::Error),
    /// What was found can't be printed.
    Writing(io::Error),
}

impl From<AllocError> for Failure {
    fn from(error: AllocError) -> Failure {
        Failure::Reading(io::Error::from(error))
    }
}

impl<T: Drop> From<AllocFailed<T>> for Failure {
    fn from(_error: AllocFailed<T>) -> Failure {
        Failure::from(AllocError)
    }
}

/// Takes the packets of a capture.
pub trait Taker {
    /// Takes the next packet.
    ///
    /// # Errors
    /// Want of memory, and those of printing.
    fn take(&mut self, packet: &Packet<'_>) -> Result<(), Failure>;
}

/// Reads a file of pcap or pcapng to its end, in bounded memory, and gives each packet. Returns `false` where it is
/// none of both.
///
/// # Errors
/// Those of reading, of whoever takes the packets, and want of memory.
pub fn read_packets<A: Allocator + Copy, R: Read, T: Taker>(
    alloc: A,
    input: &mut R,
    taker: &mut T,
) -> Result<bool, Failure> {
    let mut reader = ChunkReader::new(alloc);
    let mut chunk = [0u8; CHUNK_OCTETS];
    for _ in 0..u64::MAX {
        let count = match read_some(input, &mut chunk) {
            Ok(count) => count,
            Err(error) => return Err(Failure::Reading(error)),
        };
        if count == 0 || reader.is_over() {
            break;
        }
        if let Some(octets) = chunk.get(..count) {
            reader.feed(octets)?;
        }
        take_all(&mut reader, taker)?;
    }
    if reader.end() {
        take_lent(&reader, taker)?;
    }
    Ok(reader.is_capture())
}

/// Reads some octets, none at the end alone; a read that was interrupted is made again.
fn read_some<R: Read>(input: &mut R, chunk: &mut [u8]) -> io::Result<usize> {
    for _ in 0..u64::MAX {
        match input.read(chunk) {
            Err(error) if error.kind() == ErrorKind::Interrupted => {}
            read => return read,
        }
    }
    Ok(0)
}

/// Takes all packets that came whole.
fn take_all<A: Allocator + Copy, T: Taker>(
    reader: &mut ChunkReader<A>,
    taker: &mut T,
) -> Result<(), Failure> {
    while reader.advance()? {
        take_lent(reader, taker)?;
    }
    Ok(())
}

/// Takes the packet that is lent.
fn take_lent<A: Allocator + Copy, T: Taker>(
    reader: &ChunkReader<A>,
    taker: &mut T,
) -> Result<(), Failure> {
    match reader.packet() {
        Some(packet) => taker.take(&packet),
        None => Ok(()),
    }
}
