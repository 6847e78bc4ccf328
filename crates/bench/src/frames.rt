//! MS/TP frames (ANSI/ASHRAE 135, clause 9.3, Annex G): the check of data, and hearing a frame in pieces.

use crate::clock::{Clock, Often, Work};
use mstp_frame::{Deframer, Frame, FrameType, data_check, write_frame};
use std::alloc::{AllocError, Global};
use std::io;

/// How often a call is made.
const OFTEN: Often = Often {
    few: 100,
    timed: 20_000,
};

/// The octets of data.
const OCTETS: usize = 500;

/// The octets of each piece in which a frame comes.
const PIECES: [usize; 3] = [512, 32, 1];

/// So many octets of which neighbours differ.
fn octets(alloc: Global) -> Result<Vec<u8>, AllocError> {
    let mut octets = Vec::new(alloc);
    for at in 0..OCTETS {
        octets.push((at % 251) as u8)?;
    }
    Ok(octets)
}

/// The check of data.
#[derive(Drop)]
struct Checking(Vec<u8>);

impl Work for Checking {
    fn go(&mut self, times: u64) -> Result<u64, AllocError> {
        let mut sum = 0u64;
        for round in 0..times {
            if let Some(first) = self.0.as_mut_slice().first_mut() {
                *first = (round % 256) as u8;
            }
            sum = sum.wrapping_add(u64::from(data_check(self.0.as_slice())));
        }
        Ok(sum)
    }
}

/// Hearing a frame in pieces of so many octets.
#[derive(Drop)]
struct Hearing {
    deframer: Deframer,
    octets: Vec<u8>,
    piece: usize,
}

impl Hearing {
    /// A frame with data, in pieces.
    fn new(alloc: Global, piece: usize) -> io::Result<Hearing> {
        let data = octets(alloc)?;
        let frame = Frame {
            frame_type: FrameType::BacnetDataNotExpectingReply,
            destination: 16,
            source: 5,
            data: data.as_slice(),
        };
        let mut octets = Vec::new(alloc);
        if frame.data.len() > profile::MAX_FRAME_DATA_OCTETS
            || write_frame(&frame, &mut octets).is_err()
        {
            return Err(io::Error::from(AllocError));
        }
        Ok(Hearing {
            deframer: Deframer::new(),
            octets,
            piece,
        })
    }
}

impl Work for Hearing {
    fn go(&mut self, times: u64) -> Result<u64, AllocError> {
        let mut heard = 0u64;
        for _ in 0..times {
            let mut rest = self.octets.as_slice();
            for _ in 0..self.octets.len() {
                let (piece, behind) = rest.split_at(rest.len().min(self.piece.max(1)));
                if let Some(frame) = self.deframer.feed(piece).frame {
                    heard = heard.saturating_add(frame.data.len() as u64);
                }
                rest = behind;
                if rest.is_empty() {
                    break;
                }
            }
        }
        Ok(heard)
    }
}

/// Times the check of data.
fn run_check(clock: Clock<'_>) -> io::Result<()> {
    let mut checking = Checking(octets(clock.alloc())?);
    let name = format!(in clock.alloc(); "data_check of {OCTETS} octets")?;
    clock.tell(OFTEN, name.as_str(), "in sum", &mut checking)
}

/// Times hearing a frame in pieces of so many octets.
fn run_hearing(clock: Clock<'_>, piece: usize) -> io::Result<()> {
    let mut hearing = Hearing::new(clock.alloc(), piece)?;
    let name = format!(in clock.alloc(); "feed in pieces of {piece}")?;
    clock.tell(OFTEN, name.as_str(), "octets heard", &mut hearing)
}

/// Times the check of data, and hearing a frame.
///
/// # Errors
/// Those of the clock and of printing, and want of memory.
pub(crate) fn run(clock: Clock<'_>) -> io::Result<()> {
    run_check(clock)?;
    for piece in PIECES {
        run_hearing(clock, piece)?;
    }
    Ok(())
}
