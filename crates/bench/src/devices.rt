//! A device on BACnet/IP (ANSI/ASHRAE 135, clauses 5.4.5, 15.5 and 15.7): decoding a request, answering it, and what
//! its objects take.

use crate::clock::{Clock, Often, Work};
use calls::{Answering, Reading, decode};
use std::alloc::{AllocError, Allocator, Global};
use std::io;

/// How often a call is made.
const OFTEN: Often = Often {
    few: 256,
    timed: 1_000_000,
};

/// How many objects the device has.
const OBJECTS: u16 = 8;

/// ReadProperty of the present value of Binary Value 1, from a client that takes segments.
const READ_PROPERTY: [u8; 17] = [
    0x81, 0x0A, 0x00, 0x11, 0x01, 0x04, 0x02, 0x65, 0x00, 0x0C, 0x0C, 0x01, 0x40, 0x00, 0x01, 0x19,
    0x55,
];

/// ReadPropertyMultiple of fourteen properties of it, seven twice.
const READ_MANY: [u8; 45] = [
    0x81, 0x0A, 0x00, 0x2D, 0x01, 0x04, 0x02, 0x65, 0x00, 0x0E, 0x0C, 0x01, 0x40, 0x00, 0x01, 0x1E,
    0x09, 0x4B, 0x09, 0x4D, 0x09, 0x4F, 0x09, 0x55, 0x09, 0x6F, 0x09, 0x24, 0x09, 0x51, 0x09, 0x4B,
    0x09, 0x4D, 0x09, 0x4F, 0x09, 0x55, 0x09, 0x6F, 0x09, 0x24, 0x09, 0x51, 0x1F,
];

/// ms between requests of which one answer is remembered.
const RARE: u64 = 13_001;

/// ms between requests of which 64 answers are remembered.
const DENSE: u64 = 205;

/// Decoding a datagram.
#[derive(Drop)]
struct Decoding {
    alloc: Global,
    datagram: [u8; 17],
}

impl Work for Decoding {
    fn go(&mut self, times: u64) -> Result<u64, AllocError> {
        Ok(decode(self.alloc, self.datagram.as_mut_slice(), times))
    }
}

/// Answering a datagram.
#[derive(Drop)]
struct Answers<A: Allocator + Copy>(Answering<A>);

impl<A: Allocator + Copy> Work for Answers<A> {
    fn go(&mut self, times: u64) -> Result<u64, AllocError> {
        self.0.go(times).map_err(|_| AllocError)
    }
}

/// Reading present values.
#[derive(Drop)]
struct Reads<A: Allocator + Copy>(Reading<A>);

impl<A: Allocator + Copy> Work for Reads<A> {
    fn go(&mut self, times: u64) -> Result<u64, AllocError> {
        self.0.go(times)
    }
}

/// Times the answer of a device of so many objects to a datagram each `gap` ms.
fn run_answer(clock: Clock<'_>, name: &str, datagram: &[u8], gap: u64) -> io::Result<()> {
    let answering = Answering::new(clock.alloc(), OBJECTS, datagram, gap).map_err(|_| AllocError)?;
    clock.tell(OFTEN, name, "octets said", &mut Answers(answering))
}

/// Times the reads of a table of so many objects.
fn run_reads(clock: Clock<'_>, objects: u16) -> io::Result<()> {
    let name = format!(in clock.alloc(); "read of one of {objects} objects")?;
    let reading = Reading::new(clock.alloc(), objects).map_err(|_| AllocError)?;
    clock.tell(OFTEN, name.as_str(), "values", &mut Reads(reading))
}

/// Times decoding a datagram.
fn run_decoding(clock: Clock<'_>) -> io::Result<()> {
    let mut decoding = Decoding {
        alloc: clock.alloc(),
        datagram: READ_PROPERTY,
    };
    let name = "ReadProperty decoded";
    clock.tell(OFTEN, name, "in sum", &mut decoding)
}

/// Times a device's calls, and prints them.
///
/// # Errors
/// Those of the clock and of printing, and want of memory.
pub(crate) fn run(clock: Clock<'_>) -> io::Result<()> {
    run_decoding(clock)?;
    run_answer(clock, "ReadProperty answered", &READ_PROPERTY, RARE)?;
    let remembering = "ReadProperty answered, 64 remembered";
    run_answer(clock, remembering, &READ_PROPERTY, DENSE)?;
    let many = "ReadPropertyMultiple of fourteen answered";
    run_answer(clock, many, &READ_MANY, RARE)?;
    run_reads(clock, 8)?;
    run_reads(clock, 512)
}
