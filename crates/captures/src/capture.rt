//! The packets of a capture in memory, one behind the other.

use crate::reading::{Packet, Reading};
use std::alloc::{AllocError, Allocator};
use std::marker::Model;

/// The packets of a file of pcap or pcapng that are still to come.
#[derive(Drop)]
pub struct Capture<'a, A: Allocator> {
    rest: &'a [u8],
    reading: Reading<A>,
}

/// What of the file is still to come.
impl<'a, A: Allocator> Model for Capture<'a, A> {
    ghost use Rattle.std.specs.Prelude.{ℕ, List};

    ghost Value = { List ℕ };

    ghost view = { λ c. c.rest.now };
}

impl<'a, A: Allocator> Capture<'a, A> {
    ghost use Rattle.std.specs.Prelude.{◌≡◌, ◌≤◌, ◌<◌, [], IfOk, OnErr, IfSome, IfNone, length};

    /// The packets of a file of pcap, with stamps in micro- or nanoseconds, or pcapng, in either order of octets;
    /// `None` where the octets begin none. Takes no memory.
    pub fn of_file(alloc: A, octets: &'a [u8]) -> Option<Capture<'a, A>> {
        let (reading, rest) = Reading::of_start(alloc, octets)?;
        Some(Capture { rest, reading })
    }

    /// The next packet, and `None` at the end of the file. Each shortens what is still to come, so the end is reached.
    /// A file that is cut, or says a length that can't be, ends with a packet for that cause.
    ///
    /// # Errors
    /// Want of memory, for the list of interfaces. The same call may be made again then.
    pub fn next(&mut self) -> Result<Option<Packet<'a>>, AllocError>
        ensures shorter { IfOk result (λ packet. IfSome packet (λ _. length self.new < length self.old)) }
        ensures end { IfOk result (λ packet. IfNone packet (self.new ≡ [])) }
        ensures again { OnErr result (length self.new ≤ length self.old) }
    {
        while let Some((item, rest)) = self.reading.front(self.rest) {
            self.reading.note(item)?;
            self.rest = rest;
            if item.has_packet() {
                let number = self.reading.count_one();
                return Ok(Some(self.reading.packet_in(number, item)));
            }
        }
        Ok(self.last_packet())
    }

    /// The packet of a file that ends within it, and `None` at its end.
    fn last_packet(&mut self) -> Option<Packet<'a>>
        ensures shorter { IfSome result (λ _. length self.new < length self.old) }
        ensures end { self.new ≡ [] }
    {
        match self.rest {
            [] => None,
            [_, ..] => {
                self.rest = &[];
                let number = self.reading.count_one();
                Some(self.reading.cut_packet(number))
            }
        }
    }
}
