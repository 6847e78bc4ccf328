//! The packets of a capture that comes in chunks, in bounded memory: the same as those of the whole file.

ghost use Rattle.std.specs.Prelude.{◌<◌, ◌≤◌, IfSome, length};

use crate::files::{MAX_BLOCK_OCTETS, START_OCTETS};
use crate::reading::{Item, Packet, Reading};
use std::alloc::{AllocError, Allocator};
use std::marker::Model;

/// The packet that is lent.
#[derive(Clone, Copy)]
enum Found {
    Nothing,
    /// The one in the item that begins after so many of the octets that are kept, and its number.
    Item(usize, u64),
    /// The one of a file that ends within it, by its number.
    Cut(u64),
}

/// A file of pcap or pcapng that comes in chunks. What is kept between two chunks is the beginning of a record or
/// block. A contract sees how many octets wait to be read.
#[derive(Drop)]
pub struct ChunkReader<A: Allocator> {
    kept: Vec<u8, A>,
    /// How many of the octets that are kept were read.
    read: usize,
    /// What is known of the file, once its start came.
    reading: Option<Reading<A>>,
    /// Whether no more packets come, whatever follows.
    is_over: bool,
    found: Found,
}

impl<A: Allocator> Model for ChunkReader<A> {
    ghost use Rattle.std.specs.Prelude.{ℕ, ◌-◌, vec_len};

    ghost Value = { ℕ };

    ghost view = { λ r. vec_len r.kept - r.read };
}

impl<A: Allocator + Copy> ChunkReader<A> {
    ghost use Rattle.std.specs.Prelude.{◌≡◌, ◌≤◌, ◌<◌, ◌+◌, true, false, IfOk, OnOk, OnErr, length};
    ghost use Rattle.std.specs.Bool.{OnTrue};

    /// A reader to which nothing came yet. Takes no memory.
    pub fn new(alloc: A) -> ChunkReader<A>
        ensures { result ≡ 0 }
    {
        ChunkReader {
            kept: Vec::new(alloc),
            read: 0,
            reading: None,
            is_over: false,
            found: Found::Nothing,
        }
    }

    /// Takes the next octets of the file; no packet is lent then. After an `Err` nothing came.
    ///
    /// # Errors
    /// Want of memory.
    pub fn feed(&mut self, chunk: &[u8]) -> Result<(), AllocError>
        ensures ok { OnOk result (self.new ≡ self.old + length chunk.now) }
        ensures err { OnErr result (self.new ≡ self.old) }
    {
        let mut kept = Vec::new(*self.kept.allocator());
        kept.extend_from_slice(self.rest())?;
        kept.extend_from_slice(chunk)?;
        self.kept = kept;
        self.read = 0;
        self.found = Found::Nothing;
        Ok(())
    }

    /// Moves to the next packet, which is lent then. Returns `false` where more octets are needed for it, or the file
    /// has come to its end: then few octets wait.
    ///
    /// # Errors
    /// Want of memory, for the list of interfaces. The same call may be made again then.
    pub fn advance(&mut self) -> Result<bool, AllocError>
        ensures shorter { IfOk result (λ found. found ≡ true → self.new < self.old) }
        ensures few { IfOk result (λ found. found ≡ false → self.new < MAX_BLOCK_OCTETS + 16) }
        ensures again { OnErr result (self.new ≤ self.old) }
    {
        self.found = Found::Nothing;
        if self.is_over {
            self.read = self.kept.len();
            return Ok(false);
        }
        if self.reading.is_none() {
            self.begin();
        }
        self.next_item()
    }

    /// Ends the file. Returns `true` where that is within a record or a block: then a packet for that cause is lent.
    pub fn end(&mut self) -> bool
        ensures { self.new ≡ 0 }
    {
        let is_cut = self.reading.is_some() && !self.is_over && !self.rest().is_empty();
        self.found = Found::Nothing;
        self.read = self.kept.len();
        self.is_over = true;
        if is_cut {
            self.found = self.cut();
        }
        is_cut
    }

    /// Whether a capture has begun.
    pub fn is_capture(&self) -> bool {
        self.reading.is_some()
    }

    /// Whether no more packets come, whatever follows.
    pub fn is_over(&self) -> bool {
        self.is_over
    }

    /// The packet that is lent.
    pub fn packet(&self) -> Option<Packet<'_>> {
        let reading = self.reading.as_ref()?;
        match self.found {
            Found::Nothing => None,
            Found::Item(at, number) => {
                let (item, _) = reading.front(self.kept.get(at..)?)?;
                Some(reading.packet_in(number, item))
            }
            Found::Cut(number) => Some(reading.cut_packet(number)),
        }
    }

    /// The octets that wait to be read.
    fn rest(&self) -> &[u8]
        ensures { length result.now ≡ self.now }
    {
        match self.kept.get(self.read..) {
            Some(rest) => rest,
            None => &[],
        }
    }

    /// Reads the start of the file, if it is there.
    fn begin(&mut self)
        ensures { self.new ≤ self.old }
    {
        let begun = begun_in(*self.kept.allocator(), self.rest());
        if let Some((reading, left)) = begun {
            self.read = self.kept.len() - left;
            self.reading = Some(reading);
        }
    }

    /// The packet of a file that ends within it.
    fn cut(&mut self) -> Found
        ensures { self.new ≡ self.old }
    {
        match &mut self.reading {
            Some(reading) => Found::Cut(reading.count_one()),
            None => Found::Nothing,
        }
    }

    /// Moves to the next item with a packet. A file ends where something follows that begins no item.
    fn next_item(&mut self) -> Result<bool, AllocError>
        ensures shorter { IfOk result (λ found. found ≡ true → self.new < self.old) }
        ensures few { IfOk result (λ found. found ≡ false → self.new < MAX_BLOCK_OCTETS + 16) }
        ensures again { OnErr result (self.new ≤ self.old) }
    {
        while let Some((item, behind)) = front_of(&self.reading, self.kept.as_slice(), self.read) {
            let number = note_in(&mut self.reading, item)?;
            let at = self.read;
            self.read = behind;
            if let Some(number) = number {
                self.found = Found::Item(at, number);
                return Ok(true);
            }
        }
        if self.is_cut() {
            return Ok(false);
        }
        Ok(self.end())
    }

    /// Whether more octets may complete what waits: then it is little.
    fn is_cut(&self) -> bool
        ensures few { OnTrue result (self.now < MAX_BLOCK_OCTETS + 16) }
        ensures some { result ≡ false → 0 < self.now }
    {
        match &self.reading {
            Some(reading) => reading.is_cut(self.rest()),
            None => self.rest().len() < START_OCTETS,
        }
    }
}

/// What is known of a file by its start, and how many octets follow that.
fn begun_in<A: Allocator>(alloc: A, octets: &[u8]) -> Option<(Reading<A>, usize)>
    ensures { IfSome result (λ x. x.1 ≤ length octets.now) }
{
    let (reading, rest) = Reading::of_start(alloc, octets)?;
    Some((reading, rest.len()))
}

/// The item at a place, and where what follows it begins.
fn front_of<'k, A: Allocator>(
    reading: &Option<Reading<A>>,
    kept: &'k [u8],
    at: usize,
) -> Option<(Item<'k>, usize)>
    ensures { IfSome result (λ x. (at < x.1) × (x.1 ≤ length kept.entry.now)) }
{
    let (item, rest) = reading.as_ref()?.front(kept.get(at..)?)?;
    Some((item, kept.len() - rest.len()))
}

/// Knows of the section or the interface that an item is about, if it is; gives the number of its packet, if it has
/// one.
fn note_in<A: Allocator>(
    reading: &mut Option<Reading<A>>,
    item: Item<'_>,
) -> Result<Option<u64>, AllocError> {
    let Some(reading) = reading else {
        return Ok(None);
    };
    reading.note(item)?;
    if item.has_packet() {
        return Ok(Some(reading.count_one()));
    }
    Ok(None)
}
