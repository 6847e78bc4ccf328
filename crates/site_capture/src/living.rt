//! A live run, and what each of its turns puts out.

use crate::hosts::put_names;
use crate::putting::{Seen, networks, put_behind, put_datagram};
use captures::write_start;
use site_live::{Got, Internetwork, Observer};
use std::alloc::Allocator;
use std::io;
use std::io::{ErrorKind, Write};
use tags::Fault;

/// A capture of a live run, which looks on at it, and writes a file of pcapng as the run goes on: behind each turn the
/// datagram that a stranger sent and a station heard, if there was one, and each datagram and each frame that was put
/// out. Whatever ends the run, the file has all turns before.
#[derive(Drop)]
pub struct LiveCapture<W: Write + Drop, A: Allocator> {
    alloc: A,
    file: W,
    /// Whether the file has its beginning.
    is_begun: bool,
    seen: Seen,
}

impl<W: Write + Drop, A: Allocator + Copy> LiveCapture<W, A> {
    /// A capture into an empty file. What a turn adds lies in memory of `alloc` until it is written.
    pub fn new(alloc: A, file: W) -> Self {
        LiveCapture {
            alloc,
            file,
            is_begun: false,
            seen: Seen::nothing(),
        }
    }

    /// Lets go of the capture, and gives the file back.
    pub fn into_file(self) -> W {
        let LiveCapture { file, .. } = self;
        file
    }

    /// Appends what the file lacks behind a turn.
    fn put_turn(
        &self,
        site: &Internetwork<A>,
        stray: Option<Got<'_>>,
        more: &mut Vec<u8, A>,
    ) -> Result<(), Fault> {
        if !self.is_begun {
            let networks = networks(self.alloc, site.buses().buses.as_slice())?;
            write_start(networks.as_slice(), more)?;
            put_names(self.alloc, site.site().stations(), more)?;
        }
        if let Some(Got { from, to, octets }) = stray {
            put_datagram(from, to, octets, site.moment(), "", more)?;
        }
        put_behind(self.alloc, self.seen, site, more)
    }
}

impl<W: Write + Drop, A: Allocator + Copy> Observer<A> for LiveCapture<W, A> {
    fn see(&mut self, site: &Internetwork<A>, stray: Option<Got<'_>>) -> io::Result<()> {
        let mut more = Vec::new(self.alloc);
        if let Err(fault) = self.put_turn(site, stray, &mut more) {
            return Err(error_of(fault));
        }
        self.is_begun = true;
        self.seen = Seen::all(site);
        if more.is_empty() {
            return Ok(());
        }
        self.file.write_all(more.as_slice())?;
        self.file.flush()
    }
}

/// The error of writing that a refusal is.
fn error_of(fault: Fault) -> io::Error {
    if fault == Fault::Memory {
        return ErrorKind::OutOfMemory.into();
    }
    ErrorKind::InvalidData.into()
}
