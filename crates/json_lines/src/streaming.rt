//! Lines that are turned as they are printed.

ghost use Rattle.std.specs.Prelude.{◌≤◌, length};

use crate::writing::{Kind, write_json};
use std::alloc::Allocator;
use std::io;
use std::io::Write;

/// Takes lines as they are printed, and writes on another writer an object for each that has its end. A line without
/// its end waits for it.
#[derive(Drop)]
pub struct JsonOut<W: Write + Drop, A: Allocator + Copy> {
    alloc: A,
    kind: Kind,
    out: W,
    /// The line that has no end yet.
    begun: Vec<u8, A>,
}

impl<W: Write + Drop, A: Allocator + Copy> JsonOut<W, A> {
    /// Lines of a kind go to `out`. The line that has no end yet lies in memory of `alloc`.
    pub fn new(alloc: A, kind: Kind, out: W) -> Self {
        JsonOut {
            alloc,
            kind,
            out,
            begun: Vec::new(alloc),
        }
    }

    /// Writes the lines that have their ends; what stands behind them stays.
    fn write_lines(&mut self) -> io::Result<()> {
        let end = end_of_lines(self.begun.as_slice());
        if end == 0 {
            return Ok(());
        }
        let rest = Vec::from_slice(self.alloc, &self.begun[end..])?;
        write_json(self.alloc, self.kind, &self.begun[..end], &mut self.out)?;
        self.begun = rest;
        Ok(())
    }
}

/// Where the last line ends that has its end.
fn end_of_lines(begun: &[u8]) -> usize
    ensures { result ≤ length begun.now }
{
    match begun.iter().rposition(|octet| *octet == b'\n') {
        Some(at) => at + 1,
        None => 0,
    }
}

// It holds nothing that a contract could speak of: what a line becomes isn't proved.
impl<W: Write + Drop, A: Allocator + Copy> Write for JsonOut<W, A> {
    fn write(&mut self, buf: &[u8]) -> io::Result<usize> {
        self.begun.extend_from_slice(buf)?;
        self.write_lines()?;
        Ok(buf.len())
    }

    fn flush(&mut self) -> io::Result<()> {
        self.out.flush()
    }
}
