//! Standard output, and why it failed.

use crate::telling::beginning;
use std::cell::Cell;
use std::io;
use std::io::{ErrorKind, Write};

/// A writer that keeps why it failed, for who tells it.
#[derive(Drop)]
pub struct Output<'f, W: Write + Drop> {
    out: W,
    failure: &'f Cell<Option<io::Error>>,
}

impl<'f, W: Write + Drop> Output<'f, W> {
    /// A writer on `out`. Its last error is put into `failure`.
    pub fn new(out: W, failure: &'f Cell<Option<io::Error>>) -> Output<'f, W> {
        Output { out, failure }
    }
}

/// Keeps an error, and gives one of its kind; a write that was interrupted is made again.
fn kept(error: io::Error, failure: &Cell<Option<io::Error>>) -> io::Error {
    let kind = error.kind();
    if kind != ErrorKind::Interrupted {
        failure.set(Some(error));
    }
    kind.into()
}

// It holds nothing that a contract could speak of.
impl<W: Write + Drop> Write for Output<'_, W> {
    fn write(&mut self, buf: &[u8]) -> io::Result<usize> {
        match self.out.write(buf) {
            Ok(count) => Ok(count),
            Err(error) => Err(kept(error, self.failure)),
        }
    }

    fn flush(&mut self) -> io::Result<()> {
        match self.out.flush() {
            Ok(()) => Ok(()),
            Err(error) => Err(kept(error, self.failure)),
        }
    }
}

/// Tells why standard output failed, if it did and the exit status is of that: one that isn't 0.
pub fn say_output_failure<E: Write>(
    status: u8,
    failure: &Cell<Option<io::Error>>,
    in_colour: bool,
    err: &mut E,
) {
    match failure.take() {
        Some(error) if status != 0 && error.kind() != ErrorKind::OutOfMemory => {
            let beginning = beginning(in_colour);
            let _ = writeln!(err, "{beginning} standard output: {error}");
        }
        Some(_) | None => {}
    }
}
