//! A file that is made when something is written into it first.

use crate::files::Files;
use std::cell::Cell;
use std::io;
use std::io::{ErrorKind, Write};

/// A file that isn't there, or stays as it is, until something is written. A piece that can't be written whole is not
/// in it, unless it is a pipe or a device; why it can't be is kept for who tells it.
#[derive(Drop)]
pub struct LateFile<'f, F: Files> {
    files: &'f F,
    name: &'f str,
    /// Why the last piece could not be written.
    failure: &'f Cell<Option<io::Error>>,
    file: Option<F::File>,
    /// How many octets it has.
    length: u64,
}

impl<'f, F: Files> LateFile<'f, F> {
    /// A file of this name. What fails is put into `failure`.
    pub fn new(
        files: &'f F,
        name: &'f str,
        failure: &'f Cell<Option<io::Error>>,
    ) -> LateFile<'f, F> {
        LateFile {
            files,
            name,
            failure,
            file: None,
            length: 0,
        }
    }

    /// Writes a piece, all of it or nothing.
    fn write_piece(&mut self, piece: &[u8]) -> io::Result<()> {
        let mut file = match self.file.take() {
            Some(file) => file,
            None => self.files.create(self.name)?,
        };
        let written = write_whole(&mut file, piece);
        if written.is_err() {
            let _ = self.files.cut(&mut file, self.length);
        } else {
            self.length = self.length.saturating_add(piece.len() as u64);
        }
        self.file = Some(file);
        written
    }
}

/// Writes a piece on its way out.
fn write_whole<W: Write>(file: &mut W, piece: &[u8]) -> io::Result<()> {
    file.write_all(piece)?;
    file.flush()
}

// It holds nothing that a contract could speak of.
impl<F: Files> Write for LateFile<'_, F> {
    fn write(&mut self, buf: &[u8]) -> io::Result<usize> {
        match self.write_piece(buf) {
            Ok(()) => Ok(buf.len()),
            Err(error) => {
                let kind = error.kind();
                self.failure.set(Some(error));
                Err(kind.into())
            }
        }
    }

    fn flush(&mut self) -> io::Result<()> {
        Ok(())
    }
}
