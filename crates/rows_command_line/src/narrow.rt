//! Rows of a standard output that is full or closed: `full 121 bacsite sim p.toml live.script -> 1: ! LINES`, what is
//! told where it takes less octets than 121, whatever it takes. With 121 the status is 0, and nothing is told.

use crate::lines::Texts;
use command_line::{Output, ended, say_output_failure};
use sheets::{Counts, Part, Said, Stop, differs, number, run_text, two_words, words_of};
use std::alloc::{AllocError, Global};
use std::cell::Cell;
use std::io;
use std::io::{BufWriter, ErrorKind, Write};

/// A standard output that takes so many octets and no more.
#[derive(Drop)]
struct Narrow {
    room: usize,
    /// What a write behind them fails with.
    kind: ErrorKind,
}

impl Write for Narrow {
    fn write(&mut self, buf: &[u8]) -> io::Result<usize> {
        let taken = buf.len().min(self.room);
        if taken == 0 && !buf.is_empty() {
            return Err(self.kind.into());
        }
        self.room = self.room.saturating_sub(taken);
        Ok(taken)
    }

    fn flush(&mut self) -> io::Result<()> {
        Ok(())
    }
}

/// Runs a row.
///
/// # Errors
/// `Differs` where the row does not hold, and those of reading it.
pub(crate) fn run(alloc: Global, asked: &str, wanted: &str) -> Result<Counts, Stop> {
    let (word, asked) = two_words(asked);
    let kind = match word {
        "full" => ErrorKind::StorageFull,
        "closed" => ErrorKind::BrokenPipe,
        _ => return Err(Stop::Unread(Part::Asked)),
    };
    let (room, words) = two_words(asked);
    let room = number(room)? as usize;
    let words = words_of(alloc, words)?;
    for less in 0..room {
        let said = said_within(alloc, words.as_slice(), Narrow { room: less, kind })?;
        run_text(said.in_words(alloc)?, wanted)?;
    }
    let whole = said_within(alloc, words.as_slice(), Narrow { room, kind })?;
    if whole.status != 0 || !whole.err.is_empty() {
        return Err(differs(alloc, "it fails with room for all"));
    }
    Ok(Counts {
        rows: 1,
        ..Counts::none()
    })
}

/// What is told of a command line with this standard output, as the program does it.
fn said_within(alloc: Global, words: &[String], narrow: Narrow) -> Result<Said, AllocError> {
    let failure = Cell::new(None);
    let mut err = Vec::new(alloc);
    let mut out = match BufWriter::new(alloc, Output::new(narrow, &failure)) {
        Ok(out) => out,
        Err(_) => return Err(AllocError),
    };
    let status = command_line::run(
        None::<&HostRuntime>,
        alloc,
        words,
        &Texts,
        false,
        &mut out,
        &mut err,
    );
    let status = ended(status, out.flush(), &mut err);
    say_output_failure(status, &failure, false, &mut err);
    Ok(Said {
        status,
        out: Vec::new(alloc),
        err,
    })
}
