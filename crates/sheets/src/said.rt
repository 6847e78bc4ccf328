//! What a program leaves behind, in words; words as a command line has them; and output that fails.

use crate::digits::number;
use crate::stop::{Stop, differs};
use std::alloc::{AllocError, Global};
use std::io;
use std::io::Write;

/// How often a line stands that is written with its count.
const MANY_LINES: u64 = 24;

/// What a program leaves behind.
#[derive(Drop)]
pub struct Said {
    /// Its exit status.
    pub status: u8,
    /// What it printed on standard output.
    pub out: Vec<u8>,
    /// What it printed on standard error.
    pub err: Vec<u8>,
}

impl Said {
    /// `STATUS: LINES ! LINES`, the second lines where there are any; a long run of the same line stands once, with its
    /// count.
    ///
    /// # Errors
    /// `Memory`, and `Differs` where what was printed is no text.
    pub fn in_words(&self, alloc: Global) -> Result<String, Stop> {
        let mut words = String::new(alloc);
        write!(words, "{}:", self.status)?;
        push_text(self.out.as_slice(), &mut words)?;
        if !self.err.is_empty() {
            words.push_str(" !")?;
            push_text(self.err.as_slice(), &mut words)?;
        }
        Ok(words)
    }
}

/// Appends a text, which ends with a line end, as its lines.
fn push_text(text: &[u8], words: &mut String) -> Result<(), Stop> {
    let Ok(text) = std::str::from_utf8(text) else {
        return Err(differs(*words.allocator(), "what is no text"));
    };
    if !text.is_empty() && !text.ends_with('\n') {
        return Err(differs(*words.allocator(), "a line without its end"));
    }
    push_lines(text, words)?;
    Ok(())
}

/// Appends lines with ` / ` between them, each of a long run of the same line only once, with its count.
fn push_lines(text: &str, words: &mut String) -> Result<(), AllocError> {
    let mut run = Run {
        line: "",
        count: 0,
        is_first: true,
    };
    for line in text.lines() {
        if run.line != line {
            run.push(words)?;
            run = Run {
                line,
                count: 0,
                is_first: run.is_first && run.count == 0,
            };
        }
        run.count = run.count.saturating_add(1);
    }
    run.push(words)
}

/// A line, how often it stands, and whether it is the first.
#[derive(Clone, Copy)]
struct Run<'b> {
    line: &'b str,
    count: u64,
    is_first: bool,
}

impl Run<'_> {
    /// Appends the run.
    fn push(self, words: &mut String) -> Result<(), AllocError> {
        if self.count >= MANY_LINES {
            return write!(words, "{}{}*{}", mark(self.is_first), self.line, self.count);
        }
        for at in 0..self.count {
            write!(words, "{}{}", mark(self.is_first && at == 0), self.line)?;
        }
        Ok(())
    }
}

/// What stands before a line.
fn mark(is_first: bool) -> &'static str {
    if is_first { " " } else { " / " }
}

/// Words that are parted by single spaces; `3E*700` stands for as many.
///
/// # Errors
/// `Unread` where a count is none, and `Memory`.
pub fn words_of(alloc: Global, text: &str) -> Result<Vec<String>, Stop> {
    let mut words = Vec::new(alloc);
    for word in text.split(' ') {
        push_word(alloc, word, &mut words)?;
    }
    Ok(words)
}

/// Appends a word as often as it stands.
fn push_word(alloc: Global, word: &str, words: &mut Vec<String>) -> Result<(), Stop> {
    let (word, count) = match word.split_once('*') {
        Some((word, count)) => (word, number(count)?),
        None => (word, 1),
    };
    for _ in 0..count {
        words.push(String::from_str(alloc, word)?)?;
    }
    Ok(())
}

/// A writer that fails once so many octets were written.
#[derive(Drop)]
pub struct Full {
    room: usize,
}

impl Write for Full {
    fn write(&mut self, buf: &[u8]) -> io::Result<usize> {
        if self.room < buf.len() {
            return Err(io::ErrorKind::BrokenPipe.into());
        }
        self.room -= buf.len();
        Ok(buf.len())
    }

    fn flush(&mut self) -> io::Result<()> {
        Ok(())
    }
}

/// What prints and answers an exit status.
pub trait Printing {
    /// The exit status, where these outputs take what they take.
    ///
    /// # Errors
    /// Those of reading a row.
    fn status(&self, out: &mut Full, err: &mut Full) -> Result<u8, Stop>;
}

/// The exit status where standard output has room for so many octets, and standard error for none.
///
/// # Errors
/// `Differs` where it is another than 1 with less room, and those of reading a row.
pub fn status_within<P: Printing>(alloc: Global, printing: &P, room: usize) -> Result<u8, Stop> {
    for less in 0..room {
        if status_at(printing, less)? != 1 {
            return Err(differs(alloc, "another status than 1 with less room"));
        }
    }
    status_at(printing, room)
}

/// The exit status where standard output has this room.
fn status_at<P: Printing>(printing: &P, room: usize) -> Result<u8, Stop> {
    let mut out = Full { room };
    let mut err = Full { room: 0 };
    printing.status(&mut out, &mut err)
}
