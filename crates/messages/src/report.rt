//! A message with its place.

use crate::excerpt::Excerpt;
use std::fmt::Display;
use std::io;
use std::io::Write;

/// How the faults of a file are told.
#[derive(Clone, Copy, Debug)]
pub struct Report<'a> {
    /// The name of the file.
    pub file: &'a str,
    /// Whether places are bold and carets red, as terminals do it.
    pub in_colour: bool,
}

impl Report<'_> {
    /// Tells a message of a place: `plant.toml:12:3: ` and the message, the line, and a caret under the column.
    ///
    /// # Errors
    /// A failed write.
    pub fn tell<M: Display, W: Write>(
        &self,
        excerpt: &Excerpt<'_>,
        message: &M,
        out: &mut W,
    ) -> io::Result<()> {
        let Excerpt { number, .. } = *excerpt;
        let column = excerpt.column();
        let file = self.file;
        if self.in_colour {
            writeln!(out, "\x1b[1m{file}:{number}:{column}:\x1b[0m {message}")?;
        } else {
            writeln!(out, "{file}:{number}:{column}: {message}")?;
        }
        excerpt.write(out)?;
        out.write_all(if self.in_colour {
            b"\x1b[1;31m^\x1b[0m\n"
        } else {
            b"^\n"
        })
    }

    /// Tells a message of the whole file: `plant.toml: ` and the message.
    ///
    /// # Errors
    /// A failed write.
    pub fn tell_whole<M: Display, W: Write>(&self, message: &M, out: &mut W) -> io::Result<()> {
        if self.in_colour {
            writeln!(out, "\x1b[1m{}:\x1b[0m {message}", self.file)
        } else {
            writeln!(out, "{}: {message}", self.file)
        }
    }
}
