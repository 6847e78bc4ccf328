//! A page of sections with rows, as text or as Markdown.

use std::fmt::Display;
use std::io;
use std::io::Write;

/// How a page is written.
#[derive(Clone, Copy, Debug, PartialEq, Eq)]
pub enum Form {
    /// Plain text.
    Text,
    /// Markdown, whose rows are those of tables.
    Markdown,
}

impl Form {
    /// Writes the title of the page.
    pub(crate) fn write_title<W: Write>(self, title: &str, out: &mut W) -> io::Result<()> {
        match self {
            Form::Text => writeln!(out, "{title}"),
            Form::Markdown => writeln!(out, "# {title}"),
        }
    }

    /// Writes the title of a section, behind which its rows stand.
    pub(crate) fn write_section<W: Write>(self, title: &str, out: &mut W) -> io::Result<()> {
        match self {
            Form::Text => writeln!(out, "\n{title}"),
            Form::Markdown => writeln!(out, "\n## {title}\n\n| | |\n|---|---|"),
        }
    }

    /// Writes a row: what it is about, and what is said of that.
    pub(crate) fn write_row<W: Write>(
        self,
        label: &str,
        value: &str,
        out: &mut W,
    ) -> io::Result<()> {
        match self {
            Form::Text => writeln!(out, "  {label}: {value}"),
            Form::Markdown => writeln!(out, "| {label} | {value} |"),
        }
    }

    /// Writes a row with what is no text yet.
    pub(crate) fn write_shown<T: Display, W: Write>(
        self,
        label: &str,
        value: &T,
        out: &mut W,
    ) -> io::Result<()> {
        match self {
            Form::Text => writeln!(out, "  {label}: {value}"),
            Form::Markdown => writeln!(out, "| {label} | {value} |"),
        }
    }
}
