//! Texts as they stand in scripts of shells and in a man page.

use std::fmt;

/// A help in single quotes as zsh's `_arguments` and `_describe` take it.
#[derive(Clone, Copy)]
pub(crate) struct ZshQuoted<'a>(pub(crate) &'a str);

impl fmt::Display for ZshQuoted<'_> {
    fn fmt<W: fmt::Write>(&self, f: &mut fmt::Formatter<W>) -> fmt::Result {
        for c in self.0.chars() {
            match c {
                '\'' => f.write_str("'\\''")?,
                '[' | ']' | ':' | '\\' | '$' | '`' => {
                    f.write_char('\\')?;
                    f.write_char(c)?;
                }
                _ => f.write_char(c)?,
            }
        }
        Ok(())
    }
}

/// A text within the single quotes of fish.
#[derive(Clone, Copy)]
pub(crate) struct FishQuoted<'a>(pub(crate) &'a str);

impl fmt::Display for FishQuoted<'_> {
    fn fmt<W: fmt::Write>(&self, f: &mut fmt::Formatter<W>) -> fmt::Result {
        for c in self.0.chars() {
            match c {
                '\'' | '\\' => {
                    f.write_char('\\')?;
                    f.write_char(c)?;
                }
                _ => f.write_char(c)?,
            }
        }
        Ok(())
    }
}

/// A text in the language of man pages: its hyphens are minus signs, which can be copied into a command line, and what
/// stands between backquotes is bold.
#[derive(Clone, Copy)]
pub(crate) struct Roff<'a>(pub(crate) &'a str);

impl fmt::Display for Roff<'_> {
    fn fmt<W: fmt::Write>(&self, f: &mut fmt::Formatter<W>) -> fmt::Result {
        let mut is_bold = false;
        for c in self.0.chars() {
            match c {
                '\\' => f.write_str("\\e")?,
                '-' => f.write_str("\\-")?,
                '.' => f.write_str("\\&.")?,
                '\'' => f.write_str("\\(aq")?,
                '`' => {
                    is_bold = !is_bold;
                    f.write_str(if is_bold { "\\fB" } else { "\\fR" })?;
                }
                '"' => f.write_str("\\(dq")?,
                '~' => f.write_str("\\(ti")?,
                '^' => f.write_str("\\(ha")?,
                _ => f.write_char(c)?,
            }
        }
        Ok(())
    }
}
