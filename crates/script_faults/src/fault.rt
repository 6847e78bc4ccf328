//! What is wrong with a line.

use crate::expected::Expected;
use crate::layout::Layout;
use crate::word::Word;
use std::fmt;
use words::Unread;

/// What is wrong with a line.
#[derive(Clone, Copy)]
pub(crate) enum Fault<'a> {
    /// Something else should stand where this word does, which is empty where the line or the word ends.
    Word { expected: Expected, found: Word<'a> },
    /// A space, a tab or a comment stands where none may, from this index on.
    Layout { layout: Layout, at: usize },
    /// The line is no UTF-8 from this index on.
    Utf8 { at: usize },
    /// What is missing of the words, no one knows where.
    Unread(Unread),
}

impl Fault<'_> {
    /// The index of the octet at which it shows.
    pub(crate) fn at(&self) -> usize {
        match self {
            Fault::Word { found, .. } => found.at,
            Fault::Layout { at, .. } | Fault::Utf8 { at } => *at,
            Fault::Unread(_) => 0,
        }
    }
}

impl fmt::Display for Fault<'_> {
    fn fmt<W: fmt::Write>(&self, f: &mut fmt::Formatter<W>) -> fmt::Result {
        match self {
            Fault::Word { expected, found } => {
                write!(f, "expected {expected}; found ")?;
                match found.octets {
                    [] => f.write_str("nothing"),
                    [_, ..] => write!(f, "{:?}", found.text()),
                }
            }
            Fault::Layout { layout, .. } => write!(f, "{layout}"),
            Fault::Utf8 { .. } => f.write_str("expected text in UTF-8"),
            Fault::Unread(unread) => write!(f, "{unread}"),
        }
    }
}
