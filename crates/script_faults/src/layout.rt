//! Spaces, tabs and comments that stand where none may.

use crate::fault::Fault;
use crate::word::{Quotes, without_end};
use std::fmt;

/// What `bacsite fmt` mends.
#[derive(Clone, Copy)]
pub(crate) enum Layout {
    /// A byte-order mark before the first word.
    ByteOrderMark,
    /// Spaces or tabs before the first word.
    Indented,
    /// A tab between words.
    Tab,
    /// Several spaces between words.
    Spaces,
    /// Spaces or tabs behind the last word.
    Trailing,
    /// A comment behind a step.
    Comment,
}

impl fmt::Display for Layout {
    fn fmt<W: fmt::Write>(&self, f: &mut fmt::Formatter<W>) -> fmt::Result {
        f.write_str(match self {
            Layout::ByteOrderMark => "expected a line's first word; found a byte-order mark",
            Layout::Indented => "expected a line's first word; found an indentation",
            Layout::Tab => "expected a single space between words; found a tab",
            Layout::Spaces => "expected a single space between words; found several",
            Layout::Trailing => "expected the end of the line; found a trailing space",
            Layout::Comment => { "expected a comment on a line of its own; found one after a step" }
        })?;
        f.write_str(" (bacsite fmt corrects it)")
    }
}

/// The first space, tab or comment of a line that stands where none may.
pub(crate) fn layout_fault(line: &[u8]) -> Option<Fault<'_>> {
    match line {
        [0xEF, 0xBB, 0xBF, ..] => return Some(fault(Layout::ByteOrderMark, 0)),
        [b' ' | b'\t', ..] => return Some(fault(Layout::Indented, 0)),
        _ => {}
    }
    let end = without_end(line, b" \t").len();
    let is_hear = line.starts_with(b"hear ");
    let mut quotes = Quotes::new();
    let mut spaces = 0usize;
    let mut is_first = true;
    for (at, octet) in line.iter().enumerate() {
        if !quotes.are_open {
            if at == end {
                return Some(fault(Layout::Trailing, at));
            }
            // Octets that are heard may stand behind any number of spaces.
            let are_single = !is_hear || spaces < 4;
            if let Some(layout) = layout_at(*octet, is_first, are_single) {
                return Some(fault(layout, at));
            }
        }
        quotes.pass(is_first, *octet);
        is_first = *octet == b' ' && !quotes.are_open;
        if is_first {
            spaces = spaces.saturating_add(1);
        }
    }
    None
}

/// What is wrong with an octet outside of quotes, where a word may begin.
fn layout_at(octet: u8, is_first: bool, are_single: bool) -> Option<Layout> {
    match octet {
        b'#' if is_first => Some(Layout::Comment),
        b'\t' => Some(Layout::Tab),
        b' ' if is_first && are_single => Some(Layout::Spaces),
        _ => None,
    }
}

fn fault<'a>(layout: Layout, at: usize) -> Fault<'a> {
    Fault::Layout { layout, at }
}
