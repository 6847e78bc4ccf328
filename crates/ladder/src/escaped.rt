//! Texts as they stand in SVG and HTML.

use std::fmt;

/// A text with `&`, `<`, `>` and `"` as entities, and U+FFFD for each character that XML has not. Of a longer text the
/// beginning stands there, and `…` behind it.
#[derive(Clone, Copy)]
pub struct Escaped<'a> {
    pub text: &'a str,
    /// How many characters stand there at most.
    pub most: usize,
}

impl<'a> Escaped<'a> {
    /// A text as a whole.
    pub fn whole(text: &'a str) -> Escaped<'a> {
        Escaped {
            text,
            most: usize::MAX,
        }
    }
}

impl fmt::Display for Escaped<'_> {
    fn fmt<W: fmt::Write>(&self, f: &mut fmt::Formatter<W>) -> fmt::Result {
        let mut left = self.most;
        for c in self.text.chars() {
            if left == 0 {
                return f.write_char('…');
            }
            left -= 1;
            fmt_char(c, f)?;
        }
        Ok(())
    }
}

/// Writes a character.
fn fmt_char<W: fmt::Write>(c: char, f: &mut fmt::Formatter<W>) -> fmt::Result {
    match c {
        '&' => f.write_str("&amp;"),
        '<' => f.write_str("&lt;"),
        '>' => f.write_str("&gt;"),
        '"' => f.write_str("&quot;"),
        '\t' | '\n' | '\r' | ' '..='\u{D7FF}' | '\u{E000}'..='\u{FFFD}' | '\u{10000}'.. =>
            f.write_char(c),
        _ => f.write_char('\u{FFFD}'),
    }
}
