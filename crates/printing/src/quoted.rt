//! Texts in quotes, in which a backslash stands before a quote, a backslash and what is no character to be seen.

ghost use Rattle.std.specs.Prelude.{◌≡◌, Some, flat_map};
ghost use Rattle.std.specs.Fmt.{WritesOnOk};
ghost use Rattle.printing.specs.Printed.{escaped, is_plain, quoted_text, readable_text};

use crate::octets::Hex;
use std::fmt;

/// A text in quotes, or its octets where it is no UTF-8.
#[derive(Clone, Copy)]
pub struct Readable<'a>(pub &'a [u8]);

impl<'a> fmt::Display for Readable<'a> {
    ghost output = { λ r. Some (readable_text r.0.now) };

    #[tactic(auto, using(crate::proofs::Utf8Laws::readable_laws), unfolding(crate::specs::Printed::readable_text))]
    fn fmt<W: fmt::Write>(&self, f: &mut fmt::Formatter<W>) -> fmt::Result {
        match std::str::from_utf8(self.0) {
            Ok(text) => write!(f, "{}", Quoted(text)),
            Err(_) => write!(f, "{}", Hex(self.0)),
        }
    }
}

/// A text in quotes.
#[derive(Clone, Copy)]
pub(crate) struct Quoted<'a>(pub(crate) &'a str);

impl<'a> fmt::Display for Quoted<'a> {
    ghost output = { λ q. Some (quoted_text q.0.now) };

    #[tactic(auto, unfolding(crate::specs::Printed::quoted_text))]
    fn fmt<W: fmt::Write>(&self, f: &mut fmt::Formatter<W>) -> fmt::Result {
        f.write_str("\"")?;
        if is_plain(self.0.as_bytes()) {
            f.write_str(self.0)?;
        } else {
            fmt_escaped(self.0.as_bytes(), f)?;
        }
        f.write_str("\"")
    }
}

/// Whether no octet is a quote, a backslash or a control character.
fn is_plain(octets: &[u8]) -> bool
    ensures { result ≡ is_plain octets.now }
{
    let mut left = octets;
    while let [first, rest @ ..] = left {
        if matches!(first, b'"' | b'\\' | 0..=31 | 127) {
            return false;
        }
        left = rest;
    }
    true
}

/// Prints the octets of a text, each behind a backslash that wants one.
fn fmt_escaped<W: fmt::Write>(octets: &[u8], f: &mut fmt::Formatter<W>) -> fmt::Result
    ensures { WritesOnOk W.write_str_gives f.old result (flat_map escaped octets.now) f.new }
{
    for octet in octets {
        fmt_octet(*octet, f)?;
    }
    Ok(())
}

/// Prints an octet of a text.
#[tactic(auto, unfolding(crate::specs::Printed::octets_text))]
fn fmt_octet<W: fmt::Write>(octet: u8, f: &mut fmt::Formatter<W>) -> fmt::Result
    ensures { WritesOnOk W.write_str_gives f.old result (escaped octet) f.new }
{
    match octet {
        b'"' => f.write_str("\\\""),
        b'\\' => f.write_str("\\\\"),
        32..=126 => f.write_char(char::from(octet)),
        _ => write!(f, "\\x{}", Hex(&[octet])),
    }
}
