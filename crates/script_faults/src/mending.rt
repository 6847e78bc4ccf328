//! A script with its spaces and line ends mended.

ghost use Rattle.std.specs.Prelude.{IfOk, OnOk};
ghost use Rattle.script_faults.specs.Mended.{AreLines, EndsLine};

use crate::word::{Quotes, without_end};
use std::alloc::{AllocError, Allocator};

/// What parts words here.
const BLANKS: &[u8] = b" \t\r";

/// A script as `bacsite fmt` prints it: without a byte-order mark, indentations and spaces at the ends of lines; with a
/// single space where tabs or several stood between words, a comment that stood behind a step on a line of its own
/// before it, and a line feed at the end of each line. A text in quotes stays as it is, and so do the words.
///
/// # Errors
/// Want of memory.
pub fn mended<A: Allocator + Copy>(alloc: A, text: &[u8]) -> Result<Vec<u8, A>, AllocError>
    ensures lines { IfOk result (λ mended. AreLines mended.items) }
{
    let mut out = Vec::new(alloc);
    let text = without_marks(text);
    if text.is_empty() {
        return Ok(out);
    }
    let lines = match text {
        [front @ .., b'\n'] => front,
        _ => text,
    };
    let mut begin = 0usize;
    for (at, octet) in lines.iter().enumerate() {
        if *octet == b'\n' {
            put_line(&mut out, without_end(&lines[begin..at], b"\r"))?;
            begin = at + 1;
        }
    }
    put_line(&mut out, without_end(&lines[begin..], b"\r"))?;
    Ok(out)
}

/// A text without the byte-order marks and spaces that it begins with.
fn without_marks(text: &[u8]) -> &[u8] {
    let mut left = text;
    for _mark in 0..text.len() {
        left = match left {
            [0xEF, 0xBB, 0xBF, rest @ ..] => rest,
            [first, rest @ ..] if is_blank(*first) => rest,
            _ => break,
        };
    }
    left
}

/// Puts a line mended behind others.
fn put_line<A: Allocator>(out: &mut Vec<u8, A>, line: &[u8]) -> Result<(), AllocError>
    ensures { OnOk result (EndsLine out.new.items) }
{
    let (step, comment) = cut_comment(line);
    let Some(comment) = comment else {
        put_words(out, step)?;
        return end_line(out);
    };
    out.extend_from_slice(without_end(comment, BLANKS))?;
    end_line(out)?;
    if without_end(step, BLANKS).is_empty() {
        return Ok(());
    }
    put_words(out, step)?;
    end_line(out)
}

/// Ends a line.
fn end_line<A: Allocator>(out: &mut Vec<u8, A>) -> Result<(), AllocError>
    ensures { OnOk result (EndsLine out.new.items) }
{
    out.push(b'\n')?;
    Ok(())
}

/// A line's words, and the comment behind them or alone, where there is one.
fn cut_comment(line: &[u8]) -> (&[u8], Option<&[u8]>) {
    let mut quotes = Quotes::new();
    let mut is_first = true;
    for (index, octet) in line.iter().enumerate() {
        if *octet == b'#' && is_first {
            return (&line[..index], Some(&line[index..]));
        }
        quotes.pass(is_first, *octet);
        is_first = is_blank(*octet) && !quotes.are_open;
    }
    (line, None)
}

/// Puts words behind others with single spaces between them.
fn put_words<A: Allocator>(out: &mut Vec<u8, A>, words: &[u8]) -> Result<(), AllocError> {
    let mut quotes = Quotes::new();
    let mut is_first = true;
    let mut is_begun = false;
    for octet in words {
        if is_blank(*octet) && !quotes.are_open {
            is_first = true;
            continue;
        }
        if is_first && is_begun {
            out.push(b' ')?;
        }
        out.push(*octet)?;
        quotes.pass(is_first, *octet);
        is_first = false;
        is_begun = true;
    }
    Ok(())
}

/// Whether an octet is a space, a tab or a carriage return, which part words here.
fn is_blank(octet: u8) -> bool {
    BLANKS.contains(&octet)
}
