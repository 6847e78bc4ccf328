//! Site files and scripts that rows describe: `file NAME` and behind it its lines, up to the next such line or the next
//! row that wants something; `each 1..9 {number = {}},` stands for nine lines. `NAME, OLD ==> NEW && OLD ==> NEW` is a
//! file with other words in place of some. In changes and scripts `\n` is a line feed, `\r` a carriage return, `\t` a
//! tab, `\\` a backslash, and `\!` an octet that no UTF-8 has.

use sheets::{Part, Row, Stop, first_and_last};
use std::alloc::Global;

/// The octets of a file that words describe.
///
/// # Errors
/// `Unread` where there is no such file, or one of the words isn't there; `Memory`.
pub fn text_of(alloc: Global, rows: &[Row<'_>], words: &str) -> Result<Vec<u8>, Stop> {
    let (name, changes) = match words.split_once(", ") {
        Some((name, changes)) => (name, Some(changes)),
        None => (words, None),
    };
    let mut text = lines_of(alloc, rows, name)?;
    if let Some(changes) = changes {
        for change in changes.split(" && ") {
            text = changed(alloc, text.as_str(), change)?;
        }
    }
    unescaped(alloc, text.as_str())
}

/// The lines behind a file's name.
fn lines_of(alloc: Global, rows: &[Row<'_>], name: &str) -> Result<String, Stop> {
    let mut text = String::new(alloc);
    let mut is_there = false;
    let mut is_named = false;
    for row in rows {
        if let Some(file_name) = row.asked.strip_prefix("file ") {
            is_named = file_name == name;
            is_there = is_there || is_named;
        } else if row.wanted.is_some() {
            is_named = false;
        } else if is_named {
            push_lines(row.asked, &mut text)?;
        }
    }
    if !is_there {
        return Err(Stop::Unread(Part::Asked));
    }
    Ok(text)
}

/// Appends a line, or the lines that it stands for, each with its end.
fn push_lines(line: &str, out: &mut String) -> Result<(), Stop> {
    let Some(each) = line.strip_prefix("each ") else {
        writeln!(out, "{line}")?;
        return Ok(());
    };
    let Some((range, words)) = each.split_once(' ') else {
        return Err(Stop::Unread(Part::Asked));
    };
    let (first, last) = first_and_last(range)?;
    for n in first..=last {
        push_numbered(words, n, out)?;
    }
    Ok(())
}

/// Appends a line with a number in place of each `{}`.
fn push_numbered(words: &str, n: u8, out: &mut String) -> Result<(), Stop> {
    let mut is_behind = false;
    for part in words.split("{}") {
        if is_behind {
            write!(out, "{n}")?;
        }
        out.push_str(part)?;
        is_behind = true;
    }
    out.push('\n')?;
    Ok(())
}

/// A text with other words in place of some that stand there.
fn changed(alloc: Global, text: &str, change: &str) -> Result<String, Stop> {
    let Some((old, new)) = change.split_once(" ==> ") else {
        return Err(Stop::Unread(Part::Asked));
    };
    let Some((front, behind)) = text.split_once(old) else {
        return Err(Stop::Unread(Part::Asked));
    };
    Ok(format!(in alloc; "{front}{new}{behind}")?)
}

/// The octets of a text with its escapes resolved.
///
/// # Errors
/// `Unread` for an escape that there is not; `Memory`.
pub fn unescaped(alloc: Global, words: &str) -> Result<Vec<u8>, Stop> {
    let mut octets = Vec::new(alloc);
    let mut is_escape = false;
    for octet in words.as_bytes() {
        match (is_escape, *octet) {
            (false, b'\\') => is_escape = true,
            (false, other) => octets.push(other)?,
            (true, letter) => {
                octets.push(octet_of(letter)?)?;
                is_escape = false;
            }
        }
    }
    if is_escape {
        return Err(Stop::Unread(Part::Asked));
    }
    Ok(octets)
}

/// What stands for an escape.
fn octet_of(letter: u8) -> Result<u8, Stop> {
    match letter {
        b'n' => Ok(b'\n'),
        b'r' => Ok(b'\r'),
        b't' => Ok(b'\t'),
        b'\\' => Ok(b'\\'),
        b'!' => Ok(0xFF),
        _ => Err(Stop::Unread(Part::Asked)),
    }
}
