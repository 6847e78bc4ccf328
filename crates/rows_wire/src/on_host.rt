//! Live runs on this host: a site whose ports are moved to others, and lines without their moments.

use std::alloc::{AllocError, Global};

/// What stands before the last two digits of a port in the files.
const PORT: &str = "127.0.0.1:478";

/// A text with its ports moved to a base, in hundreds.
///
/// # Errors
/// Want of memory.
pub fn moved(alloc: Global, text: &[u8], base: u16) -> Result<String, AllocError> {
    let instead = format!(in alloc; "127.0.0.1:{base}")?;
    let text = std::str::from_utf8(text).unwrap_or("");
    replaced(alloc, text, PORT, instead.as_str())
}

/// A text whose ports were moved to a base, with its ports as in the files.
///
/// # Errors
/// Want of memory.
pub fn moved_back(alloc: Global, text: &str, base: u16) -> Result<String, AllocError> {
    let moved = format!(in alloc; "127.0.0.1:{base}")?;
    replaced(alloc, text, moved.as_str(), PORT)
}

/// A text in which something else stands instead of a mark, wherever that stands.
fn replaced(alloc: Global, text: &str, mark: &str, instead: &str) -> Result<String, AllocError> {
    let mut out = String::new(alloc);
    let mut is_behind = false;
    for part in text.split(mark) {
        if is_behind {
            out.push_str(instead)?;
        }
        out.push_str(part)?;
        is_behind = true;
    }
    Ok(out)
}

/// Lines without their moments, and others behind them.
///
/// # Errors
/// Want of memory.
pub fn without_moments(alloc: Global, printed: &str, told: &str) -> Result<String, AllocError> {
    let mut text = String::new(alloc);
    for line in printed.lines() {
        push_without_moment(line, &mut text)?;
    }
    text.push_str(told)?;
    Ok(text)
}

/// Appends a line without its moment: `2020 executed 0 done`, `end 4021 issued 1 executed 1 answered 1 ended 0`.
fn push_without_moment(line: &str, out: &mut String) -> Result<(), AllocError> {
    let (first, rest) = line.split_once(' ').unwrap_or((line, ""));
    if first == "end" {
        let (_, rest) = rest.split_once(' ').unwrap_or((rest, ""));
        return writeln!(out, "end {rest}");
    }
    writeln!(out, "{rest}")
}
