//! Words that stand for many: `each 0..63 deliver {}` for 64 lines, `each 1..3 tick 20 ; wake r` for six, `<128*41>`
//! for the same 128 times in a line, and `(1..14* 40:{} 85)` for the same with a number in each. What stands between
//! `<` and `>` is repeated first.

use sheets::{Part, Stop, first_and_last, number};
use std::alloc::Global;

/// Appends a line, or the lines that it stands for, each with its end.
///
/// # Errors
/// `Unread` where the words are none that stand for many, `Memory`.
pub(crate) fn push_repeated(alloc: Global, line: &str, out: &mut String) -> Result<(), Stop> {
    let Some(each) = line.strip_prefix("each ") else {
        return push_line(alloc, line, out);
    };
    let Some((range, words)) = each.split_once(' ') else {
        return Err(Stop::Unread(Part::Asked));
    };
    let (first, last) = first_and_last(range)?;
    for n in first..=last {
        let lines = numbered(alloc, words, n)?;
        push_lines(alloc, lines.as_str(), out)?;
    }
    Ok(())
}

/// Appends lines that ` ; ` parts, each with its end.
fn push_lines(alloc: Global, lines: &str, out: &mut String) -> Result<(), Stop> {
    for line in lines.split(" ; ") {
        push_line(alloc, line, out)?;
    }
    Ok(())
}

/// Appends a line with its end.
fn push_line(alloc: Global, line: &str, out: &mut String) -> Result<(), Stop> {
    let line = with_copies(alloc, line)?;
    push_numbered(alloc, line.as_str(), out)?;
    out.push('\n')?;
    Ok(())
}

/// Words with a number in place of each `{}`.
fn numbered(alloc: Global, words: &str, n: u8) -> Result<String, Stop> {
    let mut text = String::new(alloc);
    let mut is_behind = false;
    for part in words.split("{}") {
        if is_behind {
            write!(text, "{n}")?;
        }
        text.push_str(part)?;
        is_behind = true;
    }
    Ok(text)
}

/// Words, those between `<` and `>` as often as they say.
fn with_copies(alloc: Global, words: &str) -> Result<String, Stop> {
    let mut text = String::new(alloc);
    let mut is_behind = false;
    for part in words.split('<') {
        if is_behind {
            push_copied(part, &mut text)?;
        } else {
            text.push_str(part)?;
        }
        is_behind = true;
    }
    Ok(text)
}

/// Appends what stands before `>`, as often as it says, and what stands behind it.
fn push_copied(words: &str, out: &mut String) -> Result<(), Stop> {
    let Some((inner, behind)) = words.split_once('>') else {
        return Err(Stop::Unread(Part::Asked));
    };
    push_copies(inner, out)?;
    out.push_str(behind)?;
    Ok(())
}

/// Appends what stands behind `N*`, so many times.
fn push_copies(inner: &str, out: &mut String) -> Result<(), Stop> {
    let Some((count, words)) = inner.split_once('*') else {
        return Err(Stop::Unread(Part::Asked));
    };
    for _ in 0..number(count)? {
        out.push_str(words)?;
    }
    Ok(())
}

/// Appends words, those between `(` and `)` once for each of their numbers.
fn push_numbered(alloc: Global, words: &str, out: &mut String) -> Result<(), Stop> {
    let mut is_behind = false;
    for part in words.split('(') {
        if is_behind {
            push_all(alloc, part, out)?;
        } else {
            out.push_str(part)?;
        }
        is_behind = true;
    }
    Ok(())
}

/// Appends what stands before `)`, once for each of its numbers, and what stands behind it.
fn push_all(alloc: Global, words: &str, out: &mut String) -> Result<(), Stop> {
    let Some((inner, behind)) = words.split_once(')') else {
        return Err(Stop::Unread(Part::Asked));
    };
    push_each(alloc, inner, out)?;
    out.push_str(behind)?;
    Ok(())
}

/// Appends what stands behind `A..B*` once for each of these numbers.
fn push_each(alloc: Global, inner: &str, out: &mut String) -> Result<(), Stop> {
    let Some((range, words)) = inner.split_once('*') else {
        return Err(Stop::Unread(Part::Asked));
    };
    let (first, last) = first_and_last(range)?;
    for n in first..=last {
        out.push_str(numbered(alloc, words, n)?.as_str())?;
    }
    Ok(())
}
