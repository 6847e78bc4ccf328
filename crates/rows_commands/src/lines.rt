//! Lines of a text in words.

use sheets::{Part, Stop};
use std::alloc::Global;

/// What parts lines in words.
const PARTING: &str = " / ";

/// As many lines of a text as are wanted, without the spaces around them, parted by ` / `: from its beginning where
/// nothing is asked, and else behind the first line that reads as is asked.
///
/// # Errors
/// `Unread` where the text is no UTF-8, and `Memory`.
pub(crate) fn lines_behind(
    alloc: Global,
    text: &[u8],
    asked: &str,
    wanted: &str,
) -> Result<String, Stop> {
    let Ok(text) = std::str::from_utf8(text) else {
        return Err(Stop::Unread(Part::Wanted));
    };
    let mut left = wanted.split(PARTING).count();
    let mut is_behind = asked.is_empty();
    let mut words = String::new(alloc);
    for line in text.lines() {
        let line = line.trim();
        if is_behind && left > 0 {
            push_line(line, &mut words)?;
            left -= 1;
        }
        is_behind = is_behind || line == asked;
    }
    Ok(words)
}

/// Appends a line.
fn push_line(line: &str, words: &mut String) -> Result<(), Stop> {
    if !words.is_empty() {
        words.push_str(PARTING)?;
    }
    words.push_str(line)?;
    Ok(())
}
