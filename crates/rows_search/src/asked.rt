//! What a row asks for: `SITE DEPTH WORDS | STEP; STEP; ..`, a search at the site of the file `SITE.toml`, behind a
//! script of these steps, for at most so many events up to an entry of these words.

use sheets::{Part, Stop, two_words};
use std::alloc::{AllocError, Global};
use words::parse_u64;

/// What a row asks for.
#[derive(Drop)]
pub(crate) struct Asked<'a> {
    /// The name of the site.
    pub(crate) site: &'a str,
    /// Whether no allocation is refused.
    pub(crate) is_once: bool,
    pub(crate) depth: u64,
    pub(crate) words: &'a str,
    pub(crate) script: String,
}

/// Appends each of these steps on a line.
pub(crate) fn push_steps(steps: &str, script: &mut String) -> Result<(), AllocError> {
    for step in steps.split("; ") {
        script.push_str(step)?;
        script.push('\n')?;
    }
    Ok(())
}

/// What a row asks for.
///
/// # Errors
/// `Unread` where it isn't this; want of memory.
pub(crate) fn asked_of(alloc: Global, text: &str) -> Result<Asked<'_>, Stop> {
    let Some((head, steps)) = text.split_once(" | ") else {
        return Err(Stop::Unread(Part::Asked));
    };
    let (is_once, head) = match head.strip_prefix("once ") {
        Some(head) => (true, head),
        None => (false, head),
    };
    let (site, head) = two_words(head);
    let (depth, words) = two_words(head);
    let mut script = String::new(alloc);
    push_steps(steps, &mut script)?;
    Ok(Asked {
        site,
        is_once,
        depth: parse_u64(depth)?,
        words,
        script,
    })
}
