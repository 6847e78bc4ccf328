//! Whether the elements of a picture or of a page are nested: each that is opened is closed, the last one first.

use sheets::Stop;
use std::alloc::Global;

/// Whether the elements of a text are nested. `meta` and what begins with `!` have no end.
pub(crate) fn is_nested(alloc: Global, text: &str) -> Result<bool, Stop> {
    let mut open: Vec<&str> = Vec::new(alloc);
    let Some((_, tags)) = text.split_once('<') else {
        return Ok(false);
    };
    for part in tags.split('<') {
        let Some((tag, _)) = part.split_once('>') else {
            return Ok(false);
        };
        if let Some(name) = tag.strip_prefix('/') {
            if open.pop() != Some(name) {
                return Ok(false);
            }
        } else if !is_empty(tag) {
            open.push(name_of(tag))?;
        }
    }
    Ok(open.is_empty())
}

/// The name of an element that begins so.
fn name_of(tag: &str) -> &str {
    match tag.split_once(' ') {
        Some((name, _)) => name,
        None => tag,
    }
}

/// Whether an element that begins so has no end.
fn is_empty(tag: &str) -> bool {
    tag.ends_with('/') || tag.starts_with('!') || name_of(tag) == "meta"
}
