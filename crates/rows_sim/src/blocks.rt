//! Sites, scripts and texts that rows describe: `site NAME`, `script NAME` or `prints NAME`, and behind it its lines,
//! up to the next such line or the next row that wants something.

use crate::repeated::push_repeated;
use sheets::{Part, Row, Stop};
use std::alloc::Global;

/// What a block describes.
#[derive(Clone, Copy, Debug, PartialEq, Eq)]
pub(crate) enum Kind {
    Site,
    Script,
    Prints,
}

/// What a block of this kind begins with.
fn word_of(kind: Kind) -> &'static str {
    match kind {
        Kind::Site => "site ",
        Kind::Script => "script ",
        Kind::Prints => "prints ",
    }
}

/// Whether a block begins with this line.
fn begins(line: &str) -> bool {
    line.starts_with("site ") || line.starts_with("script ") || line.starts_with("prints ")
}

/// The text of the block of this kind and name, behind another text.
///
/// # Errors
/// `Unread` where there is no such block, or its words are none.
pub(crate) fn push_block(
    alloc: Global,
    rows: &[Row<'_>],
    kind: Kind,
    name: &str,
    out: &mut String,
) -> Result<(), Stop> {
    let mut is_there = false;
    let mut is_named = false;
    for row in rows {
        if row.wanted.is_some() {
            is_named = false;
        } else if begins(row.asked) {
            is_named = row.asked.strip_prefix(word_of(kind)) == Some(name);
            is_there = is_there || is_named;
        } else if is_named {
            push_repeated(alloc, row.asked, out)?;
        }
    }
    if !is_there {
        return Err(Stop::Unread(Part::Asked));
    }
    Ok(())
}

/// The texts of several blocks of a kind, one behind another.
///
/// # Errors
/// Those of `push_block`.
pub(crate) fn blocks(
    alloc: Global,
    rows: &[Row<'_>],
    kind: Kind,
    names: &str,
) -> Result<String, Stop> {
    let mut text = String::new(alloc);
    for name in names.split(' ') {
        push_block(alloc, rows, kind, name, &mut text)?;
    }
    Ok(text)
}
