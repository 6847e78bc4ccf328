//! The files where the program runs: `SITE.toml` is a site, `SITE-NAME.KIND` what happens at it, and `SITE-NAME.out`
//! what is wanted of that.

use std::alloc::{AllocError, Global};
use std::{fs, io};

/// A row: a site, and what happens there.
#[derive(Drop)]
pub struct Row {
    /// `SITE-NAME`.
    pub name: String,
    pub site: Vec<u8>,
    pub happens: String,
}

/// The site of a row.
fn site_of(name: &str) -> &str {
    match name.split_once('-') {
        Some((site, _)) => site,
        None => name,
    }
}

/// The row of this name and kind.
///
/// # Errors
/// Those of reading, and want of memory.
pub fn row_of(rt: &HostRuntime, name: &str, kind: &str) -> io::Result<Row> {
    let alloc = rt.alloc();
    let site = site_of(name);
    Ok(Row {
        name: String::from_str(alloc, name)?,
        site: fs::read(rt, format!(in alloc; "{site}.toml")?.as_str())?,
        happens: fs::read_to_string(rt, format!(in alloc; "{name}{kind}")?.as_str())?,
    })
}

/// What is wanted of a row.
///
/// # Errors
/// Those of reading, and want of memory.
pub fn wanted_of(rt: &HostRuntime, name: &str) -> io::Result<String> {
    fs::read_to_string(rt, format!(in rt.alloc(); "{name}.out")?.as_str())
}

/// Octets that are a text.
///
/// # Errors
/// Want of memory.
pub fn text_of(alloc: Global, octets: &[u8]) -> Result<String, AllocError> {
    String::from_str(alloc, std::str::from_utf8(octets).unwrap_or("no text\n"))
}

/// The line of a row of which this was found: that it is as wanted, and what more is to be said then, or both texts.
///
/// # Errors
/// Want of memory.
pub fn said(
    alloc: Global,
    name: &str,
    found: &str,
    wanted: &str,
    more: &str,
) -> Result<String, AllocError> {
    if found == wanted {
        format!(in alloc; "{name}: as wanted{more}\n")
    } else {
        format!(in alloc; "{name}: wanted\n{wanted}found\n{found}")
    }
}
