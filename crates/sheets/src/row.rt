//! The names of files where a program runs, and the rows of a file.

use crate::stop::{Part, Stop};
use std::alloc::{AllocError, Global};
use std::{fs, io};

/// What parts that which is asked from that which is wanted.
const ARROW: &str = " -> ";

/// A row of a file.
#[derive(Clone, Copy, Debug)]
pub struct Row<'a> {
    /// The number of its line, from 1.
    pub line: usize,
    /// What is asked.
    pub asked: &'a str,
    /// What is wanted; a row that only describes has no such part.
    pub wanted: Option<&'a str>,
}

impl<'a> Row<'a> {
    /// What is wanted.
    ///
    /// # Errors
    /// `Unread` of a row that only describes.
    pub fn wanted(&self) -> Result<&'a str, Stop> {
        match self.wanted {
            Some(wanted) => Ok(wanted),
            None => Err(Stop::Unread(Part::Wanted)),
        }
    }
}

/// What stands before this end in the names of files where the program runs, in order.
///
/// # Errors
/// Those of reading a folder, and want of memory.
pub fn names(rt: &HostRuntime, end: &str) -> io::Result<Vec<String>> {
    names_in(rt, ".", end)
}

/// The same of the files of a folder.
///
/// # Errors
/// Those of reading a folder, and want of memory.
pub fn names_in(rt: &HostRuntime, folder: &str, end: &str) -> io::Result<Vec<String>> {
    let mut names = Vec::new(rt.alloc());
    for entry in fs::read_dir(rt, folder)? {
        let entry = entry?;
        if let Some(name) = entry.file_name().strip_suffix(end) {
            names.push(String::from_str(rt.alloc(), name)?)?;
        }
    }
    names.sort()?;
    Ok(names)
}

/// The rows of a file.
///
/// # Errors
/// Want of memory.
pub fn rows<'a>(alloc: Global, text: &'a str) -> Result<Vec<Row<'a>>, AllocError> {
    let mut rows = Vec::new(alloc);
    for (at, line) in text.lines().enumerate() {
        if !line.is_empty() && !line.starts_with('#') {
            rows.push(row_of(at.saturating_add(1), line))?;
        }
    }
    Ok(rows)
}

/// The row of a line.
fn row_of(line: usize, text: &str) -> Row<'_> {
    match text.split_once(ARROW) {
        Some((asked, wanted)) => Row {
            line,
            asked,
            wanted: Some(wanted),
        },
        None => Row {
            line,
            asked: text,
            wanted: None,
        },
    }
}
