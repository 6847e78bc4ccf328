//! Where keys and rows stand in a text, which is read once more for it: the tree that `toml` makes of a text has no
//! places.

use std::alloc::{AllocError, Global};
use toml_parser::text::skip_blank;
use toml_parser::{Key, ParseError, dotted_key, quoted, starts_string, unquoted};

/// What is looked for in a text.
#[derive(Drop)]
pub(crate) struct Sought {
    /// The path of a key, a row or a value, as `device[0].object[1].name`.
    pub(crate) path: String,
    /// The index of its first octet, once it is found.
    pub(crate) at: Option<usize>,
}

impl Sought {
    /// What stands at a path; at an empty one it is the document.
    pub(crate) fn path(path: String) -> Sought {
        Sought { path, at: None }
    }
}

/// What a text has open, and how many octets of the path lead there.
#[derive(Clone, Copy)]
enum Open {
    /// A table within braces.
    Table { path: usize },
    /// An array, at the value of an index.
    Array { path: usize, index: usize },
}

/// How many tables an array has so far.
#[derive(Drop)]
struct Count {
    path: Vec<u8>,
    tables: usize,
}

/// A reading of a text.
#[derive(Drop)]
struct Reading {
    alloc: Global,
    /// How many octets the text has.
    length: usize,
    /// The path of what is read.
    path: Vec<u8>,
    /// How much of it the last heading wrote.
    heading: usize,
    open: Vec<Open>,
    counts: Vec<Count>,
    sought: Vec<Sought>,
}

/// What was looked for, with its places in a text that is a document.
///
/// # Errors
/// Want of memory.
pub(crate) fn find_all(
    alloc: Global,
    text: &[u8],
    sought: Vec<Sought>,
) -> Result<Vec<Sought>, AllocError> {
    let text = std::str::from_utf8(text).unwrap_or("");
    let mut reading = Reading {
        alloc,
        length: text.len(),
        path: Vec::new(alloc),
        heading: 0,
        open: Vec::new(alloc),
        counts: Vec::new(alloc),
        sought,
    };
    reading.note(0);
    let mut rest = text;
    for _part in 0..=text.len() {
        rest = match reading.pass(rest) {
            Ok(Some(behind)) => behind,
            // A document has no other fault.
            Ok(None) | Err(ParseError::At(..)) => break,
            Err(ParseError::OutOfMemory) => return Err(AllocError),
        };
    }
    Ok(reading.sought)
}

/// The places of what was looked for, each with its index there, in the order of the text.
///
/// # Errors
/// Want of memory.
pub(crate) fn in_order(alloc: Global, found: &[Sought]) -> Result<Vec<(usize, usize)>, AllocError> {
    let mut places = Vec::new(alloc);
    for (index, sought) in found.iter().enumerate() {
        places.push((sought.at.unwrap_or(0), index))?;
    }
    places.sort()?;
    Ok(places)
}

impl Reading {
    /// Passes a heading, a key with the beginning of its value, a value of an array, or a mark; what stands behind it,
    /// or nothing at the end.
    fn pass<'t>(&mut self, text: &'t str) -> Result<Option<&'t str>, ParseError> {
        let rest = skip_blank(text, true);
        if rest.is_empty() {
            return Ok(None);
        }
        let open = match self.open.as_slice() {
            [.., last] => Some(*last),
            [] => None,
        };
        let behind = match open {
            None => self.pass_line(rest)?,
            Some(Open::Table { path }) => self.pass_in_table(path, rest)?,
            Some(Open::Array { path, index }) => self.pass_in_array(path, index, rest)?,
        };
        Ok(Some(behind))
    }

    /// Passes a heading or a key.
    fn pass_line<'t>(&mut self, rest: &'t str) -> Result<&'t str, ParseError> {
        if let Some(behind) = rest.strip_prefix("[[") {
            return self.pass_heading(rest, skip_blank(behind, false), "]]");
        }
        if let Some(behind) = rest.strip_prefix('[') {
            return self.pass_heading(rest, skip_blank(behind, false), "]");
        }
        self.pass_key(self.heading, rest)
    }

    /// Passes what stands within a table.
    fn pass_in_table<'t>(&mut self, path: usize, rest: &'t str) -> Result<&'t str, ParseError> {
        if let Some(behind) = rest.strip_prefix('}') {
            self.open.pop();
            return Ok(behind);
        }
        match rest.strip_prefix(',') {
            Some(behind) => Ok(behind),
            None => self.pass_key(path, rest),
        }
    }

    /// Passes what stands within an array.
    fn pass_in_array<'t>(
        &mut self,
        path: usize,
        index: usize,
        rest: &'t str,
    ) -> Result<&'t str, ParseError> {
        if let Some(behind) = rest.strip_prefix(']') {
            self.open.pop();
            return Ok(behind);
        }
        if let Some(behind) = rest.strip_prefix(',') {
            self.open.pop();
            self.open.push(Open::Array {
                path,
                index: index.saturating_add(1),
            })?;
            return Ok(behind);
        }
        self.path.truncate(path);
        self.put_index(index)?;
        self.note(self.place(rest));
        self.pass_value(rest)
    }

    /// Passes a heading, which begins at `from` and whose key stands at the front of the rest.
    fn pass_heading<'t>(
        &mut self,
        from: &str,
        rest: &'t str,
        end: &str,
    ) -> Result<&'t str, ParseError> {
        let (key, behind) = dotted_key(self.alloc, rest)?;
        self.path.clear();
        let place = self.place(from);
        for part in key.path.as_slice() {
            self.put_key(part.as_str())?;
            self.note(place);
            self.put_last_index()?;
        }
        self.put_key(key.last.as_str())?;
        self.note(place);
        if end == "]]" {
            let index = self.count_table()?;
            self.put_index(index)?;
        }
        self.heading = self.path.len();
        self.note(place);
        Ok(behind.strip_prefix(end).unwrap_or(behind))
    }

    /// Passes a key below the table of this path, and the beginning of its value.
    fn pass_key<'t>(&mut self, table: usize, rest: &'t str) -> Result<&'t str, ParseError> {
        let place = self.place(rest);
        let (Key { path, last }, behind) = dotted_key(self.alloc, rest)?;
        self.path.truncate(table);
        for part in path.as_slice() {
            self.put_key(part.as_str())?;
            self.note(place);
        }
        self.put_key(last.as_str())?;
        self.note(place);
        let value = behind.strip_prefix('=').unwrap_or(behind);
        self.pass_value(skip_blank(value, false))
    }

    /// Passes a value, or opens it where it is a table or an array.
    fn pass_value<'t>(&mut self, rest: &'t str) -> Result<&'t str, ParseError> {
        let path = self.path.len();
        if let Some(behind) = rest.strip_prefix('{') {
            self.open.push(Open::Table { path })?;
            return Ok(behind);
        }
        if let Some(behind) = rest.strip_prefix('[') {
            self.open.push(Open::Array { path, index: 0 })?;
            return Ok(behind);
        }
        if starts_string(rest) {
            let (_, behind) = quoted(self.alloc, rest)?;
            return Ok(behind);
        }
        let (_, behind) = unquoted(self.alloc, rest)?;
        Ok(behind)
    }

    /// The index in the text at which the rest begins.
    fn place(&self, rest: &str) -> usize {
        self.length.saturating_sub(rest.len())
    }

    /// Puts a key behind the path.
    fn put_key(&mut self, key: &str) -> Result<(), AllocError> {
        if !self.path.is_empty() {
            self.path.extend_from_slice(b".")?;
        }
        self.path.extend_from_slice(key.as_bytes())
    }

    /// Puts an index behind the path.
    fn put_index(&mut self, index: usize) -> Result<(), AllocError> {
        let words = format!(in self.alloc; "[{index}]")?;
        self.path.extend_from_slice(words.as_bytes())
    }

    /// Puts the index of an array's last table behind the path, where it leads to an array of tables.
    fn put_last_index(&mut self) -> Result<(), AllocError> {
        let mut last = None;
        for count in self.counts.as_slice() {
            if count.path.as_slice() == self.path.as_slice() {
                last = Some(count.tables.saturating_sub(1));
            }
        }
        match last {
            Some(index) => self.put_index(index),
            None => Ok(()),
        }
    }

    /// Counts one more table of the array to which the path leads; how many there were.
    fn count_table(&mut self) -> Result<usize, AllocError> {
        for count in self.counts.as_mut_slice() {
            if count.path.as_slice() == self.path.as_slice() {
                let before = count.tables;
                count.tables = before.saturating_add(1);
                return Ok(before);
            }
        }
        self.counts.push(Count {
            path: Vec::from_slice(self.alloc, self.path.as_slice())?,
            tables: 1,
        })?;
        Ok(0)
    }

    /// Notes a place as that of what is looked for at the path.
    fn note(&mut self, place: usize) {
        for sought in self.sought.as_mut_slice() {
            if sought.at.is_none() && sought.path.as_bytes() == self.path.as_slice() {
                sought.at = Some(place);
            }
        }
    }
}
