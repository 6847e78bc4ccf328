//! A row of a document, and how it is called.

use crate::keys::RowKind;
use std::fmt;
use toml::{Table, Value};

/// How a row is called: the array that it stands in, its number there, the first one being 1, and its name, if it says
/// one.
#[derive(Clone, Copy)]
pub(crate) struct Heading<'t> {
    kind: RowKind,
    number: usize,
    name: Option<&'t str>,
}

impl fmt::Display for Heading<'_> {
    fn fmt<W: fmt::Write>(&self, f: &mut fmt::Formatter<W>) -> fmt::Result {
        write!(f, "{} {}", self.kind.array(), self.number)?;
        match self.name {
            Some(name) => write!(f, " ({name})"),
            None => Ok(()),
        }
    }
}

impl Heading<'_> {
    /// The row in the path of a key, as `device[0]`.
    fn fmt_path<W: fmt::Write>(&self, f: &mut fmt::Formatter<W>) -> fmt::Result {
        write!(
            f,
            "{}[{}]",
            self.kind.array(),
            self.number.saturating_sub(1)
        )
    }
}

/// A row of a document, or the document itself.
#[derive(Clone, Copy)]
pub(crate) struct Row<'t> {
    pub(crate) kind: RowKind,
    pub(crate) table: &'t Table,
    outer: Option<Heading<'t>>,
    heading: Option<Heading<'t>>,
}

impl<'t> Row<'t> {
    /// The document.
    pub(crate) fn document(table: &'t Table) -> Row<'t> {
        Row {
            kind: RowKind::Document,
            table,
            outer: None,
            heading: None,
        }
    }

    /// The row of an array at an index.
    pub(crate) fn row(self, kind: RowKind, index: usize, table: &'t Table) -> Row<'t> {
        let name = match table.get("name") {
            Some(Value::String(name)) => Some(name.as_str()),
            _ => None,
        };
        Row {
            kind,
            table,
            outer: self.heading,
            heading: Some(Heading {
                kind,
                number: index.saturating_add(1),
                name,
            }),
        }
    }

    /// The values of the array of a kind of rows; none where it is missing.
    pub(crate) fn values(self, kind: RowKind) -> &'t [Value] {
        match self.table.get(kind.array()) {
            Some(Value::Array(values)) => values.as_slice(),
            _ => &[],
        }
    }
}

impl fmt::Display for Row<'_> {
    fn fmt<W: fmt::Write>(&self, f: &mut fmt::Formatter<W>) -> fmt::Result {
        match (self.outer, self.heading) {
            (Some(outer), Some(heading)) => write!(f, "{outer}, {heading}"),
            (None, Some(heading)) => write!(f, "{heading}"),
            (_, None) => f.write_str("document"),
        }
    }
}

/// The path of a row in its document, as `device[0].object[1]`; that of the document is empty.
#[derive(Clone, Copy)]
pub(crate) struct RowPath<'t>(pub(crate) Row<'t>);

impl fmt::Display for RowPath<'_> {
    fn fmt<W: fmt::Write>(&self, f: &mut fmt::Formatter<W>) -> fmt::Result {
        let Some(heading) = self.0.heading else {
            return Ok(());
        };
        if let Some(outer) = self.0.outer {
            outer.fmt_path(f)?;
            f.write_str(".")?;
        }
        heading.fmt_path(f)
    }
}
