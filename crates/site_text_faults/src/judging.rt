//! The keys that are faulty.

use crate::fault::{Fault, What};
use crate::keys::{Key, RowKind, keys_of};
use crate::row::Row;
use std::alloc::{AllocError, Global};
use toml::{Table, Value};

/// The most faults that are told of one file.
pub(crate) const MOST: usize = 20;

/// The faulty keys of a document, in the order of the keys of its rows, and one more than are told at most.
///
/// # Errors
/// Want of memory.
pub(crate) fn key_faults(alloc: Global, document: &Table) -> Result<Vec<Fault<'_>>, AllocError> {
    let mut faults = Vec::new(alloc);
    let row = Row::document(document);
    judge_row(alloc, row, &mut faults)?;
    judge_rows(alloc, row, RowKind::Network, &mut faults)?;
    judge_rows(alloc, row, RowKind::Manager, &mut faults)?;
    judge_rows(alloc, row, RowKind::Router, &mut faults)?;
    judge_rows(alloc, row, RowKind::Device, &mut faults)?;
    judge_rows(alloc, row, RowKind::Client, &mut faults)?;
    Ok(faults)
}

/// Puts the faulty keys of the rows of an array behind others.
fn judge_rows<'t>(
    alloc: Global,
    document: Row<'t>,
    kind: RowKind,
    faults: &mut Vec<Fault<'t>>,
) -> Result<(), AllocError> {
    for (index, value) in document.values(kind).iter().enumerate() {
        match value {
            Value::Table(table) => {
                let row = document.row(kind, index, table);
                judge_row(alloc, row, faults)?;
                judge_inner(alloc, row, faults)?;
            }
            found => put(document, What::NoTable { kind, index, found }, faults)?,
        }
    }
    Ok(())
}

/// Puts the faulty keys of the rows within a row behind others.
fn judge_inner<'t>(
    alloc: Global,
    outer: Row<'t>,
    faults: &mut Vec<Fault<'t>>,
) -> Result<(), AllocError> {
    let Some(kind) = outer.kind.inner() else {
        return Ok(());
    };
    for (index, value) in outer.values(kind).iter().enumerate() {
        match value {
            Value::Table(table) => judge_row(alloc, outer.row(kind, index, table), faults)?,
            found => put(outer, What::NoTable { kind, index, found }, faults)?,
        }
    }
    Ok(())
}

/// Puts the faulty keys of a row behind others.
fn judge_row<'t>(
    alloc: Global,
    row: Row<'t>,
    faults: &mut Vec<Fault<'t>>,
) -> Result<(), AllocError> {
    let keys = keys_of(alloc, row.kind, row.table)?;
    for key in row.table.keys() {
        if !has_name(keys.as_slice(), key.as_str()) {
            put(row, What::Unknown(key.as_str()), faults)?;
        }
    }
    for key in keys.as_slice() {
        judge_key(row, *key, faults)?;
    }
    Ok(())
}

/// Puts the fault of a key that a row may have behind others, if it has one.
fn judge_key<'t>(row: Row<'t>, key: Key, faults: &mut Vec<Fault<'t>>) -> Result<(), AllocError> {
    match row.table.get(key.name) {
        Some(found) if !key.kind.takes(found) => put(row, What::Other { key, found }, faults),
        None if key.is_needed => put(row, What::Missing(key), faults),
        _ => Ok(()),
    }
}

/// Whether a key of this name is among some.
fn has_name(keys: &[Key], name: &str) -> bool {
    for key in keys {
        if key.name == name {
            return true;
        }
    }
    false
}

/// Puts a fault behind others, unless there are too many.
fn put<'t>(row: Row<'t>, what: What<'t>, faults: &mut Vec<Fault<'t>>) -> Result<(), AllocError> {
    if faults.len() <= MOST {
        faults.push(Fault { row, what })?;
    }
    Ok(())
}
