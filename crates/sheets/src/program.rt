//! A program with rows: it reads each file where it runs, and prints what comes of its rows.

use crate::given::Given;
use crate::report::Report;
use crate::row::{Row, names, names_in, rows};
use refusing::Refusing;
use std::alloc::{AllocError, Global};
use std::{fs, io};

/// How the names of files with rows end.
const SUFFIX: &str = ".txt";

/// What a program runs rows on.
pub trait Bench {
    /// Runs the rows of a file of this name in their order, and adds what comes of each.
    ///
    /// # Errors
    /// Want of memory.
    fn run(
        given: Given<'_>,
        name: &str,
        rows: &[Row<'_>],
        report: &mut Report<'_>,
    ) -> Result<(), AllocError>;
}

/// Runs the rows of each file where the program runs, and prints a line for each row that differs
/// and one with the counts of each file.
///
/// # Errors
/// Those of reading and of printing, and want of memory.
pub fn run_files<B: Bench>(rt: &HostRuntime) -> io::Result<()> {
    for name in names(rt, SUFFIX)?.as_slice() {
        let name = format!(in rt.alloc(); "{name}{SUFFIX}")?;
        run_sheet::<B>(rt, name.as_str(), name.as_str())?;
    }
    Ok(())
}

/// Runs the rows of each file of a folder where the program runs, and prints the same of them, the folder before each
/// name.
///
/// # Errors
/// Those of reading and of printing, and want of memory.
pub fn run_folder<B: Bench>(rt: &HostRuntime, folder: &str) -> io::Result<()> {
    for name in names_in(rt, folder, SUFFIX)?.as_slice() {
        let name = format!(in rt.alloc(); "{name}{SUFFIX}")?;
        let path = format!(in rt.alloc(); "{folder}/{name}")?;
        run_sheet::<B>(rt, path.as_str(), name.as_str())?;
    }
    Ok(())
}

/// Runs the rows of the file at a path, of this name, and prints what comes of them.
fn run_sheet<B: Bench>(rt: &HostRuntime, path: &str, name: &str) -> io::Result<()> {
    let text = fs::read_to_string(rt, path)?;
    let said = said_of::<B>(rt.alloc(), path, name, text.as_str())?;
    rt.print(said.as_str())
}

/// Runs the rows of a file at a path, of this name, and answers what is printed of it.
fn said_of<B: Bench>(
    alloc: Global,
    path: &str,
    name: &str,
    text: &str,
) -> Result<String, AllocError> {
    let memory = Refusing::new(alloc);
    let other = Refusing::new(alloc);
    let given = Given {
        alloc,
        memory: &memory,
        other: &other,
    };
    let mut report = Report::new(alloc, path);
    B::run(given, name, rows(alloc, text)?.as_slice(), &mut report)?;
    report.text()
}
