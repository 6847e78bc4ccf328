//! What is told of files and numbers on the standard error.

ghost use Rattle.std.specs.Prelude.{◌≡◌, IfErr, IfOk};

use crate::files::Files;
use crate::outputs::STANDARD;
use console::say_refused;
use std::alloc::Global;
use std::io;
use std::io::{ErrorKind, Write};
use tags::Fault;
use words::parse_u64;

/// A number as most flags take it.
pub const WHOLE_NUMBER: &str = "a whole number, 0 to 18446744073709551615";

/// What a message begins with: the name of the program, in red where colours are shown.
pub fn beginning(in_colour: bool) -> &'static str {
    if in_colour {
        "\x1b[1;31mbacsite:\x1b[0m"
    } else {
        "bacsite:"
    }
}

/// Whether a file is read or written.
#[derive(Clone, Copy, Debug, PartialEq, Eq)]
pub enum Use {
    Read,
    Written,
}

impl Use {
    /// What `-` names.
    fn standard(self) -> &'static str {
        match self {
            Use::Read => "standard input",
            Use::Written => "standard output",
        }
    }
}

/// The name of a file that is read, as it is told.
pub fn input_name(name: &str) -> &str {
    if name == STANDARD {
        "standard input"
    } else {
        name
    }
}

/// Tells which file can't be read or written and why, or want of memory, and answers the exit status.
pub fn say_file_fault<E: Write>(
    name: &str,
    used: Use,
    error: &io::Error,
    in_colour: bool,
    err: &mut E,
) -> u8
    ensures { result ≡ 1 }
{
    if error.kind() == ErrorKind::OutOfMemory {
        return say_refused(Fault::Memory, err);
    }
    let _ = writeln!(err, "bacsite: file");
    let beginning = beginning(in_colour);
    let name = if name == STANDARD {
        used.standard()
    } else {
        name
    };
    let _ = writeln!(err, "{beginning} {name}: {error}");
    1
}

/// The octets of the file of this name; where they can't be read, that is told.
///
/// # Errors
/// The exit status.
pub fn read_file<F: Files, E: Write>(
    alloc: Global,
    name: &str,
    files: &F,
    in_colour: bool,
    err: &mut E,
) -> Result<Vec<u8>, u8>
    ensures read { IfOk result (λ text. F.reads files.now name.now text.items) }
    ensures status { IfErr result (λ status. status ≡ 1) }
{
    match files.read(alloc, name) {
        Ok(text) => Ok(text),
        Err(error) => Err(say_file_fault(name, Use::Read, &error, in_colour, err)),
    }
}

/// Tells that a word is no whole number, if it is there and is none.
pub fn say_if_faulty<E: Write>(flag: &str, word: Option<&str>, in_colour: bool, err: &mut E) {
    if let Some(word) = word {
        if parse_u64(word).is_err() {
            say_faulty_word(flag, WHOLE_NUMBER, word, in_colour, err);
        }
    }
}

/// Tells that a word of a flag is not what it takes, as a number that is none.
pub fn say_faulty_word<E: Write>(
    flag: &str,
    taken: &str,
    found: &str,
    in_colour: bool,
    err: &mut E,
) {
    let beginning = beginning(in_colour);
    let _ = writeln!(err, "{beginning} {flag} takes {taken}; found \"{found}\"");
}
