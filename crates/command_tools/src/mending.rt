//! What is done for the command of a script whose spaces and line ends are mended.

ghost use Rattle.std.specs.Prelude.{◌≤◌};

use command_files::{Files, read_file};
use console::{say_failed, say_refused};
use script_faults::mended;
use std::alloc::Global;
use std::io::Write;
use tags::Fault;

/// Prints a script with its spaces and line ends mended.
pub fn print_mended<F: Files, W: Write, E: Write>(
    alloc: Global,
    script: &String,
    files: &F,
    in_colour: bool,
    out: &mut W,
    err: &mut E,
) -> u8
    ensures { result ≤ 1 }
{
    let text = match read_file(alloc, script.as_str(), files, in_colour, err) {
        Ok(text) => text,
        Err(status) => return status,
    };
    let Ok(text) = mended(alloc, text.as_slice()) else {
        return say_refused(Fault::Memory, err);
    };
    match out.write_all(text.as_slice()) {
        Ok(()) => 0,
        Err(error) => say_failed(&error, err),
    }
}
