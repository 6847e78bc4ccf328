//! A file that is written next to its place, and put there when it is whole.

ghost use Rattle.std.specs.Prelude.{IfOk, OnOk, string_bytes};

use crate::files::Files;
use std::alloc::Global;
use std::io;
use std::io::ErrorKind;

/// How many names are tried next to a file.
const MAX_NAMES: u32 = 100;

/// Writes these octets into the file of this name. Where that fails, the file that has the name is as it was, and
/// nothing is left of the other one, unless the name is that of a device, a pipe or standard output.
///
/// # Errors
/// Those of writing, and want of memory.
pub fn put_in_place<F: Files>(alloc: Global, name: &str, octets: &[u8], files: &F) -> io::Result<()>
    ensures { OnOk result (F.writes files.now name.now octets.now) }
{
    match files.target(alloc, name)? {
        Some(target) => replace(alloc, target.as_str(), octets, files),
        None => files.write(name, octets),
    }
}

/// Writes these octets next to a file, and puts them in its place.
fn replace<F: Files>(alloc: Global, target: &str, octets: &[u8], files: &F) -> io::Result<()>
    ensures { OnOk result (F.writes files.now target.now octets.now) }
{
    let piece = write_beside(alloc, target, octets, files)?;
    match files.rename(piece.as_str(), target) {
        Ok(()) => Ok(()),
        Err(error) => {
            let _ = files.remove(piece.as_str());
            Err(error)
        }
    }
}

/// Writes these octets into a new file in the folder of another, and gives its name.
///
/// # Errors
/// Those of writing, `AlreadyExists` where each name is taken, and want of memory.
fn write_beside<F: Files>(
    alloc: Global,
    target: &str,
    octets: &[u8],
    files: &F,
) -> io::Result<String>
    ensures { IfOk result (λ name. F.writes files.now (string_bytes name) octets.now) }
{
    for number in 0..MAX_NAMES {
        let name = format!(in alloc; "{target}.part{number}")?;
        match files.write_new(name.as_str(), octets) {
            Ok(()) => return Ok(name),
            Err(error) if error.kind() == ErrorKind::AlreadyExists => {}
            Err(error) => return Err(error),
        }
    }
    Err(ErrorKind::AlreadyExists.into())
}
