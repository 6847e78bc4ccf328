//! What a diagnosis finds in the capture of each example.

use crate::examples::{read, sites};
use rows_diagnosed::found_in;
use std::io;

/// Captures each example where the program runs, and prints what is found.
///
/// # Errors
/// Those of reading and of printing, and want of memory.
pub(crate) fn run_captures(rt: &HostRuntime) -> io::Result<()> {
    let alloc = rt.alloc();
    for name in sites(rt)?.as_slice() {
        let site = read(rt, name.as_str(), "toml")?;
        let script = read(rt, name.as_str(), "script")?;
        let found = found_in(alloc, site.as_slice(), script.as_slice())?;
        let said = format!(in alloc; "capture {name}: found {found}\n")?;
        rt.print(said.as_str())?;
    }
    Ok(())
}
