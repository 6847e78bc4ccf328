//! The lines of the examples as objects of JSON (RFC 8259): each one that is printed with a trace is of a kind that is
//! known, and is read again.

use crate::examples::{read, sites};
use json_lines::{Kind, write_json};
use refusing::Refusing;
use serde_json::Value;
use site_run::simulate_traced;
use std::alloc::Global;
use std::io;

/// Runs each example where the program runs, and prints a line for each.
///
/// # Errors
/// Those of reading and of printing, and want of memory.
pub(crate) fn run_objects(rt: &HostRuntime) -> io::Result<()> {
    for name in sites(rt)?.as_slice() {
        let said = run_example(rt, name.as_str())?;
        rt.print(said.as_str())?;
    }
    Ok(())
}

/// Runs an example, and answers what is printed of its objects.
fn run_example(rt: &HostRuntime, name: &str) -> io::Result<String> {
    let alloc = rt.alloc();
    let site = read(rt, name, "toml")?;
    let script = read(rt, name, "script")?;
    let memory = Refusing::new(alloc);
    let mut lines = Vec::new(alloc);
    let mut err = Vec::new(alloc);
    let status = simulate_traced(
        alloc,
        &memory,
        site.as_slice(),
        script.as_slice(),
        &mut lines,
        &mut err,
    );
    let word = if status == 0 && have_objects(alloc, lines.as_slice())? {
        "each line has its object"
    } else {
        "a line has no object of its own"
    };
    Ok(format!(in alloc; "objects {name}: {word}\n")?)
}

/// Whether as many objects are written as there are lines, and each one is that of an entry.
fn have_objects(alloc: Global, lines: &[u8]) -> io::Result<bool> {
    let mut written = Vec::new(alloc);
    write_json(alloc, Kind::History, lines, &mut written)?;
    let (Ok(lines), Ok(written)) = (
        std::str::from_utf8(lines),
        std::str::from_utf8(written.as_slice()),
    ) else {
        return Ok(false);
    };
    Ok(
        lines.lines().count() == written.lines().count()
            && written.lines().all(|object| is_entry(alloc, object)),
    )
}

/// Whether a text is an object of JSON with a moment and the word of an entry.
fn is_entry(alloc: Global, object: &str) -> bool {
    match Value::from_slice(alloc, object.as_bytes()) {
        Ok(value) => {
            value.get("moment").and_then(Value::as_u64).is_some()
                && value.get("entry").and_then(Value::as_str).is_some()
        }
        Err(_) => false,
    }
}
