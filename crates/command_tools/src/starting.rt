//! What is done for the command of a first site: two files, neither of which may be there.

ghost use Rattle.std.specs.Prelude.{◌≡◌, ◌≤◌, None, IfErr, IfOk, IsSome, OnOk, option_map, string_bytes};
ghost use Rattle.command_tools.specs.Starting as spec;

use command_files::{Files, Use, say_faulty_word, say_file_fault};
use command_order::Starting;
use console::{say_failed, say_refused};
use starter::{devices_in, script_text, site_text};
use std::alloc::{AllocError, Global};
use std::io;
use std::io::Write;
use tags::Fault;

/// The name of the site's file.
const SITE: &str = "site.toml";

/// The name of the script's file.
const SCRIPT: &str = "first.script";

/// Writes a site and a script to begin with, and prints their names.
pub fn begin<F: Files, W: Write, E: Write>(
    alloc: Global,
    starting: &Starting,
    files: &F,
    in_colour: bool,
    out: &mut W,
    err: &mut E,
) -> u8
    ensures { spec.IsBegun (F.writes files.now) starting.now result }
{
    let Some(devices) = devices_of(starting.devices.as_deref()) else {
        let found = starting.devices.as_deref().unwrap_or("");
        say_faulty_word(
            "--devices",
            "a whole number, 1 to 250",
            found,
            in_colour,
            err,
        );
        return 2;
    };
    match (site_text(alloc, devices), script_text(alloc, devices)) {
        (Ok(site), Ok(script)) => {
            let (site, script) = (site.as_slice(), script.as_slice());
            let folder = starting.folder.as_deref();
            begin_texts(alloc, folder, site, script, files, in_colour, out, err)
        }
        (Err(_), _) | (_, Err(_)) => say_refused(Fault::Memory, err),
    }
}

/// The number of devices that a word says, one where there is no word.
fn devices_of(word: Option<&str>) -> Option<u16>
    ensures { word.entry ≡ None → IsSome result }
{
    match word {
        Some(word) => devices_in(word),
        None => Some(1),
    }
}

/// Writes these texts into the two files, both or none of them, and prints their names.
fn begin_texts<F: Files, W: Write, E: Write>(
    alloc: Global,
    folder: Option<&str>,
    site: &[u8],
    script: &[u8],
    files: &F,
    in_colour: bool,
    out: &mut W,
    err: &mut E,
) -> u8
    ensures status { result ≤ 1 }
    ensures written { result ≡ 0
        → spec.AreWritten (F.writes files.now) (option_map (λ f. f.now) folder.entry) }
{
    let site_name = match write_first(alloc, folder, SITE, site, files, in_colour, err) {
        Ok(name) => name,
        Err(status) => return status,
    };
    let script_name = match write_first(alloc, folder, SCRIPT, script, files, in_colour, err) {
        Ok(name) => name,
        Err(status) => {
            let _ = files.remove(site_name.as_str());
            return status;
        }
    };
    match print_names(site_name.as_str(), script_name.as_str(), out) {
        Ok(()) => 0,
        Err(error) => say_failed(&error, err),
    }
}

/// Writes a text into a new file in a folder, if one is named, and gives the file's name; where it can't be written,
/// that is told.
///
/// # Errors
/// The exit status.
fn write_first<F: Files, E: Write>(
    alloc: Global,
    folder: Option<&str>,
    file: &str,
    text: &[u8],
    files: &F,
    in_colour: bool,
    err: &mut E,
) -> Result<String, u8>
    ensures written { OnOk result
        (F.writes files.now (spec.name_in (option_map (λ f. f.now) folder.entry) file.now) text.now) }
    ensures status { IfErr result (λ status. status ≡ 1) }
{
    let Ok(name) = name_in(alloc, folder, file) else {
        return Err(say_refused(Fault::Memory, err));
    };
    match files.write_new(name.as_str(), text) {
        Ok(()) => Ok(name),
        Err(error) => {
            let used = Use::Written;
            Err(say_file_fault(name.as_str(), used, &error, in_colour, err))
        }
    }
}

/// The name of a file in a folder, if one is named.
fn name_in(alloc: Global, folder: Option<&str>, name: &str) -> Result<String, AllocError>
    ensures { IfOk result (λ n. string_bytes n ≡ spec.name_in (option_map (λ f. f.now) folder.entry) name.now) }
{
    match folder {
        Some(folder) => format!(in alloc; "{folder}/{name}"),
        None => String::from_str(alloc, name),
    }
}

/// Prints which files were written, and a command line to go on with.
fn print_names<W: Write>(site: &str, script: &str, out: &mut W) -> io::Result<()> {
    writeln!(out, "wrote {site}")?;
    writeln!(out, "wrote {script}")?;
    writeln!(out, "now try: bacsite sim {site} {script}")
}
