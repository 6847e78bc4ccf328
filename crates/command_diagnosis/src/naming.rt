//! The names of a site that a command line asks for.

ghost use Rattle.std.specs.Prelude.{◌≤◌, IfErr};

use command_files::{Files, input_name, read_file};
use console::say_refused;
use diagnosis_names::{Names, names_of};
use site_text::site_of;
use site_text_faults::tell_site_faults;
use std::alloc::Global;
use std::io::Write;
use tags::Fault;

/// The names of the site whose file has this name; none without one.
///
/// # Errors
/// The exit status where the file can't be read or describes no site, which is told.
pub(crate) fn names_in<F: Files, E: Write>(
    alloc: Global,
    name: Option<&str>,
    files: &F,
    in_colour: bool,
    err: &mut E,
) -> Result<Option<Names<Global>>, u8>
    ensures { IfErr result (λ status. status ≤ 2) }
{
    let Some(name) = name else {
        return Ok(None);
    };
    let text = read_file(alloc, name, files, in_colour, err)?;
    match names_in_text(alloc, text.as_slice()) {
        Ok(names) => Ok(Some(names)),
        Err(fault) => {
            let status = say_refused(fault, err);
            let _ = tell_site_faults(
                alloc,
                alloc,
                input_name(name),
                text.as_slice(),
                in_colour,
                err,
            );
            Err(status)
        }
    }
}

/// The names of the site that a text describes.
fn names_in_text(alloc: Global, text: &[u8]) -> Result<Names<Global>, Fault> {
    let site = site_of(alloc, alloc, text)?;
    Ok(names_of(alloc, site.networks(), site.stations())?)
}
