//! What the command of a first site asks for.

ghost use Rattle.std.specs.Prelude.{◌≡◌, IfOk};
ghost use Rattle.clap.specs.Words.{app_of, found_of, rows_of};
ghost use Rattle.command_order.specs.Starting as spec;

use crate::words::{option, optional_file, optional_word};
use clap::{ArgMatches, Command};
use std::alloc::{AllocError, Global};

/// Where a site and a script to begin with are written, and how large the site is.
#[derive(Drop)]
pub struct Starting {
    /// The name of the folder, if one is named: else the one where the program runs.
    pub folder: Option<String>,
    /// How many devices the site has, if that is given.
    pub devices: Option<String>,
}

/// The first site that is asked for.
pub(crate) fn starting_in(alloc: Global, matches: &ArgMatches<'_>) -> Result<Starting, AllocError>
    ensures { IfOk result (spec.IsStartingOf (rows_of (found_of matches.now))) }
{
    Ok(Starting {
        folder: optional_word(alloc, matches, "folder")?,
        devices: optional_word(alloc, matches, "devices")?,
    })
}

/// The command that writes a site and a script to begin with.
pub(crate) fn init<'a>(alloc: Global) -> Result<Command<'a>, AllocError>
    ensures { IfOk result (λ c. app_of c ≡ spec.init) }
{
    Command::new(alloc, "init")
        .about("Writes a small site and a script to begin with: site.toml and first.script")
        .arg(optional_file(
            alloc,
            "folder",
            "FOLDER",
            "The folder for both files; neither may exist yet [default: .]",
        ))?
        .arg(option(
            alloc,
            "devices",
            "N",
            "How many devices the site has, 1 to 250 [default: 1]",
        ))
}
