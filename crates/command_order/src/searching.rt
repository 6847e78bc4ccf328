//! What the command of a search asks for.

ghost use Rattle.std.specs.Prelude.{◌≡◌, IfOk};
ghost use Rattle.clap.specs.Words.{app_of, found_of, rows_of};
ghost use Rattle.command_order.specs.Searching as spec;

use crate::words::{at_site, is_given, names, option, optional_word, required, word};
use clap::{ArgMatches, Command};
use std::alloc::{AllocError, Global};

/// What is searched for after which script on which site.
#[derive(Drop)]
pub struct Searching {
    /// The name of the site's file.
    pub site: String,
    /// The name of the script's file.
    pub script: String,
    /// The words of the entry that is searched for.
    pub until: String,
    /// How many events there may be after the script, if that is given.
    pub depth: Option<String>,
    /// Whether the standard's names are printed in place of numbers.
    pub is_named: bool,
}

/// The search that is asked for.
pub(crate) fn searching_in(alloc: Global, matches: &ArgMatches<'_>) -> Result<Searching, AllocError>
    ensures { IfOk result (spec.IsSearchingOf (rows_of (found_of matches.now))) }
{
    Ok(Searching {
        site: word(alloc, matches, "site")?,
        script: word(alloc, matches, "script")?,
        until: word(alloc, matches, "until")?,
        depth: optional_word(alloc, matches, "depth")?,
        is_named: is_given(matches, "names"),
    })
}

/// The command of a search.
pub(crate) fn search<'a>(alloc: Global) -> Result<Command<'a>, AllocError>
    ensures { IfOk result (λ c. app_of c ≡ spec.search) }
{
    at_site(
        alloc,
        "search",
        "Finds the shortest sequence of events after a script that leads to a given result",
    )?
    .arg(required(
        alloc,
        "until",
        "WORDS",
        "The result to find: the beginning of a line, without its time, such as `ended 0 timedout`",
    ))?
    .arg(option(
        alloc,
        "depth",
        "N",
        "The greatest number of events after the script [default: 8]",
    ))?
    .arg(names(alloc))
}
