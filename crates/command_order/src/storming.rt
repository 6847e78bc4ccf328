//! What the command of a storm asks for.

ghost use Rattle.std.specs.Prelude.{◌≡◌, IfOk};
ghost use Rattle.clap.specs.Words.{app_of, found_of, rows_of};
ghost use Rattle.command_order.specs.Storming as spec;

use crate::words::{
    at_site, flag, is_given, names, option, optional_word, required, script_file, word,
};
use clap::{ArgMatches, Command};
use std::alloc::{AllocError, Global};

/// Which storm follows which script on which site, and what is printed of it.
#[derive(Drop)]
pub struct Storming {
    /// The name of the site's file.
    pub site: String,
    /// The name of the script's file.
    pub script: String,
    /// The number that seeds it.
    pub seed: String,
    /// How many events there are.
    pub steps: String,
    pub percents: Percents,
    /// The name of the file in which its script is written, if one is named.
    pub file: Option<String>,
    /// Whether one line of counts is printed in place of the entries.
    pub is_counted: bool,
    /// Whether the standard's names are printed in place of numbers.
    pub is_named: bool,
}

/// How often what happens, in percent, where that is told.
#[derive(Drop)]
pub struct Percents {
    pub issue: Option<String>,
    pub lose: Option<String>,
    pub repeat: Option<String>,
    pub reorder: Option<String>,
    pub damage: Option<String>,
    pub restart: Option<String>,
}

/// The storm that is asked for.
pub(crate) fn storming_in(alloc: Global, matches: &ArgMatches<'_>) -> Result<Storming, AllocError>
    ensures { IfOk result (spec.IsStormingOf (rows_of (found_of matches.now))) }
{
    Ok(Storming {
        site: word(alloc, matches, "site")?,
        script: word(alloc, matches, "script")?,
        seed: word(alloc, matches, "seed")?,
        steps: word(alloc, matches, "steps")?,
        percents: percents_in(alloc, matches)?,
        file: optional_word(alloc, matches, "file")?,
        is_counted: is_given(matches, "count"),
        is_named: is_given(matches, "names"),
    })
}

/// The chances that are asked for.
fn percents_in(alloc: Global, matches: &ArgMatches<'_>) -> Result<Percents, AllocError>
    ensures { IfOk result (spec.ArePercentsOf (rows_of (found_of matches.now))) }
{
    Ok(Percents {
        issue: optional_word(alloc, matches, "issue")?,
        lose: optional_word(alloc, matches, "lose")?,
        repeat: optional_word(alloc, matches, "repeat")?,
        reorder: optional_word(alloc, matches, "reorder")?,
        damage: optional_word(alloc, matches, "damage")?,
        restart: optional_word(alloc, matches, "restart")?,
    })
}

/// The command of a storm.
pub(crate) fn storm<'a>(alloc: Global) -> Result<Command<'a>, AllocError>
    ensures { IfOk result (λ c. app_of c ≡ spec.storm) }
{
    let command = chances(alloc, named(alloc)?)?;
    command
        .arg(script_file(
            alloc,
            "Writes the script and the random events after it to a file that `sim` runs",
        ))?
        .arg(flag(
            alloc,
            "count",
            "Prints one line of counts instead of the events",
        ))?
        .arg(names(alloc))
}

/// The command with the words that have to be there.
fn named<'a>(alloc: Global) -> Result<Command<'a>, AllocError>
    ensures { IfOk result (λ c. app_of c ≡ spec.named) }
{
    at_site(
        alloc,
        "storm",
        "Runs a script on a site, continues with random events, and prints what happens",
    )?
    .arg(required(
        alloc,
        "seed",
        "N",
        "The seed: the same seed gives the same storm",
    ))?
    .arg(required(
        alloc,
        "steps",
        "N",
        "The number of random events after the script",
    ))
}

/// A command with how often in a storm something begins, is lost and is repeated.
fn losses<'a>(alloc: Global, command: Command<'a>) -> Result<Command<'a>, AllocError>
    ensures { IfOk result (λ c. app_of c ≡ spec.with_losses (app_of command.entry)) }
{
    command
        .arg(option(
            alloc,
            "issue",
            "PERCENT",
            "How often of a hundred events something begins, mostly a request [default: 5]",
        ))?
        .arg(option(
            alloc,
            "lose",
            "PERCENT",
            "How many of a hundred datagrams and frames are lost [default: 2]",
        ))?
        .arg(option(
            alloc,
            "repeat",
            "PERCENT",
            "How many of a hundred deliveries are repeated [default: 2]",
        ))
}

/// A command with the chances of a storm.
fn chances<'a>(alloc: Global, command: Command<'a>) -> Result<Command<'a>, AllocError>
    ensures { IfOk result (λ c. app_of c ≡ spec.with_chances (app_of command.entry)) }
{
    losses(alloc, command)?
        .arg(option(
            alloc,
            "reorder",
            "PERCENT",
            "How often of a hundred times another thing comes than what is next [default: 2]",
        ))?
        .arg(option(
            alloc,
            "damage",
            "PERCENT",
            "How many of a hundred frames are damaged [default: 1]",
        ))?
        .arg(option(
            alloc,
            "restart",
            "PERCENT",
            "How often of a hundred times a device restarts where something begins [default: 1]",
        ))
}
