//! What the command of a simulation asks for.

ghost use Rattle.std.specs.Prelude.{◌≡◌, IfOk};
ghost use Rattle.clap.specs.Words.{app_of, found_of, rows_of};
ghost use Rattle.command_order.specs.Simulating as spec;

use crate::words::{
    at_site, flag, is_given, json, names, option, optional_word, script_file, word, written_capture,
};
use clap::{ArgMatches, Command};
use std::alloc::{AllocError, Global};

/// Which script is run on which site, and what is printed and written of it.
#[derive(Drop)]
pub struct Simulation {
    /// The name of the site's file.
    pub site: String,
    /// The name of the script's file.
    pub script: String,
    /// Whether each datagram is printed that is sent.
    pub is_traced: bool,
    /// Whether each line is printed as JSON.
    pub is_json: bool,
    /// Whether the standard's names are printed in place of numbers.
    pub is_named: bool,
    pub outputs: Outputs,
}

/// The files that are written of a run, where they are named, and which part of it they show.
#[derive(Drop)]
pub struct Outputs {
    /// The name of a file for a capture of what is sent.
    pub capture: Option<String>,
    /// The name of a file for the picture of the run.
    pub ladder: Option<String>,
    /// The name of a file for a page of the run.
    pub report: Option<String>,
    /// The name of a file for a script of all that happened, event by event.
    pub script: Option<String>,
    /// The name of a file for a report of what the script expects.
    pub junit: Option<String>,
    /// The time at which picture and page begin, in milliseconds.
    pub from: Option<String>,
    /// The time at which they end, in milliseconds.
    pub to: Option<String>,
    /// The names of the stations that they show, with commas between them.
    pub only: Option<String>,
    /// The numbers of the requests that they show, with commas between them.
    pub request: Option<String>,
}

/// The simulation that is asked for.
pub(crate) fn simulation_in(
    alloc: Global,
    matches: &ArgMatches<'_>,
) -> Result<Simulation, AllocError>
    ensures { IfOk result (spec.IsSimulationOf (rows_of (found_of matches.now))) }
{
    Ok(Simulation {
        site: word(alloc, matches, "site")?,
        script: word(alloc, matches, "script")?,
        is_traced: is_given(matches, "trace"),
        is_json: is_given(matches, "json"),
        is_named: is_given(matches, "names"),
        outputs: outputs_in(alloc, matches)?,
    })
}

/// What is to be written.
fn outputs_in(alloc: Global, matches: &ArgMatches<'_>) -> Result<Outputs, AllocError>
    ensures { IfOk result (spec.AreOutputsOf (rows_of (found_of matches.now))) }
{
    Ok(Outputs {
        capture: optional_word(alloc, matches, "pcap")?,
        ladder: optional_word(alloc, matches, "ladder")?,
        report: optional_word(alloc, matches, "report")?,
        script: optional_word(alloc, matches, "file")?,
        junit: optional_word(alloc, matches, "junit")?,
        from: optional_word(alloc, matches, "from")?,
        to: optional_word(alloc, matches, "to")?,
        only: optional_word(alloc, matches, "only")?,
        request: optional_word(alloc, matches, "request")?,
    })
}

/// The command that runs a script on a site.
pub(crate) fn sim<'a>(alloc: Global) -> Result<Command<'a>, AllocError>
    ensures { IfOk result (λ c. app_of c ≡ spec.sim) }
{
    with_choice(
        alloc,
        with_times(
            alloc,
            with_junit(alloc, with_files(alloc, printed(alloc)?)?)?,
        )?,
    )
}

/// The command with how its lines are printed.
fn printed<'a>(alloc: Global) -> Result<Command<'a>, AllocError>
    ensures { IfOk result (λ c. app_of c ≡ spec.printed) }
{
    at_site(
        alloc,
        "sim",
        "Runs a script on a site, in simulated time, and prints what happens",
    )?
    .arg(flag(
        alloc,
        "trace",
        "Prints each datagram that is sent, with the number that `deliver` takes, and each frame",
    ))?
    .arg(json(alloc))?
    .arg(names(alloc))
}

/// A command with the files that are written of a run.
fn with_files<'a>(alloc: Global, command: Command<'a>) -> Result<Command<'a>, AllocError>
    ensures { IfOk result (λ c. app_of c ≡ spec.with_files (app_of command.entry)) }
{
    command
        .arg(written_capture(alloc))?
        .arg(option(
            alloc,
            "ladder",
            "FILE",
            "Draws the run as SVG: a lane for each station, an arrow for each message",
        ))?
        .arg(option(
            alloc,
            "report",
            "FILE",
            "Writes an HTML page: the ladder, the history, and each datagram and frame decoded",
        ))?
        .arg(script_file(
            alloc,
            "Writes what happened, an event on each line, to a file that `sim` runs",
        ))
}

/// A command with the report of what the script expects.
fn with_junit<'a>(alloc: Global, command: Command<'a>) -> Result<Command<'a>, AllocError>
    ensures { IfOk result (λ c. app_of c ≡ spec.with_junit (app_of command.entry)) }
{
    command.arg(option(
        alloc,
        "junit",
        "FILE",
        "Writes a JUnit report: a test case for each `expect` of the script",
    ))
}

/// A command with the times between which picture and page show a run.
fn with_times<'a>(alloc: Global, command: Command<'a>) -> Result<Command<'a>, AllocError>
    ensures { IfOk result (λ c. app_of c ≡ spec.with_times (app_of command.entry)) }
{
    command
        .arg(option(
            alloc,
            "from",
            "MS",
            "The time at which the ladder and the report begin [default: 0]",
        ))?
        .arg(option(
            alloc,
            "to",
            "MS",
            "The time at which the ladder and the report end [default: the end of the run]",
        ))
}

/// A command with the stations and requests that picture and page show.
fn with_choice<'a>(alloc: Global, command: Command<'a>) -> Result<Command<'a>, AllocError>
    ensures { IfOk result (λ c. app_of c ≡ spec.with_choice (app_of command.entry)) }
{
    command
        .arg(option(
            alloc,
            "only",
            "STATION,..",
            "The stations that the ladder and the report show [default: all]",
        ))?
        .arg(option(
            alloc,
            "request",
            "N,..",
            "The numbers of the requests that the ladder and the report show [default: all]",
        ))
}
