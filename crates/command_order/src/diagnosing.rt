//! What the command of a diagnosis asks for.

ghost use Rattle.std.specs.Prelude.{◌≡◌, IfOk};
ghost use Rattle.clap.specs.Words.{app_of, found_of, rows_of};
ghost use Rattle.command_order.specs.Diagnosing as spec;

use crate::words::{all_words, file, flag, is_given, json, option, optional_word, pair, word};
use clap::{ArgMatches, Command};
use std::alloc::{AllocError, Global};

/// Which capture is diagnosed, and what is printed of it.
#[derive(Drop)]
pub struct Diagnosing {
    /// The name of the capture's file.
    pub capture: String,
    /// For how many milliseconds a request waits for its answer, if that is given.
    pub timeout: Option<String>,
    /// After how many milliseconds an answer is slow, if that is given.
    pub slow: Option<String>,
    /// A port of UDP beside the usual ones whose datagrams are to be those of BACnet/IP, if that is given.
    pub port: Option<String>,
    /// Whether all findings are printed, however many there are of a name.
    pub shows_all: bool,
    /// Whether the transactions are printed.
    pub lists_transactions: bool,
    /// Whether the stations are printed.
    pub lists_stations: bool,
    /// Whether what is printed is JSON.
    pub is_json: bool,
    pub excerpt: Excerpt,
    /// The name of a site's file, whose names stand for addresses, if one is named.
    pub site: Option<String>,
    /// The name of a file for a page of the capture, if one is named.
    pub report: Option<String>,
}

/// Which packets of a capture are asked for.
#[derive(Drop)]
pub struct Excerpt {
    /// The two stations between which they are; none of both, where that isn't given.
    pub between: Vec<String>,
    /// The instance of the device that sends or receives them, if that is given.
    pub instance: Option<String>,
    /// The time from which on they are, in milliseconds, if that is given.
    pub from: Option<String>,
    /// The time up to which they are, in milliseconds, if that is given.
    pub to: Option<String>,
}

/// The diagnosis that is asked for.
pub(crate) fn diagnosing_in(
    alloc: Global,
    matches: &ArgMatches<'_>,
) -> Result<Diagnosing, AllocError>
    ensures { IfOk result (spec.IsDiagnosingOf (rows_of (found_of matches.now))) }
{
    Ok(Diagnosing {
        capture: word(alloc, matches, "capture")?,
        timeout: optional_word(alloc, matches, "timeout")?,
        slow: optional_word(alloc, matches, "slow")?,
        port: optional_word(alloc, matches, "port")?,
        shows_all: is_given(matches, "all"),
        lists_transactions: is_given(matches, "transactions"),
        lists_stations: is_given(matches, "stations"),
        is_json: is_given(matches, "json"),
        excerpt: excerpt_in(alloc, matches)?,
        site: optional_word(alloc, matches, "site")?,
        report: optional_word(alloc, matches, "report")?,
    })
}

/// Which packets are asked for.
fn excerpt_in(alloc: Global, matches: &ArgMatches<'_>) -> Result<Excerpt, AllocError>
    ensures { IfOk result (spec.IsExcerptOf (rows_of (found_of matches.now))) }
{
    Ok(Excerpt {
        between: all_words(alloc, matches, "between")?,
        instance: optional_word(alloc, matches, "instance")?,
        from: optional_word(alloc, matches, "from")?,
        to: optional_word(alloc, matches, "to")?,
    })
}

/// The command that diagnoses a capture.
pub(crate) fn diagnose<'a>(alloc: Global) -> Result<Command<'a>, AllocError>
    ensures { IfOk result (λ c. app_of c ≡ spec.diagnose) }
{
    with_files(
        alloc,
        with_times(alloc, with_stations(alloc, told(alloc)?)?)?,
    )
}

/// The command with what is judged, and what is printed of it.
fn told<'a>(alloc: Global) -> Result<Command<'a>, AllocError>
    ensures { IfOk result (λ c. app_of c ≡ spec.told) }
{
    Command::new(alloc, "diagnose")
        .about("Follows each request of a capture to its end, and tells what no plant should show")
        .arg(file(
            alloc,
            "capture",
            "CAPTURE",
            "A capture (pcap or pcapng); - reads standard input",
        ))?
        .arg(option(
            alloc,
            "timeout",
            "MS",
            "How long a request waits for its answer, in milliseconds [default: 20000]",
        ))?
        .arg(option(
            alloc,
            "slow",
            "MS",
            "An answer that takes longer is slow, in milliseconds [default: 1000]",
        ))?
        .arg(option(
            alloc,
            "port",
            "PORT",
            "A UDP port for BACnet/IP beside 47808 to 47823",
        ))?
        .arg(flag(
            alloc,
            "all",
            "Prints all findings, not twenty of each name; reads a file twice",
        ))?
        .arg(flag(alloc, "transactions", "Prints a table of the requests"))?
        .arg(flag(alloc, "stations", "Prints a table of the stations"))?
        .arg(json(alloc))
}

/// A command with the stations whose packets are asked for.
fn with_stations<'a>(alloc: Global, command: Command<'a>) -> Result<Command<'a>, AllocError>
    ensures { IfOk result (λ c. app_of c ≡ spec.with_stations (app_of command.entry)) }
{
    command
        .arg(pair(
            alloc,
            "between",
            &["A", "B"],
            "Only what one of two stations sends to the other, each by its address as it is printed",
        ))?
        .arg(option(
            alloc,
            "instance",
            "N",
            "Only what a device sends or receives, by its instance; a file is read once more",
        ))
}

/// A command with the times between which packets are asked for.
fn with_times<'a>(alloc: Global, command: Command<'a>) -> Result<Command<'a>, AllocError>
    ensures { IfOk result (λ c. app_of c ≡ spec.with_times (app_of command.entry)) }
{
    command
        .arg(option(
            alloc,
            "from",
            "MS",
            "Only packets from this time on, in milliseconds after the first [default: 0]",
        ))?
        .arg(option(
            alloc,
            "to",
            "MS",
            "Only packets up to this time [default: the end of the capture]",
        ))
}

/// A command with the files that are read and written beside the capture.
fn with_files<'a>(alloc: Global, command: Command<'a>) -> Result<Command<'a>, AllocError>
    ensures { IfOk result (λ c. app_of c ≡ spec.with_files (app_of command.entry)) }
{
    command
        .arg(option(
            alloc,
            "site",
            "SITE",
            "Prints the names of a site file for addresses, which --between takes too",
        ))?
        .arg(option(
            alloc,
            "report",
            "FILE",
            "Writes an HTML page: the summary, plots over the capture, each finding with its packets",
        ))
}
