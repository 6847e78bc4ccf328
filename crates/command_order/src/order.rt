//! The command line.

ghost use Rattle.std.specs.Prelude.{◌≡◌, true, false, IfOk, map, string_bytes};
ghost use Rattle.clap.specs.Words.{app_of, rule_of, rows_of, found_of, with_subcommand};
ghost use Rattle.clap.specs.Words.{subcommand_of, subcommand_rows_of, FailsBy, fault_of};
ghost use Rattle.command_order.specs.Order.{program, bare, simulators, site_commands, tool, tools, hex_rule};
ghost use Rattle.command_order.specs.Order.{check, explain, fmt, live, optional_hex_rule, run};
ghost use Rattle.command_order.specs.Order.{IsExplainingOf, IsOrderOf, IsLiveRunOf, IsCheckingOf};
ghost use Rattle.command_order.specs.Order.{IsOrderOr, NamesNoSiteCommand, NamesNoTool};

use crate::describing::{Stating, completions, man, pics, stating_in};
use crate::diagnosing::{Diagnosing, diagnose, diagnosing_in};
use crate::examples;
use crate::searching::{Searching, search, searching_in};
use crate::simulating::{Simulation, sim, simulation_in};
use crate::starting::{Starting, init, starting_in};
use crate::storming::{Storming, storm, storming_in};
use crate::words::{
    SCRIPT_HELP, all_words, at_site, file, flag, is_given, json, names, option, optional_file,
    optional_word, site_file, word, written_capture,
};
use clap::{Arg, ArgAction, ArgMatches, Command, Error};
use std::alloc::{AllocError, Global};

/// The version of the program, as `--version` prints it.
const VERSION: &str = "0.1.0";

/// What the command line asks for.
#[derive(Drop)]
pub enum Order {
    /// Answer the datagram that these words spell.
    Answer(Vec<String>),
    /// Take a datagram apart, or each packet of a capture.
    Explain(Explaining),
    /// Follow the requests of a capture to their ends.
    Diagnose(Diagnosing),
    /// Run a script on a site.
    Sim(Simulation),
    /// Run a script on a site, and continue with random events.
    Storm(Storming),
    /// Find what may come after a script on a site.
    Search(Searching),
    /// Run a site live, with a script.
    Run(LiveRun),
    /// Report what is wrong with a site file, and with a script for it.
    Check(Checking),
    /// Print the script of this file with its spacing and line endings corrected.
    Fmt(String),
    /// Print the conformance statement.
    Pics(Stating),
    /// Write a site and a script to begin with.
    Init(Starting),
    /// Print the completions for the shell of this name.
    Completions(String),
    /// Print the man page.
    Man,
}

/// What is taken apart.
#[derive(Drop)]
pub struct Explaining {
    /// The words that spell a datagram, if there are any.
    pub words: Vec<String>,
    /// The name of a capture's file, if one is named.
    pub capture: Option<String>,
    /// Whether each line is printed as JSON.
    pub is_json: bool,
    /// Whether the standard's names are printed behind numbers.
    pub is_named: bool,
}

/// Which site is run live, with which script, and how.
#[derive(Drop)]
pub struct LiveRun {
    /// The name of the site's file.
    pub site: String,
    /// The name of the script's file.
    pub script: String,
    /// Whether stations receive what comes from outside the site.
    pub is_open: bool,
    /// For how many seconds it continues after its script, if that is given: 0 until it is interrupted.
    pub seconds: Option<String>,
    /// The name of a file for a capture of what is sent, if one is named.
    pub capture: Option<String>,
    /// Whether each line is printed as JSON.
    pub is_json: bool,
    /// Whether the standard's names are printed in place of numbers.
    pub is_named: bool,
}

/// Which site file is checked, and with which script.
#[derive(Drop)]
pub struct Checking {
    /// The name of the site's file.
    pub site: String,
    /// The name of the script's file, if a script is checked too.
    pub script: Option<String>,
    /// Whether each line is printed as JSON.
    pub is_json: bool,
    /// Whether a note is a fault too.
    pub is_strict: bool,
    /// Whether the script is checked as one of a live run.
    pub is_live: bool,
}

/// What the words ask for, the first of them being the program's name: `None` where they name
/// no command, which clap refuses before.
///
/// # Errors
/// Help that was asked for, a fault of the command line, or want of memory, with its text.
pub fn order_of(alloc: Global, words: &[String]) -> Result<Option<Order>, Error>
    ensures order { IfOk result (IsOrderOf (subcommand_of program (map string_bytes words.now))) }
    ensures fault { FailsBy (fault_of program (map string_bytes words.now)) result }
{
    let matches = matches_of(alloc, words)?;
    Ok(order_in(alloc, &matches)?)
}

/// The matches that the words give.
fn matches_of<'a>(alloc: Global, words: &'a [String]) -> Result<ArgMatches<'a>, Error>
    ensures found { IfOk result (λ m. subcommand_rows_of m ≡ subcommand_of program (map string_bytes words.entry.now)) }
    ensures fault { FailsBy (fault_of program (map string_bytes words.entry.now)) result }
{
    let command = command(alloc)?;
    command.try_get_matches_from(words)
}

/// The order that the matches hold.
fn order_in(alloc: Global, matches: &ArgMatches<'_>) -> Result<Option<Order>, AllocError>
    ensures { IfOk result (IsOrderOf (subcommand_rows_of matches.now)) }
{
    match site_order_in(alloc, matches)? {
        Some(order) => Ok(Some(order)),
        None => tool_order_in(alloc, matches),
    }
}

/// The order that the matches hold, if it is one of a site and its script.
fn site_order_in(alloc: Global, matches: &ArgMatches<'_>) -> Result<Option<Order>, AllocError>
    ensures { IfOk result (IsOrderOr NamesNoSiteCommand (subcommand_rows_of matches.now)) }
{
    if let Some(sim) = matches.subcommand_matches("sim") {
        return Ok(Some(Order::Sim(simulation_in(alloc, sim)?)));
    }
    if let Some(storm) = matches.subcommand_matches("storm") {
        return Ok(Some(Order::Storm(storming_in(alloc, storm)?)));
    }
    if let Some(search) = matches.subcommand_matches("search") {
        return Ok(Some(Order::Search(searching_in(alloc, search)?)));
    }
    if let Some(run) = matches.subcommand_matches("run") {
        return Ok(Some(Order::Run(live_run_in(alloc, run)?)));
    }
    if let Some(check) = matches.subcommand_matches("check") {
        return Ok(Some(Order::Check(checking_in(alloc, check)?)));
    }
    if let Some(fmt) = matches.subcommand_matches("fmt") {
        return Ok(Some(Order::Fmt(word(alloc, fmt, "script")?)));
    }
    Ok(None)
}

/// The order that the matches hold, if it is one of a datagram or of the program.
fn tool_order_in(alloc: Global, matches: &ArgMatches<'_>) -> Result<Option<Order>, AllocError>
    ensures { IfOk result (IsOrderOr NamesNoTool (subcommand_rows_of matches.now)) }
{
    if let Some(answer) = matches.subcommand_matches("answer") {
        return Ok(Some(Order::Answer(all_words(alloc, answer, "hex")?)));
    }
    if let Some(explain) = matches.subcommand_matches("explain") {
        return Ok(Some(Order::Explain(explaining_in(alloc, explain)?)));
    }
    if let Some(diagnose) = matches.subcommand_matches("diagnose") {
        return Ok(Some(Order::Diagnose(diagnosing_in(alloc, diagnose)?)));
    }
    if let Some(pics) = matches.subcommand_matches("pics") {
        return Ok(Some(Order::Pics(stating_in(pics))));
    }
    if let Some(init) = matches.subcommand_matches("init") {
        return Ok(Some(Order::Init(starting_in(alloc, init)?)));
    }
    if let Some(completions) = matches.subcommand_matches("completions") {
        return Ok(Some(Order::Completions(word(alloc, completions, "shell")?)));
    }
    if let Some(_man) = matches.subcommand_matches("man") {
        return Ok(Some(Order::Man));
    }
    Ok(None)
}

/// What is to be taken apart.
fn explaining_in(alloc: Global, matches: &ArgMatches<'_>) -> Result<Explaining, AllocError>
    ensures { IfOk result (IsExplainingOf (rows_of (found_of matches.now))) }
{
    Ok(Explaining {
        words: all_words(alloc, matches, "hex")?,
        capture: optional_word(alloc, matches, "pcap")?,
        is_json: is_given(matches, "json"),
        is_named: is_given(matches, "names"),
    })
}

/// The live run that is asked for.
fn live_run_in(alloc: Global, matches: &ArgMatches<'_>) -> Result<LiveRun, AllocError>
    ensures { IfOk result (IsLiveRunOf (rows_of (found_of matches.now))) }
{
    Ok(LiveRun {
        site: word(alloc, matches, "site")?,
        script: word(alloc, matches, "script")?,
        is_open: is_given(matches, "open"),
        seconds: optional_word(alloc, matches, "for")?,
        capture: optional_word(alloc, matches, "pcap")?,
        is_json: is_given(matches, "json"),
        is_named: is_given(matches, "names"),
    })
}

/// The check that is asked for.
fn checking_in(alloc: Global, matches: &ArgMatches<'_>) -> Result<Checking, AllocError>
    ensures { IfOk result (IsCheckingOf (rows_of (found_of matches.now))) }
{
    Ok(Checking {
        site: word(alloc, matches, "site")?,
        script: optional_word(alloc, matches, "script")?,
        is_json: is_given(matches, "json"),
        is_strict: is_given(matches, "strict"),
        is_live: is_given(matches, "live"),
    })
}

/// The commands of the program, with their arguments, for what describes them.
pub fn command<'a>(alloc: Global) -> Result<Command<'a>, AllocError>
    ensures { IfOk result (λ c. app_of c ≡ program) }
{
    let command = add(site_commands(alloc)?, pics(alloc)?, examples::PICS)?;
    let command = add(command, init(alloc)?, examples::INIT)?;
    let command = add(command, completions(alloc)?, examples::COMPLETIONS)?;
    add(command, man(alloc), examples::MAN)
}

/// The program with the commands of one datagram, and those of a site.
fn site_commands<'a>(alloc: Global) -> Result<Command<'a>, AllocError>
    ensures { IfOk result (λ c. app_of c ≡ site_commands) }
{
    let command = add(simulators(alloc)?, run(alloc)?, examples::RUN)?;
    let command = add(command, check(alloc)?, examples::CHECK)?;
    add(command, fmt(alloc)?, examples::FMT)
}

/// The program with the commands of one datagram, and those of a simulated site.
fn simulators<'a>(alloc: Global) -> Result<Command<'a>, AllocError>
    ensures { IfOk result (λ c. app_of c ≡ simulators) }
{
    let command = add(tools(alloc)?, sim(alloc)?, examples::SIM)?;
    let command = add(command, storm(alloc)?, examples::STORM)?;
    add(command, search(alloc)?, examples::SEARCH)
}

/// The program with the commands of one datagram, and of a capture.
fn tools<'a>(alloc: Global) -> Result<Command<'a>, AllocError>
    ensures { IfOk result (λ c. app_of c ≡ tools) }
{
    let answer = tool(
        alloc,
        "answer",
        "Prints what the built-in device answers to a BACnet/IP datagram",
    )?;
    let command = add(bare(alloc), answer, examples::ANSWER)?;
    let command = add(command, explain(alloc)?, examples::EXPLAIN)?;
    add(command, diagnose(alloc)?, examples::DIAGNOSE)
}

/// The command that explains a datagram, or a file with a capture.
fn explain<'a>(alloc: Global) -> Result<Command<'a>, AllocError>
    ensures { IfOk result (λ c. app_of c ≡ explain) }
{
    Command::new(alloc, "explain")
        .about("Takes a BACnet/IP datagram apart: its headers, and its tags one by one")
        .arg(optional_hex_argument(alloc))?
        .arg(option(
            alloc,
            "pcap",
            "FILE",
            "Decodes each packet of a capture (pcap or pcapng), instead of HEX",
        ))?
        .arg(json(alloc))?
        .arg(flag(
            alloc,
            "names",
            "Prints first what the datagram is, and the standard's names behind numbers",
        ))
}

/// The command that runs a site live.
fn run<'a>(alloc: Global) -> Result<Command<'a>, AllocError>
    ensures { IfOk result (λ c. app_of c ≡ run) }
{
    live(alloc)?
        .arg(written_capture(alloc))?
        .arg(json(alloc))?
        .arg(names(alloc))
}

/// The command of a live run with how it continues.
fn live<'a>(alloc: Global) -> Result<Command<'a>, AllocError>
    ensures { IfOk result (λ c. app_of c ≡ live) }
{
    at_site(
        alloc,
        "run",
        "Runs a script on a site, live over UDP, and prints what happens",
    )?
    .arg(flag(
        alloc,
        "open",
        "Lets stations receive datagrams from outside the site, and answer them",
    ))?
    .arg(option(
        alloc,
        "for",
        "SECONDS",
        "Continues for so many seconds after the script; 0 means until it is interrupted",
    ))
}

/// The command that reports what is wrong with a site file.
fn check<'a>(alloc: Global) -> Result<Command<'a>, AllocError>
    ensures { IfOk result (λ c. app_of c ≡ check) }
{
    Command::new(alloc, "check")
        .about("Reports what is wrong with a site file, and with a script for it")
        .arg(site_file(alloc))?
        .arg(optional_file(alloc, "script", "SCRIPT", SCRIPT_HELP))?
        .arg(json(alloc))?
        .arg(flag(alloc, "strict", "Exits with status 1 if there is a note"))?
        .arg(flag(alloc, "live", "Checks the script as one for `bacsite run`"))
}

/// The command that corrects the spacing and line endings of a script.
fn fmt<'a>(alloc: Global) -> Result<Command<'a>, AllocError>
    ensures { IfOk result (λ c. app_of c ≡ fmt) }
{
    Command::new(alloc, "fmt")
        .about("Prints a script with its spacing and line endings corrected")
        .arg(file(alloc, "script", "SCRIPT", SCRIPT_HELP))
}

/// A command with a subcommand more, whose help ends with these examples.
fn add<'a>(
    command: Command<'a>,
    tool: Command<'a>,
    examples: &'a str,
) -> Result<Command<'a>, AllocError>
    requires plain { (app_of tool).top.is_plain ≡ true }
    ensures { IfOk result (λ c. app_of c ≡ with_subcommand (app_of command.entry) (app_of tool.entry).top) }
{
    command.subcommand(tool.after_help(examples))
}

/// The program without its commands, one of which has to be there.
fn bare<'a>(alloc: Global) -> Command<'a>
    ensures { app_of result ≡ bare }
{
    Command::new(alloc, "bacsite")
        .about("Tests how a BACnet site behaves when messages are lost, late, repeated or damaged")
        .version(VERSION)
        .subcommand_required(true)
        .after_help(examples::PROGRAM)
}

/// A command with the words of a datagram behind it.
fn tool<'a>(alloc: Global, name: &'a str, about: &'a str) -> Result<Command<'a>, AllocError>
    ensures { IfOk result (λ c. app_of c ≡ tool name.entry.now) }
{
    Command::new(alloc, name)
        .about(about)
        .arg(hex_argument(alloc))
}

/// The words that spell a datagram.
fn hex_argument<'a>(alloc: Global) -> Arg<'a>
    ensures rule { rule_of result ≡ hex_rule }
    ensures own { result.global ≡ false }
{
    Arg::new(alloc, "hex")
        .value_name("HEX")
        .required(true)
        .action(ArgAction::Append)
        .num_args(1..)
        .help(
            "A BACnet/IP datagram: pairs of hexadecimal digits, with or without spaces between them",
        )
}

/// The words that say a datagram, or none.
fn optional_hex_argument<'a>(alloc: Global) -> Arg<'a>
    ensures rule { rule_of result ≡ optional_hex_rule }
    ensures own { result.global ≡ false }
{
    hex_argument(alloc).required(false).help(
        "A BACnet/IP datagram in hexadecimal digits, as 81 0A 00 11, 81:0a:00:11, 0x81, 0x0a, 0x00, 0x11 \
             or the lines of a hex dump",
    )
}
