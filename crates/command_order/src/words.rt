//! Words of a command line that several commands have.

ghost use Rattle.std.specs.Prelude.{◌≡◌, false, IfOk, map, option_map, string_bytes};
ghost use Rattle.clap.specs.Words.{app_of, first_of, found_of, one_of, rows_of, rule_of};
ghost use Rattle.command_order.specs.Words as spec;

use clap::{Arg, ArgAction, ArgMatches, Command};
use std::alloc::{AllocError, Global};

/// What a script is, for the help.
pub(crate) const SCRIPT_HELP: &str = "A script: one step per line (docs/script.md)";

/// The command of this name, after which a site file and a script are named.
pub(crate) fn at_site<'a>(
    alloc: Global,
    name: &'a str,
    about: &'a str,
) -> Result<Command<'a>, AllocError>
    ensures { IfOk result (λ c. app_of c ≡ spec.at_site name.entry.now) }
{
    Command::new(alloc, name)
        .about(about)
        .arg(site_file(alloc))?
        .arg(file(alloc, "script", "SCRIPT", SCRIPT_HELP))
}

/// The name of a site file.
pub(crate) fn site_file<'a>(alloc: Global) -> Arg<'a>
    ensures rule { rule_of result ≡ spec.site_rule }
    ensures own { result.global ≡ false }
{
    file(
        alloc,
        "site",
        "SITE",
        "A site file: networks and stations in TOML (docs/site-file.md)",
    )
}

/// The name of a file.
pub(crate) fn file<'a>(alloc: Global, id: &'a str, name: &'a str, help: &'a str) -> Arg<'a>
    ensures rule { rule_of result ≡ spec.file_rule id.entry.now }
    ensures own { result.global ≡ false }
{
    optional_file(alloc, id, name, help).required(true)
}

/// The name of a file, which may be left out.
pub(crate) fn optional_file<'a>(alloc: Global, id: &'a str, name: &'a str, help: &'a str) -> Arg<'a>
    ensures rule { rule_of result ≡ spec.optional_file_rule id.entry.now }
    ensures own { result.global ≡ false }
{
    Arg::new(alloc, id)
        .value_name(name)
        .action(ArgAction::Set)
        .help(help)
}

/// A flag, which may be left out.
pub(crate) fn flag<'a>(alloc: Global, id: &'a str, help: &'a str) -> Arg<'a>
    ensures rule { rule_of result ≡ spec.flag_rule id.entry.now }
    ensures own { result.global ≡ false }
{
    Arg::new(alloc, id)
        .long(id)
        .action(ArgAction::SetTrue)
        .help(help)
}

/// Whether JSON is printed.
pub(crate) fn json<'a>(alloc: Global) -> Arg<'a>
    ensures rule { rule_of result ≡ spec.json_rule }
    ensures own { result.global ≡ false }
{
    flag(alloc, "json", "Prints each line as a JSON object")
}

/// Whether names are printed.
pub(crate) fn names<'a>(alloc: Global) -> Arg<'a>
    ensures rule { rule_of result ≡ spec.names_rule }
    ensures own { result.global ≡ false }
{
    flag(
        alloc,
        "names",
        "Prints the standard's names in place of numbers",
    )
}

/// A word behind a flag of its name, which may be left out.
pub(crate) fn option<'a>(alloc: Global, id: &'a str, name: &'a str, help: &'a str) -> Arg<'a>
    ensures rule { rule_of result ≡ spec.option_rule id.entry.now }
    ensures own { result.global ≡ false }
{
    Arg::new(alloc, id)
        .long(id)
        .value_name(name)
        .action(ArgAction::Set)
        .help(help)
}

/// Two words behind a flag of their name, which may be left out.
pub(crate) fn pair<'a>(
    alloc: Global,
    id: &'a str,
    names: &'a [&'a str; 2],
    help: &'a str,
) -> Arg<'a>
    ensures rule { rule_of result ≡ spec.pair_rule id.entry.now }
    ensures own { result.global ≡ false }
{
    Arg::new(alloc, id)
        .long(id)
        .value_names(names)
        .action(ArgAction::Set)
        .help(help)
}

/// The file of a capture that is written, if one is named.
pub(crate) fn written_capture<'a>(alloc: Global) -> Arg<'a>
    ensures rule { rule_of result ≡ spec.capture_rule }
    ensures own { result.global ≡ false }
{
    option(
        alloc,
        "pcap",
        "FILE",
        "Writes each datagram and each frame that is sent to a pcapng file",
    )
}

/// The file in which a script is written, if one is named.
pub(crate) fn script_file<'a>(alloc: Global, help: &'a str) -> Arg<'a>
    ensures rule { rule_of result ≡ spec.script_file_rule }
    ensures own { result.global ≡ false }
{
    Arg::new(alloc, "file")
        .long("script")
        .value_name("FILE")
        .action(ArgAction::Set)
        .help(help)
}

/// A word behind a flag of its name, which has to be there.
pub(crate) fn required<'a>(alloc: Global, id: &'a str, name: &'a str, help: &'a str) -> Arg<'a>
    ensures rule { rule_of result ≡ spec.required_rule id.entry.now }
    ensures own { result.global ≡ false }
{
    option(alloc, id, name, help).required(true)
}

/// The word of an argument, if there is one.
pub(crate) fn optional_word(
    alloc: Global,
    matches: &ArgMatches<'_>,
    id: &str,
) -> Result<Option<String>, AllocError>
    ensures { IfOk result (λ word. option_map string_bytes word ≡ first_of id.now (rows_of (found_of matches.now))) }
{
    match matches.get_str(id) {
        Some(word) => Ok(Some(String::from_str(alloc, word)?)),
        None => Ok(None),
    }
}

/// The word of an argument, which is empty where there is none.
pub(crate) fn word(alloc: Global, matches: &ArgMatches<'_>, id: &str) -> Result<String, AllocError>
    ensures { IfOk result (λ word. string_bytes word ≡ spec.word_of id.now (rows_of (found_of matches.now))) }
{
    match matches.get_str(id) {
        Some(word) => String::from_str(alloc, word),
        None => Ok(String::new(alloc)),
    }
}

/// All words of an argument, none where it isn't given.
pub(crate) fn all_words(
    alloc: Global,
    matches: &ArgMatches<'_>,
    id: &str,
) -> Result<Vec<String>, AllocError>
    ensures { IfOk result (λ words. map string_bytes words.items
        ≡ spec.words_of id.now (rows_of (found_of matches.now))) }
{
    match matches.get_strs(id) {
        Some(values) => copied(alloc, values),
        None => Ok(Vec::new(alloc)),
    }
}

/// Words in memory of their own.
fn copied(alloc: Global, words: &[&str]) -> Result<Vec<String>, AllocError>
    ensures { IfOk result (λ copies. map string_bytes copies.items ≡ map (λ w. w.now) words.now) }
{
    let mut copies = Vec::new(alloc);
    for word in words {
        copies.push(String::from_str(alloc, word)?)?;
    }
    Ok(copies)
}

/// Whether a flag is given.
pub(crate) fn is_given(matches: &ArgMatches<'_>, id: &str) -> bool
    ensures { spec.IsFlag (one_of id.now (rows_of (found_of matches.now))) result }
{
    matches.get_flag(id)
}
