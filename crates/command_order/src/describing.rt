//! What the commands ask for that describe the program: its conformance statement, its completions, its man page.

ghost use Rattle.std.specs.Prelude.{◌≡◌, false, IfOk};
ghost use Rattle.clap.specs.Words.{app_of, found_of, rows_of, rule_of};
ghost use Rattle.command_order.specs.Describing as spec;

use crate::words::{flag, is_given};
use clap::{Arg, ArgAction, ArgMatches, Command};
use std::alloc::{AllocError, Global};

/// How the conformance statement is printed.
#[derive(Clone, Copy, Debug, PartialEq, Eq)]
pub struct Stating {
    /// Whether it is printed as Markdown, and not as plain text.
    pub is_markdown: bool,
}

/// The statement that is asked for.
pub(crate) fn stating_in(matches: &ArgMatches<'_>) -> Stating
    ensures { spec.IsStatingOf (rows_of (found_of matches.now)) result }
{
    Stating {
        is_markdown: is_given(matches, "markdown"),
    }
}

/// The command that prints the conformance statement.
pub(crate) fn pics<'a>(alloc: Global) -> Result<Command<'a>, AllocError>
    ensures { IfOk result (λ c. app_of c ≡ spec.pics) }
{
    Command::new(alloc, "pics")
        .about("Prints the protocol implementation conformance statement")
        .arg(flag(alloc, "markdown", "Prints it as Markdown"))
}

/// The command that prints completions.
pub(crate) fn completions<'a>(alloc: Global) -> Result<Command<'a>, AllocError>
    ensures { IfOk result (λ c. app_of c ≡ spec.completions) }
{
    Command::new(alloc, "completions")
        .about("Prints completions of commands, flags and files for a shell")
        .arg(shell(alloc))
}

/// The name of a shell.
fn shell<'a>(alloc: Global) -> Arg<'a>
    ensures rule { rule_of result ≡ spec.shell_rule }
    ensures own { result.global ≡ false }
{
    Arg::new(alloc, "shell")
        .value_name("SHELL")
        .required(true)
        .action(ArgAction::Set)
        .help("The shell: bash, zsh or fish")
}

/// The command that prints the man page.
pub(crate) fn man<'a>(alloc: Global) -> Command<'a>
    ensures { app_of result ≡ spec.man }
{
    Command::new(alloc, "man").about("Prints the man page")
}
