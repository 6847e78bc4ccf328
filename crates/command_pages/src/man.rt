//! The man page.

use crate::arguments::shown;
use crate::escaped::Roff;
use crate::prose;
use clap::{Arg, Command};
use std::alloc::Global;
use std::io;
use std::io::Write;

/// Writes the man page of a command, with examples of it and of its subcommands, each behind a name.
///
/// # Errors
/// A failed write, or want of memory.
pub fn write_man_page<W: Write>(
    alloc: Global,
    command: &Command<'_>,
    examples: &[(&str, &str)],
    out: &mut W,
) -> io::Result<()> {
    write_beginning(command, out)?;
    out.write_all(b".SH DESCRIPTION\n")?;
    out.write_all(prose::DESCRIPTION.as_bytes())?;
    out.write_all(
        b".SH OPTIONS\n.TP\n\\fB\\-h\\fR, \\fB\\-\\-help\\fR\nPrint help, also of each command.\n",
    )?;
    out.write_all(b".TP\n\\fB\\-V\\fR, \\fB\\-\\-version\\fR\nPrint version.\n.SH COMMANDS\n")?;
    for subcommand in command.get_subcommands() {
        write_command(alloc, command.get_name(), subcommand, out)?;
    }
    write_section("EXIT STATUS", prose::EXIT_STATUS, out)?;
    write_section("FILES", prose::FILES, out)?;
    write_section("ENVIRONMENT", prose::ENVIRONMENT, out)?;
    write_examples(examples, out)
}

/// Writes the title, the name, and how a command line begins.
fn write_beginning<W: Write>(command: &Command<'_>, out: &mut W) -> io::Result<()> {
    let name = command.get_name();
    let version = command.get_version().unwrap_or("");
    let about = Roff(command.get_about().unwrap_or(""));
    writeln!(
        out,
        ".TH {name} 1 \"\" \"{name} {}\" \"User Commands\"",
        Roff(version)
    )?;
    writeln!(out, ".SH NAME\n{name} \\- {about}")?;
    writeln!(
        out,
        ".SH SYNOPSIS\n.B {name}\n.I COMMAND\n[\\fIOPTIONS\\fR] ..."
    )
}

/// Writes a section.
fn write_section<W: Write>(title: &str, text: &str, out: &mut W) -> io::Result<()> {
    writeln!(out, ".SH {title}")?;
    out.write_all(text.as_bytes())
}

/// Writes a command with its arguments.
fn write_command<W: Write>(
    alloc: Global,
    program: &str,
    command: &Command<'_>,
    out: &mut W,
) -> io::Result<()> {
    writeln!(out, ".SS {program} {}", command.get_name())?;
    write!(out, "\\fB{program} {}\\fR", command.get_name())?;
    write_usage(alloc, command, out)?;
    writeln!(
        out,
        "\n.PP\n{}\\&.",
        Roff(command.get_about().unwrap_or(""))
    )?;
    for arg in command.get_arguments() {
        write_argument(alloc, arg, out)?;
    }
    Ok(())
}

/// Writes what stands behind a command: that it has options, those which have to be there, and its places.
fn write_usage<W: Write>(alloc: Global, command: &Command<'_>, out: &mut W) -> io::Result<()> {
    if has_options(command) {
        out.write_all(b" [OPTIONS]")?;
    }
    for arg in command.get_arguments() {
        if !arg.is_positional() && arg.is_required_set() {
            let shown = shown(alloc, arg)?;
            write!(out, " {}", Roff(shown.as_str()))?;
        }
    }
    for arg in command.get_arguments() {
        if arg.is_positional() {
            let shown = shown(alloc, arg)?;
            write!(out, " {}", Roff(shown.as_str()))?;
        }
    }
    Ok(())
}

/// Whether a command has flags that may be left out.
fn has_options(command: &Command<'_>) -> bool {
    command
        .get_arguments()
        .iter()
        .any(|arg| !arg.is_positional() && !arg.is_required_set())
}

/// Writes an argument with its help.
fn write_argument<W: Write>(alloc: Global, arg: &Arg<'_>, out: &mut W) -> io::Result<()> {
    let shown = shown(alloc, arg)?;
    let help = Roff(arg.get_help().unwrap_or(""));
    writeln!(out, ".TP\n\\fB{}\\fR\n{help}\\&.", Roff(shown.as_str()))
}

/// Writes the examples of all commands.
fn write_examples<W: Write>(examples: &[(&str, &str)], out: &mut W) -> io::Result<()> {
    out.write_all(b".SH EXAMPLES\n")?;
    for (_, text) in examples {
        out.write_all(b".PP\n.nf\n")?;
        for line in text.lines() {
            if let Some(example) = line.strip_prefix("  ") {
                writeln!(out, "{}", Roff(example))?;
            }
        }
        out.write_all(b".fi\n")?;
    }
    Ok(())
}
