//! Completions for fish.

use crate::arguments::{Value, has_value};
use crate::escaped::FishQuoted;
use clap::{Arg, Command};
use std::alloc::Global;
use std::io;
use std::io::Write;

/// Writes the completions for fish.
pub(crate) fn write_fish<W: Write>(
    alloc: Global,
    command: &Command<'_>,
    out: &mut W,
) -> io::Result<()> {
    let program = command.get_name();
    writeln!(
        out,
        "# Completions of {program} for fish.\ncomplete -c {program} -f"
    )?;
    writeln!(out, "complete -c {program} -s h -l help -d 'Print help'")?;
    writeln!(
        out,
        "complete -c {program} -n __fish_use_subcommand -s V -l version -d 'Print version'"
    )?;
    write_help(command, out)?;
    for subcommand in command.get_subcommands() {
        write_command(program, subcommand, out)?;
        for arg in subcommand.get_arguments() {
            write_argument(alloc, program, subcommand.get_name(), arg, out)?;
        }
    }
    Ok(())
}

/// Writes the command that prints help, and the names that it takes.
fn write_help<W: Write>(command: &Command<'_>, out: &mut W) -> io::Result<()> {
    let program = command.get_name();
    writeln!(
        out,
        "complete -c {program} -n __fish_use_subcommand -a help -d 'Print the help of a command'"
    )?;
    write!(
        out,
        "complete -c {program} -n '__fish_seen_subcommand_from help' -a '"
    )?;
    for subcommand in command.get_subcommands() {
        write!(out, "{} ", subcommand.get_name())?;
    }
    out.write_all(b"help'\n")
}

/// Writes a command, with what it does.
fn write_command<W: Write>(program: &str, command: &Command<'_>, out: &mut W) -> io::Result<()> {
    let name = command.get_name();
    let about = FishQuoted(command.get_about().unwrap_or(""));
    writeln!(
        out,
        "complete -c {program} -n __fish_use_subcommand -a {name} -d '{about}'"
    )
}

/// Writes an argument of a command: its flag, and what its value is completed with.
fn write_argument<W: Write>(
    alloc: Global,
    program: &str,
    command: &str,
    arg: &Arg<'_>,
    out: &mut W,
) -> io::Result<()> {
    let value = Value::of(alloc, arg)?;
    if arg.is_positional() && value == Value::Free {
        return Ok(());
    }
    write!(
        out,
        "complete -c {program} -n '__fish_seen_subcommand_from {command}'"
    )?;
    if let Some(long) = arg.get_long() {
        write!(out, " -l {long}")?;
        if has_value(arg) {
            out.write_all(if value == Value::File { b" -r" } else { b" -x" })?;
        }
    }
    out.write_all(candidates(value).as_bytes())?;
    if arg.is_positional() {
        return out.write_all(b"\n");
    }
    writeln!(out, " -d '{}'", FishQuoted(arg.get_help().unwrap_or("")))
}

/// What fish completes a value with.
fn candidates(value: Value) -> &'static str {
    match value {
        Value::Site => " -k -a '(__fish_complete_suffix .toml)'",
        Value::File => " -F",
        Value::Folder => " -a '(__fish_complete_directories)'",
        Value::Shell => " -a 'bash zsh fish'",
        Value::Free => "",
    }
}
