//! What is done for the commands of completions and of the man page.

ghost use Rattle.std.specs.Prelude.{◌≤◌, string_bytes};
ghost use Rattle.command_tools.specs.Describing as spec;

use clap::Command;
use command_files::say_faulty_word;
use command_order::{EXAMPLES, command};
use command_pages::{Shell, write_completions, write_man_page};
use console::{say_failed, say_refused};
use std::alloc::Global;
use std::io;
use std::io::Write;
use tags::Fault;

/// Prints the completions for the shell of this name.
pub fn print_completions<W: Write, E: Write>(
    alloc: Global,
    name: &String,
    in_colour: bool,
    out: &mut W,
    err: &mut E,
) -> u8
    ensures { spec.AreCompletions (string_bytes name.now) result }
{
    let Some(shell) = Shell::named(name.as_str()) else {
        say_faulty_word(
            "completions",
            "bash, zsh or fish",
            name.as_str(),
            in_colour,
            err,
        );
        return 2;
    };
    print_page(alloc, Some(shell), out, err)
}

/// Prints the completions for a shell, or the man page without one.
pub fn print_page<W: Write, E: Write>(
    alloc: Global,
    shell: Option<Shell>,
    out: &mut W,
    err: &mut E,
) -> u8
    ensures { result ≤ 1 }
{
    let Ok(command) = command(alloc) else {
        return say_refused(Fault::Memory, err);
    };
    match write_page(alloc, shell, &command, out) {
        Ok(()) => 0,
        Err(error) => say_failed(&error, err),
    }
}

/// Writes the completions for a shell, or the man page without one.
fn write_page<W: Write>(
    alloc: Global,
    shell: Option<Shell>,
    command: &Command<'_>,
    out: &mut W,
) -> io::Result<()> {
    match shell {
        Some(shell) => write_completions(alloc, shell, command, out),
        None => write_man_page(alloc, command, &EXAMPLES, out),
    }
}
