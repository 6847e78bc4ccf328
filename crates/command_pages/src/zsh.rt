//! Completions for zsh.

use crate::arguments::{Value, has_value, is_repeated, second_name, shown, value_name};
use crate::escaped::ZshQuoted;
use clap::{Arg, Command};
use std::alloc::Global;
use std::io;
use std::io::Write;

/// What the function does first: one word behind the program is a command, and the others are that one's.
const FIRST: &str = r#"    local curcontext="$curcontext" context state line
    local -A opt_args
    _arguments -C \
        '(-h --help)'{-h,--help}'[Print help]' \
        '(-V --version)'{-V,--version}'[Print version]' \
        '1:command:->command' \
        '*::argument:->argument'
    case $state in
        command)
            _describe -t commands command commands
            ;;
        argument)
            case $line[1] in
                help)
                    (( CURRENT == 2 )) && _describe -t commands command commands
                    ;;
"#;

const LAST: &str = "            esac
            ;;
    esac
}
";

/// Writes the completions for zsh.
pub(crate) fn write_zsh<W: Write>(
    alloc: Global,
    command: &Command<'_>,
    out: &mut W,
) -> io::Result<()> {
    let program = command.get_name();
    writeln!(
        out,
        "#compdef {program}\n# Completions of {program} for zsh.\n_{program}() {{"
    )?;
    write_names(command, out)?;
    out.write_all(FIRST.as_bytes())?;
    for subcommand in command.get_subcommands() {
        write_arguments(alloc, subcommand, out)?;
    }
    out.write_all(LAST.as_bytes())?;
    writeln!(
        out,
        "if [[ $funcstack[1] == _{program} ]]; then\n    _{program} \"$@\"\nelse\n    compdef _{program} {program}\nfi"
    )
}

/// Writes the names of all commands, with what each does.
fn write_names<W: Write>(command: &Command<'_>, out: &mut W) -> io::Result<()> {
    out.write_all(b"    local -a commands=(\n")?;
    for subcommand in command.get_subcommands() {
        let about = subcommand.get_about().unwrap_or("");
        writeln!(
            out,
            "        '{}:{}'",
            subcommand.get_name(),
            ZshQuoted(about)
        )?;
    }
    out.write_all(b"        'help:Print the help of a command'\n    )\n")
}

/// Writes the arguments of a command.
fn write_arguments<W: Write>(alloc: Global, command: &Command<'_>, out: &mut W) -> io::Result<()> {
    let name = command.get_name();
    writeln!(
        out,
        "                {name})\n                    _arguments \\"
    )?;
    for arg in command.get_arguments() {
        write_argument(alloc, arg, out)?;
    }
    out.write_all(
        b"                        '(-h --help)'{-h,--help}'[Print help]'\n                    ;;\n",
    )
}

/// Writes an argument: its flag with its help, its place, and what its value is completed with.
fn write_argument<W: Write>(alloc: Global, arg: &Arg<'_>, out: &mut W) -> io::Result<()> {
    let help = ZshQuoted(arg.get_help().unwrap_or(""));
    out.write_all(b"                        '")?;
    match arg.get_long() {
        Some(long) => write!(out, "--{long}[{help}]")?,
        None if is_repeated(arg) => out.write_all(b"*")?,
        None if !arg.is_required_set() => out.write_all(b":")?,
        None => {}
    }
    if has_value(arg) {
        let shown = shown(alloc, arg)?;
        let action = action(Value::of(alloc, arg)?);
        write!(out, ":{}:{action}", value_name(shown.as_str()))?;
        if let Some(second) = second_name(shown.as_str()) {
            write!(out, ":{second}:{action}")?;
        }
    }
    out.write_all(b"' \\\n")
}

/// How zsh completes a value.
fn action(value: Value) -> &'static str {
    match value {
        Value::Site => "_files -g \"*.toml\"",
        Value::File => "_files",
        Value::Folder => "_files -/",
        Value::Shell => "(bash zsh fish)",
        Value::Free => " ",
    }
}
