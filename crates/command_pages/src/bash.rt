//! Completions for bash.

use crate::arguments::{Value, has_value, is_repeated, second_name, shown};
use clap::{Arg, Command};
use std::alloc::Global;
use std::io;
use std::io::Write;

/// What the function does behind the list of commands: one word behind the program is a command.
const FIRST: &str =
    r#"    local current="${COMP_WORDS[COMP_CWORD]}" previous="${COMP_WORDS[COMP_CWORD - 1]}"
    local flags='' files='' others='' pairs='' places=() place=0 at value=''
    COMPREPLY=()
    if ((COMP_CWORD == 1)); then
        COMPREPLY=($(compgen -W "$commands --help --version" -- "$current"))
        return
    fi
    case "${COMP_WORDS[1]}" in
        help) places=(command) ;;
"#;

/// What it does behind the words of the commands: a value of the flag before it, a flag, or what stands at its place.
const LAST: &str = r#"    esac
    case " $files " in *" $previous "*) value=file ;; esac
    case " $others $pairs " in *" $previous "*) value=free ;; esac
    ((COMP_CWORD > 2)) && case " $pairs " in *" ${COMP_WORDS[COMP_CWORD - 2]} "*) value=free ;; esac
    if [[ -z $value && $current == -* ]]; then
        COMPREPLY=($(compgen -W "$flags $files $others $pairs --help" -- "$current"))
        return
    fi
    if [[ -z $value ]]; then
        for ((at = 2; at < COMP_CWORD; at++)); do
            case " $pairs " in *" ${COMP_WORDS[at]} "*) at=$((at + 2)); continue ;; esac
            case " $files $others " in
                *" ${COMP_WORDS[at]} "*) at=$((at + 1)) ;;
                *) [[ ${COMP_WORDS[at]} == -?* ]] || place=$((place + 1)) ;;
            esac
        done
        value="${places[place]-}"
    fi
    case "$value" in
        '') COMPREPLY=($(compgen -W "$flags $files $others $pairs --help" -- "$current")) ;;
        shell) COMPREPLY=($(compgen -W 'bash zsh fish' -- "$current")) ;;
        command) COMPREPLY=($(compgen -W "$commands" -- "$current")) ;;
        free) ;;
        *)
            local IFS=$'\n'
            compopt -o filenames 2> /dev/null
            case "$value" in
                site) COMPREPLY=($(compgen -f -X '!*.toml' -- "$current"; compgen -d -- "$current")) ;;
                file) COMPREPLY=($(compgen -f -- "$current")) ;;
                folder) COMPREPLY=($(compgen -d -- "$current")) ;;
            esac
            ;;
    esac
}
"#;

/// Writes the completions for bash.
pub(crate) fn write_bash<W: Write>(
    alloc: Global,
    command: &Command<'_>,
    out: &mut W,
) -> io::Result<()> {
    let program = command.get_name();
    writeln!(out, "# Completions of {program} for bash.\n_{program}() {{")?;
    write_names(command, out)?;
    out.write_all(FIRST.as_bytes())?;
    for subcommand in command.get_subcommands() {
        write_words(alloc, subcommand, out)?;
    }
    out.write_all(LAST.as_bytes())?;
    writeln!(out, "complete -F _{program} {program}")
}

/// Writes the names of all commands.
fn write_names<W: Write>(command: &Command<'_>, out: &mut W) -> io::Result<()> {
    out.write_all(b"    local commands='")?;
    for subcommand in command.get_subcommands() {
        write!(out, "{} ", subcommand.get_name())?;
    }
    out.write_all(b"help'\n")
}

/// Writes the words of a command: its flags, those with a file behind them and with another value, and its places.
fn write_words<W: Write>(alloc: Global, command: &Command<'_>, out: &mut W) -> io::Result<()> {
    writeln!(out, "        {})", command.get_name())?;
    write_flags(alloc, command, Flags::Bare, out)?;
    write_flags(alloc, command, Flags::WithFile, out)?;
    write_flags(alloc, command, Flags::WithOther, out)?;
    if has_pairs(alloc, command)? {
        write_flags(alloc, command, Flags::WithTwo, out)?;
    }
    write_places(alloc, command, out)?;
    out.write_all(b"            ;;\n")
}

/// Which flags of a command.
#[derive(Clone, Copy, Debug, PartialEq, Eq)]
enum Flags {
    /// Those with no value.
    Bare,
    /// Those with the name of a file behind them.
    WithFile,
    /// Those with another value behind them.
    WithOther,
    /// Those with two values behind them.
    WithTwo,
}

impl Flags {
    /// The name of the list of these.
    fn list(self) -> &'static str {
        match self {
            Flags::Bare => "flags",
            Flags::WithFile => "files",
            Flags::WithOther => "others",
            Flags::WithTwo => "pairs",
        }
    }

    /// Which of them an argument is.
    fn of(alloc: Global, arg: &Arg<'_>) -> io::Result<Flags> {
        if !has_value(arg) {
            return Ok(Flags::Bare);
        }
        if second_name(shown(alloc, arg)?.as_str()).is_some() {
            return Ok(Flags::WithTwo);
        }
        Ok(match Value::of(alloc, arg)? {
            Value::File => Flags::WithFile,
            Value::Site | Value::Folder | Value::Shell | Value::Free => Flags::WithOther,
        })
    }
}

/// Whether a command has flags with two values.
fn has_pairs(alloc: Global, command: &Command<'_>) -> io::Result<bool> {
    for arg in command.get_arguments() {
        if Flags::of(alloc, arg)? == Flags::WithTwo {
            return Ok(true);
        }
    }
    Ok(false)
}

/// Writes a list of a command's flags.
fn write_flags<W: Write>(
    alloc: Global,
    command: &Command<'_>,
    flags: Flags,
    out: &mut W,
) -> io::Result<()> {
    write!(out, "            {}='", flags.list())?;
    for arg in command.get_arguments() {
        if let Some(long) = arg.get_long() {
            if Flags::of(alloc, arg)? == flags {
                write!(out, "--{long} ")?;
            }
        }
    }
    out.write_all(b"'\n")
}

/// Writes what stands at each place of a command.
fn write_places<W: Write>(alloc: Global, command: &Command<'_>, out: &mut W) -> io::Result<()> {
    out.write_all(b"            places=(")?;
    for arg in command.get_arguments() {
        if arg.is_positional() && !is_repeated(arg) {
            let place = match Value::of(alloc, arg)? {
                Value::Site => "site",
                Value::File => "file",
                Value::Folder => "folder",
                Value::Shell => "shell",
                Value::Free => "free",
            };
            write!(out, "{place} ")?;
        }
    }
    out.write_all(b")\n")
}
