//! What an argument is completed with, and how it is called.

use clap::{Arg, ArgAction};
use std::alloc::{AllocError, Global};

/// What a value is completed with.
#[derive(Clone, Copy, Debug, PartialEq, Eq)]
pub(crate) enum Value {
    /// Site files, and folders on the way to them.
    Site,
    /// Any file.
    File,
    /// A folder.
    Folder,
    /// A shell that has completions.
    Shell,
    /// Nothing, as for a number.
    Free,
}

impl Value {
    /// What the value of an argument is completed with.
    pub(crate) fn of(alloc: Global, arg: &Arg<'_>) -> Result<Value, AllocError> {
        let shown = shown(alloc, arg)?;
        Ok(match value_name(shown.as_str()) {
            "SITE" => Value::Site,
            "SCRIPT" | "FILE" | "CAPTURE" => Value::File,
            "FOLDER" => Value::Folder,
            "SHELL" => Value::Shell,
            _ => Value::Free,
        })
    }
}

/// An argument as a command line shows it: `--json`, `--pcap <FILE>`, `--between <A> <B>`, `<SITE>` or `[HEX]...`.
pub(crate) fn shown(alloc: Global, arg: &Arg<'_>) -> Result<String, AllocError> {
    match arg.get_long() {
        Some(long) if !has_value(arg) => format!(in alloc; "--{long}"),
        _ => shown_with_value(alloc, arg),
    }
}

/// .. with its values. Until its command is built, clap shows a second one as if it might be left out: `<A> [B]`.
fn shown_with_value(alloc: Global, arg: &Arg<'_>) -> Result<String, AllocError> {
    let shown = format!(in alloc; "{arg}")?;
    match shown.as_str().split_once("> [") {
        Some((first, second)) => {
            let second = second.strip_suffix(']').unwrap_or(second);
            format!(in alloc; "{first}> <{second}>")
        }
        None => format!(in alloc; "{arg}"),
    }
}

/// The name of the value in an argument as it is shown: `FILE` of `--pcap <FILE>`, `HEX` of `[HEX]...`.
pub(crate) fn value_name(shown: &str) -> &str {
    let behind = match shown.split_once('<') {
        Some((_, behind)) => behind,
        None => match shown.split_once('[') {
            Some((_, behind)) => behind,
            None => return "",
        },
    };
    match behind.split_once('>') {
        Some((name, _)) => name,
        None => match behind.split_once(']') {
            Some((name, _)) => name,
            None => behind,
        },
    }
}

/// The name of the second value in an argument as it is shown: `B` of `--between <A> <B>`.
pub(crate) fn second_name(shown: &str) -> Option<&str> {
    let (_, behind) = shown.split_once("> <")?;
    behind.strip_suffix('>')
}

/// Whether an argument is followed by a value.
pub(crate) fn has_value(arg: &Arg<'_>) -> bool {
    matches!(arg.get_action(), ArgAction::Set | ArgAction::Append)
}

/// Whether an argument may have several values.
pub(crate) fn is_repeated(arg: &Arg<'_>) -> bool {
    arg.get_action() == ArgAction::Append
}
