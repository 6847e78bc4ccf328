//! The examples of a command: `examples sim -> 3 sim` are as many lines, each of which asks for `sim`.

use command_order::{EXAMPLES, Order, order_of};
use sheets::{Counts, Given, Stop, run_text};
use std::alloc::Global;

/// Runs a row of a command's examples.
pub(crate) fn run(given: Given<'_>, name: &str, wanted: &str) -> Result<Counts, Stop> {
    let mut count = 0u32;
    for line in text_of(name).lines().skip(1) {
        let asked = asked_by(given.alloc, line)?;
        if asked != name {
            return run_text(format!(in given.alloc; "{asked}: {line}")?, wanted);
        }
        count = count.saturating_add(1);
    }
    run_text(format!(in given.alloc; "{count} {name}")?, wanted)
}

/// The examples of a command, if it has some.
fn text_of(name: &str) -> &'static str {
    for (command, text) in &EXAMPLES {
        if *command == name {
            return *text;
        }
    }
    ""
}

/// What the command line of an example asks for.
fn asked_by(alloc: Global, line: &str) -> Result<&'static str, Stop> {
    let words = words_of(alloc, command_in(line.trim()))?;
    match order_of(alloc, words.as_slice()) {
        Ok(Some(order)) => Ok(name_of(&order)),
        Ok(None) => Ok("nothing"),
        Err(_error) => Ok("a fault"),
    }
}

/// The command of a line, without what a shell does with its output.
fn command_in(line: &str) -> &str {
    let line = match line.strip_prefix("source <(") {
        Some(command) => command.trim_end_matches(')'),
        None => line,
    };
    let line = match line.split_once(" > ") {
        Some((command, _)) => command,
        None => line,
    };
    match line.split_once(" | ") {
        Some((command, _)) => command,
        None => line,
    }
}

/// The words of a command line as a shell parts them: by spaces outside of single quotes.
fn words_of(alloc: Global, line: &str) -> Result<Vec<String>, Stop> {
    let mut words = Vec::new(alloc);
    let mut is_quoted = false;
    for piece in line.split('\'') {
        if is_quoted {
            words.push(String::from_str(alloc, piece)?)?;
        } else {
            push_words(alloc, piece, &mut words)?;
        }
        is_quoted = !is_quoted;
    }
    Ok(words)
}

/// Appends the words that spaces part.
fn push_words(alloc: Global, piece: &str, words: &mut Vec<String>) -> Result<(), Stop> {
    for word in piece.split(' ') {
        if !word.is_empty() {
            words.push(String::from_str(alloc, word)?)?;
        }
    }
    Ok(())
}

/// The name of what is asked for.
fn name_of(order: &Order) -> &'static str {
    match order {
        Order::Answer(_) => "answer",
        Order::Explain(_) => "explain",
        Order::Diagnose(_) => "diagnose",
        Order::Sim(_) => "sim",
        Order::Storm(_) => "storm",
        Order::Search(_) => "search",
        Order::Run(_) => "run",
        Order::Check(_) => "check",
        Order::Fmt(_) => "fmt",
        Order::Pics(_) => "pics",
        Order::Init(_) => "init",
        Order::Completions(_) => "completions",
        Order::Man => "man",
    }
}
