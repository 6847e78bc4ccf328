//! What is done for the command lines of a capture and of the conformance statement.

ghost use Rattle.std.specs.Prelude.{◌≡◌, ◌≤◌, map, option_map, string_bytes};
ghost use Rattle.command_tools.specs.Describing as spec;
ghost use Rattle.command_tools.specs.Words.{shown};
ghost use Rattle.command_tools.specs.Words as words;

use crate::json::ended;
use crate::spelling::spelling_of;
use capture_lines::explain_capture;
use command_files::{Files, read_file};
use command_order::{Explaining, Stating};
use console::{explain_line, say_failed};
use json_lines::{JsonOut, Kind};
use pics::{Form, write_statement};
use std::alloc::Global;
use std::io::Write;
use words::Spelling;

/// Takes a datagram apart, or a capture, as JSON and with names where that is asked for.
pub fn explain<F: Files, W: Write, E: Write>(
    alloc: Global,
    explaining: &Explaining,
    files: &F,
    in_colour: bool,
    out: &mut W,
    err: &mut E,
) -> u8
    ensures { spec.IsExplained (words.spelling_of explaining.now.is_named explaining.now.is_json)
        (option_map string_bytes explaining.now.capture) (map string_bytes explaining.now.words.items) result
        (shown explaining.now.is_json (W.contents out.old)) (shown explaining.now.is_json (W.contents out.new)) }
{
    if explaining.is_json {
        let mut lines = JsonOut::new(alloc, Kind::Explain, &mut *out);
        let status = explain_one(alloc, explaining, files, in_colour, &mut lines, err);
        ended(status, lines.flush(), err)
    } else {
        explain_one(alloc, explaining, files, in_colour, out, err)
    }
}

/// Takes a datagram apart, or a capture: one of both has to be given, and not both.
fn explain_one<F: Files, W: Write, E: Write>(
    alloc: Global,
    explaining: &Explaining,
    files: &F,
    in_colour: bool,
    out: &mut W,
    err: &mut E,
) -> u8
    ensures { spec.IsExplained (words.spelling_of explaining.now.is_named explaining.now.is_json)
        (option_map string_bytes explaining.now.capture) (map string_bytes explaining.now.words.items) result
        (W.contents out.old) (W.contents out.new) }
{
    let spelling = spelling_of(explaining.is_named, explaining.is_json);
    match (&explaining.capture, explaining.words.as_slice()) {
        (None, [_, ..]) => explain_line(alloc, spelling, explaining.words.as_slice(), out, err),
        (Some(name), []) => explain_file(alloc, spelling, name, files, in_colour, out, err),
        (None, []) | (Some(_), [_, ..]) => {
            let _ = writeln!(err, "bacsite: explain takes HEX or --pcap FILE");
            2
        }
    }
}

/// Takes the capture apart that is in the file of this name.
fn explain_file<F: Files, W: Write, E: Write>(
    alloc: Global,
    spelling: Spelling,
    name: &String,
    files: &F,
    in_colour: bool,
    out: &mut W,
    err: &mut E,
) -> u8
    ensures { result ≤ 1 }
{
    match read_file(alloc, name.as_str(), files, in_colour, err) {
        Ok(file) => explain_capture(alloc, spelling, file.as_slice(), out, err),
        Err(status) => status,
    }
}

/// Prints the conformance statement.
pub fn print_statement<W: Write, E: Write>(
    alloc: Global,
    stating: Stating,
    out: &mut W,
    err: &mut E,
) -> u8
    ensures { result ≤ 1 }
{
    let form = if stating.is_markdown {
        Form::Markdown
    } else {
        Form::Text
    };
    match write_statement(alloc, form, out) {
        Ok(()) => 0,
        Err(error) => say_failed(&error, err),
    }
}
