//! What is done for the command of a diagnosis: a capture is read to its end, and what it shows is printed.

ghost use Rattle.std.specs.Prelude.{◌≡◌, ◌≤◌, IfErr};

use crate::excerpts::choice_of;
use crate::naming::names_in;
use crate::reporting::{may_report, report};
use command_files::{
    Files, Use, WHOLE_NUMBER, is_read_twice, is_standard, say_faulty_word, say_file_fault,
};
use command_order::Diagnosing;
use console::say_failed;
use diagnosis::Settings;
use diagnosis_names::{NamedOut, Names};
use diagnosis_reading::{
    Diagnosed, Form, Request, Telling, diagnose as diagnose_input, print_counted, print_found,
    print_requests, print_senders,
};
use packet_choice::Failure;
use std::alloc::Global;
use std::io;
use std::io::Write;
use words::{parse_u16, parse_u64};

/// What a port of UDP is.
const PORT: &str = "a port of UDP, 0 to 65535";

/// Prints what a capture shows: a summary, the tables that are asked for, and what is found, with the names of a site
/// if one is named, and writes a page if one is asked for; on the standard error where that goes to standard output. Of
/// standard input what is found comes at once, and the summary last.
pub fn diagnose<F: Files, W: Write, E: Write>(
    alloc: Global,
    diagnosing: &Diagnosing,
    files: &F,
    in_colour: bool,
    out: &mut W,
    err: &mut E,
) -> u8
    ensures { result ≤ 3 }
{
    if !is_standard(diagnosing.report.as_deref()) {
        return diagnose_shown(alloc, diagnosing, files, in_colour, out, err);
    }
    let mut messages = Vec::new(alloc);
    let status = diagnose_shown(
        alloc,
        diagnosing,
        files,
        in_colour,
        &mut *err,
        &mut messages,
    );
    let _ = err.write_all(messages.as_slice());
    status
}

/// Prints what a capture shows, with the names of a site if one is named.
fn diagnose_shown<F: Files, W: Write, E: Write>(
    alloc: Global,
    diagnosing: &Diagnosing,
    files: &F,
    in_colour: bool,
    out: &mut W,
    err: &mut E,
) -> u8
    ensures { result ≤ 3 }
{
    let site = diagnosing.site.as_deref();
    if is_read_twice(
        site.unwrap_or(""),
        diagnosing.capture.as_str(),
        in_colour,
        err,
    ) {
        return 2;
    }
    if !may_report(diagnosing, files, in_colour, err) {
        return 2;
    }
    match names_in(alloc, site, files, in_colour, err) {
        Ok(Some(names)) => {
            let mut named = NamedOut::new(alloc, &names, &mut *out);
            let names = Some(&names);
            diagnose_named(alloc, diagnosing, names, files, in_colour, &mut named, err)
        }
        Ok(None) => diagnose_named(alloc, diagnosing, None, files, in_colour, out, err),
        Err(status) => status,
    }
}

/// Prints what a capture shows, where words of the command line may be these names.
fn diagnose_named<F: Files, W: Write, E: Write>(
    alloc: Global,
    diagnosing: &Diagnosing,
    names: Option<&Names<Global>>,
    files: &F,
    in_colour: bool,
    out: &mut W,
    err: &mut E,
) -> u8
    ensures { result ≤ 3 }
{
    let settings = match settings_of(diagnosing, in_colour, err) {
        Ok(settings) => settings,
        Err(status) => return status,
    };
    let choice = match choice_of(alloc, diagnosing, names, files, in_colour, err) {
        Ok(choice) => choice,
        Err(status) => return status,
    };
    let name = diagnosing.capture.as_str();
    let request = Request {
        settings,
        excerpt: choice.excerpt(),
        telling: telling_of(diagnosing),
        form: form_of(diagnosing.is_json),
    };
    let diagnosed = match diagnose_file(alloc, diagnosing, request, files, out) {
        Ok(Some(diagnosed)) => diagnosed,
        Ok(None) => {
            let _ = writeln!(err, "bacsite: capture");
            return 1;
        }
        Err(failure) => return say_failure(name, &failure, in_colour, err),
    };
    match report(
        alloc,
        diagnosing,
        names,
        &diagnosed,
        choice.excerpt(),
        files,
        in_colour,
        err,
    ) {
        Ok(()) if diagnosed.findings().is_alarming() => 3,
        Ok(()) => 0,
        Err(status) => status,
    }
}

/// Prints what a capture shows, and returns it; `None` where the file is no capture.
fn diagnose_file<F: Files, W: Write>(
    alloc: Global,
    diagnosing: &Diagnosing,
    request: Request<'_>,
    files: &F,
    out: &mut W,
) -> Result<Option<Diagnosed<Global>>, Failure> {
    let name = diagnosing.capture.as_str();
    let Some(diagnosed) = diagnosed_in(alloc, request, name, files, out)? else {
        return Ok(None);
    };
    if let Err(error) = print_all(alloc, diagnosing, request, &diagnosed, out) {
        return Err(Failure::Writing(error));
    }
    if request.telling == Telling::Never {
        let again = Request {
            telling: Telling::AtOnce,
            ..request
        };
        diagnosed_in(alloc, again, name, files, out)?;
    }
    Ok(Some(diagnosed))
}

/// How what is found is printed.
fn form_of(is_json: bool) -> Form {
    if is_json { Form::Json } else { Form::Lines }
}

/// When the findings of standard input or of a file are printed; of a file all of them only as it is read again, so
/// that they aren't kept, but for a page.
fn telling_of(diagnosing: &Diagnosing) -> Telling {
    if is_standard(Some(diagnosing.capture.as_str())) {
        return Telling::AtOnce;
    }
    if diagnosing.shows_all && diagnosing.report.is_none() {
        return Telling::Never;
    }
    Telling::Later
}

/// Tells why the file of this name wasn't read to its end, or what was found not printed. Returns the exit status.
pub(crate) fn say_failure<E: Write>(
    name: &str,
    failure: &Failure,
    in_colour: bool,
    err: &mut E,
) -> u8
    ensures { result ≡ 1 }
{
    match failure {
        Failure::Reading(error) => say_file_fault(name, Use::Read, error, in_colour, err),
        Failure::Writing(error) => say_failed(error, err),
    }
}

/// What is asked of the diagnosis.
///
/// # Errors
/// The exit status where a word is no number, which is told.
fn settings_of<E: Write>(
    diagnosing: &Diagnosing,
    in_colour: bool,
    err: &mut E,
) -> Result<Settings, u8>
    ensures { IfErr result (λ status. status ≤ 2) }
{
    let mut settings = Settings::usual();
    let timeout = diagnosing.timeout.as_deref();
    settings.timeout = number_of("--timeout", timeout, settings.timeout, in_colour, err)?;
    let slow = diagnosing.slow.as_deref();
    settings.slow = number_of("--slow", slow, settings.slow, in_colour, err)?;
    if let Some(word) = diagnosing.port.as_deref() {
        match parse_u16(word) {
            Ok(port) => settings.port = Some(port),
            Err(_) => {
                say_faulty_word("--port", PORT, word, in_colour, err);
                return Err(2);
            }
        }
    }
    if diagnosing.shows_all {
        settings.findings = u64::MAX;
    }
    Ok(settings)
}

/// The number that a word says, or the usual one without a word.
///
/// # Errors
/// The exit status where it is no number, which is told.
pub(crate) fn number_of<E: Write>(
    option: &str,
    word: Option<&str>,
    usual: u64,
    in_colour: bool,
    err: &mut E,
) -> Result<u64, u8>
    ensures { IfErr result (λ status. status ≤ 2) }
{
    let Some(word) = word else {
        return Ok(usual);
    };
    match parse_u64(word) {
        Ok(number) => Ok(number),
        Err(_) => {
            say_faulty_word(option, WHOLE_NUMBER, word, in_colour, err);
            Err(2)
        }
    }
}

/// What the file of this name shows, which is read to its end; `None` where it is no capture.
fn diagnosed_in<F: Files, W: Write>(
    alloc: Global,
    request: Request<'_>,
    name: &str,
    files: &F,
    out: &mut W,
) -> Result<Option<Diagnosed<Global>>, Failure> {
    match files.open(name) {
        Ok(mut input) => diagnose_input(alloc, request, &mut input, out),
        Err(error) => Err(Failure::Reading(error)),
    }
}

/// Prints the tables that are asked for and the summary: that last where what is found was told at once, and else
/// first, and behind the tables what is kept of what is found.
fn print_all<W: Write>(
    alloc: Global,
    diagnosing: &Diagnosing,
    request: Request<'_>,
    diagnosed: &Diagnosed<Global>,
    out: &mut W,
) -> io::Result<()> {
    let form = request.form;
    if request.telling == Telling::AtOnce {
        print_tables(alloc, diagnosing, form, diagnosed, out)?;
        return print_counted(alloc, form, diagnosed, out);
    }
    print_counted(alloc, form, diagnosed, out)?;
    print_tables(alloc, diagnosing, form, diagnosed, out)?;
    print_found(alloc, form, diagnosed.findings(), out)
}

/// Prints the tables that are asked for.
fn print_tables<W: Write>(
    alloc: Global,
    diagnosing: &Diagnosing,
    form: Form,
    diagnosed: &Diagnosed<Global>,
    out: &mut W,
) -> io::Result<()> {
    if diagnosing.lists_transactions {
        print_requests(alloc, form, diagnosed, out)?;
    }
    if diagnosing.lists_stations {
        print_senders(alloc, form, diagnosed, out)?;
    }
    Ok(())
}
