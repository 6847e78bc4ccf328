//! The program behind its command line.

ghost use Rattle.std.specs.Prelude.{◌≡◌, ◌≤◌, true, IfErr, IfOk, map, option_map, string_bytes};
ghost use Rattle.std.specs.Global.{Global};
ghost use Rattle.clap.specs.Words.{kind_of};
ghost use Rattle.command_line.specs.Program as spec;
ghost use Rattle.site_check.specs.Judged.{AreJudged};

use crate::faults::{Texts, say_text_faults};
use crate::living::run_live;
use crate::searching::search_files;
use crate::simulating::sim;
use crate::storming::storm_files;
use clap::Error;
use clap::error::ErrorKind;
use command_diagnosis::diagnose;
use command_files::{Files, is_read_twice, read_file};
use command_order::{Checking, Order, order_of};
use command_tools::{
    begin, ended, explain, print_completions, print_mended, print_page, print_statement,
};
use console::{answer_line, say_failed, say_refused};
use json_lines::{JsonOut, Kind};
use site_check::check;
use site_notes::tell_notes;
use std::alloc::Global;
use std::io::Write;
use std::net::Net;
use std::time::Clock;
use tags::Fault;

/// Does what the words ask for, the first of them being the program's name, and answers the exit status: 0, also for
/// help, which is printed on `out`; 1 for what a command refuses, a fault that a check finds, a failed write and want
/// of memory; 2 for a fault of the command line, which is printed on `err`; 3 where a diagnosis finds what no plant
/// should show. A site is run live over the sockets of `host`; without one it is refused. What is told of files, flags
/// and texts may have the colours of a terminal.
pub fn run<R: Net + Clock, F: Files, W: Write, E: Write>(
    host: Option<&R>,
    alloc: Global,
    words: &[String],
    files: &F,
    in_colour: bool,
    out: &mut W,
    err: &mut E,
) -> u8
    ensures runs { spec.Runs (F.reads files.now) (F.writes files.now) (F.same files.now) (F.apart files.now)
        (map string_bytes words.now) result (W.contents out.old) (W.contents out.new)
        (E.contents err.old) (E.contents err.new) }
{
    let asked = order_of(alloc, words);
    done(host, alloc, &asked, files, in_colour, out, err)
}

/// Does what is asked for, and answers the exit status.
fn done<R: Net + Clock, F: Files, W: Write, E: Write>(
    host: Option<&R>,
    alloc: Global,
    asked: &Result<Option<Order>, Error>,
    files: &F,
    in_colour: bool,
    out: &mut W,
    err: &mut E,
) -> u8
    ensures { spec.IsDone (F.reads files.now) (F.writes files.now) (F.same files.now) (F.apart files.now) asked.now
        result (W.contents out.old) (W.contents out.new) (E.contents err.old) (E.contents err.new) }
{
    match asked {
        Ok(Some(Order::Answer(words))) => answer_line(alloc, words.as_slice(), out, err),
        Ok(Some(Order::Explain(explaining))) => {
            explain(alloc, explaining, files, in_colour, out, err)
        }
        Ok(Some(Order::Diagnose(diagnosing))) => {
            diagnose(alloc, diagnosing, files, in_colour, out, err)
        }
        Ok(Some(Order::Sim(simulation))) => sim(alloc, simulation, files, in_colour, out, err),
        Ok(Some(Order::Storm(storming))) => {
            storm_files(alloc, storming, files, in_colour, out, err)
        }
        Ok(Some(Order::Search(searching))) => {
            search_files(alloc, searching, files, in_colour, out, err)
        }
        Ok(Some(Order::Run(run))) => run_live(host, alloc, run, files, in_colour, out, err),
        Ok(Some(Order::Check(checking))) => check_told(alloc, checking, files, in_colour, out, err),
        Ok(Some(Order::Pics(stating))) => print_statement(alloc, *stating, out, err),
        Ok(Some(Order::Fmt(script))) => print_mended(alloc, script, files, in_colour, out, err),
        Ok(Some(Order::Init(starting))) => begin(alloc, starting, files, in_colour, out, err),
        Ok(Some(Order::Completions(shell))) => print_completions(alloc, shell, in_colour, out, err),
        Ok(Some(Order::Man)) => print_page(alloc, None, out, err),
        Ok(None) => 2,
        Err(error) => show(error, out, err),
    }
}

/// The octets of the site's file and of the script's, which have these names; where one can't be read, that is told.
///
/// # Errors
/// The exit status.
pub(crate) fn texts_of<F: Files, E: Write>(
    alloc: Global,
    site: &String,
    script: &String,
    files: &F,
    in_colour: bool,
    err: &mut E,
) -> Result<(Vec<u8>, Vec<u8>), u8>
    ensures site { IfOk result (λ texts. F.reads files.now (string_bytes site.now) texts.0.items) }
    ensures script { IfOk result (λ texts. F.reads files.now (string_bytes script.now) texts.1.items) }
    ensures status { IfErr result (λ status. status ≡ 1) }
{
    let site = read_file(alloc, site.as_str(), files, in_colour, err)?;
    let script = read_file(alloc, script.as_str(), files, in_colour, err)?;
    Ok((site, script))
}

/// Tells what is wrong with a site file, and with a script for it, as JSON where that is asked for.
fn check_told<F: Files, W: Write, E: Write>(
    alloc: Global,
    checking: &Checking,
    files: &F,
    in_colour: bool,
    out: &mut W,
    err: &mut E,
) -> u8
    ensures { spec.IsChecked (F.reads files.now) checking.now result }
{
    if checking.is_json {
        let mut lines = JsonOut::new(alloc, Kind::Check, &mut *out);
        let status = check_files(alloc, checking, files, in_colour, &mut lines, err);
        ended(status, lines.flush(), err)
    } else {
        check_files(alloc, checking, files, in_colour, out, err)
    }
}

/// Reads the files of a check, the site first, and tells what is wrong with them.
fn check_files<F: Files, W: Write, E: Write>(
    alloc: Global,
    checking: &Checking,
    files: &F,
    in_colour: bool,
    out: &mut W,
    err: &mut E,
) -> u8
    ensures { spec.IsChecked (F.reads files.now) checking.now result }
{
    if let Some(script) = &checking.script {
        if is_read_twice(checking.site.as_str(), script.as_str(), in_colour, err) {
            return 2;
        }
    }
    match check_texts_of(alloc, checking, files, in_colour, err) {
        Ok((site, script)) => {
            let (site, script) = (site.as_slice(), script.as_deref());
            let status = check_texts(alloc, site, script, out, err);
            if status == 0 {
                return tell_notes_of(alloc, checking, site, script, err);
            }
            let texts = Texts {
                site_name: checking.site.as_str(),
                site,
                script_name: checking.script.as_deref().unwrap_or(""),
                script: script.unwrap_or(b""),
            };
            say_text_faults(alloc, texts, in_colour, err);
            status
        }
        Err(status) => status,
    }
}

/// The octets of the site's file, and of the script's, if one is named; where one can't be read, that is told.
///
/// # Errors
/// The exit status.
fn check_texts_of<F: Files, E: Write>(
    alloc: Global,
    checking: &Checking,
    files: &F,
    in_colour: bool,
    err: &mut E,
) -> Result<(Vec<u8>, Option<Vec<u8>>), u8>
    ensures site { IfOk result (λ texts. F.reads files.now (string_bytes checking.now.site) texts.0.items) }
    ensures script { IfOk result (λ texts. spec.IsReadIfNamed (F.reads files.now)
        (option_map string_bytes checking.now.script) (option_map (λ t. t.items) texts.1)) }
    ensures status { IfErr result (λ status. status ≡ 1) }
{
    let site = read_file(alloc, checking.site.as_str(), files, in_colour, err)?;
    let script = match &checking.script {
        Some(name) => Some(read_file(alloc, name.as_str(), files, in_colour, err)?),
        None => None,
    };
    Ok((site, script))
}

/// Tells what is wrong with a site and a script, and answers the exit status.
fn check_texts<W: Write, E: Write>(
    alloc: Global,
    site: &[u8],
    script: Option<&[u8]>,
    out: &mut W,
    err: &mut E,
) -> u8
    ensures status { result ≤ 1 }
    ensures judged { result ≡ 0 → AreJudged Global site.now (option_map (λ s. s.now) script.entry) true }
{
    match check(alloc, alloc, site, script, out) {
        Ok(true) => 0,
        Ok(false) => 1,
        Err(error) => say_failed(&error, err),
    }
}

/// Tells what of a site and a script without a fault shows only when they run, and answers the exit status: 1 where
/// something does and that is asked for.
fn tell_notes_of<E: Write>(
    alloc: Global,
    checking: &Checking,
    site: &[u8],
    script: Option<&[u8]>,
    err: &mut E,
) -> u8
    ensures { result ≤ 1 }
{
    match tell_notes(alloc, alloc, site, script, checking.is_live, err) {
        Ok(is_told) => u8::from(is_told && checking.is_strict),
        Err(error) => say_failed(&error, err),
    }
}

/// Prints why there is nothing to do, and answers the exit status.
fn show<W: Write, E: Write>(error: &Error, out: &mut W, err: &mut E) -> u8
    ensures { spec.IsStatusOf (kind_of error.now) result }
{
    if error.kind() == ErrorKind::OutOfMemory {
        return say_refused(Fault::Memory, err);
    }
    if error.use_stderr() {
        let _ = write!(err, "{error}");
        return 2;
    }
    match write!(out, "{error}") {
        Ok(()) => 0,
        Err(failed) => say_failed(&failed, err),
    }
}
