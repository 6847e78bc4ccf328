//! What is done for the command line of a live run.

ghost use Rattle.std.specs.Prelude.{◌≡◌, ◌≤◌, ◌⊎◌, None, IsSome};
ghost use Rattle.std.specs.Global.{Global};
ghost use Rattle.command_line.specs.Program as spec;
ghost use Rattle.command_tools.specs.Words.{shown};
ghost use Rattle.site_capture.specs.site_live.Runs.{RunsLive};
ghost use Rattle.site_capture.specs.site_run.script.Expecting.{HasNoExpectation};

use crate::faults::{Texts, say_live_faults};
use crate::program::texts_of;
use crate::spelling::spelling_of;
use command_files::{
    Files, LateFile, Use, WHOLE_NUMBER, are_safe, input_name, is_any_standard, say_faulty_word,
    say_file_fault,
};
use command_order::LiveRun;
use command_tools::ended;
use console::say_refused;
use json_lines::{JsonOut, Kind};
use site_capture::{Ending, LiveCapture, Settings, run_over_udp, run_over_udp_observed};
use std::alloc::Global;
use std::cell::Cell;
use std::io::Write;
use std::net::Net;
use std::time::Clock;
use tags::Fault;

/// Runs a site live, and prints what comes of it: on the standard error where its capture goes to standard output.
pub(crate) fn run_live<R: Net + Clock, F: Files, W: Write, E: Write>(
    host: Option<&R>,
    alloc: Global,
    run: &LiveRun,
    files: &F,
    in_colour: bool,
    out: &mut W,
    err: &mut E,
) -> u8
    ensures { spec.IsLiveBeside (F.reads files.now) (F.same files.now) (F.apart files.now) run.now result
        (shown run.now.is_json (W.contents out.old)) (shown run.now.is_json (W.contents out.new))
        (shown run.now.is_json (E.contents err.old)) (shown run.now.is_json (E.contents err.new)) }
{
    if !is_any_standard(&[run.capture.as_deref()]) {
        return run_shown(host, alloc, run, files, in_colour, out, err);
    }
    let mut messages = Vec::new(alloc);
    let status = run_shown(host, alloc, run, files, in_colour, &mut *err, &mut messages);
    if status == 0 {
        return 0;
    }
    let _ = err.write_all(messages.as_slice());
    status
}

/// Runs a site live, and prints what comes of it, as JSON where that is asked for.
fn run_shown<R: Net + Clock, F: Files, W: Write, E: Write>(
    host: Option<&R>,
    alloc: Global,
    run: &LiveRun,
    files: &F,
    in_colour: bool,
    out: &mut W,
    err: &mut E,
) -> u8
    ensures { spec.IsLive (F.reads files.now) (F.same files.now) (F.apart files.now) run.now result
        (shown run.now.is_json (W.contents out.old)) (shown run.now.is_json (W.contents out.new)) }
{
    if run.is_json {
        let mut lines = JsonOut::new(alloc, Kind::History, &mut *out);
        let status = run_files(host, alloc, run, files, in_colour, &mut lines, err);
        ended(status, lines.flush(), err)
    } else {
        run_files(host, alloc, run, files, in_colour, out, err)
    }
}

/// Reads the files of a live run, the site first, and runs the site.
#[tactic(auto, using(crate::proofs::EndingLaws::done_laws))]
fn run_files<R: Net + Clock, F: Files, W: Write, E: Write>(
    host: Option<&R>,
    alloc: Global,
    run: &LiveRun,
    files: &F,
    in_colour: bool,
    out: &mut W,
    err: &mut E,
) -> u8
    ensures { spec.IsLive (F.reads files.now) (F.same files.now) (F.apart files.now) run.now result
        (W.contents out.old) (W.contents out.new) }
{
    let Some(ending) = ending_of(run.seconds.as_deref()) else {
        say_faulty_seconds(run.seconds.as_deref(), in_colour, err);
        return 2;
    };
    let capture = run.capture.as_deref();
    if !are_safe(files, &run.site, &run.script, &[capture], in_colour, err) {
        return 2;
    }
    let settings = Settings {
        is_open: run.is_open,
        ending,
        spelling: spelling_of(run.is_named, run.is_json),
    };
    match texts_of(alloc, &run.site, &run.script, files, in_colour, err) {
        Ok((site, script)) => {
            let texts = Texts {
                site_name: run.site.as_str(),
                site: site.as_slice(),
                script_name: run.script.as_str(),
                script: script.as_slice(),
            };
            run_texts(
                host, alloc, texts, settings, capture, files, in_colour, out, err,
            )
        }
        Err(status) => status,
    }
}

/// When a live run ends, by the number of seconds that was given, if any was.
fn ending_of(seconds: Option<&str>) -> Option<Ending>
    ensures { seconds.entry ≡ None → IsSome result }
{
    let Some(seconds) = seconds else {
        return Some(Ending::WithScript);
    };
    match seconds.parse::<u64>() {
        Ok(0) => Some(Ending::Never),
        Ok(seconds) => Some(Ending::After { seconds }),
        Err(_) => None,
    }
}

/// Tells that a word is no number of seconds.
fn say_faulty_seconds<E: Write>(seconds: Option<&str>, in_colour: bool, err: &mut E) {
    let _ = writeln!(err, "bacsite: --for takes a number of seconds");
    let seconds = seconds.unwrap_or("");
    say_faulty_word("--for", WHOLE_NUMBER, seconds, in_colour, err);
}

/// Runs a site live over the sockets of a host, and captures it, if a file is named for that; without a host it is
/// refused.
fn run_texts<R: Net + Clock, F: Files, W: Write, E: Write>(
    host: Option<&R>,
    alloc: Global,
    texts: Texts<'_>,
    settings: Settings,
    capture: Option<&str>,
    files: &F,
    in_colour: bool,
    out: &mut W,
    err: &mut E,
) -> u8
    ensures status { (result ≤ 1) ⊎ (result ≡ 4) }
    ensures plain { HasNoExpectation Global texts.entry.script.now → result ≤ 1 }
    ensures lives { (result ≡ 0) ⊎ (result ≡ 4)
        → RunsLive Global settings.spelling settings.is_open texts.entry.site.now texts.entry.script.now
        (W.contents out.old) (W.contents out.new) }
{
    let Some(host) = host else {
        return say_refused(Fault::Wire, err);
    };
    let status = match capture {
        Some(name) => run_captured(
            host, alloc, texts, settings, name, files, in_colour, out, err,
        ),
        None => run_over_udp(
            host,
            alloc,
            alloc,
            texts.site,
            texts.script,
            Some(input_name(texts.script_name)),
            settings,
            out,
            err,
        ),
    };
    if status == 1 {
        say_live_faults(host, alloc, texts, in_colour, err);
    }
    status
}

/// Runs a site live over the sockets of a host, and captures it in a file, which is made once the run has begun.
fn run_captured<R: Net + Clock, F: Files, W: Write, E: Write>(
    host: &R,
    alloc: Global,
    texts: Texts<'_>,
    settings: Settings,
    name: &str,
    files: &F,
    in_colour: bool,
    out: &mut W,
    err: &mut E,
) -> u8
    ensures status { (result ≤ 1) ⊎ (result ≡ 4) }
    ensures plain { HasNoExpectation Global texts.entry.script.now → result ≤ 1 }
    ensures lives { (result ≡ 0) ⊎ (result ≡ 4)
        → RunsLive Global settings.spelling settings.is_open texts.entry.site.now texts.entry.script.now
        (W.contents out.old) (W.contents out.new) }
{
    let failure = Cell::new(None);
    let capture = LiveCapture::new(alloc, LateFile::new(files, name, &failure));
    let status = run_over_udp_observed(
        host,
        alloc,
        alloc,
        texts.site,
        texts.script,
        Some(input_name(texts.script_name)),
        settings,
        capture,
        out,
        err,
    );
    match failure.take() {
        Some(error) if status == 1 => { say_file_fault(name, Use::Written, &error, in_colour, err) }
        Some(_) | None => status,
    }
}
