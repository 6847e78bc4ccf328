//! What is done for the command line of a simulation.

ghost use Rattle.std.specs.Prelude.{◌≡◌, ◌≤◌, ◌⊎◌, [], ◌∷◌, false, true, None, IsOk, map, option_map, string_bytes};
ghost use Rattle.std.specs.Global.{Global};
ghost use Rattle.command_line.specs.Program as spec;
ghost use Rattle.command_tools.specs.Words.{shown};
ghost use Rattle.command_line.specs.Words as words;
ghost use Rattle.site_capture.specs.site_run.Simulate.{Simulates};
ghost use Rattle.site_capture.specs.site_run.script.Expecting.{HasNoExpectation};

use crate::faults::{Texts, say_text_faults};
use crate::program::texts_of;
use crate::spelling::spelling_of;
use command_files::{
    Files, Use, are_safe, input_name, is_any_standard, put_in_place, say_faulty_word,
    say_file_fault, say_if_faulty,
};
use command_order::{Outputs, Simulation};
use command_tools::ended;
use console::say_refused;
use json_lines::{JsonOut, Kind};
use junit::junit;
use site_capture::{Stop, Telling, Verdicts, capture, plain_steps, say_stop, simulate_judged};
use site_ladder::{Part, ladder, report};
use std::alloc::{AllocError, Global};
use std::io::Write;
use tags::Fault;
use words::{Unread, parse_u64};

/// The exit status where something that a script expects didn't hold.
const UNMET: u8 = 4;

/// Runs a script at a site, and prints what comes of it: on the standard error where a file goes to standard output.
#[tactic(auto, using(crate::proofs::BesideLaws::beside_laws))]
pub(crate) fn sim<F: Files, W: Write, E: Write>(
    alloc: Global,
    simulation: &Simulation,
    files: &F,
    in_colour: bool,
    out: &mut W,
    err: &mut E,
) -> u8
    ensures { spec.IsSimulatedBeside (F.reads files.now) (F.same files.now) (F.apart files.now) simulation.now result
        (shown simulation.now.is_json (W.contents out.old)) (shown simulation.now.is_json (W.contents out.new))
        (shown simulation.now.is_json (E.contents err.old)) (shown simulation.now.is_json (E.contents err.new)) }
{
    if !is_any_standard(&outputs_of(&simulation.outputs)) {
        return sim_shown(alloc, simulation, files, in_colour, out, err);
    }
    let mut messages = Vec::new(alloc);
    let status = sim_shown(
        alloc,
        simulation,
        files,
        in_colour,
        &mut *err,
        &mut messages,
    );
    if status == 0 {
        return 0;
    }
    let _ = err.write_all(messages.as_slice());
    status
}

/// Runs a script at a site, and prints what comes of it, as JSON where that is asked for.
fn sim_shown<F: Files, W: Write, E: Write>(
    alloc: Global,
    simulation: &Simulation,
    files: &F,
    in_colour: bool,
    out: &mut W,
    err: &mut E,
) -> u8
    ensures { spec.IsSimulated (F.reads files.now) (F.same files.now) (F.apart files.now) simulation.now result
        (shown simulation.now.is_json (W.contents out.old)) (shown simulation.now.is_json (W.contents out.new)) }
{
    if simulation.is_json {
        let mut lines = JsonOut::new(alloc, Kind::History, &mut *out);
        let status = sim_files(alloc, simulation, files, in_colour, &mut lines, err);
        ended(status, lines.flush(), err)
    } else {
        sim_files(alloc, simulation, files, in_colour, out, err)
    }
}

/// Reads the files of a simulation, the site first, and runs it.
fn sim_files<F: Files, W: Write, E: Write>(
    alloc: Global,
    simulation: &Simulation,
    files: &F,
    in_colour: bool,
    out: &mut W,
    err: &mut E,
) -> u8
    ensures { spec.IsSimulated (F.reads files.now) (F.same files.now) (F.apart files.now) simulation.now result
        (W.contents out.old) (W.contents out.new) }
{
    match requests_of(alloc, simulation.outputs.request.as_deref()) {
        Ok(requests) => {
            let requests = requests.as_deref();
            sim_part(alloc, simulation, requests, files, in_colour, out, err)
        }
        Err(Unread::Memory) => say_refused(Fault::Memory, err),
        Err(_) => {
            say_faulty_requests(&simulation.outputs, in_colour, err);
            2
        }
    }
}

/// Reads the files of a simulation of which files show some requests, and runs it.
#[tactic(auto, using(crate::proofs::EndingLaws::done_laws))]
fn sim_part<F: Files, W: Write, E: Write>(
    alloc: Global,
    simulation: &Simulation,
    requests: Option<&[u64]>,
    files: &F,
    in_colour: bool,
    out: &mut W,
    err: &mut E,
) -> u8
    ensures { spec.IsSimulated (F.reads files.now) (F.same files.now) (F.apart files.now) simulation.now result
        (W.contents out.old) (W.contents out.new) }
{
    let Ok(part) = part_of(&simulation.outputs, requests) else {
        say_faulty_part(&simulation.outputs, in_colour, err);
        return 2;
    };
    let outputs = outputs_of(&simulation.outputs);
    if !are_safe(
        files,
        &simulation.site,
        &simulation.script,
        &outputs,
        in_colour,
        err,
    ) {
        return 2;
    }
    match texts_of(
        alloc,
        &simulation.site,
        &simulation.script,
        files,
        in_colour,
        err,
    ) {
        Ok((site, script)) => {
            let (site, script) = (site.as_slice(), script.as_slice());
            sim_texts(
                alloc, site, script, simulation, part, files, in_colour, out, err,
            )
        }
        Err(status) => status,
    }
}

/// The names of the files that are written, where they are named.
fn outputs_of(outputs: &Outputs) -> [Option<&str>; 5]
    ensures { map (λ o. option_map (λ n. n.now) o) result ≡ option_map string_bytes outputs.entry.now.capture
        ∷ option_map string_bytes outputs.entry.now.ladder ∷ option_map string_bytes outputs.entry.now.report
        ∷ option_map string_bytes outputs.entry.now.script ∷ option_map string_bytes outputs.entry.now.junit ∷ [] }
{
    [
        outputs.capture.as_deref(),
        outputs.ladder.as_deref(),
        outputs.report.as_deref(),
        outputs.script.as_deref(),
        outputs.junit.as_deref(),
    ]
}

/// Tells which words are no moments.
fn say_faulty_part<E: Write>(outputs: &Outputs, in_colour: bool, err: &mut E) {
    let _ = writeln!(err, "bacsite: --from and --to take numbers of milliseconds");
    say_if_faulty("--from", outputs.from.as_deref(), in_colour, err);
    say_if_faulty("--to", outputs.to.as_deref(), in_colour, err);
}

/// Tells which word of those that are to be numbers of requests is none.
fn say_faulty_requests<E: Write>(outputs: &Outputs, in_colour: bool, err: &mut E) {
    let _ = writeln!(err, "bacsite: --request takes numbers of requests");
    if let Some(words) = outputs.request.as_deref() {
        for word in words.split(',') {
            say_if_faulty("--request", Some(word), in_colour, err);
        }
    }
}

/// The part of a run that words say, which may be no numbers, of some requests.
fn part_of<'a>(outputs: &'a Outputs, requests: Option<&'a [u64]>) -> Result<Part<'a>, Unread>
    ensures { outputs.now.from ≡ None → outputs.now.to ≡ None → IsOk result }
{
    Ok(Part {
        from: moment_of(outputs.from.as_deref())?,
        to: moment_of(outputs.to.as_deref())?,
        only: outputs.only.as_deref(),
        requests,
    })
}

/// The numbers of requests that words say, if there are any.
fn requests_of(alloc: Global, words: Option<&str>) -> Result<Option<Vec<u64>>, Unread>
    ensures { words.entry ≡ None → IsOk result }
{
    match words {
        Some(words) => Ok(Some(numbers_in(alloc, words)?)),
        None => Ok(None),
    }
}

/// The numbers that words say, with commas between them.
fn numbers_in(alloc: Global, words: &str) -> Result<Vec<u64>, Unread> {
    let mut numbers = Vec::new(alloc);
    for word in words.split(',') {
        numbers.push(parse_u64(word)?)?;
    }
    Ok(numbers)
}

/// The moment that a word says, if there is one.
fn moment_of(word: Option<&str>) -> Result<Option<u64>, Unread>
    ensures { word.entry ≡ None → IsOk result }
{
    match word {
        Some(word) => Ok(Some(parse_u64(word)?)),
        None => Ok(None),
    }
}

/// Runs a script at a site, and writes the files that are named for it.
fn sim_texts<F: Files, W: Write, E: Write>(
    alloc: Global,
    site: &[u8],
    script: &[u8],
    simulation: &Simulation,
    part: Part<'_>,
    files: &F,
    in_colour: bool,
    out: &mut W,
    err: &mut E,
) -> u8
    ensures status { (result ≤ 1) ⊎ (result ≡ 4) }
    ensures plain { HasNoExpectation Global script.now → result ≤ 1 }
    ensures simulates { result ≡ 0 → Simulates Global
        (spec.telling_of simulation.now.is_traced (words.spelling_of simulation.now.is_named simulation.now.is_json))
        false site.now script.now (W.contents out.old) (W.contents out.new) }
    ensures unmet { result ≡ 4 → Simulates Global
        (spec.telling_of simulation.now.is_traced (words.spelling_of simulation.now.is_named simulation.now.is_json))
        true site.now script.now (W.contents out.old) (W.contents out.new) }
{
    let spelling = spelling_of(simulation.is_named, simulation.is_json);
    let telling = if simulation.is_traced {
        Telling::all(spelling)
    } else {
        Telling::entries(spelling)
    };
    let judged = simulate_judged(alloc, alloc, site, script, telling, out, err);
    let status = judged.status;
    if status != 0 && status != UNMET {
        let texts = Texts {
            site_name: simulation.site.as_str(),
            site,
            script_name: simulation.script.as_str(),
            script,
        };
        say_text_faults(alloc, texts, in_colour, err);
        return status;
    }
    let name = input_name(simulation.script.as_str());
    let _ = judged.verdicts.tell_unmet(Some(name), err);
    let outputs = &simulation.outputs;
    let written = write_junit(
        alloc,
        name,
        outputs,
        &judged.verdicts,
        files,
        in_colour,
        err,
    );
    if written != 0 {
        return written;
    }
    let written = write_all(alloc, site, script, outputs, part, files, in_colour, err);
    if written != 0 {
        return written;
    }
    status
}

/// Writes the report of what the script of this name expects, where a file is named for it, and answers the exit
/// status.
fn write_junit<F: Files, E: Write>(
    alloc: Global,
    script: &str,
    outputs: &Outputs,
    verdicts: &Verdicts<Global>,
    files: &F,
    in_colour: bool,
    err: &mut E,
) -> u8
    ensures { result ≤ 1 }
{
    let Some(name) = &outputs.junit else {
        return 0;
    };
    let made = match junit(alloc, script, verdicts) {
        Ok(report) => Ok(report),
        Err(AllocError) => Err(Stop::Refused(Fault::Memory)),
    };
    write_file(alloc, name, made, None, files, in_colour, err)
}

/// Writes the files that are named: a capture, a ladder, a report and a script, and answers the exit status.
fn write_all<F: Files, E: Write>(
    alloc: Global,
    site: &[u8],
    script: &[u8],
    outputs: &Outputs,
    part: Part<'_>,
    files: &F,
    in_colour: bool,
    err: &mut E,
) -> u8
    ensures { result ≤ 1 }
{
    if let Some(name) = &outputs.capture {
        let made = capture(alloc, alloc, site, script);
        let status = write_file(alloc, name, made, None, files, in_colour, err);
        if status != 0 {
            return status;
        }
    }
    if let Some(name) = &outputs.ladder {
        let made = ladder(alloc, alloc, site, script, part);
        let status = write_file(alloc, name, made, part.only, files, in_colour, err);
        if status != 0 {
            return status;
        }
    }
    if let Some(name) = &outputs.report {
        let made = report(alloc, alloc, site, script, part);
        let status = write_file(alloc, name, made, part.only, files, in_colour, err);
        if status != 0 {
            return status;
        }
    }
    match &outputs.script {
        Some(name) => {
            let made = plain_steps(alloc, alloc, site, script);
            write_file(alloc, name, made, None, files, in_colour, err)
        }
        None => 0,
    }
}

/// Writes a file of a run, of some stations where they are named, and answers the exit status.
fn write_file<F: Files, E: Write>(
    alloc: Global,
    name: &String,
    made: Result<Vec<u8>, Stop>,
    only: Option<&str>,
    files: &F,
    in_colour: bool,
    err: &mut E,
) -> u8
    ensures { result ≤ 1 }
{
    match made {
        Ok(file) => match put_in_place(alloc, name.as_str(), file.as_slice(), files) {
            Ok(()) => 0,
            Err(error) => say_file_fault(name.as_str(), Use::Written, &error, in_colour, err),
        },
        Err(stop) => {
            let is_unknown = matches!(&stop, Stop::Refused(Fault::NoSuch));
            let status = say_stop(stop, err);
            if is_unknown {
                say_unknown(only, in_colour, err);
            }
            status
        }
    }
}

/// Tells that a station is named which the site hasn't.
fn say_unknown<E: Write>(only: Option<&str>, in_colour: bool, err: &mut E) {
    if let Some(names) = only {
        let taken = "names of stations of the site, with commas between them";
        say_faulty_word("--only", taken, names, in_colour, err);
    }
}
