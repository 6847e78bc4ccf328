//! What is done for the command line of a storm.

ghost use Rattle.std.specs.Prelude.{◌≡◌, ◌≤◌, ◌++◌, None, Some, true, IfOk, IfSome, option_map, string_bytes};
ghost use Rattle.std.specs.Global.{Global};
ghost use Rattle.site_search.specs.site_storm.Storming.{CountsStorm};
ghost use Rattle.site_search.specs.site_storm.Lines as text;
ghost use Rattle.words.specs.Says.{SaysUnsigned};
ghost use Rattle.command_line.specs.Storming as spec;

use crate::faults::{Texts, say_text_faults};
use crate::program::texts_of;
use crate::spelling::spelling_of;
use command_files::{
    Files, Use, are_safe, is_any_standard, put_in_place, say_faulty_word, say_file_fault,
    say_if_faulty,
};
use command_order::{Percents, Storming};
use console::say_refused;
use site_search::{Chances, Weather, end_missing, storm, storm_counted};
use std::alloc::{AllocError, Global};
use std::io;
use std::io::Write;
use storm::Percent;
use tags::Fault;
use words::{Spelling, parse_u64};

/// The percentage that a word says, 0 to 100, as `5` or `2.5`, or the one that holds where there is no word.
fn percent_of(word: Option<&str>, usual: Percent) -> Option<Percent> {
    let Some(word) = word else {
        return Some(usual);
    };
    let (whole, tenth) = match word.split_once('.') {
        Some((whole, digit)) => (whole, tenth_of(digit)?),
        None => (word, 0),
    };
    let tenths = match whole.parse::<u8>() {
        Ok(percents) => Percent::whole(percents).tenths.saturating_add(tenth),
        Err(_) => return None,
    };
    if tenths <= 1000 {
        Some(Percent { tenths })
    } else {
        None
    }
}

/// The tenths that the one digit behind a point says.
fn tenth_of(digit: &str) -> Option<u16> {
    match digit.as_bytes() {
        [digit @ b'0'..=b'9'] => Some(u16::from(*digit).saturating_sub(u16::from(b'0'))),
        _ => None,
    }
}

/// The chances that words say.
fn chances_of(percents: &Percents) -> Option<Chances> {
    let usual = Chances::USUAL;
    Some(Chances {
        issue: percent_of(percents.issue.as_deref(), usual.issue)?,
        lose: percent_of(percents.lose.as_deref(), usual.lose)?,
        repeat: percent_of(percents.repeat.as_deref(), usual.repeat)?,
        reorder: percent_of(percents.reorder.as_deref(), usual.reorder)?,
        damage: percent_of(percents.damage.as_deref(), usual.damage)?,
        restart: percent_of(percents.restart.as_deref(), usual.restart)?,
    })
}

/// The storm that is asked for; one of the words may be no number.
fn weather_of(storming: &Storming) -> Option<Weather>
    ensures { IfSome result (λ weather. SaysUnsigned 64 (string_bytes storming.now.steps) weather.steps) }
{
    let Ok(seed) = parse_u64(storming.seed.as_str()) else {
        return None;
    };
    let Ok(steps) = parse_u64(storming.steps.as_str()) else {
        return None;
    };
    Some(Weather {
        seed,
        steps,
        chances: chances_of(&storming.percents)?,
    })
}

/// Lets a storm happen at a site, and prints it: on the standard error where its script goes to standard output.
pub(crate) fn storm_files<F: Files, W: Write, E: Write>(
    alloc: Global,
    storming: &Storming,
    files: &F,
    in_colour: bool,
    out: &mut W,
    err: &mut E,
) -> u8
    ensures { spec.IsStormedBeside (F.reads files.now) (F.writes files.now) (F.same files.now) (F.apart files.now)
        storming.now result (W.contents out.old) (W.contents out.new) (E.contents err.old) (E.contents err.new) }
{
    if !is_any_standard(&[storming.file.as_deref()]) {
        return storm_shown(alloc, storming, files, in_colour, out, err);
    }
    let mut messages = Vec::new(alloc);
    let status = storm_shown(alloc, storming, files, in_colour, &mut *err, &mut messages);
    if status == 0 {
        return 0;
    }
    let _ = err.write_all(messages.as_slice());
    status
}

/// Reads the files of a storm, the site first, lets it happen, and writes its script, if a file is named for it.
fn storm_shown<F: Files, W: Write, E: Write>(
    alloc: Global,
    storming: &Storming,
    files: &F,
    in_colour: bool,
    out: &mut W,
    err: &mut E,
) -> u8
    ensures { spec.IsStormed (F.reads files.now) (F.writes files.now) (F.same files.now) (F.apart files.now)
        storming.now result (W.contents out.old) (W.contents out.new) }
{
    let Some(weather) = weather_of(storming) else {
        say_faulty_weather(storming, in_colour, err);
        return 2;
    };
    let outputs = [storming.file.as_deref()];
    if !are_safe(
        files,
        &storming.site,
        &storming.script,
        &outputs,
        in_colour,
        err,
    ) {
        return 2;
    }
    match texts_of(
        alloc,
        &storming.site,
        &storming.script,
        files,
        in_colour,
        err,
    ) {
        Ok((site, script)) => {
            let (site, script) = (site.as_slice(), script.as_slice());
            storm_texts(
                alloc, site, script, weather, storming, files, in_colour, out, err,
            )
        }
        Err(status) => status,
    }
}

/// Tells which words are no numbers, or no percentages.
fn say_faulty_weather<E: Write>(storming: &Storming, in_colour: bool, err: &mut E) {
    let _ = writeln!(
        err,
        "bacsite: storm takes whole numbers, and percents of 0 to 100"
    );
    let percents = &storming.percents;
    say_if_faulty("--seed", Some(storming.seed.as_str()), in_colour, err);
    say_if_faulty("--steps", Some(storming.steps.as_str()), in_colour, err);
    say_if_no_percent("--issue", percents.issue.as_deref(), in_colour, err);
    say_if_no_percent("--lose", percents.lose.as_deref(), in_colour, err);
    say_if_no_percent("--repeat", percents.repeat.as_deref(), in_colour, err);
    say_if_no_percent("--reorder", percents.reorder.as_deref(), in_colour, err);
    say_if_no_percent("--damage", percents.damage.as_deref(), in_colour, err);
    say_if_no_percent("--restart", percents.restart.as_deref(), in_colour, err);
}

/// Tells that a word is no percentage, if it is there and is none.
fn say_if_no_percent<E: Write>(flag: &str, word: Option<&str>, in_colour: bool, err: &mut E) {
    if percent_of(word, Percent::whole(0)).is_none() {
        let taken = "a percentage, 0 to 100, with at most one digit behind the point";
        say_faulty_word(flag, taken, word.unwrap_or(""), in_colour, err);
    }
}

/// Lets a storm happen at a site, and writes its script, if a file is named for it; tells what is wrong with texts.
#[tactic(auto, using(crate::proofs::StormingLaws::storm_laws))]
fn storm_texts<F: Files, W: Write, E: Write>(
    alloc: Global,
    site: &[u8],
    script: &[u8],
    weather: Weather,
    storming: &Storming,
    files: &F,
    in_colour: bool,
    out: &mut W,
    err: &mut E,
) -> u8
    ensures status { result ≤ 1 }
    ensures storms { result ≡ 0 → spec.PrintsTexts (F.writes files.now) storming.now site.now script.now weather.steps
        (W.contents out.old) (W.contents out.new) }
{
    if is_counted_alone(storming) {
        let status = count_texts(alloc, site, script, weather, out, err);
        return told(alloc, site, script, storming, status, in_colour, err);
    }
    let Ok(lines) = lines_of(alloc, script) else {
        return say_refused(Fault::Memory, err);
    };
    let mut lines = lines;
    let spelling = spelling_of(storming.is_named, false);
    let is_counted = storming.is_counted;
    let status = print_storm(
        alloc, site, script, weather, is_counted, spelling, &mut lines, out, err,
    );
    if status != 0 {
        return told(alloc, site, script, storming, status, in_colour, err);
    }
    let name = storming.file.as_deref();
    write_script(alloc, name, lines.as_slice(), files, in_colour, err)
}

/// Whether nothing is wanted of a storm but its counts: then none of its lines is kept, however many there are.
fn is_counted_alone(storming: &Storming) -> bool
    ensures { result ≡ true → spec.IsCountedAlone storming.now }
{
    match storming.file.as_deref() {
        None => storming.is_counted,
        Some(_) => false,
    }
}

/// Lets a storm happen at a site, prints its counts, and keeps no line of it.
fn count_texts<W: Write, E: Write>(
    alloc: Global,
    site: &[u8],
    script: &[u8],
    weather: Weather,
    out: &mut W,
    err: &mut E,
) -> u8
    ensures status { result ≤ 1 }
    ensures counts { result ≡ 0 → CountsStorm Global site.now script.now weather.steps None None
        (W.contents out.old) (W.contents out.new) }
{
    let mut lines = io::sink();
    storm_counted(alloc, alloc, site, script, weather, &mut lines, out, err)
}

/// Tells what is wrong with the texts of a storm, if it wasn't printed to its end. Returns its exit status.
fn told<E: Write>(
    alloc: Global,
    site: &[u8],
    script: &[u8],
    storming: &Storming,
    status: u8,
    in_colour: bool,
    err: &mut E,
) -> u8
    ensures { result ≡ status }
{
    if status != 0 {
        let texts = Texts {
            site_name: storming.site.as_str(),
            site,
            script_name: storming.script.as_str(),
            script,
        };
        say_text_faults(alloc, texts, in_colour, err);
    }
    status
}

/// Lets a storm happen at a site, prints it or its counts, and puts its lines behind others.
fn print_storm<W: Write, E: Write>(
    alloc: Global,
    site: &[u8],
    script: &[u8],
    weather: Weather,
    is_counted: bool,
    spelling: Spelling,
    lines: &mut Vec<u8>,
    out: &mut W,
    err: &mut E,
) -> u8
    ensures status { result ≤ 1 }
    ensures storms { result ≡ 0 → spec.PrintsOrCounts is_counted spelling site.now script.now weather.steps
        (Some lines.old.items) (Some lines.new.items) (W.contents out.old) (W.contents out.new) }
{
    if is_counted {
        storm_counted(alloc, alloc, site, script, weather, lines, out, err)
    } else {
        storm(
            alloc, alloc, site, script, weather, spelling, lines, out, err,
        )
    }
}

/// The lines of a script, of which the last one ends too.
fn lines_of(alloc: Global, script: &[u8]) -> Result<Vec<u8>, AllocError>
    ensures { IfOk result (λ lines. lines.items ≡ script.now ++ text.end_missing script.now) }
{
    let mut lines = Vec::from_slice(alloc, script)?;
    lines.extend_from_slice(end_missing(script))?;
    Ok(lines)
}

/// Writes the script of a storm, if a file is named for it, and answers the exit status.
fn write_script<F: Files, E: Write>(
    alloc: Global,
    name: Option<&str>,
    lines: &[u8],
    files: &F,
    in_colour: bool,
    err: &mut E,
) -> u8
    ensures status { result ≤ 1 }
    ensures written { result ≡ 0 → spec.IsWrittenIfNamed (F.writes files.now)
        (option_map (λ n. n.now) name.entry) lines.now }
{
    let Some(name) = name else {
        return 0;
    };
    match put_in_place(alloc, name, lines, files) {
        Ok(()) => 0,
        Err(error) => say_file_fault(name, Use::Written, &error, in_colour, err),
    }
}
