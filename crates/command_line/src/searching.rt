//! What is done for the command line of a search.

ghost use Rattle.std.specs.Prelude.{◌≡◌, ◌≤◌, [], None, IfOk, IsOk, option_map};
ghost use Rattle.std.specs.Global.{Global};
ghost use Rattle.command_line.specs.Searching as spec;
ghost use Rattle.site_search.specs.Searching.{Searches};

use crate::faults::{Texts, say_text_faults};
use crate::program::texts_of;
use crate::spelling::spelling_of;
use crate::until::{may_begin_line, say_no_line};
use command_files::{Files, WHOLE_NUMBER, are_safe, say_faulty_word};
use command_order::Searching;
use site_search::{say_found, search};
use std::alloc::Global;
use std::io::Write;
use words::{Spelling, Unread, parse_u64};

/// How many events there may be behind a script where no word says it.
const USUAL_DEPTH: u64 = 8;

/// How many events there may be behind a script, as a word says, if there is one.
fn depth_of(word: Option<&str>) -> Result<u64, Unread>
    ensures usual { word.entry ≡ None → IsOk result }
    ensures said { IfOk result (spec.IsDepth (option_map (λ w. w.now) word.entry)) }
{
    match word {
        Some(word) => parse_u64(word),
        None => Ok(USUAL_DEPTH),
    }
}

/// Reads the files of a search, the site first, and prints the script that was found.
pub(crate) fn search_files<F: Files, W: Write, E: Write>(
    alloc: Global,
    searching: &Searching,
    files: &F,
    in_colour: bool,
    out: &mut W,
    err: &mut E,
) -> u8
    ensures { spec.IsSearched (F.reads files.now) searching.now result (W.contents out.old) (W.contents out.new) }
{
    let Ok(depth) = depth_of(searching.depth.as_deref()) else {
        say_faulty_depth(searching.depth.as_deref(), in_colour, err);
        return 2;
    };
    let until = searching.until.as_str();
    if !may_begin_line(until) {
        say_no_line(until, in_colour, err);
        return 2;
    }
    if !are_safe(
        files,
        &searching.site,
        &searching.script,
        &[],
        in_colour,
        err,
    ) {
        return 2;
    }
    match texts_of(
        alloc,
        &searching.site,
        &searching.script,
        files,
        in_colour,
        err,
    ) {
        Ok((site, script)) => {
            let texts = Texts {
                site_name: searching.site.as_str(),
                site: site.as_slice(),
                script_name: searching.script.as_str(),
                script: script.as_slice(),
            };
            let spelling = spelling_of(searching.is_named, false);
            search_texts(alloc, texts, until, depth, spelling, in_colour, out, err)
        }
        Err(status) => status,
    }
}

/// Tells that a word is no number of events.
fn say_faulty_depth<E: Write>(depth: Option<&str>, in_colour: bool, err: &mut E) {
    let _ = writeln!(err, "bacsite: --depth takes a number of events");
    let depth = depth.unwrap_or("");
    say_faulty_word("--depth", WHOLE_NUMBER, depth, in_colour, err);
}

/// Seeks what may come behind a script at a site, and answers the exit status.
fn search_texts<W: Write, E: Write>(
    alloc: Global,
    texts: Texts<'_>,
    until: &str,
    depth: u64,
    spelling: Spelling,
    in_colour: bool,
    out: &mut W,
    err: &mut E,
) -> u8
    ensures status { result ≤ 1 }
    ensures searches { result ≡ 0 → Searches Global spelling texts.entry.site.now texts.entry.script.now until.now depth
        (W.contents out.old) (W.contents out.new) }
{
    let words = until.as_bytes();
    let (site, script) = (texts.site, texts.script);
    let found = search(alloc, alloc, site, script, words, depth, spelling, out);
    let status = say_found(found, err);
    if status != 0 {
        say_text_faults(alloc, texts, in_colour, err);
    }
    status
}
