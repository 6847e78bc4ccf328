//! What is printed of a turn.

ghost use Rattle.std.specs.Prelude.{◌≡◌, ◌++◌, OnOk, drop, option_map};
ghost use Rattle.std.specs.Io.KnownBytes.{Appends, Keeps};
ghost use Rattle.site_live.specs.Printed.{answer_text, stray_text, turn_text};
ghost use Rattle.site_history.specs.Printed.{entries_text};

use runner::{Runner, Turned, WorldEntry};
use site_history::{AskedFor, print_entries, print_refused_asked};
use site_parts::Station;
use std::alloc::Allocator;
use std::io;
use std::io::Write;
use tags::Fault;
use words::Spelling;

/// Prints what came of a turn, before which the history had so many entries: that a stray was heard, what is new in the
/// history, and the turn's refusal with what is told of its event. All lines are flushed then, where that is asked for.
///
/// # Errors
/// Those of writing.
#[tactic(auto, using(crate::proofs::PrintLaws::turn_laws))]
pub(crate) fn print_turn<A: Allocator + Copy, W: Write>(
    spelling: Spelling,
    runner: &Runner<A>,
    entries: usize,
    asked: Option<&AskedFor<A>>,
    answer: Result<Turned, Fault>,
    flushes: bool,
    out: &mut W,
) -> io::Result<()>
    ensures { OnOk result (Appends (W.contents out.old) (W.contents out.new)
        (turn_text spelling (option_map (λ a. a.now) asked.entry) answer entries runner.now)) }
{
    let world = runner.world();
    let history = runner.history();
    print_told(
        spelling,
        world.site().stations(),
        runner.strayed(),
        history,
        behind(history, entries),
        asked,
        answer,
        world.moment(),
        flushes,
        out,
    )
}

/// Prints the lines of a turn, and flushes them with those before, where that is asked for.
fn print_told<A: Allocator, W: Write>(
    spelling: Spelling,
    stations: &[Station<A>],
    strayed: bool,
    history: &[WorldEntry<A>],
    entries: &[WorldEntry<A>],
    asked: Option<&AskedFor<A>>,
    answer: Result<Turned, Fault>,
    moment: u64,
    flushes: bool,
    out: &mut W,
) -> io::Result<()>
    ensures { OnOk result (Appends (W.contents out.old) (W.contents out.new) (stray_text strayed moment
        ++ (entries_text spelling stations.now history.now entries.now
        ++ answer_text (option_map (λ a. a.now) asked.entry) answer moment))) }
{
    print_stray(strayed, moment, out)?;
    print_entries(spelling, stations, history, entries, out)?;
    print_answer(asked, answer, moment, out)?;
    flush_if(flushes, out)
}

/// Flushes what was printed, where that is asked for.
#[tactic(auto, using(crate::proofs::PrintLaws::flush_laws))]
fn flush_if<W: Write>(flushes: bool, out: &mut W) -> io::Result<()>
    ensures { Keeps (W.contents out.old) (W.contents out.new) }
{
    if flushes { out.flush() } else { Ok(()) }
}

/// Prints that a stray was heard, if one was.
#[tactic(auto, using(crate::proofs::PrintLaws::none_laws))]
fn print_stray<W: Write>(strayed: bool, moment: u64, out: &mut W) -> io::Result<()>
    ensures { OnOk result (Appends (W.contents out.old) (W.contents out.new) (stray_text strayed moment)) }
{
    if strayed {
        writeln!(out, "{moment} stray")
    } else {
        Ok(())
    }
}

/// Prints that a turn was refused, if it was.
#[tactic(auto, using(crate::proofs::PrintLaws::none_laws))]
fn print_answer<A: Allocator, W: Write>(
    asked: Option<&AskedFor<A>>,
    answer: Result<Turned, Fault>,
    moment: u64,
    out: &mut W,
) -> io::Result<()>
    ensures { OnOk result (Appends (W.contents out.old) (W.contents out.new)
        (answer_text (option_map (λ a. a.now) asked.entry) answer moment)) }
{
    match answer {
        Ok(_) => Ok(()),
        Err(fault) => print_refused_asked(asked, fault, moment, out),
    }
}

/// What stands behind so many entries.
fn behind<A: Allocator>(all: &[WorldEntry<A>], count: usize) -> &[WorldEntry<A>]
    ensures { result.now ≡ drop count all.now }
{
    match all.get(count..) {
        Some(rest) => rest,
        None => &[],
    }
}
