//! Entries of a history and refusals, each printed on a line.

ghost use Rattle.std.specs.Prelude.{OnOk, option_map};
ghost use Rattle.std.specs.Io.KnownBytes.{Appends};
ghost use Rattle.site_history.specs.Asked.{refused_asked_text, refused_time_text, told_of};
ghost use Rattle.site_history.specs.Printed.{entries_text, entry_text, line, refused_text};

use crate::event_line::{AskedFor, EventLine, ScriptLine, cause, missing};
use crate::printed::{EntryLine, RefusedLine};
use faulty_flow::{Event, WorldEntry};
use site_parts::Station;
use std::alloc::Allocator;
use std::io;
use std::io::Write;
use tags::Fault;
use words::Spelling;

/// Prints that an event was refused at a moment, in milliseconds.
///
/// # Errors
/// Those of writing.
pub fn print_refusal<W: Write>(fault: Fault, moment: u64, out: &mut W) -> io::Result<()>
    ensures { OnOk result (Appends (W.contents out.old) (W.contents out.new) (line (refused_text fault moment))) }
{
    writeln!(out, "{}", RefusedLine { fault, moment })
}

/// Prints that an event was refused at a moment, in milliseconds. With the standard's names, the number of the script's
/// line stands behind it, where there is one, the event and the plain cause:
/// `200 refused 8 Unbound line 7 issue c 10 read integer-value,1 present-value: no I-Am of this device was heard yet`.
///
/// # Errors
/// Those of writing.
pub fn print_refused_event<A: Allocator, W: Write>(
    spelling: Spelling,
    script_line: Option<u64>,
    event: &Event<A>,
    fault: Fault,
    moment: u64,
    out: &mut W,
) -> io::Result<()>
    ensures { OnOk result (Appends (W.contents out.old) (W.contents out.new)
        (line (refused_asked_text (told_of spelling script_line event.now) fault moment))) }
{
    let refused = RefusedLine { fault, moment };
    match spelling {
        Spelling::Numbers => writeln!(out, "{refused}"),
        Spelling::Names => {
            let at = ScriptLine(script_line);
            let asked = EventLine { event, spelling };
            let cause = cause(missing(event), fault);
            writeln!(out, "{refused} {at}{asked}{cause}")
        }
    }
}

/// The same, of what is known of the event from before.
///
/// # Errors
/// Those of writing.
pub fn print_refused_asked<A: Allocator, W: Write>(
    asked: Option<&AskedFor<A>>,
    fault: Fault,
    moment: u64,
    out: &mut W,
) -> io::Result<()>
    ensures { OnOk result (Appends (W.contents out.old) (W.contents out.new)
        (line (refused_asked_text (option_map (λ a. a.now) asked.entry) fault moment))) }
{
    let refused = RefusedLine { fault, moment };
    match asked {
        None => writeln!(out, "{refused}"),
        Some(asked) => {
            let text = asked.text();
            let cause = cause(asked.missing(), fault);
            writeln!(out, "{refused} {text}{cause}")
        }
    }
}

/// Prints that so many milliseconds were refused at a moment. With the standard's names, the number of the script's
/// line stands behind it, where there is one, how many they are, and how many may be:
/// `200 refused 13 NoSuch line 9 70000 ms: 1 to 60000 ms pass in a step`.
///
/// # Errors
/// Those of writing.
pub fn print_refused_time<W: Write>(
    spelling: Spelling,
    script_line: Option<u64>,
    n: u64,
    fault: Fault,
    moment: u64,
    out: &mut W,
) -> io::Result<()>
    ensures { OnOk result (Appends (W.contents out.old) (W.contents out.new)
        (line (refused_time_text spelling script_line n fault moment))) }
{
    let refused = RefusedLine { fault, moment };
    match spelling {
        Spelling::Numbers => writeln!(out, "{refused}"),
        Spelling::Names => {
            let at = ScriptLine(script_line);
            let why = if fault == Fault::Memory {
                "there is no memory for them"
            } else {
                "1 to 60000 ms pass in a step"
            };
            writeln!(out, "{refused} {at}{n} ms: {why}")
        }
    }
}

/// Prints entries of this history of a site with these stations, each on a line.
///
/// # Errors
/// Those of writing.
#[tactic(auto, using(crate::proofs::PrintLaws::print_rules))]
pub fn print_entries<A: Allocator, W: Write>(
    spelling: Spelling,
    stations: &[Station<A>],
    history: &[WorldEntry<A>],
    entries: &[WorldEntry<A>],
    out: &mut W,
) -> io::Result<()>
    ensures { OnOk result (Appends (W.contents out.old) (W.contents out.new)
        (entries_text spelling stations.now history.now entries.now)) }
{
    for entry in entries {
        print_entry(spelling, stations, history, entry, out)?;
    }
    Ok(())
}

/// Prints an entry of the history.
fn print_entry<A: Allocator, W: Write>(
    spelling: Spelling,
    stations: &[Station<A>],
    history: &[WorldEntry<A>],
    entry: &WorldEntry<A>,
    out: &mut W,
) -> io::Result<()>
    ensures { OnOk result (Appends (W.contents out.old) (W.contents out.new)
        (line (entry_text spelling stations.now history.now entry.now))) }
{
    let text = EntryLine {
        entry,
        history,
        stations,
        spelling,
    };
    writeln!(out, "{text}")
}
