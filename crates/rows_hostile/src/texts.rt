//! Site files and scripts, `NAME.toml` and `NAME.script`: each is read as it stands, cut at each octet, and with each
//! octet changed. Each is a site or a script, or refused for a cause that it has.

use refusing::Refusing;
use script::{BadScript, script_of};
use sheets::{Counts, Given, Report, Row, Stop, Trial, change_octets, differs};
use site_text::site_of;
use std::alloc::{AllocError, Allocator, Global};
use std::{fs, io};
use tags::Fault;
use words::Unread;

/// What a text is read as.
#[derive(Clone, Copy)]
pub(crate) enum Kind {
    Site,
    Script,
}

/// Reads a text.
///
/// # Errors
/// `Differs` where it is refused for a cause that no text has; `Memory`.
pub(crate) fn read_text<A: Allocator + Copy>(
    alloc: Global,
    memory: A,
    kind: Kind,
    text: &[u8],
) -> Result<(), Stop> {
    match kind {
        Kind::Site => read_site(alloc, memory, text),
        Kind::Script => read_script(alloc, memory, text),
    }
}

/// Reads the text of a site.
fn read_site<A: Allocator + Copy>(alloc: Global, memory: A, text: &[u8]) -> Result<(), Stop> {
    match site_of(alloc, memory, text) {
        Ok(_) | Err(Fault::BadSite) => Ok(()),
        Err(Fault::Memory) => Err(Stop::Memory),
        Err(_) => Err(differs(alloc, "a refusal that no site has")),
    }
}

/// Reads the text of a script. A line that is refused is one of it.
fn read_script<A: Allocator + Copy>(alloc: Global, memory: A, text: &[u8]) -> Result<(), Stop> {
    match script_of(memory, text) {
        Ok(_) => Ok(()),
        Err(BadScript::Memory) => Err(Stop::Memory),
        Err(BadScript::Line { number, unread }) => {
            let ends = text.iter().filter(|octet| **octet == b'\n').count();
            if number == 0 || number > ends.saturating_add(1) || unread == Unread::Memory {
                return Err(differs(alloc, "a line that is not there"));
            }
            Ok(())
        }
    }
}

/// A text of a kind.
#[derive(Clone, Copy)]
struct Text {
    kind: Kind,
}

impl<'a> Trial<'a> for Text {
    fn answer(&self, given: Given<'a>, octets: &[u8]) -> Result<String, Stop> {
        read_text(given.alloc, given.memory, self.kind, octets)?;
        Ok(String::new(given.alloc))
    }
}

/// The examples: of each a site and a script.
const EXAMPLES: [&str; 6] = [
    "behind_bus",
    "behind_router",
    "foreign_device",
    "lost_answer",
    "lost_segment",
    "restart",
];

/// Reads the files of each example, and prints a line for each.
///
/// # Errors
/// Those of reading and of printing, and want of memory.
pub fn run_texts(rt: &HostRuntime) -> io::Result<()> {
    for name in EXAMPLES {
        run_named(rt, name, "script", Kind::Script)?;
        run_named(rt, name, "toml", Kind::Site)?;
    }
    Ok(())
}

/// Reads a file of an example, and prints a line for it.
fn run_named(rt: &HostRuntime, name: &str, end: &str, kind: Kind) -> io::Result<()> {
    let file = format!(in rt.alloc(); "hostile/{name}.{end}")?;
    let text = fs::read(rt, file.as_str())?;
    let said = run_file(rt.alloc(), file.as_str(), kind, text.as_slice())?;
    rt.print(said.as_str())
}

/// Reads a text in every way, and answers what is printed of that.
fn run_file(alloc: Global, name: &str, kind: Kind, octets: &[u8]) -> Result<String, AllocError> {
    let memory = Refusing::new(alloc);
    let other = Refusing::new(alloc);
    let given = Given {
        alloc,
        memory: &memory,
        other: &other,
    };
    let row = Row {
        line: 1,
        asked: name,
        wanted: None,
    };
    let mut report = Report::new(alloc, name);
    report.add(&row, run_text(given, kind, octets))?;
    report.text()
}

fn run_text(given: Given<'_>, kind: Kind, octets: &[u8]) -> Result<Counts, Stop> {
    let text = Text { kind };
    text.answer(given, octets)?;
    Ok(Counts {
        rows: 1,
        refused: 0,
        changed: change_octets(given, &text, octets)?,
    })
}
