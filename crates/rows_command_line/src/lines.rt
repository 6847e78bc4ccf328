//! Rows of command lines: `bacsite answer 8 -> 1: ! bacsite: hex`; `..` stands for text of clap's, and more may be told
//! on the standard error behind what is wanted, but for rows of messages, which are whole. Rows of `--until`:
//! `restarted d -> a line`. And of writers that fail: `121 bacsite sim p.toml live.script -> 0`, the exit status of a
//! command line where standard output takes so many octets and standard error none. With any less it is 1.

use crate::{files, narrow};
use command_line::Files;
use sheets::{
    Bench, Counts, Full, Given, Part, Printing, Report, Row, Said, Stop, compare, differs, number,
    run_text, status_within, two_words, words_of,
};
use std::alloc::{AllocError, Global};
use std::io;

/// What rows of text run on.
pub(crate) struct CommandLines;

impl Bench for CommandLines {
    fn run(
        given: Given<'_>,
        name: &str,
        rows: &[Row<'_>],
        report: &mut Report<'_>,
    ) -> Result<(), AllocError> {
        for row in rows {
            report.add(row, run_row(given, name, row))?;
        }
        Ok(())
    }
}

/// Runs a row of a file of this name.
fn run_row(given: Given<'_>, name: &str, row: &Row<'_>) -> Result<Counts, Stop> {
    let wanted = row.wanted()?;
    match name {
        "lines.txt" => run(given.alloc, row.asked, wanted),
        "messages.txt" => run_whole(given.alloc, row.asked, wanted),
        "files.txt" => files::run(given.alloc, row.asked, wanted),
        "until.txt" => run_until(given.alloc, row.asked, wanted),
        "outputs.txt" => narrow::run(given.alloc, row.asked, wanted),
        "writers.txt" => run_failing(given.alloc, row.asked, wanted),
        _ => Err(Stop::Unread(Part::Asked)),
    }
}

/// Runs a command line; `..` stands for text of clap's own in what is wanted.
///
/// # Errors
/// `Differs` where the row does not hold, and those of reading it.
fn run(alloc: Global, asked: &str, wanted: &str) -> Result<Counts, Stop> {
    let words = words_of(alloc, asked)?;
    let said = said_of(alloc, words.as_slice());
    if said.out.is_empty() && said.err.is_empty() {
        return Err(differs(alloc, "no text on any of the outputs"));
    }
    let found = said.in_words(alloc)?;
    if !fits(found.as_str(), wanted) && !begins(found.as_str(), wanted) {
        compare(found, wanted)?;
    }
    Ok(Counts {
        rows: 1,
        ..Counts::none()
    })
}

/// Runs a command line, of which nothing else is told than what is wanted.
fn run_whole(alloc: Global, asked: &str, wanted: &str) -> Result<Counts, Stop> {
    let words = words_of(alloc, asked)?;
    let said = said_of(alloc, words.as_slice());
    run_text(said.in_words(alloc)?, wanted)
}

/// Runs a search for an entry of these words with no event behind the script, and tells whether a line may begin so.
fn run_until(alloc: Global, asked: &str, wanted: &str) -> Result<Counts, Stop> {
    let mut words = words_of(alloc, "bacsite search p.toml live.script --depth 0 --until")?;
    words.push(String::from_str(alloc, asked)?)?;
    let told = match said_of(alloc, words.as_slice()).status {
        1 => "a line",
        2 => "no line",
        _ => "another status",
    };
    run_text(String::from_str(alloc, told)?, wanted)
}

/// What is said of a command line.
fn said_of(alloc: Global, words: &[String]) -> Said {
    let mut out = Vec::new(alloc);
    let mut err = Vec::new(alloc);
    let status = command_line::run(
        None::<&HostRuntime>,
        alloc,
        words,
        &Texts,
        false,
        &mut out,
        &mut err,
    );
    Said { status, out, err }
}

/// Whether a text goes on behind what is wanted with further lines on the standard error, of a status that isn't 0.
fn begins(found: &str, wanted: &str) -> bool {
    let mark = if wanted.contains(" ! ") { " / " } else { " ! " };
    match found.strip_prefix(wanted) {
        Some(rest) => !wanted.starts_with("0:") && rest.starts_with(mark),
        None => false,
    }
}

/// Whether a text has the parts of what is wanted in their order, the first of them at its front and
/// the last at its end.
fn fits(found: &str, wanted: &str) -> bool {
    let Some((front, parts)) = wanted.split_once("..") else {
        return found == wanted;
    };
    let Some(found) = found.strip_prefix(front) else {
        return false;
    };
    let mut rest = found;
    let mut last = "";
    for part in parts.split("..") {
        match rest.split_once(part) {
            Some((_, behind)) => rest = behind,
            None => return false,
        }
        last = part;
    }
    found.ends_with(last)
}

/// The words of a command line.
#[derive(Clone, Copy)]
struct CommandLine<'a> {
    alloc: Global,
    words: &'a [String],
}

impl Printing for CommandLine<'_> {
    fn status(&self, out: &mut Full, err: &mut Full) -> Result<u8, Stop> {
        Ok(command_line::run(
            None::<&HostRuntime>,
            self.alloc,
            self.words,
            &Texts,
            false,
            out,
            err,
        ))
    }
}

/// Runs a command line over a writer that fails.
fn run_failing(alloc: Global, asked: &str, wanted: &str) -> Result<Counts, Stop> {
    let (room, words) = two_words(asked);
    let words = words_of(alloc, words)?;
    let line = CommandLine {
        alloc,
        words: words.as_slice(),
    };
    let found = status_within(alloc, &line, number(room)? as usize)?;
    run_text(format!(in alloc; "{found}")?, wanted)
}

/// One subnet with a client and a device (5:1 is a Binary Value whose default is 0).
const SITE: &str = r#"network = [{number = 1, kind = "ip"}]
client = [{name = "c", network = 1, subnet = 1, address = "127.0.0.1:47810"}]
[[device]]
name = "d"
instance = 10
network = 1
subnet = 1
address = "127.0.0.1:47811"
object = [{type = "binary-value", instance = 1, name = "B1", default = 0}]
"#;

/// The site whose client and device stand at the addresses of the capture.
const SITE_OF_CAPTURE: &str = r#"network = [{number = 1, kind = "ip"}]
client = [{name = "panel", network = 1, subnet = 1, address = "127.0.0.1:47809"}]
[[device]]
name = "ahu"
instance = 10
network = 1
subnet = 1
address = "127.0.0.1:47808"
object = [{type = "binary-value", instance = 1, name = "B1", default = 0}]
"#;

/// A site without a network.
const NO_SITE: &str = "network = []\n";

/// The device is found, and written.
const SCRIPT: &str = "whois c\nflow 50\nissue c 10 write 5:1 85 enum 1\nflow 50\n";

/// A script with the standard's names.
const NAMED_SCRIPT: &str = "whois c
flow 50
issue c 10 many binary-value,1 present-value,priority-array[17],104 45:1 85 device,10 object-name
flow 50
issue c 10 write binary-value,1 object-name \"a \\\"b\\\" \\x41\"
flow 50
";

/// A script that no device executes, since nobody waits: properties by their numbers, and one that has no name.
const NUMBERED_SCRIPT: &str = "whois c
flow 50
issue c 10 many 8:10 8,10,11,12,28,30,36,44,62,70,73,74,75,76,77,79,80,81,85,87,\
96,97,98,104,105,107,111,112,117,120,121,139,155,167,1 \
5:1 85 19:3 85 40:4 85 45:5 85 6:1 85
";

/// A state and a text are read, one by one.
const READING_SCRIPT: &str =
    "whois c\nflow 50\nissue c 10 read 5:1 85\nflow 50\nissue c 10 read 8:10 77\nflow 50\n";

/// Each step is refused but the question and the minute behind it.
const REFUSED_SCRIPT: &str = "# each step is refused but two

issue c 10 read 5:1 85
issue x 10 read 5:1 85
whois d
tick 0
wake x
deliver 9
restart c
register c
hear 1 c FF
flow 70000
whois c
tick 60000
deliver 0
";

/// The first one, and its last line has no end.
const UNENDED_SCRIPT: &str = "whois c\nflow 50\nissue c 10 write 5:1 85 enum 1\nflow 50";

/// The device restarts twice.
const RESTARTS: &str = "restart d\nrestart d\n";

/// .. behind the script.
const SCRIPT_AND_RESTARTS: &str =
    "whois c\nflow 50\nissue c 10 write 5:1 85 enum 1\nflow 50\nrestart d\nrestart d\n";

/// What it expects holds, but for the last line.
const UNMET_SCRIPT: &str =
    "whois c\nflow 50\nissue c 10 write 5:1 85 enum 1\nflow 50\nexpect answered 0 done\nexpect executed 0 never\n";

/// The report of that.
const REPORT: &str = "<?xml version=\"1.0\" encoding=\"UTF-8\"?>\n\
    <testsuite name=\"unmet.script\" tests=\"2\" failures=\"1\" errors=\"0\">\n  \
    <testcase classname=\"unmet.script\" name=\"line 5: expect answered 0 done\"/>\n  \
    <testcase classname=\"unmet.script\" name=\"line 6: expect executed 0 never\">\
    <failure message=\"found 52 answered 0 done\"/></testcase>\n</testsuite>\n";

/// The third line asks for nothing.
const NO_SCRIPT: &str = "whois c\nflow 50\ndeliver x\n";

/// A file of pcap with one packet of IP, in which a client reads 5:1 of a device.
const CAPTURE: &[u8] = &[
    0xA1, 0xB2, 0xC3, 0xD4, 0x00, 0x02, 0x00, 0x04, 0x00, 0x00, 0x00, 0x00, 0x00, 0x00, 0x00, 0x00,
    0x00, 0x00, 0xFF, 0xFF, 0x00, 0x00, 0x00, 0x65, 0x00, 0x00, 0x00, 0x64, 0x00, 0x00, 0x00, 0x01,
    0x00, 0x00, 0x00, 0x2D, 0x00, 0x00, 0x00, 0x2D, 0x45, 0x00, 0x00, 0x2D, 0x00, 0x00, 0x40, 0x00,
    0x40, 0x11, 0x3C, 0xBE, 0x7F, 0x00, 0x00, 0x01, 0x7F, 0x00, 0x00, 0x01, 0xBA, 0xC1, 0xBA, 0xC0,
    0x00, 0x19, 0x64, 0x8C, 0x81, 0x0A, 0x00, 0x11, 0x01, 0x04, 0x02, 0x65, 0x01, 0x0C, 0x0C, 0x01,
    0x40, 0x00, 0x01, 0x19, 0x55,
];

/// Files, and what they hold.
pub(crate) fn disk_texts() -> [(&'static str, &'static [u8]); 8] {
    [
        ("p.toml", SITE.as_bytes()),
        ("none.toml", NO_SITE.as_bytes()),
        ("live.script", SCRIPT.as_bytes()),
        ("unmet.script", UNMET_SCRIPT.as_bytes()),
        ("-", UNENDED_SCRIPT.as_bytes()),
        ("old.svg", b"as it was\n"),
        ("old.svg.part0", b"of another program\n"),
        ("there/site.toml", NO_SITE.as_bytes()),
    ]
}

/// What a file of pcapng begins with: the type of its first block.
const SECTION: &[u8] = &[0x0A, 0x0D, 0x0D, 0x0A];

/// Thirteen files, `p.toml`, `none.toml`, `one.toml`, `live.script`, `unmet.script`, `unended.script`, `named.script`,
/// `numbered.script`, `reading.script`, `refused.script`, `empty.script`, `bad.script` and `one.pcap`, which is also
/// standard input where that is read piece by piece; and seven that may be written: `storm.script`; `restarts.script`,
/// `behind.script` and `live.xml` if they hold just these texts; and `live.pcapng`, `live.svg` and `live.html` if they
/// begin as such files do.
#[derive(Clone, Copy)]
pub(crate) struct Texts;

impl Files for Texts {
    // No clause tells what they hold.
    ghost reads = { λ _ _ _. Unit {0} };

    ghost writes = { λ _ _ _. Unit {0} };

    ghost same = { λ _ _ _. Unit {0} };

    ghost apart = { λ _ _ _. Unit {0} };

    type File = Vec<u8>;

    type Input = &'static [u8];

    fn read(&self, alloc: Global, name: &str) -> io::Result<Vec<u8>> {
        if name == "-" {
            return Err(io::ErrorKind::NotFound.into());
        }
        let octets = Vec::from_slice(alloc, self.open(name)?)?;
        Ok(octets)
    }

    fn open(&self, name: &str) -> io::Result<&'static [u8]> {
        match name {
            "p.toml" => Ok(SITE.as_bytes()),
            "none.toml" => Ok(NO_SITE.as_bytes()),
            "one.toml" => Ok(SITE_OF_CAPTURE.as_bytes()),
            "live.script" => Ok(SCRIPT.as_bytes()),
            "unmet.script" => Ok(UNMET_SCRIPT.as_bytes()),
            "unended.script" => Ok(UNENDED_SCRIPT.as_bytes()),
            "named.script" => Ok(NAMED_SCRIPT.as_bytes()),
            "reading.script" => Ok(READING_SCRIPT.as_bytes()),
            "refused.script" => Ok(REFUSED_SCRIPT.as_bytes()),
            "numbered.script" => Ok(NUMBERED_SCRIPT.as_bytes()),
            "empty.script" => Ok(b""),
            "bad.script" => Ok(NO_SCRIPT.as_bytes()),
            "one.pcap" | "-" => Ok(CAPTURE),
            _ => Err(io::ErrorKind::NotFound.into()),
        }
    }

    fn write(&self, name: &str, octets: &[u8]) -> io::Result<()> {
        match name {
            "storm.script" => Ok(()),
            "restarts.script" if octets == RESTARTS.as_bytes() => Ok(()),
            "behind.script" if octets == SCRIPT_AND_RESTARTS.as_bytes() => Ok(()),
            "live.pcapng" if octets.starts_with(SECTION) => Ok(()),
            "live.svg" if octets.starts_with(b"<svg ") => Ok(()),
            "live.html" if octets.starts_with(b"<!DOCTYPE html>") => Ok(()),
            "live.xml" if octets == REPORT.as_bytes() => Ok(()),
            _ => Err(io::ErrorKind::PermissionDenied.into()),
        }
    }

    fn create(&self, _name: &str) -> io::Result<Vec<u8>> {
        Err(io::ErrorKind::PermissionDenied.into())
    }

    fn cut(&self, _file: &mut Vec<u8>, _octets: u64) -> io::Result<()> {
        Err(io::ErrorKind::Unsupported.into())
    }

    fn is_same(&self, one: &str, other: &str) -> bool {
        one == other
    }

    // Each is written as it stands.
    fn target(&self, _alloc: Global, _name: &str) -> io::Result<Option<String>> {
        Ok(None)
    }

    fn write_new(&self, _name: &str, _octets: &[u8]) -> io::Result<()> {
        Err(io::ErrorKind::PermissionDenied.into())
    }

    fn rename(&self, _from: &str, _to: &str) -> io::Result<()> {
        Err(io::ErrorKind::PermissionDenied.into())
    }

    fn remove(&self, _name: &str) -> io::Result<()> {
        Err(io::ErrorKind::PermissionDenied.into())
    }
}
