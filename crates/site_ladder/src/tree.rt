//! What the octets of a message say, as a tree: a branch for each header, and one for what the service has.

use ladder::Escaped;
use std::io;
use std::io::Write;

/// What the lines of a branch tell of.
#[derive(Clone, Copy, PartialEq, Eq)]
enum Branch {
    Frame,
    Bvll,
    Npdu,
    Apdu,
    Parameters,
    /// None of the headers.
    Message,
}

impl Branch {
    /// Returns what the branch is called in a page.
    fn title(self) -> &'static str {
        match self {
            Branch::Frame => "MS/TP frame",
            Branch::Bvll => "BACnet/IP",
            Branch::Npdu => "Network layer",
            Branch::Apdu => "APDU",
            Branch::Parameters => "Parameters",
            Branch::Message => "Message",
        }
    }
}

/// Writes the lines that tell of octets, of which those that begin a header begin a branch.
pub(crate) fn write_tree<W: Write>(lines: &[u8], out: &mut W) -> io::Result<()> {
    let lines = std::str::from_utf8(lines).unwrap_or("?");
    let mut branch = None;
    let mut depth = 0usize;
    for line in lines.lines() {
        let word = first_word(line);
        let next = branch_of(word, branch);
        if branch != Some(next) {
            end_branch(branch, out)?;
            let title = next.title();
            write!(out, "<details open=\"\"><summary>{title}</summary><pre>")?;
            branch = Some(next);
            depth = 0;
        }
        if word == "close" {
            depth = depth.saturating_sub(1);
        }
        for _ in 0..depth {
            write!(out, "  ")?;
        }
        writeln!(out, "{}", Escaped::whole(line))?;
        if word == "open" {
            depth = depth.saturating_add(1);
        }
    }
    end_branch(branch, out)
}

/// Writes the end of a branch, if one is open.
fn end_branch<W: Write>(branch: Option<Branch>, out: &mut W) -> io::Result<()> {
    match branch {
        Some(_) => writeln!(out, "</pre></details>"),
        None => Ok(()),
    }
}

/// The word that a line begins with.
fn first_word(line: &str) -> &str {
    match line.split_once(' ') {
        Some((word, _)) => word,
        None => line,
    }
}

/// The branch of a line that begins with a word, behind a line of a branch.
fn branch_of(word: &str, branch: Option<Branch>) -> Branch {
    match word {
        "frame" => Branch::Frame,
        "bvll" => Branch::Bvll,
        "npdu" => Branch::Npdu,
        "apdu" => Branch::Apdu,
        "application" | "context" | "open" => Branch::Parameters,
        _ => branch.unwrap_or(Branch::Message),
    }
}
