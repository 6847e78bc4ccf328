//! Rows of the two tools, `WORDS -> STATUS: LINES ! LINES`: the words of a tool, its exit status, and the
//! lines on standard output and, behind `!`, on standard error, parted by ` / `. `3E*700` stands for as many
//! words, and a line with such a count for as many lines.

use crate::said::octets_of;
use console::{Spelling, answer_line, explain_line};
use sheets::{Counts, Given, Said, Stop, Trial, change_octets, differs, try_row, words_of};
use std::alloc::{AllocError, Allocator, Global};

/// What a tool prints on standard error where it is refused memory.
const REFUSED: &[u8] = b"bacsite: refused 1 Memory\n";

/// What `answer` prints on standard error where words spell no octets.
const FAULTY: &[u8] = b"bacsite: hex\n";

/// What `explain` prints there.
const UNEXPECTED: &[u8] =
    b"bacsite: hex\nexpected octets as 810A0011, 81 0A 00 11, 81:0a:00:11 or 0x81, 0x0a, or a hex dump\n";

/// How many octets the header of a datagram has that say its length.
const HEADER: usize = 4;

/// A tool of the program.
#[derive(Clone, Copy)]
pub(crate) enum Tool {
    Answer,
    Explain,
    /// `explain` with `--names`.
    ExplainNames,
}

/// Runs a tool on words as they stand, with each allocation refused in turn, and on what their
/// datagram becomes where it is cut or an octet is changed.
///
/// # Errors
/// `Differs` where the row does not hold, and those of reading it.
pub(crate) fn run(given: Given<'_>, tool: Tool, asked: &str, wanted: &str) -> Result<Counts, Stop> {
    let words = words_of(given.alloc, asked)?;
    let trial = WordsTrial {
        tool,
        words: words.as_slice(),
    };
    let counts = try_row(given, &trial, &[], wanted)?;
    match octets_of(given.alloc, asked) {
        Ok(octets) => {
            let changed = runs_changed(given, tool, octets.as_slice())?;
            Ok(Counts { changed, ..counts })
        }
        Err(Stop::Unread(_)) => Ok(counts),
        Err(stop) => Err(stop),
    }
}

/// Runs `explain` on the lines of a hex dump, between which `\n` stands, with each allocation refused in turn.
///
/// # Errors
/// `Differs` where the row does not hold, and those of reading it.
pub(crate) fn run_dump(given: Given<'_>, asked: &str, wanted: &str) -> Result<Counts, Stop> {
    let mut words = Vec::new(given.alloc);
    words.push(lines_of(given.alloc, asked)?)?;
    let trial = WordsTrial {
        tool: Tool::Explain,
        words: words.as_slice(),
    };
    try_row(given, &trial, &[], wanted)
}

/// A text with a line end for each `\n`.
fn lines_of(alloc: Global, asked: &str) -> Result<String, AllocError> {
    let mut text = String::new(alloc);
    for (index, line) in asked.split("\\n").enumerate() {
        if index > 0 {
            text.push('\n')?;
        }
        text.push_str(line)?;
    }
    Ok(text)
}

/// How often a tool runs on what a datagram becomes.
fn runs_changed(given: Given<'_>, tool: Tool, octets: &[u8]) -> Result<u64, Stop> {
    let trial = DatagramTrial { tool };
    let changed = change_octets(given, &trial, octets)?;
    let cut = cut_datagrams(given, trial, octets)?;
    Ok(changed.saturating_add(cut))
}

/// Runs a tool on each cut of a datagram behind its header, with the length of the whole made right.
fn cut_datagrams(given: Given<'_>, trial: DatagramTrial, octets: &[u8]) -> Result<u64, Stop> {
    let mut runs = 0u64;
    for end in HEADER..octets.len() {
        let cut = cut(given.alloc, octets, end)?;
        trial.answer(given, cut.as_slice())?;
        runs = runs.saturating_add(1);
    }
    Ok(runs)
}

/// A datagram that ends here, with the length of the whole made right.
fn cut(alloc: Global, octets: &[u8], end: usize) -> Result<Vec<u8>, Stop> {
    let mut cut = Vec::new(alloc);
    if let (Some(front), Some(rest)) = (octets.get(..2), octets.get(HEADER..end)) {
        cut.extend_from_slice(front)?;
        cut.push((end / 256 % 256) as u8)?;
        cut.push((end % 256) as u8)?;
        cut.extend_from_slice(rest)?;
    }
    Ok(cut)
}

/// Runs a tool on words in this memory.
fn said<A: Allocator + Copy>(
    alloc: Global,
    memory: A,
    tool: Tool,
    words: &[String],
) -> Result<Said, Stop> {
    let mut out = Vec::new(alloc);
    let mut err = Vec::new(alloc);
    let status = match tool {
        Tool::Answer => answer_line(memory, words, &mut out, &mut err),
        Tool::Explain => explain_line(memory, Spelling::Numbers, words, &mut out, &mut err),
        Tool::ExplainNames => explain_line(memory, Spelling::Names, words, &mut out, &mut err),
    };
    if err.as_slice() == REFUSED {
        return Err(refused(alloc, status, out.as_slice()));
    }
    Ok(Said { status, out, err })
}

/// Why a tool stopped that was refused memory: want of memory where it printed nothing else, with status 1.
fn refused(alloc: Global, status: u8, out: &[u8]) -> Stop {
    if status == 1 && out.is_empty() {
        return Stop::Memory;
    }
    differs(alloc, "another status or a text where memory was refused")
}

/// A tool on the words of a row.
#[derive(Clone, Copy)]
struct WordsTrial<'b> {
    tool: Tool,
    words: &'b [String],
}

impl<'a> Trial<'a> for WordsTrial<'_> {
    fn answer(&self, given: Given<'a>, _octets: &[u8]) -> Result<String, Stop> {
        said(given.alloc, given.memory, self.tool, self.words)?.in_words(given.alloc)
    }
}

/// A tool on the pairs of digits of a datagram.
#[derive(Clone, Copy)]
struct DatagramTrial {
    tool: Tool,
}

impl<'a> Trial<'a> for DatagramTrial {
    fn answer(&self, given: Given<'a>, octets: &[u8]) -> Result<String, Stop> {
        let mut words = Vec::new(given.alloc);
        words.push(digits(given.alloc, octets)?)?;
        let said = said(given.alloc, given.memory, self.tool, words.as_slice())?;
        if !is_fitting(self.tool, &said, octets.is_empty()) {
            return Err(differs(given.alloc, "a status that does not go with the text"));
        }
        Ok(String::new(given.alloc))
    }
}

/// The pairs of digits of a datagram, as one word.
fn digits(alloc: Global, octets: &[u8]) -> Result<String, AllocError> {
    let mut word = String::new(alloc);
    for octet in octets {
        write!(word, "{octet:02x}")?;
    }
    Ok(word)
}

/// Whether status 1 goes with no digits, or with a text that ends with a refusal, and status 0 with all else.
fn is_fitting(tool: Tool, said: &Said, is_empty: bool) -> bool {
    if is_empty {
        let faulty = match tool {
            Tool::Answer => FAULTY,
            Tool::Explain | Tool::ExplainNames => UNEXPECTED,
        };
        return said.status == 1 && said.out.is_empty() && said.err.as_slice() == faulty;
    }
    let is_refused = match tool {
        Tool::Answer => false,
        Tool::Explain | Tool::ExplainNames => ends_with_refusal(said.out.as_slice()),
    };
    said.status == u8::from(is_refused) && said.err.is_empty() && !said.out.is_empty()
}

/// Whether the last line of a text is a refusal.
fn ends_with_refusal(text: &[u8]) -> bool {
    match std::str::from_utf8(text) {
        Ok(text) => text
            .lines()
            .last()
            .is_some_and(|line| line.starts_with("refused ")),
        Err(_) => false,
    }
}
