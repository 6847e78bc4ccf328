//! Rows of writers that fail: `explain 96 WORDS -> 0`, the exit status of a tool where standard output takes so many
//! octets and standard error none. With any less it is 1.

use console::{Spelling, answer_line, explain_line};
use sheets::{
    Counts, Full, Given, Memory, Part, Printing, Stop, number, run_text, status_within, two_words,
    words_of,
};

/// The words of a tool.
#[derive(Clone, Copy)]
struct ToolLine<'a> {
    memory: Memory<'a>,
    tool: &'a str,
    words: &'a [String],
}

impl Printing for ToolLine<'_> {
    fn status(&self, out: &mut Full, err: &mut Full) -> Result<u8, Stop> {
        match self.tool {
            "answer" => Ok(answer_line(self.memory, self.words, out, err)),
            "explain" => Ok(explain_line(self.memory, Spelling::Numbers, self.words, out, err)),
            _ => Err(Stop::Unread(Part::Asked)),
        }
    }
}

/// Runs a row.
pub(crate) fn run(given: Given<'_>, asked: &str, wanted: &str) -> Result<Counts, Stop> {
    let (tool, rest) = two_words(asked);
    let (room, words) = two_words(rest);
    let words = words_of(given.alloc, words)?;
    let line = ToolLine {
        memory: given.memory,
        tool,
        words: words.as_slice(),
    };
    let found = status_within(given.alloc, &line, number(room)? as usize)?;
    run_text(format!(in given.alloc; "{found}")?, wanted)
}
