//! Completions and the man page: `bash sim) -> flags='..' / files='..'` are the lines behind the first one that reads
//! `sim)`, `bash -> ..` the first lines. Each row runs again with each allocation refused in turn in which the page is
//! written. `shell zsh -> zsh` is the shell of a name.

use crate::lines::lines_behind;
use clap::Command;
use command_order::{EXAMPLES, command};
use command_pages::{Shell, write_completions, write_man_page};
use sheets::{Counts, Given, Memory, Part, Stop, Trial, differs, run_text, try_row};
use std::alloc::Global;
use std::io;

/// Runs a row of a page.
pub(crate) fn run(given: Given<'_>, page: &str, words: &str, wanted: &str) -> Result<Counts, Stop> {
    let page = Page {
        shell: Shell::named(page),
        asked: words,
        wanted,
    };
    try_row(given, &page, &[], wanted)
}

/// Runs a row of a shell's name.
pub(crate) fn run_shell(given: Given<'_>, name: &str, wanted: &str) -> Result<Counts, Stop> {
    let found = match Shell::named(name) {
        Some(Shell::Bash) => "bash",
        Some(Shell::Zsh) => "zsh",
        Some(Shell::Fish) => "fish",
        None => "none",
    };
    run_text(String::from_str(given.alloc, found)?, wanted)
}

/// A page, and which of its lines are wanted.
#[derive(Clone, Copy)]
struct Page<'t> {
    /// Whose completions it has: without a shell it is the man page.
    shell: Option<Shell>,
    asked: &'t str,
    wanted: &'t str,
}

impl<'a> Trial<'a> for Page<'_> {
    fn answer(&self, given: Given<'a>, _octets: &[u8]) -> Result<String, Stop> {
        let command = command(given.alloc)?;
        let mut out: Vec<u8, Memory<'a>> = Vec::new(given.memory);
        match self.write(given.alloc, &command, &mut out) {
            Ok(()) => lines_behind(given.alloc, out.as_slice(), self.asked, self.wanted),
            Err(error) if error.kind() == io::ErrorKind::OutOfMemory => Err(Stop::Memory),
            Err(_) => Err(differs(given.alloc, "a failed write")),
        }
    }
}

impl Page<'_> {
    /// Writes the page.
    fn write(
        &self,
        alloc: Global,
        command: &Command<'_>,
        out: &mut Vec<u8, Memory<'_>>,
    ) -> io::Result<()> {
        match self.shell {
            Some(shell) => write_completions(alloc, shell, command, out),
            None => write_man_page(alloc, command, EXAMPLES.as_slice(), out),
        }
    }
}
