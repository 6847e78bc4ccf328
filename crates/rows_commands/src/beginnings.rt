//! A site and a script to begin with: `site 2 [[device]] -> ..` are the lines of the site file of two devices behind
//! the first one that reads `[[device]]`, `site 2 -> ..` its first lines, and so of `script`. `check 2 -> ..` is what
//! is told of the site file: a status, and lines parted by ` / `; `large 250 -> ..` the same, once.
//! `devices 250 -> 250` is the number that a word says.

use crate::lines::lines_behind;
use sheets::{Counts, Given, Stop, Trial, differs, run_text, run_word, small, try_row, two_words};
use site_check::check;
use starter::{devices_in, script_text, site_text};
use std::io;

/// Runs a row of a number of devices.
pub(crate) fn run_devices(given: Given<'_>, word: &str, wanted: &str) -> Result<Counts, Stop> {
    match devices_in(word) {
        Some(devices) => run_text(format!(in given.alloc; "{devices}")?, wanted),
        None => run_word(given, "none", wanted),
    }
}

/// Runs a row of lines of the site file.
pub(crate) fn run_site(given: Given<'_>, words: &str, wanted: &str) -> Result<Counts, Stop> {
    run_beginning(given, Form::Site, words, wanted)
}

/// Runs a row of lines of the script.
pub(crate) fn run_script(given: Given<'_>, words: &str, wanted: &str) -> Result<Counts, Stop> {
    run_beginning(given, Form::Script, words, wanted)
}

/// Runs a row of what is told of the site file.
pub(crate) fn run_check(given: Given<'_>, words: &str, wanted: &str) -> Result<Counts, Stop> {
    run_beginning(given, Form::Told, words, wanted)
}

/// Runs a row of what is told of a large site file, with ample memory alone.
pub(crate) fn run_large(given: Given<'_>, words: &str, wanted: &str) -> Result<Counts, Stop> {
    let beginning = beginning_of(Form::Told, words, wanted)?;
    run_text(beginning.answer(given, &[])?, wanted)
}

/// Runs a row, also with each allocation refused in turn.
fn run_beginning(given: Given<'_>, form: Form, words: &str, wanted: &str) -> Result<Counts, Stop> {
    let beginning = beginning_of(form, words, wanted)?;
    try_row(given, &beginning, &[], wanted)
}

/// What the words of a row ask for.
fn beginning_of<'t>(form: Form, words: &'t str, wanted: &'t str) -> Result<Beginning<'t>, Stop> {
    let (devices, asked) = two_words(words);
    Ok(Beginning {
        form,
        devices: u16::from(small(devices)?),
        asked,
        wanted,
    })
}

/// What is wanted of a site and a script to begin with.
#[derive(Clone, Copy, Debug, PartialEq, Eq)]
enum Form {
    /// Lines of the site file.
    Site,
    /// Lines of the script.
    Script,
    /// What is told of the site file.
    Told,
}

/// A site and a script of so many devices, and which lines are wanted.
#[derive(Clone, Copy)]
struct Beginning<'t> {
    form: Form,
    devices: u16,
    asked: &'t str,
    wanted: &'t str,
}

impl<'a> Trial<'a> for Beginning<'_> {
    fn answer(&self, given: Given<'a>, _octets: &[u8]) -> Result<String, Stop> {
        let text = match self.form {
            Form::Site => site_text(given.memory, self.devices)?,
            Form::Script => script_text(given.memory, self.devices)?,
            Form::Told => return self.told(given),
        };
        lines_behind(given.alloc, text.as_slice(), self.asked, self.wanted)
    }
}

impl Beginning<'_> {
    /// What is told of the site file.
    fn told(&self, given: Given<'_>) -> Result<String, Stop> {
        let text = site_text(given.memory, self.devices)?;
        let mut out = Vec::new(given.alloc);
        match check(given.alloc, given.memory, text.as_slice(), None, &mut out) {
            Ok(is_sound) => {
                let lines = lines_behind(given.alloc, out.as_slice(), "", self.wanted)?;
                Ok(format!(in given.alloc; "{}: {lines}", u8::from(!is_sound))?)
            }
            Err(error) if error.kind() == io::ErrorKind::OutOfMemory => Err(Stop::Memory),
            Err(_) => Err(differs(given.alloc, "a failed write")),
        }
    }
}
