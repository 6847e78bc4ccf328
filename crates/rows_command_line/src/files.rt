//! Rows of what a command line does to files: `.. -> 0: LINES ! LINES | live.svg, 5 failures`, its exit status, what it
//! prints, which files are other ones then, and in how many runs one of its calls on files fails. Behind each of these
//! the status isn't 0, each file is as it was or as it is where none fails, and no other one is left.

use crate::disk::{Disk, DiskFile, octets_of};
use crate::lines::disk_texts;
use sheets::{Counts, Said, Stop, differs, run_text, words_of};
use std::alloc::{AllocError, Global};

/// How many runs there are at most in which a call fails.
const MANY: u64 = 100;

/// Runs a command line.
///
/// # Errors
/// `Differs` where the row does not hold, and those of reading it.
pub(crate) fn run(alloc: Global, asked: &str, wanted: &str) -> Result<Counts, Stop> {
    let words = words_of(alloc, asked)?;
    let before = Disk::new(alloc, &disk_texts(), 0)?.into_files();
    let disk = Disk::new(alloc, &disk_texts(), 0)?;
    let said = said_of(alloc, words.as_slice(), &disk)?;
    let behind = disk.into_files();
    let failures = failures(
        alloc,
        words.as_slice(),
        before.as_slice(),
        behind.as_slice(),
    )?;
    let changed = changed(alloc, before.as_slice(), behind.as_slice())?;
    let said = said.in_words(alloc)?;
    run_text(
        format!(in alloc; "{said} | {changed}, {failures} failures")?,
        wanted,
    )
}

/// What is said of a command line with these files.
fn said_of(alloc: Global, words: &[String], disk: &Disk) -> Result<Said, AllocError> {
    let mut out = Vec::new(alloc);
    let mut err = Vec::new(alloc);
    let status = command_line::run(
        None::<&HostRuntime>,
        alloc,
        words,
        disk,
        false,
        &mut out,
        &mut err,
    );
    Ok(Said { status, out, err })
}

/// The names of the files that are other ones than before.
///
/// # Errors
/// Want of memory.
pub(crate) fn changed(
    alloc: Global,
    before: &[DiskFile],
    behind: &[DiskFile],
) -> Result<String, AllocError> {
    let mut names = String::new(alloc);
    for file in behind {
        let name = file.name.as_str();
        if octets_of(before, name) != Some(file.octets.as_slice()) {
            if !names.is_empty() {
                names.push_str(" ")?;
            }
            names.push_str(name)?;
        }
    }
    if names.is_empty() {
        names.push_str("nothing")?;
    }
    Ok(names)
}

/// In how many runs a call on files fails: the first, the second and so on, up to a run in which none does.
fn failures(
    alloc: Global,
    words: &[String],
    before: &[DiskFile],
    whole: &[DiskFile],
) -> Result<u64, Stop> {
    for count in 0..MANY {
        let disk = Disk::new(alloc, &disk_texts(), count.saturating_add(1))?;
        let said = said_of(alloc, words, &disk)?;
        if !disk.has_failed() {
            return Ok(count);
        }
        let behind = disk.into_files();
        if said.status == 0 || !is_sound(before, whole, behind.as_slice()) {
            return Err(differs(alloc, "a file is spoilt where a call fails"));
        }
    }
    Ok(MANY)
}

/// Whether each file is as it was before or as it is where no call fails, and none is missing that was there.
fn is_sound(before: &[DiskFile], whole: &[DiskFile], behind: &[DiskFile]) -> bool {
    let is_known = behind.iter().all(|file| {
        let octets = Some(file.octets.as_slice());
        let name = file.name.as_str();
        octets_of(before, name) == octets || octets_of(whole, name) == octets
    });
    is_known
        && before
            .iter()
            .all(|file| octets_of(behind, file.name.as_str()).is_some())
}
