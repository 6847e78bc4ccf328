//! Rows over UDP: `SITE-NAME.script` is a script, and what is wanted is printed of it in a live run, but for the
//! moments. The site's ports are moved to a base where all of them are free.

use refusing::Refusing;
use rows_wire::{Row, moved, row_of, said, text_of, wanted_of, without_moments};
use sheets::names;
use site_live::{Ending, Settings, run_over_udp};
use std::io;
use words::Spelling;

/// How the name of a script ends.
const SCRIPT: &str = ".script";

/// What is told where an address is taken.
const TAKEN: &str = "bacsite: refused 14 Wire\n";

/// How many bases are tried.
const BASES: u16 = 100;

/// A script is run as it stands, and nobody else is heard.
const SETTINGS: Settings = Settings {
    is_open: false,
    ending: Ending::WithScript,
    spelling: Spelling::Numbers,
};

/// Runs each row over UDP, and prints a line for each.
///
/// # Errors
/// Those of reading and of printing, and want of memory.
pub(crate) fn run_all(rt: &HostRuntime) -> io::Result<()> {
    for name in names(rt, SCRIPT)?.as_slice() {
        let row = row_of(rt, name.as_str(), SCRIPT)?;
        let wanted = wanted_of(rt, name.as_str())?;
        let found = found_of(rt, &row)?;
        rt.print(said(
            rt.alloc(),
            name.as_str(),
            found.as_str(),
            wanted.as_str(),
            "",
        )?
        .as_str())?;
    }
    Ok(())
}

/// What is printed of a row, without its moments, or what is told on the standard error.
fn found_of(rt: &HostRuntime, row: &Row) -> io::Result<String> {
    for number in 0..BASES {
        let base = 200u16.saturating_add(number.saturating_mul(4));
        let (printed, told) = run_at(rt, row, base)?;
        if told.as_str() != TAKEN {
            return Ok(without_moments(rt.alloc(), printed.as_str(), told.as_str())?);
        }
    }
    Ok(String::from_str(rt.alloc(), "no base with free ports\n")?)
}

/// What is printed of a row with its ports at a base, in hundreds, and what is told on the standard error.
fn run_at(rt: &HostRuntime, row: &Row, base: u16) -> io::Result<(String, String)> {
    let alloc = rt.alloc();
    let memory = Refusing::new(alloc);
    let site = moved(alloc, row.site.as_slice(), base)?;
    let mut out = Vec::new(alloc);
    let mut err = Vec::new(alloc);
    run_over_udp(
        rt,
        alloc,
        &memory,
        site.as_bytes(),
        row.happens.as_bytes(),
        None,
        SETTINGS,
        &mut out,
        &mut err,
    );
    Ok((
        text_of(alloc, out.as_slice())?,
        text_of(alloc, err.as_slice())?,
    ))
}
