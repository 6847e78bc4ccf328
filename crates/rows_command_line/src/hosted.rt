//! Rows of live runs on this host, with their capture in a file that is there: `SITE-NAME.hosted` is a script, and its
//! first line tells what is in the way: `free` is nothing, `taken 127.0.0.1:47811` that another socket has this
//! address, and `failing 3` that the third call on files fails. What is wanted is the exit status, what is printed
//! without its moments, and which files are other ones then. The site's ports are moved to a base where all of them
//! are free.

use crate::disk::{Disk, DiskFile};
use crate::files::changed;
use rows_wire::{Row, moved, moved_back, row_of, said, text_of, wanted_of, without_moments};
use sheets::{names, words_of};
use std::alloc::{AllocError, Global};
use std::io;
use std::io::ErrorKind;
use std::net::{SocketAddr, UdpSocket};

/// How the name of a row ends.
const HOSTED: &str = ".hosted";

/// The command line of each row.
const LINE: &str = "bacsite run p.toml live.script --pcap old.pcapng";

/// What the capture's file holds before.
const OLD: &[u8] = b"as it was\n";

/// How many bases are tried.
const BASES: u16 = 100;

/// Runs each row, and prints a line for each.
///
/// # Errors
/// Those of reading and of printing, and want of memory.
pub(crate) fn run_all(rt: &HostRuntime) -> io::Result<()> {
    for name in names(rt, HOSTED)?.as_slice() {
        let row = row_of(rt, name.as_str(), HOSTED)?;
        let wanted = wanted_of(rt, name.as_str())?;
        let found = found_of(rt, &row, wanted.as_str())?;
        let line = said(
            rt.alloc(),
            name.as_str(),
            found.as_str(),
            wanted.as_str(),
            "",
        )?;
        rt.print(line.as_str())?;
    }
    Ok(())
}

/// What comes of a row at the first base at which it is as wanted; at the last one, if it is so at none.
fn found_of(rt: &HostRuntime, row: &Row, wanted: &str) -> io::Result<String> {
    let mut found = String::new(rt.alloc());
    for number in 0..BASES {
        let base = 202u16.saturating_add(number.saturating_mul(4));
        found = run_at(rt, row, base)?;
        if found.as_str() == wanted {
            break;
        }
    }
    Ok(found)
}

/// What comes of a row with its ports at a base, in hundreds.
fn run_at(rt: &HostRuntime, row: &Row, base: u16) -> io::Result<String> {
    let alloc = rt.alloc();
    let (way, script) = row.happens.split_once('\n').unwrap_or(("", ""));
    let site = moved(alloc, row.site.as_slice(), base)?;
    let way = moved(alloc, way.as_bytes(), base)?;
    let (site, script) = (site.as_bytes(), script.as_bytes());
    let before = disk_of(alloc, site, script, OLD, 0)?.into_files();
    let disk = disk_of(alloc, site, script, OLD, failing_in(way.as_str()))?;
    let _taken = match way.as_str().strip_prefix("taken ") {
        Some(address) => Some(bound(rt, address)?),
        None => None,
    };
    let found = printed_of(rt, &disk)?;
    let found = moved_back(alloc, found.as_str(), base)?;
    let behind = disk.into_files();
    Ok(with_files(found, before.as_slice(), behind.as_slice())?)
}

/// The files of a row, of which the call of this number fails, if it isn't 0.
fn disk_of<'t>(
    alloc: Global,
    site: &'t [u8],
    script: &'t [u8],
    old: &'t [u8],
    failing: u64,
) -> io::Result<Disk> {
    let texts: [(&str, &'t [u8]); 3] = [
        ("p.toml", site),
        ("live.script", script),
        ("old.pcapng", old),
    ];
    Ok(Disk::new(alloc, &texts, failing)?)
}

/// The number of the call on files that fails, or 0.
fn failing_in(way: &str) -> u64 {
    match way.strip_prefix("failing ") {
        Some(number) => number.parse::<u64>().unwrap_or(0),
        None => 0,
    }
}

/// A socket that has an address.
fn bound(rt: &HostRuntime, address: &str) -> io::Result<UdpSocket> {
    match address.parse::<SocketAddr>() {
        Ok(address) => UdpSocket::bind(rt, address),
        Err(_) => Err(ErrorKind::InvalidInput.into()),
    }
}

/// The exit status, and what is printed, without its moments, and told.
fn printed_of(rt: &HostRuntime, disk: &Disk) -> io::Result<String> {
    let alloc = rt.alloc();
    let Ok(words) = words_of(alloc, LINE) else {
        return Err(ErrorKind::OutOfMemory.into());
    };
    let mut out = Vec::new(alloc);
    let mut err = Vec::new(alloc);
    let status = command_line::run(
        Some(rt),
        alloc,
        words.as_slice(),
        disk,
        false,
        &mut out,
        &mut err,
    );
    let printed = text_of(alloc, out.as_slice())?;
    let told = text_of(alloc, err.as_slice())?;
    let lines = without_moments(alloc, printed.as_str(), told.as_str())?;
    Ok(format!(in alloc; "status {status}\n{lines}")?)
}

/// Lines, and behind them the files that are other ones than before.
fn with_files(
    lines: String,
    before: &[DiskFile],
    behind: &[DiskFile],
) -> Result<String, AllocError> {
    let alloc = *lines.allocator();
    let names = changed(alloc, before, behind)?;
    format!(in alloc; "{lines}changed: {names}\n")
}
