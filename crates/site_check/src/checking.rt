//! A site file, and a script for it.

ghost use Rattle.std.specs.Prelude.{◌≡◌, false, IfOk, Ok, option_map};
ghost use Rattle.site_check.specs.Judged.{AreJudged, IsJudged, IsScriptJudged};

use crate::lines::{tell_lacking, tell_script};
use crate::told::{Count, Told, tell};
use site_faults::tell_faults;
use site_parts::Parts;
use site_text::{NoParts, parts_of};
use std::alloc::{Allocator, Global};
use std::io;
use std::io::{ErrorKind, Write};

/// Whether a site file, and a script if there is one, have no fault. Each fault is told on `out`, on a line of its own
/// (that of a text which is no TOML on two); then what the script names that the site lacks, which is no fault; and
/// `site: 3 networks, 12 stations` where there is none. The document is read in memory of `reading`.
///
/// # Errors
/// A failed write, and want of memory (`OutOfMemory`).
pub fn check<A: Allocator + Copy, W: Write>(
    reading: Global,
    alloc: A,
    site: &[u8],
    script: Option<&[u8]>,
    out: &mut W,
) -> io::Result<bool>
    ensures { IfOk result (AreJudged A site.now (option_map (λ s. s.now) script.entry)) }
{
    match parts_of(reading, alloc, site) {
        Ok(parts) => check_parts(alloc, &parts, script, out),
        Err(NoParts::Memory) => Err(ErrorKind::OutOfMemory.into()),
        Err(NoParts::Document(error)) => {
            write!(out, "{error}")?;
            check_alone(alloc, script, out)
        }
        Err(NoParts::Key(key)) => {
            writeln!(out, "{key}")?;
            check_alone(alloc, script, out)
        }
    }
}

/// Whether parts are a sound site, and a script has no fault.
fn check_parts<A: Allocator + Copy, W: Write>(
    alloc: A,
    parts: &Parts<A>,
    script: Option<&[u8]>,
    out: &mut W,
) -> io::Result<bool>
    ensures { IfOk result (IsJudged A (Ok parts.now) (option_map (λ s. s.now) script.entry)) }
{
    let site = tell_faults(alloc, parts, out)?;
    let lines = match script {
        Some(text) => check_script(alloc, text, parts, out)?,
        None => true,
    };
    let is_sound = site && lines;
    if is_sound {
        tell_sound(parts, out)?;
    }
    Ok(is_sound)
}

/// Whether a script has no fault; what it names that parts lack is told, too.
fn check_script<A: Allocator + Copy, W: Write>(
    alloc: A,
    text: &[u8],
    parts: &Parts<A>,
    out: &mut W,
) -> io::Result<bool>
    ensures { IfOk result (IsScriptJudged A text.now) }
{
    match tell_script(alloc, text, out)? {
        Some(steps) => {
            tell_lacking(text, steps.as_slice(), parts, out)?;
            Ok(true)
        }
        None => Ok(false),
    }
}

/// Tells what is wrong with a script, if there is one, whose site has no parts, which is a fault.
fn check_alone<A: Allocator + Copy, W: Write>(
    alloc: A,
    script: Option<&[u8]>,
    out: &mut W,
) -> io::Result<bool>
    ensures { IfOk result (λ is_sound. is_sound ≡ false) }
{
    if let Some(text) = script {
        tell_script(alloc, text, out)?;
    }
    Ok(false)
}

/// Tells how large a site is that has no fault.
fn tell_sound<A: Allocator, W: Write>(parts: &Parts<A>, out: &mut W) -> io::Result<()> {
    let networks = Count {
        number: parts.networks.len(),
        kind: "network",
    };
    let stations = Count {
        number: parts.stations.len(),
        kind: "station",
    };
    tell(Told::Sound { networks, stations }, out)
}
