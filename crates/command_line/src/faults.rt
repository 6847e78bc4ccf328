//! What is told of texts that are none, behind the line that says so.

use crate::sockets::say_unbound;
use command_files::input_name;
use script_faults::{tell_live_faults, tell_script_faults};
use site_text_faults::tell_site_faults;
use std::alloc::Global;
use std::io::Write;
use std::net::Net;

/// The texts of a site and a script, and the names of their files.
#[derive(Clone, Copy)]
pub(crate) struct Texts<'t> {
    pub(crate) site_name: &'t str,
    pub(crate) site: &'t [u8],
    pub(crate) script_name: &'t str,
    pub(crate) script: &'t [u8],
}

/// Tells each fault of the texts at its place, if there are any. One that can't be told, as for want of memory, isn't:
/// the line before says what was refused.
pub(crate) fn say_text_faults<E: Write>(
    alloc: Global,
    texts: Texts<'_>,
    in_colour: bool,
    err: &mut E,
) {
    let site_name = input_name(texts.site_name);
    let script_name = input_name(texts.script_name);
    let _ = tell_site_faults(alloc, alloc, site_name, texts.site, in_colour, err);
    let _ = tell_script_faults(alloc, script_name, texts.script, in_colour, err);
}

/// Tells why a site didn't run live: the faults of its texts; or, where they have none, the address that can't be
/// bound.
pub(crate) fn say_live_faults<R: Net, E: Write>(
    host: &R,
    alloc: Global,
    texts: Texts<'_>,
    in_colour: bool,
    err: &mut E,
) {
    let site_name = input_name(texts.site_name);
    let script_name = input_name(texts.script_name);
    let site = tell_site_faults(alloc, alloc, site_name, texts.site, in_colour, err);
    let script = tell_live_faults(alloc, script_name, texts.script, in_colour, err);
    if let (Ok(false), Ok(false)) = (site, script) {
        say_unbound(host, alloc, texts.site, in_colour, err);
    }
}
