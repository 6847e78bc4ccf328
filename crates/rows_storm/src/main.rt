//! The program `rows_storm`: random events at sites, judged by what the promise of the whole internetwork says
//! (ANSI/ASHRAE 135, clauses 5.4, 6, 9, 12, 15 and J). At each site of `storms.list` in the folder `storm`, `NAME.site`
//! opened by the steps of `NAME.script`, a storm of events goes over the world for each of so many seeds; the crate
//! `judge` then judges the history and all that was put out and heard, by plain means. What there was of all is
//! printed; and of the first storm in which something is wrong, what that is, and few of its events that still bring it
//! about, none of which can be left out, as lines of a script. Where nothing is wrong, one storm more goes over a world
//! that forgets and hands its history out behind each event, beside the same that keeps all. Last come the requests of
//! `rows_weeks`.
//!
//! - `events`: those of a script, whether one may happen, and one as a line.
//! - `counts`: what there was of all.
//! - `ears`: what stations on buses heard.
//! - `weather`: one event and what it breaks, and the end of a storm.
//! - `storms`: the storms at a site.
//! - `forgetting`: a world that forgets, beside the same that keeps all.
//! - `fewest`: few events of a storm, none of which can be left out.
//! - `sites`: the files of sites.
#![tactic(auto)]

mod counts;
mod ears;
mod events;
mod fewest;
mod forgetting;
mod sites;
mod storms;
mod weather;

use std::io;

fn main(rt: HostRuntime) -> io::Result<()> {
    sites::run_sites(&rt)?;
    rows_weeks::run_weeks(&rt)
}
