//! The page of a run: HTML that needs no other file.

use crate::found::Found;
use crate::page_messages::{write_datagrams, write_frames};
use crate::page_requests::write_requests;
use ladder::{Escaped, Ladder, Mark, Note, Row, Station, write_html};
use site_gathering::{EndLine, Gathering, Part, World, counted};
use std::alloc::Allocator;
use std::io;
use std::io::Write;

/// How the page looks, beside the picture.
const STYLE: &str = "\
:root{color-scheme:light dark}
body{font:15px/1.5 system-ui,sans-serif;color:#222;background:#fff;margin:24px auto;padding:0 20px}
h1{font-size:24px}h2{font-size:18px;margin-top:32px}a{color:#1452a8}
table{border-collapse:collapse}th,td{text-align:left;padding:2px 16px 2px 0;border-bottom:1px solid #ddd}
td.moment,th.moment{text-align:right}td.entry,pre{font-family:ui-monospace,monospace;font-size:13px}
details{border-bottom:1px solid #ddd;padding:3px 0}summary{cursor:pointer}
details details{border:0;padding:0 0 0 20px}pre{margin:0 0 4px 20px}
:target{background:#fff6d6}
.lost{color:#b3261e}tr.off{display:none}
@media (prefers-color-scheme:dark){
body{color:#e4e6e8;background:#16191d}a{color:#7db4ff}
th,td,details{border-color:#3a4047}
:target{background:#4a4320}
.lost{color:#ff8f86}
}
";

/// What the page does by itself: it fades the marks that aren't of the chosen station and request, leaves out the lines
/// of tables, and unfolds where a link leads.
const SCRIPT: &str = "\
const station=document.getElementById('station'),request=document.getElementById('request');
const marks=document.querySelectorAll('.rows a,.rows .note,#requests tr[id],#history tr[class]');
function choose(){
const s=station.value,r=request.value?'r'+request.value:'';
marks.forEach(m=>m.classList.toggle('off',!(!s||m.classList.contains('all')||m.classList.contains(s))||
!(!r||m.classList.contains(r))));
}
station.onchange=request.oninput=choose;
function unfold(){
const at=location.hash&&document.getElementById(location.hash.slice(1));
for(let e=at;e;e=e.parentElement)if(e.tagName==='DETAILS')e.open=true;
if(at)at.scrollIntoView();
}
onhashchange=unfold;unfold();
";

/// Writes the page of a run with its picture.
pub(crate) fn write_page<A: Allocator + Copy, W: Write>(
    world: &World<A>,
    gathering: &Gathering<'_, A>,
    ladder: &Ladder<A>,
    out: &mut W,
) -> io::Result<()> {
    let alloc = gathering.alloc;
    let found = Found::of(alloc, ladder)?;
    write_head(world, gathering.part, out)?;
    write_requests(alloc, world, &found, out)?;
    writeln!(out, "<h2>Ladder</h2>")?;
    write_choice(ladder.stations.as_slice(), out)?;
    write_html(ladder, out)?;
    write_history(ladder, out)?;
    write_datagrams(world, gathering, &found, out)?;
    write_frames(world, gathering, &found, out)?;
    writeln!(out, "<script>\n{SCRIPT}</script>\n</body>\n</html>")
}

/// Writes where a station and a request are chosen.
fn write_choice<A: Allocator, W: Write>(stations: &[Station<A>], out: &mut W) -> io::Result<()> {
    write!(
        out,
        "<p>Only station <select id=\"station\"><option value=\"\">all</option>"
    )?;
    let mut place = 0usize;
    for station in stations {
        if station.lane.is_some() {
            let name = Escaped::whole(station.name.as_str());
            write!(out, "<option value=\"s{place}\">{name}</option>")?;
        }
        place = place.saturating_add(1);
    }
    writeln!(
        out,
        "</select> and request <input id=\"request\" size=\"6\"/></p>"
    )
}

/// Writes what the page begins with: which part of the run it shows, and what there was of all in the whole run.
fn write_head<A: Allocator + Copy, W: Write>(
    world: &World<A>,
    part: Part<'_>,
    out: &mut W,
) -> io::Result<()> {
    let moment = world.moment();
    let counts = counted(world.history());
    writeln!(
        out,
        "<!DOCTYPE html>\n<html lang=\"en\">\n<head>\n<meta charset=\"utf-8\">"
    )?;
    writeln!(
        out,
        "<meta name=\"viewport\" content=\"width=device-width\">"
    )?;
    writeln!(
        out,
        "<title>Report of a run</title>\n<style>\n{STYLE}</style>\n</head>\n<body>"
    )?;
    writeln!(out, "<h1>Report of a run</h1>")?;
    writeln!(
        out,
        "<p>{part} The run: <code>{}</code>.</p>",
        EndLine { counts, moment }
    )
}

/// Writes the entries of the history and the refusals, as a table.
fn write_history<A: Allocator, W: Write>(ladder: &Ladder<A>, out: &mut W) -> io::Result<()> {
    writeln!(out, "<h2>History</h2>\n<table id=\"history\">")?;
    writeln!(
        out,
        "<tr><th class=\"moment\">Time (ms)</th><th>Station</th><th>Event</th></tr>"
    )?;
    for row in &ladder.rows {
        write_entry(row, ladder.stations.as_slice(), out)?;
    }
    writeln!(out, "</table>")
}

/// Writes the row of an entry or of a refusal. An entry leads to its request.
fn write_entry<A: Allocator, W: Write>(
    row: &Row<A>,
    stations: &[Station<A>],
    out: &mut W,
) -> io::Result<()> {
    let Mark::Note(note) = &row.mark else {
        return Ok(());
    };
    let Note {
        station,
        text,
        request,
    } = note;
    let moment = row.moment;
    let of = note.classes();
    let station = Escaped::whole(station_name(*station, stations));
    let text = Escaped::whole(text.as_str());
    write!(
        out,
        "<tr class=\"note{of}\"><td class=\"moment\">{moment}</td><td>{station}</td><td class=\"entry\">"
    )?;
    match request {
        Some(number) => write!(out, "<a href=\"#q{number}\">{text}</a>")?,
        None => write!(out, "{text}")?,
    }
    writeln!(out, "</td></tr>")
}

/// The name of a station, if it is one.
fn station_name<A: Allocator>(place: Option<usize>, stations: &[Station<A>]) -> &str {
    let Some(place) = place else {
        return "";
    };
    match stations.get(place) {
        Some(station) => station.name.as_str(),
        None => "",
    }
}
