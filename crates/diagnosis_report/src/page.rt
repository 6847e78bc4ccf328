//! The page.

use crate::answers::answers_of;
use crate::gathering::Gathering;
use crate::plot::{Plot, write_plot};
use crate::rungs::write_rungs;
use diagnosis_reading::{Diagnosed, Form, print_counted};
use findings::Finding;
use ladder::Escaped;
use packet_choice::{Excerpt, Failure, read_packets};
use std::alloc::Allocator;
use std::io;
use std::io::{Read, Write};

/// How the page looks.
const STYLE: &str = "\
:root{color-scheme:light dark}
body{font:15px/1.5 system-ui,sans-serif;color:#222;background:#fff;margin:24px auto;padding:0 20px;max-width:1100px}
h1{font-size:24px}h2{font-size:18px;margin-top:32px}h3{font-size:15px;margin:24px 0 4px}
pre{font-family:ui-monospace,monospace;font-size:13px;white-space:pre-wrap}
figure{margin:0 0 16px}.picture{overflow-x:auto}
svg text{font:12px system-ui,sans-serif;fill:currentColor}svg .end{text-anchor:end}
.plot .behind{fill:#9db8d8}.plot .before{fill:#1f5fa8}.plot .axis{fill:none;stroke:currentColor}
.rungs .station,.rungs .label{text-anchor:middle}.rungs .number{font-weight:600}
.rungs .lane{fill:none;stroke:#c4c9cf}.rungs .arrow,.rungs .ring{fill:none;stroke:currentColor;stroke-width:1.5}
.rungs .head{fill:currentColor}
.request{color:#1f5fa8}.answer{color:#2e7d32}.refusal{color:#b3261e}.unconfirmed{color:#7b3fa0}.other{color:#5f6670}
@media (prefers-color-scheme:dark){
body{color:#e4e6e8;background:#16191d}
.plot .behind{fill:#3d5573}.plot .before{fill:#7db4ff}.rungs .lane{stroke:#4a525b}
.request{color:#7db4ff}.answer{color:#7ccf8a}.refusal{color:#ff8f86}.unconfirmed{color:#c9a2f2}.other{color:#b0b6bd}
}
";

/// Writes the page of a capture of this name, which is read once more.
///
/// # Errors
/// Those of reading and writing, and want of memory.
pub fn write_report<A: Allocator + Copy, R: Read, W: Write>(
    alloc: A,
    name: &str,
    diagnosed: &Diagnosed<A>,
    excerpt: Excerpt<'_>,
    input: &mut R,
    out: &mut W,
) -> Result<(), Failure> {
    let kept = diagnosed.findings().kept();
    let duration = diagnosed.counted().duration();
    let mut gathering = Gathering::new(alloc, excerpt, duration, kept)?;
    read_packets(alloc, input, &mut gathering)?;
    match write_page(alloc, name, diagnosed, &gathering, out) {
        Ok(()) => Ok(()),
        Err(error) => Err(Failure::Writing(error)),
    }
}

/// Writes the page of what is gathered.
fn write_page<A: Allocator + Copy, W: Write>(
    alloc: A,
    name: &str,
    diagnosed: &Diagnosed<A>,
    gathering: &Gathering<'_, A>,
    out: &mut W,
) -> io::Result<()> {
    let name = Escaped::whole(name);
    writeln!(
        out,
        "<!DOCTYPE html>\n<html lang=\"en\">\n<head>\n<meta charset=\"utf-8\">\n\
         <meta name=\"viewport\" content=\"width=device-width\">\n\
         <title>Diagnosis of {name}</title>\n<style>\n{STYLE}</style>\n</head>\n<body>\n\
         <h1>Diagnosis of {name}</h1>\n<h2>Summary</h2>\n<pre>"
    )?;
    print_counted(alloc, Form::Lines, diagnosed, out)?;
    writeln!(out, "</pre>\n<h2>Over the capture</h2>")?;
    write_plots(alloc, diagnosed, gathering, out)?;
    write_findings(alloc, diagnosed, gathering, out)?;
    writeln!(out, "</body>\n</html>")
}

/// Writes pictures of requests, broadcasts and answer times over the capture.
fn write_plots<A: Allocator + Copy, W: Write>(
    alloc: A,
    diagnosed: &Diagnosed<A>,
    gathering: &Gathering<'_, A>,
    out: &mut W,
) -> io::Result<()> {
    let counted = diagnosed.counted();
    let requests = Plot {
        title: "Confirmed requests",
        unit: "packets a second",
        duration: counted.duration(),
    };
    let bars = gathering.requests.bars(alloc)?;
    write_plot(requests, &[], bars.as_slice(), out)?;
    let broadcasts = Plot {
        title: "Broadcasts",
        ..requests
    };
    let bars = gathering.broadcasts.bars(alloc)?;
    write_plot(broadcasts, &[], bars.as_slice(), out)?;
    let times = Plot {
        title: "Answer times: the longest, and the median in front",
        unit: "milliseconds",
        ..requests
    };
    let answers = answers_of(alloc, counted, gathering.began())?;
    write_plot(
        times,
        answers.longest.as_slice(),
        answers.medians.as_slice(),
        out,
    )?;
    if counted.requests().unlisted != 0 {
        writeln!(
            out,
            "<p>Answer times of the requests that are still listed.</p>"
        )?;
    }
    Ok(())
}

/// Writes the findings that are kept, each with its packets.
fn write_findings<A: Allocator + Copy, W: Write>(
    alloc: A,
    diagnosed: &Diagnosed<A>,
    gathering: &Gathering<'_, A>,
    out: &mut W,
) -> io::Result<()> {
    writeln!(out, "<h2>Findings</h2>")?;
    let kept = diagnosed.findings().kept();
    if kept.is_empty() {
        writeln!(out, "<p>None.</p>")?;
    }
    for finding in kept {
        write_finding(alloc, finding, gathering, out)?;
    }
    Ok(())
}

/// Writes a finding, what it means, and a ladder of its packets.
fn write_finding<A: Allocator + Copy, W: Write>(
    alloc: A,
    finding: &Finding,
    gathering: &Gathering<'_, A>,
    out: &mut W,
) -> io::Result<()> {
    writeln!(
        out,
        "<h3>{finding}</h3>\n<p>{}</p>\n<div class=\"picture\">",
        finding.meaning()
    )?;
    write_rungs(alloc, finding.packets, gathering, out)?;
    writeln!(out, "</div>")
}
