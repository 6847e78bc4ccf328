//! What stands in a picture and in a page, in words.

use sheets::Stop;
use std::alloc::Global;

/// Appends a part behind others.
fn push_part(part: &str, out: &mut String) -> Result<(), Stop> {
    if !out.is_empty() {
        out.push_str(" / ")?;
    }
    out.push_str(part)?;
    Ok(())
}

/// What stands between two marks in a line.
fn between<'a>(line: &'a str, before: &str, behind: &str) -> Option<&'a str> {
    let (_, rest) = line.split_once(before)?;
    let (inner, _) = rest.split_once(behind)?;
    Some(inner)
}

/// Whether a line begins a lane, a band or a shade, which stand behind the rows.
fn is_behind(line: &str) -> bool {
    line.starts_with("<g class=\"lane\">")
        || line.starts_with("<g class=\"band\">")
        || line.starts_with("<g class=\"shade\">")
}

/// The rows of a picture in words, as its titles say them.
pub(crate) fn titles(alloc: Global, text: &str) -> Result<String, Stop> {
    let mut out = String::new(alloc);
    for line in text.lines() {
        let is_row = !is_behind(line) && !line.starts_with("<title>");
        if let Some(title) = between(line, "<title>", "</title>") {
            if is_row {
                push_part(title, &mut out)?;
            }
        }
    }
    Ok(out)
}

/// The networks, the shades and the lanes of a picture, and the lines of the lanes: `network 1`, `c M305 42V66`.
pub(crate) fn lanes(alloc: Global, text: &str) -> Result<String, Stop> {
    let mut out = String::new(alloc);
    for line in text.lines() {
        if is_behind(line) {
            let title = between(line, "<title>", "</title>").unwrap_or("");
            match between(line, " d=\"", "\"") {
                Some(shape) => push_part(format!(in alloc; "{title} {shape}")?.as_str(), &mut out)?,
                None => push_part(title, &mut out)?,
            }
        }
    }
    Ok(out)
}

/// What a picture says of what isn't in it: the last of its lines.
pub(crate) fn remark(alloc: Global, text: &str) -> Result<String, Stop> {
    let mut said = String::new(alloc);
    for line in text.lines() {
        if line.starts_with("<text x=\"8\"") {
            said = String::from_str(alloc, between(line, "\">", "</text>").unwrap_or(""))?;
        }
    }
    Ok(said)
}

/// The shapes of paths and the places of dots, rings, bars and of texts beside the names of lanes, in order:
/// `M305 58H768`, `dot 305 58`, `bar 74 48 926 14`, `Who-Is 536 53`.
pub(crate) fn shapes(alloc: Global, text: &str) -> Result<String, Stop> {
    let mut out = String::new(alloc);
    for line in text.lines() {
        if let Some(shape) = between(line, " d=\"", "\"") {
            push_part(shape, &mut out)?;
        } else if let Some(x) = between(line, " cx=\"", "\"") {
            let y = between(line, " cy=\"", "\"").unwrap_or("");
            let shape = if line.contains("\"dot\"") {
                "dot"
            } else {
                "ring"
            };
            push_part(format!(in alloc; "{shape} {x} {y}")?.as_str(), &mut out)?;
        } else if line.starts_with("<rect ") && line.contains(" x=") {
            push_part(bar(alloc, line)?.as_str(), &mut out)?;
        } else if is_beside(line) {
            push_part(placed(alloc, line)?.as_str(), &mut out)?;
        }
    }
    Ok(out)
}

/// Whether a line is a label, or the text of a note.
fn is_beside(line: &str) -> bool {
    line.starts_with("<text class=\"label\"")
        || line.starts_with("<text class=\"before\"")
        || line.starts_with("<text class=\"pause\"")
        || line.starts_with("<text class=\"number\"")
        || line.starts_with("<text x=\"") && !line.starts_with("<text x=\"8\"")
}

/// A text and its place.
fn placed(alloc: Global, line: &str) -> Result<String, Stop> {
    let x = between(line, " x=\"", "\"").unwrap_or("");
    let y = between(line, " y=\"", "\"").unwrap_or("");
    let shown = between(line, ">", "</text>").unwrap_or("");
    Ok(format!(in alloc; "{shown} {x} {y}")?)
}

/// A bar, its place and its size.
fn bar(alloc: Global, line: &str) -> Result<String, Stop> {
    let x = between(line, " x=\"", "\"").unwrap_or("");
    let y = between(line, " y=\"", "\"").unwrap_or("");
    let width = between(line, " width=\"", "\"").unwrap_or("");
    let height = between(line, " height=\"", "\"").unwrap_or("");
    Ok(format!(in alloc; "bar {x} {y} {width} {height}")?)
}

/// What a page says of each message, with the name of its place: `d0 Datagram 0, sent at 0 ms, c to d: Who-Is`.
pub(crate) fn summaries(alloc: Global, text: &str) -> Result<String, Stop> {
    let mut out = String::new(alloc);
    let mut said = "";
    for line in text.lines() {
        if let Some(summary) = between(line, "<summary>", "</summary>") {
            said = summary;
        }
        if let Some(id) = between(line, "<div id=\"", "\"") {
            push_part(format!(in alloc; "{id} {said}")?.as_str(), &mut out)?;
        }
    }
    Ok(out)
}

/// What a page says of the octets of the message at a place: the lines of each branch, the first one behind its name,
/// or that another has the same.
pub(crate) fn explained(alloc: Global, place: &str, text: &str) -> Result<String, Stop> {
    let mut out = String::new(alloc);
    let begin = format!(in alloc; "<div id=\"{place}\">")?;
    if let Some(lines) = between(text, begin.as_str(), "</div>") {
        for line in lines.lines() {
            push_line(alloc, line, &mut out)?;
        }
    }
    Ok(out)
}

/// Appends what a line of a tree says, if it says anything: not where the message is found in the ladder.
fn push_line(alloc: Global, line: &str, out: &mut String) -> Result<(), Stop> {
    if let Some(name) = between(line, "<summary>", "</summary><pre>") {
        let (_, first) = line.split_once("<pre>").unwrap_or(("", ""));
        return push_part(format!(in alloc; "{name}: {first}")?.as_str(), out);
    }
    if let Some(number) = between(line, "the octets of <a href=\"#", "</a>") {
        let (place, said) = number.split_once("\">").unwrap_or((number, ""));
        return push_part(format!(in alloc; "as {place}, {said}")?.as_str(), out);
    }
    if line.is_empty() || line.starts_with("<") {
        return Ok(());
    }
    push_part(line, out)
}

/// The rows of a page's history: `4 d executed 0 values enum inactive`.
pub(crate) fn history(alloc: Global, text: &str) -> Result<String, Stop> {
    let mut out = String::new(alloc);
    for line in text.lines() {
        if line.starts_with("<tr class=\"note") {
            let moment = between(line, "<td class=\"moment\">", "<").unwrap_or("");
            let station = between(line, "</td><td>", "<").unwrap_or("");
            let entry = between(line, "<td class=\"entry\">", "</td>").unwrap_or("");
            let entry = linked(entry);
            push_part(
                format!(in alloc; "{moment} {station} {entry}")?.as_str(),
                &mut out,
            )?;
        }
    }
    Ok(out)
}

/// A text without the link around it, if there is one.
fn linked(text: &str) -> &str {
    match text.strip_suffix("</a>") {
        Some(front) => match front.split_once("\">") {
            Some((_, inner)) => inner,
            None => front,
        },
        None => text,
    }
}

/// The requests of a page: `0 3 c 10 read binary-value,1 present-value: values enum inactive, 2`, with the time of
/// each, what it came to, and after how many milliseconds.
pub(crate) fn requests(alloc: Global, text: &str) -> Result<String, Stop> {
    let mut out = String::new(alloc);
    for line in text.lines() {
        if line.starts_with("<tr id=\"q") {
            let (front, behind) = line
                .split_once("</td><td class=\"entry\">")
                .unwrap_or((line, ""));
            let (asked, end) = behind
                .split_once("</td><td class=\"entry\">")
                .unwrap_or((behind, ""));
            let number = linked(between(front, "<td>", "</td>").unwrap_or(""));
            let (_, moment) = front
                .split_once("<td class=\"moment\">")
                .unwrap_or(("", ""));
            let (came_to, rest) = end.split_once("</td>").unwrap_or((end, ""));
            let after = between(rest, ">", "<").unwrap_or("");
            let comma = if after.is_empty() { "" } else { ", " };
            push_part(
                format!(in alloc; "{number} {moment} {asked}: {came_to}{comma}{after}")?.as_str(),
                &mut out,
            )?;
        }
    }
    Ok(out)
}

/// How many requests a page shows, and whether their table is folded: `13 shown, folded`.
pub(crate) fn listed(alloc: Global, text: &str) -> Result<String, Stop> {
    let list = between(text, "<h2>Requests</h2>", "</summary>").unwrap_or("");
    let (details, shown) = list.split_once("<summary>").unwrap_or(("", list));
    let how = if details.contains(" open=") {
        "open"
    } else {
        "folded"
    };
    Ok(format!(in alloc; "{shown}, {how}")?)
}

/// Whether each link of a page leads to a place of it.
pub(crate) fn are_links_there(alloc: Global, text: &str) -> Result<bool, Stop> {
    let (_, links) = text.split_once(" href=\"#").unwrap_or(("", ""));
    if links.is_empty() {
        return Ok(true);
    }
    for link in links.split(" href=\"#") {
        let (place, _) = link.split_once('"').unwrap_or((link, ""));
        let id = format!(in alloc; " id=\"{place}\"")?;
        if !text.contains(id.as_str()) {
            return Ok(false);
        }
    }
    Ok(true)
}
