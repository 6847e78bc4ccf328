//! The pieces of a body: `cut 1988 475 -> 475 475 475 475 88`, a body of so many octets in pieces of so many.
//! The sender is told of each piece that it is acknowledged, and what goes is the body.

use crate::asked::{body, length};
use segments::{Sender, Turn, piece_count};
use sheets::{Counts, Given, Part, Stop, differs, run_text, two_words};
use std::alloc::Global;

/// The window that is granted.
const WINDOW: u8 = 3;

/// What has gone of a body.
#[derive(Drop)]
struct Gone {
    octets: Vec<u8>,
    text: String,
    last: u8,
}

/// Adds the pieces of a sender's window.
fn add_window(gone: &mut Gone, sender: Sender, body: &[u8]) -> Result<(), Stop> {
    for piece in sender.window(body) {
        gone.octets.extend_from_slice(piece.octets)?;
        if !gone.text.is_empty() {
            gone.text.push(' ')?;
        }
        write!(gone.text, "{}", piece.octets.len())?;
        gone.last = piece.number;
    }
    Ok(())
}

/// All pieces of a body, in words.
fn cut(alloc: Global, body: &[u8], chunk: usize) -> Result<String, Stop> {
    let mut gone = Gone {
        octets: Vec::new(alloc),
        text: String::new(alloc),
        last: 0,
    };
    if chunk == 0 {
        return Err(Stop::Unread(Part::Number));
    }
    let mut sender = Sender::new(body, chunk);
    let mut turn = sender.on_tick(0);
    for _ in 0..piece_count(chunk, body.len()) {
        if turn != Turn::Sends {
            break;
        }
        add_window(&mut gone, sender, body)?;
        turn = sender.on_ack(gone.last, WINDOW, false, 0);
    }
    if turn != Turn::Ends || gone.octets.as_slice() != body {
        return Err(differs(alloc, "pieces that are not the body"));
    }
    Ok(gone.text)
}

/// Runs a row.
pub(crate) fn run(given: Given<'_>, asked: &str, wanted: &str) -> Result<Counts, Stop> {
    let (size, chunk) = two_words(asked);
    let body = body(given.alloc, length(size)?)?;
    run_text(cut(given.alloc, body.as_slice(), length(chunk)?)?, wanted)
}
