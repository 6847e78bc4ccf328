//! A datagram taken apart: what is printed ends with a refusal where the status is 1, and has none where it is 0.

use crate::watched::Hearer;
use console::{Spelling, explain_line};
use refusing::Refusing;
use sheets::{Stop, differs};
use std::alloc::{AllocError, Global};

/// What takes octets apart, and keeps nothing.
#[derive(Clone, Copy)]
pub(crate) struct Explained;

impl Hearer for Explained {
    fn copy(&self) -> Result<Self, Stop> {
        Ok(Explained)
    }

    // It keeps nothing, so that one run tells all.
    fn drops(&mut self, alloc: Global, octets: &[u8]) -> Result<bool, Stop> {
        explain(alloc, octets)?;
        Ok(false)
    }

    fn told(&mut self, alloc: Global) -> Result<Vec<u8>, Stop> {
        Ok(Vec::new(alloc))
    }
}

/// Takes octets apart.
fn explain(alloc: Global, octets: &[u8]) -> Result<(), Stop> {
    let mut words = Vec::new(alloc);
    words.push(digits(alloc, octets)?)?;
    let memory = Refusing::new(alloc);
    let mut out = Vec::new(alloc);
    let mut err = Vec::new(alloc);
    let status = explain_line(
        &memory,
        Spelling::Numbers,
        words.as_slice(),
        &mut out,
        &mut err,
    );
    let fits = if octets.is_empty() {
        status == 1
            && out.is_empty()
            && err
                .as_slice()
                .starts_with(b"bacsite: hex\nexpected octets ")
    } else {
        err.is_empty() && status == u8::from(is_refused(out.as_slice()))
    };
    if !fits {
        return Err(differs(alloc, "a text that does not go with its status"));
    }
    Ok(())
}

/// The pairs of digits of octets, as one word.
fn digits(alloc: Global, octets: &[u8]) -> Result<String, AllocError> {
    let mut word = String::new(alloc);
    for octet in octets {
        write!(word, "{octet:02x}")?;
    }
    Ok(word)
}

/// Whether the last line of a text is a refusal.
fn is_refused(text: &[u8]) -> bool {
    match std::str::from_utf8(text) {
        Ok(text) => {
            let last = text.lines().last();
            last.is_some_and(|line| line.starts_with("refused "))
        }
        Err(_) => false,
    }
}
