//! The word that was meant.

use std::alloc::{AllocError, Allocator};
use strsim::generic_damerau_levenshtein;

/// The word nearest to one that was found, among those that were looked at: no more letters are missing, too many,
/// wrong or exchanged with the next than a third of its own.
#[derive(Clone, Copy, Debug)]
pub struct Nearest<'a> {
    found: &'a str,
    limit: usize,
    best: Option<&'static str>,
}

impl<'a> Nearest<'a> {
    /// Of a word that was found, before any is looked at.
    pub fn to(found: &'a str) -> Nearest<'a> {
        let letters = found.len();
        Nearest {
            found,
            limit: if letters < 3 { 1 } else { letters / 3 },
            best: None,
        }
    }

    /// Looks at a word, which is the nearest where it is nearer than all before.
    ///
    /// # Errors
    /// Want of memory.
    pub fn look<A: Allocator + Copy>(
        &mut self,
        alloc: A,
        word: &'static str,
    ) -> Result<(), AllocError> {
        if self.found.len().abs_diff(word.len()) > self.limit {
            return Ok(());
        }
        let found = self.found.as_bytes();
        let distance = generic_damerau_levenshtein(alloc, found, word.as_bytes())?;
        if distance > 0 && distance <= self.limit {
            self.best = Some(word);
            self.limit = distance.saturating_sub(1);
        }
        Ok(())
    }

    /// The nearest of all words that were looked at, if one is near.
    pub fn word(self) -> Option<&'static str> {
        self.best
    }
}

/// The nearest of some words to one that was found, if one is near.
///
/// # Errors
/// Want of memory.
pub fn nearest_in<A: Allocator + Copy>(
    alloc: A,
    found: &str,
    words: &[&'static str],
) -> Result<Option<&'static str>, AllocError> {
    let mut nearest = Nearest::to(found);
    for word in words {
        nearest.look(alloc, word)?;
    }
    Ok(nearest.word())
}
