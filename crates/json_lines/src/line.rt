//! The words of a line, which single spaces part.

use crate::stop::Stop;
use words::parse_u64;

/// What is left of a line. There may be an empty word, as behind a space at its end.
#[derive(Clone, Copy, Debug)]
pub(crate) struct Line<'l> {
    rest: Option<&'l str>,
}

impl<'l> Line<'l> {
    /// A whole line.
    pub(crate) fn new(line: &'l str) -> Self {
        Line { rest: Some(line) }
    }

    /// The next word.
    ///
    /// # Errors
    /// `Unknown` where there is none.
    pub(crate) fn word(&mut self) -> Result<&'l str, Stop> {
        let rest = self.rest()?;
        match rest.split_once(' ') {
            Some((word, rest)) => {
                self.rest = Some(rest);
                Ok(word)
            }
            None => Ok(rest),
        }
    }

    /// The next word, which is a number of at most 64 bits.
    ///
    /// # Errors
    /// `Unknown` where it is none.
    pub(crate) fn number(&mut self) -> Result<u64, Stop> {
        let word = self.word()?;
        Ok(parse_u64(word)?)
    }

    /// The next word, which is octets as pairs of hexadecimal digits; of `-`, which stands for none, nothing.
    ///
    /// # Errors
    /// `Unknown` where it is neither.
    pub(crate) fn octets(&mut self) -> Result<&'l str, Stop> {
        match self.word()? {
            "-" => Ok(""),
            word if is_octets(word) => Ok(word),
            _ => Err(Stop::Unknown),
        }
    }

    /// The number behind the next word, which is this one.
    ///
    /// # Errors
    /// `Unknown` where it is another, or no number stands behind it.
    pub(crate) fn number_behind(&mut self, word: &str) -> Result<u64, Stop> {
        if self.word()? != word {
            return Err(Stop::Unknown);
        }
        self.number()
    }

    /// All that is left.
    ///
    /// # Errors
    /// `Unknown` where no word is.
    pub(crate) fn rest(&mut self) -> Result<&'l str, Stop> {
        match self.rest.take() {
            Some(rest) => Ok(rest),
            None => Err(Stop::Unknown),
        }
    }

    /// Whether the line is at its end.
    ///
    /// # Errors
    /// `Unknown` where a word is left.
    pub(crate) fn end(&self) -> Result<(), Stop> {
        match self.rest {
            Some(_) => Err(Stop::Unknown),
            None => Ok(()),
        }
    }
}

/// Whether a word is pairs of hexadecimal digits, one at least.
fn is_octets(word: &str) -> bool {
    !word.is_empty()
        && word.len() % 2 == 0
        && word
            .as_bytes()
            .iter()
            .all(|digit| digit.is_ascii_hexdigit())
}
