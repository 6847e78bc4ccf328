//! Words of a line, with their places.

use crate::expected::Expected;
use crate::fault::Fault;

/// A word of a line, and the index of its first octet there.
#[derive(Clone, Copy)]
pub(crate) struct Word<'a> {
    pub(crate) octets: &'a [u8],
    pub(crate) at: usize,
}

impl<'a> Word<'a> {
    /// The word as a text; marks part words, so that it is one where the line is.
    pub(crate) fn text(self) -> &'a str {
        std::str::from_utf8(self.octets).unwrap_or("?")
    }

    /// The index behind its last octet.
    pub(crate) fn end(self) -> usize {
        self.at.saturating_add(self.octets.len())
    }

    /// What stands before the first such mark and what stands behind it, where there is one.
    pub(crate) fn cut(self, mark: u8) -> Option<(Word<'a>, Word<'a>)> {
        let octets = self.octets;
        for (index, octet) in octets.iter().enumerate() {
            if *octet == mark {
                let front = Word {
                    octets: &octets[..index],
                    at: self.at,
                };
                let behind = Word {
                    octets: &octets[index + 1..],
                    at: front.end().saturating_add(1),
                };
                return Some((front, behind));
            }
        }
        None
    }

    /// The word without such a mark at its end, if it has one there.
    pub(crate) fn without_last(self, mark: u8) -> Option<Word<'a>> {
        match self.octets {
            [front @ .., last] if *last == mark => Some(Word {
                octets: front,
                at: self.at,
            }),
            _ => None,
        }
    }

    /// Whether it begins with such a mark.
    pub(crate) fn begins_with(self, mark: u8) -> bool {
        match self.octets {
            [first, ..] => *first == mark,
            [] => false,
        }
    }

    /// The fault that something else should stand in its place.
    pub(crate) fn fault(self, expected: Expected) -> Fault<'a> {
        Fault::Word {
            expected,
            found: self,
        }
    }
}

/// The words of a line that are still to be read: they are parted by single spaces, and a text in quotes is one word.
#[derive(Clone, Copy)]
pub(crate) struct Words<'a> {
    /// What is left of the line, unless that has ended.
    rest: Option<&'a [u8]>,
    /// The index at which that begins in the line.
    at: usize,
    /// Whether a semicolon at a word's end parts it from the next.
    has_marks: bool,
    /// The semicolon behind the last word, if there was one.
    mark: Option<Word<'a>>,
    /// The octets of the last element that was read with its tag.
    pub(crate) element: Option<Word<'a>>,
}

impl<'a> Words<'a> {
    /// The words of a line.
    pub(crate) fn new(line: &'a [u8]) -> Words<'a> {
        Words {
            rest: Some(line),
            at: 0,
            has_marks: false,
            mark: None,
            element: None,
        }
    }

    /// From here on a semicolon at a word's end parts writes.
    pub(crate) fn part_by_semicolons(&mut self) {
        self.has_marks = true;
    }

    /// The semicolon behind the last word, if there was one; the words behind it can be read then.
    pub(crate) fn take_semicolon(&mut self) -> Option<Word<'a>> {
        let mark = self.mark;
        self.mark = None;
        mark
    }

    /// The next word.
    ///
    /// # Errors
    /// What is expected, where there is none.
    pub(crate) fn next(&mut self, expected: Expected) -> Result<Word<'a>, Fault<'a>> {
        if let Some(mark) = self.mark {
            return Err(mark.fault(expected));
        }
        let Some(rest) = self.rest else {
            let end = Word {
                octets: b"",
                at: self.at,
            };
            return Err(end.fault(expected));
        };
        let (octets, behind) = cut_word(rest);
        let word = Word {
            octets,
            at: self.at,
        };
        self.rest = behind;
        self.at = match behind {
            Some(_) => word.end().saturating_add(1),
            None => word.end(),
        };
        Ok(self.unmarked(word))
    }

    /// The word without the semicolon that it may end with, which is kept.
    fn unmarked(&mut self, word: Word<'a>) -> Word<'a> {
        if !self.has_marks {
            return word;
        }
        match word.without_last(b';') {
            Some(front) => {
                self.mark = Some(Word {
                    octets: b";",
                    at: front.end(),
                });
                front
            }
            None => word,
        }
    }

    /// Whether no word is left before the next semicolon.
    pub(crate) fn are_read(&self) -> bool {
        self.mark.is_some() || self.rest.is_none()
    }

    /// How many octets are left of the line.
    pub(crate) fn len(&self) -> usize {
        match self.rest {
            Some(rest) => rest.len(),
            None => 0,
        }
    }

    /// Refuses words that are left.
    pub(crate) fn finish(&mut self) -> Result<(), Fault<'a>> {
        if self.are_read() {
            return Ok(());
        }
        let word = self.next(Expected::End)?;
        Err(word.fault(Expected::End))
    }
}

/// The first word of a line, and what stands behind its space, where there is one.
fn cut_word(line: &[u8]) -> (&[u8], Option<&[u8]>) {
    let mut quotes = Quotes::new();
    for (end, octet) in line.iter().enumerate() {
        if *octet == b' ' && !quotes.are_open {
            return (&line[..end], Some(&line[end + 1..]));
        }
        quotes.pass(end == 0, *octet);
    }
    (line, None)
}

/// A text without the octets at its end that are among these.
pub(crate) fn without_end<'a>(text: &'a [u8], octets: &[u8]) -> &'a [u8] {
    let mut left = text;
    for _octet in 0..text.len() {
        left = match left {
            [front @ .., last] if octets.contains(last) => front,
            _ => break,
        };
    }
    left
}

/// Whether an octet stands in a text in quotes, which begins where a word begins.
#[derive(Clone, Copy)]
pub(crate) struct Quotes {
    pub(crate) are_open: bool,
    is_escape: bool,
}

impl Quotes {
    /// Outside of quotes.
    pub(crate) fn new() -> Quotes {
        Quotes {
            are_open: false,
            is_escape: false,
        }
    }

    /// Passes an octet, which may be the first one of a word.
    pub(crate) fn pass(&mut self, is_first: bool, octet: u8) {
        if self.are_open {
            let is_end = octet == b'"' && !self.is_escape;
            self.is_escape = octet == b'\\' && !self.is_escape;
            self.are_open = !is_end;
        } else {
            self.are_open = is_first && octet == b'"';
        }
    }
}
