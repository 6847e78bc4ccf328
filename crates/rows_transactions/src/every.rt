//! Every list of a few segments: `every 5 4 3 -> 3906 lists, 22 whole` makes each list of up to five segments
//! of the numbers 0 to 4, of which 3 and no other is the last one, and joins it under each window from 0 to 4.
//! In each list what is joined is the concatenation of what was taken, which is numbered from 0; so many lists
//! are whole, under each window the same.

ghost use Rattle.std.specs.Prelude.{◌≡◌, ◌+◌};

use segments::{Receiver, Step};
use sheets::{Counts, Given, Part, Stop, differs, run_text, small, two_words};
use std::alloc::{AllocError, Allocator, Global};

/// How many windows are tried, from 0 on.
const WINDOWS: u8 = 5;

/// The numbers of segments in order.
const IN_ORDER: [u8; 8] = [0, 1, 2, 3, 4, 5, 6, 7];

/// The lists of up to `longest` segments with the numbers 0 to `greatest`, of which `last` is the last.
#[derive(Clone, Copy)]
struct Lists {
    longest: u8,
    greatest: u8,
    last: u8,
}

/// How many lists there are, and how many of them are whole.
#[derive(Clone, Copy)]
struct Found {
    lists: u64,
    whole: u64,
}

impl Lists {
    /// Joins the list of `length` segments that stands at `place` among those of its length. Answers whether
    /// it is whole, and nothing where what is joined is not what was taken.
    fn join<A: Allocator + Copy>(
        self,
        memory: A,
        length: u8,
        place: u64,
        window: u8,
    ) -> Result<Option<bool>, AllocError> {
        let mut receiver = Receiver::new(memory, window);
        let mut taken = Vec::new(memory);
        let mut rest = place;
        for _ in 0..length {
            let number = (rest % self.base()) as u8;
            rest /= self.base();
            let step = receiver.on_segment(number, number != self.last, &[number], 0)?;
            if matches!(step, Step::Taken(_)) {
                taken.push(number)?;
            }
        }
        Ok(self.judge(&receiver, taken.as_slice()))
    }

    /// How many numbers there are.
    fn base(self) -> u64
        ensures { result ≡ self.greatest + 1 }
    {
        u64::from(self.greatest) + 1
    }

    /// Whether a receiver that took these segments is whole, and nothing where it has others.
    fn judge<A: Allocator + Copy>(self, receiver: &Receiver<A>, taken: &[u8]) -> Option<bool> {
        if receiver.octets() != taken || !IN_ORDER.starts_with(taken) {
            return None;
        }
        let is_ended = taken.last() == Some(&self.last);
        match receiver.whole() {
            Some(whole) if is_ended && whole == taken => Some(true),
            None if !is_ended => Some(false),
            _ => None,
        }
    }

    /// Joins all lists of a length.
    fn join_all<A: Allocator + Copy>(
        self,
        alloc: Global,
        memory: A,
        length: u8,
        window: u8,
    ) -> Result<Found, Stop> {
        let mut found = Found { lists: 0, whole: 0 };
        for place in 0..self.base().saturating_pow(u32::from(length)) {
            match self.join(memory, length, place, window)? {
                Some(is_whole) => {
                    found.lists = found.lists.saturating_add(1);
                    found.whole = found.whole.saturating_add(u64::from(is_whole));
                }
                None => return Err(differs(alloc, "other segments than were taken")),
            }
        }
        Ok(found)
    }

    /// Joins all lists under a window, in words.
    fn show<A: Allocator + Copy>(
        self,
        alloc: Global,
        memory: A,
        window: u8,
    ) -> Result<String, Stop> {
        let mut all = Found { lists: 0, whole: 0 };
        for length in 0..=self.longest {
            let found = self.join_all(alloc, memory, length, window)?;
            all.lists = all.lists.saturating_add(found.lists);
            all.whole = all.whole.saturating_add(found.whole);
        }
        let Found { lists, whole } = all;
        Ok(format!(in alloc; "{lists} lists, {whole} whole")?)
    }
}

/// The lists that a row asks for.
fn read_lists(asked: &str) -> Result<Lists, Stop> {
    let (longest, rest) = two_words(asked);
    let (greatest, last) = two_words(rest);
    let lists = Lists {
        longest: small(longest)?,
        greatest: small(greatest)?,
        last: small(last)?,
    };
    if lists.longest > 6 || lists.greatest > 6 {
        return Err(Stop::Unread(Part::Number));
    }
    Ok(lists)
}

/// Runs a row.
pub(crate) fn run(given: Given<'_>, asked: &str, wanted: &str) -> Result<Counts, Stop> {
    let lists = read_lists(asked)?;
    let mut counts = Counts::none();
    for window in 0..WINDOWS {
        counts = run_text(lists.show(given.alloc, given.memory, window)?, wanted)?;
    }
    Ok(counts)
}
