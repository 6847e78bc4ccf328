//! Datagrams and frames, `OCTETS NAME`: each is said as it stands, in each of its prefixes, and with each octet
//! changed.

use crate::hearers::{Speaker, say_to_all};
use crate::watched::{Hearer, say_changed};
use sheets::{Counts, Given, Row, Stop, differs, octets, two_words};

/// The octets of a row.
#[derive(Clone, Copy)]
struct Said<'a, 'o> {
    given: Given<'a>,
    octets: &'o [u8],
}

impl Speaker for Said<'_, '_> {
    fn say<H: Hearer>(&self, hearer: H) -> Result<(), Stop> {
        let runs = say_changed(self.given, hearer, self.octets)?;
        if runs != inputs(self.octets) {
            return Err(differs(self.given.alloc, "another number of runs"));
        }
        Ok(())
    }
}

/// How many prefixes octets have, and changes of one of them.
fn inputs(octets: &[u8]) -> u64 {
    (octets.len() as u64).saturating_mul(5)
}

/// Runs a row.
///
/// # Errors
/// `Differs` where one of its runs does otherwise than it says, and those of reading it.
pub(crate) fn run(given: Given<'_>, row: &Row<'_>) -> Result<Counts, Stop> {
    let (word, _name) = two_words(row.asked);
    let octets = octets(given.alloc, word)?;
    let octets = octets.as_slice();
    say_to_all(given, &Said { given, octets })?;
    Ok(Counts {
        rows: 1,
        refused: 0,
        changed: inputs(octets),
    })
}
