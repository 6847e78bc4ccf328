//! What a row asks of a capture, as on a command line: `--json`, `--between A B`, `--instance N`, `--from MS`,
//! `--to MS`, one after the other and each once, before the steps.

use diagnosis_reading::Form;
use packet_choice::{Choice, Failure, Place, party_in, places_of};
use sheets::{Part, Stop, two_words};
use std::alloc::{AllocError, Allocator};
use std::io::Read;
use words::parse_number;

/// The most options of a row.
const MOST: usize = 5;

/// What a row asks of a capture.
#[derive(Clone, Copy)]
pub(crate) struct Asking<'q> {
    pub(crate) form: Form,
    between: Option<(&'q str, &'q str)>,
    instance: Option<u32>,
    from: u64,
    to: u64,
}

/// What a row asks, and the steps behind that.
pub(crate) fn asking_in(words: &str) -> Result<(Asking<'_>, &str), Stop> {
    let mut asking = Asking {
        form: Form::Lines,
        between: None,
        instance: None,
        from: 0,
        to: u64::MAX,
    };
    let mut left = words;
    for _ in 0..MOST {
        if !left.starts_with("--") {
            break;
        }
        let (option, behind) = two_words(left);
        left = asking.take(option, behind)?;
    }
    Ok((asking, left))
}

impl<'q> Asking<'q> {
    /// Takes an option, and returns the words behind it.
    fn take(&mut self, option: &str, behind: &'q str) -> Result<&'q str, Stop> {
        if option == "--json" {
            self.form = Form::Json;
            return Ok(behind);
        }
        let (word, behind) = two_words(behind);
        match option {
            "--between" => {
                let (other, behind) = two_words(behind);
                self.between = Some((word, other));
                return Ok(behind);
            }
            "--instance" => self.instance = Some(parse_number(word)?),
            "--from" => self.from = parse_number::<u64>(word)?.saturating_mul(1000),
            "--to" => self.to = parse_number::<u64>(word)?.saturating_mul(1000),
            _ => return Err(Stop::Unread(Part::Asked)),
        }
        Ok(behind)
    }

    /// The packets that are asked for; where a device is, the file says, which is read to its end for that.
    pub(crate) fn choice<A: Allocator + Copy, R: Read>(
        &self,
        alloc: A,
        input: &mut R,
    ) -> Result<Choice<A>, Failure> {
        let device = match self.instance {
            Some(instance) => Some(places_of(alloc, instance, input)?),
            None => None,
        };
        let between = match self.between {
            Some((one, other)) => Some([station(alloc, one)?, station(alloc, other)?]),
            None => None,
        };
        Ok(Choice {
            from: self.from,
            to: self.to,
            between,
            device,
        })
    }
}

/// Where the station is that a word names; nowhere where it names none.
fn station<A: Allocator + Copy>(alloc: A, word: &str) -> Result<Vec<Place, A>, AllocError> {
    let mut places = Vec::new(alloc);
    if let Some(party) = party_in(alloc, word)? {
        places.push(Place::At(party))?;
    }
    Ok(places)
}
