//! What the judge says of a history, of a time, and of what an ear hears.

use crate::entries::{devices, entries, tables};
use judge::{Ear, Objection, is_in_time, judge_history};
use sheets::{Given, Part, Stop, Trial, number, octets, push_mark, two_words};
use site_text::site_of;
use std::alloc::Global;
use tags::{Fault, Octets};

/// Two devices and a client.
const SITE: &str = "network = [{number = 1, kind = \"ip\"}]
client = [{name = \"c\", network = 1, subnet = 1, address = \"127.0.0.1:47810\"}]
[[device]]
name = \"d\"
instance = 10
network = 1
subnet = 1
address = \"127.0.0.1:47811\"
object = [{type = \"binary-value\", instance = 1, name = \"B1\", default = 0},
  {type = \"integer-value\", instance = 1, name = \"I1\", default = 7}]
[[device]]
name = \"e\"
instance = 20
network = 1
subnet = 1
address = \"127.0.0.1:47812\"
object = [{type = \"binary-value\", instance = 1, name = \"B1\", default = 0}]
";

/// Whether a message with a stamp may be heard at a moment, in a word.
pub(crate) fn time_in(words: &str) -> Result<&'static str, Stop> {
    let (stamp, now) = two_words(words);
    if is_in_time(u64::from(number(stamp)?), u64::from(number(now)?)) {
        Ok("heard")
    } else {
        Ok("too old")
    }
}

/// Whether an ear hears only frames of a list, step by step: `FRAME | .. || NOW OCTETS | ..`.
pub(crate) fn ear_in(alloc: Global, words: &str) -> Result<String, Stop> {
    let Some((frames, steps)) = words.split_once(" || ") else {
        return Err(Stop::Unread(Part::Asked));
    };
    let frames = all_octets(alloc, frames)?;
    let known = slices(alloc, frames.as_slice())?;
    let mut ear = Ear::new(0);
    let mut said = String::new(alloc);
    for step in steps.split(" | ") {
        let (now, heard) = two_words(step);
        let heard = octets(alloc, heard)?;
        let now = u64::from(number(now)?);
        let is_known = ear.hears_only(heard.as_slice(), known.as_slice(), now);
        push_mark(", ", &mut said)?;
        said.push_str(if is_known { "so" } else { "forged" })?;
    }
    Ok(said)
}

/// Octets in words, parted by marks.
fn all_octets(alloc: Global, words: &str) -> Result<Vec<Octets<Global>>, Stop> {
    let mut all = Vec::new(alloc);
    for word in words.split(" | ") {
        all.push(octets(alloc, word)?)?;
    }
    Ok(all)
}

/// The slices of octets.
fn slices(alloc: Global, all: &[Octets<Global>]) -> Result<Vec<&[u8]>, Stop> {
    let mut slices = Vec::new(alloc);
    for one in all {
        slices.push(one.as_slice())?;
    }
    Ok(slices)
}

/// A history in words.
#[derive(Clone, Copy)]
pub(crate) struct History<'t> {
    pub(crate) words: &'t str,
}

impl<'a> Trial<'a> for History<'_> {
    fn answer(&self, given: Given<'a>, _octets: &[u8]) -> Result<String, Stop> {
        let Ok(site) = site_of(given.alloc, given.other, SITE.as_bytes()) else {
            return Err(Stop::Unread(Part::Asked));
        };
        let history = entries(given.other, self.words)?;
        let tables = tables(given.other, site.stations(), self.words)?;
        let devices = devices(given.other, site.stations(), tables.as_slice())?;
        match judge_history(given.memory, devices.as_slice(), history.as_slice()) {
            Ok(()) => Ok(String::from_str(given.alloc, "legal")?),
            Err(Objection::Unjudged(Fault::Memory)) => Err(Stop::Memory),
            Err(objection) => Ok(format!(in given.alloc; "{objection}")?),
        }
    }
}
